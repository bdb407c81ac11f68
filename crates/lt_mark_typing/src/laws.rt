//! Laws of the definitions; the functions do nothing.

ghost use Rattle.lt_mark_typing.specs.Laws.{ExpressionsAreTypedAgain, NamedObjectsAreKnown, OthersAreTypedAlike, PredicatesAreMade, PureExpressionsAreThere, StatementsAreTypedAgain, UnitsAreTypedAgain};

/// An expression with marks added, each where it may stand, is typed as the typed expression with these marks added.
pub fn expressions_are_typed_again()
    ensures { ExpressionsAreTypedAgain }
{}

/// An expression in which no mark is added is typed as it was, but for the numbers of objects.
pub fn others_are_typed_alike()
    ensures { OthersAreTypedAlike }
{}

/// Each object that a name stands for is known there.
pub fn named_objects_are_known()
    ensures { NamedObjectsAreKnown }
{}

/// Statements and items with marks added, each where it may stand, are typed as the typed ones with these marks added.
pub fn statements_are_typed_again()
    ensures { StatementsAreTypedAgain }
{}

/// A unit with marks added, each where it may stand, is typed as the unit's program with these marks added, which may have
/// objects of their own.
pub fn units_are_typed_again()
    ensures { UnitsAreTypedAgain }
{}

/// What negations, `&&`, `||`, `-`, `?:` and operators on integers make of predicates is one.
pub fn predicates_are_made()
    ensures { PredicatesAreMade }
{}

/// A pure expression that finds nothing but facts and further objects is typed alike where labels are put in front of it.
pub fn pure_expressions_are_there()
    ensures { PureExpressionsAreThere }
{}
