//! Laws of the definitions; the functions do nothing.

ghost use Rattle.lt_type_laws.specs.Laws.{AccessedTypesChangeNothing, KnownTypesAreListed, ListsHaveNumbers, OtherTypesChangeNothing, ProgramsAreRenumbered, TypesAreRenumbered, UnitsHaveTheirTypes};

/// A program with another list of types has the same end, ticks, values left and marks in each run, and the same memory
/// but for the numbers of types in its cells.
pub fn other_types_change_nothing()
    ensures { OtherTypesChangeNothing }
{}

/// Where a list has each type of another, and both have each once, the types of that have numbers in it.
pub fn types_are_renumbered()
    ensures { TypesAreRenumbered }
{}

/// The list of types of a unit's program is of the types of members, objects, functions and expressions, each once.
pub fn units_have_their_types()
    ensures { UnitsHaveTheirTypes }
{}

/// It has each type that is known of an expression.
pub fn known_types_are_listed()
    ensures { KnownTypesAreListed }
{}

/// A program with the list of types of one that knows its types has another list of types.
pub fn programs_are_renumbered()
    ensures { ProgramsAreRenumbered }
{}

/// Where two lists have each type once, the types of both have numbers in the second.
pub fn lists_have_numbers()
    ensures { ListsHaveNumbers }
{}

/// A program that gets at memory by types of two lists has the same end, ticks, values left and marks in each run with
/// either, and the same memory but for the numbers of types in its cells, whatever numbers its input's cells have.
pub fn accessed_types_change_nothing()
    ensures { AccessedTypesChangeNothing }
{}
