//! Laws of the definitions; the functions call those on which they rest.

ghost use Rattle.lt_objective_typing.specs.Laws.{DecisionsGivePredicates, DomainsGivePredicates, LabelsOfObjectivesAreNew, MarkedExpressionsHavePredicates, MarkedExpressionsKeepTheirTypes, MutantsGivePredicates, ObjectivesHavePredicates};

use lt_mark_typing::{named_objects_are_known, predicates_are_made, pure_expressions_are_there};

/// What criteria make of a decision whose clauses are predicates is a predicate.
pub fn decisions_give_predicates()
    ensures { DecisionsGivePredicates }
{
    predicates_are_made();
}

/// That an expression and its mutant differ is a predicate, where their operands are typed.
pub fn mutants_give_predicates()
    ensures { MutantsGivePredicates }
{
    predicates_are_made();
}

/// The parts of the domain of a parameter are predicates.
pub fn domains_give_predicates()
    ensures { DomainsGivePredicates }
{
    predicates_are_made();
}

/// The objectives at a pure expression that is typed where it stands have predicates.
pub fn objectives_have_predicates()
    ensures { ObjectivesHavePredicates }
{
    predicates_are_made();
    pure_expressions_are_there();
    named_objects_are_known();
}

/// The objectives at an expression whose marks can be taken off have predicates where it is typed.
pub fn marked_expressions_have_predicates()
    ensures { MarkedExpressionsHavePredicates }
{
    predicates_are_made();
    pure_expressions_are_there();
    named_objects_are_known();
}

/// An expression whose marks can be taken off has the same type without them where it is typed, and so have its operands.
pub fn marked_expressions_keep_their_types()
    ensures { MarkedExpressionsKeepTheirTypes }
{
    pure_expressions_are_there();
    named_objects_are_known();
}

/// The labels of objectives at one place, numbered one after the other, are new labels there.
pub fn labels_of_objectives_are_new()
    ensures { LabelsOfObjectivesAreNew }
{}
