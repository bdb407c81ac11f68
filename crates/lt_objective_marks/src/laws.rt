//! Laws of the marks of objectives; the functions call those on which they rest.

ghost use Rattle.lt_objective_marks.specs.Laws.{ObjectivesAreAddedToExpressions};
ghost use Rattle.lt_objective_marks.specs.Mutants.{
  MarkedUnitsTellMutantsApart,
  RoundsTellMutantsApart,
};
ghost use Rattle.lt_objective_marks.specs.Rounds.{
  FirstProgramsKnowAsMuch,
  MarkedUnitsOfSetsRunAsTheyDid,
  RoundsRunAsTheyDid,
};
ghost use Rattle.lt_objective_marks.specs.Units.{MarkedUnitsRunAsTheyDid, ObjectivesAreAdded};

use lt_erased_typing::{literals_are_typed_without_marks, truths_are_typed_as_values};
use lt_kept_facts::{marked_units_know_the_same, objectives_are_found_by_either};
use lt_made_types::no_test_is_a_pointer_to_a_function;
use lt_mark_typing::units_are_typed_again;
use lt_marked_places::{differences_stay, labels_come_from_units};
use lt_marked_runs::{programs_are_made_in_steps, programs_run_beside};
use lt_mutation_labels::mutants_are_told_apart;
use lt_objective_places::{
    constants_are_closed, marks_are_of_one_node, objectives_stand_where_they_may, pieces_stand,
};
use lt_objective_typing::{
    decisions_give_predicates, domains_give_predicates, labels_of_objectives_are_new,
    marked_expressions_have_predicates, marked_expressions_keep_their_types,
    mutants_give_predicates,
};
use lt_simple_copies::copies_are_simple;
use lt_tree_laws::nodes_are_numbered;
use lt_typed_nodes::{constants_stay, operands_have_their_types, parts_are_come_to};

/// The marks of objectives are added to an expression where they may stand.
pub fn objectives_are_added_to_expressions()
    ensures { ObjectivesAreAddedToExpressions }
{
    nodes_are_numbered();
    pieces_stand();
    objectives_stand_where_they_may();
    marks_are_of_one_node();
    marked_expressions_have_predicates();
    marked_expressions_keep_their_types();
    mutants_are_told_apart();
    labels_of_objectives_are_new();
    truths_are_typed_as_values();
    operands_have_their_types();
    parts_are_come_to();
    constants_stay();
    constants_are_closed();
    literals_are_typed_without_marks();
    copies_are_simple();
    no_test_is_a_pointer_to_a_function();
}

/// Each new mark of a unit stands where it may.
pub fn objectives_are_added()
    ensures { ObjectivesAreAdded }
{
    objectives_are_added_to_expressions();
    domains_give_predicates();
    labels_of_objectives_are_new();
    marks_are_of_one_node();
    nodes_are_numbered();
}

/// So the marked unit runs as the unit does, new marks aside.
pub fn marked_units_run_as_they_did()
    ensures { MarkedUnitsRunAsTheyDid }
{
    objectives_are_added();
    units_are_typed_again();
    programs_are_made_in_steps();
    programs_run_beside();
}

/// The program of the first unit gives the objectives of a unit that was made of it in rounds.
pub fn first_programs_know_as_much()
    ensures { FirstProgramsKnowAsMuch }
{
    nodes_are_numbered();
    marked_units_know_the_same();
    objectives_are_found_by_either();
}

/// A unit with the marks of criteria, one after the other, runs as the unit does, new marks aside.
pub fn rounds_run_as_they_did()
    ensures { RoundsRunAsTheyDid }
{
    first_programs_know_as_much();
    labels_of_objectives_are_new();
    decisions_give_predicates();
    mutants_give_predicates();
    domains_give_predicates();
    objectives_are_added();
    units_are_typed_again();
    programs_are_made_in_steps();
    programs_run_beside();
}

/// So does a unit with the marks of a set of criteria, whose ids go on from the greatest of the unit.
pub fn marked_units_of_sets_run_as_they_did()
    ensures { MarkedUnitsOfSetsRunAsTheyDid }
{
    rounds_run_as_they_did();
}

/// The labels of mutants that criteria add, one after the other, are exact in the unit with all of them.
pub fn rounds_tell_mutants_apart()
    ensures { RoundsTellMutantsApart }
{
    first_programs_know_as_much();
    labels_of_objectives_are_new();
    decisions_give_predicates();
    mutants_give_predicates();
    domains_give_predicates();
    objectives_are_added();
    units_are_typed_again();
    labels_come_from_units();
    differences_stay();
}

/// So are those that a set of criteria adds, whose ids go on from the greatest of the unit.
pub fn marked_units_tell_mutants_apart()
    ensures { MarkedUnitsTellMutantsApart }
{
    rounds_tell_mutants_apart();
}
