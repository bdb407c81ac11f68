//! Laws of texts with marks added; the functions call those on which they rest.

ghost use Rattle.lt_kept_facts.specs.Laws.{
  ExpressionsNoteTheSame,
  FactsAreFoundByEither,
  UnitsNoteTheSame,
};
ghost use Rattle.lt_kept_facts.specs.Objectives.{MarkedUnitsKnowTheSame, ObjectivesAreFoundByEither};

use lt_mark_typing::{expressions_are_typed_again, units_are_typed_again};
use lt_tree_laws::nodes_are_numbered;
use lt_typed_nodes::parts_note_their_nodes;

/// An expression with marks added notes the same of the nodes that are there without them.
pub fn expressions_note_the_same()
    ensures { ExpressionsNoteTheSame }
{
    nodes_are_numbered();
    parts_note_their_nodes();
    expressions_are_typed_again();
}

/// So does a unit with marks added.
pub fn units_note_the_same()
    ensures { UnitsNoteTheSame }
{
    nodes_are_numbered();
    parts_note_their_nodes();
    expressions_are_typed_again();
}

/// What is the same of the nodes outside of marks is found by either program.
pub fn facts_are_found_by_either()
    ensures { FactsAreFoundByEither }
{}

/// Objectives are the same by either of two programs that know the same.
pub fn objectives_are_found_by_either()
    ensures { ObjectivesAreFoundByEither }
{
    facts_are_found_by_either();
}

/// The program of a unit with marks added knows the same as that of the unit.
pub fn marked_units_know_the_same()
    ensures { MarkedUnitsKnowTheSame }
{
    nodes_are_numbered();
    parts_note_their_nodes();
    expressions_are_typed_again();
    units_note_the_same();
    units_are_typed_again();
}
