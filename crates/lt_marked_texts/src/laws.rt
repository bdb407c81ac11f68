//! Laws of units with the marks of objectives; the functions call laws of the crates below and do nothing else.

ghost use Rattle.lt_marked_texts.specs.Laws.{MarkedUnitsAreWellMade, AnnotatedTextsAreOfUnitsAlone};

use lt_tree_laws::nodes_are_numbered;

/// A well-made unit that has a typed program is well-made with the marks of objectives too.
pub fn marked_units_are_well_made()
    ensures { MarkedUnitsAreWellMade }
{
    nodes_are_numbered();
}

/// The canonical text of a unit with the marks of objectives is of this unit alone.
pub fn annotated_texts_are_of_units_alone()
    ensures { AnnotatedTextsAreOfUnitsAlone }
{
    marked_units_are_well_made();
}
