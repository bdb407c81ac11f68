//! Laws of the definitions; the functions call those on which they rest.

ghost use Rattle.lt_marked_places.specs.Laws.{DifferencesStay, LabelsComeFromUnits};

use lt_mark_typing::{
    expressions_are_typed_again, others_are_typed_alike, statements_are_typed_again,
};
use lt_typed_nodes::parts_are_come_to;

/// A label to which typing comes in a unit with marks added stands in the unit without them, or is one of those that were added.
pub fn labels_come_from_units()
    ensures { LabelsComeFromUnits }
{
    expressions_are_typed_again();
    others_are_typed_alike();
    statements_are_typed_again();
    parts_are_come_to();
}

/// Where two pure expressions are told apart, they are so at the same place of the text with marks added.
pub fn differences_stay()
    ensures { DifferencesStay }
{
    others_are_typed_alike();
}
