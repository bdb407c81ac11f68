//! Laws of the definitions; the functions do nothing.

ghost use Rattle.lt_replayed.specs.Laws.{CoverageNeedsNoUnit, SuitesHaveOneTable};

use lt_mark_laws::{marks_change_nothing, programs_are_themselves};

/// A suite has at most one table.
pub fn a_suite_has_one_table()
    ensures { SuitesHaveOneTable }
{}

/// What a suite covers depends neither on the unit of a program nor on what is known of its expressions.
pub fn coverage_needs_no_unit()
    ensures { CoverageNeedsNoUnit }
{
    marks_change_nothing();
    programs_are_themselves();
}
