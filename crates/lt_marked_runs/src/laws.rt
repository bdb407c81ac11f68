//! Laws of the definitions; the functions call those on which they rest.

ghost use Rattle.lt_marked_runs.specs.Laws.{ProgramsAreMadeInSteps, ProgramsRunBeside};

use lt_listed_types::types_of_accesses_are_listed;
use lt_mark_laws::marks_change_nothing;
use lt_object_laws::further_objects_change_nothing;
use lt_type_laws::{accessed_types_change_nothing, units_have_their_types};
use lt_typed_addresses::addresses_of_units_are_there;

/// A program is made of itself, and of what was made of it by adding marks and further objects once more.
pub fn programs_are_made_in_steps()
    ensures { ProgramsAreMadeInSteps }
{}

/// What is made of a typed unit's program runs as it, new marks and further objects aside.
pub fn programs_run_beside()
    ensures { ProgramsRunBeside }
{
    marks_change_nothing();
    further_objects_change_nothing();
    accessed_types_change_nothing();
    units_have_their_types();
    types_of_accesses_are_listed();
    addresses_of_units_are_there();
}
