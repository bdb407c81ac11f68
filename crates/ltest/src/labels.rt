//! The labels of a set of criteria.

ghost use Rattle.std.specs.Prelude.{◌≡◌, IfOk, IfErr, Ok};
ghost use Rattle.lt_tree.specs.UnitView.{unit_of};
ghost use Rattle.lt_tree.specs.Typing.ProgramView.{program_of};
ghost use Rattle.lt_numbering.specs.declared.stop.MarkStop.TheVariants.{Ids};
ghost use Rattle.lt_survey.specs.Marking.{bits_of};
ghost use Rattle.ltest.specs.Labels.{HasIds, HasLabels};

use lt_marks::max_id;
use lt_numbering::MarkStop;
use lt_objectives::Criteria;
use lt_survey::{Marked, unmarked};
use lt_tree::Unit;
use lt_tree::typed::Program;
use std::alloc::{AllocError, Global};

/// The unit with the labels of a set of criteria, in the order in which criteria are applied: tests of functions, inputs and decisions first, then
/// combinations of clauses, then mutants. Ids go on from the greatest one of the unit.
pub fn with_labels(
    alloc: Global,
    unit: &Unit,
    program: &Program<'_>,
    which: Criteria,
) -> Result<Unit, AllocError>
    requires { HasIds (unit_of unit.now) (program_of program.now) (bits_of which) }
    ensures { IfOk result (HasLabels (unit_of unit.now) (program_of program.now) (bits_of which)) }
{
    let first = max_id(unit) + 1;
    let copy = unmarked(alloc, unit, first)?;
    let tests = within(lt_crit::annotate_further(alloc, copy, program, which))?;
    let combinations = within(lt_mcc::annotate_further(alloc, tests, program, which))?;
    let mutants = within(lt_mut::annotate_further(alloc, combinations, program, which))?;
    Ok(mutants.unit)
}

// What an annotator gives where no id passes the greatest.
fn within(made: Result<Marked, MarkStop>) -> Result<Marked, AllocError>
    requires { IfErr made (λ why. why ≡ Ids → ⊥) }
    ensures { IfOk result (λ it. made ≡ Ok it) }
{
    match made {
        Ok(it) => Ok(it),
        Err(why) => Err(want_of_memory(why)),
    }
}

// Where no id passes the greatest, an annotator lacked memory.
fn want_of_memory(why: MarkStop) -> AllocError
    requires { why ≡ Ids → ⊥ }
{
    match why {
        MarkStop::NoMemory => AllocError,
        MarkStop::Ids => unreachable!(),
    }
}
