ghost use Rattle.std.specs.Prelude.{◌≡◌, ◌≤◌, ◌+◌, IfErr, IfOk};
ghost use Rattle.lt_tree.specs.UnitView.{unit_of};
ghost use Rattle.lt_tree.specs.Typing.ProgramView.{program_of};
ghost use Rattle.lt_numbering.specs.Numbering.{most_id};
ghost use Rattle.lt_survey.specs.Marking.{IsMarkedBy, IdsPass, bits_of, chosen};
ghost use Rattle.lt_mcc.specs.Combinations.{criteria};

use crate::combination::COMBINATIONS;
use crate::round::mark_combinations;
use bitflags::Flags;
use lt_numbering::MarkStop;
use lt_objectives::Criteria;
use lt_survey::{Marked, unmarked};
use lt_tree::Unit;
use lt_tree::typed::Program;
use std::alloc::Global;

/// A copy of a unit with labels for combinations of clauses, by those of the criteria whose labels this crate makes that are in a set. The program is that of the unit,
/// or of one that is the same without marks. The ids of the labels go on from this one.
pub fn annotate(
    alloc: Global,
    unit: &Unit,
    program: &Program<'_>,
    which: Criteria,
    first: u32,
) -> Result<Marked, MarkStop>
    requires { first ≤ most_id + 1 }
    ensures marked { IfOk result (IsMarkedBy (chosen criteria (bits_of which)) (unit_of unit.now) (program_of program.now) first) }
    ensures ids { IfErr result (λ why. why ≡ MarkStop.Ids → IdsPass (chosen criteria (bits_of which)) (unit_of unit.now) (program_of program.now) first) }
{
    let copy = unmarked(alloc, unit, first)?;
    annotate_further(alloc, copy, program, which)
}

/// The same of a unit in which others have put labels before: it is taken, and ids go on behind theirs.
pub fn annotate_further(
    alloc: Global,
    before: Marked,
    program: &Program<'_>,
    which: Criteria,
) -> Result<Marked, MarkStop>
    requires { before.next ≤ most_id + 1 }
    ensures marked { IfOk result (IsMarkedBy (chosen criteria (bits_of which)) (unit_of before.unit) (program_of program.now) before.next) }
    ensures ids { IfErr result (λ why. why ≡ MarkStop.Ids → IdsPass (chosen criteria (bits_of which)) (unit_of before.unit) (program_of program.now) before.next) }
{
    let mut made = before;
    'combinations: for combination in &COMBINATIONS {
        if which.contains(combination.criterion().alone()) {
            made = mark_combinations(alloc, &made.unit, program, *combination, made.next)?;
        }
    }
    Ok(made)
}
