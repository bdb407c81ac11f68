ghost use Rattle.std.specs.Prelude.{◌≡◌, ◌≤◌, ◌<◌, ◌+◌, IfErr, IfOk};
ghost use Rattle.lt_tree.specs.Tree as c;
ghost use Rattle.lt_tree.specs.UnitView.{unit_of};
ghost use Rattle.lt_tree.specs.Typing.Programs.{Program as ProgramValue};
ghost use Rattle.lt_tree.specs.Typing.ProgramView.{program_of};
ghost use Rattle.lt_objectives.specs.Marked.{next_id};
ghost use Rattle.lt_objectives.specs.Objectives.{objectives};
ghost use Rattle.lt_numbering.specs.Numbering.{Number, most_id};
ghost use Rattle.lt_survey.specs.Marking.{IsMarkedWith};
ghost use Rattle.lt_survey.specs.Survey.{IsSurvey};
ghost use Rattle.lt_mcc.specs.Combinations.{criterion_of};

use crate::combination::Combination;
use crate::predicates::predicates_at;
use lt_numbering::{MarkStop, NewMarks};
use lt_placing::Form;
use lt_survey::{Marked, Survey, marked_with, survey_of};
use lt_tree::Unit;
use lt_tree::typed::Program;
use std::alloc::Global;

/// A unit with the labels for combinations of one kind.
pub fn mark_combinations(
    alloc: Global,
    unit: &Unit,
    program: &Program<'_>,
    combination: Combination,
    first: u32,
) -> Result<Marked, MarkStop>
    requires { first ≤ most_id + 1 }
    ensures marked { IfOk result (IsMarkedWith (unit_of unit.now) first (objectives (unit_of unit.now) (program_of program.now) (criterion_of combination))) }
    ensures within { IfOk result (λ it. it.next ≤ most_id + 1) }
    ensures ids { IfErr result (λ why. why ≡ MarkStop.Ids → most_id + 1 < next_id first (objectives (unit_of unit.now) (program_of program.now) (criterion_of combination))) }
{
    let survey = survey_of(alloc, unit, program)?;
    let new = new_marks(alloc, &survey, combination, first)?;
    Ok(marked_with(alloc, unit, new)?)
}

/// The labels for the combinations of the unit of a survey.
fn new_marks(
    alloc: Global,
    survey: &Survey<'_>,
    combination: Combination,
    first: u32,
) -> Result<NewMarks, MarkStop>
    requires { first ≤ most_id + 1 }
    ensures marks { (unit : c.Unit) (program : ProgramValue) → IsSurvey unit program survey.now → IfOk result (λ new. Number new first (objectives unit program (criterion_of combination))) }
    ensures ids { (unit : c.Unit) (program : ProgramValue) → IsSurvey unit program survey.now → IfErr result (λ why. why ≡ MarkStop.Ids → most_id + 1 < next_id first (objectives unit program (criterion_of combination))) }
{
    let mut new = NewMarks::new(alloc, first);
    'nodes: for k in 0..survey.sites.len() {
        let predicates = predicates_at(alloc, survey, combination, k)?;
        new.add(
            alloc,
            k as u64,
            Form::InFront,
            combination.criterion(),
            predicates,
        )?;
    }
    Ok(new)
}
