// The marks of each criterion, one after the other.

ghost use Rattle.std.specs.Prelude.{◌≡◌, ◌≤◌, ◌<◌, ◌+◌, ℕ, List, ◌∷◌, IfErr, IfOk};
ghost use Rattle.lt_tree.specs.Tree as c;
ghost use Rattle.lt_tree.specs.UnitView.{unit_of};
ghost use Rattle.lt_tree.specs.Typing.ProgramView.{program_of};
ghost use Rattle.lt_objectives.specs.declared.criteria.Criterion.{Criterion as Each};
ghost use Rattle.lt_objectives.specs.Objectives.{objectives};
ghost use Rattle.lt_objectives.specs.Marked.{next_id};
ghost use Rattle.lt_numbering.specs.declared.stop.MarkStop.TheVariants as stop;
ghost use Rattle.lt_numbering.specs.Numbering.{Number, most_id};
ghost use Rattle.lt_survey.specs.Survey.{IsSurvey};
ghost use Rattle.lt_survey.specs.Marking.{IsMarkedWith, IsMarkedBy, IdsPass, bits_of, chosen};
ghost use Rattle.lt_survey.specs.Rounds.{Leads};
ghost use Rattle.lt_crit.specs.Criteria.{criteria, IsOneOfThem};

use crate::node::add_at_node;
use bitflags::Flags;
use lt_facts::type_families;
use lt_numbering::{MarkStop, NewMarks};
use lt_objectives::{Criteria, Criterion};
use lt_survey::{Marked, Survey, marked_with, survey_of, unmarked};
use lt_tree::Unit;
use lt_tree::typed::Program;
use std::alloc::Global;

/// A unit with the marks of those of the criteria that are chosen, with ids from `first` on, and the id that follows theirs; or why there is none. The
/// program is that of the unit, or of one that is the same without marks.
pub fn annotate(
    alloc: Global,
    unit: &Unit,
    program: &Program<'_>,
    which: Criteria,
    first: u32,
) -> Result<Marked, MarkStop>
    requires { first ≤ most_id + 1 }
    ensures marked { IfOk result (IsMarkedBy (chosen criteria (bits_of which)) (unit_of unit.now) (program_of program.now) first) }
    ensures ids { IfErr result (λ why. why ≡ stop.Ids → IdsPass (chosen criteria (bits_of which)) (unit_of unit.now) (program_of program.now) first) }
{
    let copy = unmarked(alloc, unit, first)?;
    annotate_further(alloc, copy, program, which)
}

/// The same of a unit in which others have put labels before: it is taken, and ids go on behind theirs.
pub fn annotate_further(
    alloc: Global,
    before: Marked,
    program: &Program<'_>,
    which: Criteria,
) -> Result<Marked, MarkStop>
    requires { before.next ≤ most_id + 1 }
    ensures marked { IfOk result (IsMarkedBy (chosen criteria (bits_of which)) (unit_of before.unit) (program_of program.now) before.next) }
    ensures ids { IfErr result (λ why. why ≡ stop.Ids → IdsPass (chosen criteria (bits_of which)) (unit_of before.unit) (program_of program.now) before.next) }
{
    let functions = round_if_chosen(alloc, before, program, which, Criterion::Function)?;
    let domains = round_if_chosen(alloc, functions, program, which, Criterion::InputDomain)?;
    let decisions = round_if_chosen(alloc, domains, program, which, Criterion::Decision)?;
    round_if_chosen(alloc, decisions, program, which, Criterion::Condition)
}

/// A round, if the criterion is chosen.
fn round_if_chosen(
    alloc: Global,
    so_far: Marked,
    program: &Program<'_>,
    which: Criteria,
    criterion: Criterion,
) -> Result<Marked, MarkStop>
    requires criterion { IsOneOfThem criterion }
    requires within { so_far.next ≤ most_id + 1 }
    ensures within { IfOk result (λ it. it.next ≤ most_id + 1) }
    ensures leads { (left whole : List Each) (unit : c.Unit) (id : ℕ) → Leads (chosen (criterion ∷ left) (bits_of which)) whole unit (program_of program.now) id so_far
        → IfOk result (Leads (chosen left (bits_of which)) whole unit (program_of program.now) id) }
    ensures ids { (left whole : List Each) (unit : c.Unit) (id : ℕ) → Leads (chosen (criterion ∷ left) (bits_of which)) whole unit (program_of program.now) id so_far
        → IfErr result (λ why. why ≡ stop.Ids → IdsPass whole unit (program_of program.now) id) }
{
    if which.contains(criterion.alone()) {
        round(alloc, &so_far, program, criterion)
    } else {
        Ok(so_far)
    }
}

/// A unit with the marks of a criterion too.
fn round(
    alloc: Global,
    so_far: &Marked,
    program: &Program<'_>,
    criterion: Criterion,
) -> Result<Marked, MarkStop>
    requires criterion { IsOneOfThem criterion }
    requires within { so_far.now.next ≤ most_id + 1 }
    ensures within { IfOk result (λ it. it.next ≤ most_id + 1) }
    ensures marked { IfOk result (IsMarkedWith (unit_of so_far.now.unit) so_far.now.next (objectives (unit_of so_far.now.unit) (program_of program.now) criterion)) }
    ensures ids { IfErr result (λ why. why ≡ stop.Ids → most_id + 1 < next_id so_far.now.next (objectives (unit_of so_far.now.unit) (program_of program.now) criterion)) }
{
    let survey = survey_of(alloc, &so_far.unit, program)?;
    let new = new_marks(alloc, &survey, program, criterion, so_far.next)?;
    Ok(marked_with(alloc, &so_far.unit, new)?)
}

/// The marks of a criterion, with ids from this one on, for the unit of the survey.
fn new_marks(
    alloc: Global,
    survey: &Survey<'_>,
    program: &Program<'_>,
    criterion: Criterion,
    first: u32,
) -> Result<NewMarks, MarkStop>
    requires criterion { IsOneOfThem criterion }
    requires within { first ≤ most_id + 1 }
    ensures numbered { (unit : c.Unit) → IsSurvey unit (program_of program.now) survey.now → IfOk result (λ new. Number new first (objectives unit (program_of program.now) criterion)) }
    ensures ids { (unit : c.Unit) → IsSurvey unit (program_of program.now) survey.now
        → IfErr result (λ why. why ≡ stop.Ids → most_id + 1 < next_id first (objectives unit (program_of program.now) criterion)) }
{
    let types = type_families(alloc, program)?;
    let mut new = NewMarks::new(alloc, first);
    'sites: for (number, site) in survey.sites.iter().enumerate() {
        add_at_node(
            alloc, survey, program, &types, criterion, number, site.node, &mut new,
        )?;
    }
    Ok(new)
}
