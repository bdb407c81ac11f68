// Both truths of decisions and clauses.

ghost use Rattle.std.specs.Prelude.{◌≡◌, ◌≤◌, ◌+◌, ◌&&◌, false, IfErr, OnOk, None, slice_index_or};
ghost use Rattle.lt_tree.specs.View.{expression_of};
ghost use Rattle.lt_objectives.specs.Copies.{is_core, is_pure_without_marks};
ghost use Rattle.lt_objectives.specs.Objectives.{both_truths};
ghost use Rattle.lt_numbering.specs.Numbering.{Adds, IdsAreOut, most_id};
ghost use Rattle.lt_crit.specs.Known.{tested, truths_where_open};

use lt_marks::erase_expression;
use lt_numbering::{MarkStop, NewMarks};
use lt_objectives::Criterion;
use lt_placing::Form;
use lt_predicates::{both_truths, hides};
use lt_survey::Survey;
use lt_tree::{Expr, is_pure};
use std::alloc::Global;

/// The marks of a criterion at an expression that has this number.
pub fn add_at_expression(
    alloc: Global,
    survey: &Survey<'_>,
    criterion: Criterion,
    number: usize,
    e: &Expr,
    new: &mut NewMarks,
) -> Result<(), MarkStop>
    requires { new.old.next ≤ most_id + 1 }
    ensures within { OnOk result (new.new.next ≤ most_id + 1) }
    ensures added { OnOk result (Adds new.old new.new (truths_where_open (is_core (expression_of e.now) && slice_index_or survey.now.open.items number false)
        (slice_index_or survey.now.copied.items number false) criterion number
        (tested criterion (slice_index_or survey.now.decisions.items number None) (slice_index_or survey.now.clauses.items number None)) (expression_of e.now))) }
    ensures ids { IfErr result (IdsAreOut new.old (truths_where_open (is_core (expression_of e.now) && slice_index_or survey.now.open.items number false)
        (slice_index_or survey.now.copied.items number false) criterion number
        (tested criterion (slice_index_or survey.now.decisions.items number None) (slice_index_or survey.now.clauses.items number None)) (expression_of e.now))) }
{
    let is_place = is_core(e) && is_true_at(&survey.open, number);
    if !is_place {
        return Ok(());
    }
    match tested(survey, criterion, number) {
        None => Ok(()),
        Some(decided) => {
            let fits = is_true_at(&survey.copied, number);
            add_both_truths(alloc, criterion, fits, number, decided, e, new)
        }
    }
}

fn is_core(e: &Expr) -> bool
    ensures { result ≡ is_core (expression_of e.now) }
{
    !matches!(e, Expr::Marked(..) | Expr::Decide(..) | Expr::After(..))
}

fn is_true_at(flags: &[bool], number: usize) -> bool
    ensures { result ≡ slice_index_or flags.now number false }
{
    match flags.get(number) {
        None => false,
        Some(flag) => *flag,
    }
}

/// What a new `pc_decide` stands around, if the criterion tests the expression with this number.
fn tested(survey: &Survey<'_>, criterion: Criterion, number: usize) -> Option<usize>
    ensures { result ≡ tested criterion (slice_index_or survey.now.decisions.items number None) (slice_index_or survey.now.clauses.items number None) }
{
    match criterion {
        Criterion::Decision => place_at(&survey.decisions, number),
        Criterion::Condition => place_at(&survey.clauses, number),
        _ => None,
    }
}

/// The place that a table has for this number, if it has one.
pub fn place_at(places: &[Option<usize>], number: usize) -> Option<usize>
    ensures { result ≡ slice_index_or places.now number None }
{
    match places.get(number) {
        None => None,
        Some(place) => *place,
    }
}

/// Two labels in front of an expression that predicates may copy, as far as each of its nodes fits; else a `pc_decide` around what stands at `decided`.
fn add_both_truths(
    alloc: Global,
    criterion: Criterion,
    fits: bool,
    number: usize,
    decided: usize,
    e: &Expr,
    new: &mut NewMarks,
) -> Result<(), MarkStop>
    requires { new.old.next ≤ most_id + 1 }
    ensures within { OnOk result (new.new.next ≤ most_id + 1) }
    ensures added { OnOk result (Adds new.old new.new (both_truths criterion (fits && is_pure_without_marks (expression_of e.now)) number decided (expression_of e.now))) }
    ensures ids { IfErr result (IdsAreOut new.old (both_truths criterion (fits && is_pure_without_marks (expression_of e.now)) number decided (expression_of e.now))) }
{
    let plain = erase_expression(alloc, e)?;
    if fits && is_pure(&plain) && !hides(e) {
        let predicates = both_truths(alloc, &plain)?;
        new.add(alloc, number as u64, Form::InFront, criterion, predicates)
    } else {
        let predicates = vec![in alloc; plain]?;
        new.add(alloc, decided as u64, Form::Around, criterion, predicates)
    }
}
