// What marks ask.
mod asked;
mod bindings;
mod ids;
mod made;

ghost use Rattle.std.specs.Prelude.{[]};
ghost use Rattle.lt_env.specs.Going.{Gives, answering, done};
ghost use Rattle.lt_env.specs.Views.{use_of, typed_in, judged_in};
ghost use Rattle.lt_tree.specs.View.{expression_of};
ghost use Rattle.lt_tree.specs.Typing.ValueView.{mark_of, marks_in};
ghost use Rattle.lt_tree.specs.Typing.MarkRules.{judge_decide, judge_after, judge_marked, label_of};
ghost use Rattle.lt_tree.specs.Typing.NodeEnds.{end_of_mark, decision_labels};
ghost use Rattle.lt_tree.specs.Typing.Steps.{adds_label};
ghost use Rattle.lt_env.specs.Views.{bindings_with};

use crate::shared::{judgement, only_unless};
use asked::{decided, is_good_after, is_good_decision, marked, read_before};
use ids::{label, number_of_id};
use lt_env::{Faults, Judged, TypeStop, Typed, Use, Walker};
use lt_tree::typed::{Mark, Rule};
use lt_tree::{Binding, Expr};
use made::{add_mark_label, mark_of, settle_mark};

/// `pc_decide`.
pub fn judge_decide(
    walker: &mut Walker,
    role: Use,
    x: Box<Typed>,
    when_true: &[u8],
    when_false: &[u8],
    tag: &[u8],
) -> Result<Box<Judged>, TypeStop>
    ensures { Gives judged_in walker.old walker.new result (λ types. answering (λ known. judge_decide (use_of role) (typed_in types x) when_true.now when_false.now tag.now known)) }
{
    let alloc = walker.types.alloc();
    let good = is_good_decision(walker, role, &x, when_true, when_false, tag)?;
    let faults = only_unless(alloc, good, Rule::BadMark)?;
    let first = number_of_id(when_true);
    let second = number_of_id(when_false);
    let typed = decided(&mut walker.types, x, first, second)?;
    let judged = judgement(alloc, faults, typed)?;
    Ok(judged)
}

/// `pc_after`.
pub fn judge_after(
    walker: &mut Walker,
    role: Use,
    x: Box<Typed>,
    id: &[u8],
    tag: &[u8],
) -> Result<Box<Judged>, TypeStop>
    ensures { Gives judged_in walker.old walker.new result (λ types. answering (λ known. judge_after (use_of role) (typed_in types x) id.now tag.now known)) }
{
    let alloc = walker.types.alloc();
    let good = is_good_after(walker, role, &x, id, tag);
    let faults = only_unless(alloc, good, Rule::BadMark)?;
    let typed = read_before(&mut walker.types, x, number_of_id(id))?;
    let judged = judgement(alloc, faults, typed)?;
    Ok(judged)
}

/// An expression behind marks.
pub fn judge_marked(
    walker: &mut Walker,
    marks: Vec<Mark>,
    x: Box<Typed>,
) -> Result<Box<Judged>, TypeStop>
    ensures { Gives judged_in walker.old walker.new result (λ types. answering (λ known. judge_marked (marks_in types marks.items) (typed_in types x))) }
{
    let alloc = walker.types.alloc();
    let typed = marked(&mut walker.types, marks, x)?;
    let judged = judgement(alloc, Faults::new(alloc), typed)?;
    Ok(judged)
}

/// A mark with its predicate and the expressions whose values it binds, each as written and as typed.
pub fn end_of_mark(
    walker: &mut Walker,
    node: u32,
    written: &Expr,
    x: Box<Typed>,
    id: &[u8],
    tag: &[u8],
    bound: &[Binding],
    values: Vec<Box<Typed>>,
) -> Result<Box<Mark>, TypeStop>
    ensures { Gives (λ types m. mark_of types m.value) walker.old walker.new result (λ types. end_of_mark node (expression_of written.now) (typed_in types x) id.now tag.now (bindings_with types bound.now values.items)) }
{
    settle_mark(walker, node, written, &x, id, tag, bound, values.as_slice())?;
    add_mark_label(walker, id, tag, bound, values.as_slice())?;
    let made = mark_of(&mut walker.types, x, number_of_id(id), bound, values)?;
    Ok(made)
}

/// The two labels of a `pc_decide`.
pub fn decision_labels(
    walker: &mut Walker,
    when_true: &[u8],
    when_false: &[u8],
    tag: &[u8],
) -> Result<(), TypeStop>
    ensures { Gives done walker.old walker.new result (λ types. decision_labels when_true.now when_false.now tag.now) }
{
    add_plain_label(walker, when_true, tag)?;
    add_plain_label(walker, when_false, tag)
}

/// The label of a `pc_after`.
pub fn after_label(walker: &mut Walker, id: &[u8], tag: &[u8]) -> Result<(), TypeStop>
    ensures { Gives done walker.old walker.new result (λ types. adds_label (label_of id.now tag.now [])) }
{
    add_plain_label(walker, id, tag)
}

// A label that binds no names.
fn add_plain_label(walker: &mut Walker, id: &[u8], tag: &[u8]) -> Result<(), TypeStop>
    ensures { Gives done walker.old walker.new result (λ types. adds_label (label_of id.now tag.now [])) }
{
    let alloc = walker.types.alloc();
    let label = label(alloc, id, tag, Vec::new(alloc))?;
    walker.add_label(label)
}
