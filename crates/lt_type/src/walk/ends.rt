// How expressions end, once their parts were gone over.

ghost use Rattle.std.specs.Prelude.{◌≡◌};
ghost use Rattle.lt_tree.specs.Typing.ValueView.{when_of, marks_in};
ghost use Rattle.lt_env.specs.Going.{Gives};
ghost use Rattle.lt_type.specs.Ends.{index_end, call_end, member_end, arrow_end, step_end, unary_end, size_end, binary_end, logical_end, conditional_end, assignment_end, comma_end, marked_end, decide_end, after_end};
ghost use Rattle.lt_env.specs.Views.{typed_in, all_typed, use_of};

use lt_env::{TypeStop, Typed, Use, Walker};
use lt_judge::{binary, calls, marks, parts, unary};
use lt_model::Op;
use lt_tree::typed::{Mark, When};
use lt_tree::{LogicalOp, UnaryOp};

/// A subscript ends.
pub fn end_index(
    walker: &mut Walker,
    node: u32,
    role: Use,
    left: Box<Typed>,
    right: Box<Typed>,
) -> Result<Box<Typed>, TypeStop>
    ensures { Gives typed_in walker.old walker.new result (λ types. index_end node (use_of role) (typed_in types left) (typed_in types right)) }
{
    let judged = parts::judge_index(walker, left, right)?;
    walker.finish(node, role, judged)
}

/// A call ends.
pub fn end_call(
    walker: &mut Walker,
    node: u32,
    role: Use,
    callee: Box<Typed>,
    arguments: Vec<Box<Typed>>,
) -> Result<Box<Typed>, TypeStop>
    ensures { Gives typed_in walker.old walker.new result (λ types. call_end node (use_of role) (typed_in types callee) (all_typed types arguments.items)) }
{
    let judged = calls::judge_call(walker, callee, arguments)?;
    walker.finish(node, role, judged)
}

/// `x.name` ends.
pub fn end_member(
    walker: &mut Walker,
    node: u32,
    role: Use,
    whole: Box<Typed>,
    name: &[u8],
) -> Result<Box<Typed>, TypeStop>
    ensures { Gives typed_in walker.old walker.new result (λ types. member_end node (use_of role) (typed_in types whole) name.now) }
{
    let judged = parts::judge_member(walker, whole, name)?;
    walker.finish(node, role, judged)
}

/// `x->name` ends.
pub fn end_arrow(
    walker: &mut Walker,
    node: u32,
    role: Use,
    pointer: Box<Typed>,
    name: &[u8],
) -> Result<Box<Typed>, TypeStop>
    ensures { Gives typed_in walker.old walker.new result (λ types. arrow_end node (use_of role) (typed_in types pointer) name.now) }
{
    let judged = parts::judge_arrow(walker, pointer, name)?;
    walker.finish(node, role, judged)
}

/// `++` or `--` ends.
pub fn end_step(
    walker: &mut Walker,
    node: u32,
    role: Use,
    gives: When,
    op: Op,
    target: Box<Typed>,
) -> Result<Box<Typed>, TypeStop>
    ensures { Gives typed_in walker.old walker.new result (λ types. step_end node (use_of role) (when_of gives) op (typed_in types target)) }
{
    let judged = unary::judge_step(walker, gives, op, target)?;
    walker.finish(node, role, judged)
}

/// An operator on one operand ends.
pub fn end_unary(
    walker: &mut Walker,
    node: u32,
    role: Use,
    op: UnaryOp,
    operand: Box<Typed>,
) -> Result<Box<Typed>, TypeStop>
    ensures { Gives typed_in walker.old walker.new result (λ types. unary_end node (use_of role) op (typed_in types operand)) }
{
    let judged = unary::judge_unary(walker, op, operand)?;
    walker.finish(node, role, judged)
}

/// `sizeof` of an expression ends.
pub fn end_size(
    walker: &mut Walker,
    node: u32,
    role: Use,
    operand: Box<Typed>,
) -> Result<Box<Typed>, TypeStop>
    ensures { Gives typed_in walker.old walker.new result (λ types. size_end node (use_of role) (typed_in types operand)) }
{
    let judged = unary::judge_size(walker, operand.own_type())?;
    walker.finish(node, role, judged)
}

/// An operator on two operands ends.
pub fn end_binary(
    walker: &mut Walker,
    node: u32,
    role: Use,
    op: Op,
    left: Box<Typed>,
    right: Box<Typed>,
) -> Result<Box<Typed>, TypeStop>
    ensures { Gives typed_in walker.old walker.new result (λ types. binary_end node (use_of role) op (typed_in types left) (typed_in types right)) }
{
    let judged = binary::judge_binary(walker, op, left, right)?;
    walker.finish(node, role, judged)
}

/// `&&` or `||` ends.
pub fn end_logical(
    walker: &mut Walker,
    node: u32,
    role: Use,
    op: LogicalOp,
    left: Box<Typed>,
    right: Box<Typed>,
) -> Result<Box<Typed>, TypeStop>
    ensures { Gives typed_in walker.old walker.new result (λ types. logical_end node (use_of role) op (typed_in types left) (typed_in types right)) }
{
    let judged = binary::judge_logical(walker, op, left, right)?;
    walker.finish(node, role, judged)
}

/// `p ? x : y` ends.
pub fn end_conditional(
    walker: &mut Walker,
    node: u32,
    role: Use,
    test: Box<Typed>,
    left: Box<Typed>,
    right: Box<Typed>,
) -> Result<Box<Typed>, TypeStop>
    ensures { Gives typed_in walker.old walker.new result (λ types. conditional_end node (use_of role) (typed_in types test) (typed_in types left) (typed_in types right)) }
{
    let judged = binary::judge_conditional(walker, test, left, right)?;
    walker.finish(node, role, judged)
}

/// An assignment ends.
pub fn end_assignment(
    walker: &mut Walker,
    node: u32,
    role: Use,
    op: Option<Op>,
    target: Box<Typed>,
    value: Box<Typed>,
) -> Result<Box<Typed>, TypeStop>
    ensures { Gives typed_in walker.old walker.new result (λ types. assignment_end node (use_of role) op (typed_in types target) (typed_in types value)) }
{
    let judged = binary::judge_assignment(walker, op, target, value)?;
    walker.finish(node, role, judged)
}

/// A comma expression ends.
pub fn end_comma(
    walker: &mut Walker,
    node: u32,
    role: Use,
    list: Vec<Box<Typed>>,
) -> Result<Box<Typed>, TypeStop>
    ensures { Gives typed_in walker.old walker.new result (λ types. comma_end node (use_of role) (all_typed types list.items)) }
{
    let judged = binary::judge_comma(walker, list)?;
    walker.finish(node, role, judged)
}

/// An expression behind marks ends.
pub fn end_marked(
    walker: &mut Walker,
    node: u32,
    role: Use,
    marks: Vec<Mark>,
    value: Box<Typed>,
) -> Result<Box<Typed>, TypeStop>
    ensures { Gives typed_in walker.old walker.new result (λ types. marked_end node (use_of role) (marks_in types marks.items) (typed_in types value)) }
{
    let judged = marks::judge_marked(walker, marks, value)?;
    walker.finish(node, role, judged)
}

/// `pc_decide` ends.
pub fn end_decide(
    walker: &mut Walker,
    node: u32,
    role: Use,
    operand: Box<Typed>,
    when_true: &[u8],
    when_false: &[u8],
    tag: &[u8],
) -> Result<Box<Typed>, TypeStop>
    ensures { Gives typed_in walker.old walker.new result (λ types. decide_end node (use_of role) (typed_in types operand) when_true.now when_false.now tag.now) }
{
    let judged = marks::judge_decide(walker, role, operand, when_true, when_false, tag)?;
    let result = walker.finish(node, role, judged)?;
    marks::decision_labels(walker, when_true, when_false, tag)?;
    Ok(result)
}

/// `pc_after` ends.
pub fn end_after(
    walker: &mut Walker,
    node: u32,
    role: Use,
    operand: Box<Typed>,
    id: &[u8],
    tag: &[u8],
) -> Result<Box<Typed>, TypeStop>
    ensures { Gives typed_in walker.old walker.new result (λ types. after_end node (use_of role) (typed_in types operand) id.now tag.now) }
{
    let judged = marks::judge_after(walker, role, operand, id, tag)?;
    let result = walker.finish(node, role, judged)?;
    marks::after_label(walker, id, tag)?;
    Ok(result)
}
