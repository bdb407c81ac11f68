// Marks, and expressions behind them.

ghost use Rattle.std.specs.Prelude.{◌≡◌};
ghost use Rattle.lt_tree.specs.View.{expression_of, mark_of};
ghost use Rattle.lt_tree.specs.Records.{marks_in, bindings_in};
ghost use Rattle.lt_tree.specs.Tree as c;
ghost use Rattle.lt_tree.specs.Typing.ExpressionTyping as typing;
ghost use Rattle.lt_tree.specs.Typing.MarkRules.{inside_mark, inside_after};
ghost use Rattle.lt_tree.specs.Typing.ValueView as value;
ghost use Rattle.lt_env.specs.Going.{Gives};
ghost use Rattle.lt_env.specs.Views.{typed_in, bindings_with, use_of};

use crate::walk::ends::{end_after, end_decide, end_marked};
use crate::walk::expression;
use lt_env::{TypeStop, Typed, Use, Walker};
use lt_judge::marks::end_of_mark;
use lt_tree::{Binding, Expr, Mark, typed};

/// How an expression behind marks, or the operand of a `pc_decide`, is used.
fn use_in_mark(role: Use) -> Use
    ensures { use_of result ≡ inside_mark (use_of role) }
{
    match role {
        Use::Truth => Use::Truth,
        Use::Value | Use::Place | Use::Callee => Use::Value,
    }
}

/// How the operand of a `pc_after` is used.
fn use_in_after(role: Use) -> Use
    ensures { use_of result ≡ inside_after (use_of role) }
{
    match role {
        Use::Truth => Use::Truth,
        Use::Place => Use::Place,
        Use::Value | Use::Callee => Use::Value,
    }
}

/// Goes over a mark.
#[cycle(typing)]
pub fn mark(walker: &mut Walker, m: &Mark) -> Result<Box<typed::Mark>, TypeStop>
    ensures { Gives (λ types m. value.mark_of types m.value) walker.old walker.new result (λ types. typing.mark (mark_of m.now)) }
{
    let node = walker.enter()?;
    let x = expression(walker, &m.predicate, Use::Value)?;
    let xs = bindings(walker, m.bound.as_slice())?;
    end_of_mark(
        walker,
        node,
        &m.predicate,
        x,
        m.id.as_slice(),
        m.tag.as_slice(),
        m.bound.as_slice(),
        xs,
    )
}

// The expressions whose values a mark binds.
#[cycle(typing)]
fn bindings(walker: &mut Walker, list: &[Binding]) -> Result<Vec<Box<Typed>>, TypeStop>
    ensures { Gives (λ types xs. bindings_with types list.now xs.items) walker.old walker.new result (λ types. typing.bindings (bindings_in list.now)) }
{
    let mut all = Vec::new(walker.types.alloc());
    'list: for binding in list {
        all.push(expression(walker, &binding.value, Use::Value)?)?;
    }
    Ok(all)
}

// Marks in a row.
#[cycle(typing)]
fn marks(walker: &mut Walker, list: &[Mark]) -> Result<Vec<typed::Mark>, TypeStop>
    ensures { Gives (λ types ms. value.marks_in types ms.items) walker.old walker.new result (λ types. typing.marks (marks_in list.now)) }
{
    let mut all = Vec::new(walker.types.alloc());
    'list: for m in list {
        let made = mark(walker, m)?;
        all.push(Box::into_inner(made))?;
    }
    Ok(all)
}

// An expression behind marks
#[cycle(typing)]
pub fn marked(
    walker: &mut Walker,
    list: &[Mark],
    value: &Expr,
    role: Use,
) -> Result<Box<Typed>, TypeStop>
    ensures { Gives typed_in walker.old walker.new result (λ types. typing.expression (c.Marked (marks_in list.now) (expression_of value.now)) (use_of role)) }
{
    let node = walker.enter()?;
    let ms = marks(walker, list)?;
    let x = expression(walker, value, use_in_mark(role))?;
    end_marked(walker, node, role, ms, x)
}

// `pc_decide`
#[cycle(typing)]
pub fn decide(
    walker: &mut Walker,
    operand: &Expr,
    when_true: &[u8],
    when_false: &[u8],
    tag: &[u8],
    role: Use,
) -> Result<Box<Typed>, TypeStop>
    ensures { Gives typed_in walker.old walker.new result (λ types. typing.expression (c.Decide (expression_of operand.now) when_true.now when_false.now tag.now) (use_of role)) }
{
    let node = walker.enter()?;
    let x = expression(walker, operand, use_in_mark(role))?;
    end_decide(walker, node, role, x, when_true, when_false, tag)
}

// `pc_after`
#[cycle(typing)]
pub fn after(
    walker: &mut Walker,
    operand: &Expr,
    id: &[u8],
    tag: &[u8],
    role: Use,
) -> Result<Box<Typed>, TypeStop>
    ensures { Gives typed_in walker.old walker.new result (λ types. typing.expression (c.After (expression_of operand.now) id.now tag.now) (use_of role)) }
{
    let node = walker.enter()?;
    let x = expression(walker, operand, use_in_after(role))?;
    end_after(walker, node, role, x, id, tag)
}
