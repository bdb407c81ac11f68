// Subscripts, calls and members, C11 6.5.2.

ghost use Rattle.std.specs.Prelude.{◌≡◌};
ghost use Rattle.lt_tree.specs.View.{expression_of};
ghost use Rattle.lt_tree.specs.Records.{expressions_in};
ghost use Rattle.lt_tree.specs.Tree as c;
ghost use Rattle.lt_tree.specs.Typing.ExpressionTyping as typing;
ghost use Rattle.lt_env.specs.Going.{Gives};
ghost use Rattle.lt_env.specs.Views.{typed_in, all_typed, use_of};

use crate::walk::ends::{end_arrow, end_call, end_index, end_member};
use crate::walk::expression;
use lt_env::{TypeStop, Typed, Use, Walker};
use lt_tree::Expr;

// `a[b]`
#[cycle(typing)]
pub fn index(
    walker: &mut Walker,
    whole: &Expr,
    index: &Expr,
    role: Use,
) -> Result<Box<Typed>, TypeStop>
    ensures { Gives typed_in walker.old walker.new result (λ types. typing.expression (c.Index (expression_of whole.now) (expression_of index.now)) (use_of role)) }
{
    let node = walker.enter()?;
    let left = expression(walker, whole, Use::Value)?;
    let right = expression(walker, index, Use::Value)?;
    end_index(walker, node, role, left, right)
}

// `f(..)`
#[cycle(typing)]
pub fn call(
    walker: &mut Walker,
    callee: &Expr,
    arguments: &[Expr],
    role: Use,
) -> Result<Box<Typed>, TypeStop>
    ensures { Gives typed_in walker.old walker.new result (λ types. typing.expression (c.Call (expression_of callee.now) (expressions_in arguments.now)) (use_of role)) }
{
    let node = walker.enter()?;
    let f = expression(walker, callee, Use::Callee)?;
    let xs = expressions(walker, arguments)?;
    end_call(walker, node, role, f, xs)
}

// The parts of a comma expression, and arguments.
#[cycle(typing)]
pub fn expressions(walker: &mut Walker, list: &[Expr]) -> Result<Vec<Box<Typed>>, TypeStop>
    ensures { Gives (λ types xs. all_typed types xs.items) walker.old walker.new result (λ types. typing.expressions (expressions_in list.now)) }
{
    let mut all = Vec::new(walker.types.alloc());
    'list: for e in list {
        all.push(expression(walker, e, Use::Value)?)?;
    }
    Ok(all)
}

// `x.name`
#[cycle(typing)]
pub fn member(
    walker: &mut Walker,
    whole: &Expr,
    name: &[u8],
    role: Use,
) -> Result<Box<Typed>, TypeStop>
    ensures { Gives typed_in walker.old walker.new result (λ types. typing.expression (c.Member (expression_of whole.now) name.now) (use_of role)) }
{
    let node = walker.enter()?;
    let x = expression(walker, whole, Use::Place)?;
    end_member(walker, node, role, x, name)
}

// `x->name`
#[cycle(typing)]
pub fn arrow(
    walker: &mut Walker,
    pointer: &Expr,
    name: &[u8],
    role: Use,
) -> Result<Box<Typed>, TypeStop>
    ensures { Gives typed_in walker.old walker.new result (λ types. typing.expression (c.Arrow (expression_of pointer.now) name.now) (use_of role)) }
{
    let node = walker.enter()?;
    let x = expression(walker, pointer, Use::Value)?;
    end_arrow(walker, node, role, x, name)
}
