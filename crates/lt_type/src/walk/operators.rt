// Operators, C11 6.5.3 to 6.5.17.

ghost use Rattle.std.specs.Prelude.{◌≡◌};
ghost use Rattle.lt_tree.specs.View.{expression_of};
ghost use Rattle.lt_tree.specs.Records.{expressions_in};
ghost use Rattle.lt_tree.specs.Tree as c;
ghost use Rattle.lt_tree.specs.Typing.ExpressionTyping as typing;
ghost use Rattle.lt_tree.specs.Typing.Steps.{without_marks};
ghost use Rattle.lt_tree.specs.Typing.NodeEnds.{operand_of};
ghost use Rattle.lt_tree.specs.Typing.ValueView.{when_of};
ghost use Rattle.lt_type.specs.Ends.{step, unary};
ghost use Rattle.lt_env.specs.Going.{Gives};
ghost use Rattle.lt_env.specs.Views.{typed_in, use_of};

use crate::walk::ends::{
    end_assignment, end_binary, end_comma, end_conditional, end_logical, end_size, end_step,
    end_unary,
};
use crate::walk::expression;
use crate::walk::parts::expressions;
use lt_env::{TypeStop, Typed, Use, Walker};
use lt_model::Op;
use lt_tree::typed::When;
use lt_tree::{Expr, LogicalOp, UnaryOp};

/// How an operator uses its operand.
pub fn operand_use(op: UnaryOp) -> Use
    ensures { use_of result ≡ operand_of op }
{
    match op {
        UnaryOp::AddressOf => Use::Place,
        UnaryOp::Not => Use::Truth,
        UnaryOp::Dereference | UnaryOp::Plus | UnaryOp::Minus | UnaryOp::Complement => Use::Value,
    }
}

// `x++`, `x--`, `++x` and `--x`
#[cycle(typing)]
pub fn step(
    walker: &mut Walker,
    gives: When,
    op: Op,
    target: &Expr,
    role: Use,
) -> Result<Box<Typed>, TypeStop>
    ensures { Gives typed_in walker.old walker.new result (λ types. step (when_of gives) op (expression_of target.now) (use_of role)) }
{
    let node = walker.enter()?;
    let x = expression(walker, target, Use::Place)?;
    end_step(walker, node, role, gives, op, x)
}

// `op x`, where the operator uses its operand so
#[cycle(typing)]
pub fn unary(
    walker: &mut Walker,
    op: UnaryOp,
    inner: Use,
    operand: &Expr,
    role: Use,
) -> Result<Box<Typed>, TypeStop>
    ensures { Gives typed_in walker.old walker.new result (λ types. unary op (use_of inner) (expression_of operand.now) (use_of role)) }
{
    let node = walker.enter()?;
    let x = expression(walker, operand, inner)?;
    end_unary(walker, node, role, op, x)
}

// An expression in which no mark stands.
#[cycle(typing)]
pub fn unmarked(walker: &mut Walker, e: &Expr, role: Use) -> Result<Box<Typed>, TypeStop>
    ensures { Gives typed_in walker.old walker.new result (λ types. without_marks (typing.expression (expression_of e.now) (use_of role))) }
{
    let was = walker.is_unmarked;
    walker.is_unmarked = true;
    let x = expression(walker, e, role)?;
    walker.is_unmarked = was;
    Ok(x)
}

// `sizeof x`
#[cycle(typing)]
pub fn size(walker: &mut Walker, operand: &Expr, role: Use) -> Result<Box<Typed>, TypeStop>
    ensures { Gives typed_in walker.old walker.new result (λ types. typing.expression (c.SizeofExpr (expression_of operand.now)) (use_of role)) }
{
    let node = walker.enter()?;
    let x = unmarked(walker, operand, Use::Place)?;
    end_size(walker, node, role, x)
}

// `x op y`
#[cycle(typing)]
pub fn binary(
    walker: &mut Walker,
    op: Op,
    left: &Expr,
    right: &Expr,
    role: Use,
) -> Result<Box<Typed>, TypeStop>
    ensures { Gives typed_in walker.old walker.new result (λ types. typing.expression (c.Binary op (expression_of left.now) (expression_of right.now)) (use_of role)) }
{
    let node = walker.enter()?;
    let x = expression(walker, left, Use::Value)?;
    let y = expression(walker, right, Use::Value)?;
    end_binary(walker, node, role, op, x, y)
}

// `x && y` and `x || y`
#[cycle(typing)]
pub fn logical(
    walker: &mut Walker,
    op: LogicalOp,
    left: &Expr,
    right: &Expr,
    role: Use,
) -> Result<Box<Typed>, TypeStop>
    ensures { Gives typed_in walker.old walker.new result (λ types. typing.expression (c.Logical op (expression_of left.now) (expression_of right.now)) (use_of role)) }
{
    let node = walker.enter()?;
    let x = expression(walker, left, Use::Truth)?;
    let y = expression(walker, right, Use::Truth)?;
    end_logical(walker, node, role, op, x, y)
}

// `p ? x : y`
#[cycle(typing)]
pub fn conditional(
    walker: &mut Walker,
    test: &Expr,
    left: &Expr,
    right: &Expr,
    role: Use,
) -> Result<Box<Typed>, TypeStop>
    ensures { Gives typed_in walker.old walker.new result (λ types. typing.expression (c.Conditional (expression_of test.now) (expression_of left.now) (expression_of right.now)) (use_of role)) }
{
    let node = walker.enter()?;
    let p = expression(walker, test, Use::Truth)?;
    let x = expression(walker, left, Use::Value)?;
    let y = expression(walker, right, Use::Value)?;
    end_conditional(walker, node, role, p, x, y)
}

// `x = y` and `x op= y`
#[cycle(typing)]
pub fn assignment(
    walker: &mut Walker,
    op: Option<Op>,
    target: &Expr,
    value: &Expr,
    role: Use,
) -> Result<Box<Typed>, TypeStop>
    ensures { Gives typed_in walker.old walker.new result (λ types. typing.expression (c.Assign op (expression_of target.now) (expression_of value.now)) (use_of role)) }
{
    let node = walker.enter()?;
    let x = expression(walker, target, Use::Place)?;
    let y = expression(walker, value, Use::Value)?;
    end_assignment(walker, node, role, op, x, y)
}

// `x, y, ..`
#[cycle(typing)]
pub fn comma(walker: &mut Walker, list: &[Expr], role: Use) -> Result<Box<Typed>, TypeStop>
    ensures { Gives typed_in walker.old walker.new result (λ types. typing.expression (c.Comma (expressions_in list.now)) (use_of role)) }
{
    let node = walker.enter()?;
    let xs = expressions(walker, list)?;
    end_comma(walker, node, role, xs)
}
