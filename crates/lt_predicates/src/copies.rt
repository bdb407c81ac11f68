// Predicates made of others, which are copied.

ghost use Rattle.std.specs.Prelude.{◌≡◌, IfOk};
ghost use Rattle.lt_tree.specs.View.{expression_of};
ghost use Rattle.lt_tree.specs.Erasure.{erased};
ghost use Rattle.lt_objectives.specs.Decisions as decision;

use lt_marks::erase_expression;
use lt_model::{Name, Op};
use lt_placing::copy_expression;
use lt_tree::makes::expression::{binary, constant, logical, unary};
use lt_tree::{Expr, LogicalOp, UnaryOp};
use std::alloc::{AllocError, Global};

/// `0`.
pub fn zero(alloc: Global) -> Result<Expr, AllocError>
    ensures { IfOk result (λ it. expression_of it ≡ decision.zero_constant) }
{
    Ok(constant(Name::new(alloc, b"0")?))
}

/// `!e`.
pub fn negation(alloc: Global, e: &Expr) -> Result<Expr, AllocError>
    ensures { IfOk result (λ it. expression_of it ≡ decision.negation (expression_of e.now)) }
{
    unary(alloc, UnaryOp::Not, copy_expression(alloc, e)?)
}

/// `left && right`.
pub fn conjunction(alloc: Global, left: &Expr, right: Expr) -> Result<Expr, AllocError>
    ensures { IfOk result (λ it. expression_of it ≡ decision.conjunction (expression_of left.now) (expression_of right)) }
{
    let left = copy_expression(alloc, left)?;
    logical(alloc, LogicalOp::And, left, right)
}

/// `left != right`, of the left side without its marks.
pub fn inequality(alloc: Global, left: &Expr, right: Expr) -> Result<Expr, AllocError>
    ensures { IfOk result (λ it. expression_of it ≡ decision.inequality (erased (expression_of left.now)) (expression_of right)) }
{
    let left = erase_expression(alloc, left)?;
    binary(alloc, Op::Ne, left, right)
}
