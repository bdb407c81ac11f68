// Exact copies.

ghost use Rattle.std.specs.Prelude.{◌≡◌, IfOk};
ghost use Rattle.lt_tree.specs.View.{expression_of};

use crate::expression::expression;
use crate::walk::Walk;
use lt_tree::Expr;
use std::alloc::{AllocError, Global};

/// An exact copy of an expression.
pub fn copy_expression(alloc: Global, e: &Expr) -> Result<Expr, AllocError>
    ensures { IfOk result (λ it. expression_of it ≡ expression_of e.now) }
{
    let mut walk = Walk::new(Vec::new(alloc))?;
    expression(alloc, &mut walk, e)
}
