// Comma expressions whose parts have lost their marks.

ghost use Rattle.std.specs.Prelude.{◌≡◌, IfOk};
ghost use Rattle.lt_tree.specs.Tree as t;
ghost use Rattle.lt_tree.specs.Comma.{comma_of, followed_by};
ghost use Rattle.lt_tree.specs.View.{expression_of};
ghost use Rattle.lt_tree.specs.Records.{expressions_in};
ghost use Rattle.lt_tree.specs.Erasure.{erased_expressions, erased_comma};

use lt_tree::Expr;
use lt_tree::makes::expression as makes;
use std::alloc::AllocError;

/// A comma expression of these parts. One that stands first gives its own parts.
pub fn comma(parts: Vec<Expr>) -> Result<Expr, AllocError>
    ensures { IfOk result (λ all. (list : t.Expressions) → expressions_in parts.items ≡ erased_expressions list → expression_of all ≡ erased_comma list) }
{
    let mut others = parts;
    if others.is_empty() {
        return Ok(makes::comma(others));
    }
    let first = others.remove(0);
    before(first, others)
}

/// An expression with others behind it, each after a comma.
fn before(first: Expr, others: Vec<Expr>) -> Result<Expr, AllocError>
    ensures { IfOk result (λ all. expression_of all ≡ comma_of (expression_of first) (expressions_in others.items)) }
{
    if others.is_empty() {
        return Ok(first);
    }
    match first {
        Expr::Comma(front) => longer(front, others),
        alone => inserted(alone, others),
    }
}

/// The parts of a comma expression with others behind them.
#[tactic(auto, using(crate::proofs::CommaParts::expressions_joined))]
fn longer(front: Vec<Expr>, others: Vec<Expr>) -> Result<Expr, AllocError>
    ensures { IfOk result (λ all. expression_of all ≡ t.Comma (followed_by (expressions_in front.items) (expressions_in others.items))) }
{
    let mut parts = front;
    let mut others = others;
    parts.append(&mut others)?;
    Ok(makes::comma(parts))
}

/// An expression before others.
fn inserted(first: Expr, others: Vec<Expr>) -> Result<Expr, AllocError>
    ensures { IfOk result (λ all. expression_of all ≡ t.Comma (t.an_expression (expression_of first) (expressions_in others.items))) }
{
    let mut parts = others;
    parts.insert(0, first)?;
    Ok(makes::comma(parts))
}
