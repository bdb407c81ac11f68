// The clauses of a decision.

ghost use Rattle.std.specs.Prelude.{◌≡◌, IfOk};
ghost use Rattle.lt_tree.specs.Tree as t;
ghost use Rattle.lt_tree.specs.View.{expression_of};
ghost use Rattle.lt_objectives.specs.Decisions as decision;
ghost use Rattle.lt_predicates.specs.Clauses.{insides, insides_of};
ghost use Rattle.lt_predicates.specs.Expressions.{pointed};

use lt_tree::{Expr, UnaryOp};
use std::alloc::{AllocError, Global};

/// The most clauses of a decision whose combinations are objectives.
const MOST_CLAUSES: usize = 8;

/// Where the clauses of an expression are.
enum Inner<'t> {
    /// In the operands of `&&` or `||`.
    Both(&'t Expr, &'t Expr),
    /// In what `!` or marks stand around.
    One(&'t Expr),
    /// It is a clause itself.
    Nothing,
}

// What stands directly in it and has its clauses.
fn inside(e: &Expr) -> Inner<'_>
    ensures { insides_of result ≡ insides (expression_of e.now) }
{
    match e {
        Expr::Logical(_, left, right) => Inner::Both(left, right),
        Expr::Unary(UnaryOp::Not, inner) => Inner::One(inner),
        Expr::Marked(_, inner) => Inner::One(inner),
        Expr::Decide(inner, _, _, _) | Expr::After(inner, _, _) => Inner::One(inner),
        _ => Inner::Nothing,
    }
}

/// What `&&`, `||`, `!` and marks leave of an expression, from left to right.
pub fn clause_list<'t>(alloc: Global, d: &'t Expr) -> Result<Vec<&'t Expr>, AllocError>
    ensures { IfOk result (λ list. pointed list.items ≡ decision.clause_list (expression_of d.now)) }
{
    let mut clauses = Vec::new(alloc);
    let mut left = Vec::new(alloc);
    left.push(d)?;
    'left: while let Some(e) = left.pop() {
        match inside(e) {
            Inner::Both(first, second) => {
                left.push(second)?;
                left.push(first)?;
            }
            Inner::One(inner) => left.push(inner)?,
            Inner::Nothing => clauses.push(e)?,
        }
    }
    Ok(clauses)
}

/// Whether these are few enough that their combinations are objectives.
pub fn has_few_clauses(clauses: &[&Expr]) -> bool
    ensures { (d : t.Expression) → pointed clauses.now ≡ decision.clause_list d → result ≡ decision.has_few_clauses d }
{
    clauses.len() <= MOST_CLAUSES
}
