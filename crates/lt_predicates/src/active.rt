// The clauses of a decision that determine it.

ghost use Rattle.std.specs.Prelude.{◌≡◌, true, IfOk};
ghost use Rattle.lt_tree.specs.Tree as t;
ghost use Rattle.lt_tree.specs.View.{expression_of};
ghost use Rattle.lt_tree.specs.Purity.{is_pure};
ghost use Rattle.lt_objectives.specs.Decisions as decision;
ghost use Rattle.lt_predicates.specs.Expressions.{Makes};

use crate::clauses::clause_list;
use crate::copies::{conjunction, negation};
use lt_model::{Name, Op};
use lt_placing::copy_expression;
use lt_tree::makes::expression::{binary, constant, logical, unary};
use lt_tree::{Expr, LogicalOp, UnaryOp};
use std::alloc::{AllocError, Global};

/// For each clause of a decision that it is true and determines the decision, and that it is false and does.
pub fn active_clauses(alloc: Global, d: &Expr) -> Result<Vec<Expr>, AllocError>
    requires pure { is_pure (expression_of d.now) ≡ true }
    requires few { decision.has_few_clauses (expression_of d.now) ≡ true }
    ensures { Makes result (decision.active_clauses (expression_of d.now)) }
{
    let clauses = clause_list(alloc, d)?;
    let mut list = Vec::new(alloc);
    for (number, clause) in clauses.iter().enumerate() {
        let determined = determination(alloc, number, d)?;
        list.push(conjunction(alloc, clause, determined)?)?;
        let determined = determination(alloc, number, d)?;
        list.push(logical(alloc, LogicalOp::And, negation(alloc, clause)?, determined)?)?;
    }
    Ok(list)
}

// That the clause of this number determines the decision.
fn determination(alloc: Global, number: usize, d: &Expr) -> Result<Expr, AllocError>
    ensures { IfOk result (λ it. expression_of it ≡ decision.determination number (expression_of d.now)) }
{
    let when_true = with_clause(alloc, number, b"1", d)?;
    let when_false = with_clause(alloc, number, b"0", d)?;
    binary(alloc, Op::Ne, when_true, when_false)
}

// A decision with this constant in place of the clause of this number.
fn with_clause(alloc: Global, number: usize, digit: &[u8], d: &Expr) -> Result<Expr, AllocError>
    ensures { IfOk result (λ it. expression_of it ≡ decision.with_clause number (t.Constant digit.now) (expression_of d.now)) }
{
    match d {
        Expr::Logical(op, left, right) => {
            let count = clause_list(alloc, left)?.len();
            if number < count {
                let left = with_clause(alloc, number, digit, left)?;
                logical(alloc, *op, left, copy_expression(alloc, right)?)
            } else {
                let left = copy_expression(alloc, left)?;
                logical(
                    alloc,
                    *op,
                    left,
                    with_clause(alloc, number - count, digit, right)?,
                )
            }
        }
        Expr::Unary(UnaryOp::Not, inner) => {
            let inner = with_clause(alloc, number, digit, inner)?;
            unary(alloc, UnaryOp::Not, inner)
        }
        _ => Ok(constant(Name::new(alloc, digit)?)),
    }
}
