// The conjunctions of a decision's clauses.

ghost use Rattle.std.specs.Prelude.{◌≡◌, [], ◌∷◌, true};
ghost use Rattle.lt_tree.specs.View.{expression_of};
ghost use Rattle.lt_tree.specs.Purity.{is_pure};
ghost use Rattle.lt_objectives.specs.Decisions as decision;
ghost use Rattle.lt_predicates.specs.Expressions.{Makes, pointed};
ghost use Rattle.lt_predicates.specs.Conjunctions.{all_extensions};

use crate::clauses::clause_list;
use crate::copies::{conjunction, negation};
use lt_placing::copy_expression;
use lt_tree::Expr;
use std::alloc::{AllocError, Global};

/// That an expression is true, and that it isn't.
pub fn both_truths(alloc: Global, d: &Expr) -> Result<Vec<Expr>, AllocError>
    ensures { Makes result (expression_of d.now ∷ decision.negation (expression_of d.now) ∷ []) }
{
    let truth = copy_expression(alloc, d)?;
    let falsity = negation(alloc, d)?;
    Ok(vec![in alloc; truth, falsity]?)
}

/// Each clause of a decision or its negation, joined from left to right, all true first, the last changing fastest.
pub fn conjunctions(alloc: Global, d: &Expr) -> Result<Vec<Expr>, AllocError>
    requires pure { is_pure (expression_of d.now) ≡ true }
    requires few { decision.has_few_clauses (expression_of d.now) ≡ true }
    ensures { Makes result (decision.conjunctions (decision.clause_list (expression_of d.now))) }
{
    let clauses = clause_list(alloc, d)?;
    conjoined(alloc, clauses.as_slice())
}

// The same of these clauses.
fn conjoined(alloc: Global, clauses: &[&Expr]) -> Result<Vec<Expr>, AllocError>
    ensures { Makes result (decision.conjunctions (pointed clauses.now)) }
{
    let Some((first, rest)) = clauses.split_first() else {
        return Ok(Vec::new(alloc));
    };
    let mut made = both_truths(alloc, first)?;
    for clause in rest {
        made = extended(alloc, made.as_slice(), clause)?;
    }
    Ok(made)
}

// Each of these with the clause, and with its negation.
fn extended(alloc: Global, made: &[Expr], clause: &Expr) -> Result<Vec<Expr>, AllocError>
    ensures { Makes result (all_extensions made.now (expression_of clause.now)) }
{
    let mut list = Vec::new(alloc);
    for e in made {
        let truth = copy_expression(alloc, clause)?;
        list.push(conjunction(alloc, e, truth)?)?;
        list.push(conjunction(alloc, e, negation(alloc, clause)?)?)?;
    }
    Ok(list)
}
