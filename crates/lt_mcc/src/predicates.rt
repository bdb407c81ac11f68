ghost use Rattle.std.specs.Prelude.{◌≡◌, ◌<◌, length, true, IfOk, Some, slice_get};
ghost use Rattle.lt_tree.specs.Tree as c;
ghost use Rattle.lt_tree.specs.View.{expression_of};
ghost use Rattle.lt_tree.specs.Erasure.{erased};
ghost use Rattle.lt_tree.specs.Purity.{is_pure};
ghost use Rattle.lt_tree.specs.Nodes.{Node, nodes};
ghost use Rattle.lt_tree.specs.Typing.Programs.{Program};
ghost use Rattle.lt_objectives.specs.Decisions.{has_few_clauses};
ghost use Rattle.lt_predicates.specs.Expressions.{Makes};
ghost use Rattle.lt_survey.specs.Survey.{IsSurvey};
ghost use Rattle.lt_survey.specs.Rounds.{ArePredicates};
ghost use Rattle.lt_mcc.specs.Combinations.{combinations_of, combined, criterion_of};

use crate::candidate::candidate;
use crate::combination::Combination;
use lt_marks::erase_expression;
use lt_predicates::{active_clauses, clause_list, conjunctions, has_few_clauses, hides};
use lt_survey::Survey;
use lt_tree::{Expr, is_pure};
use std::alloc::{AllocError, Global};

/// The predicates of the labels in front of the node of this number.
pub fn predicates_at(
    alloc: Global,
    survey: &Survey<'_>,
    combination: Combination,
    k: usize,
) -> Result<Vec<Expr>, AllocError>
    requires { k < length survey.now.sites.items }
    ensures { (unit : c.Unit) (program : Program) (node : Node) → IsSurvey unit program survey.now → slice_get (nodes unit) k ≡ Some node
        → IfOk result (λ made. ArePredicates unit program (criterion_of combination) k node made.items) }
{
    let Some(e) = candidate(survey, k) else {
        return Ok(Vec::new(alloc));
    };
    let plain = Box::new(alloc, erase_expression(alloc, e)?)?;
    combined(alloc, combination, e, &plain)
}

/// The combinations of the clauses of a decision, which is given without its marks too, that are objectives.
fn combined(
    alloc: Global,
    combination: Combination,
    d: &Expr,
    plain: &Expr,
) -> Result<Vec<Expr>, AllocError>
    requires same { expression_of plain.now ≡ erased (expression_of d.now) }
    ensures { Makes result (combined combination (expression_of d.now)) }
{
    if is_pure(plain) && !hides(d) && has_few(alloc, plain)? {
        combinations(alloc, combination, plain)
    } else {
        Ok(Vec::new(alloc))
    }
}

fn has_few(alloc: Global, d: &Expr) -> Result<bool, AllocError>
    ensures { IfOk result (λ few. few ≡ has_few_clauses (expression_of d.now)) }
{
    let clauses = clause_list(alloc, d)?;
    Ok(has_few_clauses(clauses.as_slice()))
}

fn combinations(alloc: Global, combination: Combination, d: &Expr) -> Result<Vec<Expr>, AllocError>
    requires pure { is_pure (expression_of d.now) ≡ true }
    requires few { has_few_clauses (expression_of d.now) ≡ true }
    ensures { Makes result (combinations_of combination (expression_of d.now)) }
{
    match combination {
        Combination::MultipleCondition => conjunctions(alloc, d),
        Combination::GeneralActiveClause => active_clauses(alloc, d),
    }
}
