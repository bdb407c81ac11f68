ghost use Rattle.std.specs.Prelude.{◌≡◌, ◌<◌, length, map, IfOk, Some, slice_get};
ghost use Rattle.lt_tree.specs.Tree as c;
ghost use Rattle.lt_tree.specs.View.{expression_of};
ghost use Rattle.lt_tree.specs.Erasure.{erased};
ghost use Rattle.lt_tree.specs.Nodes.{Node, nodes, an_expression};
ghost use Rattle.lt_tree.specs.Typing.Programs.{Program};
ghost use Rattle.lt_objectives.specs.Decisions.{inequality};
ghost use Rattle.lt_objectives.specs.Objectives.{mutants};
ghost use Rattle.lt_predicates.specs.Expressions.{Makes};
ghost use Rattle.lt_survey.specs.Survey.{IsSurvey};
ghost use Rattle.lt_survey.specs.Rounds.{ArePredicates};
ghost use Rattle.lt_mut.specs.Candidates.{predicates};
ghost use Rattle.lt_mut.specs.Mutations.{criterion_of};

use crate::candidate::candidate;
use crate::mutation::Mutation;
use crate::operands::{are_integers, is_signed};
use lt_marks::erase_expression;
use lt_predicates::{
    differences_by_absolute, differences_by_arithmetic, differences_by_connector,
    differences_by_relation, hides,
};
use lt_survey::Survey;
use lt_tree::{Expr, is_pure};
use std::alloc::{AllocError, Global};

/// The predicates of the labels in front of the node of this number.
pub fn predicates_at(
    alloc: Global,
    survey: &Survey<'_>,
    mutation: Mutation,
    k: usize,
) -> Result<Vec<Expr>, AllocError>
    requires { k < length survey.now.sites.items }
    ensures { (unit : c.Unit) (program : Program) (node : Node) → IsSurvey unit program survey.now → slice_get (nodes unit) k ≡ Some node
        → IfOk result (λ made. ArePredicates unit program (criterion_of mutation) k node made.items) }
{
    let Some(e) = candidate(survey, k) else {
        return Ok(Vec::new(alloc));
    };
    let plain = Box::new(alloc, erase_expression(alloc, e)?)?;
    pure_differences(alloc, survey, mutation, k, e, &plain)
}

/// The predicates in front of the expression of this number, which is given without its marks too.
fn pure_differences(
    alloc: Global,
    survey: &Survey<'_>,
    mutation: Mutation,
    k: usize,
    e: &Expr,
    plain: &Expr,
) -> Result<Vec<Expr>, AllocError>
    requires within { k < length survey.now.sites.items }
    requires same { expression_of plain.now ≡ erased (expression_of e.now) }
    ensures { (unit : c.Unit) (program : Program) → IsSurvey unit program survey.now → slice_get (nodes unit) k ≡ Some (an_expression (expression_of e.now))
        → Makes result (predicates unit program (criterion_of mutation) k (Some (expression_of e.now))) }
{
    if is_pure(plain) && !hides(e) {
        differences(alloc, survey, mutation, k, e, plain)
    } else {
        Ok(Vec::new(alloc))
    }
}

/// That the expression of this number, which is given without its marks too, and its mutants have different values.
fn differences(
    alloc: Global,
    survey: &Survey<'_>,
    mutation: Mutation,
    k: usize,
    e: &Expr,
    plain: &Expr,
) -> Result<Vec<Expr>, AllocError>
    requires within { k < length survey.now.sites.items }
    requires same { expression_of plain.now ≡ erased (expression_of e.now) }
    ensures { (unit : c.Unit) (program : Program) → IsSurvey unit program survey.now → slice_get (nodes unit) k ≡ Some (an_expression (expression_of e.now))
        → Makes result (map (inequality (expression_of plain.now)) (mutants unit program (criterion_of mutation) k (expression_of e.now) (expression_of plain.now))) }
{
    match mutation {
        Mutation::AbsoluteValue => differences_by_absolute(alloc, e, plain, is_signed(survey, k)),
        Mutation::ArithmeticOperator => {
            differences_by_arithmetic(alloc, e, plain, are_integers(survey, k, e))
        }
        Mutation::LogicalConnector => differences_by_connector(alloc, e, plain),
        Mutation::RelationalOperator => {
            differences_by_relation(alloc, e, plain, are_integers(survey, k, e))
        }
    }
}
