// That an expression and its mutants have different values.

ghost use Rattle.std.specs.Prelude.{◌≡◌, ◌&&◌, IfOk};
ghost use Rattle.lt_model.specs.declared.scalar.DataModel.{DataModel};
ghost use Rattle.lt_tree.specs.Tree as t;
ghost use Rattle.lt_tree.specs.View.{expression_of};
ghost use Rattle.lt_tree.specs.Erasure.{erased};
ghost use Rattle.lt_tree.specs.Typing.Types.{CType, is_integer};
ghost use Rattle.lt_objectives.specs.Mutants as mutant;
ghost use Rattle.lt_predicates.specs.Expressions.{Makes};
ghost use Rattle.lt_predicates.specs.Differences.{differences, other_operators, copied_others, with_operator, with_connector};

use crate::copies::{inequality, zero};
use lt_marks::erase_expression;
use lt_model::Op;
use lt_tree::makes::expression::{binary, conditional, unary};
use lt_tree::{Expr, LogicalOp, UnaryOp};
use std::alloc::{AllocError, Global};

const ARITHMETIC: [Op; 5] = [Op::Add, Op::Sub, Op::Mul, Op::Div, Op::Rem];

const RELATIONS: [Op; 6] = [Op::Lt, Op::Le, Op::Gt, Op::Ge, Op::Eq, Op::Ne];

const POINTER_RELATIONS: [Op; 2] = [Op::Eq, Op::Ne];

/// From its absolute value, and from that with a minus; for an expression of a signed integer type or of another.
pub fn differences_by_absolute(
    alloc: Global,
    e: &Expr,
    plain: &Expr,
    is_signed: bool,
) -> Result<Vec<Expr>, AllocError>
    requires { expression_of plain.now ≡ erased (expression_of e.now) }
    ensures { (m : DataModel) (type : CType) → mutant.is_signed_integer m type ≡ is_signed
        → Makes result (differences (expression_of plain.now) (mutant.absolute_mutants m type (expression_of plain.now))) }
{
    if !(is_signed && is_fitting(plain)) {
        return Ok(Vec::new(alloc));
    }
    let from_absolute = inequality(alloc, e, absolute(alloc, e)?)?;
    let negated = unary(alloc, UnaryOp::Minus, absolute(alloc, e)?)?;
    Ok(vec![in alloc; from_absolute, inequality(alloc, e, negated)?]?)
}

// Whether absolute values of an expression are asked for.
fn is_fitting(e: &Expr) -> bool
    ensures { result ≡ mutant.is_fitting (expression_of e.now) }
{
    match e {
        Expr::Name(_) | Expr::Index(..) | Expr::Member(..) | Expr::Arrow(..) => true,
        Expr::Unary(op, _) => *op == UnaryOp::Dereference,
        Expr::Binary(op, _, _) => is_one_of(*op, &ARITHMETIC),
        _ => false,
    }
}

fn is_one_of(op: Op, ops: &[Op]) -> bool
    ensures { result ≡ mutant.is_one_of op ops.now }
{
    ops.iter().any(|other| op == *other)
}

// `e < 0 ? -e : e`
fn absolute(alloc: Global, e: &Expr) -> Result<Expr, AllocError>
    ensures { IfOk result (λ it. expression_of it ≡ mutant.absolute (erased (expression_of e.now))) }
{
    let operand = erase_expression(alloc, e)?;
    let is_negative = binary(alloc, Op::Lt, operand, zero(alloc)?)?;
    let operand = erase_expression(alloc, e)?;
    let negated = unary(alloc, UnaryOp::Minus, operand)?;
    conditional(alloc, is_negative, negated, erase_expression(alloc, e)?)
}

/// From what each other operator of arithmetic makes of its operands, if both are of integer types.
pub fn differences_by_arithmetic(
    alloc: Global,
    e: &Expr,
    plain: &Expr,
    are_integers: bool,
) -> Result<Vec<Expr>, AllocError>
    requires { expression_of plain.now ≡ erased (expression_of e.now) }
    ensures { (left right : CType) → (is_integer left && is_integer right) ≡ are_integers
        → Makes result (differences (expression_of plain.now) (mutant.arithmetic_mutants left right (expression_of plain.now))) }
{
    if are_integers {
        differences_by_others(alloc, e, plain, &ARITHMETIC)
    } else {
        Ok(Vec::new(alloc))
    }
}

/// From what the other of `&&` and `||` makes of its operands.
pub fn differences_by_connector(
    alloc: Global,
    e: &Expr,
    plain: &Expr,
) -> Result<Vec<Expr>, AllocError>
    requires { expression_of plain.now ≡ erased (expression_of e.now) }
    ensures { Makes result (differences (expression_of plain.now) (mutant.connector_mutants (expression_of plain.now))) }
{
    match plain {
        Expr::Logical(op, _, _) => {
            let mutant = with_connector(erase_expression(alloc, e)?, other_connector(*op));
            Ok(vec![in alloc; inequality(alloc, e, mutant)?]?)
        }
        _ => Ok(Vec::new(alloc)),
    }
}

// An expression with this connector in place of its own.
fn with_connector(e: Expr, op: LogicalOp) -> Expr
    ensures { expression_of result ≡ with_connector op (expression_of e) }
{
    match e {
        Expr::Logical(_, left, right) => Expr::Logical(op, left, right),
        other => other,
    }
}

fn other_connector(op: LogicalOp) -> LogicalOp
    ensures { result ≡ mutant.other_connector op }
{
    match op {
        LogicalOp::And => LogicalOp::Or,
        LogicalOp::Or => LogicalOp::And,
    }
}

/// From what each other relation makes of its operands; if they aren't both of integer types, of `==` and `!=` the other alone.
pub fn differences_by_relation(
    alloc: Global,
    e: &Expr,
    plain: &Expr,
    are_integers: bool,
) -> Result<Vec<Expr>, AllocError>
    requires { expression_of plain.now ≡ erased (expression_of e.now) }
    ensures { (left right : CType) → (is_integer left && is_integer right) ≡ are_integers
        → Makes result (differences (expression_of plain.now) (mutant.relational_mutants left right (expression_of plain.now))) }
{
    if are_integers {
        differences_by_others(alloc, e, plain, &RELATIONS)
    } else {
        differences_by_others(alloc, e, plain, &POINTER_RELATIONS)
    }
}

// From the same operands with each other of these operators, if the expression's is one of them.
fn differences_by_others(
    alloc: Global,
    e: &Expr,
    plain: &Expr,
    ops: &[Op],
) -> Result<Vec<Expr>, AllocError>
    requires { expression_of plain.now ≡ erased (expression_of e.now) }
    ensures { Makes result (differences (expression_of plain.now) (other_operators ops.now (expression_of plain.now))) }
{
    match plain {
        Expr::Binary(op, _, _) => {
            if is_one_of(*op, ops) {
                differences_but(alloc, e, ops, *op)
            } else {
                Ok(Vec::new(alloc))
            }
        }
        _ => Ok(Vec::new(alloc)),
    }
}

// From the same operands with each of these operators but this one.
fn differences_but(alloc: Global, e: &Expr, ops: &[Op], op: Op) -> Result<Vec<Expr>, AllocError>
    ensures { Makes result (copied_others ops.now op (expression_of e.now)) }
{
    let mut list = Vec::new(alloc);
    for other in ops {
        if op != *other {
            let mutant = with_operator(erase_expression(alloc, e)?, *other);
            list.push(inequality(alloc, e, mutant)?)?;
        }
    }
    Ok(list)
}

// A binary expression with this operator in place of its own.
fn with_operator(e: Expr, op: Op) -> Expr
    ensures { expression_of result ≡ with_operator op (expression_of e) }
{
    match e {
        Expr::Binary(_, left, right) => Expr::Binary(op, left, right),
        other => other,
    }
}
