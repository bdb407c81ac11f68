// Operators in constant expressions: a fault counts only where it is evaluated.

ghost use Rattle.std.specs.Prelude.{◌≡◌, ◌⊎◌, pos, ◌-ℤ◌, ◌&&◌, if◌then◌else◌};
ghost use Rattle.lt_model.specs.Scalar.{IsValue};
ghost use Rattle.lt_model.specs.Operators.{IsRightOperand, IsShift};
ghost use Rattle.lt_model.specs.declared.operator.Op.TheVariants as ops;
ghost use Rattle.lt_tree.specs.Typing.Constants as typing;
ghost use Rattle.lt_tree.specs.Typing.ConstancyView.{constancy_of};
ghost use Rattle.lt_tree.specs.Typing.BinaryOperations.{settles};
ghost use Rattle.lt_table.specs.ConstantViews.{IfNumber};

use crate::constants::numbers::{converted, is_form};
use lt_model::{DataModel, Op, Scalar, Ub, apply};
use lt_tree::LogicalOp;
use lt_tree::typed::Constancy;

fn value_or_fault(answer: Result<i128, Ub>) -> Constancy
    ensures { constancy_of result ≡ typing.value_or_fault answer }
{
    match answer {
        Ok(z) => Constancy::Number(z),
        Err(_) => Constancy::Faulty,
    }
}

// What an operator makes of operands that aren't both numbers.
fn unevaluated(a: Constancy, b: Constancy) -> Constancy
    ensures { constancy_of result ≡ (if typing.is_form (constancy_of a) && typing.is_form (constancy_of b) then typing.faulty else typing.varying) }
{
    if is_form(a) && is_form(b) {
        Constancy::Faulty
    } else {
        Constancy::Varying
    }
}

/// What an operator makes of two operands, whose values are of the type of the operation; the right one of a shift may be of any type.
pub fn applied(model: DataModel, op: Op, ty: Scalar, a: Constancy, b: Constancy) -> Constancy
    requires left { IfNumber (constancy_of a) (IsValue model ty) }
    requires right { IfNumber (constancy_of b) (IsRightOperand model op ty) }
    ensures is { constancy_of result ≡ typing.applied model op ty (constancy_of a) (constancy_of b) }
    ensures fits { IfNumber (constancy_of result) (IsValue model ty) }
{
    match a {
        Constancy::Number(x) => match b {
            Constancy::Number(y) => value_or_fault(apply(model, op, ty, x, y)),
            _ => unevaluated(a, b),
        },
        _ => unevaluated(a, b),
    }
}

/// What an operator makes of two operands, each of which is converted first: to the type of the operation, or the right one of a shift to another.
pub fn operated(
    model: DataModel,
    op: Op,
    ty: Scalar,
    right: Scalar,
    a: Constancy,
    b: Constancy,
) -> Constancy
    requires { (right ≡ ty) ⊎ IsShift op }
    ensures is { constancy_of result ≡ typing.operated model op ty right (constancy_of a) (constancy_of b) }
    ensures fits { IfNumber (constancy_of result) (IsValue model ty) }
{
    applied(
        model,
        op,
        ty,
        converted(model, ty, a),
        converted(model, right, b),
    )
}

/// `-x`, which is `0 - x` in this type.
pub fn negative(model: DataModel, ty: Scalar, c: Constancy) -> Constancy
    ensures { constancy_of result ≡ typing.applied model ops.Sub ty (typing.number (pos 0)) (typing.converted model ty (constancy_of c)) }
{
    applied(
        model,
        Op::Sub,
        ty,
        Constancy::Number(0),
        converted(model, ty, c),
    )
}

/// `~x`, which is exclusive or with -1 in this type.
pub fn complement(model: DataModel, ty: Scalar, c: Constancy) -> Constancy
    ensures { constancy_of result ≡ typing.applied model ops.Xor ty (typing.converted model ty (typing.number (pos 0 -ℤ pos 1))) (typing.converted model ty (constancy_of c)) }
{
    operated(model, Op::Xor, ty, ty, Constancy::Number(-1), c)
}

/// `!x`.
pub fn negated(c: Constancy) -> Constancy
    ensures { constancy_of result ≡ typing.negated (constancy_of c) }
{
    match c {
        Constancy::Number(z) => Constancy::Number(if z == 0 { 1 } else { 0 }),
        Constancy::Faulty => Constancy::Faulty,
        _ => Constancy::Varying,
    }
}

/// Whether it is true, as 0 or 1.
pub fn truth_of(c: Constancy) -> Constancy
    ensures { constancy_of result ≡ typing.truth_of (constancy_of c) }
{
    negated(negated(c))
}

// Whether the value of the left operand leaves the right one out.
fn settles(op: LogicalOp, z: i128) -> bool
    ensures { result ≡ settles op z }
{
    match op {
        LogicalOp::And => z == 0,
        LogicalOp::Or => z != 0,
    }
}

/// `a && b` and `a || b`, where b is evaluated only if a doesn't settle the answer.
pub fn connected(op: LogicalOp, a: Constancy, b: Constancy) -> Constancy
    ensures { constancy_of result ≡ typing.connected (settles op) (constancy_of a) (constancy_of b) }
{
    if !is_form(b) {
        return Constancy::Varying;
    }
    match a {
        Constancy::Number(z) => truth_of(if settles(op, z) { a } else { b }),
        Constancy::Faulty => Constancy::Faulty,
        _ => Constancy::Varying,
    }
}

/// `a ? b : c`, of which one operand is evaluated.
pub fn chosen(a: Constancy, b: Constancy, c: Constancy) -> Constancy
    ensures { constancy_of result ≡ typing.chosen (constancy_of a) (constancy_of b) (constancy_of c) }
{
    if !is_form(b) || !is_form(c) {
        return Constancy::Varying;
    }
    match a {
        Constancy::Number(z) => { if z == 0 { c } else { b } }
        Constancy::Faulty => Constancy::Faulty,
        _ => Constancy::Varying,
    }
}
