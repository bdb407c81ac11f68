ghost use Rattle.std.specs.Prelude.{ℤ, ◌↔◌, IfSome, IfNone};
ghost use Rattle.lt_model.specs.Scalar.{IsValue};
ghost use Rattle.lt_model.specs.declared.operator.Op.TheVariants.{Shl, Div};
ghost use Rattle.lt_value.specs.Num.{Holds, IsExactly, IsEmpty};
ghost use Rattle.lt_value.specs.Forward.{IsTakenFrom, IsCount, IsDivisor, TakesLeft, TakesRight, IsLeftTaken, IsRightTaken};

use crate::cut::{from_on, without};
use crate::lattice::meet;
use crate::num::Num;
use crate::progression::between;
use lt_model::{DataModel, Op, Scalar, greatest, least, width};

/// All values of a type.
pub(crate) fn range(model: DataModel, ty: Scalar) -> Num
    ensures { (z : ℤ) → Holds result z ↔ IsValue model ty z }
{
    between(least(model, ty), greatest(model, ty))
}

/// The members that are values of the type.
fn values(model: DataModel, ty: Scalar, n: &Num) -> Option<Num>
    ensures some { IfSome result (IsExactly (IsTakenFrom n.now (IsValue model ty))) }
    ensures none { IfNone result (IsEmpty (IsTakenFrom n.now (IsValue model ty))) }
{
    meet(n, &range(model, ty))
}

/// The members by which a value of the type can be shifted.
fn counts(model: DataModel, ty: Scalar, n: &Num) -> Option<Num>
    ensures some { IfSome result (IsExactly (IsTakenFrom n.now (IsCount model ty))) }
    ensures none { IfNone result (IsEmpty (IsTakenFrom n.now (IsCount model ty))) }
{
    meet(n, &between(0, i128::from(width(model, ty)) - 1))
}

/// The values of the type that can be shifted to the left: none is negative.
fn shiftable(model: DataModel, ty: Scalar, n: &Num) -> Option<Num>
    ensures some { IfSome result (IsExactly (IsTakenFrom n.now (TakesLeft model Shl ty))) }
    ensures none { IfNone result (IsEmpty (IsTakenFrom n.now (TakesLeft model Shl ty))) }
{
    let values = values(model, ty, n)?;
    from_on(&values, 0)
}

/// The least `Num` of the values of the type that can divide.
fn divisors(model: DataModel, ty: Scalar, n: &Num) -> Option<Num>
    ensures some { IfSome result (IsRightTaken model Div ty n.now) }
    ensures none { IfNone result (IsEmpty (IsTakenFrom n.now (IsDivisor model ty))) }
{
    let values = values(model, ty, n)?;
    if values.lo == 0 && values.hi == 0 {
        None
    } else {
        without(&values, 0)
    }
}

/// What an operator takes on its left.
pub(crate) fn left_operand(model: DataModel, op: Op, ty: Scalar, n: &Num) -> Option<Num>
    ensures some { IfSome result (IsLeftTaken model op ty n.now) }
    ensures none { IfNone result (IsEmpty (IsTakenFrom n.now (TakesLeft model op ty))) }
{
    match op {
        Op::Shl => shiftable(model, ty, n),
        _ => values(model, ty, n),
    }
}

/// What an operator takes on its right.
pub(crate) fn right_operand(model: DataModel, op: Op, ty: Scalar, n: &Num) -> Option<Num>
    ensures some { IfSome result (IsRightTaken model op ty n.now) }
    ensures none { IfNone result (IsEmpty (IsTakenFrom n.now (TakesRight model op ty))) }
{
    match op {
        Op::Div | Op::Rem => divisors(model, ty, n),
        Op::Shl | Op::Shr => counts(model, ty, n),
        _ => values(model, ty, n),
    }
}
