ghost use Rattle.std.specs.Prelude.{◌≡◌, ◌↔◌, ℤ, pos, ◌≤ℤ◌, ◌<ℤ◌, ◌&&◌, ◌^◌, int_le, unsigned_abs, Ok, IfSome, IfNone};
ghost use Rattle.lt_model.specs.Scalar.{IsValue};
ghost use Rattle.lt_model.specs.Operators.{value_of};
ghost use Rattle.lt_model.specs.declared.operator.Op.TheVariants.{And, Or, Xor};
ghost use Rattle.lt_value.specs.Num.{Holds, IsExactly, IsEmpty};
ghost use Rattle.lt_value.specs.Entry.{written, is_single, IsSettled};
ghost use Rattle.lt_value.specs.Table.{and_row, or_row, mask_of, IsResult};
ghost use Rattle.lt_value.specs.Forward.{AreTaken};

use crate::num::Num;
use crate::operators::operand::range;
use crate::progression::{between, single};
use lt_model::{DataModel, Op, Scalar, apply};

/// The number that an operator gives on two values, if any.
fn exact(model: DataModel, op: Op, ty: Scalar, x: i128, y: i128) -> Option<Num>
    requires left { IsValue model ty x }
    requires right { IsValue model ty y }
    ensures some { IfSome result (λ n. (z : ℤ) → Holds n z ↔ (value_of model op ty x y ≡ Ok z)) }
    ensures none { IfNone result ((z : ℤ) → value_of model op ty x y ≡ Ok z → ⊥) }
{
    match apply(model, op, ty, x, y) {
        Ok(z) => Some(single(z)),
        Err(_) => None,
    }
}

fn are_single(a: &Num, b: &Num) -> bool
    ensures { result ≡ (is_single (written a.now) && is_single (written b.now)) }
{
    a.step == 0 && b.step == 0
}

/// Whether no member is negative.
fn is_natural(n: &Num) -> bool
    ensures { result ≡ int_le (pos 0) n.now.lo }
{
    0 <= n.lo
}

/// The least 2 ^ k - 1 that a number doesn't pass.
fn mask(n: i128) -> i128
    requires above { pos 0 ≤ℤ n }
    requires below { n <ℤ pos (2 ^ 64) }
    ensures { result ≡ pos (mask_of (unsigned_abs n)) }
{
    let digits = 64 - (n as u64).leading_zeros();
    (1 << digits) - 1
}

/// From 0 to the least greatest number of the sides that are never negative.
fn below_both(model: DataModel, ty: Scalar, a: &Num, b: &Num) -> Num
    requires { AreTaken model And ty a.now b.now }
    ensures { IsExactly (IsSettled model ty (and_row model ty (written a.now) (written b.now))) result }
{
    if is_natural(a) {
        if is_natural(b) {
            between(0, a.hi.min(b.hi))
        } else {
            between(0, a.hi)
        }
    } else if is_natural(b) {
        between(0, b.hi)
    } else {
        range(model, ty)
    }
}

/// From 0 to the least 2 ^ k - 1 that neither side passes, where none is ever negative.
fn below_mask(model: DataModel, ty: Scalar, a: &Num, b: &Num) -> Num
    requires { AreTaken model Or ty a.now b.now }
    ensures { IsExactly (IsSettled model ty (or_row model ty (written a.now) (written b.now))) result }
{
    if is_natural(a) {
        if is_natural(b) {
            between(0, mask(a.hi.max(b.hi)))
        } else {
            range(model, ty)
        }
    } else {
        range(model, ty)
    }
}

/// The bits that both numbers have.
pub(crate) fn common_bits(model: DataModel, ty: Scalar, a: &Num, b: &Num) -> Option<Num>
    requires { AreTaken model And ty a.now b.now }
    ensures some { IfSome result (IsExactly (IsResult model And ty a.now b.now)) }
    ensures none { IfNone result (IsEmpty (IsResult model And ty a.now b.now)) }
{
    if are_single(a, b) {
        exact(model, Op::And, ty, a.lo, b.lo)
    } else {
        Some(below_both(model, ty, a, b))
    }
}

/// The bits that one of the numbers has.
pub(crate) fn joined_bits(model: DataModel, ty: Scalar, a: &Num, b: &Num) -> Option<Num>
    requires { AreTaken model Or ty a.now b.now }
    ensures some { IfSome result (IsExactly (IsResult model Or ty a.now b.now)) }
    ensures none { IfNone result (IsEmpty (IsResult model Or ty a.now b.now)) }
{
    if are_single(a, b) {
        exact(model, Op::Or, ty, a.lo, b.lo)
    } else {
        Some(below_mask(model, ty, a, b))
    }
}

/// The bits that exactly one of the numbers has.
pub(crate) fn differing_bits(model: DataModel, ty: Scalar, a: &Num, b: &Num) -> Option<Num>
    requires { AreTaken model Xor ty a.now b.now }
    ensures some { IfSome result (IsExactly (IsResult model Xor ty a.now b.now)) }
    ensures none { IfNone result (IsEmpty (IsResult model Xor ty a.now b.now)) }
{
    if are_single(a, b) {
        exact(model, Op::Xor, ty, a.lo, b.lo)
    } else {
        Some(below_mask(model, ty, a, b))
    }
}
