ghost use Rattle.std.specs.Prelude.{◌≡◌, ◌*ℤ◌, ◌<◌, ◌≤◌, ◌^◌, true, false, unsigned_abs, IfSome, IfNone};
ghost use Rattle.lt_model.specs.Scalar.{is_signed};
ghost use Rattle.lt_model.specs.declared.operator.Op.TheVariants.{Add, Sub, Mul};
ghost use Rattle.lt_value.specs.Num.{IsExactly, IsEmpty};
ghost use Rattle.lt_value.specs.Entry.{written};
ghost use Rattle.lt_value.specs.Table.{product_step, IsResult};
ghost use Rattle.lt_value.specs.Forward.{AreTaken};

use crate::modular::gcd;
use crate::num::Num;
use crate::operators::settle::{settle, settle_unsigned};
use crate::operators::span::span_of;
use lt_model::{DataModel, Scalar, is_signed};

/// Sums: the ends are added, and the common divisor of the steps stays.
pub(crate) fn sums(model: DataModel, ty: Scalar, a: &Num, b: &Num) -> Option<Num>
    ensures some { IfSome result (IsExactly (IsResult model Add ty a.now b.now)) }
    ensures none { IfNone result (IsEmpty (IsResult model Add ty a.now b.now)) }
{
    settle(model, ty, a.lo + b.lo, a.hi + b.hi, gcd(a.step, b.step))
}

/// Differences: each end less the other side's other end.
pub(crate) fn differences(model: DataModel, ty: Scalar, a: &Num, b: &Num) -> Option<Num>
    ensures some { IfSome result (IsExactly (IsResult model Sub ty a.now b.now)) }
    ensures none { IfNone result (IsEmpty (IsResult model Sub ty a.now b.now)) }
{
    settle(model, ty, a.lo - b.hi, a.hi - b.lo, gcd(a.step, b.step))
}

/// The step of products: a single number multiplies the other's step.
fn product_step(a: &Num, b: &Num) -> u128
    requires left_step { a.now.step < 2 ^ 64 }
    requires right_step { b.now.step < 2 ^ 64 }
    requires left { unsigned_abs a.now.lo < 2 ^ 64 }
    requires right { unsigned_abs b.now.lo < 2 ^ 64 }
    ensures { result ≡ product_step (written a.now) (written b.now) }
{
    if b.step == 0 {
        a.step * b.lo.unsigned_abs()
    } else if a.step == 0 {
        b.step * a.lo.unsigned_abs()
    } else {
        1
    }
}

/// A product of numbers of at most 64 bits.
fn product(x: i128, y: i128) -> i128
    requires left { unsigned_abs x ≤ 2 ^ 63 }
    requires right { unsigned_abs y ≤ 2 ^ 63 }
    ensures is { result ≡ x *ℤ y }
    ensures small { unsigned_abs result ≤ 2 ^ 126 }
{
    x * y
}

/// Products of a signed type lie between the products of ends.
fn signed_products(model: DataModel, ty: Scalar, a: &Num, b: &Num) -> Option<Num>
    requires signed { is_signed model ty ≡ true }
    requires taken { AreTaken model Mul ty a.now b.now }
    ensures some { IfSome result (IsExactly (IsResult model Mul ty a.now b.now)) }
    ensures none { IfNone result (IsEmpty (IsResult model Mul ty a.now b.now)) }
{
    let first = product(a.lo, b.lo);
    let second = product(a.lo, b.hi);
    let third = product(a.hi, b.lo);
    let fourth = product(a.hi, b.hi);
    let span = span_of(first, second, third, fourth);
    settle(model, ty, span.lo, span.hi, product_step(a, b))
}

/// Products of an unsigned type go from that of the least members to that of the greatest.
fn unsigned_products(model: DataModel, ty: Scalar, a: &Num, b: &Num) -> Option<Num>
    requires unsigned { is_signed model ty ≡ false }
    requires taken { AreTaken model Mul ty a.now b.now }
    ensures some { IfSome result (IsExactly (IsResult model Mul ty a.now b.now)) }
    ensures none { IfNone result (IsEmpty (IsResult model Mul ty a.now b.now)) }
{
    let lo = a.lo.unsigned_abs() * b.lo.unsigned_abs();
    let hi = a.hi.unsigned_abs() * b.hi.unsigned_abs();
    settle_unsigned(model, ty, lo, hi, product_step(a, b))
}

/// Products.
pub(crate) fn products(model: DataModel, ty: Scalar, a: &Num, b: &Num) -> Option<Num>
    requires { AreTaken model Mul ty a.now b.now }
    ensures some { IfSome result (IsExactly (IsResult model Mul ty a.now b.now)) }
    ensures none { IfNone result (IsEmpty (IsResult model Mul ty a.now b.now)) }
{
    if is_signed(model, ty) {
        signed_products(model, ty, a, b)
    } else {
        unsigned_products(model, ty, a, b)
    }
}
