ghost use Rattle.std.specs.Prelude.{◌≡◌, ◌==◌, if◌then◌else◌, ◌*◌, ◌<◌, ◌≤◌, ◌^◌, unsigned_abs, pos, ◌≤ℤ◌, ◌<ℤ◌, IfSome, IfNone};
ghost use Rattle.std.specs.Int.{int_shr};
ghost use Rattle.lt_model.specs.declared.operator.Op.TheVariants.{Shl, Shr};
ghost use Rattle.lt_value.specs.Num.{IsExactly, IsEmpty};
ghost use Rattle.lt_value.specs.Table.{power, right_shift, IsResult};
ghost use Rattle.lt_value.specs.Forward.{AreTaken};

use crate::num::Num;
use crate::operators::settle::{settle, settle_unsigned};
use crate::operators::span::span_of;
use crate::progression::between;
use lt_model::{DataModel, Scalar, is_signed};

/// 2 to a count.
fn power_of(count: i128) -> u128
    requires above { pos 0 ≤ℤ count }
    requires below { count <ℤ pos 64 }
    ensures is { result ≡ power count }
    ensures small { result ≤ 2 ^ 63 }
{
    1 << (count as u32)
}

/// The step of shifts to the left: a single count multiplies it.
fn left_step(a: &Num, b: &Num, power: u128) -> u128
    requires step { a.now.step < 2 ^ 64 }
    requires power { power ≤ 2 ^ 63 }
    ensures is { result ≡ (if b.now.step == 0 then a.now.step * power else 1) }
    ensures small { result < 2 ^ 127 }
{
    if b.step == 0 { a.step * power } else { 1 }
}

/// Shifts to the left: the least member by the least count, and the greatest by the greatest. No member is negative.
pub(crate) fn left_shifts(model: DataModel, ty: Scalar, a: &Num, b: &Num) -> Option<Num>
    requires { AreTaken model Shl ty a.now b.now }
    ensures some { IfSome result (IsExactly (IsResult model Shl ty a.now b.now)) }
    ensures none { IfNone result (IsEmpty (IsResult model Shl ty a.now b.now)) }
{
    let low = power_of(b.lo);
    let high = power_of(b.hi);
    let step = left_step(a, b, low);
    let lo = a.lo.unsigned_abs() * low;
    let hi = a.hi.unsigned_abs() * high;
    if is_signed(model, ty) {
        settle(model, ty, lo as i128, hi as i128, step)
    } else {
        settle_unsigned(model, ty, lo, hi, step)
    }
}

/// A shift to the right, rounded down.
fn shifted(x: i128, count: i128) -> i128
    requires above { pos 0 ≤ℤ count }
    requires below { count <ℤ pos 64 }
    ensures { result ≡ right_shift x count }
{
    x >> (count as u32)
}

/// Shifts to the right lie between the shifts of ends by ends.
pub(crate) fn right_shifts(model: DataModel, ty: Scalar, a: &Num, b: &Num) -> Option<Num>
    requires { AreTaken model Shr ty a.now b.now }
    ensures some { IfSome result (IsExactly (IsResult model Shr ty a.now b.now)) }
    ensures none { IfNone result (IsEmpty (IsResult model Shr ty a.now b.now)) }
{
    let first = shifted(a.lo, b.lo);
    let second = shifted(a.lo, b.hi);
    let third = shifted(a.hi, b.lo);
    let fourth = shifted(a.hi, b.hi);
    let span = span_of(first, second, third, fourth);
    Some(between(span.lo, span.hi))
}
