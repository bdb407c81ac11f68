ghost use Rattle.std.specs.Prelude.{◌≡◌, ℤ, pos, negsuc, ◌≤ℤ◌, ◌<◌, ◌≤◌, ◌^◌, ◌-◌, false, true, ◌||◌, unsigned_abs, IfSome, IfNone};
ghost use Rattle.lt_model.specs.Scalar.{is_signed};
ghost use Rattle.lt_value.specs.Num.{IsExactly, IsEmpty};
ghost use Rattle.lt_value.specs.Entry.{entry_of, IsIn, IsSkip, IsKept, is_within, IsReduced, IsSettled};

use crate::modular::gcd;
use crate::num::Num;
use crate::progression::{distance, run_from, single};
use lt_model::{DataModel, Scalar, greatest, is_signed, least, width};

/// The numbers from `lo` by `step` that don't pass `hi`.
fn stepped(lo: i128, hi: i128, step: u128) -> Num
    requires least { negsuc (2 ^ 63 - 1) ≤ℤ lo }
    requires greatest { hi ≤ℤ pos (2 ^ 64 - 1) }
    requires ordered { lo ≤ℤ hi }
    ensures { IsExactly (IsIn (entry_of lo hi step lo)) result }
{
    let room = distance(lo, hi);
    let reach = if step > room { 0 } else { step };
    run_from(lo, reach, room)
}

/// How far the first number that is congruent to the rest is above `lo`.
fn skip_from(lo: i128, step: u128, rest: i128) -> u128
    requires step { 0 < step }
    requires step_below { step < 2 ^ 127 }
    requires lo { unsigned_abs lo ≤ 2 ^ 64 }
    requires rest { unsigned_abs rest ≤ 2 ^ 126 }
    ensures { IsSkip lo step rest result }
{
    (rest - lo).rem_euclid(step as i128) as u128
}

/// The numbers from `lo` to `hi` that are congruent to the rest modulo the step.
pub(crate) fn congruent(lo: i128, hi: i128, step: u128, rest: i128) -> Option<Num>
    requires least { negsuc (2 ^ 63 - 1) ≤ℤ lo }
    requires greatest { hi ≤ℤ pos (2 ^ 64 - 1) }
    requires step { step < 2 ^ 127 }
    requires rest { unsigned_abs rest ≤ 2 ^ 126 }
    ensures some { IfSome result (IsExactly (IsIn (entry_of lo hi step rest))) }
    ensures none { IfNone result (IsEmpty (IsIn (entry_of lo hi step rest))) }
{
    if hi < lo {
        return None;
    }
    if step == 0 {
        return if lo <= rest && rest <= hi {
            Some(single(rest))
        } else {
            None
        };
    }
    let skip = skip_from(lo, step, rest);
    if skip > distance(lo, hi) {
        None
    } else {
        Some(stepped(lo + skip as i128, hi, step))
    }
}

/// The numbers from `lo` to `hi` by a step that are values of the type.
fn kept(model: DataModel, ty: Scalar, lo: i128, hi: i128, step: u128) -> Option<Num>
    requires step { step < 2 ^ 127 }
    requires lo { unsigned_abs lo ≤ 2 ^ 126 }
    ensures some { IfSome result (IsExactly (IsKept model ty (entry_of lo hi step lo))) }
    ensures none { IfNone result (IsEmpty (IsKept model ty (entry_of lo hi step lo))) }
{
    let low = lo.max(least(model, ty));
    let high = hi.min(greatest(model, ty));
    congruent(low, high, step, lo)
}

/// The values of a type that are congruent to the rest modulo the common divisor of a step and 2 ^ w.
pub(crate) fn reduced(model: DataModel, ty: Scalar, step: u128, rest: i128) -> Option<Num>
    requires { unsigned_abs rest ≤ 2 ^ 126 }
    ensures some { IfSome result (IsExactly (IsReduced model ty step rest)) }
    ensures none { IfNone result (IsEmpty (IsReduced model ty step rest)) }
{
    let common = gcd(step, 1 << width(model, ty));
    congruent(least(model, ty), greatest(model, ty), common, rest)
}

/// Whether a result from `lo` to `hi` isn't reduced.
fn stays(model: DataModel, ty: Scalar, lo: i128, hi: i128) -> bool
    ensures { result ≡ (is_signed model ty || is_within model ty (entry_of lo hi 0 lo)) }
{
    is_signed(model, ty) || (least(model, ty) <= lo && hi <= greatest(model, ty))
}

/// What is left in a type of the numbers from `lo` to `hi` by a step: a signed result is met with the type's range, and
/// an unsigned one that doesn't fit wraps.
pub(crate) fn settle(model: DataModel, ty: Scalar, lo: i128, hi: i128, step: u128) -> Option<Num>
    requires step { step < 2 ^ 127 }
    requires lo { unsigned_abs lo ≤ 2 ^ 126 }
    ensures some { IfSome result (IsExactly (IsSettled model ty (entry_of lo hi step lo))) }
    ensures none { IfNone result (IsEmpty (IsSettled model ty (entry_of lo hi step lo))) }
{
    if stays(model, ty, lo, hi) {
        kept(model, ty, lo, hi, step)
    } else {
        reduced(model, ty, step, lo)
    }
}

/// The same of an unsigned type, where products may pass 127 bits.
pub(crate) fn settle_unsigned(
    model: DataModel,
    ty: Scalar,
    lo: u128,
    hi: u128,
    step: u128,
) -> Option<Num>
    requires unsigned { is_signed model ty ≡ false }
    requires ordered { lo ≤ hi }
    ensures some { IfSome result (IsExactly (IsSettled model ty (entry_of (pos lo) (pos hi) step (pos lo)))) }
    ensures none { IfNone result (IsEmpty (IsSettled model ty (entry_of (pos lo) (pos hi) step (pos lo)))) }
{
    if hi <= greatest(model, ty) as u128 {
        Some(stepped(lo as i128, hi as i128, step))
    } else {
        reduced(model, ty, step, (lo % (1 << width(model, ty))) as i128)
    }
}
