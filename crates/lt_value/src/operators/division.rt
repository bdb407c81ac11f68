ghost use Rattle.std.specs.Prelude.{◌≡◌, ◌≢◌, ℤ, pos, negsuc, neg_ℤ, ◌≤ℤ◌, ◌<◌, ◌≤◌, ◌^◌, ◌-◌, if◌then◌else◌, int_lt, int_div, unsigned_abs, FitsSigned, IfSome, IfNone};
ghost use Rattle.std.specs.Int.{int_min, int_max, w128};
ghost use Rattle.lt_model.specs.declared.operator.Op.TheVariants.{Div, Rem};
ghost use Rattle.lt_value.specs.Num.{IsExactly, IsEmpty};
ghost use Rattle.lt_value.specs.Entry.{written};
ghost use Rattle.lt_value.specs.Table.{least_corner, greatest_corner, greatest_remainder, low_remainder, high_remainder, IsEndQuotient, IsSpan, IsResult};
ghost use Rattle.lt_value.specs.Forward.{AreTaken};

use crate::cut::{from_on, up_to};
use crate::modular::gcd;
use crate::num::Num;
use crate::operators::settle::congruent;
use crate::operators::span::{Span, joined, span_of};
use lt_model::{DataModel, Scalar, greatest, least};

/// A quotient, cut towards zero.
fn quotient(x: i128, y: i128) -> i128
    requires left { unsigned_abs x ≤ 2 ^ 64 }
    requires right { y ≢ pos 0 }
    ensures { result ≡ int_div x y }
{
    x / y
}

/// From the least to the greatest quotient of ends, by divisors of one sign.
fn span_by(a: &Num, divisors: &Num) -> Span
    requires lo { divisors.now.lo ≢ pos 0 }
    requires hi { divisors.now.hi ≢ pos 0 }
    ensures lo { result.lo ≡ least_corner int_div (written a.now) (written divisors.now) }
    ensures hi { result.hi ≡ greatest_corner int_div (written a.now) (written divisors.now) }
{
    let first = quotient(a.lo, divisors.lo);
    let second = quotient(a.lo, divisors.hi);
    let third = quotient(a.hi, divisors.lo);
    let fourth = quotient(a.hi, divisors.hi);
    span_of(first, second, third, fourth)
}

/// From the least to the greatest quotient of an end by an end of the divisors of one sign.
fn quotient_span(a: &Num, b: &Num) -> Option<Span>
    ensures some { IfSome result (λ s. IsSpan (IsEndQuotient a.now b.now) s.lo s.hi) }
    ensures none { IfNone result (IsEmpty (IsEndQuotient a.now b.now)) }
{
    match from_on(b, 1) {
        None => match up_to(b, -1) {
            None => None,
            Some(negative) => Some(span_by(a, &negative)),
        },
        Some(positive) => match up_to(b, -1) {
            None => Some(span_by(a, &positive)),
            Some(negative) => Some(joined(span_by(a, &positive), span_by(a, &negative))),
        },
    }
}

/// Quotients that are values of the type.
pub(crate) fn quotients(model: DataModel, ty: Scalar, a: &Num, b: &Num) -> Option<Num>
    ensures some { IfSome result (IsExactly (IsResult model Div ty a.now b.now)) }
    ensures none { IfNone result (IsEmpty (IsResult model Div ty a.now b.now)) }
{
    let span = quotient_span(a, b)?;
    let lo = span.lo.max(least(model, ty));
    let hi = span.hi.min(greatest(model, ty));
    congruent(lo, hi, 1, 0)
}

/// The greatest size of a remainder.
fn most_left(b: &Num) -> i128
    ensures is { result ≡ greatest_remainder (written b.now) }
    ensures small { unsigned_abs result ≤ 2 ^ 64 }
{
    let size = b.lo.unsigned_abs().max(b.hi.unsigned_abs());
    size.saturating_sub(1) as i128
}

/// The least remainder of dividends from `lo` on.
fn lowest(lo: i128, most: i128) -> i128
    requires { unsigned_abs most ≤ 2 ^ 64 }
    ensures { result ≡ low_remainder lo most }
{
    if lo < 0 { lo.max(-most) } else { 0 }
}

/// The greatest remainder of dividends up to `hi`.
fn highest(hi: i128, most: i128) -> i128
    ensures { result ≡ high_remainder hi most }
{
    if 0 < hi { hi.min(most) } else { 0 }
}

/// Remainders have the sign of the dividend; by a single divisor their congruence stays.
pub(crate) fn remainders(model: DataModel, ty: Scalar, a: &Num, b: &Num) -> Option<Num>
    requires { AreTaken model Rem ty a.now b.now }
    ensures some { IfSome result (IsExactly (IsResult model Rem ty a.now b.now)) }
    ensures none { IfNone result (IsEmpty (IsResult model Rem ty a.now b.now)) }
{
    let most = most_left(b);
    let lo = lowest(a.lo, most);
    let hi = highest(a.hi, most);
    if b.step == 0 {
        congruent(lo, hi, gcd(a.step, b.lo.unsigned_abs()), a.lo)
    } else {
        congruent(lo, hi, 1, 0)
    }
}
