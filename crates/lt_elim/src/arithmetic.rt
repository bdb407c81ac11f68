// Arithmetic of fractions in lowest terms.
ghost use Rattle.std.specs.Prelude.{◌≡◌, ◌≢◌, ◌<◌, ◌≤◌, ◌^◌, ◌*◌, ◌/◌, ◌+ℤ◌, ◌*ℤ◌, ℕ, ℤ, pos, neg_ℤ, int_lt, if◌then◌else◌, unsigned_abs, IsNone, IfSome, option_map, false, ◌&&◌, ◌||◌};
ghost use Rattle.std.specs.Option.{SomeIff};
ghost use Rattle.lt_lin.specs.Terms.{Fits};
ghost use Rattle.lt_elim.specs.Divisor.{gcd_of, quotient, passes};
ghost use Rattle.lt_elim.specs.Fraction.{fraction, limited_to, times, plus, sum_over, reduced, negated_over};
ghost use Rattle.lt_elim.specs.Reckoning.{Gives, CanTimes, CanPlus, CanNegate};

use crate::combination::{LIMIT, passes};
use crate::divisor::gcd;
use crate::fraction::Fraction;

/// A whole number.
pub(crate) fn whole(z: i128) -> Fraction
    ensures over { result.over ≡ z }
    ensures under { result.under ≡ 1 }
{
    Fraction { over: z, under: 1 }
}

/// A factor times a fraction.
pub(crate) fn times(limited: bool, factor: i128, f: Fraction) -> Option<Fraction>
    ensures value { Gives limited result (times limited factor (fraction f.over f.under)) }
    ensures unfit { IsNone result → limited ≡ false → CanTimes factor (fraction f.over f.under) → ⊥ }
{
    let divisor = common_divisor(factor.unsigned_abs(), f.under);
    let Some(over) = product(quotient(factor, divisor), f.over) else {
        return None;
    };
    limited_to(limited, over, f.under / divisor)
}

/// The sum of two fractions.
pub(crate) fn plus(limited: bool, e: Fraction, f: Fraction) -> Option<Fraction>
    ensures value { Gives limited result (plus limited (fraction e.over e.under) (fraction f.over f.under)) }
    ensures unfit { IsNone result → limited ≡ false → CanPlus (fraction e.over e.under) (fraction f.over f.under) → ⊥ }
{
    let divisor = common_divisor(e.under, f.under);
    let Some(multiple) = denominator(e.under / divisor, f.under) else {
        return None;
    };
    let Some(left) = product(e.over, signed(f.under / divisor)) else {
        return None;
    };
    let Some(right) = product(f.over, signed(e.under / divisor)) else {
        return None;
    };
    sum_over(limited, left, right, multiple)
}

/// The fraction negated and divided by a number.
pub(crate) fn negated_over(limited: bool, f: Fraction, by: i128) -> Option<Fraction>
    requires some { by ≢ pos 0 }
    requires small { unsigned_abs by < 2 ^ 127 }
    ensures value { Gives limited result (negated_over limited (fraction f.over f.under) by) }
    ensures unfit { IsNone result → limited ≡ false → CanNegate (fraction f.over f.under) by → ⊥ }
{
    let divisor = common_divisor(f.over.unsigned_abs(), by.unsigned_abs());
    let Some(over) = negated_if(by > 0, quotient(f.over, divisor)) else {
        return None;
    };
    let Some(under) = denominator(f.under, by.unsigned_abs() / divisor) else {
        return None;
    };
    limited_to(limited, over, under)
}

fn limited_to(limited: bool, over: i128, under: u128) -> Option<Fraction>
    requires positive { 0 < under }
    requires fits { under < 2 ^ 127 }
    ensures { option_map (λ f. fraction f.over f.under) result ≡ limited_to limited (fraction over under) }
{
    if limited && (passes(over) || under > LIMIT) {
        None
    } else {
        Some(Fraction { over, under })
    }
}

fn sum_over(limited: bool, left: i128, right: i128, multiple: u128) -> Option<Fraction>
    requires positive { 0 < multiple }
    requires fits { multiple < 2 ^ 127 }
    ensures value { Gives limited result (sum_over limited left right multiple) }
    ensures unfit { IsNone result → limited ≡ false → Fits (left +ℤ right) → ⊥ }
{
    let Some(sum) = sum_of(left, right) else {
        return None;
    };
    if is_past(limited, multiple, left, right, sum) {
        return None;
    }
    Some(reduced(sum, multiple))
}

// Whether there is a limit and a number passes it.
fn is_past(limited: bool, multiple: u128, left: i128, right: i128, sum: i128) -> bool
    ensures { result ≡ (limited && (passes (pos multiple) || passes left || passes right || passes sum)) }
{
    limited && (multiple > LIMIT || passes(left) || passes(right) || passes(sum))
}

fn reduced(over: i128, under: u128) -> Fraction
    requires positive { 0 < under }
    requires fits { under < 2 ^ 127 }
    ensures { fraction result.over result.under ≡ reduced over under }
{
    let divisor = common_divisor(over.unsigned_abs(), under);
    Fraction {
        over: quotient(over, divisor),
        under: under / divisor,
    }
}

// The greatest common divisor of two numbers.
fn common_divisor(a: u128, b: u128) -> u128
    requires { 0 < b }
    ensures value { result ≡ gcd_of a b }
    ensures positive { 0 < result }
    ensures bound { result ≤ b }
    ensures part { 0 < b / result }
    ensures other { 0 < a → 0 < a / result }
{
    gcd(a, b)
}

// The quotient, rounded down.
fn quotient(z: i128, divisor: u128) -> i128
    requires positive { 0 < divisor }
    requires fits { divisor < 2 ^ 127 }
    ensures { result ≡ quotient z divisor }
{
    z.div_euclid(signed(divisor))
}

/// The same number, with a sign.
pub(crate) fn signed(n: u128) -> i128
    requires { n < 2 ^ 127 }
    ensures { result ≡ pos n }
{
    n as i128
}

fn product(a: i128, b: i128) -> Option<i128>
    ensures { SomeIff result (Fits (a *ℤ b)) (a *ℤ b) }
{
    a.checked_mul(b)
}

fn sum_of(a: i128, b: i128) -> Option<i128>
    ensures { SomeIff result (Fits (a +ℤ b)) (a +ℤ b) }
{
    a.checked_add(b)
}

fn negated_if(negate: bool, z: i128) -> Option<i128>
    ensures { SomeIff result (Fits (if negate then neg_ℤ z else z)) (if negate then neg_ℤ z else z) }
{
    if negate { z.checked_neg() } else { Some(z) }
}

fn denominator(a: u128, b: u128) -> Option<u128>
    requires a { 0 < a }
    requires b { 0 < b }
    ensures value { SomeIff result (a * b < 2 ^ 127) (a * b) }
    ensures positive { IfSome result (λ n. 0 < n) }
{
    match a.checked_mul(b) {
        Some(n) if n < 1 << 127 => Some(n),
        _ => None,
    }
}
