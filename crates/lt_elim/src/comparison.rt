// Which of two fractions is less.
ghost use Rattle.std.specs.Prelude.{◌≡◌, ◌<◌, ◌*◌, nat_le};
ghost use Rattle.lt_elim.specs.Fraction.{fraction, is_at_most, greater, lesser};

use crate::fraction::Fraction;

/// The greater of two fractions, the first of equal ones.
pub(crate) fn greater(e: Fraction, f: Fraction) -> Fraction
    ensures { fraction result.over result.under ≡ greater (fraction e.over e.under) (fraction f.over f.under) }
{
    if is_at_most(f, e) { e } else { f }
}

/// The lesser of two fractions, the first of equal ones.
pub(crate) fn lesser(e: Fraction, f: Fraction) -> Fraction
    ensures { fraction result.over result.under ≡ lesser (fraction e.over e.under) (fraction f.over f.under) }
{
    if is_at_most(e, f) { e } else { f }
}

fn is_at_most(e: Fraction, f: Fraction) -> bool
    ensures { result ≡ is_at_most (fraction e.over e.under) (fraction f.over f.under) }
{
    let left = e.over.unsigned_abs();
    let right = f.over.unsigned_abs();
    let below = e.over < 0;
    if below != (f.over < 0) {
        return below;
    }
    if below {
        ratio_at_most(right, f.under, left, e.under)
    } else {
        ratio_at_most(left, e.under, right, f.under)
    }
}

// Whether one number over another is at most a third over a fourth.
fn ratio_at_most(left: u128, left_under: u128, right: u128, right_under: u128) -> bool
    requires left { 0 < left_under }
    requires right { 0 < right_under }
    ensures { result ≡ nat_le (left * right_under) (right * left_under) }
{
    let mut a = left;
    let mut b = left_under;
    let mut c = right;
    let mut d = right_under;
    // Of equal whole parts the rests compare, and so do their inverses the other way round.
    'steps: while b != 0 && d != 0 {
        let whole = a / b;
        let other = c / d;
        if whole != other {
            return whole < other;
        }
        let rest = a % b;
        a = d;
        d = rest;
        let rest = c % a;
        c = b;
        b = rest;
    }
    d == 0
}
