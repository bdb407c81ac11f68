ghost use Rattle.std.specs.Prelude.{ℕ, ℤ, pos, negsuc, ◌≤ℤ◌, ◌<◌, ◌≤◌, ◌+◌, ◌-◌, ◌*◌, ◌^◌, length};
ghost use Rattle.lt_value.specs.Num.{IsBelow, IsExactly};
ghost use Rattle.lt_value.specs.Rounding.{IsUnder, IsOver, IsLowEnd, IsHighEnd, IsRounded, height};

use crate::num::Num;
use crate::operators::settle::congruent;

/// The least value of C's integer types, and the greatest.
const LEAST: i128 = -0x8000_0000_0000_0000;

const GREATEST: i128 = 0xffff_ffff_ffff_ffff;

/// The greatest threshold up to a least member, which stays where there is none.
fn low_end(thresholds: &[i128], lo: i128) -> i128
    requires { lo ≤ℤ pos (2 ^ 64 - 1) }
    ensures { IsLowEnd thresholds.now lo result }
{
    let mut low = LEAST - 1;
    for t in thresholds {
        if low < *t && *t <= lo {
            low = *t;
        }
    }
    if low < LEAST { lo } else { low }
}

/// The least threshold from a greatest member on, which stays where there is none.
fn high_end(thresholds: &[i128], hi: i128) -> i128
    requires { negsuc (2 ^ 63 - 1) ≤ℤ hi }
    ensures { IsHighEnd thresholds.now hi result }
{
    let mut high = GREATEST + 1;
    for t in thresholds {
        if hi <= *t && *t < high {
            high = *t;
        }
    }
    if GREATEST < high { hi } else { high }
}

/// The ends moved outwards to thresholds, and then inwards to members; a single number stays. What is rounded stays, and a
/// greater set gives a greater one (`round_again_law`, `round_monotone_law`).
pub fn round(n: &Num, thresholds: &[i128]) -> Num
    ensures exactly { IsExactly (IsRounded thresholds.now n.now) result }
    ensures above { IsBelow n.now result }
{
    let low = low_end(thresholds, n.lo);
    let high = high_end(thresholds, n.hi);
    match congruent(low, high, n.step, n.lo) {
        Some(rounded) => rounded,
        None => unreachable!(),
    }
}

/// A law: what is rounded stays as it is. It does nothing.
pub fn round_again_law(thresholds: &[i128], n: &Num, rounded: &Num)
    requires { IsExactly (IsRounded thresholds.now n.now) rounded.now }
    ensures { IsExactly (IsRounded thresholds.now rounded.now) rounded.now }
{}

/// A law: greater sets give greater ones. It has no effect: that b is rounded is shown by rounding it.
pub fn round_monotone_law(thresholds: &[i128], a: &Num, b: &Num)
    requires { IsBelow a.now b.now }
    ensures { (z : ℤ) → IsRounded thresholds.now a.now z → IsRounded thresholds.now b.now z }
{
    let _low = low_end(thresholds, b.lo);
    let _high = high_end(thresholds, b.hi);
}

/// A law: between thresholds a number of at most twice their count and 66 falls from each rounded set to every set strictly
/// above it. It does nothing.
pub fn round_height_law(thresholds: &[i128], a: &Num, b: &Num)
    requires rounded { IsExactly (IsRounded thresholds.now a.now) a.now }
    requires below { IsBelow a.now b.now }
    requires strictly { IsBelow b.now a.now → ⊥ }
    requires under { (t : ℤ) × IsUnder thresholds.now b.now.lo t }
    requires over { (t : ℤ) × IsOver thresholds.now b.now.hi t }
    ensures falls { height thresholds.now b.now < height thresholds.now a.now }
    ensures bounded { height thresholds.now a.now ≤ 2 * length thresholds.now + 66 }
{}
