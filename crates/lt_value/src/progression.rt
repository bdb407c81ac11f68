ghost use Rattle.std.specs.Prelude.{◌≡◌, ℤ, pos, negsuc, ◌-ℤ◌, ◌+ℤ◌, ◌≤ℤ◌, ◌<◌, ◌≤◌, ◌^◌, ◌-◌, ◌↔◌};
ghost use Rattle.lt_value.specs.Num.{Holds, IsRun};
ghost use Rattle.lt_value.specs.Progression.{AreEnds, Leaves};

use crate::modular::greatest_multiple;
use crate::num::Num;

/// How far one number is above another.
pub(crate) fn distance(from: i128, to: i128) -> u128
    requires { from ≤ℤ to }
    ensures { pos result ≡ to -ℤ from }
{
    to.abs_diff(from)
}

/// What a number leaves by a step.
pub(crate) fn rest_by(step: u128, z: i128) -> u128
    requires { step < 2 ^ 66 }
    ensures leaves { Leaves step result z }
    ensures none { step ≡ 0 → result ≡ 0 }
    ensures below { 0 < step → result < step }
{
    if step == 0 {
        0
    } else {
        z.rem_euclid(step as i128) as u128
    }
}

/// The numbers from `lo` to `hi` by `step`, of which `lo` and `hi` are two.
pub(crate) fn progression(lo: i128, hi: i128, step: u128) -> Num
    requires { AreEnds lo hi step }
    ensures lo { result.lo ≡ lo }
    ensures hi { result.hi ≡ hi }
    ensures step { result.step ≡ step }
{
    let rest = rest_by(step, lo);
    Num { lo, hi, step, rest }
}

/// The numbers from `lo` by `step` within the room.
pub(crate) fn run_from(lo: i128, step: u128, room: u128) -> Num
    requires least { negsuc (2 ^ 63 - 1) ≤ℤ lo }
    requires greatest { (lo +ℤ pos room) ≤ℤ pos (2 ^ 64 - 1) }
    requires step { step ≤ room }
    ensures { IsRun lo step room result }
{
    let reach = greatest_multiple(step, room);
    progression(lo, lo + reach as i128, step)
}

/// All numbers from `lo` to `hi`, which are values of C's integer types.
pub fn between(lo: i128, hi: i128) -> Num
    requires least { negsuc (2 ^ 63 - 1) ≤ℤ lo }
    requires greatest { hi ≤ℤ pos (2 ^ 64 - 1) }
    requires ordered { lo ≤ℤ hi }
    ensures { (z : ℤ) → Holds result z ↔ ((lo ≤ℤ z) × (z ≤ℤ hi)) }
{
    let room = distance(lo, hi);
    let step = if room == 0 { 0 } else { 1 };
    run_from(lo, step, room)
}

/// One number, which is a value of one of C's integer types.
pub fn single(z: i128) -> Num
    requires least { negsuc (2 ^ 63 - 1) ≤ℤ z }
    requires greatest { z ≤ℤ pos (2 ^ 64 - 1) }
    ensures { (y : ℤ) → Holds result y ↔ (y ≡ z) }
{
    between(z, z)
}
