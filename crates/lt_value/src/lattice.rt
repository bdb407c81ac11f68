ghost use Rattle.std.specs.Prelude.{◌≤ℤ◌, IfSome, IfNone};
ghost use Rattle.lt_value.specs.declared.num.Num.{Num as Numbers};
ghost use Rattle.lt_value.specs.Num.{IsBelow, IsMeet, AreApart};

use crate::modular::{common_step, first_common, gcd};
use crate::num::Num;
use crate::progression::{distance, progression, run_from};

/// The least `Num` that holds all members of either: the steps and the distance of the least members decide its step.
pub fn join(a: &Num, b: &Num) -> Num
    ensures left { IsBelow a.now result }
    ensures right { IsBelow b.now result }
    ensures least { (n : Numbers) → IsBelow a.now n → IsBelow b.now n → IsBelow result n }
{
    let lo = a.lo.min(b.lo);
    let hi = a.hi.max(b.hi);
    let apart = a.lo.abs_diff(b.lo);
    progression(lo, hi, gcd(gcd(a.step, b.step), apart))
}

/// The common members go up from the first by the least common multiple of the steps, by the Chinese remainder theorem.
fn meet_from(a: &Num, b: &Num) -> Option<Num>
    requires { b.now.lo ≤ℤ a.now.lo }
    ensures some { IfSome result (IsMeet a.now b.now) }
    ensures none { IfNone result (AreApart a.now b.now) }
{
    let hi = a.hi.min(b.hi);
    if hi < a.lo {
        return None;
    }
    let gap = distance(b.lo, a.lo);
    let room = distance(a.lo, hi);
    let first = match first_common(a.step, b.step, gap, room) {
        None => return None,
        Some(first) => first,
    };
    let left = room - first;
    let step = common_step(a.step, b.step, left);
    Some(run_from(a.lo + first as i128, step, left))
}

/// Exactly the members of both; `None` where there are none.
pub fn meet(a: &Num, b: &Num) -> Option<Num>
    ensures some { IfSome result (IsMeet a.now b.now) }
    ensures none { IfNone result (AreApart a.now b.now) }
{
    if a.lo < b.lo {
        meet_from(b, a)
    } else {
        meet_from(a, b)
    }
}
