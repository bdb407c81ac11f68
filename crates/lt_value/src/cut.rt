ghost use Rattle.std.specs.Prelude.{ℤ, pos, negsuc, ◌≤ℤ◌, ◌^◌, ◌-◌, IfSome, IfNone};
ghost use Rattle.lt_value.specs.Num.{IsExactly, IsEmpty, IsLeast};
ghost use Rattle.lt_value.specs.Refine.{IsUpTo, IsFrom, IsBut};

use crate::lattice::{join, meet};
use crate::num::Num;
use crate::progression::between;

/// The members that are no greater than the limit.
pub(crate) fn up_to(n: &Num, limit: i128) -> Option<Num>
    ensures some { IfSome result (IsExactly (IsUpTo n.now limit)) }
    ensures none { IfNone result (IsEmpty (IsUpTo n.now limit)) }
{
    if limit < n.lo {
        None
    } else if n.hi <= limit {
        Some(*n)
    } else {
        meet(n, &between(n.lo, limit))
    }
}

/// The members that are no less than the limit.
pub(crate) fn from_on(n: &Num, limit: i128) -> Option<Num>
    ensures some { IfSome result (IsExactly (IsFrom n.now limit)) }
    ensures none { IfNone result (IsEmpty (IsFrom n.now limit)) }
{
    if n.hi < limit {
        None
    } else if limit <= n.lo {
        Some(*n)
    } else {
        meet(n, &between(limit, n.hi))
    }
}

/// The least `Num` of the members other than one: what is below it and what is above it, joined. The step grows where
/// a number is taken out of three.
pub(crate) fn without(n: &Num, k: i128) -> Option<Num>
    requires least { negsuc (2 ^ 63 - 1) ≤ℤ k }
    requires greatest { k ≤ℤ pos (2 ^ 64 - 1) }
    ensures some { IfSome result (IsLeast (IsBut n.now k)) }
    ensures none { IfNone result (IsEmpty (IsBut n.now k)) }
{
    match up_to(n, k - 1) {
        None => from_on(n, k + 1),
        Some(below) => match from_on(n, k + 1) {
            None => Some(below),
            Some(above) => Some(join(&below, &above)),
        },
    }
}
