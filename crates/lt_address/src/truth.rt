ghost use Rattle.std.specs.Prelude.{◌↔◌, ◌≢◌, ℤ, pos, IsTrue, IfSome, IfNone, true, false};
ghost use Rattle.lt_value.specs.Num.{Holds, IsExactly, IsEmpty};
ghost use Rattle.lt_address.specs.Value.{CanBe, IsTruthIn, IsPart, IsPointerWith};

use crate::order::no_targets;
use crate::value::Value;
use lt_value::{Num, between, is_member, single};

/// Whether some member isn't 0.
fn has_other(n: &Num) -> bool
    ensures { IsTrue result ↔ ((z : ℤ) × Holds n.now z × (z ≢ pos 0)) }
{
    n.lo != 0 || n.hi != 0
}

/// Whether some of what a value stands for is a number other than 0, or an address. The address of an ended block is one.
pub fn can_be_true(value: &Value) -> bool
    ensures { IsTrue result ↔ CanBe true value.now }
{
    if value.ended {
        return true;
    }
    if !no_targets(value.targets.list.as_slice()) {
        return true;
    }
    match value.num {
        None => false,
        Some(n) => has_other(&n),
    }
}

/// Whether some of what a value stands for is 0 or null.
pub fn can_be_false(value: &Value) -> bool
    ensures { IsTrue result ↔ CanBe false value.now }
{
    if value.null {
        return true;
    }
    match value.num {
        None => false,
        Some(n) => is_member(&n, 0),
    }
}

/// What a conversion to `_Bool` gives: 0, 1 or both, and none where nothing has a truth.
pub fn truths(value: &Value) -> Option<Num>
    ensures some { IfSome result (IsExactly (IsTruthIn value.now)) }
    ensures none { IfNone result (IsEmpty (IsTruthIn value.now)) }
{
    let is_true = can_be_true(value);
    let is_false = can_be_false(value);
    if !is_true {
        if is_false { Some(single(0)) } else { None }
    } else if is_false {
        Some(between(0, 1))
    } else {
        Some(single(1))
    }
}

/// Leaves what a pointer holds where it is true, or where it is false: null is taken out or kept alone. What was never set goes.
pub fn keep_pointer(value: &mut Value, truth: bool)
    ensures { IsPart (IsPointerWith truth) value.old value.new }
{
    value.unset = false;
    if truth {
        value.null = false;
    } else {
        value.num = None;
        value.targets.list.clear();
        value.ended = false;
    }
}
