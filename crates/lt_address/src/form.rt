ghost use Rattle.std.specs.Prelude.{◌≡◌, ◌↔◌, ℤ, IsTrue, IsSome, IfSome};
ghost use Rattle.lt_address.specs.Targets.{IsAscending, HasNumber};
ghost use Rattle.lt_address.specs.Value.{StandsFor, within};

use crate::seek::seek;
use crate::target::Target;
use crate::targets::Targets;
use crate::value::Value;
use lt_value::Num;
use std::vec::Vec;

fn is_ascending(list: &[Target]) -> bool
    ensures { IsTrue result ↔ IsAscending list.now }
{
    let mut least: u64 = 0;
    for target in list {
        if u64::from(target.block) < least {
            return false;
        }
        least = u64::from(target.block) + 1;
    }
    true
}

/// The targets of a list, or none exactly where their blocks don't ascend.
pub fn targets_from(list: Vec<Target>) -> Option<Targets>
    ensures ascending { IsSome result ↔ IsAscending list.items }
    ensures same { IfSome result (λ t. t.list.items ≡ list.items) }
{
    if is_ascending(list.as_slice()) {
        Some(Targets { list })
    } else {
        None
    }
}

/// The offsets of a value's addresses in a block, and none where it has no address there.
pub fn offsets_in(value: &Value, block: u32) -> Option<Num>
    ensures { (z : ℤ) → HasNumber result z ↔ StandsFor value.now (within block z) }
{
    seek(value.targets.list.as_slice(), block).0
}
