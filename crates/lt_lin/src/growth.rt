// Room in lists.
ghost use Rattle.std.specs.Prelude.{◌≡◌, ◌+◌, ◌≤◌, ◌++◌, length, vec_len, OnOk};
ghost use Rattle.std.specs.Vec.{vec_capacity};

use std::alloc::AllocError;
use std::vec::Vec;

/// Gives the list room for n items in all.
pub(crate) fn reserve_up_to<T>(items: &mut Vec<T>, n: usize) -> Result<(), AllocError>
    ensures items { items.new.items ≡ items.old.items }
    ensures len { vec_len items.new ≡ vec_len items.old }
    ensures ok { OnOk result (n ≤ vec_capacity items.new) }
    ensures grows { vec_capacity items.old ≤ vec_capacity items.new }
{
    items.reserve(n.saturating_sub(items.len()))
}

/// Appends items for which there is room.
pub(crate) fn push_all(items: &mut Vec<(u32, i128)>, more: &[(u32, i128)])
    requires { vec_len items.old + length more.now ≤ vec_capacity items.old }
    ensures items { items.new.items ≡ items.old.items ++ more.now }
    ensures len { vec_len items.new ≡ vec_len items.old + length more.now }
    ensures capacity { vec_capacity items.new ≡ vec_capacity items.old }
{
    'items: for item in more {
        items.push_reserved(*item);
    }
}
