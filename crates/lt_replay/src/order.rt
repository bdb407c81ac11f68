//! Tests in order.

ghost use Rattle.std.specs.Prelude.{◌≡◌, IfOk, map};
ghost use Rattle.lt_replayed.specs.Replayed.{NamesDiffer};
ghost use Rattle.lt_replay.specs.Order.{AreInOrder, AreNamed};

use lt_entry::Test;
use std::alloc::{AllocError, Global};
use std::collections::BTreeMap;

// The tests by their names.
fn by_name<'s>(alloc: Global, tests: &'s [Test]) -> Result<BTreeMap<&'s [u8], &'s Test>, AllocError>
    requires { NamesDiffer tests.now }
    ensures { IfOk result (AreNamed tests.now) }
{
    let mut named = BTreeMap::new(alloc);
    for test in tests {
        named.insert(test.name.as_slice(), test)?;
    }
    Ok(named)
}

/// The tests in byte order of their names.
pub fn in_order<'s>(alloc: Global, tests: &'s [Test]) -> Result<Vec<&'s Test>, AllocError>
    requires { NamesDiffer tests.now }
    ensures { IfOk result (λ order. AreInOrder (map (λ test. test.now) order.items) tests.now) }
{
    let named = by_name(alloc, tests)?;
    named.values().copied().collect(alloc)
}
