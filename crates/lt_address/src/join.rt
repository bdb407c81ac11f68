ghost use Rattle.std.specs.Prelude.{◌≡◌, ◌++◌, ◌↔◌, ◌⊎◌, IsTrue, IfOk, OnOk};
ghost use Rattle.lt_address.specs.Targets.{IsAscending};
ghost use Rattle.lt_address.specs.Seeking.{IsJoinTargets, target_at};
ghost use Rattle.lt_address.specs.Value.{IsJoinValue};

use crate::numbers::join_numbers;
use crate::seek::{first_block, seek};
use crate::target::Target;
use crate::targets::Targets;
use crate::value::Value;
use lt_value::Num;
use std::alloc::{AllocError, Global};
use std::vec::Vec;

/// Adds a target with these offsets, where there are some.
fn push_offsets(out: &mut Vec<Target>, block: u32, at: Option<Num>) -> Result<(), AllocError>
    ensures { OnOk result (out.new.items ≡ out.old.items ++ target_at block at) }
{
    match at {
        Some(at) => {
            out.push(Target { block, at })?;
        }
        None => {}
    }
    Ok(())
}

/// The least targets that point to all that either list points to.
fn join_targets(alloc: Global, a: &[Target], b: &[Target]) -> Result<Vec<Target>, AllocError>
    requires left { IsAscending a.now }
    requires right { IsAscending b.now }
    ensures ascending { IfOk result (λ c. IsAscending c.items) }
    ensures joined { IfOk result (λ c. IsJoinTargets a.now b.now c.items) }
{
    let mut out = Vec::new(alloc);
    let mut left = a;
    let mut right = b;
    'merge: while let Some(block) = first_block(left, right) {
        let (m, more_left) = seek(left, block);
        let (n, more_right) = seek(right, block);
        push_offsets(&mut out, block, join_numbers(m, n))?;
        left = more_left;
        right = more_right;
    }
    Ok(out)
}

fn either(left: bool, right: bool) -> bool
    ensures { IsTrue result ↔ (IsTrue left ⊎ IsTrue right) }
{
    left || right
}

/// The least value that stands for all that either does; an error only for want of memory.
pub fn join_value(alloc: Global, a: &Value, b: &Value) -> Result<Value, AllocError>
    ensures { IfOk result (IsJoinValue a.now b.now) }
{
    let list = join_targets(alloc, a.targets.list.as_slice(), b.targets.list.as_slice())?;
    Ok(Value {
        num: join_numbers(a.num, b.num),
        null: either(a.null, b.null),
        targets: Targets { list },
        ended: either(a.ended, b.ended),
        unset: either(a.unset, b.unset),
    })
}
