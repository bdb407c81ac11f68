ghost use Rattle.lt_address.specs.Value.{IsPart, IsUsable, IsAfterEnd};

use crate::seek::seek;
use crate::value::Value;

/// Leaves what a load may give: what was never set goes, and so do addresses in ended blocks.
pub fn keep_usable(value: &mut Value)
    ensures { IsPart IsUsable value.old value.new }
{
    value.unset = false;
    value.ended = false;
}

/// The block's living instance has ended: addresses in it are addresses in an ended block.
pub fn end_block(value: &mut Value, block: u32)
    ensures { IsAfterEnd block value.old value.new }
{
    let (offsets, _) = seek(value.targets.list.as_slice(), block);
    if offsets.is_some() {
        value.targets.list.retain(|target| target.block != block);
        value.ended = true;
    }
}
