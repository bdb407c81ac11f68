//! The named objects of an input.

ghost use Rattle.std.specs.Prelude.{◌≡◌, length, IfOk};
ghost use Rattle.lt_mach.specs.Blocks.{StartsBlocks, roots_from};

use lt_acts::Stop;
use lt_mem::Memory;
use lt_model::BlockIn;

/// The named objects of an input, in order; their numbers follow one another. It gives the first number.
pub fn start_blocks(memory: &mut Memory, blocks: &[BlockIn]) -> Result<u32, Stop>
    ensures starts { StartsBlocks blocks.now result memory.old.blocks memory.new.blocks }
    ensures first { IfOk result (λ first. roots_from first blocks.now ≡ roots_from (length memory.old.blocks) blocks.now) }
    ensures model { memory.new.model ≡ memory.old.model }
{
    let mut first = 0;
    for (k, it) in blocks.iter().enumerate() {
        let block = memory.create(&it.shape, true, true)?;
        if k == 0 {
            first = block;
        }
    }
    Ok(first)
}
