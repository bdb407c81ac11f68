//! The blocks of lines, in what is answered.

ghost use Rattle.std.specs.Prelude.{◌≡◌, ◌++◌, IfOk, OnOk, List, map};
ghost use Rattle.lt_tree.specs.Typing.Types.{CType};
ghost use Rattle.lt_input_names.specs.Blocks.{block_of, line_block_of};

use lt_input_names::{Block, LineBlock};
use lt_model::Name;
use std::alloc::{AllocError, Global};

// The blocks of lines, with names of their own.
fn line_blocks_of(alloc: Global, added: &[LineBlock<'_>]) -> Result<Vec<Block>, AllocError>
    ensures { IfOk result (λ all. (types : List CType) → map (block_of types) all.items ≡ map (line_block_of types) added.now) }
{
    let mut blocks = Vec::new(alloc);
    for block in added {
        blocks.push(Block {
            name: Name::new(alloc, block.name)?,
            element: block.element,
            count: block.count,
        })?;
    }
    Ok(blocks)
}

// Behind these, others.
fn put_blocks(alloc: Global, blocks: &mut Vec<Block>, others: &[Block]) -> Result<(), AllocError>
    ensures { OnOk result (blocks.new.items ≡ blocks.old.items ++ others.now) }
{
    for block in others {
        blocks.push(Block {
            name: Name::new(alloc, block.name.as_slice())?,
            element: block.element,
            count: block.count,
        })?;
    }
    Ok(())
}

/// The blocks of lines, and then the others, with names of their own.
pub fn blocks_of(
    alloc: Global,
    added: &[LineBlock<'_>],
    others: &[Block],
) -> Result<Vec<Block>, AllocError>
    ensures { IfOk result (λ all. (types : List CType) → map (block_of types) all.items ≡ map (line_block_of types) added.now ++ map (block_of types) others.now) }
{
    let mut blocks = line_blocks_of(alloc, added)?;
    put_blocks(alloc, &mut blocks, others)?;
    Ok(blocks)
}
