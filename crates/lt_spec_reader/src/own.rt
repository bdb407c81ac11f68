//! The names of parameters and blocks.

ghost use Rattle.std.specs.Prelude.{◌≡◌, ◌||◌, ℕ, List, IfOk, OnOk};
ghost use Rattle.std.specs.List.{list_any};
ghost use Rattle.std.specs.Str.{bytes_eq};
ghost use Rattle.lt_input_names.specs.Stubs.{has_name};

use lt_input_names::{Block, LineBlock};
use lt_tree::typed::Object;
use std::alloc::{AllocError, Global};
use std::collections::HashSet;

fn put_objects<'p>(own: &mut HashSet<&'p [u8]>, objects: &[&'p Object]) -> Result<(), AllocError>
    ensures { OnOk result ((name : List ℕ) → has_name own.new name ≡ (has_name own.old name || list_any (λ it. bytes_eq it.now.name name) objects.now)) }
{
    for it in objects {
        own.insert(it.name.as_slice())?;
    }
    Ok(())
}

fn put_line_blocks<'p>(
    own: &mut HashSet<&'p [u8]>,
    blocks: &[LineBlock<'p>],
) -> Result<(), AllocError>
    ensures { OnOk result ((name : List ℕ) → has_name own.new name ≡ (has_name own.old name || list_any (λ it. bytes_eq it.name.now name) blocks.now)) }
{
    for it in blocks {
        own.insert(it.name)?;
    }
    Ok(())
}

fn put_blocks<'p>(own: &mut HashSet<&'p [u8]>, blocks: &'p [Block]) -> Result<(), AllocError>
    ensures { OnOk result ((name : List ℕ) → has_name own.new name ≡ (has_name own.old name || list_any (λ it. bytes_eq it.name name) blocks.now)) }
{
    for it in blocks {
        own.insert(it.name.as_slice())?;
    }
    Ok(())
}

/// The names of these parameters and blocks.
pub fn own_names<'p>(
    alloc: Global,
    objects: &[&'p Object],
    made: &[LineBlock<'p>],
    blocks: &'p [Block],
) -> Result<HashSet<&'p [u8]>, AllocError>
    ensures { IfOk result (λ own. (name : List ℕ) → has_name own name ≡ (list_any (λ it. bytes_eq it.now.name name) objects.now || list_any (λ it. bytes_eq it.name.now name) made.now || list_any (λ it. bytes_eq it.name name) blocks.now)) }
{
    let mut own = HashSet::new(alloc);
    put_objects(&mut own, objects)?;
    put_line_blocks(&mut own, made)?;
    put_blocks(&mut own, blocks)?;
    Ok(own)
}
