//! The lines `block`.

ghost use Rattle.std.specs.Prelude.{◌≡◌, ◌<◌, ◌^◌, IfOk, nat_abs};
ghost use Rattle.lt_entry.specs.Written.{value_of};
ghost use Rattle.lt_entry.specs.Views.{numeral_view};
ghost use Rattle.lt_entry.specs.LineViews.{block_view};
ghost use Rattle.lt_input_names.specs.Views.{AreNames, scope_of};
ghost use Rattle.lt_input_blocks.specs.Elements.{AreBlockTypes};
ghost use Rattle.lt_spec_reader.specs.States.{is_taken, IsBlockOf, IsAdded};

use lt_entry::{BlockLine, Numeral};
use lt_input_blocks::BlockTypes;
use lt_input_names::{LineBlock, Names};
use lt_token::is_no_identifier;
use std::alloc::{AllocError, Global};

// Whether a block may not have this name.
fn is_taken(names: &Names<'_>, name: &[u8]) -> bool
    requires { AreNames names.now }
    ensures { result ≡ is_taken (scope_of names.now) name.now }
{
    is_no_identifier(name) | names.has(name)
}

// The number of elements.
fn count_of(count: Numeral) -> u32
    requires { count.size < 2 ^ 32 }
    ensures { result ≡ nat_abs (value_of (numeral_view count)) }
{
    count.size as u32
}

// The block of a line, if so many elements of its type may be one.
fn block_of<'p>(
    alloc: Global,
    types: &BlockTypes<'p>,
    line: &BlockLine<'p>,
) -> Result<Option<LineBlock<'p>>, AllocError>
    requires { AreBlockTypes types.now }
    ensures { IfOk result (IsBlockOf types.now.program.now line.now) }
{
    match types.element(alloc, line.ty.as_slice(), line.count)? {
        None => Ok(None),
        Some(element) => Ok(Some(LineBlock {
            name: line.name,
            element,
            count: count_of(line.count),
        })),
    }
}

/// Whether the line fits; if it does, its block is put behind those of lines before.
pub fn block<'p>(
    alloc: Global,
    names: &mut Names<'p>,
    blocks: &mut Vec<LineBlock<'p>>,
    types: &BlockTypes<'p>,
    line: &BlockLine<'p>,
) -> Result<bool, AllocError>
    requires names { AreNames names.old }
    requires types { AreBlockTypes types.now }
    requires program { types.now.program.now ≡ names.old.kinds.program.now }
    ensures { IfOk result (IsAdded (block_view line.now) names.old names.new blocks.old.items blocks.new.items) }
{
    if is_taken(names, line.name) {
        return Ok(false);
    }
    match block_of(alloc, types, line)? {
        None => Ok(false),
        Some(block) => {
            names.add(block)?;
            blocks.push(block)?;
            Ok(true)
        }
    }
}
