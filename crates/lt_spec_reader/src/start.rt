//! The state behind the line `entry`.

ghost use Rattle.std.specs.Prelude.{◌≡◌, IfOk, List, [], ◌∷◌, ℕ, Some, map};
ghost use Rattle.lt_tree.specs.Typing.ProgramView.{program_of};
ghost use Rattle.lt_entry.specs.Lines.{Row};
ghost use Rattle.lt_entry.specs.SpecificationLines.{entry_line};
ghost use Rattle.lt_entry.specs.Conditions.{default_blocks, entry_named};
ghost use Rattle.lt_input_names.specs.Blocks.{program_types, block_of};
ghost use Rattle.lt_spec_reader.specs.States.{IsReady, IsBehind};

use crate::state::State;
use lt_input_blocks::BlockTypes;
use lt_input_names::{Block, Names};
use lt_input_specs::place_of;
use lt_tree::typed::Program;
use std::alloc::{AllocError, Global};
use std::collections::HashMap;

/// The state behind the line that names the function of this number, where these are the default blocks.
pub fn start<'p>(
    alloc: Global,
    program: &'p Program<'p>,
    number: usize,
    blocks: &'p [Block],
) -> Result<State<'p>, AllocError>
    ensures ready { IfOk result IsReady }
    ensures behind { (rows : List Row) (name : List ℕ) → map (block_of (program_types program.now)) blocks.now ≡ default_blocks (program_of program.now) rows number → entry_named (program_of program.now) name ≡ Some number → IfOk result (IsBehind program.now rows number (entry_line name ∷ [])) }
{
    let names = Names::new(alloc, program, place_of(number)?, blocks)?;
    let types = BlockTypes::new(alloc, program)?;
    Ok(State {
        names,
        types,
        blocks: Vec::new(alloc),
        wants: HashMap::new(alloc),
        ranges: HashMap::new(alloc),
    })
}
