//! The first bad line behind those that fit.

ghost use Rattle.std.specs.Prelude.{◌≡◌, IfOk, ℕ, List, map};
ghost use Rattle.lt_tree.specs.declared.typed.program.Program as typed;
ghost use Rattle.lt_tree.specs.Typing.ProgramView.{program_of};
ghost use Rattle.lt_entry.specs.SpecificationLines as specification;
ghost use Rattle.lt_entry.specs.Naming.{parameters_of};
ghost use Rattle.lt_entry.specs.Conditions.{default_blocks};
ghost use Rattle.lt_entry.specs.LineViews.{row_view, line_view};
ghost use Rattle.lt_input_names.specs.Blocks.{program_types, block_of};
ghost use Rattle.lt_input_specs.specs.Defaults.{root_of};
ghost use Rattle.lt_spec_reader.specs.Answers.{IsFault};
ghost use Rattle.lt_spec_reader.specs.Frees.{AreFree};
ghost use Rattle.lt_spec_reader.specs.States.{IsReady, IsBehind, AreRead};
ghost use Rattle.lt_input_names.specs.Views.{AreNames, scope_of};

use crate::free::Free;
use crate::own::own_names;
use crate::ranged::ranged_places;
use crate::state::State;
use crate::unfree::{first_unfree, number_at};
use lt_entry::{Line, Row};
use lt_input_names::Block;
use lt_tree::typed::Object;
use std::alloc::{AllocError, Global};

/// The cells that requirements may name, where these are the parameters and the default blocks.
pub fn free_cells<'p>(
    alloc: Global,
    state: &State<'p>,
    objects: &[&'p Object],
    blocks: &'p [Block],
    rows: &[Row<'p>],
) -> Result<Free<'p>, AllocError>
    requires { IsReady state.now }
    ensures { (program : typed.Program) (entry : ℕ) (lines : List specification.Line) → IsBehind program (map row_view rows.now) entry lines state.now → map (λ object. root_of program object.now) objects.now ≡ parameters_of (program_of program) entry → map (block_of (program_types program)) blocks.now ≡ default_blocks (program_of program) (map row_view rows.now) entry → IfOk result (AreFree (scope_of state.now.names) (map row_view rows.now)) }
{
    Ok(Free {
        own: own_names(alloc, objects, state.blocks.as_slice(), blocks)?,
        ranged: ranged_places(alloc, &state.names, rows)?,
    })
}

/// The number of the first bad line behind lines that fit, if one is bad.
pub fn first_bad<'p>(
    alloc: Global,
    state: &State<'p>,
    free: &Free<'p>,
    rows: &[Row<'p>],
    lines: &[Line<'p>],
) -> Result<Option<u64>, AllocError>
    requires { IsReady state.now }
    ensures { (program : typed.Program) (entry : ℕ) → AreRead program (map row_view rows.now) entry (map line_view lines.now) state.now → AreFree (scope_of state.now.names) (map row_view rows.now) free.now → IfOk result (IsFault program (map row_view rows.now) entry (map line_view lines.now)) }
{
    match first_unfree(alloc, &state.names, free, rows, lines)? {
        Some(number) => Ok(Some(number)),
        None => Ok(number_at(rows, lines.len())),
    }
}
