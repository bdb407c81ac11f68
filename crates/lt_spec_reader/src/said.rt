//! The specification that lines say.

ghost use Rattle.std.specs.Prelude.{◌≡◌, ◌++◌, IfOk, List, map, flat_map};
ghost use Rattle.lt_tree.specs.Typing.ProgramView.{program_of};
ghost use Rattle.lt_entry.specs.Lines.{Row};
ghost use Rattle.lt_entry.specs.Naming as naming;
ghost use Rattle.lt_entry.specs.Naming.{Scope, block_root, parameters_of};
ghost use Rattle.lt_entry.specs.SpecificationLines as specification;
ghost use Rattle.lt_entry.specs.Conditions.{default_blocks, scope_behind};
ghost use Rattle.lt_entry.specs.Meaning.{block_in, free_cells, freed_unless_hidden, null_or_default, only_null};
ghost use Rattle.lt_entry.specs.Specifications.{specification_in};
ghost use Rattle.lt_entry.specs.LineViews.{line_view};
ghost use Rattle.lt_input_names.specs.Blocks.{program_types, block_of, specification_of};
ghost use Rattle.lt_input_names.specs.Kinds.{AreKinds};
ghost use Rattle.lt_input_blocks.specs.Elements.{AreBlockTypes};
ghost use Rattle.lt_input_specs.specs.Defaults.{root_of};
ghost use Rattle.lt_spec_reader.specs.Said.{HasSaid};
ghost use Rattle.lt_spec_reader.specs.States.{IsReady, IsBehind};

use crate::blocks::blocks_of;
use crate::cells::{parameter_cells, put_block_cells};
use crate::needs::{needs_of, ranges_of};
use crate::objects::put_freed_cells;
use crate::state::State;
use lt_entry::Line;
use lt_input_blocks::BlockTypes;
use lt_input_names::{Block, Kinds, Specification};
use lt_input_specs::place_of;
use lt_input_wants::Wants;
use lt_model::{BlockIn, FreeCell, Name, Sequence, Spec};
use lt_tables::Tables;
use lt_tree::typed::{Object, Program};
use std::alloc::{AllocError, Global};

// Blocks, as an input has them.
fn blocks_in(
    alloc: Global,
    types: &mut BlockTypes<'_>,
    blocks: &[Block],
) -> Result<Vec<BlockIn>, AllocError>
    requires { AreBlockTypes types.old }
    ensures { IfOk result (λ all. all.items ≡ map (λ block. block_in (program_of types.old.program.now) (block_of (program_types types.old.program.now) block)) blocks.now) }
{
    let mut all = Vec::new(alloc);
    for block in blocks {
        all.push(BlockIn {
            name: Name::new(alloc, block.name.as_slice())?,
            shape: types.shape(alloc, block.element, block.count)?,
        })?;
    }
    Ok(all)
}

// The shapes of blocks of a program, as an input has them.
fn shapes_of(
    alloc: Global,
    program: &Program<'_>,
    blocks: &[Block],
) -> Result<Vec<BlockIn>, AllocError>
    ensures { IfOk result (λ all. all.items ≡ map (λ block. block_in (program_of program.now) (block_of (program_types program.now) block)) blocks.now) }
{
    let mut types = BlockTypes::new(alloc, program)?;
    blocks_in(alloc, &mut types, blocks)
}

// The free cells of parameters, of blocks of these shapes, and of the program's objects, where these are the program's tables.
fn cells_by(
    alloc: Global,
    kinds: &Kinds<'_>,
    tables: &Tables<'_>,
    objects: &[&Object],
    shapes: &[BlockIn],
    wants: &Wants<'_>,
) -> Result<Vec<FreeCell>, AllocError>
    requires kinds { AreKinds kinds.now }
    requires tables { tables.now.program.now ≡ kinds.now.program.now }
    ensures { (scope : Scope) (lines : List specification.Line) (all : List naming.Block) → scope.program ≡ program_of kinds.now.program.now → scope.parameters ≡ map (λ object. root_of kinds.now.program.now object.now) objects.now → shapes.now ≡ map (block_in scope.program) all → HasSaid scope lines wants.now → IfOk result (λ cells. cells.items ≡ (flat_map (λ object. free_cells scope lines (null_or_default scope.program (root_of kinds.now.program.now object.now)) (root_of kinds.now.program.now object.now)) objects.now ++ flat_map (λ block. free_cells scope lines only_null (block_root block)) all) ++ flat_map (freed_unless_hidden scope lines) scope.program.objects) }
{
    let mut cells = parameter_cells(alloc, kinds, tables, objects, wants)?;
    put_block_cells(alloc, &mut cells, kinds.program.model, shapes, wants)?;
    put_freed_cells(alloc, &mut cells, tables, objects, wants)?;
    Ok(cells)
}

// The free cells of parameters, of blocks of these shapes, and of the program's objects.
fn cells_of(
    alloc: Global,
    kinds: &Kinds<'_>,
    objects: &[&Object],
    shapes: &[BlockIn],
    wants: &Wants<'_>,
) -> Result<Vec<FreeCell>, AllocError>
    requires { AreKinds kinds.now }
    ensures { (scope : Scope) (lines : List specification.Line) (all : List naming.Block) → scope.program ≡ program_of kinds.now.program.now → scope.parameters ≡ map (λ object. root_of kinds.now.program.now object.now) objects.now → shapes.now ≡ map (block_in scope.program) all → HasSaid scope lines wants.now → IfOk result (λ cells. cells.items ≡ (flat_map (λ object. free_cells scope lines (null_or_default scope.program (root_of kinds.now.program.now object.now)) (root_of kinds.now.program.now object.now)) objects.now ++ flat_map (λ block. free_cells scope lines only_null (block_root block)) all) ++ flat_map (freed_unless_hidden scope lines) scope.program.objects) }
{
    let tables = Tables::new(alloc, kinds.program)?;
    cells_by(alloc, kinds, &tables, objects, shapes, wants)
}

/// What lines say of the entry of this number, where this is the state behind them, and these are the parameters and the default blocks.
pub fn said<'p>(
    alloc: Global,
    kinds: &Kinds<'p>,
    number: usize,
    objects: &[&'p Object],
    blocks: &'p [Block],
    state: &State<'p>,
    lines: &[Line<'p>],
) -> Result<Specification, AllocError>
    requires kinds { AreKinds kinds.now }
    requires ready { IsReady state.now }
    ensures { (rows : List Row) → IsBehind kinds.now.program.now rows number (map line_view lines.now) state.now → map (λ object. root_of kinds.now.program.now object.now) objects.now ≡ parameters_of (program_of kinds.now.program.now) number → map (block_of (program_types kinds.now.program.now)) blocks.now ≡ default_blocks (program_of kinds.now.program.now) rows number → IfOk result (λ it. specification_of kinds.now.program.now it ≡ specification_in (scope_behind (program_of kinds.now.program.now) rows number (map line_view lines.now)) number (map line_view lines.now)) }
{
    let entry = place_of(number)?;
    let all = blocks_of(alloc, state.blocks.as_slice(), blocks)?;
    let shapes = shapes_of(alloc, kinds.program, all.as_slice())?;
    let cells = cells_of(alloc, kinds, objects, shapes.as_slice(), &state.wants)?;
    let stubs = ranges_of(alloc, kinds, &state.ranges)?;
    let needs = needs_of(alloc, &state.names, lines)?;
    Ok(Specification {
        spec: Spec {
            entry,
            blocks: Sequence::new(shapes),
            cells: Sequence::new(cells),
            stubs: Sequence::new(stubs),
            needs: Sequence::new(needs),
        },
        blocks: all,
    })
}
