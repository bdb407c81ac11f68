//! The specification of a program without a file.

ghost use Rattle.std.specs.Prelude.{◌≡◌, ◌++◌, [], IfOk, OnOk, map, flat_map, filter_map, option_map, option_to_list};
ghost use Rattle.lt_tree.specs.Typing.ProgramView.{program_of};
ghost use Rattle.lt_entry.specs.Conditions.{scope_behind, stubs_of};
ghost use Rattle.lt_entry.specs.Naming.{default_block};
ghost use Rattle.lt_entry.specs.Meaning.{block_in, only_null, stub_range};
ghost use Rattle.lt_entry.specs.Specifications.{specification_in};
ghost use Rattle.lt_input_names.specs.Blocks.{specification_of};
ghost use Rattle.lt_input_names.specs.Kinds.{AreKinds};
ghost use Rattle.lt_input_specs.specs.Reading.{IsDefaultAnswer};
ghost use Rattle.lt_input_specs.specs.Defaults.{root_of, parameter_cells, plain_cell};
ghost use Rattle.lt_input_wants.specs.Stubs.{whole_range};
ghost use Rattle.lt_input_names.specs.Stubs.{stub_view};

use crate::cells::put_cells;
use crate::entry::last_entry;
use crate::parameters::{default_blocks, default_name, parameters_of, target_of};
use crate::stops::NoSpec;
use lt_input_names::{Kinds, Specification, Stub, stubs_of};
use lt_input_wants::whole_range;
use lt_model::{BlockIn, DataModel, FreeCell, Sequence, Spec, StubRange};
use lt_tables::Tables;
use lt_tree::typed::{Object, Program};
use std::alloc::{AllocError, Global};

/// What the line `entry` alone says of the last function of a program that may be an entry.
pub fn default_spec(alloc: Global, program: &Program<'_>) -> Result<Specification, NoSpec>
    ensures { IsDefaultAnswer program.now result }
{
    let kinds = Kinds::new(alloc, program)?;
    match last_entry(&kinds) {
        None => Err(NoSpec::NoEntry),
        Some(entry) => Ok(spec_of(alloc, &kinds, entry)?),
    }
}

// What the line `entry` alone says of the function of this number.
fn spec_of(alloc: Global, kinds: &Kinds<'_>, number: usize) -> Result<Specification, AllocError>
    requires { AreKinds kinds.now }
    ensures { IfOk result (λ it. specification_of kinds.now.program.now it ≡ specification_in (scope_behind (program_of kinds.now.program.now) [] number []) number []) }
{
    let entry = place_of(number)?;
    let tables = Tables::new(alloc, kinds.program)?;
    let parameters = parameters_of(alloc, kinds, number)?;
    let blocks = default_blocks(alloc, kinds, &parameters)?;
    let shapes = blocks_in(alloc, kinds, &tables, &parameters)?;
    let mut cells = parameter_cells(alloc, kinds, &tables, &parameters)?;
    put_block_cells(alloc, &mut cells, kinds, &shapes)?;
    Ok(Specification {
        spec: Spec {
            entry,
            blocks: Sequence::new(shapes),
            cells: Sequence::new(cells),
            stubs: Sequence::new(ranges_of(alloc, kinds)?),
            needs: Sequence::new(Vec::new(alloc)),
        },
        blocks,
    })
}

/// The number as specifications have it; more than 2^32 functions have no memory.
pub fn place_of(number: usize) -> Result<u32, AllocError>
    ensures { IfOk result (λ it. it ≡ number) }
{
    u32::try_from(number).map_err(|_| AllocError)
}

/// The default blocks, as an input has them.
pub fn blocks_in(
    alloc: Global,
    kinds: &Kinds<'_>,
    tables: &Tables<'_>,
    parameters: &[&Object],
) -> Result<Vec<BlockIn>, AllocError>
    requires kinds { AreKinds kinds.now }
    requires tables { tables.now.program.now ≡ kinds.now.program.now }
    ensures { IfOk result (λ blocks. blocks.items ≡ filter_map (λ object. option_map (block_in (program_of kinds.now.program.now)) (default_block (program_of kinds.now.program.now) (root_of kinds.now.program.now object.now))) parameters.now) }
{
    let mut blocks = Vec::new(alloc);
    for object in parameters {
        put_block(alloc, &mut blocks, kinds, tables, object)?;
    }
    Ok(blocks)
}

// Behind these, the default block of a parameter, if it has one.
fn put_block(
    alloc: Global,
    blocks: &mut Vec<BlockIn>,
    kinds: &Kinds<'_>,
    tables: &Tables<'_>,
    object: &Object,
) -> Result<(), AllocError>
    requires kinds { AreKinds kinds.now }
    requires tables { tables.now.program.now ≡ kinds.now.program.now }
    ensures { OnOk result (blocks.new.items ≡ blocks.old.items ++ option_to_list (option_map (block_in (program_of kinds.now.program.now)) (default_block (program_of kinds.now.program.now) (root_of kinds.now.program.now object.now)))) }
{
    match target_of(kinds, object) {
        None => Ok(()),
        Some(target) => Ok(blocks.push(BlockIn {
            name: default_name(alloc, object.name.as_slice())?,
            shape: tables.shape(alloc, target)?,
        })?),
    }
}

// The cells of parameters.
fn parameter_cells(
    alloc: Global,
    kinds: &Kinds<'_>,
    tables: &Tables<'_>,
    parameters: &[&Object],
) -> Result<Vec<FreeCell>, AllocError>
    requires kinds { AreKinds kinds.now }
    requires tables { tables.now.program.now ≡ kinds.now.program.now }
    ensures { IfOk result (λ cells. cells.items ≡ flat_map (λ object. parameter_cells (program_of kinds.now.program.now) (root_of kinds.now.program.now object.now)) parameters.now) }
{
    let mut cells = Vec::new(alloc);
    for object in parameters {
        put_parameter(alloc, &mut cells, kinds, tables, object)?;
    }
    Ok(cells)
}

// Behind these, the cells of a parameter.
fn put_parameter(
    alloc: Global,
    cells: &mut Vec<FreeCell>,
    kinds: &Kinds<'_>,
    tables: &Tables<'_>,
    object: &Object,
) -> Result<(), AllocError>
    requires kinds { AreKinds kinds.now }
    requires tables { tables.now.program.now ≡ kinds.now.program.now }
    ensures { OnOk result (cells.new.items ≡ cells.old.items ++ parameter_cells (program_of kinds.now.program.now) (root_of kinds.now.program.now object.now)) }
{
    let model = kinds.program.model;
    let shape = tables.shape(alloc, object.ty)?;
    let name = object.name.as_slice();
    match target_of(kinds, object) {
        None => put_cells(alloc, cells, model, name, shape.cells.as_slice(), None),
        Some(_) => {
            let block = default_name(alloc, name)?;
            put_cells(
                alloc,
                cells,
                model,
                name,
                shape.cells.as_slice(),
                Some(block.as_slice()),
            )
        }
    }
}

// Behind these, the cells of blocks.
fn put_block_cells(
    alloc: Global,
    cells: &mut Vec<FreeCell>,
    kinds: &Kinds<'_>,
    blocks: &[BlockIn],
) -> Result<(), AllocError>
    ensures { OnOk result (cells.new.items ≡ cells.old.items ++ flat_map (λ block. map (plain_cell kinds.now.program.now.model block.name only_null) block.shape.cells) blocks.now) }
{
    for block in blocks {
        let shape = block.shape.cells.as_slice();
        put_cells(
            alloc,
            cells,
            kinds.program.model,
            block.name.as_slice(),
            shape,
            None,
        )?;
    }
    Ok(())
}

// The ranges of functions without a body: all values.
fn ranges_of(alloc: Global, kinds: &Kinds<'_>) -> Result<Vec<StubRange>, AllocError>
    requires { AreKinds kinds.now }
    ensures { IfOk result (λ ranges. ranges.items ≡ map (stub_range (program_of kinds.now.program.now) []) (stubs_of (program_of kinds.now.program.now))) }
{
    let stubs = stubs_of(alloc, kinds)?;
    ranges_among(alloc, kinds.program.model, &stubs)
}

// The ranges of these: all values.
fn ranges_among(
    alloc: Global,
    model: DataModel,
    stubs: &[Stub<'_>],
) -> Result<Vec<StubRange>, AllocError>
    ensures { IfOk result (λ ranges. ranges.items ≡ map (λ stub. whole_range model (stub_view stub)) stubs.now) }
{
    let mut ranges = Vec::new(alloc);
    for stub in stubs {
        ranges.push(whole_range(alloc, model, stub.name, stub.ty)?)?;
    }
    Ok(ranges)
}
