//! The free cells of parameters and of blocks.

ghost use Rattle.std.specs.Prelude.{◌≡◌, ◌++◌, IfOk, OnOk, List, map, flat_map, option_map};
ghost use Rattle.lt_tree.specs.Typing.ProgramView.{program_of};
ghost use Rattle.lt_entry.specs.Naming.{Root, Block, Scope, block_root};
ghost use Rattle.lt_entry.specs.SpecificationLines.{Line};
ghost use Rattle.lt_entry.specs.Meaning.{free_cell, free_cells, null_or_default, only_null, block_in};
ghost use Rattle.lt_input_names.specs.Kinds.{AreKinds};
ghost use Rattle.lt_input_specs.specs.Defaults.{root_of, want_to};
ghost use Rattle.lt_spec_reader.specs.Said.{HasSaid, found_at};
ghost use Rattle.lt_spec_reader.specs.Cells.{place_at, want_in};

use lt_input_names::Kinds;
use lt_input_specs::{any_value, default_name, target_of, zero_start};
use lt_input_wants::Wants;
use lt_model::{BlockIn, DataModel, FreeCell, Name, Place, Sequence, ShapeCell, Want};
use lt_tables::Tables;
use lt_tree::typed::Object;
use std::alloc::{AllocError, Global};

// The same target.
fn copied_target(alloc: Global, target: &Option<Place>) -> Result<Option<Place>, AllocError>
    ensures { IfOk result (λ copy. copy ≡ target.now) }
{
    match target {
        None => Ok(None),
        Some(place) => {
            let root = Name::new(alloc, place.root.as_slice())?;
            let offset = place.offset;
            Ok(Some(Place { root, offset }))
        }
    }
}

// The same targets.
fn copied_targets(
    alloc: Global,
    targets: &[Option<Place>],
) -> Result<Vec<Option<Place>>, AllocError>
    ensures { IfOk result (λ copy. copy.items ≡ targets.now) }
{
    let mut copy = Vec::new(alloc);
    for target in targets {
        copy.push(copied_target(alloc, target)?)?;
    }
    Ok(copy)
}

/// The same values.
pub fn copied(alloc: Global, want: &Want) -> Result<Want, AllocError>
    ensures { IfOk result (λ copy. copy ≡ want.now) }
{
    match want {
        Want::Between(low, high) => Ok(Want::Between(*low, *high)),
        Want::OneOf(targets) => {
            let copy = copied_targets(alloc, targets.as_slice())?;
            Ok(Want::OneOf(Sequence::new(copy)))
        }
    }
}

// What is said of the cell at this offset in the object of this name.
fn found<'w>(wants: &'w Wants<'_>, name: &'w [u8], offset: u64) -> Option<&'w Want>
    ensures { option_map (λ want. want.now) result ≡ found_at wants.now (place_at name.now offset) }
{
    wants.get(&(name, offset))
}

// What a cell of an object of this name may hold, where a pointer of which nothing is said may point to this block.
fn want_of(
    alloc: Global,
    wants: &Wants<'_>,
    model: DataModel,
    name: &[u8],
    it: ShapeCell,
    block: Option<&[u8]>,
) -> Result<Want, AllocError>
    ensures { IfOk result (λ want. want ≡ want_in wants.now model name.now (want_to (option_map (λ b. b.now) block.entry)) it) }
{
    match found(wants, name, it.offset) {
        None => any_value(alloc, model, it.ty, block),
        Some(want) => copied(alloc, want),
    }
}

// Behind these, the free cells of an object of this name and shape; a pointer of which nothing is said may point to this block.
fn put_cells(
    alloc: Global,
    cells: &mut Vec<FreeCell>,
    model: DataModel,
    name: &[u8],
    shape: &[ShapeCell],
    block: Option<&[u8]>,
    wants: &Wants<'_>,
) -> Result<(), AllocError>
    ensures { (scope : Scope) (lines : List Line) (root : Root) → scope.program.model ≡ model → root.name ≡ name.now → HasSaid scope lines wants.now → OnOk result (cells.new.items ≡ cells.old.items ++ map (free_cell scope lines (want_to (option_map (λ b. b.now) block.entry)) root) shape.now) }
{
    for it in shape {
        cells.push(FreeCell {
            at: Place {
                root: Name::new(alloc, name)?,
                offset: it.offset,
            },
            ty: it.ty,
            want: want_of(alloc, wants, model, name, *it, block)?,
            start: zero_start(it.ty),
        })?;
    }
    Ok(())
}

// Behind these, the free cells of a parameter.
fn put_parameter(
    alloc: Global,
    cells: &mut Vec<FreeCell>,
    kinds: &Kinds<'_>,
    tables: &Tables<'_>,
    object: &Object,
    wants: &Wants<'_>,
) -> Result<(), AllocError>
    requires kinds { AreKinds kinds.now }
    requires tables { tables.now.program.now ≡ kinds.now.program.now }
    ensures { (scope : Scope) (lines : List Line) → scope.program ≡ program_of kinds.now.program.now → HasSaid scope lines wants.now → OnOk result (cells.new.items ≡ cells.old.items ++ free_cells scope lines (null_or_default scope.program (root_of kinds.now.program.now object.now)) (root_of kinds.now.program.now object.now)) }
{
    let model = kinds.program.model;
    let shape = tables.shape(alloc, object.ty)?;
    let name = object.name.as_slice();
    let own = shape.cells.as_slice();
    match target_of(kinds, object) {
        None => put_cells(alloc, cells, model, name, own, None, wants),
        Some(_) => {
            let block = default_name(alloc, name)?;
            let target = Some(block.as_slice());
            put_cells(alloc, cells, model, name, own, target, wants)
        }
    }
}

/// The free cells of parameters.
pub fn parameter_cells(
    alloc: Global,
    kinds: &Kinds<'_>,
    tables: &Tables<'_>,
    parameters: &[&Object],
    wants: &Wants<'_>,
) -> Result<Vec<FreeCell>, AllocError>
    requires kinds { AreKinds kinds.now }
    requires tables { tables.now.program.now ≡ kinds.now.program.now }
    ensures { (scope : Scope) (lines : List Line) → scope.program ≡ program_of kinds.now.program.now → HasSaid scope lines wants.now → IfOk result (λ cells. cells.items ≡ flat_map (λ object. free_cells scope lines (null_or_default scope.program (root_of kinds.now.program.now object.now)) (root_of kinds.now.program.now object.now)) parameters.now) }
{
    let mut cells = Vec::new(alloc);
    for object in parameters {
        put_parameter(alloc, &mut cells, kinds, tables, object, wants)?;
    }
    Ok(cells)
}

/// Behind these, the free cells of blocks.
pub fn put_block_cells(
    alloc: Global,
    cells: &mut Vec<FreeCell>,
    model: DataModel,
    blocks: &[BlockIn],
    wants: &Wants<'_>,
) -> Result<(), AllocError>
    ensures { (scope : Scope) (lines : List Line) (all : List Block) → scope.program.model ≡ model → blocks.now ≡ map (block_in scope.program) all → HasSaid scope lines wants.now → OnOk result (cells.new.items ≡ cells.old.items ++ flat_map (λ block. free_cells scope lines only_null (block_root block)) all) }
{
    for block in blocks {
        let name = block.name.as_slice();
        let shape = block.shape.cells.as_slice();
        put_cells(alloc, cells, model, name, shape, None, wants)?;
    }
    Ok(())
}
