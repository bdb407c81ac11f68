//! What the cells of an object hold first.

ghost use Rattle.std.specs.Prelude.{◌≡◌, ◌<◌, true, pos, List, IfOk, length, map, slice_set, slice_index_or};
ghost use Rattle.lt_model.specs.Memory.{as_type, new_cell};
ghost use Rattle.lt_meaning.specs.Runs.{fixed_in, letters_in, name_in_files};
ghost use Rattle.lt_tree.specs.Typing.Types.{CType};
ghost use Rattle.lt_tree.specs.Typing.EntityView.{object_of};
ghost use Rattle.lt_tables.specs.Filling.{AreOffsets, filled};

use lt_model::{CellType, Content, DataModel, Name, ShapeCell, StoredCell};
use lt_table::number_as;
use lt_tree::typed::{Life, Object};
use std::alloc::{AllocError, Global};
use std::collections::BTreeMap;

/// Cells of zeros and null pointers.
pub fn new_cells(alloc: Global, shape: &[ShapeCell]) -> Result<Vec<StoredCell>, AllocError>
    ensures { IfOk result (λ cells. cells.items ≡ map (new_cell true) shape.now) }
{
    let mut cells = Vec::new(alloc);
    for cell in shape {
        cells.push(new_cell(*cell))?;
    }
    Ok(cells)
}

// A cell of zero or null.
fn new_cell(cell: ShapeCell) -> StoredCell
    ensures { result ≡ new_cell true cell }
{
    StoredCell {
        offset: cell.offset,
        ty: cell.ty,
        holds: match cell.ty {
            CellType::Num(_) => Content::Number(0),
            CellType::Pointer(_) => Content::Address(None),
        },
    }
}

/// The offsets of cells.
pub fn offsets_of(alloc: Global, cells: &[StoredCell]) -> Result<Vec<u128>, AllocError>
    ensures { IfOk result (λ offsets. offsets.items ≡ map (λ cell. cell.offset) cells.now) }
{
    cells
        .iter()
        .map(|cell| u128::from(cell.offset))
        .collect(alloc)
}

/// What cells hold.
pub fn contents_of(alloc: Global, cells: &[StoredCell]) -> Result<Vec<Content>, AllocError>
    ensures { IfOk result (λ contents. contents.items ≡ map (λ cell. cell.holds) cells.now) }
{
    cells.iter().map(|cell| cell.holds).collect(alloc)
}

/// A content goes into the cell at an offset, as the cell's type has it. The offsets of the cells stand at these places.
pub fn put(
    model: DataModel,
    places: &BTreeMap<u128, usize>,
    cells: &mut [StoredCell],
    offset: u128,
    content: Content,
)
    requires { AreOffsets places.now cells.old }
    ensures { cells.new ≡ fixed_in model offset content cells.old }
{
    match places.get(&offset) {
        None => {}
        Some(place) => put_at(model, cells, *place, content),
    }
}

// A content goes into the cell at a place.
fn put_at(model: DataModel, cells: &mut [StoredCell], place: usize, content: Content)
    requires { place < length cells.old }
    ensures { (d : StoredCell) → cells.new ≡ slice_set cells.old place (filled model content (slice_index_or cells.old place d)) }
{
    let cell = cells[place];
    let holds = as_type(model, cell.ty, content);
    cells[place] = StoredCell { holds, ..cell };
}

/// Bytes go into the cells from an offset on.
pub fn put_letters(
    model: DataModel,
    places: &BTreeMap<u128, usize>,
    cells: &mut [StoredCell],
    offset: u64,
    bytes: &[u8],
)
    requires { AreOffsets places.now cells.old }
    ensures { cells.new ≡ letters_in model offset bytes.now cells.old }
{
    for (place, byte) in bytes.iter().enumerate() {
        let at = u128::from(offset) + place as u128;
        put(model, places, cells, at, letter(*byte));
    }
}

// A byte as a content.
fn letter(byte: u8) -> Content
    ensures { result ≡ Content.Number (pos byte) }
{
    Content::Number(i128::from(byte))
}

// A content as a cell of this type has it: a number is converted.
fn as_type(model: DataModel, ty: CellType, content: Content) -> Content
    ensures { result ≡ as_type model ty content }
{
    match (ty, content) {
        (CellType::Num(scalar), Content::Number(z)) => {
            Content::Number(number_as(model, scalar, z))
        }
        _ => content,
    }
}

/// The name of an object in files.
pub fn name_in_files(alloc: Global, object: &Object) -> Result<Name, AllocError>
    ensures { IfOk result (λ it. (types : List CType) → it ≡ name_in_files (object_of types object.now)) }
{
    let name = object.name.as_slice();
    match object.life {
        Life::Literal => Name::new(alloc, &[]),
        Life::LocalStatic => {
            let mut bytes = Vec::from_slice(alloc, name)?;
            bytes.push(b'#')?;
            Name::new(alloc, &bytes)
        }
        Life::Linked | Life::Automatic | Life::Parameter | Life::Unmade => Name::new(alloc, name),
    }
}
