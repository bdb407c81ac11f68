//! Which cell of an object an access meets.

ghost use Rattle.std.specs.Prelude.{◌≡◌, ◌↔◌, IsTrue};
ghost use Rattle.lt_model.specs.Memory.{correspondence, corresponds};
ghost use Rattle.lt_mem.specs.Cells.{meets, place_of, IsAscending, IsAt};

use lt_model::{CellType, Scalar, StoredCell};

// The same number for the types that correspond to each other, C11 6.5p7.
fn correspondence(ty: Scalar) -> u8
    ensures { result ≡ correspondence ty }
{
    match ty {
        Scalar::Bool => 0,
        Scalar::Char | Scalar::SChar | Scalar::UChar => 1,
        Scalar::Short | Scalar::UShort => 2,
        Scalar::Int | Scalar::UInt => 3,
        Scalar::Long | Scalar::ULong => 4,
        Scalar::LLong | Scalar::ULLong => 5,
    }
}

// Whether an access of one type meets a cell of another.
fn corresponds(access: CellType, cell: CellType) -> bool
    ensures { result ≡ corresponds access cell }
{
    match (access, cell) {
        (CellType::Num(a), CellType::Num(b)) => correspondence(a) == correspondence(b),
        (CellType::Pointer(a), CellType::Pointer(b)) => a == b,
        _ => false,
    }
}

fn meets(cell: &StoredCell, offset: u128, ty: CellType) -> bool
    ensures { result ≡ meets offset ty cell.now }
{
    u128::from(cell.offset) == offset && corresponds(ty, cell.ty)
}

// Whether each offset is greater than the one before.
pub(crate) fn ascends(cells: &[StoredCell]) -> bool
    ensures { IsTrue result ↔ IsAscending cells.now }
{
    cells.is_sorted_by(|a, b| a.offset < b.offset)
}

// The place of the cell at an offset, by halving.
fn halve(cells: &[StoredCell], offset: u128) -> Option<usize>
    requires { IsAscending cells.now }
    ensures { IsAt cells.now offset result }
{
    let found = cells.binary_search_by_key(&offset, |cell| u128::from(cell.offset));
    found.ok()
}

// The place of the cell at an offset. In an array of one scalar type it is the offset by the distance of two cells.
fn place_at(cells: &[StoredCell], step: u64, offset: u128) -> Option<usize>
    requires { IsAscending cells.now }
    ensures { IsAt cells.now offset result }
{
    let guess = offset.checked_div(u128::from(step)).unwrap_or(0);
    match usize::try_from(guess) {
        Ok(k) if k < cells.len() && u128::from(cells[k].offset) == offset => Some(k),
        _ => halve(cells, offset),
    }
}

// The place of the first cell that an access meets, where the offsets ascend.
pub(crate) fn find(cells: &[StoredCell], step: u64, offset: u128, ty: CellType) -> Option<usize>
    requires { IsAscending cells.now }
    ensures { result ≡ place_of cells.now offset ty }
{
    match place_at(cells, step, offset) {
        Some(k) if corresponds(ty, cells[k].ty) => Some(k),
        _ => None,
    }
}

// The place of the first cell that an access meets.
pub(crate) fn walk(cells: &[StoredCell], offset: u128, ty: CellType) -> Option<usize>
    ensures { result ≡ place_of cells.now offset ty }
{
    cells.iter().position(|cell| meets(cell, offset, ty))
}
