//! The blocks of inputs.

ghost use Rattle.std.specs.Prelude.{◌≡◌, ◌↔◌, IsTrue};

use lt_model::{BlockIn, CellType, Shape, ShapeCell};

fn same_type(p: CellType, q: CellType) -> bool
    ensures { IsTrue result ↔ p ≡ q }
{
    match (p, q) {
        (CellType::Num(s), CellType::Num(t)) => s == t,
        (CellType::Pointer(m), CellType::Pointer(n)) => m == n,
        _ => false,
    }
}

fn same_cell(p: &ShapeCell, q: &ShapeCell) -> bool
    ensures { IsTrue result ↔ p.now ≡ q.now }
{
    p.offset == q.offset && same_type(p.ty, q.ty)
}

fn same_cells(cells: &[ShapeCell], others: &[ShapeCell]) -> bool
    ensures { IsTrue result ↔ cells.now ≡ others.now }
{
    if cells.len() != others.len() {
        return false;
    }
    for i in 0..cells.len() {
        if !same_cell(&cells[i], &others[i]) {
            return false;
        }
    }
    true
}

fn same_shape(p: &Shape, q: &Shape) -> bool
    ensures { IsTrue result ↔ p.now ≡ q.now }
{
    p.size == q.size && same_cells(p.cells.as_slice(), q.cells.as_slice())
}

fn same_block(p: &BlockIn, q: &BlockIn) -> bool
    ensures { IsTrue result ↔ p.now ≡ q.now }
{
    p.name.as_slice() == q.name.as_slice() && same_shape(&p.shape, &q.shape)
}

/// Whether these blocks are those.
pub fn same_blocks(blocks: &[BlockIn], others: &[BlockIn]) -> bool
    ensures { IsTrue result ↔ blocks.now ≡ others.now }
{
    if blocks.len() != others.len() {
        return false;
    }
    for i in 0..blocks.len() {
        if !same_block(&blocks[i], &others[i]) {
            return false;
        }
    }
    true
}
