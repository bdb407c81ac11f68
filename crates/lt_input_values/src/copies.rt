//! Copies of parts of inputs.

ghost use Rattle.std.specs.Prelude.{◌≡◌, IfOk};

use lt_model::{BlockIn, CellSet, Name, Place, Sequence, Shape, StubSet};
use std::alloc::{AllocError, Global};

fn place_of(alloc: Global, place: &Place) -> Result<Place, AllocError>
    ensures { IfOk result (λ it. it ≡ place.now) }
{
    Ok(Place {
        root: Name::new(alloc, place.root.as_slice())?,
        offset: place.offset,
    })
}

fn target_of(alloc: Global, target: &Option<Place>) -> Result<Option<Place>, AllocError>
    ensures { IfOk result (λ it. it ≡ target.now) }
{
    match target {
        Some(place) => Ok(Some(place_of(alloc, place)?)),
        None => Ok(None),
    }
}

/// What is set in a cell.
pub fn set_of(alloc: Global, it: &CellSet) -> Result<CellSet, AllocError>
    ensures { IfOk result (λ copy. copy ≡ it.now) }
{
    match it {
        CellSet::Number(place, z) => Ok(CellSet::Number(place_of(alloc, place)?, *z)),
        CellSet::Point(place, target) => {
            let place = place_of(alloc, place)?;
            Ok(CellSet::Point(place, target_of(alloc, target)?))
        }
    }
}

/// The values for a function.
pub fn values_of(alloc: Global, it: &StubSet) -> Result<StubSet, AllocError>
    ensures { IfOk result (λ copy. copy ≡ it.now) }
{
    Ok(StubSet {
        name: Name::new(alloc, it.name.as_slice())?,
        values: Sequence::new(Vec::from_slice(alloc, it.values.as_slice())?),
    })
}

fn shape_of(alloc: Global, shape: &Shape) -> Result<Shape, AllocError>
    ensures { IfOk result (λ copy. copy ≡ shape.now) }
{
    Ok(Shape {
        cells: Sequence::new(Vec::from_slice(alloc, shape.cells.as_slice())?),
        size: shape.size,
    })
}

fn block_of(alloc: Global, block: &BlockIn) -> Result<BlockIn, AllocError>
    ensures { IfOk result (λ copy. copy ≡ block.now) }
{
    Ok(BlockIn {
        name: Name::new(alloc, block.name.as_slice())?,
        shape: shape_of(alloc, &block.shape)?,
    })
}

/// The same blocks.
pub fn blocks_of(alloc: Global, blocks: &[BlockIn]) -> Result<Vec<BlockIn>, AllocError>
    ensures { IfOk result (λ copies. copies.items ≡ blocks.now) }
{
    let mut copies = Vec::with_capacity(alloc, blocks.len())?;
    for block in blocks {
        copies.push(block_of(alloc, block)?)?;
    }
    Ok(copies)
}
