//! Free cells, and what is set in cells, by their places.

ghost use Rattle.std.specs.Prelude.{◌≡◌, IfOk};
ghost use Rattle.lt_input_values.specs.Maps.{HasFirstCells, HasLast};

use lt_input_wants::place_set;
use lt_model::{CellSet, FreeCell};
use std::alloc::{AllocError, Global};
use std::collections::HashMap;

/// What is set last at each place.
pub fn last_sets<'a>(
    alloc: Global,
    sets: &'a [CellSet],
) -> Result<HashMap<(&'a [u8], u64), &'a CellSet>, AllocError>
    ensures { IfOk result (HasLast sets.now) }
{
    let mut last = HashMap::new(alloc);
    for it in sets {
        let place = place_set(it);
        last.insert((place.root.as_slice(), place.offset), it)?;
    }
    Ok(last)
}

/// The first free cell at each place.
pub fn first_cells<'a>(
    alloc: Global,
    cells: &'a [FreeCell],
) -> Result<HashMap<(&'a [u8], u64), &'a FreeCell>, AllocError>
    ensures { IfOk result (HasFirstCells cells.now) }
{
    let mut first = HashMap::new(alloc);
    for cell in cells {
        let key = (cell.at.root.as_slice(), cell.at.offset);
        if !first.contains_key(&key) {
            first.insert(key, cell)?;
        }
    }
    Ok(first)
}
