//! What is set in cells, in the order of the specification.

ghost use Rattle.std.specs.Prelude.{◌≡◌, ◌++◌, is_some, IfOk, filter_map};
ghost use Rattle.lt_entry.specs.Inputs.{cells_in_order};
ghost use Rattle.lt_input_values.specs.Maps.{set_at, has_place, HasPlacesSet, elsewhere};

use crate::cell_maps::last_sets;
use crate::copies::set_of;
use lt_input_wants::place_set;
use lt_model::{CellSet, FreeCell, Place, Spec};
use std::alloc::{AllocError, Global};
use std::collections::{HashMap, HashSet};

// What is set last in each free cell, in the order of the cells.
fn sets_in_cells(
    alloc: Global,
    cells: &[FreeCell],
    last: &HashMap<(&[u8], u64), &CellSet>,
) -> Result<Vec<CellSet>, AllocError>
    ensures { IfOk result (λ sets. sets.items ≡ filter_map (λ cell. set_at last.now cell.at) cells.now) }
{
    let mut sets = Vec::new(alloc);
    for cell in cells {
        match last.get(&(cell.at.root.as_slice(), cell.at.offset)) {
            Some(it) => sets.push(set_of(alloc, it)?)?,
            None => {}
        }
    }
    Ok(sets)
}

// Whether something is set at a place.
fn is_set(last: &HashMap<(&[u8], u64), &CellSet>, place: &Place) -> bool
    ensures { result ≡ is_some (set_at last.now place.now) }
{
    last.contains_key(&(place.root.as_slice(), place.offset))
}

// The places of the free cells that are set.
fn free_places<'a>(
    alloc: Global,
    cells: &'a [FreeCell],
    last: &HashMap<(&[u8], u64), &CellSet>,
) -> Result<HashSet<(&'a [u8], u64)>, AllocError>
    ensures { IfOk result (HasPlacesSet last.now cells.now) }
{
    let mut free = HashSet::new(alloc);
    for cell in cells {
        if is_set(last, &cell.at) {
            free.insert((cell.at.root.as_slice(), cell.at.offset))?;
        }
    }
    Ok(free)
}

fn has_place(places: &HashSet<(&[u8], u64)>, place: &Place) -> bool
    ensures { result ≡ has_place places.now place.now }
{
    places.contains(&(place.root.as_slice(), place.offset))
}

// Behind these, what is set elsewhere.
fn with_sets_elsewhere(
    alloc: Global,
    mut sets: Vec<CellSet>,
    all: &[CellSet],
    free: &HashSet<(&[u8], u64)>,
) -> Result<Vec<CellSet>, AllocError>
    ensures { IfOk result (λ more. more.items ≡ sets.items ++ elsewhere free.now all.now) }
{
    for it in all {
        if !has_place(free, place_set(it)) {
            sets.push(set_of(alloc, it)?)?;
        }
    }
    Ok(sets)
}

/// What is set in free cells, in their order, and behind it what is set elsewhere.
pub fn cells_in_order(
    alloc: Global,
    spec: &Spec,
    sets: &[CellSet],
) -> Result<Vec<CellSet>, AllocError>
    ensures { IfOk result (λ ordered. ordered.items ≡ cells_in_order spec.now sets.now) }
{
    let last = last_sets(alloc, sets)?;
    let cells = spec.cells.as_slice();
    let free = free_places(alloc, cells, &last)?;
    with_sets_elsewhere(alloc, sets_in_cells(alloc, cells, &last)?, sets, &free)
}
