//! Which inputs meet a specification.

ghost use Rattle.std.specs.Prelude.{◌≡◌, ◌↔◌, IsTrue, IfOk};
ghost use Rattle.std.specs.List.{list_all};
ghost use Rattle.lt_entry.specs.Meeting.{Meets, held, is_wanted, sets_free_cell};
ghost use Rattle.lt_entry.specs.Inputs.{IsBounded};
ghost use Rattle.lt_input_values.specs.Finding.{IsFinder};

use crate::blocks::same_blocks;
use crate::finder::Finder;
use crate::needs::needs_hold;
use crate::stubs::stubs_keep_ranges;
use lt_input_wants::{holds_well, place_set};
use lt_model::{CellSet, FreeCell, Input, Spec};
use std::alloc::{AllocError, Global};

fn cell_holds_well(finder: &Finder<'_>, cell: &FreeCell) -> bool
    requires finder { IsFinder finder.now }
    ensures { result ≡ is_wanted cell.now.want (held finder.now.input.now cell.now) }
{
    holds_well(cell, finder.last_set(&cell.at))
}

// Whether each free cell holds what it may.
fn cells_hold_well(finder: &Finder<'_>) -> bool
    requires finder { IsFinder finder.now }
    ensures { result ≡ list_all (λ cell. is_wanted cell.want (held finder.now.input.now cell)) finder.now.spec.now.cells }
{
    for cell in finder.spec.cells.as_slice() {
        if !cell_holds_well(finder, cell) {
            return false;
        }
    }
    true
}

fn sets_free_cell(finder: &Finder<'_>, it: &CellSet) -> bool
    requires finder { IsFinder finder.now }
    ensures { result ≡ sets_free_cell finder.now.spec.now it.now }
{
    finder.cell_at(place_set(it)).is_some()
}

// Whether free cells alone are set.
fn sets_free_cells(finder: &Finder<'_>) -> bool
    requires finder { IsFinder finder.now }
    ensures { result ≡ list_all (sets_free_cell finder.now.spec.now) finder.now.input.now.cells }
{
    for it in finder.input.cells.as_slice() {
        if !sets_free_cell(finder, it) {
            return false;
        }
    }
    true
}

// Whether the input of a finder meets its specification.
fn is_met(finder: &Finder<'_>) -> bool
    requires finder { IsFinder finder.now }
    requires bounded { IsBounded finder.now.spec.now }
    ensures { IsTrue result ↔ Meets finder.now.spec.now finder.now.input.now }
{
    if !same_blocks(
        finder.input.blocks.as_slice(),
        finder.spec.blocks.as_slice(),
    ) {
        return false;
    }
    if !sets_free_cells(finder) {
        return false;
    }
    if !cells_hold_well(finder) {
        return false;
    }
    if !stubs_keep_ranges(finder) {
        return false;
    }
    needs_hold(finder)
}

/// Whether an input meets a specification, which keeps the bounds of its lines, by which sums fit 128 bits. It takes no memory, and
/// searches for each cell.
pub fn meets(spec: &Spec, input: &Input) -> bool
    requires bounded { IsBounded spec.now }
    ensures { IsTrue result ↔ Meets spec.now input.now }
{
    let finder = Finder::searching(spec, input);
    is_met(&finder)
}

/// The same as `meets`, with maps by which cells are found in one step each.
pub fn meets_by_maps(alloc: Global, spec: &Spec, input: &Input) -> Result<bool, AllocError>
    requires bounded { IsBounded spec.now }
    ensures { IfOk result (λ met. IsTrue met ↔ Meets spec.now input.now) }
{
    let finder = Finder::mapped(alloc, spec, input)?;
    Ok(is_met(&finder))
}
