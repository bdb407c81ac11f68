//! The cells of structs.

ghost use Rattle.std.specs.Prelude.{◌≡◌, ◌+◌, ℕ, List, IfOk, IfSome, map, length, replicate, true, false, slice_index_or};
ghost use Rattle.std.specs.List.{list_all};
ghost use Rattle.lt_tree.specs.Typing.Types.{CType};
ghost use Rattle.lt_tree.specs.Typing.EntityView.{structs_of};
ghost use Rattle.lt_input_blocks.specs.Facts.{HaveFacts, capped, facts_at};
ghost use Rattle.lt_input_blocks.specs.Cells as spec;
ghost use Rattle.lt_input_blocks.specs.Cells.{AreCells, AreSettled, members_among, struct_cells_by, is_settled};

use crate::facts::{Facts, Part, facts_at, times};
use crate::order::order;
use lt_input_wants::MOST_CELLS;
use lt_tree::typed::{Member, StructType};
use std::alloc::{AllocError, Global};

/// The cells of structs, where this is known of types; more than an object may have count as one more than that. Structs that typing gave don't
/// hold themselves: where one does, the cells are counted in as many rounds as there are structs.
pub fn cells_of_structs(
    alloc: Global,
    facts: &[Facts],
    structs: &[StructType],
) -> Result<Vec<u32>, AllocError>
    ensures { IfOk result (λ cells. (types : List CType) → HaveFacts types facts.now → AreCells (structs_of types structs.now) cells.items) }
{
    match settled_cells(alloc, facts, structs)? {
        Some(cells) => Ok(cells),
        None => cells_by_rounds(alloc, facts, structs),
    }
}

// The cells of structs, each from those of the structs that it holds, if none holds itself.
fn settled_cells(
    alloc: Global,
    facts: &[Facts],
    structs: &[StructType],
) -> Result<Option<Vec<u32>>, AllocError>
    ensures { IfOk result (λ it. IfSome it (λ cells. (types : List CType) → HaveFacts types facts.now → AreCells (structs_of types structs.now) cells.items)) }
{
    let order = order(alloc, facts, structs)?;
    let mut cells = zeros(alloc, structs.len())?;
    let mut settled = none_settled(alloc, structs.len())?;
    if settle_all(&order, facts, structs, &mut cells, &mut settled) {
        return Ok(Some(cells));
    }
    Ok(None)
}

// No cells of so many structs.
fn zeros(alloc: Global, count: usize) -> Result<Vec<u32>, AllocError>
    ensures { IfOk result (λ cells. cells.items ≡ replicate count 0) }
{
    Ok(vec![in alloc; 0; count]?)
}

// None of so many structs is settled.
fn none_settled(alloc: Global, count: usize) -> Result<Vec<bool>, AllocError>
    ensures { IfOk result (λ settled. settled.items ≡ replicate count false) }
{
    Ok(vec![in alloc; false; count]?)
}

fn are_true(all: &[bool]) -> bool
    ensures { result ≡ list_all (λ b. b) all.now }
{
    all.iter().all(|b| *b)
}

// Takes down the cells that follow, in this order; whether those of all structs do.
fn settle_all(
    order: &[usize],
    facts: &[Facts],
    structs: &[StructType],
    cells: &mut [u32],
    settled: &mut [bool],
) -> bool
    requires cells { length cells.old ≡ length structs.now }
    requires settled { length settled.old ≡ length structs.now }
    ensures { result ≡ true → (types : List CType) → HaveFacts types facts.now → AreSettled (structs_of types structs.now) 0 cells.old settled.old → AreCells (structs_of types structs.now) cells.new }
{
    for place in order {
        settle_at(*place, facts, structs, cells, settled);
    }
    order.len() <= structs.len() && are_true(settled)
}

// Takes down the cells of the struct at a place, if they follow.
fn settle_at(
    place: usize,
    facts: &[Facts],
    structs: &[StructType],
    cells: &mut [u32],
    settled: &mut [bool],
)
    requires cells { length cells.old ≡ length structs.now }
    requires settled { length settled.old ≡ length structs.now }
    ensures { (types : List CType) (bound : ℕ) → HaveFacts types facts.now → AreSettled (structs_of types structs.now) bound cells.old settled.old → AreSettled (structs_of types structs.now) (bound + 1) cells.new settled.new }
{
    if place >= structs.len() {
        return;
    }
    let it = &structs[place];
    if holds_settled(facts, settled, it) {
        cells[place] = struct_cells(facts, cells, it);
        settled[place] = true;
    }
}

// Whether the structs that a struct holds are settled.
fn holds_settled(facts: &[Facts], settled: &[bool], it: &StructType) -> bool
    ensures { result ≡ spec.holds_settled facts.now settled.now it.now }
{
    members_of(it).iter().all(|member| is_settled(settled, facts_at(facts, member.ty).part))
}

fn is_settled(settled: &[bool], part: Part) -> bool
    ensures { result ≡ is_settled settled.now part }
{
    match part {
        Part::Struct(number) => match settled.get(number as usize) {
            None => false,
            Some(it) => *it,
        },
        Part::Nothing | Part::Scalar => true,
    }
}

// The members of a struct, as far as it has any.
fn members_of(it: &StructType) -> &[Member]
    ensures { result.now ≡ members_among it.now }
{
    match &it.members {
        None => &[],
        Some(members) => members.as_slice(),
    }
}

// The cells of structs in rounds, each with structs that nest one deeper.
fn cells_by_rounds(
    alloc: Global,
    facts: &[Facts],
    structs: &[StructType],
) -> Result<Vec<u32>, AllocError>
    ensures { IfOk result (λ cells. (types : List CType) → HaveFacts types facts.now → AreCells (structs_of types structs.now) cells.items) }
{
    let mut cells = zeros(alloc, structs.len())?;
    for _round in 0..structs.len() {
        cells = next_cells(alloc, facts, structs, &cells)?;
    }
    Ok(cells)
}

// The cells of structs that nest one deeper.
fn next_cells(
    alloc: Global,
    facts: &[Facts],
    structs: &[StructType],
    cells: &[u32],
) -> Result<Vec<u32>, AllocError>
    ensures { IfOk result (λ next. next.items ≡ map (λ it. struct_cells_by facts.now cells.now it) structs.now) }
{
    let mut next = Vec::new(alloc);
    for it in structs {
        next.push(struct_cells(facts, cells, it))?;
    }
    Ok(next)
}

// The cells of a struct, where those of the structs that it holds are known.
fn struct_cells(facts: &[Facts], cells: &[u32], it: &StructType) -> u32
    ensures { result ≡ struct_cells_by facts.now cells.now it.now }
{
    let mut sum = 0;
    for member in members_of(it) {
        sum = plus(sum, cells_by(cells, facts_at(facts, member.ty)));
    }
    sum
}

/// The cells of a type, where those of structs are known.
pub fn cells_by(cells: &[u32], facts: Facts) -> u32
    ensures { result ≡ spec.cells_by cells.now facts }
{
    match facts.part {
        Part::Nothing => 0,
        Part::Scalar => times(facts.count, 1),
        Part::Struct(number) => times(facts.count, struct_at(cells, number)),
    }
}

/// The cells of the struct of this number.
pub fn struct_at(cells: &[u32], number: u32) -> u32
    ensures { result ≡ slice_index_or cells.now number 0 }
{
    match cells.get(number as usize) {
        None => 0,
        Some(it) => *it,
    }
}

// A sum of numbers of cells.
fn plus(a: u32, b: u32) -> u32
    ensures { result ≡ capped (a + b) }
{
    (u64::from(a) + u64::from(b)).min(u64::from(MOST_CELLS) + 1) as u32
}
