//! The cells that an evaluation read and wrote.

ghost use Rattle.std.specs.Prelude.{◌≡◌, ◌++◌, ◌∷◌, [], map, IfOk, OnOk};
ghost use Rattle.std.specs.List.{list_any};
ghost use Rattle.lt_model.specs.State.{same_cell, clash, joined, settle, untouched, meets};
ghost use Rattle.lt_ir.specs.Evaluation.{reads, writes};
ghost use Rattle.lt_mach_parts.specs.Cells.{name_of, names_of};

use std::alloc::{AllocError, Global};
use std::marker::Model;

/// A cell, by its block and its byte offset, which may pass 64 bits.
#[derive(Clone, Copy)]
pub struct CellName {
    pub block: u32,
    pub offset: u128,
}

/// The cells that an evaluation read, those that it wrote before a sequence point, and those that it wrote since.
#[derive(Drop)]
pub struct Footprint {
    reads: Vec<CellName>,
    settled: Vec<CellName>,
    pending: Vec<CellName>,
}

impl Model for Footprint {
    ghost use Rattle.lt_model.specs.State.{Footprint as Cells};
    ghost use Rattle.lt_mach_parts.specs.Cells.{names_of};

    ghost Value = { Cells };

    ghost view = { λ f. record { reads = names_of f.reads.items; settled = names_of f.settled.items; pending = names_of f.pending.items } };
}

// Whether a cell is among others.
fn has(cells: &[CellName], it: CellName) -> bool
    ensures { result ≡ list_any (λ cell. same_cell (name_of it) (name_of cell)) cells.now }
{
    cells
        .iter()
        .any(|cell| it.block == cell.block && it.offset == cell.offset)
}

// Whether a cell is among both.
#[tactic(auto, using(crate::proofs::Meeting::meets_names))]
fn meet(cells: &[CellName], others: &[CellName]) -> bool
    ensures { result ≡ meets (names_of cells.now) (names_of others.now) }
{
    for cell in cells {
        if has(others, *cell) {
            return true;
        }
    }
    false
}

impl Footprint {
    /// No cells. It takes no memory.
    pub fn new(alloc: Global) -> Footprint
        ensures { result ≡ untouched }
    {
        Footprint {
            reads: Vec::new(alloc),
            settled: Vec::new(alloc),
            pending: Vec::new(alloc),
        }
    }

    /// It has no cells any more, and keeps its room.
    pub fn clear(&mut self)
        ensures { self.new ≡ untouched }
    {
        self.reads.clear();
        self.settled.clear();
        self.pending.clear();
    }

    /// A cell was read.
    pub fn read(&mut self, cell: CellName) -> Result<(), AllocError>
        ensures { OnOk result (self.new ≡ joined self.old (reads (name_of cell ∷ []))) }
    {
        self.reads.push(cell)?;
        Ok(())
    }

    /// A cell was written.
    pub fn write(&mut self, cell: CellName) -> Result<(), AllocError>
        ensures { OnOk result (self.new ≡ joined self.old (writes (name_of cell ∷ []))) }
    {
        self.pending.push(cell)?;
        Ok(())
    }

    /// A sequence point.
    pub fn settle(&mut self) -> Result<(), AllocError>
        ensures { OnOk result (self.new ≡ settle self.old) }
    {
        self.settled.extend_from_slice(self.pending.as_slice())?;
        self.pending.clear();
        Ok(())
    }

    /// The cells of another one too.
    pub fn join(&mut self, other: &Footprint) -> Result<(), AllocError>
        ensures { OnOk result (self.new ≡ joined self.old other.now) }
    {
        self.reads.extend_from_slice(other.reads.as_slice())?;
        self.settled.extend_from_slice(other.settled.as_slice())?;
        self.pending.extend_from_slice(other.pending.as_slice())?;
        Ok(())
    }

    /// Whether it has this pending write.
    pub fn is_pending(&self, cell: CellName) -> bool
        ensures { result ≡ meets (name_of cell ∷ []) self.now.pending }
    {
        meet(&[cell], self.pending.as_slice())
    }

    // Whether one of its writes is among these cells.
    #[tactic(auto, using(crate::proofs::Meeting::meets_first))]
    fn writes_among(&self, cells: &[CellName]) -> bool
        ensures { result ≡ meets (self.now.settled ++ self.now.pending) (names_of cells.now) }
    {
        meet(self.settled.as_slice(), cells) || meet(self.pending.as_slice(), cells)
    }

    /// Whether one of two unsequenced parts writes a cell that the other reads or writes.
    #[tactic(auto, using(crate::proofs::Meeting::meets_second))]
    pub fn clashes(&self, other: &Footprint) -> bool
        ensures { result ≡ clash self.now other.now }
    {
        self.writes_among(other.reads.as_slice())
            || other.writes_among(self.reads.as_slice())
            || self.writes_among(other.settled.as_slice())
            || self.writes_among(other.pending.as_slice())
    }
}
