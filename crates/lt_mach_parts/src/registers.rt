//! The registers of a call.

ghost use Rattle.std.specs.Prelude.{◌≡◌, ◌≢◌, ◌∷◌, [], IfOk, OnOk};
ghost use Rattle.lt_model.specs.State.{joined, settle, untouched, clash, meets};
ghost use Rattle.lt_ir.specs.Evaluation.{reads, writes};
ghost use Rattle.lt_ir.specs.Graph.{register_at, footprint_at, with_content, with_footprint, with_both, kept_if, blanks, with_joined};
ghost use Rattle.lt_mach_parts.specs.Cells.{name_of};

use crate::footprint::{CellName, Footprint};
use lt_model::Content;
use std::alloc::{AllocError, Global};
use std::marker::Model;
use std::mem::swap;

/// A register: its content, or none, and the footprint of the expression whose value it is.
#[derive(Drop)]
struct Register {
    content: Option<Content>,
    footprint: Footprint,
}

impl Model for Register {
    ghost use Rattle.lt_ir.specs.Graph.{Register as Held};

    ghost Value = { Held };

    ghost view = { λ r. record { content = r.content; footprint = r.footprint } };
}

// So many registers without a content.
#[tactic(auto, using(crate::proofs::Reading::one_more_blank))]
fn fill(alloc: Global, list: &mut Vec<Register>, count: u32) -> Result<(), AllocError>
    requires { list.old.items ≡ [] }
    ensures { OnOk result (list.new.items ≡ blanks count) }
{
    for turn in 0..count {
        list.push(Register {
            content: None,
            footprint: Footprint::new(alloc),
        })?;
    }
    Ok(())
}

// The footprint at a place goes to another, where it waits.
#[tactic(auto, using(crate::proofs::Reading::register_within, crate::proofs::Reading::register_past, crate::proofs::Reading::set_past))]
fn take(list: &mut Vec<Register>, spare: &mut Footprint, place: usize)
    requires { spare.old ≡ untouched }
    ensures taken { list.new.items ≡ with_footprint list.old.items place untouched }
    ensures waits { spare.new ≡ footprint_at list.old.items place }
{
    if place < list.len() {
        let it = &mut list[place];
        swap(spare, &mut it.footprint);
    }
}

// What waits is joined to the footprint at a place.
#[tactic(auto, using(crate::proofs::Reading::register_within, crate::proofs::Reading::register_past, crate::proofs::Reading::set_past))]
fn give(list: &mut Vec<Register>, spare: &Footprint, place: usize) -> Result<(), AllocError>
    ensures { OnOk result (list.new.items ≡ with_footprint list.old.items place (joined (footprint_at list.old.items place) spare.now)) }
{
    if place < list.len() {
        let it = &mut list[place];
        it.footprint.join(spare)?;
    }
    Ok(())
}

// The footprint at a place goes to that at another one.
#[tactic(auto, using(crate::proofs::Reading::moved_over))]
fn join(
    list: &mut Vec<Register>,
    spare: &mut Footprint,
    left: usize,
    right: usize,
) -> Result<(), AllocError>
    requires none { spare.old ≡ untouched }
    requires apart { left ≢ right }
    ensures joined { OnOk result (list.new.items ≡ with_joined list.old.items left right (joined (footprint_at list.old.items left) (footprint_at list.old.items right))) }
    ensures none { spare.new ≡ untouched }
{
    take(list, spare, right);
    let answer = give(list, spare, left);
    spare.clear();
    answer
}

// The footprint at a place comes twice.
#[tactic(auto, using(crate::proofs::Reading::doubled))]
fn double(list: &mut Vec<Register>, spare: &mut Footprint, place: usize) -> Result<(), AllocError>
    requires none { spare.old ≡ untouched }
    ensures joined { OnOk result (list.new.items ≡ with_joined list.old.items place place (joined (footprint_at list.old.items place) (footprint_at list.old.items place))) }
    ensures none { spare.new ≡ untouched }
{
    take(list, spare, place);
    let first = give(list, spare, place);
    let second = give(list, spare, place);
    spare.clear();
    first?;
    second
}

/// The registers of a call. Contracts see their contents and footprints.
#[derive(Drop)]
pub struct Registers {
    alloc: Global,
    list: Vec<Register>,
    // Where a footprint waits while it is joined to another; it has no cells then.
    spare: Footprint,
}

impl Model for Registers {
    ghost use Rattle.std.specs.Prelude.{List};
    ghost use Rattle.lt_ir.specs.Graph.{Register as Held};
    ghost use Rattle.std.specs.Prelude.{◌≡◌};
    ghost use Rattle.lt_model.specs.State.{untouched};

    ghost Value = { List Held };

    ghost view = { λ r. r.list.items };

    ghost invariant = { λ r. r.spare ≡ untouched };
}

#[tactic(auto, using(crate::proofs::Reading::register_within, crate::proofs::Reading::register_past, crate::proofs::Reading::set_past, crate::proofs::Reading::clash_none, crate::proofs::Reading::none_clash))]
impl Registers {
    /// No registers. It takes no memory.
    pub fn new(alloc: Global) -> Registers
        ensures { result ≡ [] }
    {
        Registers {
            alloc,
            list: Vec::new(alloc),
            spare: Footprint::new(alloc),
        }
    }

    /// So many registers without a content, in place of all before.
    pub fn begin(&mut self, count: u32) -> Result<(), AllocError>
        ensures { OnOk result (self.new ≡ blanks count) }
    {
        self.list.clear();
        fill(self.alloc, &mut self.list, count)
    }

    /// What a register has.
    pub fn content(&self, r: u32) -> Option<Content>
        ensures { result ≡ (register_at self.now r).content }
    {
        let r = r as usize;
        if r < self.list.len() {
            self.list[r].content
        } else {
            None
        }
    }

    /// A register has another content.
    pub fn put(&mut self, r: u32, c: Content)
        ensures { self.new ≡ with_content self.old r c }
    {
        let r = r as usize;
        if r < self.list.len() {
            let it = &mut self.list[r];
            it.content = Some(c);
        }
    }

    /// A register has another content, and no footprint.
    pub fn set(&mut self, r: u32, c: Content)
        ensures { self.new ≡ with_both self.old r c untouched }
    {
        let r = r as usize;
        if r < self.list.len() {
            let it = &mut self.list[r];
            it.content = Some(c);
            it.footprint.clear();
        }
    }

    /// A cell was read beside a register's content.
    pub fn read(&mut self, r: u32, cell: CellName) -> Result<(), AllocError>
        ensures { OnOk result (self.new ≡ with_footprint self.old r (joined (footprint_at self.old r) (reads (name_of cell ∷ [])))) }
    {
        let r = r as usize;
        if r < self.list.len() {
            let it = &mut self.list[r];
            it.footprint.read(cell)?;
        }
        Ok(())
    }

    /// A cell was written beside a register's content.
    pub fn write(&mut self, r: u32, cell: CellName) -> Result<(), AllocError>
        ensures { OnOk result (self.new ≡ with_footprint self.old r (joined (footprint_at self.old r) (writes (name_of cell ∷ [])))) }
    {
        let r = r as usize;
        if r < self.list.len() {
            let it = &mut self.list[r];
            it.footprint.write(cell)?;
        }
        Ok(())
    }

    /// A sequence point: what was written beside a register's content is settled.
    pub fn settle(&mut self, r: u32) -> Result<(), AllocError>
        ensures { OnOk result (self.new ≡ with_footprint self.old r (settle (footprint_at self.old r))) }
    {
        let r = r as usize;
        if r < self.list.len() {
            let it = &mut self.list[r];
            it.footprint.settle()?;
        }
        Ok(())
    }

    /// Whether a cell was written beside a register's content, with no sequence point since.
    pub fn is_pending(&self, r: u32, cell: CellName) -> bool
        ensures { result ≡ meets (name_of cell ∷ []) (footprint_at self.now r).pending }
    {
        let r = r as usize;
        r < self.list.len() && self.list[r].footprint.is_pending(cell)
    }

    /// Whether the footprints of two registers clash.
    pub fn clash(&self, left: u32, right: u32) -> bool
        ensures { result ≡ clash (footprint_at self.now left) (footprint_at self.now right) }
    {
        let left = left as usize;
        let right = right as usize;
        if left >= self.list.len() || right >= self.list.len() {
            return false;
        }
        self.list[left]
            .footprint
            .clashes(&self.list[right].footprint)
    }

    /// The left register gets the footprints of both, and the right one has none.
    pub fn join(&mut self, left: u32, right: u32) -> Result<(), AllocError>
        ensures { OnOk result (self.new ≡ with_joined self.old left right (joined (footprint_at self.old left) (footprint_at self.old right))) }
    {
        if left == right {
            return double(&mut self.list, &mut self.spare, left as usize);
        }
        join(
            &mut self.list,
            &mut self.spare,
            left as usize,
            right as usize,
        )
    }
}
