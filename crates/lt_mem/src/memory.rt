//! Memory: its objects, and how they begin and end.

ghost use Rattle.std.specs.Prelude.{◌≡◌, ◌↔◌, ◌≤◌, ◌+◌, nat_le, None, Some, Ok, Err, IfOk, OnOk, OnErr, MatchResult, [], length, All};
ghost use Rattle.lt_model.specs.Memory.{create, new_block, cells_alive, most_cells, create_shaped, end_block, seal_block, object_at};
ghost use Rattle.lt_mem.specs.declared.stop.MemStop.TheVariants.{Cells};
ghost use Rattle.lt_mem.specs.Image.{living_block};
ghost use Rattle.lt_mem.specs.Cells.{IsFit};

use crate::object::Object;
use crate::stop::MemStop;
use lt_model::{Address, Content, DataModel, Shape, Ub};
use std::alloc::{AllocError, Global};
use std::collections::BTreeMap;
use std::marker::Model;

/// The most cells that may be alive.
const MOST_CELLS: usize = 4_194_304;

/// Memory. Contracts see its data model and its objects, in the order in which they were made.
#[derive(Drop)]
pub struct Memory {
    pub(crate) alloc: Global,
    pub(crate) model: DataModel,
    // The living objects under their numbers; an ended one leaves nothing.
    pub(crate) living: BTreeMap<u32, Object>,
    // How many objects were made.
    pub(crate) made: u32,
    // How many cells are alive.
    pub(crate) alive: usize,
    // Where contents wait while a struct is copied: a place for each cell of the longest object that was made.
    pub(crate) scratch: Vec<Content>,
}

impl Model for Memory {
    ghost use Rattle.lt_mem.specs.Image.{Image, blocks_of, IsKept};

    ghost Value = { Image };

    ghost view = { λ m. record { model = m.model; blocks = blocks_of m.living m.made } };

    ghost invariant = { λ m. IsKept m.living m.made m.alive m.scratch.items };
}

// Gives the list a place for each of so many cells.
fn lengthen(scratch: &mut Vec<Content>, cells: usize) -> Result<(), AllocError>
    requires { All IsFit scratch.old.items }
    ensures fit { All IsFit scratch.new.items }
    ensures grows { length scratch.old.items ≤ length scratch.new.items }
    ensures enough { OnOk result (cells ≤ length scratch.new.items) }
{
    while scratch.len() < cells {
        scratch.push(Content::Unset)?;
    }
    Ok(())
}

impl Memory {
    /// A memory without objects, which takes from this allocator.
    pub fn new(alloc: Global, model: DataModel) -> Result<Memory, AllocError>
        ensures { IfOk result (λ memory. memory ≡ record { model = model; blocks = [] }) }
    {
        Ok(Memory {
            alloc,
            model,
            living: BTreeMap::new(alloc),
            made: 0,
            alive: 0,
            scratch: Vec::new(alloc),
        })
    }

    /// The data model by which numbers are converted.
    pub fn model(&self) -> DataModel
        ensures { result ≡ self.now.model }
    {
        self.model
    }

    // Whether an object of this shape may be made: then no more cells are alive than may be.
    #[tactic(auto, using(crate::proofs::Keeping::room_test))]
    fn has_room(&self, shape: &Shape) -> bool
        ensures { result ≡ nat_le (cells_alive self.now.blocks + length shape.now.cells) most_cells }
    {
        shape.cells.as_slice().len() <= MOST_CELLS - self.alive
    }

    // Makes an object for whose cells there is room.
    fn add(&mut self, shape: &Shape, zero: bool, writable: bool) -> Result<u32, AllocError>
        requires { cells_alive self.old.blocks + length shape.now.cells ≤ most_cells }
        ensures number { IfOk result (λ block. block ≡ length self.old.blocks) }
        ensures made { OnOk result (self.new ≡ record self.old { blocks = create self.old.blocks (new_block shape.now zero writable) }) }
        ensures kept { OnErr result (self.new ≡ self.old) }
    {
        let cells = shape.cells.as_slice().len();
        let block = self.made;
        let Some(made) = block.checked_add(1) else {
            return Err(AllocError);
        };
        lengthen(&mut self.scratch, cells)?;
        let object = Object::new(self.alloc, shape, zero, writable)?;
        self.living.insert(block, object)?;
        self.made = made;
        self.alive += cells;
        Ok(block)
    }

    /// Makes an object of a shape, whose cells hold zeros and nulls, or nothing that may be loaded; gives its number. It stops
    /// where more than 4,194,304 cells would be alive, and for want of memory, also where there are no more numbers.
    #[tactic(auto, unfolding(lt_model::specs::Memory::create_shaped))]
    pub fn create(&mut self, shape: &Shape, zero: bool, writable: bool) -> Result<u32, MemStop>
        ensures number { IfOk result (λ block. block ≡ length self.old.blocks) }
        ensures made { OnOk result (create_shaped self.old.blocks shape.now zero writable ≡ Some self.new.blocks) }
        ensures model { self.new.model ≡ self.old.model }
        ensures cells { result ≡ Err Cells ↔ create_shaped self.old.blocks shape.now zero writable ≡ None }
        ensures kept { OnErr result (self.new ≡ self.old) }
    {
        if !self.has_room(shape) {
            return Err(MemStop::Cells);
        }
        match self.add(shape, zero, writable) {
            Ok(block) => Ok(block),
            Err(_) => Err(MemStop::NoMemory),
        }
    }

    /// The lifetime of an object is over, and its room is given back. Where it isn't alive, nothing changes.
    pub fn end(&mut self, block: u32)
        ensures { self.new ≡ record self.old { blocks = end_block self.old.blocks block } }
    {
        if let Some(object) = self.living.remove(&block) {
            self.alive -= object.len();
        }
    }

    /// An object isn't writable from now on. Where it isn't alive, nothing changes.
    pub fn seal(&mut self, block: u32)
        ensures { self.new ≡ record self.old { blocks = seal_block self.old.blocks block } }
    {
        if let Some(object) = self.living.get_mut(&block) {
            object.seal();
        }
    }

    /// The living object of an address.
    pub(crate) fn object(&self, at: Option<Address>) -> Result<&Object, Ub>
        ensures { MatchResult result (λ object. object_at self.now.blocks at ≡ Ok (living_block object.now)) (λ kind. object_at self.now.blocks at ≡ Err kind) }
    {
        let Some(at) = at else {
            return Err(Ub::Null);
        };
        match self.living.get(&at.block) {
            Some(object) => Ok(object),
            None => Err(Ub::Ended),
        }
    }
}
