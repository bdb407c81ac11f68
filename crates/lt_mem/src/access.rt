//! Loads and stores.

ghost use Rattle.std.specs.Prelude.{◌≡◌, ◌+◌, IfOk, Some, is_ok};
ghost use Rattle.lt_model.specs.Memory.{load, store, usable, offset_of, object_at, held_at, then_result};
ghost use Rattle.lt_mem.specs.Cells.{IsFit};
ghost use Rattle.lt_mem.specs.Calls.{IsOfType, Becomes, with_blocks};

use crate::memory::Memory;
use crate::object::{as_type, behind};
use lt_model::{Address, CellType, Content, Ub};

// The offset of an address; null has none.
pub(crate) fn offset_of(at: Option<Address>) -> u128
    ensures { result ≡ offset_of at }
{
    match at {
        Some(at) => u128::from(at.offset),
        None => 0,
    }
}

impl Memory {
    // A content that is used: an unset one can't be, nor the address of an ended object.
    fn usable(&self, held: Content) -> Result<Content, Ub>
        requires { IsFit held }
        ensures is { result ≡ usable self.now.blocks held }
        ensures fit { IfOk result IsFit }
    {
        match held {
            Content::Unset => Err(Ub::Unset),
            Content::Number(_) | Content::Address(None) => Ok(held),
            Content::Address(at) => match self.object(at) {
                Ok(_) => Ok(held),
                Err(kind) => Err(kind),
            },
        }
    }

    /// What the cell holds that an access of a type meets at an address, as a value of the type; or the kind of undefined
    /// behaviour: an ended object, null followed, no such cell, or one that holds nothing.
    #[tactic(auto, unfolding(lt_model::specs::Memory::load))]
    pub fn load(&self, at: Option<Address>, ty: CellType) -> Result<Content, Ub>
        ensures { result ≡ load self.now.model self.now.blocks at ty }
    {
        let object = self.object(at)?;
        let held = object.held(offset_of(at), ty)?;
        let used = self.usable(held)?;
        Ok(as_type(self.model, ty, used))
    }

    /// Stores a value of the type of the access into the cell that it meets, as a value of the cell's type; or the kind of
    /// undefined behaviour: an ended object, null followed, no such cell, or an object that isn't writable.
    #[tactic(auto, unfolding(lt_model::specs::Memory::store))]
    pub fn store(&mut self, at: Option<Address>, ty: CellType, value: Content) -> Result<(), Ub>
        requires { IsOfType self.old.model ty value }
        ensures { Becomes (with_blocks self.old (store self.old.model self.old.blocks at ty value)) self.old result self.new }
    {
        let Some(at) = at else {
            return Err(Ub::Null);
        };
        let Some(object) = self.living.get_mut(&at.block) else {
            return Err(Ub::Ended);
        };
        object.store(self.model, u128::from(at.offset), ty, value)
    }

    /// Whether an object is alive.
    pub fn is_alive(&self, block: u32) -> bool
        ensures { result ≡ is_ok (object_at self.now.blocks (Some (record { block = block; offset = 0 }))) }
    {
        self.object(Some(Address { block, offset: 0 })).is_ok()
    }

    /// Whether an access of a type meets a cell so many bytes behind an address.
    pub fn meets(&self, at: Option<Address>, offset: u64, ty: CellType) -> bool
        ensures { result ≡ is_ok (then_result (object_at self.now.blocks at) (λ block. held_at block.cells (offset_of at + offset) ty)) }
    {
        let Some(from) = at else {
            return false;
        };
        match self.object(at) {
            Ok(object) => object.held(behind(from.offset, offset), ty).is_ok(),
            Err(_) => false,
        }
    }
}
