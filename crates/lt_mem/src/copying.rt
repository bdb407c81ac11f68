//! Structs copied.

ghost use Rattle.std.specs.Prelude.{◌≡◌, ◌≤◌, All, Ok, Err, MatchResult, length};
ghost use Rattle.lt_model.specs.Memory.{copy_struct};
ghost use Rattle.lt_mem.specs.Cells.{IsFit};
ghost use Rattle.lt_mem.specs.Calls.{Becomes, with_blocks};
ghost use Rattle.lt_mem.specs.Steps.{waiting};

use crate::memory::Memory;
use crate::object::{Object, behind};
use lt_model::{Address, Content, Shape, ShapeCell, Ub};

// Has each content that is to be copied wait at the place of the cell that it goes to, unless a cell isn't there.
fn gather(
    source: &Object,
    from: u64,
    target: &Object,
    to: u64,
    shape: &[ShapeCell],
    waits: &mut [Content],
) -> Result<(), Ub>
    requires room { length target.now.cells ≤ length waits.old }
    requires fit { All IsFit waits.old }
    ensures waits { MatchResult result (λ _. waiting source.now.cells from target.now.cells to waits.old shape.now ≡ Ok waits.new) (λ kind. waiting source.now.cells from target.now.cells to waits.old shape.now ≡ Err kind) }
    ensures fit { All IsFit waits.new }
{
    for cell in shape {
        let held = source.held(behind(from, cell.offset), cell.ty)?;
        let Some(place) = target.place(behind(to, cell.offset), cell.ty) else {
            return Err(Ub::NoCell);
        };
        waits[place] = held;
    }
    Ok(())
}

impl Memory {
    /// Copies a struct of a shape from the second address to the first: all its cells are read before one is written, and unset
    /// ones and addresses of ended objects are copied as they are; or the kind of undefined behaviour: null followed, an ended
    /// object, no such cell, or an object that isn't writable. It takes no memory.
    #[tactic(auto, unfolding(lt_model::specs::Memory::copy_struct))]
    pub fn copy_struct(
        &mut self,
        to: Option<Address>,
        from: Option<Address>,
        shape: &Shape,
    ) -> Result<(), Ub>
        ensures { Becomes (with_blocks self.old (copy_struct self.old.model self.old.blocks to from shape.now)) self.old result self.new }
    {
        let Some(to) = to else {
            return Err(Ub::Null);
        };
        let Some(from) = from else {
            return Err(Ub::Null);
        };
        let Some(target) = self.living.get(&to.block) else {
            return Err(Ub::Ended);
        };
        let Some(source) = self.living.get(&from.block) else {
            return Err(Ub::Ended);
        };
        let cells = shape.cells.as_slice();
        gather(
            source,
            from.offset,
            target,
            to.offset,
            cells,
            self.scratch.as_mut_slice(),
        )?;
        if !target.is_writable() {
            return Err(Ub::Sealed);
        }
        match self.living.get_mut(&to.block) {
            Some(target) => target.deliver(self.model, to.offset, cells, self.scratch.as_slice()),
            None => unreachable!(),
        }
        Ok(())
    }
}
