//! Nodes that write to memory.

ghost use Rattle.std.specs.Prelude.{◌≡◌, ◌∷◌, [], OnOk, Some, None};
ghost use Rattle.lt_ir.specs.declared.graph.Graph.{Graph as Held};
ghost use Rattle.lt_ir.specs.declared.code.Code.{Code as HeldCode};
ghost use Rattle.lt_ir.specs.declared.node.Node.TheVariants.{Store as StoreNode};
ghost use Rattle.std.specs.Prelude.{Option, List, ℕ};
ghost use Rattle.lt_model.specs.Memory.{Block};
ghost use Rattle.lt_model.specs.State.{joined};
ghost use Rattle.lt_ir.specs.Evaluation.{cell_at, writes};
ghost use Rattle.lt_ir.specs.Graph.{with_footprint, footprint_at};
ghost use Rattle.lt_acts.specs.Acts.{Acts};

use crate::flow::{Fault, Stop};
use crate::operands::{address, held, is_content_of, value};
use lt_mach_parts::{CellName, Registers};
use lt_mem::Memory;
use lt_model::{Address, CellType};
use std::alloc::AllocError;

/// A scalar goes to memory.
pub fn store(
    memory: &mut Memory,
    registers: &mut Registers,
    place: u32,
    from: u32,
    gives: u32,
    ty: CellType,
    tracks: bool,
) -> Result<(), Stop>
    ensures acts { (g : Held) (code : Option HeldCode) (next : ℕ) → g.model ≡ memory.old.model → Acts g code (StoreNode place from gives ty tracks next) next registers.old memory.old.blocks result registers.new memory.new.blocks }
    ensures model { memory.new.model ≡ memory.old.model }
{
    let to = address(registers, place)?;
    let content = value(registers, from)?;
    let given = held(registers, gives)?;
    if !is_content_of(memory.model(), ty, content) {
        return Err(Stop::Over(Fault::Absurd));
    }
    memory.store(to, ty, content)?;
    if tracks {
        note_write(registers, place, to)?;
    }
    registers.put(place, given);
    Ok(())
}

// The cell at an address was written.
fn note_write(registers: &mut Registers, r: u32, to: Option<Address>) -> Result<(), AllocError>
    ensures { OnOk result (registers.new ≡ with_footprint registers.old r (joined (footprint_at registers.old r) (writes (cell_at to 0)))) }
{
    match to {
        Some(at) => registers.write(
            r,
            CellName {
                block: at.block,
                offset: u128::from(at.offset),
            },
        ),
        None => Ok(()),
    }
}
