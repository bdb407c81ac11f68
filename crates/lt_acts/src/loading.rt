//! Nodes that read from memory.

ghost use Rattle.std.specs.Prelude.{◌≡◌, ◌∷◌, [], List, ℕ, Option, OnOk};
ghost use Rattle.lt_model.specs.State.{joined};
ghost use Rattle.lt_ir.specs.declared.graph.Graph.{Graph as Held};
ghost use Rattle.lt_ir.specs.declared.code.Code.{Code as HeldCode};
ghost use Rattle.lt_ir.specs.declared.node.Node.TheVariants.{Load as LoadNode};
ghost use Rattle.lt_ir.specs.Evaluation.{cell_at, reads};
ghost use Rattle.lt_ir.specs.Graph.{with_footprint, footprint_at};
ghost use Rattle.lt_acts.specs.Acts.{Acts};

use crate::flow::Stop;
use crate::operands::address;
use lt_mach_parts::{CellName, Registers};
use lt_mem::Memory;
use lt_model::{Address, CellType};
use std::alloc::AllocError;

// The cell at an address was read.
fn note_read(registers: &mut Registers, r: u32, from: Option<Address>) -> Result<(), AllocError>
    ensures { OnOk result (registers.new ≡ with_footprint registers.old r (joined (footprint_at registers.old r) (reads (cell_at from 0)))) }
{
    match from {
        Some(at) => registers.read(
            r,
            CellName {
                block: at.block,
                offset: u128::from(at.offset),
            },
        ),
        None => Ok(()),
    }
}

/// A scalar comes from memory.
pub fn load(
    memory: &Memory,
    registers: &mut Registers,
    to: u32,
    from: u32,
    ty: CellType,
    tracks: bool,
) -> Result<(), Stop>
    ensures { (g : Held) (code : Option HeldCode) (next : ℕ) → g.model ≡ memory.now.model → Acts g code (LoadNode to from ty tracks next) next registers.old memory.now.blocks result registers.new memory.now.blocks }
{
    let at = address(registers, from)?;
    let held = memory.load(at, ty)?;
    if tracks {
        note_read(registers, from, at)?;
    }
    registers.put(to, held);
    Ok(())
}
