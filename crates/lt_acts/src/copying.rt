//! Nodes that copy structs.

ghost use Rattle.std.specs.Prelude.{◌≡◌, List, ℕ, Option, OnOk};
ghost use Rattle.lt_model.specs.State.{joined};
ghost use Rattle.lt_ir.specs.declared.graph.Graph.{Graph as Held};
ghost use Rattle.lt_ir.specs.declared.code.Code.{Code as HeldCode};
ghost use Rattle.lt_ir.specs.declared.node.Node.TheVariants.{Copy as CopyNode};
ghost use Rattle.lt_ir.specs.Evaluation.{cells_met, writes};
ghost use Rattle.lt_ir.specs.Graph.{with_footprint, footprint_at, shape_at, structs_of};
ghost use Rattle.lt_acts.specs.Acts.{Acts};

use crate::flow::Stop;
use crate::operands::address;
use crate::tracking::{Side, note_all};
use lt_mach_parts::Registers;
use lt_mem::Memory;
use lt_model::{Address, Content, Sequence, Shape, ShapeCell};
use std::alloc::{AllocError, Global};

// The cells of a struct that lies there are written.
#[tactic(auto, using(crate::proofs::Noted::nothing_written))]
fn note_written(
    memory: &Memory,
    registers: &mut Registers,
    r: u32,
    to: Option<Address>,
    cells: &[ShapeCell],
) -> Result<(), AllocError>
    ensures { OnOk result (registers.new ≡ with_footprint registers.old r (joined (footprint_at registers.old r) (writes (cells_met cells.now to memory.now.blocks)))) }
{
    match to {
        Some(at) => note_all(memory, registers, r, at, cells, Side::Written),
        None => Ok(()),
    }
}

// A struct of a shape is copied.
fn copy_shape(
    memory: &mut Memory,
    registers: &mut Registers,
    place: u32,
    from: u32,
    shape: &Shape,
    tracks: bool,
) -> Result<(), Stop>
    ensures acts { (g : Held) (code : Option HeldCode) (k next : ℕ) → g.model ≡ memory.old.model → shape_at (structs_of code) k ≡ shape.now → Acts g code (CopyNode place from k tracks next) next registers.old memory.old.blocks result registers.new memory.new.blocks }
    ensures model { memory.new.model ≡ memory.old.model }
{
    let to = address(registers, place)?;
    let source = address(registers, from)?;
    if tracks {
        note_written(memory, registers, place, to, shape.cells.as_slice())?;
    }
    memory.copy_struct(to, source, shape)?;
    registers.put(place, Content::Address(to));
    Ok(())
}

/// A struct is copied whose shape stands at a place of a function's table.
pub fn copy(
    alloc: Global,
    memory: &mut Memory,
    registers: &mut Registers,
    structs: &[Shape],
    place: u32,
    from: u32,
    shape: u32,
    tracks: bool,
) -> Result<(), Stop>
    ensures acts { (g : Held) (code : Option HeldCode) (next : ℕ) → g.model ≡ memory.old.model → structs_of code ≡ structs.now → Acts g code (CopyNode place from shape tracks next) next registers.old memory.old.blocks result registers.new memory.new.blocks }
    ensures model { memory.new.model ≡ memory.old.model }
{
    match structs.get(shape as usize) {
        Some(found) => copy_shape(memory, registers, place, from, found, tracks),
        None => {
            let none = Shape {
                cells: Sequence::new(Vec::new(alloc)),
                size: 0,
            };
            copy_shape(memory, registers, place, from, &none, tracks)
        }
    }
}
