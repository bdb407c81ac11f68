//! Clash nodes: what happens to footprints alone.

ghost use Rattle.std.specs.Prelude.{◌≡◌, ◌+◌, ◌∷◌, [], List, ℕ, Option, Some, OnOk};
ghost use Rattle.lt_model.specs.State.{joined, meets};
ghost use Rattle.lt_ir.specs.declared.graph.Graph.{Graph as Held};
ghost use Rattle.lt_ir.specs.declared.code.Code.{Code as HeldCode};
ghost use Rattle.lt_ir.specs.Evaluation.{cells_met, is_met, further, reads, lies_at};
ghost use Rattle.lt_ir.specs.Graph.{with_footprint, footprint_at, shape_at, cells_of, structs_of};
ghost use Rattle.lt_ir.specs.declared.node.Node.TheVariants.{Clash as ClashNode};
ghost use Rattle.lt_acts.specs.Acts.{Acts, Reads};
ghost use Rattle.lt_acts.specs.Noting.{noted, target};

use crate::flow::{Fault, Stop};
use crate::operands::{address, held};
use lt_ir::{Access, Parts};
use lt_mach_parts::{CellName, Registers};
use lt_mem::Memory;
use lt_model::{Address, Content, Shape, ShapeCell, Ub};
use std::alloc::AllocError;

/// Whether cells are read or written.
#[derive(Clone, Copy)]
pub enum Side {
    Read,
    Written,
}

fn note(registers: &mut Registers, r: u32, cell: CellName, side: Side) -> Result<(), AllocError>
    ensures { OnOk result (registers.new ≡ with_footprint registers.old r (joined (footprint_at registers.old r) (noted side (record { block = cell.block; offset = cell.offset } ∷ [])))) }
{
    match side {
        Side::Read => registers.read(r, cell),
        Side::Written => registers.write(r, cell),
    }
}

// Whether an access to a cell of a shape that lies there meets a cell.
#[tactic(auto, using(crate::proofs::Noted::met_is))]
fn is_met(memory: &Memory, at: Address, cell: ShapeCell) -> bool
    ensures { result ≡ is_met memory.now.blocks (further cell.offset (Some at)) cell.ty }
{
    memory.meets(Some(at), cell.offset, cell.ty)
}

fn name(at: Address, cell: ShapeCell) -> CellName
    ensures { result ≡ record { block = at.block; offset = at.offset + cell.offset } }
{
    CellName {
        block: at.block,
        offset: u128::from(at.offset) + u128::from(cell.offset),
    }
}

/// The cells of an access that lies there, of those that it meets, come to a register's footprint.
pub fn note_all(
    memory: &Memory,
    registers: &mut Registers,
    r: u32,
    at: Address,
    cells: &[ShapeCell],
    side: Side,
) -> Result<(), AllocError>
    ensures { OnOk result (registers.new ≡ with_footprint registers.old r (joined (footprint_at registers.old r) (noted side (cells_met cells.now (Some at) memory.now.blocks)))) }
{
    for cell in cells {
        if is_met(memory, at, *cell) {
            note(registers, r, name(at, *cell), side)?;
        }
    }
    Ok(())
}

/// Whether one of the cells of an access that lies there was written beside a register's content, with no sequence point since.
pub fn are_pending(
    memory: &Memory,
    registers: &Registers,
    r: u32,
    at: Address,
    cells: &[ShapeCell],
) -> bool
    ensures { result ≡ meets (cells_met cells.now (Some at) memory.now.blocks) (footprint_at registers.now r).pending }
{
    for cell in cells {
        if is_met(memory, at, *cell) && registers.is_pending(r, name(at, *cell)) {
            return true;
        }
    }
    false
}

// The cells of the shape at a place of a function's table.
fn shape_cells(structs: &[Shape], k: u32) -> &[ShapeCell]
    ensures { result.now ≡ (shape_at structs.now k).cells }
{
    match structs.get(k as usize) {
        Some(shape) => shape.cells.as_slice(),
        None => &[],
    }
}

// The cells of an access come to a register's footprint.
fn note_access(
    memory: &Memory,
    registers: &mut Registers,
    r: u32,
    at: Address,
    structs: &[Shape],
    access: Access,
) -> Result<(), AllocError>
    ensures { OnOk result (registers.new ≡ with_footprint registers.old r (joined (footprint_at registers.old r) (reads (cells_met (cells_of structs.now access) (Some at) memory.now.blocks)))) }
{
    match access {
        Access::Scalar(ty) => note_all(
            memory,
            registers,
            r,
            at,
            &[ShapeCell { offset: 0, ty }],
            Side::Read,
        ),
        Access::Struct(k) => note_all(
            memory,
            registers,
            r,
            at,
            shape_cells(structs, k),
            Side::Read,
        ),
    }
}

// Whether a cell of an access was written beside a register's content, with no sequence point since.
fn is_pending(
    memory: &Memory,
    registers: &Registers,
    r: u32,
    at: Address,
    structs: &[Shape],
    access: Access,
) -> bool
    ensures { result ≡ meets (cells_met (cells_of structs.now access) (Some at) memory.now.blocks) (footprint_at registers.now r).pending }
{
    match access {
        Access::Scalar(ty) => {
            are_pending(memory, registers, r, at, &[ShapeCell { offset: 0, ty }])
        }
        Access::Struct(k) => are_pending(memory, registers, r, at, shape_cells(structs, k)),
    }
}

// Where a struct lies that is a value.
fn lies_at(held: Content) -> Option<Address>
    ensures { result ≡ lies_at held }
{
    match held {
        Content::Address(at) => at,
        Content::Unset | Content::Number(_) => None,
    }
}

// The cells of a struct are read that lies where a content says, if it is an address.
#[tactic(auto, using(crate::proofs::Noted::nothing_read))]
fn note_value(
    memory: &Memory,
    registers: &mut Registers,
    r: u32,
    structs: &[Shape],
    access: Access,
    held: Content,
) -> Result<(), AllocError>
    ensures { OnOk result (registers.new ≡ with_footprint registers.old r (joined (footprint_at registers.old r) (reads (cells_met (cells_of structs.now access) (lies_at held) memory.now.blocks)))) }
{
    match lies_at(held) {
        Some(at) => note_access(memory, registers, r, at, structs, access),
        None => Ok(()),
    }
}

/// What a clash node does.
pub fn part(
    memory: &Memory,
    registers: &mut Registers,
    structs: &[Shape],
    parts: Parts,
) -> Result<(), Stop>
    ensures { (g : Held) (code : Option HeldCode) (next : ℕ) → structs_of code ≡ structs.now → Acts g code (ClashNode parts next) next registers.old memory.now.blocks result registers.new memory.now.blocks }
{
    match parts {
        Parts::Unsequenced { left, right } => {
            if registers.clash(left, right) {
                return Err(Stop::Over(Fault::Undefined(Ub::Unsequenced)));
            }
            registers.join(left, right)?;
        }
        Parts::Sequenced { left, right } => registers.join(left, right)?,
        Parts::Settled { register } => registers.settle(register)?,
        Parts::Read { register, access } => {
            let content = held(registers, register)?;
            note_value(memory, registers, register, structs, access, content)?;
        }
        Parts::Target { register, access } => {
            return match target(memory, registers, structs, register, access) {
                Ok(()) => Ok(()),
                Err(fault) => Err(Stop::Over(fault)),
            };
        }
    }
    Ok(())
}

// The target of a side effect clashes with the pending writes of its operands.
#[tactic(auto, using(crate::proofs::Noted::nothing_met))]
fn target(
    memory: &Memory,
    registers: &Registers,
    structs: &[Shape],
    r: u32,
    access: Access,
) -> Result<(), Fault>
    ensures { Reads (target structs.now registers.now r access) memory.now.blocks result }
{
    let Some(at) = address(registers, r)? else {
        return Ok(());
    };
    if is_pending(memory, registers, r, at, structs, access) {
        return Err(Fault::Undefined(Ub::Unsequenced));
    }
    Ok(())
}
