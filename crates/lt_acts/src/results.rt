//! Nodes that compute a value.

ghost use Rattle.std.specs.Prelude.{◌≡◌, List, ℕ, Option};
ghost use Rattle.lt_model.specs.Memory.{Block};
ghost use Rattle.lt_ir.specs.declared.graph.Graph.{Graph as Held};
ghost use Rattle.lt_ir.specs.declared.code.Code.{Code as HeldCode};
ghost use Rattle.lt_ir.specs.declared.node.Node.TheVariants.{Move as MoveNode, Subtract as SubtractNode, Apply as ApplyNode, Compare as CompareNode, Constant as ConstantNode};
ghost use Rattle.lt_ir.specs.Graph.{moves};
ghost use Rattle.lt_acts.specs.Acts.{Acts, Reads};

use crate::computing::{applied, compared, counted, member_at, moved};
use crate::flow::{Fault, Stop};
use crate::operands::{address_in, held};
use lt_ir::Movement;
use lt_mach_parts::Registers;
use lt_mem::Memory;
use lt_model::{Content, DataModel, Op, Scalar};

/// A constant.
pub fn constant(registers: &mut Registers, to: u32, content: Content, is_kept: bool)
    ensures { (m : List Block) (g : Held) (code : Option HeldCode) (next : ℕ) → Acts g code (ConstantNode to content is_kept next) next registers.old m (Ok tt) registers.new m }
{
    if is_kept {
        registers.put(to, content);
    } else {
        registers.set(to, content);
    }
}

// An address moved.
fn moves(
    memory: &Memory,
    registers: &Registers,
    by: Movement,
    pointer: Content,
) -> Result<Content, Fault>
    ensures { Reads (moves registers.now by pointer) memory.now.blocks result }
{
    match by {
        Movement::Elements { count, op, size } => {
            let n = held(registers, count)?;
            let to = moved(memory, op, size, pointer, n)?;
            Ok(Content::Address(to))
        }
        Movement::Member { offset } => {
            let at = address_in(pointer)?;
            let to = member_at(memory, offset, at)?;
            Ok(Content::Address(to))
        }
    }
}

/// An address moves.
pub fn move_address(
    memory: &Memory,
    registers: &mut Registers,
    to: u32,
    pointer: u32,
    by: Movement,
) -> Result<(), Stop>
    ensures { (g : Held) (code : Option HeldCode) (next : ℕ) → Acts g code (MoveNode to pointer by next) next registers.old memory.now.blocks result registers.new memory.now.blocks }
{
    let from = held(registers, pointer)?;
    let moved = moves(memory, registers, by, from)?;
    registers.put(to, moved);
    Ok(())
}

/// The distance of two addresses.
pub fn subtract(
    memory: &Memory,
    registers: &mut Registers,
    to: u32,
    left: u32,
    right: u32,
    size: u64,
) -> Result<(), Stop>
    ensures { (g : Held) (code : Option HeldCode) (next : ℕ) → Acts g code (SubtractNode to left right size next) next registers.old memory.now.blocks result registers.new memory.now.blocks }
{
    let a = held(registers, left)?;
    let b = held(registers, right)?;
    let z = counted(memory, size, a, b)?;
    registers.put(to, Content::Number(z));
    Ok(())
}

/// An operator on two numbers.
pub fn apply_to(
    model: DataModel,
    registers: &mut Registers,
    to: u32,
    left: u32,
    right: u32,
    op: Op,
    ty: Scalar,
) -> Result<(), Stop>
    ensures { (m : List Block) (g : Held) (code : Option HeldCode) (next : ℕ) → g.model ≡ model → Acts g code (ApplyNode to left right op ty next) next registers.old m result registers.new m }
{
    let a = held(registers, left)?;
    let b = held(registers, right)?;
    let z = applied(model, op, ty, a, b)?;
    registers.put(to, Content::Number(z));
    Ok(())
}

/// A relation of two addresses.
pub fn compare(
    memory: &Memory,
    registers: &mut Registers,
    to: u32,
    left: u32,
    right: u32,
    op: Op,
) -> Result<(), Stop>
    ensures { (g : Held) (code : Option HeldCode) (next : ℕ) → Acts g code (CompareNode to left right op next) next registers.old memory.now.blocks result registers.new memory.now.blocks }
{
    let a = held(registers, left)?;
    let b = held(registers, right)?;
    let is_so = compared(memory, op, a, b)?;
    registers.put(to, Content::Number(i128::from(is_so)));
    Ok(())
}
