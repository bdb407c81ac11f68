//! Nodes that go one way or another.

ghost use Rattle.std.specs.Prelude.{◌≡◌, List, ℕ};
ghost use Rattle.lt_model.specs.Memory.{Block};
ghost use Rattle.lt_ir.specs.Tables.{arm_of, IsAscending};
ghost use Rattle.lt_acts.specs.Acts.{number_at, truth_at, Reads};

use crate::flow::Fault;
use crate::operands::{held, number_in, truth_in};
use lt_ir::Arm;
use lt_mach_parts::Registers;
use lt_mem::Memory;

/// Whether what a register has isn't 0 or null.
pub fn truth(memory: &Memory, registers: &Registers, r: u32) -> Result<bool, Fault>
    ensures { Reads (truth_at registers.now r) memory.now.blocks result }
{
    let content = held(registers, r)?;
    truth_in(memory, content)
}

/// The number that a register has.
pub fn number(registers: &Registers, r: u32) -> Result<i128, Fault>
    ensures { (m : List Block) → Reads (number_at registers.now r) m result }
{
    let content = held(registers, r)?;
    number_in(content)
}
