//! What registers have, as operands of nodes.

ghost use Rattle.std.specs.Prelude.{◌≡◌, ◌↔◌, IsTrue, List, ℕ};
ghost use Rattle.lt_model.specs.Memory.{Block};
ghost use Rattle.lt_mem.specs.Calls.{IsOfType};
ghost use Rattle.lt_ir.specs.Evaluation.{is_content_of, address_in, number_in, truth_in, used};
ghost use Rattle.lt_ir.specs.Graph.{content_at};
ghost use Rattle.lt_acts.specs.Acts.{address_at, value_at, number_at, Reads};

use crate::flow::Fault;
use lt_mach_parts::Registers;
use lt_mem::Memory;
use lt_model::{Address, CellType, Content, DataModel, Ub, is_value};

// What a register has.
pub fn held(registers: &Registers, r: u32) -> Result<Content, Fault>
    ensures { (m : List Block) → Reads (content_at registers.now r) m result }
{
    match registers.content(r) {
        None => Err(Fault::Absurd),
        Some(held) => Ok(held),
    }
}

// The address that a register has.
pub fn address(registers: &Registers, r: u32) -> Result<Option<Address>, Fault>
    ensures { (m : List Block) → Reads (address_at registers.now r) m result }
{
    match registers.content(r) {
        Some(Content::Address(at)) => Ok(at),
        Some(Content::Unset) => Err(Fault::Undefined(Ub::NoValue)),
        _ => Err(Fault::Absurd),
    }
}

// What a register has that is used.
pub fn value(registers: &Registers, r: u32) -> Result<Content, Fault>
    ensures { (m : List Block) → Reads (value_at registers.now r) m result }
{
    match registers.content(r) {
        None => Err(Fault::Absurd),
        Some(Content::Unset) => Err(Fault::Undefined(Ub::NoValue)),
        Some(held) => Ok(held),
    }
}

pub fn address_in(held: Content) -> Result<Option<Address>, Fault>
    ensures { (m : List Block) → Reads (address_in held) m result }
{
    match held {
        Content::Address(at) => Ok(at),
        Content::Unset => Err(Fault::Undefined(Ub::NoValue)),
        Content::Number(_) => Err(Fault::Absurd),
    }
}

pub fn number_in(held: Content) -> Result<i128, Fault>
    ensures { (m : List Block) → Reads (number_in held) m result }
{
    match held {
        Content::Number(z) => Ok(z),
        Content::Unset => Err(Fault::Undefined(Ub::NoValue)),
        Content::Address(_) => Err(Fault::Absurd),
    }
}

pub fn used(held: Content) -> Result<Content, Fault>
    ensures { (m : List Block) → Reads (used held) m result }
{
    match held {
        Content::Unset => Err(Fault::Undefined(Ub::NoValue)),
        Content::Number(_) | Content::Address(_) => Ok(held),
    }
}

// Whether a scalar isn't 0 or null.
pub fn truth_in(memory: &Memory, held: Content) -> Result<bool, Fault>
    ensures { Reads (truth_in held) memory.now.blocks result }
{
    match held {
        Content::Unset => Err(Fault::Undefined(Ub::NoValue)),
        Content::Number(z) => Ok(z != 0),
        Content::Address(None) => Ok(false),
        Content::Address(Some(at)) => {
            if memory.is_alive(at.block) {
                Ok(true)
            } else {
                Err(Fault::Undefined(Ub::Ended))
            }
        }
    }
}

// Whether a content is one of a type.
pub fn is_content_of(model: DataModel, ty: CellType, held: Content) -> bool
    ensures is { result ≡ is_content_of model ty held }
    ensures means { IsTrue result ↔ IsOfType model ty held }
{
    match (ty, held) {
        (CellType::Num(s), Content::Number(z)) => is_value(model, s, z),
        (CellType::Pointer(_), Content::Address(_)) => true,
        _ => false,
    }
}
