//! Operators on numbers and addresses.

ghost use Rattle.std.specs.Prelude.{◌≡◌, ◌↔◌, IsTrue, List, ℕ};
ghost use Rattle.std.specs.Bool.{OnTrue};
ghost use Rattle.lt_model.specs.Memory.{Block};
ghost use Rattle.lt_model.specs.Operators.{IsRightOperand};
ghost use Rattle.lt_ir.specs.Evaluation.{is_integer, is_right_operand, signed_count, moved, member_at, applied, counted, compared};
ghost use Rattle.lt_acts.specs.Acts.{Reads};

use crate::flow::Fault;
use crate::operands::{address_in, number_in};
use lt_mem::Memory;
use lt_model::{Address, Content, DataModel, Op, Scalar, Ub, apply, is_value};

// Whether some integer type has a number.
pub fn is_integer(z: i128) -> bool
    ensures { result ≡ is_integer z }
{
    -9_223_372_036_854_775_808 <= z && z <= 18_446_744_073_709_551_615
}

fn signed_count(op: Op, z: i128) -> i128
    requires { IsTrue (is_integer z) }
    ensures { result ≡ signed_count op z }
{
    match op {
        Op::Sub => -z,
        _ => z,
    }
}

// The right operand has a value of the operation's type; that of a shift may have one of any type.
fn is_right_operand(model: DataModel, op: Op, ty: Scalar, z: i128) -> bool
    ensures is { result ≡ is_right_operand model op ty z }
    ensures means { OnTrue result (IsRightOperand model op ty z) }
{
    match op {
        Op::Shl => is_integer(z),
        Op::Shr => is_integer(z),
        _ => is_value(model, ty, z),
    }
}

/// A pointer moved by a number of elements.
pub fn moved(
    memory: &Memory,
    op: Op,
    size: u64,
    pointer: Content,
    count: Content,
) -> Result<Option<Address>, Fault>
    ensures { Reads (moved op size pointer count) memory.now.blocks result }
{
    let at = address_in(pointer)?;
    let n = number_in(count)?;
    if !is_integer(n) {
        return Err(Fault::Absurd);
    }
    match memory.move_by(at, signed_count(op, n), size) {
        Ok(to) => Ok(to),
        Err(kind) => Err(Fault::Undefined(kind)),
    }
}

/// The address of a member: null has none.
pub fn member_at(
    memory: &Memory,
    offset: u64,
    at: Option<Address>,
) -> Result<Option<Address>, Fault>
    ensures { Reads (member_at offset at) memory.now.blocks result }
{
    if at.is_none() {
        return Err(Fault::Undefined(Ub::Null));
    }
    match memory.move_by(at, 1, offset) {
        Ok(to) => Ok(to),
        Err(kind) => Err(Fault::Undefined(kind)),
    }
}

/// An operator on two numbers.
pub fn applied(
    model: DataModel,
    op: Op,
    ty: Scalar,
    left: Content,
    right: Content,
) -> Result<i128, Fault>
    ensures { (m : List Block) → Reads (applied model op ty left right) m result }
{
    let a = number_in(left)?;
    let b = number_in(right)?;
    if !is_value(model, ty, a) || !is_right_operand(model, op, ty, b) {
        return Err(Fault::Absurd);
    }
    match apply(model, op, ty, a, b) {
        Ok(z) => Ok(z),
        Err(kind) => Err(Fault::Undefined(kind)),
    }
}

/// The distance of two addresses.
pub fn counted(memory: &Memory, size: u64, left: Content, right: Content) -> Result<i128, Fault>
    ensures { Reads (counted size left right) memory.now.blocks result }
{
    let a = address_in(left)?;
    let b = address_in(right)?;
    match memory.subtract(a, b, size) {
        Ok(z) => Ok(z),
        Err(kind) => Err(Fault::Undefined(kind)),
    }
}

/// A relation of two addresses.
pub fn compared(memory: &Memory, op: Op, left: Content, right: Content) -> Result<bool, Fault>
    ensures { Reads (compared op left right) memory.now.blocks result }
{
    let a = address_in(left)?;
    let b = address_in(right)?;
    match memory.compare(op, a, b) {
        Ok(b) => Ok(b),
        Err(kind) => Err(Fault::Undefined(kind)),
    }
}
