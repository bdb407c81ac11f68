//! What pure expressions give. They read and compute.

ghost use Rattle.std.specs.Prelude.{◌≡◌};
ghost use Rattle.lt_model.specs.declared.cell.Content.TheVariants.{Unset};
ghost use Rattle.lt_ir.specs.Pure.{look, look_from};
ghost use Rattle.lt_ir.specs.PureView.{pure_of};
ghost use Rattle.lt_acts.specs.Acts.{Reads};
ghost use Rattle.lt_acts.specs.Placing.{ReadsIn};
ghost use Rattle.lt_acts.specs.Looking.{pures_in};
ghost use Rattle.lt_acts.specs.Values.{loaded_value, moved_value, member_value, counted_value, applied_value, compared_value};

use crate::computing::{applied, compared, counted, member_at, moved};
use crate::converting::convert_as;
use crate::flow::Fault;
use crate::operands::{address_in, truth_in};
use crate::placing::place;
use lt_ir::Pure;
use lt_mach_parts::Scope;
use lt_mem::Memory;
use lt_model::{CellType, Content, Op, Scalar};

// What lies at an address.
fn loaded(memory: &Memory, ty: CellType, pointer: Content) -> Result<Content, Fault>
    ensures { Reads (loaded_value memory.now.model ty pointer) memory.now.blocks result }
{
    let at = address_in(pointer)?;
    match memory.load(at, ty) {
        Ok(content) => Ok(content),
        Err(kind) => Err(Fault::Undefined(kind)),
    }
}

fn moved_value(
    memory: &Memory,
    op: Op,
    size: u64,
    pointer: Content,
    count: Content,
) -> Result<Content, Fault>
    ensures { Reads (moved_value op size pointer count) memory.now.blocks result }
{
    Ok(Content::Address(moved(memory, op, size, pointer, count)?))
}

fn member_value(memory: &Memory, offset: u64, pointer: Content) -> Result<Content, Fault>
    ensures { Reads (member_value offset pointer) memory.now.blocks result }
{
    let at = address_in(pointer)?;
    Ok(Content::Address(member_at(memory, offset, at)?))
}

fn counted_value(
    memory: &Memory,
    size: u64,
    left: Content,
    right: Content,
) -> Result<Content, Fault>
    ensures { Reads (counted_value size left right) memory.now.blocks result }
{
    Ok(Content::Number(counted(memory, size, left, right)?))
}

fn applied_value(
    memory: &Memory,
    op: Op,
    ty: Scalar,
    left: Content,
    right: Content,
) -> Result<Content, Fault>
    ensures { Reads (applied_value memory.now.model op ty left right) memory.now.blocks result }
{
    Ok(Content::Number(applied(memory.model(), op, ty, left, right)?))
}

fn compared_value(memory: &Memory, op: Op, left: Content, right: Content) -> Result<Content, Fault>
    ensures { Reads (compared_value op left right) memory.now.blocks result }
{
    let is_so = compared(memory, op, left, right)?;
    Ok(Content::Number(i128::from(is_so)))
}

/// What a pure expression gives.
#[cycle(look)]
pub fn look(scope: &Scope, memory: &Memory, it: &Pure) -> Result<Content, Fault>
    ensures { ReadsIn (look memory.now.model (pure_of it.now)) scope.now memory.now.blocks result }
{
    match it {
        Pure::Never => Err(Fault::Absurd),
        Pure::Fixed(content) => Ok(*content),
        Pure::Place(v) => Ok(Content::Address(place(scope, memory, *v)?)),
        Pure::Load(ty, pointer) => {
            let at = look(scope, memory, pointer)?;
            loaded(memory, *ty, at)
        }
        Pure::Convert(how, operand) => {
            let content = look(scope, memory, operand)?;
            convert_as(memory, memory.model(), *how, content)
        }
        Pure::Apply(op, ty, left, right) => {
            let a = look(scope, memory, left)?;
            let b = look(scope, memory, right)?;
            applied_value(memory, *op, *ty, a, b)
        }
        Pure::Move {
            op,
            size,
            pointer,
            count,
        } => {
            let a = look(scope, memory, pointer)?;
            let b = look(scope, memory, count)?;
            moved_value(memory, *op, *size, a, b)
        }
        Pure::Member { offset, pointer } => {
            let at = look(scope, memory, pointer)?;
            member_value(memory, *offset, at)
        }
        Pure::Distance { size, left, right } => {
            let a = look(scope, memory, left)?;
            let b = look(scope, memory, right)?;
            counted_value(memory, *size, a, b)
        }
        Pure::Compare(op, left, right) => {
            let a = look(scope, memory, left)?;
            let b = look(scope, memory, right)?;
            compared_value(memory, *op, a, b)
        }
        Pure::Choose(test, on, off) => {
            let content = look(scope, memory, test)?;
            match truth_in(memory, content) {
                Ok(true) => look(scope, memory, on),
                Ok(false) => look(scope, memory, off),
                Err(fault) => Err(fault),
            }
        }
        Pure::Comma(parts) => look_all(scope, memory, parts.as_slice()),
    }
}

// One after the other; the last one's value.
#[cycle(look)]
fn look_all(scope: &Scope, memory: &Memory, parts: &[Pure]) -> Result<Content, Fault>
    ensures { ReadsIn (look_from memory.now.model Unset (pures_in parts.now)) scope.now memory.now.blocks result }
{
    let mut content = Content::Unset;
    for part in parts {
        match look(scope, memory, part) {
            Ok(next) => content = next,
            Err(fault) => return Err(fault),
        }
    }
    Ok(content)
}
