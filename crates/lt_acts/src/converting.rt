//! Contents converted.

ghost use Rattle.std.specs.Prelude.{◌≡◌, IsTrue, Option, ℕ};
ghost use Rattle.lt_ir.specs.declared.graph.Graph.{Graph as Held};
ghost use Rattle.lt_ir.specs.declared.code.Code.{Code as HeldCode};
ghost use Rattle.lt_model.specs.Scalar.{convert_of};
ghost use Rattle.lt_ir.specs.Evaluation.{is_integer};
ghost use Rattle.lt_ir.specs.Pure.{convert_as};
ghost use Rattle.lt_ir.specs.declared.node.Node.TheVariants.{Convert as ConvertNode};
ghost use Rattle.lt_acts.specs.Acts.{Acts, Reads};

use crate::computing::is_integer;
use crate::flow::{Fault, Stop};
use crate::operands::{address_in, held, number_in, truth_in, used};
use lt_ir::How;
use lt_mach_parts::Registers;
use lt_mem::Memory;
use lt_model::{Content, DataModel, Scalar, convert};

// A number that some integer type has, as one of a type.
fn converted(model: DataModel, to: Scalar, z: i128) -> i128
    requires { IsTrue (is_integer z) }
    ensures { result ≡ convert_of model to z }
{
    let from = if z < 0 { Scalar::LLong } else { Scalar::ULLong };
    convert(model, from, to, z)
}

// A number that no integer type has, as one of a type: its remainder modulo 2 ^ 64 tells all but whether it is 0.
fn reduced(model: DataModel, to: Scalar, z: i128) -> i128
    ensures { result ≡ convert_of model to z }
{
    match to {
        Scalar::Bool => i128::from(z != 0),
        _ => convert(
            model,
            Scalar::ULLong,
            to,
            z.rem_euclid(18_446_744_073_709_551_616),
        ),
    }
}

/// A content converted.
pub fn convert_as(
    memory: &Memory,
    model: DataModel,
    how: How,
    content: Content,
) -> Result<Content, Fault>
    ensures { Reads (convert_as model how content) memory.now.blocks result }
{
    match how {
        How::ToInteger(to) => {
            let z = number_in(content)?;
            let z = if is_integer(z) {
                converted(model, to, z)
            } else {
                reduced(model, to, z)
            };
            Ok(Content::Number(z))
        }
        How::ToTruth => {
            let is_so = truth_in(memory, content)?;
            Ok(Content::Number(i128::from(is_so)))
        }
        How::ToPointer => Ok(Content::Address(address_in(content)?)),
        How::ToVoid => Ok(Content::Unset),
        How::ToValue => used(content),
        How::AsItIs => Ok(content),
    }
}

/// A register gets what another one has, converted.
pub fn convert_to(
    memory: &Memory,
    registers: &mut Registers,
    to: u32,
    from: u32,
    how: How,
) -> Result<(), Stop>
    ensures { (g : Held) (code : Option HeldCode) (next : ℕ) → g.model ≡ memory.now.model → Acts g code (ConvertNode to from how next) next registers.old memory.now.blocks result registers.new memory.now.blocks }
{
    let content = held(registers, from)?;
    let converted = convert_as(memory, memory.model(), how, content)?;
    registers.put(to, converted);
    Ok(())
}
