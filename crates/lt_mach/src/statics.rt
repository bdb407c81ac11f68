//! Objects that are there from the start, and the named objects of an input.

ghost use Rattle.std.specs.Prelude.{◌≡◌, true, if◌then◌else◌};
ghost use Rattle.lt_ir.specs.declared.variable.Variable.TheVariants.{Static as StaticObject};
ghost use Rattle.lt_ir.specs.Running.{gives, seals};
ghost use Rattle.lt_ir.specs.Starting.{fill, start_static, start_statics, seal_statics};
ghost use Rattle.lt_ir.specs.Graph.{are_static};
ghost use Rattle.lt_acts.specs.Placing.{Changes};
ghost use Rattle.lt_mach.specs.Parameters.{Stores};

use crate::finding::content_at;
use crate::parameters::put;
use lt_acts::{Stop, seal};
use lt_ir::{Static, Variable};
use lt_mach_parts::{Bounds, Scope};
use lt_mem::Memory;
use lt_model::{Address, Content, ShapeCell};

// The cells of a block get contents.
fn fill(
    memory: &mut Memory,
    block: u32,
    cells: &[ShapeCell],
    contents: &[Content],
) -> Result<(), Stop>
    ensures fills { Stores (fill memory.old.model block cells.now contents.now) memory.old.blocks result memory.new.blocks }
    ensures model { memory.new.model ≡ memory.old.model }
{
    for (k, cell) in cells.iter().enumerate() {
        let Some(content) = content_at(contents, k) else {
            return Ok(());
        };
        let offset = cell.offset;
        put(memory, Some(Address { block, offset }), cell.ty, content)?;
    }
    Ok(())
}

// The object of a number is there, with what its cells hold then.
fn start_static(
    statics: &mut Bounds,
    memory: &mut Memory,
    number: u32,
    it: &Static,
) -> Result<(), Stop>
    ensures starts { Changes (start_static memory.old.model number it.now) statics.old memory.old.blocks result statics.new memory.new.blocks }
    ensures model { memory.new.model ≡ memory.old.model }
    ensures remain { are_static statics.old ≡ true → are_static statics.new ≡ true }
{
    let shape = &it.block.shape;
    let block = memory.create(shape, true, true)?;
    fill(memory, block, shape.cells.as_slice(), it.cells.as_slice())?;
    statics.bind(Variable::Static(number), block)?;
    Ok(())
}

/// The objects that are there from the start, in order.
pub fn start_statics(statics: &mut Bounds, memory: &mut Memory, list: &[Static]) -> Result<(), Stop>
    requires { are_static statics.old ≡ true }
    ensures starts { Changes (start_statics memory.old.model 0 list.now) statics.old memory.old.blocks result statics.new memory.new.blocks }
    ensures model { memory.new.model ≡ memory.old.model }
    ensures remain { are_static statics.new ≡ true }
{
    for (k, it) in list.iter().enumerate() {
        let Ok(number) = u32::try_from(k) else {
            return Err(Stop::NoMemory);
        };
        start_static(statics, memory, number, it)?;
    }
    Ok(())
}

// An object that can't be written is sealed.
fn seal_static(scope: &Scope, memory: &mut Memory, number: u32, it: &Static) -> Result<(), Stop>
    ensures seals { Changes (if it.now.writable then gives tt else seals (StaticObject number)) scope.now memory.old.blocks result scope.now memory.new.blocks }
    ensures model { memory.new.model ≡ memory.old.model }
{
    if it.writable {
        return Ok(());
    }
    seal(scope, memory, Variable::Static(number))
}

/// The objects that can't be written are sealed.
pub fn seal_statics(scope: &Scope, memory: &mut Memory, list: &[Static]) -> Result<(), Stop>
    ensures seals { Changes (seal_statics 0 list.now) scope.now memory.old.blocks result scope.now memory.new.blocks }
    ensures model { memory.new.model ≡ memory.old.model }
{
    for (k, it) in list.iter().enumerate() {
        let Ok(number) = u32::try_from(k) else {
            return Err(Stop::NoMemory);
        };
        seal_static(scope, memory, number, it)?;
    }
    Ok(())
}
