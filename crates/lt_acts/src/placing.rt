//! Nodes that look up variables: their addresses, and where their objects begin and end.

ghost use Rattle.std.specs.Prelude.{◌≡◌, false};
ghost use Rattle.lt_ir.specs.declared.node.Node.TheVariants.{Address as AddressNode, Seal as SealNode, End as EndNode};
ghost use Rattle.lt_ir.specs.Running.{block_among, if_living, is_static, place, begins, seals};
ghost use Rattle.lt_ir.specs.Graph.{shape_at};
ghost use Rattle.lt_acts.specs.Placing.{ReadsIn, Changes, PutsIn, DoesIn, CreatesIn};

use crate::flow::{Fault, Stop};
use lt_ir::Variable;
use lt_mach_parts::{Registers, Scope};
use lt_mem::Memory;
use lt_model::{Address, Content, Sequence, Shape};
use std::alloc::Global;

// The block of a variable, if its lifetime lasts.
#[tactic(auto, using(crate::proofs::Alive::alive_is))]
fn living_block(scope: &Scope, memory: &Memory, v: Variable) -> Option<u32>
    ensures { result ≡ if_living memory.now.blocks (block_among scope.now v) }
{
    match scope.block(v) {
        Some(block) if memory.is_alive(block) => Some(block),
        _ => None,
    }
}

/// Where a variable lies.
pub fn place(scope: &Scope, memory: &Memory, v: Variable) -> Result<Option<Address>, Fault>
    ensures { ReadsIn (place v) scope.now memory.now.blocks result }
{
    match living_block(scope, memory, v) {
        Some(block) => Ok(Some(Address { block, offset: 0 })),
        None => Err(Fault::Absurd),
    }
}

/// The address of a variable.
pub fn address_of(
    scope: &Scope,
    memory: &Memory,
    registers: &mut Registers,
    to: u32,
    v: Variable,
) -> Result<(), Stop>
    ensures { PutsIn (AddressNode to v) registers.old scope.now memory.now.blocks result registers.new }
{
    let at = place(scope, memory, v)?;
    registers.set(to, Content::Address(at));
    Ok(())
}

/// A variable of a call begins; one that lives can't.
pub fn begin(
    scope: &mut Scope,
    memory: &mut Memory,
    v: Variable,
    shape: &Shape,
    is_zeroed: bool,
) -> Result<(), Stop>
    requires { is_static v ≡ false }
    ensures begins { Changes (begins v shape.now is_zeroed) scope.old memory.old.blocks result scope.new memory.new.blocks }
    ensures model { memory.new.model ≡ memory.old.model }
{
    if living_block(scope, memory, v).is_some() {
        return Err(Stop::Over(Fault::Absurd));
    }
    let block = memory.create(shape, is_zeroed, true)?;
    scope.bind(v, block)?;
    Ok(())
}

/// A local object begins whose shape stands at a place of a function's table.
pub fn create(
    alloc: Global,
    scope: &mut Scope,
    memory: &mut Memory,
    locals: &[Shape],
    local: u32,
    is_zeroed: bool,
) -> Result<(), Stop>
    ensures acts { CreatesIn locals.now local is_zeroed scope.old memory.old.blocks result scope.new memory.new.blocks }
    ensures model { memory.new.model ≡ memory.old.model }
{
    let v = Variable::Local(local);
    match locals.get(local as usize) {
        Some(shape) => begin(scope, memory, v, shape, is_zeroed),
        None => {
            let none = Shape {
                cells: Sequence::new(Vec::new(alloc)),
                size: 0,
            };
            begin(scope, memory, v, &none, is_zeroed)
        }
    }
}

/// A variable can't be written from now on.
pub fn seal(scope: &Scope, memory: &mut Memory, v: Variable) -> Result<(), Stop>
    ensures seals { Changes (seals v) scope.now memory.old.blocks result scope.now memory.new.blocks }
    ensures acts { DoesIn (SealNode v) scope.now memory.old.blocks result scope.now memory.new.blocks }
    ensures model { memory.new.model ≡ memory.old.model }
{
    let Some(block) = living_block(scope, memory, v) else {
        return Err(Stop::Over(Fault::Absurd));
    };
    memory.seal(block);
    Ok(())
}

/// A variable's lifetime is over.
pub fn end(scope: &mut Scope, memory: &mut Memory, v: Variable) -> Result<(), Stop>
    ensures acts { DoesIn (EndNode v) scope.old memory.old.blocks result scope.new memory.new.blocks }
    ensures model { memory.new.model ≡ memory.old.model }
{
    let Some(block) = living_block(scope, memory, v) else {
        return Err(Stop::Over(Fault::Absurd));
    };
    memory.end(block);
    scope.remove(v)?;
    Ok(())
}
