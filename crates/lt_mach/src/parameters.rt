//! Parameters: their objects, and the values that these get.

ghost use Rattle.std.specs.Prelude.{◌≡◌};
ghost use Rattle.lt_ir.specs.Evaluation.{store_one, store_parameters};
ghost use Rattle.lt_ir.specs.Graph.{shapes_in};
ghost use Rattle.lt_acts.specs.Placing.{Changes};
ghost use Rattle.lt_mach.specs.Parameters.{begin_all, put_at, pass_to, take_all, Stores};

use lt_acts::{Fault, Stop, begin, is_content_of, place, used};
use lt_ir::Variable;
use lt_mach_parts::Scope;
use lt_mem::Memory;
use lt_model::{Address, BlockIn, CellType, Content, ShapeCell};

/// A cell gets a content of its type.
pub fn put(
    memory: &mut Memory,
    at: Option<Address>,
    ty: CellType,
    content: Content,
) -> Result<(), Stop>
    ensures puts { Stores (put_at memory.old.model ty at content) memory.old.blocks result memory.new.blocks }
    ensures model { memory.new.model ≡ memory.old.model }
{
    if !is_content_of(memory.model(), ty, content) {
        return Err(Stop::Over(Fault::Absurd));
    }
    memory.store(at, ty, content)?;
    Ok(())
}

// The cell of a type of the parameter of a number gets a value.
fn pass_to(
    scope: &Scope,
    memory: &mut Memory,
    number: u32,
    ty: CellType,
    content: Content,
) -> Result<(), Stop>
    ensures passes { Changes (pass_to memory.old.model number ty content) scope.now memory.old.blocks result scope.now memory.new.blocks }
    ensures model { memory.new.model ≡ memory.old.model }
{
    let held = used(content)?;
    let at = place(scope, memory, Variable::Parameter(number))?;
    put(memory, at, ty, held)
}

// The parameter of a number, a scalar, gets a value.
fn pass_one(
    scope: &Scope,
    memory: &mut Memory,
    number: u32,
    cells: &[ShapeCell],
    content: Content,
) -> Result<(), Stop>
    ensures passes { Changes (store_one memory.old.model number cells.now content) scope.now memory.old.blocks result scope.now memory.new.blocks }
    ensures model { memory.new.model ≡ memory.old.model }
{
    match cells.split_first() {
        Some((cell, _)) => pass_to(scope, memory, number, cell.ty, content),
        None => Err(Stop::Over(Fault::Absurd)),
    }
}

/// The parameters get values, in order.
pub fn pass(
    scope: &Scope,
    memory: &mut Memory,
    params: &[BlockIn],
    contents: &[Content],
) -> Result<(), Stop>
    ensures passes { Changes (store_parameters memory.old.model 0 (shapes_in params.now) contents.now) scope.now memory.old.blocks result scope.now memory.new.blocks }
    ensures model { memory.new.model ≡ memory.old.model }
{
    for (k, param) in params.iter().enumerate() {
        let Some(content) = contents.get(k) else {
            return Ok(());
        };
        let Ok(number) = u32::try_from(k) else {
            return Err(Stop::NoMemory);
        };
        pass_one(
            scope,
            memory,
            number,
            param.shape.cells.as_slice(),
            *content,
        )?;
    }
    Ok(())
}

/// The parameters begin.
pub fn begin_parameters(
    scope: &mut Scope,
    memory: &mut Memory,
    params: &[BlockIn],
    is_zeroed: bool,
) -> Result<(), Stop>
    ensures begins { Changes (begin_all is_zeroed 0 (shapes_in params.now)) scope.old memory.old.blocks result scope.new memory.new.blocks }
    ensures model { memory.new.model ≡ memory.old.model }
{
    for (k, param) in params.iter().enumerate() {
        let Ok(number) = u32::try_from(k) else {
            return Err(Stop::NoMemory);
        };
        begin(
            scope,
            memory,
            Variable::Parameter(number),
            &param.shape,
            is_zeroed,
        )?;
    }
    Ok(())
}

/// The parameters of a call begin, and get values.
pub fn take_arguments(
    scope: &mut Scope,
    memory: &mut Memory,
    params: &[BlockIn],
    contents: &[Content],
) -> Result<(), Stop>
    ensures takes { Changes (take_all memory.old.model (shapes_in params.now) contents.now) scope.old memory.old.blocks result scope.new memory.new.blocks }
    ensures model { memory.new.model ≡ memory.old.model }
{
    begin_parameters(scope, memory, params, false)?;
    pass(scope, memory, params, contents)
}
