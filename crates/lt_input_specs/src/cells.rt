//! Free cells of which no line says anything.

ghost use Rattle.std.specs.Prelude.{◌≡◌, ◌++◌, IfOk, OnOk, map, option_map};
ghost use Rattle.lt_entry.specs.Meaning.{any_value, zero_start};
ghost use Rattle.lt_input_specs.specs.Defaults.{want_to, plain_cell};

use lt_model::{
    CellType, DataModel, FreeCell, Name, Place, Sequence, ShapeCell, StartValue, Want, greatest,
    least,
};
use std::alloc::{AllocError, Global};

// Null, or the beginning of the block of this name.
fn want_to(alloc: Global, block: Option<&[u8]>) -> Result<Want, AllocError>
    ensures { IfOk result (λ want. want ≡ want_to (option_map (λ name. name.now) block.entry)) }
{
    let mut targets = Vec::new(alloc);
    targets.push(None)?;
    if let Some(name) = block {
        targets.push(Some(Place {
            root: Name::new(alloc, name)?,
            offset: 0,
        }))?;
    }
    Ok(Want::OneOf(Sequence::new(targets)))
}

/// What a cell may hold of which no line says anything, where a pointer may point to this block.
pub fn any_value(
    alloc: Global,
    model: DataModel,
    ty: CellType,
    block: Option<&[u8]>,
) -> Result<Want, AllocError>
    ensures { IfOk result (λ want. want ≡ any_value model ty (want_to (option_map (λ name. name.now) block.entry))) }
{
    match ty {
        CellType::Num(scalar) => Ok(Want::Between(least(model, scalar), greatest(model, scalar))),
        CellType::Pointer(_) => want_to(alloc, block),
    }
}

/// 0 or null.
pub fn zero_start(ty: CellType) -> StartValue
    ensures { result ≡ zero_start ty }
{
    match ty {
        CellType::Num(_) => StartValue::Number(0),
        CellType::Pointer(_) => StartValue::Point(None),
    }
}

/// Behind these, the cells of an object of this name, where a pointer may point to this block.
pub fn put_cells(
    alloc: Global,
    cells: &mut Vec<FreeCell>,
    model: DataModel,
    name: &[u8],
    shape: &[ShapeCell],
    block: Option<&[u8]>,
) -> Result<(), AllocError>
    ensures { OnOk result (cells.new.items ≡ cells.old.items ++ map (plain_cell model name.now (want_to (option_map (λ b. b.now) block.entry))) shape.now) }
{
    for it in shape {
        cells.push(FreeCell {
            at: Place {
                root: Name::new(alloc, name)?,
                offset: it.offset,
            },
            ty: it.ty,
            want: any_value(alloc, model, it.ty, block)?,
            start: zero_start(it.ty),
        })?;
    }
    Ok(())
}
