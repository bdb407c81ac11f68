// Places made of their parts, each in a box, as the expressions around them hold it.

ghost use Rattle.std.specs.Prelude.{◌≡◌, IfOk, List};
ghost use Rattle.lt_tree.specs.Typing.Types.{CType};
ghost use Rattle.lt_tree.specs.Typing.TypeRows.{type_in};
ghost use Rattle.lt_tree.specs.Typing.TypedTree as e;
ghost use Rattle.lt_tree.specs.Typing.ValueView.{side_of, value_of, place_of};

use crate::typed::tree::{Place, Side, Value};
use crate::typed::types::TypeId;
use std::alloc::{AllocError, Global};

/// An object, by its number.
pub fn object(alloc: Global, ty: TypeId, number: u32) -> Result<Box<Place>, AllocError>
    ensures { IfOk result (λ all. (types : List CType) → place_of types all.value ≡ e.Object (type_in types ty) number) }
{
    Ok(Box::new(alloc, Place::Object(ty, number))?)
}

/// `*p`.
pub fn pointed(alloc: Global, ty: TypeId, pointer: Box<Value>) -> Result<Box<Place>, AllocError>
    ensures { IfOk result (λ all. (types : List CType) → place_of types all.value ≡ e.Pointed (type_in types ty) (value_of types pointer.value)) }
{
    Ok(Box::new(alloc, Place::Pointed(ty, pointer))?)
}

/// `a[i]` of elements of this size.
pub fn element(
    alloc: Global,
    ty: TypeId,
    size: u64,
    pointer: Side,
    left: Box<Value>,
    right: Box<Value>,
) -> Result<Box<Place>, AllocError>
    ensures { IfOk result (λ all. (types : List CType) → place_of types all.value ≡ e.Element (type_in types ty) size (side_of pointer) (value_of types left.value) (value_of types right.value)) }
{
    Ok(Box::new(
        alloc,
        Place::Element {
            ty,
            size,
            pointer,
            left,
            right,
        },
    )?)
}

/// `s.m`, where the offset is that of `m`.
pub fn part(
    alloc: Global,
    ty: TypeId,
    offset: u64,
    whole: Box<Place>,
) -> Result<Box<Place>, AllocError>
    ensures { IfOk result (λ all. (types : List CType) → place_of types all.value ≡ e.Part (type_in types ty) offset (place_of types whole.value)) }
{
    Ok(Box::new(alloc, Place::Part { ty, offset, whole })?)
}

/// Where a struct lies that is the value of an expression.
pub fn held(alloc: Global, ty: TypeId, value: Box<Value>) -> Result<Box<Place>, AllocError>
    ensures { IfOk result (λ all. (types : List CType) → place_of types all.value ≡ e.Held (type_in types ty) (value_of types value.value)) }
{
    Ok(Box::new(alloc, Place::Held(ty, value))?)
}
