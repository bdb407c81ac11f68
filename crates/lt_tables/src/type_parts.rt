//! What the types of rows are made of, as far as their sizes and alignments follow from it.

ghost use Rattle.std.specs.Prelude.{◌≡◌, ◌*◌, ◌^◌, min, List, IfOk, slice_index_or};
ghost use Rattle.lt_model.specs.declared.scalar.DataModel.{DataModel};
ghost use Rattle.lt_tree.specs.Typing.Types.{CType};
ghost use Rattle.lt_tree.specs.Typing.TypeRows.{type_of_row, types_of_rows};
ghost use Rattle.lt_tables.specs.TypeParts.{ArePartsOf, AreAllParts, HaveParts, void_parts};

use lt_model::DataModel;
use lt_table::{Extent, pointer_extent, scalar_extent};
use lt_tree::typed::{TypeId, TypeRow};
use std::alloc::{AllocError, Global};

/// A type that is no array: a scalar by its extent, a struct by its number, or one that has no extent.
#[derive(Clone, Copy)]
pub enum Single {
    Scalar(Extent),
    Struct(u32),
    Other,
}

/// What a type is made of.
#[derive(Clone, Copy)]
pub struct TypeParts {
    /// The type itself; an array has no extent of its own.
    pub itself: Single,
    /// The type of an array's elements, and of theirs; of no array the type itself.
    pub element: Single,
    /// How many elements an array has, counting theirs; of no array 1. Numbers from 2^64 count as that.
    pub count: u128,
}

/// What the types of these rows are made of.
pub fn parts_of_rows(
    alloc: Global,
    model: DataModel,
    rows: &[TypeRow],
) -> Result<Vec<TypeParts>, AllocError>
    ensures { IfOk result (λ parts. HaveParts model (types_of_rows rows.now) parts.items) }
{
    let mut parts = Vec::new(alloc);
    for row in rows {
        let it = parts_of_row(model, &parts, row);
        parts.push(it)?;
    }
    Ok(parts)
}

// What the type of a row behind these is made of.
fn parts_of_row(model: DataModel, known: &[TypeParts], row: &TypeRow) -> TypeParts
    ensures { (types : List CType) → AreAllParts model types known.now → ArePartsOf model (type_of_row types row.now) result }
{
    match row {
        TypeRow::Num(scalar) => parts_of_single(Single::Scalar(scalar_extent(model, *scalar))),
        TypeRow::Pointer(_) => parts_of_single(Single::Scalar(pointer_extent(model))),
        TypeRow::Array(t, length) => parts_of_array(parts_at(known, *t), *length),
        TypeRow::Struct(number) => parts_of_single(Single::Struct(*number)),
        TypeRow::Qualified(_, t) => parts_of_single(parts_at(known, *t).itself),
        TypeRow::Void | TypeRow::Function(_) | TypeRow::Floating => parts_of_single(Single::Other),
    }
}

// What a type that is no array is made of.
fn parts_of_single(itself: Single) -> TypeParts
    ensures { result ≡ record { itself = itself; element = itself; count = 1 } }
{
    TypeParts {
        itself,
        element: itself,
        count: 1,
    }
}

// What an array of so many elements is made of that are made so.
fn parts_of_array(element: TypeParts, length: u32) -> TypeParts
    ensures { result ≡ record { itself = Single.Other; element = element.element; count = min (min element.count (2 ^ 64) * length) (2 ^ 64) } }
{
    let count = element.count.min(1 << 64) * u128::from(length);
    TypeParts {
        itself: Single::Other,
        element: element.element,
        count: count.min(1 << 64),
    }
}

/// What the type with this id is made of; what has no row is void.
pub fn parts_at(known: &[TypeParts], id: TypeId) -> TypeParts
    ensures { result ≡ slice_index_or known.now id.place void_parts }
{
    match known.get(id.place as usize) {
        None => parts_of_single(Single::Other),
        Some(parts) => *parts,
    }
}
