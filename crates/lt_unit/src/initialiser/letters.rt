// String literals as what arrays of characters hold, C11 6.7.9p14.

ghost use Rattle.std.specs.Prelude.{◌≡◌, ◌==◌, List, take, IfOk, unwrap_or, if◌then◌else◌};
ghost use Rattle.lt_model.specs.declared.scalar.Scalar.TheVariants as S;
ghost use Rattle.lt_tree.specs.Typing.Types.{CType, scalar_of};
ghost use Rattle.lt_tree.specs.Typing.TypeRows.{type_in};
ghost use Rattle.lt_tree.specs.Typing.TypedTree as tree;
ghost use Rattle.lt_tree.specs.Typing.StatementView.{start_part_of};
ghost use Rattle.lt_tree.specs.Typing.Filling as typing;
ghost use Rattle.lt_table.specs.TableRows.{Stays};

use lt_model::{Name, Scalar};
use lt_table::Types;
use lt_tree::typed::{StartPart, TypeId};
use std::alloc::{AllocError, Global};

// The integer type of the elements of an array.
fn character(types: &Types, element: TypeId) -> Result<Scalar, AllocError>
    ensures { IfOk result (λ s. Stays types.now.rows (λ longer. s ≡ unwrap_or (scalar_of (type_in longer element)) S.Char)) }
{
    match types.table().scalar_of(element) {
        None => Err(AllocError),
        Some(None) => Ok(Scalar::Char),
        Some(Some(scalar)) => Ok(scalar),
    }
}

// The bytes for which an array of this length has room; one whose length is to come has room for all.
fn room(length: u32, bytes: &[u8]) -> &[u8]
    ensures { result.now ≡ (if length == 0 then bytes.now else take length bytes.now) }
{
    let length = length as usize;
    if length == 0 || bytes.len() <= length {
        bytes
    } else {
        bytes.split_at(length).0
    }
}

// Bytes in characters of this type.
fn letters_in(alloc: Global, offset: u64, ty: Scalar, bytes: &[u8]) -> Result<StartPart, AllocError>
    ensures { IfOk result (λ part. (types : List CType) → start_part_of types part ≡ tree.letters offset ty bytes.now) }
{
    Ok(StartPart::Letters {
        offset,
        ty,
        bytes: Name::new(alloc, bytes)?,
    })
}

/// The part that a string literal initialises.
pub fn letters(types: &Types, offset: u64, t: TypeId, bytes: &[u8]) -> Result<StartPart, AllocError>
    ensures { IfOk result (λ part. Stays types.now.rows (λ longer. start_part_of longer part ≡ typing.letters_of offset (type_in longer t) bytes.now)) }
{
    match types.table().array_of(t) {
        None => Err(AllocError),
        Some(None) => letters_in(types.alloc(), offset, Scalar::Char, bytes),
        Some(Some((element, length))) => {
            let ty = character(types, element)?;
            letters_in(types.alloc(), offset, ty, room(length, bytes))
        }
    }
}

/// Whether a string literal is longer than the array that it initialises.
pub fn is_too_long(types: &Types, t: TypeId, bytes: &[u8]) -> Result<bool, AllocError>
    ensures { IfOk result (λ b. Stays types.now.rows (λ longer. b ≡ typing.is_too_long_for (type_in longer t) bytes.now)) }
{
    match types.table().array_of(t) {
        None => Err(AllocError),
        Some(None) => Ok(true),
        Some(Some((_, length))) => Ok(length != 0 && (length as usize) < bytes.len()),
    }
}
