//! Families of types.

ghost use Rattle.std.specs.Prelude.{◌≡◌, IfOk, slice_index_or};
ghost use Rattle.lt_model.specs.Scalar.{is_signed};
ghost use Rattle.lt_facts.specs.Families.{type_families, FamiliesAreKinds, family_of_row};

use lt_model::{DataModel, is_signed};
use lt_tree::typed::{Program, TypeId, TypeRow};
use std::alloc::{AllocError, Global};

/// What a type is, its qualifiers aside.
#[derive(Clone, Copy, PartialEq, Eq, Debug)]
pub enum Family {
    /// A signed integer type.
    Signed,
    /// An unsigned integer type.
    Unsigned,
    /// A pointer type.
    Pointer,
    /// Any other type; nothing known too.
    Other,
}

/// A type is an integer type, a signed one or a pointer where its family says so. The function does nothing.
pub fn families_are_kinds()
    ensures { FamiliesAreKinds }
{}

/// By the places of a program's table: the families of its types.
pub fn type_families(alloc: Global, program: &Program<'_>) -> Result<Vec<Family>, AllocError>
    ensures { IfOk result (λ v. v.items ≡ type_families program.now) }
{
    let mut families = Vec::new(alloc);
    for row in &program.table {
        let family = family_of_row(program.model, &families, row);
        families.push(family)?;
    }
    Ok(families)
}

/// Of a type, among those of its table.
pub fn family_at(families: &[Family], t: TypeId) -> Family
    ensures { result ≡ slice_index_or families.now t.place Family.Other }
{
    match families.get(t.place as usize) {
        None => Family::Other,
        Some(family) => *family,
    }
}

// Of the type of a row, where these are the families of those before.
fn family_of_row(model: DataModel, families: &[Family], row: &TypeRow) -> Family
    ensures { result ≡ family_of_row model families.now row.now }
{
    match row {
        TypeRow::Num(scalar) if is_signed(model, *scalar) => Family::Signed,
        TypeRow::Num(_) => Family::Unsigned,
        TypeRow::Pointer(_) => Family::Pointer,
        TypeRow::Qualified(_, t) => family_at(families, *t),
        _ => Family::Other,
    }
}
