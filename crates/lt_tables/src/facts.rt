//! What is known of the types of the rows of a table.

ghost use Rattle.std.specs.Prelude.{◌≡◌, false, List, IfOk, length, map, slice_index_or};
ghost use Rattle.lt_model.specs.declared.cell.CellType.{CellType};
ghost use Rattle.lt_model.specs.declared.scalar.Scalar.{Scalar};
ghost use Rattle.lt_tree.specs.Typing.Types.{CType, Void};
ghost use Rattle.lt_tree.specs.Typing.TypeRows.{type_of_row, types_of_rows};
ghost use Rattle.lt_tree.specs.Typing.Programs.{Program};
ghost use Rattle.lt_tables.specs.Lookups.{AreFactsOf};
ghost use Rattle.lt_tables.specs.TypeNumbers.{AreAllFacts, number_among};

use lt_model::{CellType, Scalar};
use lt_tree::typed::{TypeId, TypeRow};
use std::alloc::{AllocError, Global};

/// What is known of a type: how memory names it where it is a scalar, its integer type, `int` where it is none, and what else it may be.
#[derive(Clone, Copy)]
pub struct TypeFacts {
    pub cell: CellType,
    pub scalar: Scalar,
    pub is_struct: bool,
    pub is_void: bool,
    /// Whether its elements, or it, are `const`.
    pub is_constant: bool,
}

/// What is known of the types of these rows, whose numbers as pointers are these, where this is known of void.
pub fn facts_of_rows(
    alloc: Global,
    rows: &[TypeRow],
    numbers: &[u32],
    void: TypeFacts,
) -> Result<Vec<TypeFacts>, AllocError>
    requires { length numbers.now ≡ length rows.now }
    ensures { IfOk result (λ known. (program : Program) → numbers.now ≡ map (number_among program.types) (types_of_rows rows.now) → AreFactsOf program Void void → AreAllFacts program (types_of_rows rows.now) known.items) }
{
    let mut known = Vec::new(alloc);
    for (place, row) in rows.iter().enumerate() {
        let facts = facts_of_row(&known, void, numbers[place], row);
        known.push(facts)?;
    }
    Ok(known)
}

// What is known of the type of a row behind those of which this is known.
fn facts_of_row(known: &[TypeFacts], void: TypeFacts, number: u32, row: &TypeRow) -> TypeFacts
    ensures { (program : Program) (types : List CType) → AreAllFacts program types known.now → AreFactsOf program Void void → number ≡ number_among program.types (type_of_row types row.now) → AreFactsOf program (type_of_row types row.now) result }
{
    let plain = plain_facts(number);
    match row {
        TypeRow::Void => facts_of_void(number),
        TypeRow::Num(scalar) => TypeFacts {
            cell: CellType::Num(*scalar),
            scalar: *scalar,
            ..plain
        },
        TypeRow::Array(t, _) => TypeFacts {
            is_constant: facts_at(known, void, *t).is_constant,
            ..plain
        },
        TypeRow::Struct(_) => TypeFacts {
            is_struct: true,
            ..plain
        },
        TypeRow::Qualified(quals, t) => TypeFacts {
            is_constant: quals.constant,
            ..facts_at(known, void, *t)
        },
        TypeRow::Pointer(_) | TypeRow::Function(_) | TypeRow::Floating => plain,
    }
}

/// What is known of void, whose number as a pointer is this.
pub fn facts_of_void(number: u32) -> TypeFacts
    ensures { (program : Program) → number ≡ number_among program.types Void → AreFactsOf program Void result }
{
    TypeFacts {
        is_void: true,
        ..plain_facts(number)
    }
}

// What is known of a pointer with this number.
fn plain_facts(number: u32) -> TypeFacts
    ensures { result ≡ record { cell = CellType.Pointer number; scalar = Scalar.Int; is_struct = false; is_void = false; is_constant = false } }
{
    TypeFacts {
        cell: CellType::Pointer(number),
        scalar: Scalar::Int,
        is_struct: false,
        is_void: false,
        is_constant: false,
    }
}

/// What is known of the type with this id; that of void, where it has no row.
pub fn facts_at(known: &[TypeFacts], void: TypeFacts, id: TypeId) -> TypeFacts
    ensures { result ≡ slice_index_or known.now id.place void }
{
    match known.get(id.place as usize) {
        None => void,
        Some(facts) => *facts,
    }
}
