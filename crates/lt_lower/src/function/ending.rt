// What a function gives that comes to the end of its body: `main` gives 0, C11 5.1.2.2.3.

ghost use Rattle.std.specs.Prelude.{◌≡◌, IfOk, List, map, slice_index_or};
ghost use Rattle.lt_tree.specs.Typing.Types.{CType, Void};
ghost use Rattle.lt_tree.specs.Typing.TypeRows.{types_of_rows, type_of_row};
ghost use Rattle.lt_meaning.specs.Runs.{value_at_end, zero_of_result};
ghost use Rattle.lt_tables.specs.Views.{types_at, function_at};
ghost use Rattle.lt_lower.specs.Zeros.{zeros_of};

use lt_model::Content;
use lt_tables::Site;
use lt_tree::typed::{TypeId, TypeRow};
use std::alloc::{AllocError, Global};

/// 0 or null as a value of a type, and as what a function of that type gives.
#[derive(Clone, Copy)]
pub struct Zeros {
    pub own: Content,
    pub of_result: Content,
}

/// The value of a call that comes to the end of the function's body.
pub fn value_at_end(alloc: Global, site: &Site) -> Result<Content, AllocError>
    ensures { IfOk result (λ c. c ≡ value_at_end (function_at site.now)) }
{
    if site.function.name.as_slice() != b"main".as_slice() {
        return Ok(Content::Unset);
    }
    let zeros = zeros_of_rows(alloc, &site.tables.program.table)?;
    Ok(zeros_at(&zeros, site.function.ty).of_result)
}

// For the types of these rows.
fn zeros_of_rows(alloc: Global, rows: &[TypeRow]) -> Result<Vec<Zeros>, AllocError>
    ensures { IfOk result (λ all. all.items ≡ map zeros_of (types_of_rows rows.now)) }
{
    let mut all = Vec::new(alloc);
    'rows: for row in rows {
        let zeros = zeros_of_row(&all, row);
        all.push(zeros)?;
    }
    Ok(all)
}

// For the type of a row behind those for which they are known.
fn zeros_of_row(known: &[Zeros], row: &TypeRow) -> Zeros
    ensures { (types : List CType) → known.now ≡ map zeros_of types → result ≡ zeros_of (type_of_row types row.now) }
{
    let own = match row {
        TypeRow::Num(_) => Content::Number(0),
        TypeRow::Pointer(_) => Content::Address(None),
        TypeRow::Qualified(_, t) => zeros_at(known, *t).own,
        _ => Content::Unset,
    };
    let of_result = match row {
        TypeRow::Function(function) => zeros_at(known, function.result).own,
        _ => Content::Unset,
    };
    Zeros { own, of_result }
}

// For the type with this id; those of void, where it has no row.
fn zeros_at(known: &[Zeros], id: TypeId) -> Zeros
    ensures { result ≡ slice_index_or known.now id.place (zeros_of Void) }
{
    match known.get(id.place as usize) {
        None => Zeros {
            own: Content::Unset,
            of_result: Content::Unset,
        },
        Some(zeros) => *zeros,
    }
}
