//! The types of rows without qualifiers, each once.

ghost use Rattle.std.specs.Prelude.{◌≡◌, List, IfOk, map, slice_index_or};
ghost use Rattle.std.specs.List.{list_all};
ghost use Rattle.lt_tree.specs.Typing.Types.{CType, Void, Function};
ghost use Rattle.lt_tree.specs.Typing.TypeRows.{type_in, all_in, type_of_row, types_of_rows};
ghost use Rattle.lt_table.specs.TableRows.{Grows};
ghost use Rattle.lt_tables.specs.BareTypes.{IsBareOf, AreBareOf};

use lt_table::TypeTable;
use lt_tree::typed::{FunctionType, TypeId, TypeRow};
use std::alloc::{AllocError, Global};

/// The type of a row without qualifiers, by its id in a table, and whether the row's type has none.
#[derive(Clone, Copy)]
pub struct BareRow {
    pub id: TypeId,
    pub is_bare: bool,
}

// Parameters without qualifiers, and whether they have none.
#[derive(Drop)]
struct BareParameters {
    ids: Vec<TypeId>,
    are_bare: bool,
}

/// The types of these rows without qualifiers. What has no row is void.
pub fn bare_rows(
    alloc: Global,
    table: &mut TypeTable,
    void: BareRow,
    rows: &[TypeRow],
) -> Result<Vec<BareRow>, AllocError>
    ensures grows { Grows table.old table.new }
    ensures bare { IsBareOf table.old Void void → IfOk result (λ bare. AreBareOf table.new (types_of_rows rows.now) bare.items) }
{
    let mut bare = Vec::new(alloc);
    for row in rows {
        let it = bare_row(alloc, table, &bare, void, row)?;
        bare.push(it)?;
    }
    Ok(bare)
}

// The type of a row behind these; what has no row yet is void.
fn bare_row(
    alloc: Global,
    table: &mut TypeTable,
    bare: &[BareRow],
    void: BareRow,
    row: &TypeRow,
) -> Result<BareRow, AllocError>
    ensures grows { Grows table.old table.new }
    ensures bare { (types : List CType) → AreBareOf table.old types bare.now → IsBareOf table.old Void void → IfOk result (IsBareOf table.new (type_of_row types row.now)) }
{
    match row {
        TypeRow::Void => Ok(void),
        TypeRow::Num(scalar) => {
            let id = table.num(*scalar)?;
            Ok(BareRow { id, is_bare: true })
        }
        TypeRow::Pointer(t) => {
            let target = bare_of(bare, void, *t);
            let id = table.pointer(target.id)?;
            let is_bare = target.is_bare;
            Ok(BareRow { id, is_bare })
        }
        TypeRow::Array(t, length) => {
            let element = bare_of(bare, void, *t);
            let id = table.array(element.id, *length)?;
            let is_bare = element.is_bare;
            Ok(BareRow { id, is_bare })
        }
        TypeRow::Struct(number) => {
            let id = table.structure(*number)?;
            Ok(BareRow { id, is_bare: true })
        }
        TypeRow::Function(function) => bare_function(alloc, table, bare, void, function),
        TypeRow::Floating => {
            let id = table.floating()?;
            Ok(BareRow { id, is_bare: true })
        }
        TypeRow::Qualified(_, t) => {
            let id = bare_of(bare, void, *t).id;
            Ok(BareRow { id, is_bare: false })
        }
    }
}

// The type of a function.
fn bare_function(
    alloc: Global,
    table: &mut TypeTable,
    bare: &[BareRow],
    void: BareRow,
    function: &FunctionType,
) -> Result<BareRow, AllocError>
    ensures grows { Grows table.old table.new }
    ensures bare { (types : List CType) → AreBareOf table.old types bare.now → IsBareOf table.old Void void → IfOk result (IsBareOf table.new (Function (type_in types function.now.result) (all_in types function.now.parameters.items) function.now.dots)) }
{
    let returned = bare_of(bare, void, function.result);
    let parameters = all_bare(alloc, bare, void, &function.parameters)?;
    let is_bare = returned.is_bare & parameters.are_bare;
    let id = table.function(returned.id, parameters.ids, function.dots)?;
    Ok(BareRow { id, is_bare })
}

/// What is known of the type of an id.
pub fn bare_of(bare: &[BareRow], void: BareRow, t: TypeId) -> BareRow
    ensures { result ≡ slice_index_or bare.now t.place void }
{
    match bare.get(t.place as usize) {
        None => void,
        Some(it) => *it,
    }
}

// What is known of the types of parameters.
fn all_bare(
    alloc: Global,
    bare: &[BareRow],
    void: BareRow,
    types: &[TypeId],
) -> Result<BareParameters, AllocError>
    ensures ids { IfOk result (λ all. all.ids.items ≡ map (λ t. (slice_index_or bare.now t.place void).id) types.now) }
    ensures flag { IfOk result (λ all. all.are_bare ≡ list_all (λ t. (slice_index_or bare.now t.place void).is_bare) types.now) }
{
    let mut ids = Vec::new(alloc);
    let mut are_bare = true;
    for t in types {
        let it = bare_of(bare, void, *t);
        are_bare &= it.is_bare;
        ids.push(it.id)?;
    }
    Ok(BareParameters { ids, are_bare })
}
