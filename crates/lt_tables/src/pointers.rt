//! The numbers of types as those of pointers: places of types without qualifiers among those of a program.

ghost use Rattle.std.specs.Prelude.{◌≡◌, ℕ, IfOk, map, length, slice_index_or, unwrap_or};
ghost use Rattle.std.specs.Ordering.{nat_cmp};
ghost use Rattle.std.specs.BTreeMap.{get};
ghost use Rattle.lt_tree.specs.Typing.Types.{Void};
ghost use Rattle.lt_tree.specs.Typing.TypeRows.{types_of_rows};
ghost use Rattle.lt_tables.specs.BareTypes.{key_of};
ghost use Rattle.lt_tables.specs.TypeNumbers.{number_among, types_named};

use crate::bare::{BareRow, bare_of, bare_rows};
use crate::places::{place_of, places_of};
use lt_table::TypeTable;
use lt_tree::typed::{TypeId, TypeRow};
use std::alloc::{AllocError, Global};
use std::collections::BTreeMap;

/// The numbers of the types of rows, and that of void.
#[derive(Drop)]
pub struct PointerNumbers {
    pub of_rows: Vec<u32>,
    pub of_void: u32,
}

/// The numbers of the types of these rows among the types with these ids.
pub fn pointer_numbers(
    alloc: Global,
    rows: &[TypeRow],
    ids: &[TypeId],
) -> Result<PointerNumbers, AllocError>
    ensures rows { IfOk result (λ it. it.of_rows.items ≡ map (number_among (types_named rows.now ids.now)) (types_of_rows rows.now)) }
    ensures void { IfOk result (λ it. it.of_void ≡ number_among (types_named rows.now ids.now) Void) }
{
    let mut table = TypeTable::new(alloc);
    let id = table.void()?;
    let void = BareRow { id, is_bare: true };
    let bare = bare_rows(alloc, &mut table, void, rows)?;
    let known = table.into_rows()?;
    let no_key = place_of(known.len())?;
    let keys = keys_of(alloc, no_key, &bare, void, ids)?;
    let places = places_of(alloc, &keys)?;
    let none = place_of(ids.len())?;
    Ok(PointerNumbers {
        of_rows: numbers_of(alloc, &places, none, &bare)?,
        of_void: number_at(&places, none, void.id),
    })
}

/// The keys of these ids: no type without qualifiers has the key of one with qualifiers.
pub fn keys_of(
    alloc: Global,
    no_key: u32,
    bare: &[BareRow],
    void: BareRow,
    ids: &[TypeId],
) -> Result<Vec<u32>, AllocError>
    ensures { IfOk result (λ keys. keys.items ≡ map (λ id. key_of no_key (slice_index_or bare.now id.place void)) ids.now) }
{
    let mut keys = Vec::new(alloc);
    for id in ids {
        let it = bare_of(bare, void, *id);
        keys.push(key_of(no_key, it))?;
    }
    Ok(keys)
}

// The id of a type without qualifiers; one with qualifiers has the number that no id has.
fn key_of(no_key: u32, it: BareRow) -> u32
    ensures { result ≡ key_of no_key it }
{
    if it.is_bare { it.id.place } else { no_key }
}

// The numbers of types with these ids.
fn numbers_of(
    alloc: Global,
    places: &BTreeMap<u32, u32>,
    none: u32,
    bare: &[BareRow],
) -> Result<Vec<u32>, AllocError>
    ensures { IfOk result (λ numbers. numbers.items ≡ map (λ it. unwrap_or (get nat_cmp places.now it.id.place) none) bare.now) }
{
    let mut numbers = Vec::new(alloc);
    for it in bare {
        numbers.push(number_at(places, none, it.id))?;
    }
    Ok(numbers)
}

/// The number of a type: that of its id, or the one that no type has.
pub fn number_at(places: &BTreeMap<u32, u32>, none: u32, id: TypeId) -> u32
    ensures { result ≡ unwrap_or (get nat_cmp places.now id.place) none }
{
    match places.get(&id.place) {
        None => none,
        Some(number) => *number,
    }
}
