//! The places of numbers and names in lists, as maps.

ghost use Rattle.std.specs.Prelude.{◌≡◌, ◌++◌, ◌∷◌, [], if◌then◌else◌, ℕ, List, IfOk, OnOk, map, not, is_some};
ghost use Rattle.std.specs.List.{filter};
ghost use Rattle.std.specs.Ordering.{nat_cmp};
ghost use Rattle.std.specs.BTreeMap.{get};
ghost use Rattle.lt_meaning.specs.Runs.{place_among};
ghost use Rattle.lt_tables.specs.Lookups.{name_among, place_in};

use indexmap::IndexMap;
use lt_model::Name;
use lt_tree::typed::{Declared, Function, LabelInfo};
use std::alloc::{AllocError, Global};
use std::collections::BTreeMap;

/// The place as a table has it; a table that would hold more than 2^32 places has no memory.
pub fn place_of(place: usize) -> Result<u32, AllocError>
    ensures { IfOk result (λ it. it ≡ place) }
{
    u32::try_from(place).map_err(|_| AllocError)
}

/// The place of the first of these numbers that is this one. They are taken from the last on, so that the first stays.
pub fn places_of(alloc: Global, numbers: &[u32]) -> Result<BTreeMap<u32, u32>, AllocError>
    ensures { IfOk result (λ places. (n : ℕ) → get nat_cmp places n ≡ place_among 0 n numbers.now) }
{
    let mut places = BTreeMap::new(alloc);
    let mut left = numbers.len();
    'numbers: while 0 < left {
        left -= 1;
        let place = place_of(left)?;
        places.insert(numbers[left], place)?;
    }
    Ok(places)
}

/// The place of the first of these offsets that is this one.
pub fn places_of_offsets(
    alloc: Global,
    offsets: &[u128],
) -> Result<BTreeMap<u128, usize>, AllocError>
    ensures { IfOk result (λ places. (n : ℕ) → get nat_cmp places n ≡ place_among 0 n offsets.now) }
{
    let mut places = BTreeMap::new(alloc);
    let mut left = offsets.len();
    'offsets: while 0 < left {
        left -= 1;
        places.insert(offsets[left], left)?;
    }
    Ok(places)
}

/// The place of the first of these names that is this one.
pub fn places_of_names(alloc: Global, names: &[Name]) -> Result<IndexMap<Vec<u8>, u32>, AllocError>
    ensures { IfOk result (λ places. (name : List ℕ) → place_in places name ≡ name_among 0 name names.now) }
{
    let mut places = IndexMap::new(alloc);
    let mut left = names.len();
    'names: while 0 < left {
        left -= 1;
        let place = place_of(left)?;
        let key = Vec::from_slice(alloc, names[left].as_slice())?;
        places.insert(key, place)?;
    }
    Ok(places)
}

/// The ids of labels, in order.
pub fn ids_of(alloc: Global, labels: &[LabelInfo]) -> Result<Vec<u32>, AllocError>
    ensures { IfOk result (λ ids. ids.items ≡ map (λ label. label.id) labels.now) }
{
    labels.iter().map(|label| label.id).collect(alloc)
}

/// The names of functions with a body, in order.
pub fn names_of(alloc: Global, functions: &[Function]) -> Result<Vec<Name>, AllocError>
    ensures { IfOk result (λ names. names.items ≡ map (λ f. f.name) functions.now) }
{
    let mut names = Vec::new(alloc);
    for function in functions {
        names.push(Name::new(alloc, function.name.as_slice())?)?;
    }
    Ok(names)
}

/// The names of the functions that are declared and aren't among these.
pub fn names_without(
    alloc: Global,
    declared: &[Declared],
    functions: &IndexMap<Vec<u8>, u32>,
) -> Result<Vec<Name>, AllocError>
    ensures { IfOk result (λ names. names.items ≡ filter (λ name. not (is_some (place_in functions.now name))) (map (λ f. f.name) declared.now)) }
{
    let mut names = Vec::new(alloc);
    for function in declared {
        push_without(alloc, &mut names, functions, &function.name)?;
    }
    Ok(names)
}

// This name goes last, unless it is among those of the functions.
fn push_without(
    alloc: Global,
    names: &mut Vec<Name>,
    functions: &IndexMap<Vec<u8>, u32>,
    name: &Name,
) -> Result<(), AllocError>
    ensures { OnOk result (names.new.items ≡ names.old.items ++ (if not (is_some (place_in functions.now name.now)) then name.now ∷ [] else [])) }
{
    let bytes = name.as_slice();
    if !functions.contains_key(bytes) {
        names.push(Name::new(alloc, bytes)?)?;
    }
    Ok(())
}
