//! The values for functions without a body, in the order of the specification.

ghost use Rattle.std.specs.Prelude.{◌≡◌, ◌++◌, IfOk, filter_map};
ghost use Rattle.lt_entry.specs.Inputs.{stubs_in_order};
ghost use Rattle.lt_input_values.specs.Maps.{values_for, HasFirst, HasNames, for_others};

use crate::copies::values_of;
use lt_model::{Spec, StubRange, StubSet};
use std::alloc::{AllocError, Global};
use std::collections::{HashMap, HashSet};

// The first values for each function.
fn first_values<'a>(
    alloc: Global,
    sets: &'a [StubSet],
) -> Result<HashMap<&'a [u8], &'a StubSet>, AllocError>
    ensures { IfOk result (HasFirst sets.now) }
{
    let mut first = HashMap::new(alloc);
    for it in sets {
        let name = it.name.as_slice();
        if !first.contains_key(name) {
            first.insert(name, it)?;
        }
    }
    Ok(first)
}

// The first values for each range, in the order of the ranges.
fn values_for_ranges(
    alloc: Global,
    ranges: &[StubRange],
    first: &HashMap<&[u8], &StubSet>,
) -> Result<Vec<StubSet>, AllocError>
    ensures { IfOk result (λ sets. sets.items ≡ filter_map (λ range. values_for first.now range.name) ranges.now) }
{
    let mut sets = Vec::new(alloc);
    for range in ranges {
        match first.get(range.name.as_slice()) {
            Some(it) => sets.push(values_of(alloc, it)?)?,
            None => {}
        }
    }
    Ok(sets)
}

// The names of the ranges.
fn names_of<'a>(alloc: Global, ranges: &'a [StubRange]) -> Result<HashSet<&'a [u8]>, AllocError>
    ensures { IfOk result (HasNames ranges.now) }
{
    let mut names = HashSet::new(alloc);
    for range in ranges {
        names.insert(range.name.as_slice())?;
    }
    Ok(names)
}

// Behind these, the values for functions without a range.
fn with_other_values(
    alloc: Global,
    mut sets: Vec<StubSet>,
    all: &[StubSet],
    names: &HashSet<&[u8]>,
) -> Result<Vec<StubSet>, AllocError>
    ensures { IfOk result (λ more. more.items ≡ sets.items ++ for_others names.now all.now) }
{
    for it in all {
        if !names.contains(it.name.as_slice()) {
            sets.push(values_of(alloc, it)?)?;
        }
    }
    Ok(sets)
}

/// The values for each range, in the order of the ranges, and behind them those for other functions.
pub fn stubs_in_order(
    alloc: Global,
    spec: &Spec,
    sets: &[StubSet],
) -> Result<Vec<StubSet>, AllocError>
    ensures { IfOk result (λ ordered. ordered.items ≡ stubs_in_order spec.now sets.now) }
{
    let first = first_values(alloc, sets)?;
    let ranges = spec.stubs.as_slice();
    let names = names_of(alloc, ranges)?;
    with_other_values(
        alloc,
        values_for_ranges(alloc, ranges, &first)?,
        sets,
        &names,
    )
}
