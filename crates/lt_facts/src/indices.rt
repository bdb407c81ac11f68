//! Where numbers stand in a list.

ghost use Rattle.std.specs.Prelude.{◌≡◌, ℕ, ◌==◌, nat_eq, if◌then◌else◌, Some, None, option_and_then, map, IfOk, OnOk};
ghost use Rattle.std.specs.HashMap.{get};
ghost use Rattle.lt_tree.specs.Typing.Entities.{or_else};
ghost use Rattle.lt_facts.specs.Indices.{first_place, place_among};

use std::alloc::{AllocError, Global};
use std::collections::HashMap;

/// Where each of these numbers stands first among others.
pub fn places_among(
    alloc: Global,
    numbers: &[Option<usize>],
    others: &[usize],
) -> Result<Vec<Option<usize>>, AllocError>
    ensures { IfOk result (λ v. v.items ≡ map (place_among others.now) numbers.now) }
{
    let first = first_places(alloc, others)?;
    let mut places = Vec::new(alloc);
    for number in numbers {
        places.push(place_of(*number, &first))?;
    }
    Ok(places)
}

// Where each number stands first.
fn first_places(alloc: Global, numbers: &[usize]) -> Result<HashMap<usize, usize>, AllocError>
    ensures { IfOk result (λ places. (n : ℕ) → get nat_eq places n ≡ first_place n numbers.now) }
{
    let mut places = HashMap::new(alloc);
    for (place, number) in numbers.iter().enumerate() {
        put_first(&mut places, *number, place)?;
    }
    Ok(places)
}

// A place for a number, unless there is one.
fn put_first(
    places: &mut HashMap<usize, usize>,
    number: usize,
    place: usize,
) -> Result<(), AllocError>
    ensures { OnOk result ((n : ℕ) → get nat_eq places.new n ≡ or_else (get nat_eq places.old n) (if number == n then Some place else None)) }
{
    if places.contains_key(&number) {
        return Ok(());
    }
    places.insert(number, place)?;
    Ok(())
}

fn place_of(number: Option<usize>, places: &HashMap<usize, usize>) -> Option<usize>
    ensures { result ≡ option_and_then (get nat_eq places.now) number }
{
    places.get(&number?).copied()
}
