//! The values that are left for functions without a body.

ghost use Rattle.std.specs.Prelude.{◌≡◌, List, ℕ, Some, map, slice_get, if◌then◌else◌, IfOk, IfNone};
ghost use Rattle.std.specs.Str.{bytes_eq};
ghost use Rattle.lt_ir.specs.Running.{next_value};
ghost use Rattle.lt_ir.specs.Starting.{lefts_of};
ghost use Rattle.lt_ir.specs.Prepared.{place_of, value_at};
ghost use Rattle.lt_mach_parts.specs.Stubs.{with_left, found, ArePlacesFrom};

use lt_ir::stubs_have_places;
use lt_model::{Name, StubSet};
use std::alloc::{AllocError, Global};
use std::collections::BTreeMap;
use std::marker::Model;

/// The values that are left of an input's for functions without a body. Contracts see them with the names of these functions.
#[derive(Drop)]
pub struct Stubs<'a> {
    sets: &'a [StubSet],
    // How many values of each set were taken.
    taken: Vec<usize>,
}

impl<'a> Model for Stubs<'a> {
    ghost use Rattle.std.specs.Prelude.{List};
    ghost use Rattle.lt_model.specs.State.{Left};
    ghost use Rattle.lt_mach_parts.specs.Stubs.{lefts_after};

    ghost Value = { List Left };

    ghost view = { λ s. lefts_after s.sets.now s.taken.items };
}

// The place of each set by its name; of two sets of one name, that of the first.
fn places_of<'a>(
    alloc: Global,
    sets: &'a [StubSet],
) -> Result<BTreeMap<&'a [u8], usize>, AllocError>
    ensures { IfOk result (ArePlacesFrom 0 sets.now) }
{
    let mut places = BTreeMap::new(alloc);
    let mut place = sets.len();
    while place > 0 {
        place -= 1;
        let set = &sets[place];
        put(&mut places, set.name.as_slice(), place)?;
    }
    Ok(places)
}

fn put<'a>(
    places: &mut BTreeMap<&'a [u8], usize>,
    name: &'a [u8],
    place: usize,
) -> Result<(), AllocError>
    ensures { IfOk result (λ _. (q : List ℕ) → found places.new q ≡ (if bytes_eq name.now q then Some place else found places.old q)) }
{
    places.insert(name, place)?;
    Ok(())
}

fn place_in(places: &BTreeMap<&[u8], usize>, name: &[u8]) -> Option<usize>
    ensures { result ≡ found places.now name.now }
{
    places.get(name).copied()
}

/// The place among an input's sets of the values for each of these functions, if it has some.
pub fn stub_places(
    alloc: Global,
    names: &[Name],
    sets: &[StubSet],
) -> Result<Vec<Option<usize>>, AllocError>
    ensures { IfOk result (λ places. places.items ≡ map (λ name. place_of name (lefts_of sets.now)) names.now) }
{
    let known = places_of(alloc, sets)?;
    let mut places = Vec::with_capacity(alloc, names.len())?;
    for name in names {
        places.push(place_in(&known, name.as_slice()))?;
    }
    Ok(places)
}

fn value_in(values: &[i128], place: usize) -> Option<i128>
    ensures { result ≡ slice_get values.now place }
{
    values.get(place).copied()
}

impl<'a> Stubs<'a> {
    /// All values of an input.
    pub fn new(alloc: Global, sets: &'a [StubSet]) -> Result<Stubs<'a>, AllocError>
        ensures { IfOk result (λ stubs. stubs ≡ lefts_of sets.now) }
    {
        let mut taken = Vec::with_capacity(alloc, sets.len())?;
        for _set in sets {
            taken.push(0)?;
        }
        Ok(Stubs { sets, taken })
    }

    // The next value at a place.
    fn take(&mut self, place: Option<usize>) -> Option<i128>
        ensures value { value_at place self.old ≡ with_left result self.new }
        ensures places { (name : List ℕ) → place_of name self.new ≡ place_of name self.old }
        ensures kept { IfNone result (self.new ≡ self.old) }
    {
        let place = place?;
        if place >= self.sets.len() {
            return None;
        }
        if place >= self.taken.len() {
            return None;
        }
        let count = self.taken[place];
        let set = &self.sets[place];
        let values = set.values.as_slice();
        if count >= values.len() {
            return None;
        }
        self.taken[place] = count + 1;
        value_in(values, count)
    }

    /// The next value for a function whose name has this place. Names keep their places.
    pub fn next(&mut self, place: Option<usize>) -> Option<i128>
        ensures value { (name : List ℕ) → place_of name self.old ≡ place → next_value name self.old ≡ with_left result self.new }
        ensures places { (name : List ℕ) → place_of name self.new ≡ place_of name self.old }
        ensures kept { IfNone result (self.new ≡ self.old) }
    {
        stubs_have_places();
        self.take(place)
    }
}
