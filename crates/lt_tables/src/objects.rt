//! The objects of a program that are there from the start.

ghost use Rattle.std.specs.Prelude.{◌≡◌, ◌+◌, ◌<◌, ◌^◌, ◌==◌, ◌&&◌, ℕ, Some, IfOk, OnOk, slice_index_or, if◌then◌else◌};
ghost use Rattle.std.specs.Ordering.{nat_cmp};
ghost use Rattle.std.specs.BTreeMap.{get};
ghost use Rattle.lt_tree.specs.Typing.Entities.{is_static};
ghost use Rattle.lt_tree.specs.Typing.EntityView.{life_of};
ghost use Rattle.lt_tables.specs.Objects.{number_of, AreBlocksOf};

use crate::places::place_of;
use lt_tree::typed::{Life, Object};
use std::alloc::{AllocError, Global};
use std::collections::BTreeMap;

/// Whether an object with this life is there from the start.
pub fn is_made_first(life: Life) -> bool
    ensures { result ≡ is_static (life_of life) }
{
    match life {
        Life::Linked | Life::LocalStatic | Life::Literal => true,
        Life::Automatic | Life::Parameter | Life::Unmade => false,
    }
}

/// The numbers of the objects that are there from the start, among these.
pub fn numbers_of(alloc: Global, objects: &[Object]) -> Result<BTreeMap<u32, u32>, AllocError>
    ensures { IfOk result (λ numbers. (n : ℕ) → get nat_cmp numbers n ≡ number_of objects.now n) }
{
    let mut numbers = BTreeMap::new(alloc);
    let mut count = 0;
    for (place, object) in objects.iter().enumerate() {
        let is_first = is_made_first(object.life);
        count = with_number(&mut numbers, is_first, place, count)?;
    }
    Ok(numbers)
}

// The object at a place gets the next number, if it is there from the start; how many have one then.
fn with_number(
    numbers: &mut BTreeMap<u32, u32>,
    is_first: bool,
    place: usize,
    count: usize,
) -> Result<usize, AllocError>
    requires { count < 2 ^ 63 }
    ensures count { IfOk result (λ more. more ≡ count + (if is_first then 1 else 0)) }
    ensures numbers { OnOk result ((n : ℕ) → get nat_cmp numbers.new n ≡ (if is_first && (place == n) then Some count else get nat_cmp numbers.old n)) }
{
    if !is_first {
        return Ok(count);
    }
    let number = place_of(count)?;
    numbers.insert(place_of(place)?, number)?;
    Ok(count + 1)
}

/// The numbers of the blocks of objects that are there from the start.
#[derive(Drop)]
pub struct Blocks {
    /// By the numbers of objects: how many before are there from the start.
    before: Vec<u32>,
    /// How many there are.
    all: u32,
}

impl Blocks {
    /// How many of the objects before this one are there from the start: its block, where it is one of them.
    pub fn block(&self, number: u32) -> u32
        ensures { result ≡ slice_index_or self.now.before.items number self.now.all }
    {
        match self.before.get(number as usize) {
            None => self.all,
            Some(block) => *block,
        }
    }
}

/// The blocks of these objects.
pub fn blocks_of(alloc: Global, objects: &[Object]) -> Result<Blocks, AllocError>
    ensures { IfOk result (AreBlocksOf objects.now) }
{
    let mut before = Vec::new(alloc);
    let mut all = 0;
    for object in objects {
        before.push(all)?;
        all = with_object(all, is_made_first(object.life))?;
    }
    Ok(Blocks { before, all })
}

// How many objects are there from the start, with one more or not; more than 2^32 have no memory.
fn with_object(all: u32, is_first: bool) -> Result<u32, AllocError>
    ensures { IfOk result (λ more. more ≡ all + (if is_first then 1 else 0)) }
{
    if is_first {
        all.checked_add(1).ok_or(AllocError)
    } else {
        Ok(all)
    }
}
