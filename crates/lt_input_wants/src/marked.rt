//! The places that a test sets.

ghost use Rattle.std.specs.Prelude.{◌≡◌, false, IfOk};
ghost use Rattle.lt_model.specs.declared.input.Place.{Place};
ghost use Rattle.lt_input_wants.specs.Marks.{Marks, is_marked};

use std::alloc::{AllocError, Global};
use std::collections::HashSet;

/// Places, by the names of their objects and their offsets.
#[derive(Drop)]
pub struct MarkedPlaces<'a> {
    places: HashSet<(&'a [u8], u64)>,
}

impl<'a> MarkedPlaces<'a> {
    /// No place is marked.
    pub fn new(alloc: Global) -> MarkedPlaces<'a>
        ensures { (place : Place) → is_marked result place ≡ false }
    {
        MarkedPlaces {
            places: HashSet::new(alloc),
        }
    }

    /// Whether the place of this object and offset is not marked yet; from now on it is.
    pub fn mark(&mut self, root: &'a [u8], offset: u64) -> Result<bool, AllocError>
        ensures { IfOk result (Marks (record { root = root.now; offset = offset }) self.old self.new) }
    {
        Ok(self.places.insert((root, offset))?)
    }
}
