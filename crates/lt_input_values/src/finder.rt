//! How free cells, what is set in them, and what functions without a body may give are found.

ghost use Rattle.std.specs.Prelude.{◌≡◌, ℤ, IfOk, option_map};
ghost use Rattle.std.specs.List.{find};
ghost use Rattle.lt_entry.specs.Conditions.{same_place};
ghost use Rattle.lt_input_values.specs.Finding.{IsFinder, is_within, may_give};
ghost use Rattle.lt_input_values.specs.Maps.{last_at};

use crate::bounds::{Bounds, bounds_for, bounds_of};
use crate::cell_maps::{first_cells, last_sets};
use lt_input_wants::{place_set, same_place};
use lt_model::{CellSet, FreeCell, Input, Place, Spec};
use std::alloc::{AllocError, Global};
use std::collections::HashMap;

/// What a specification says and an input sets, by places and names.
#[derive(Drop)]
pub struct Maps<'a> {
    pub cells: HashMap<(&'a [u8], u64), &'a FreeCell>,
    pub sets: HashMap<(&'a [u8], u64), &'a CellSet>,
    pub bounds: HashMap<&'a [u8], Bounds>,
}

/// A specification and an input. What is in them is found in maps, or by a search where there are none.
#[derive(Drop)]
pub struct Finder<'a> {
    pub spec: &'a Spec,
    pub input: &'a Input,
    pub maps: Option<Maps<'a>>,
}

impl<'a> Finder<'a> {
    /// One that searches. It takes no memory.
    pub fn searching(spec: &'a Spec, input: &'a Input) -> Finder<'a>
        ensures finder { IsFinder result }
        ensures spec { result.spec.now ≡ spec.now }
        ensures input { result.input.now ≡ input.now }
    {
        Finder {
            spec,
            input,
            maps: None,
        }
    }

    /// One that has maps.
    pub fn mapped(alloc: Global, spec: &'a Spec, input: &'a Input) -> Result<Finder<'a>, AllocError>
        ensures finder { IfOk result (λ finder. IsFinder finder) }
        ensures spec { IfOk result (λ finder. finder.spec.now ≡ spec.now) }
        ensures input { IfOk result (λ finder. finder.input.now ≡ input.now) }
    {
        let cells = first_cells(alloc, spec.cells.as_slice())?;
        let sets = last_sets(alloc, input.cells.as_slice())?;
        let bounds = bounds_of(alloc, spec.stubs.as_slice())?;
        Ok(Finder {
            spec,
            input,
            maps: Some(Maps {
                cells,
                sets,
                bounds,
            }),
        })
    }

    /// The free cell at a place.
    pub fn cell_at(&self, place: &Place) -> Option<&FreeCell>
        requires { IsFinder self.now }
        ensures { option_map (λ cell. cell.now) result ≡ find (λ cell. same_place cell.at place.now) self.now.spec.now.cells }
    {
        match &self.maps {
            Some(maps) => maps
                .cells
                .get(&(place.root.as_slice(), place.offset))
                .copied(),
            None => self
                .spec
                .cells
                .as_slice()
                .iter()
                .find(|cell| same_place(&cell.at, place)),
        }
    }

    /// What is set last at a place.
    pub fn last_set(&self, place: &Place) -> Option<&CellSet>
        requires { IsFinder self.now }
        ensures { option_map (λ set. set.now) result ≡ last_at place.now self.now.input.now.cells }
    {
        match &self.maps {
            Some(maps) => maps
                .sets
                .get(&(place.root.as_slice(), place.offset))
                .copied(),
            None => self
                .input
                .cells
                .as_slice()
                .iter()
                .rev()
                .find(|it| same_place(place_set(it), place)),
        }
    }

    /// The bounds of all ranges of a name.
    pub fn bounds(&self, name: &[u8]) -> Option<Bounds>
        requires { IsFinder self.now }
        ensures { (z : ℤ) → is_within result z ≡ may_give self.now.spec.now.stubs name.now z }
    {
        match &self.maps {
            Some(maps) => maps.bounds.get(name).copied(),
            None => bounds_for(self.spec.stubs.as_slice(), name),
        }
    }
}
