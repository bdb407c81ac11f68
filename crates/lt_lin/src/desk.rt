ghost use Rattle.std.specs.Prelude.{◌≡◌, ◌+◌, ◌<◌, ◌≤◌, ◌^◌, length, [], ◌∷◌, ◌++◌, IsOk, OnOk};
ghost use Rattle.std.specs.Option.{SomeIff};
ghost use Rattle.lt_lin.specs.Room.{places};

use crate::known::Known;
use crate::scratch::Scratch;
use std::alloc::{AllocError, Global};

/// What a check of lines works on: the rows that are known, and a row that is being made.
#[derive(Drop)]
pub(crate) struct Desk {
    pub(crate) known: Known,
    pub(crate) scratch: Scratch,
    pub(crate) limit: usize,
    ghost small: { limit < 2 ^ 64 },
    ghost known_fits: { limit ≤ known.limit },
    ghost scratch_fits: { limit ≤ scratch.limit },
}

impl Desk {
    pub(crate) fn new(alloc: Global) -> Desk
        ensures rows { result.known.rows ≡ [] }
        ensures limit { result.limit ≡ 0 }
    {
        Desk {
            known: Known::new(alloc),
            scratch: Scratch::new(alloc),
            limit: 0,
        }
    }

    /// Makes room for one more row and the terms; where there is that room already, takes nothing.
    pub(crate) fn make_room(&mut self, terms: usize) -> Result<(), AllocError>
        ensures rows { self.new.known.rows ≡ self.old.known.rows }
        ensures ok { OnOk result (places self.old.known.rows + 1 + terms ≤ self.new.limit) }
        ensures grows { self.old.limit ≤ self.new.limit }
        ensures enough { places self.old.known.rows + 1 + terms ≤ self.old.limit → IsOk result }
        ensures same { places self.old.known.rows + 1 + terms ≤ self.old.limit → self.new.limit ≡ self.old.limit }
    {
        let limit = self.limit;
        let Some(n) = places_needed(self.known.places(), terms) else {
            return Err(AllocError);
        };
        if limit < n {
            self.known.make_room(n)?;
            self.scratch.make_room(n)?;
            self.limit = n;
        }
        Ok(())
    }

    /// Makes the row known that has the terms that were made.
    pub(crate) fn keep(&mut self, constant: i128)
        requires { places self.old.known.rows + 1 + length self.old.scratch.terms ≤ self.old.limit }
        ensures rows { self.new.known.rows ≡ self.old.known.rows ++ record { terms = self.old.scratch.terms; constant = constant } ∷ [] }
        ensures limit { self.new.limit ≡ self.old.limit }
    {
        self.known.push(self.scratch.terms(), constant);
    }
}

// The places of the rows that are known and of one more row.
fn places_needed(known: usize, terms: usize) -> Option<usize>
    ensures { SomeIff result (known + 1 + terms < 2 ^ 64) (known + 1 + terms) }
{
    match known.checked_add(1) {
        None => None,
        Some(rows) => rows.checked_add(terms),
    }
}
