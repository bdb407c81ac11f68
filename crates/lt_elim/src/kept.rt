// Rows that are kept in their order, each list of terms once.
ghost use Rattle.std.specs.Prelude.{◌≡◌, ℕ, List, [], length, slice_get, option_map, option_copied, OnOk, MatchOption, Some, None, pos};
ghost use Rattle.std.specs.Ordering.{int_eq};
ghost use Rattle.lt_lin.specs.declared.row.Row.{Row};
ghost use Rattle.lt_elim.specs.Elimination.{with_row, without};
ghost use Rattle.lt_elim.specs.Progress.{AllInOrder, found_factor, least_of};
ghost use Rattle.lt_elim.specs.Tracing.{IsKnownAs, AreKnown};

use crate::factor::factor_of;
use indexmap::IndexMap;
use std::alloc::{AllocError, Global};
use std::marker::Model;
use std::vec::Vec;

/// The constant of a kept row, and its number among the rows that are known.
#[derive(Clone, Copy)]
pub(crate) struct Held {
    pub(crate) constant: i128,
    pub(crate) number: u32,
}

/// Kept rows, in their order: of equal terms the least constant, in the place of the first.
#[derive(Drop)]
pub(crate) struct Kept {
    rows: IndexMap<Vec<(u32, i128)>, Held>,
}

impl Model for Kept {
    ghost use Rattle.lt_elim.specs.Progress.{KeptRows, kept_of};

    ghost Value = { KeptRows };

    ghost view = { λ k. kept_of k.rows.entries };
}

impl Kept {
    /// No rows.
    pub(crate) fn new(alloc: Global) -> Kept
        ensures rows { result.rows ≡ [] }
        ensures numbered { result.numbered ≡ [] }
    {
        Kept {
            rows: IndexMap::new(alloc),
        }
    }

    /// How many rows there are.
    pub(crate) fn len(&self) -> usize
        ensures { result ≡ length self.now.rows }
    {
        self.rows.len()
    }

    /// The terms of a row, its constant and its number.
    pub(crate) fn row(&self, place: usize) -> Option<(&[(u32, i128)], Held)>
        ensures row { option_map (λ r. record { terms = r.0.now; constant = r.1.constant }) result ≡ slice_get self.now.rows place }
        ensures known { MatchOption result (Unit {0}) (λ r. (known : List Row) → AreKnown known self.now.numbered → IsKnownAs known r.1.number (record { terms = r.0.now; constant = r.1.constant })) }
    {
        match self.rows.get_index(place) {
            None => None,
            Some((terms, held)) => Some((terms.as_slice(), *held)),
        }
    }

    /// One more row is kept, or makes a row of the same terms tighter.
    pub(crate) fn put(&mut self, terms: Vec<(u32, i128)>, held: Held) -> Result<(), AllocError>
        ensures rows { OnOk result (self.new.rows ≡ with_row self.old.rows (record { terms = terms.items; constant = held.constant })) }
        ensures known { OnOk result ((known : List Row) → AreKnown known self.old.numbered → IsKnownAs known held.number (record { terms = terms.items; constant = held.constant }) → AreKnown known self.new.numbered) }
    {
        let least = least_of(held, self.rows.get(&terms));
        self.rows.insert(terms, least)?;
        Ok(())
    }

    /// Only the rows without the variable are left, in their order.
    pub(crate) fn drop_variable(&mut self, variable: u32)
        requires { AllInOrder self.old.rows }
        ensures rows { self.new.rows ≡ without variable self.old.rows }
        ensures known { (known : List Row) → AreKnown known self.old.numbered → AreKnown known self.new.numbered }
    {
        self.rows.retain(
            |terms: &Vec<(u32, i128)>, held: &mut Held| -> bool
                ensures { (result ≡ int_eq (found_factor variable terms.now.items) (pos 0)) × (held.new ≡ held.old) }
            { factor_of(variable, terms.as_slice()) == 0 },
        );
    }
}

// The one with the lesser constant, if another is known.
fn least_of(held: Held, known: Option<&Held>) -> Held
    ensures { result ≡ least_of held (option_copied known.entry) }
{
    match known {
        Some(known) if known.constant <= held.constant => *known,
        _ => held,
    }
}
