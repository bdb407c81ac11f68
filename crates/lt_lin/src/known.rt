ghost use Rattle.std.specs.Prelude.{◌≡◌, ◌-◌, ◌≤◌, length, take, drop};
ghost use Rattle.lt_lin.specs.Store.{start_at};

use crate::growth::{push_all, reserve_up_to};
use std::alloc::{AllocError, Global};
use std::marker::Model;
use std::vec::Vec;

/// Where the terms of a row end, and its constant.
#[derive(Clone, Copy)]
pub(crate) struct Ending {
    pub(crate) end: usize,
    pub(crate) constant: i128,
}

/// The rows that are known, their terms one after another.
#[derive(Drop)]
pub(crate) struct Known {
    terms: Vec<(u32, i128)>,
    endings: Vec<Ending>,
    limit: usize,
}

impl Model for Known {
    ghost use Rattle.std.specs.Prelude.{◌≤◌, vec_len};
    ghost use Rattle.std.specs.Vec.{vec_capacity};
    ghost use Rattle.lt_lin.specs.Store.{Stored, rows_from, AreEnds, AllOrdered};

    ghost Value = { Stored };

    ghost view = { λ k. record { rows = rows_from k.terms.items 0 k.endings.items; limit = k.limit } };

    ghost invariant = { λ k. AreEnds 0 k.endings.items (vec_len k.terms) × AllOrdered (rows_from k.terms.items 0 k.endings.items) × (k.limit ≤ vec_capacity k.terms) × (k.limit ≤ vec_capacity k.endings) };
}

impl Known {
    ghost use Rattle.std.specs.Prelude.{◌≡◌, ◌+◌, ◌<◌, ◌≤◌, [], ◌∷◌, ◌++◌, length, take, slice_get, Some, None, MatchOption, IfSome, IsOk, OnOk};
    ghost use Rattle.lt_lin.specs.declared.row.Row.{Row};
    ghost use Rattle.lt_lin.specs.Terms.{IsOrdered};
    ghost use Rattle.lt_lin.specs.Room.{places};

    pub(crate) fn new(alloc: Global) -> Known
        ensures rows { result.rows ≡ [] }
        ensures limit { result.limit ≡ 0 }
    {
        Known {
            terms: Vec::new(alloc),
            endings: Vec::new(alloc),
            limit: 0,
        }
    }

    /// Makes room for n places; where there is that room already, takes nothing.
    pub(crate) fn make_room(&mut self, n: usize) -> Result<(), AllocError>
        ensures rows { self.new.rows ≡ self.old.rows }
        ensures ok { OnOk result (n ≤ self.new.limit) }
        ensures grows { self.old.limit ≤ self.new.limit }
        ensures enough { n ≤ self.old.limit → IsOk result }
        ensures same { n ≤ self.old.limit → self.new.limit ≡ self.old.limit }
    {
        if self.limit < n {
            reserve_up_to(&mut self.terms, n)?;
            reserve_up_to(&mut self.endings, n)?;
            self.limit = n;
        }
        Ok(())
    }

    pub(crate) fn len(&self) -> usize
        ensures { result ≡ length self.now.rows }
    {
        self.endings.len()
    }

    /// The places that the rows take.
    pub(crate) fn places(&self) -> usize
        ensures { result ≡ places self.now.rows }
    {
        self.endings.len() + self.terms.len()
    }

    /// The terms and the constant of a row, if the row is known.
    pub(crate) fn row(&self, i: u32) -> Option<(&[(u32, i128)], i128)>
        ensures row { MatchOption result (slice_get self.now.rows i ≡ None) (λ p. slice_get self.now.rows i ≡ Some (record { terms = p.0.now; constant = p.1 })) }
        ensures ordered { IfSome result (λ p. IsOrdered p.0.now) }
    {
        let i = i as usize;
        if i >= self.endings.len() {
            return None;
        }
        let start = start_of(self.endings.as_slice(), i);
        let Ending { end, constant } = self.endings[i];
        Some((part(self.terms.as_slice(), start, end), constant))
    }

    pub(crate) fn push(&mut self, terms: &[(u32, i128)], constant: i128)
        requires ordered { IsOrdered terms.now }
        requires room { places self.old.rows + 1 + length terms.now ≤ self.old.limit }
        ensures rows { self.new.rows ≡ self.old.rows ++ record { terms = terms.now; constant = constant } ∷ [] }
        ensures limit { self.new.limit ≡ self.old.limit }
    {
        push_all(&mut self.terms, terms);
        self.endings.push_reserved(Ending {
            end: self.terms.len(),
            constant,
        });
    }

    /// Forgets the rows from the row numbered n on.
    pub(crate) fn truncate(&mut self, n: usize)
        requires { n ≤ length self.old.rows }
        ensures rows { self.new.rows ≡ take n self.old.rows }
        ensures limit { self.new.limit ≡ self.old.limit }
    {
        let end = start_of(self.endings.as_slice(), n);
        self.endings.truncate(n);
        self.terms.truncate(end);
    }
}

// Where the terms of the row numbered i begin, or those of the next row.
fn start_of(endings: &[Ending], i: usize) -> usize
    requires { i ≤ length endings.now }
    ensures { result ≡ start_at 0 endings.now i }
{
    if i == 0 { 0 } else { endings[i - 1].end }
}

fn part(terms: &[(u32, i128)], start: usize, end: usize) -> &[(u32, i128)]
    requires start { start ≤ end }
    requires end { end ≤ length terms.now }
    ensures { result.now ≡ take (end - start) (drop start terms.now) }
{
    &terms[start..end]
}
