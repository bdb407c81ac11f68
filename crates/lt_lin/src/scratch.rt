use crate::adding::{add_terms, push_negated, push_quotients};
use crate::growth::push_all;
use std::alloc::{AllocError, Global};
use std::marker::Model;
use std::mem;
use std::vec::Vec;

/// Terms of a row that is being made.
#[derive(Drop)]
pub(crate) struct Scratch {
    terms: Vec<(u32, i128)>,
    next: Vec<(u32, i128)>,
    limit: usize,
}

impl Model for Scratch {
    ghost use Rattle.std.specs.Prelude.{◌≤◌};
    ghost use Rattle.std.specs.Vec.{vec_capacity};
    ghost use Rattle.lt_lin.specs.Terms.{IsOrdered};
    ghost use Rattle.lt_lin.specs.Store.{Summed};

    ghost Value = { Summed };

    ghost view = { λ s. record { terms = s.terms.items; limit = s.limit } };

    ghost invariant = { λ s. IsOrdered s.terms.items × (s.limit ≤ vec_capacity s.terms) × (s.limit ≤ vec_capacity s.next) };
}

impl Scratch {
    ghost use Rattle.std.specs.Prelude.{◌≡◌, ◌+◌, ◌<◌, ◌≤◌, List, ℕ, ℤ, [], length, IsOk, OnOk, IsTrue, IsFalse, All, neg_ℤ, pos, ◌<ℤ◌};
    ghost use Rattle.lt_lin.specs.Terms.{IsOrdered, Fits, negated, scaled};
    ghost use Rattle.lt_lin.specs.Adding.{CanAdd, IsAdded};

    pub(crate) fn new(alloc: Global) -> Scratch
        ensures terms { result.terms ≡ [] }
        ensures limit { result.limit ≡ 0 }
    {
        Scratch {
            terms: Vec::new(alloc),
            next: Vec::new(alloc),
            limit: 0,
        }
    }

    /// Makes room for n terms; where there is that room already, takes nothing.
    pub(crate) fn make_room(&mut self, n: usize) -> Result<(), AllocError>
        ensures ok { OnOk result (n ≤ self.new.limit) }
        ensures grows { self.old.limit ≤ self.new.limit }
        ensures enough { n ≤ self.old.limit → IsOk result }
        ensures same { n ≤ self.old.limit → self.new.limit ≡ self.old.limit }
    {
        if self.limit < n {
            self.terms.clear();
            self.next.clear();
            self.terms.reserve(n)?;
            self.next.reserve(n)?;
            self.limit = n;
        }
        Ok(())
    }

    pub(crate) fn terms(&self) -> &[(u32, i128)]
        ensures same { result.now ≡ self.now.terms }
        ensures ordered { IsOrdered self.now.terms }
    {
        self.terms.as_slice()
    }

    pub(crate) fn clear(&mut self)
        ensures terms { self.new.terms ≡ [] }
        ensures limit { self.new.limit ≡ self.old.limit }
    {
        self.terms.clear();
    }

    /// Adds `by` times the row; false where a product or a sum doesn't fit.
    pub(crate) fn add(&mut self, by: i128, row: &[(u32, i128)]) -> bool
        requires row { IsOrdered row.now }
        requires room { length self.old.terms + length row.now ≤ self.old.limit }
        ensures added { IsTrue result → IsAdded self.old.terms by row.now self.new.terms }
        ensures unfit { IsFalse result → CanAdd self.old.terms by row.now → ⊥ }
        ensures len { IsTrue result → length self.new.terms ≤ length self.old.terms + length row.now }
        ensures limit { self.new.limit ≡ self.old.limit }
    {
        let fits = add_terms(self.terms.as_slice(), by, row, &mut self.next);
        if fits {
            mem::swap(&mut self.terms, &mut self.next);
        }
        fits
    }

    pub(crate) fn set(&mut self, terms: &[(u32, i128)])
        requires ordered { IsOrdered terms.now }
        requires room { length terms.now ≤ self.old.limit }
        ensures terms { self.new.terms ≡ terms.now }
        ensures limit { self.new.limit ≡ self.old.limit }
    {
        self.terms.clear();
        push_all(&mut self.terms, terms);
    }

    /// Takes the terms with each factor negated.
    pub(crate) fn set_negated(&mut self, terms: &[(u32, i128)])
        requires ordered { IsOrdered terms.now }
        requires room { length terms.now ≤ self.old.limit }
        requires fit { All (λ t. Fits (neg_ℤ t.1)) terms.now }
        ensures terms { self.new.terms ≡ negated terms.now }
        ensures limit { self.new.limit ≡ self.old.limit }
    {
        self.terms.clear();
        push_negated(&mut self.terms, terms);
    }

    /// Takes the terms with each factor divided by the divisor; false where it doesn't divide one.
    pub(crate) fn set_quotients(&mut self, terms: &[(u32, i128)], divisor: i128) -> bool
        requires ordered { IsOrdered terms.now }
        requires room { length terms.now ≤ self.old.limit }
        requires positive { pos 0 <ℤ divisor }
        ensures terms { IsTrue result → terms.now ≡ scaled divisor self.new.terms }
        ensures other { IsFalse result → (ts : List (ℕ × ℤ)) → terms.now ≡ scaled divisor ts → ⊥ }
        ensures limit { self.new.limit ≡ self.old.limit }
    {
        self.next.clear();
        let divides = push_quotients(&mut self.next, terms, divisor);
        if divides {
            mem::swap(&mut self.terms, &mut self.next);
        }
        divides
    }
}
