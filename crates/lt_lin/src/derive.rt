// The rows that combinations, divisions and splits give.
ghost use Rattle.std.specs.Prelude.{◌≡◌, ◌+◌, ◌≤◌, ◌↔◌, ◌⊎◌, length, IsTrue, MatchOption, IfSome, option_map, ◌<◌, ◌^◌, pos, neg_ℤ, ◌+ℤ◌, All};
ghost use Rattle.std.specs.Option.{SomeIff};
ghost use Rattle.lt_lin.specs.declared.row.Row.{Row};
ghost use Rattle.lt_lin.specs.Terms.{IsOrdered, Fits};
ghost use Rattle.lt_lin.specs.Rows.{IsContradiction};
ghost use Rattle.lt_lin.specs.Refutation.{IsCombination, IsDivision, CanSplit};
ghost use Rattle.lt_lin.specs.Room.{terms_in, terms_added};
ghost use Rattle.lt_lin.specs.Adding.{AddsPair};

use crate::adding::{add_product, floor_quotient};
use crate::known::Known;
use crate::scratch::Scratch;

/// Makes the terms of the pairs' sum and gives its constant, or None where the combination isn't valid.
pub(crate) fn sum_of_rows(
    known: &Known,
    pairs: &[(u32, i128)],
    scratch: &mut Scratch,
) -> Option<i128>
    requires { terms_added known.now.rows pairs.now ≤ scratch.old.limit }
    ensures sum { MatchOption result ((r : Row) → IsCombination known.now.rows pairs.now r → ⊥) (λ k. IsCombination known.now.rows pairs.now (record { terms = scratch.new.terms; constant = k })) }
    ensures len { IfSome result (λ _. length scratch.new.terms ≤ terms_added known.now.rows pairs.now) }
    ensures limit { scratch.new.limit ≡ scratch.old.limit }
{
    scratch.clear();
    let mut constant = 0;
    'pairs: for (row, by) in pairs {
        match add_row(known, scratch, constant, *row, *by) {
            None => return None,
            Some(next) => constant = next,
        }
    }
    Some(constant)
}

// Adds a row to the sum that has the constant, and gives the new constant.
fn add_row(known: &Known, scratch: &mut Scratch, constant: i128, row: u32, by: i128) -> Option<i128>
    requires { length scratch.old.terms + terms_in known.now.rows row ≤ scratch.old.limit }
    ensures sum { AddsPair known.now.rows (record { terms = scratch.old.terms; constant = constant }) (row, by) (option_map (λ k. record { terms = scratch.new.terms; constant = k }) result) }
    ensures ordered { IfSome result (λ _. IsOrdered scratch.new.terms) }
    ensures len { IfSome result (λ _. length scratch.new.terms ≤ length scratch.old.terms + terms_in known.now.rows row) }
    ensures limit { scratch.new.limit ≡ scratch.old.limit }
{
    if by < 0 {
        return None;
    }
    let Some(found) = known.row(row) else {
        return None;
    };
    let (terms, row_constant) = found;
    let Some(next) = add_product(constant, by, row_constant) else {
        return None;
    };
    if scratch.add(by, terms) {
        Some(next)
    } else {
        None
    }
}

/// Makes the terms of the row divided by the divisor and gives its constant, or None where the division isn't valid.
pub(crate) fn quotient_of_row(
    known: &Known,
    row: u32,
    divisor: i128,
    scratch: &mut Scratch,
) -> Option<i128>
    requires { terms_in known.now.rows row ≤ scratch.old.limit }
    ensures quotient { MatchOption result ((r : Row) → IsDivision known.now.rows row divisor r → ⊥) (λ k. IsDivision known.now.rows row divisor (record { terms = scratch.new.terms; constant = k })) }
    ensures len { IfSome result (λ _. length scratch.new.terms ≡ terms_in known.now.rows row) }
    ensures limit { scratch.new.limit ≡ scratch.old.limit }
{
    if divisor <= 0 {
        return None;
    }
    let Some(found) = known.row(row) else {
        return None;
    };
    let (terms, constant) = found;
    if scratch.set_quotients(terms, divisor) {
        Some(floor_quotient(constant, divisor))
    } else {
        None
    }
}

/// The terms of all the rows of the pairs, unless they are too many to count.
pub(crate) fn terms_added(known: &Known, pairs: &[(u32, i128)]) -> Option<usize>
    ensures { SomeIff result (terms_added known.now.rows pairs.now < 2 ^ 64) (terms_added known.now.rows pairs.now) }
{
    let mut count: usize = 0;
    'pairs: for (row, _) in pairs {
        match count.checked_add(terms_in(known, *row)) {
            None => return None,
            Some(more) => count = more,
        }
    }
    Some(count)
}

/// The terms of the row, none where it isn't known.
pub(crate) fn terms_in(known: &Known, row: u32) -> usize
    ensures { result ≡ terms_in known.now.rows row }
{
    match known.row(row) {
        None => 0,
        Some((terms, _)) => terms.len(),
    }
}

/// The constant of the row that a split's upper side knows, or None where the terms and the bound can't split.
pub(crate) fn high_constant(terms: &[(u32, i128)], bound: i128) -> Option<i128>
    ensures { SomeIff result (CanSplit terms.now bound) (neg_ℤ (bound +ℤ pos 1)) }
{
    match bound.checked_add(1) {
        None => None,
        Some(next) => { if can_negate(terms) { Some(-next) } else { None } }
    }
}

fn can_negate(terms: &[(u32, i128)]) -> bool
    ensures { IsTrue result ↔ All (λ t. Fits (neg_ℤ t.1)) terms.now }
{
    'terms: for (_, c) in terms {
        if *c == i128::MIN {
            return false;
        }
    }
    true
}

// Whether the row of the terms and the constant is a negative constant without variables.
fn is_contradiction(terms: &[(u32, i128)], constant: i128) -> bool
    ensures { IsTrue result ↔ IsContradiction (record { terms = terms.now; constant = constant }) }
{
    terms.is_empty() && constant < 0
}

/// Whether there was a contradiction before, or the row of the terms and the constant is one.
pub(crate) fn contradicts(before: bool, terms: &[(u32, i128)], constant: i128) -> bool
    ensures { IsTrue result ↔ (IsTrue before ⊎ IsContradiction (record { terms = terms.now; constant = constant })) }
{
    before || is_contradiction(terms, constant)
}
