// Terms are added by going along both lists at once, the lesser variable first.
ghost use Rattle.std.specs.Prelude.{◌≡◌, ◌+◌, ◌≤◌, length, vec_len, IsTrue, IsFalse, ◌+ℤ◌, ◌*ℤ◌, ◌≤ℤ◌, ◌<ℤ◌, ℕ, ℤ, List, All, neg_ℤ, MatchOption, pos, if◌then◌else◌, [], ◌∷◌, ◌++◌};
ghost use Rattle.std.specs.Option.{SomeIff};
ghost use Rattle.std.specs.Vec.{vec_capacity};
ghost use Rattle.std.specs.Ordering.{int_eq};
ghost use Rattle.lt_lin.specs.Terms.{IsOrdered, Fits, negated, scaled};
ghost use Rattle.lt_lin.specs.Adding.{CanAdd, IsAdded, first_factor, past_variable, first_variable};

use std::vec::Vec;

/// Adds `by` times the row to the sum, into `next`; false where a product or a sum doesn't fit.
pub fn add_terms(
    sum: &[(u32, i128)],
    by: i128,
    row: &[(u32, i128)],
    next: &mut Vec<(u32, i128)>,
) -> bool
    requires sum { IsOrdered sum.now }
    requires row { IsOrdered row.now }
    requires room { length sum.now + length row.now ≤ vec_capacity next.old }
    ensures added { IsTrue result → IsAdded sum.now by row.now next.new.items }
    ensures unfit { IsFalse result → CanAdd sum.now by row.now → ⊥ }
    ensures len { IsTrue result → vec_len next.new ≤ length sum.now + length row.now }
    ensures capacity { vec_capacity next.new ≡ vec_capacity next.old }
{
    next.clear();
    let mut left = sum;
    let mut right = row;
    'terms: while let Some(x) = first_variable(left, right) {
        let (old, more_left) = split_factor(left, x);
        let (factor, more_right) = split_factor(right, x);
        match add_product(old, by, factor) {
            None => return false,
            Some(c) => push_factor(next, x, c),
        }
        left = more_left;
        right = more_right;
    }
    true
}

fn first_variable(left: &[(u32, i128)], right: &[(u32, i128)]) -> Option<u32>
    ensures { result ≡ first_variable left.now right.now }
{
    match (left.first(), right.first()) {
        (None, None) => None,
        (None, Some(t)) => Some(t.0),
        (Some(s), None) => Some(s.0),
        (Some(s), Some(t)) => Some(if t.0 < s.0 { t.0 } else { s.0 }),
    }
}

// The factor of x, which is no greater than the first variable, and the terms after it.
fn split_factor(terms: &[(u32, i128)], x: u32) -> (i128, &[(u32, i128)])
    ensures factor { result.0 ≡ first_factor x terms.now }
    ensures rest { result.1.now ≡ past_variable x terms.now }
{
    match terms.split_first() {
        None => (0, terms),
        Some((t, rest)) => { if x == t.0 { (t.1, rest) } else { (0, terms) } }
    }
}

fn push_factor(terms: &mut Vec<(u32, i128)>, x: u32, factor: i128)
    requires { vec_len terms.old + 1 ≤ vec_capacity terms.old }
    ensures items { terms.new.items ≡ (if int_eq factor (pos 0) then terms.old.items else terms.old.items ++ (x, factor) ∷ []) }
    ensures len { vec_len terms.new ≤ vec_len terms.old + 1 }
    ensures capacity { vec_capacity terms.new ≡ vec_capacity terms.old }
{
    if factor != 0 {
        terms.push_reserved((x, factor));
    }
}

/// The sum and `by` times the factor, where the product and the sum fit.
pub fn add_product(sum: i128, by: i128, factor: i128) -> Option<i128>
    ensures { SomeIff result (Fits (by *ℤ factor) × Fits (sum +ℤ by *ℤ factor)) (sum +ℤ by *ℤ factor) }
{
    match product_of(by, factor) {
        None => None,
        Some(product) => sum_of(sum, product),
    }
}

fn product_of(a: i128, b: i128) -> Option<i128>
    ensures { SomeIff result (Fits (a *ℤ b)) (a *ℤ b) }
{
    a.checked_mul(b)
}

fn sum_of(a: i128, b: i128) -> Option<i128>
    ensures { SomeIff result (Fits (a +ℤ b)) (a +ℤ b) }
{
    a.checked_add(b)
}

/// Appends the terms with each factor negated.
pub(crate) fn push_negated(new: &mut Vec<(u32, i128)>, terms: &[(u32, i128)])
    requires empty { new.old.items ≡ [] }
    requires room { length terms.now ≤ vec_capacity new.old }
    requires fit { All (λ t. Fits (neg_ℤ t.1)) terms.now }
    ensures items { new.new.items ≡ negated terms.now }
    ensures capacity { vec_capacity new.new ≡ vec_capacity new.old }
{
    'terms: for (x, c) in terms {
        new.push_reserved((*x, -*c));
    }
}

/// Appends the terms with each factor divided by the divisor; false where it doesn't divide one.
pub(crate) fn push_quotients(
    new: &mut Vec<(u32, i128)>,
    terms: &[(u32, i128)],
    divisor: i128,
) -> bool
    requires empty { new.old.items ≡ [] }
    requires room { length terms.now ≤ vec_capacity new.old }
    requires positive { pos 0 <ℤ divisor }
    ensures items { IsTrue result → terms.now ≡ scaled divisor new.new.items }
    ensures other { IsFalse result → (ts : List (ℕ × ℤ)) → terms.now ≡ scaled divisor ts → ⊥ }
    ensures capacity { vec_capacity new.new ≡ vec_capacity new.old }
{
    'terms: for (x, c) in terms {
        match exact_quotient(*c, divisor) {
            None => return false,
            Some(q) => new.push_reserved((*x, q)),
        }
    }
    true
}

fn exact_quotient(c: i128, divisor: i128) -> Option<i128>
    requires { pos 0 <ℤ divisor }
    ensures { MatchOption result ((q : ℤ) → c ≡ divisor *ℤ q → ⊥) (λ q. c ≡ divisor *ℤ q) }
{
    if c.rem_euclid(divisor) == 0 {
        Some(c.div_euclid(divisor))
    } else {
        None
    }
}

/// The quotient, rounded down.
pub(crate) fn floor_quotient(c: i128, divisor: i128) -> i128
    requires { pos 0 <ℤ divisor }
    ensures at_most { (divisor *ℤ result) ≤ℤ c }
    ensures above { c <ℤ (divisor *ℤ result +ℤ divisor) }
{
    c.div_euclid(divisor)
}
