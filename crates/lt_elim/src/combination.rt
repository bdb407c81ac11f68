// The combination of two rows without a variable.
ghost use Rattle.std.specs.Prelude.{◌≡◌, ◌<◌, ◌^◌, ◌||◌, ◌&&◌, true, false, IfOk, MatchOption};
ghost use Rattle.lt_lin.specs.Terms.{IsOrdered};
ghost use Rattle.lt_elim.specs.Divisor.{content, passes};
ghost use Rattle.lt_elim.specs.Combination.{combination, is_wide, multipliers_of};
ghost use Rattle.lt_elim.specs.Summing.{CanSum, IsSum, CanCombine, any_passes, is_past};

use crate::divisor::gcd;
use crate::factor::factor_of;
use lt_lin::{Row, add_product, add_terms};
use std::alloc::{AllocError, Global};
use std::vec::Vec;

/// The greatest size that a number may have where there is a limit.
pub(crate) const LIMIT: u128 = 1 << 120;

/// Terms in order, and a constant.
#[derive(Drop)]
pub(crate) struct Sum {
    pub(crate) terms: Vec<(u32, i128)>,
    pub(crate) constant: i128,
}

/// The least positive combination of the rows without the variable, the last that stands in them; None where there is a
/// limit and a number passes it.
pub(crate) fn combine(
    alloc: Global,
    limited: bool,
    variable: u32,
    raising: &Row,
    lowering: &Row,
) -> Result<Option<Sum>, AllocError>
    requires { CanCombine limited variable raising.now lowering.now }
    ensures { IfOk result (λ o. MatchOption o ((limited && is_wide variable raising.now lowering.now) ≡ true) (λ s. ((limited && is_wide variable raising.now lowering.now) ≡ false) × (record { terms = s.terms.items; constant = s.constant } ≡ combination variable raising.now lowering.now) × (content s.terms.items < 2 ^ 127))) }
{
    let up = factor_of(variable, raising.terms.as_slice()).unsigned_abs();
    let down = factor_of(variable, lowering.terms.as_slice()).unsigned_abs();
    let by = multipliers_of(up, down);
    let nothing = Sum {
        terms: Vec::new(alloc),
        constant: 0,
    };
    let terms = raising.terms.as_slice();
    let Some(raised) = add_row(
        alloc,
        limited,
        &nothing,
        by.of_raising,
        terms,
        raising.constant,
    )?
    else {
        return Ok(None);
    };
    let terms = lowering.terms.as_slice();
    let Some(lowered) = add_row(
        alloc,
        limited,
        &nothing,
        by.of_lowering,
        terms,
        lowering.constant,
    )?
    else {
        return Ok(None);
    };
    add_row(
        alloc,
        limited,
        &raised,
        1,
        lowered.terms.as_slice(),
        lowered.constant,
    )
}

/// Two numbers of no common divisor by which rows are multiplied.
#[derive(Clone, Copy)]
pub(crate) struct Multipliers {
    pub(crate) of_raising: i128,
    pub(crate) of_lowering: i128,
}

/// The multipliers of rows that have factors of these sizes.
pub(crate) fn multipliers_of(up: u128, down: u128) -> Multipliers
    requires positive { 0 < up }
    requires up { up < 2 ^ 127 }
    requires down { down < 2 ^ 127 }
    ensures { record { of_raising = result.of_raising; of_lowering = result.of_lowering } ≡ multipliers_of up down }
{
    let divisor = gcd(up, down);
    let of_raising = (down / divisor) as i128;
    let of_lowering = (up / divisor) as i128;
    Multipliers {
        of_raising,
        of_lowering,
    }
}

// `by` times a row added to a sum; None where a number doesn't fit, or there is a limit and a number of the new sum
// passes it.
fn add_row(
    alloc: Global,
    limited: bool,
    base: &Sum,
    by: i128,
    terms: &[(u32, i128)],
    constant: i128,
) -> Result<Option<Sum>, AllocError>
    requires base { IsOrdered base.now.terms.items }
    requires terms { IsOrdered terms.now }
    ensures { IfOk result (λ o. MatchOption o (CanSum limited (record { terms = base.now.terms.items; constant = base.now.constant }) by (record { terms = terms.now; constant = constant }) → ⊥) (λ s. IsSum limited (record { terms = base.now.terms.items; constant = base.now.constant }) by (record { terms = terms.now; constant = constant }) (record { terms = s.terms.items; constant = s.constant }))) }
{
    let Some(constant) = add_product(base.constant, by, constant) else {
        return Ok(None);
    };
    let mut next = Vec::new(alloc);
    next.reserve(base.terms.len() + terms.len())?;
    if !add_terms(base.terms.as_slice(), by, terms, &mut next) {
        return Ok(None);
    }
    if is_past(limited, next.as_slice(), constant) {
        return Ok(None);
    }
    Ok(Some(Sum {
        terms: next,
        constant,
    }))
}

// Whether there is a limit and a number passes it.
fn is_past(limited: bool, terms: &[(u32, i128)], constant: i128) -> bool
    ensures { result ≡ is_past limited constant terms.now }
{
    limited && (passes(constant) || any_passes(terms))
}

fn any_passes(terms: &[(u32, i128)]) -> bool
    ensures { result ≡ any_passes terms.now }
{
    'terms: for (_, factor) in terms {
        if passes(*factor) {
            return true;
        }
    }
    false
}

/// Whether the size of a number passes the limit.
pub(crate) fn passes(z: i128) -> bool
    ensures { result ≡ passes z }
{
    z.unsigned_abs() > LIMIT
}
