// Rows divided by what divides their factors.
ghost use Rattle.std.specs.Prelude.{◌≡◌, ◌<◌, ◌≤◌, ◌^◌, ℤ, pos, ◌<ℤ◌, map, length, [], IfOk};
ghost use Rattle.std.specs.Int.{int_div_euclid};
ghost use Rattle.std.specs.Vec.{vec_capacity};
ghost use Rattle.lt_lin.specs.Refutation.{IsQuotient};
ghost use Rattle.lt_elim.specs.Divisor.{content};
ghost use Rattle.lt_elim.specs.Combination.{normalised};

use crate::divisor::content;
use std::alloc::{AllocError, Global};
use std::vec::Vec;

/// A row with the greatest number by which it was divided.
#[derive(Drop)]
pub(crate) struct Normal {
    pub(crate) terms: Vec<(u32, i128)>,
    pub(crate) constant: i128,
    pub(crate) divisor: i128,
}

/// The row divided by the greatest common divisor of its factors.
pub(crate) fn normalise(
    alloc: Global,
    terms: Vec<(u32, i128)>,
    constant: i128,
) -> Result<Normal, AllocError>
    requires { content terms.items < 2 ^ 127 }
    ensures row { IfOk result (λ n. record { terms = n.terms.items; constant = n.constant } ≡ normalised (record { terms = terms.items; constant = constant })) }
    ensures quotient { IfOk result (λ n. IsQuotient (record { terms = terms.items; constant = constant }) n.divisor (record { terms = n.terms.items; constant = n.constant })) }
{
    let divisor = content(terms.as_slice());
    if divisor <= 1 {
        return Ok(Normal {
            terms,
            constant,
            divisor: 1,
        });
    }
    let divisor = divisor as i128;
    let mut new = Vec::new(alloc);
    new.reserve(terms.len())?;
    push_quotients(&mut new, terms.as_slice(), divisor);
    Ok(Normal {
        terms: new,
        constant: floor_quotient(constant, divisor),
        divisor,
    })
}

// Appends the terms with each factor divided, rounding down.
fn push_quotients(new: &mut Vec<(u32, i128)>, terms: &[(u32, i128)], divisor: i128)
    requires positive { pos 0 <ℤ divisor }
    requires empty { new.old.items ≡ [] }
    requires room { length terms.now ≤ vec_capacity new.old }
    ensures { new.new.items ≡ map (λ t. (t.0, int_div_euclid t.1 divisor)) terms.now }
{
    'terms: for (x, factor) in terms {
        let quotient = floor_quotient(*factor, divisor);
        new.push_reserved((*x, quotient));
    }
}

// The quotient, rounded down.
fn floor_quotient(z: i128, divisor: i128) -> i128
    requires { pos 0 <ℤ divisor }
    ensures { result ≡ int_div_euclid z divisor }
{
    z.div_euclid(divisor)
}
