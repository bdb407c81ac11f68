// The point of a system: each variable takes the least value that its rows allow, else the greatest, else 0.
ghost use Rattle.std.specs.Prelude.{◌≡◌, pos, [], length, slice_index_or, false, IsNone, IfOk};
ghost use Rattle.lt_elim.specs.Fraction.{fraction, whole};
ghost use Rattle.lt_elim.specs.Decision.{point, terms_added, bound, best_of, least_allowed};
ghost use Rattle.lt_elim.specs.Reckoning.{Gives, fractions_of, better_of, IsBounding, AreBounding, term_added, CanAddTerm, CanAddTerms, CanBound, CanBoundAll};
ghost use Rattle.lt_elim.specs.Stages.{under};
ghost use Rattle.lt_elim.specs.Tracing.{bare};
ghost use Rattle.lt_elim.specs.Values.{HaveBounds, CanReckon, reckoned};

use crate::arithmetic::{negated_over, plus, times, whole};
use crate::comparison::{greater, lesser};
use crate::factor::factor_of;
use crate::fraction::Fraction;
use crate::numbered::Numbered;
use crate::stage::Stage;
use lt_lin::Row;
use std::alloc::{AllocError, Global};
use std::vec::Vec;

/// What comes of the stages of all variables.
#[derive(Drop)]
pub(crate) enum Reckoned {
    /// The values of the variables.
    Values(Vec<Fraction>),
    /// A number passes the limit in the making of the variable's value.
    Passes(u32),
}

/// The values of the variables, from the first to the last, which is that of the first stage.
pub(crate) fn values_of(
    alloc: Global,
    limited: bool,
    variables: u32,
    stages: &[Stage],
) -> Result<Reckoned, AllocError>
    requires count { length stages.now ≡ variables }
    requires bounding { HaveBounds variables stages.now }
    requires can { limited ≡ false → CanReckon variables stages.now }
    ensures { IfOk result (λ r. under limited variables stages.now (point []) ≡ reckoned r) }
{
    let mut values = Vec::new(alloc);
    'variables: for variable in 0..variables {
        let stage = &stages[(variables - 1 - variable) as usize];
        let Some(next) = value(limited, variable, values.as_slice(), stage) else {
            return Ok(Reckoned::Passes(variable));
        };
        values.push(next)?;
    }
    Ok(Reckoned::Values(values))
}

/// The value of a variable, by the rows of its stage.
fn value(limited: bool, variable: u32, values: &[Fraction], stage: &Stage) -> Option<Fraction>
    requires raising { AreBounding variable (bare stage.now.raising.items) }
    requires lowering { AreBounding variable (bare stage.now.lowering.items) }
    ensures value { Gives limited result (least_allowed limited variable (fractions_of values.now) (bare stage.now.raising.items) (bare stage.now.lowering.items)) }
    ensures unfit { IsNone result → limited ≡ false → CanBoundAll variable (fractions_of values.now) (bare stage.now.raising.items) → CanBoundAll variable (fractions_of values.now) (bare stage.now.lowering.items) → ⊥ }
{
    if let Some((first, rest)) = stage.raising.as_slice().split_first() {
        return best_of(limited, true, variable, values, first, rest);
    }
    match stage.lowering.as_slice().split_first() {
        Some((first, rest)) => best_of(limited, false, variable, values, first, rest),
        None => Some(whole(0)),
    }
}

// The greatest or the least of the bounds that rows set.
fn best_of(
    limited: bool,
    greatest: bool,
    variable: u32,
    values: &[Fraction],
    first: &Numbered,
    rest: &[Numbered],
) -> Option<Fraction>
    requires first { IsBounding variable first.now.row }
    requires rest { AreBounding variable (bare rest.now) }
    ensures value { Gives limited result (best_of (better_of greatest) limited variable (fractions_of values.now) first.now.row (bare rest.now)) }
    ensures unfit { IsNone result → limited ≡ false → CanBound variable (fractions_of values.now) first.now.row → CanBoundAll variable (fractions_of values.now) (bare rest.now) → ⊥ }
{
    let Some(first) = bound(limited, variable, values, &first.row) else {
        return None;
    };
    let mut best = first;
    'rows: for row in rest {
        let Some(next) = bound(limited, variable, values, &row.row) else {
            return None;
        };
        best = better(greatest, best, next);
    }
    Some(best)
}

fn better(greatest: bool, e: Fraction, f: Fraction) -> Fraction
    ensures { fraction result.over result.under ≡ (better_of greatest) (fraction e.over e.under) (fraction f.over f.under) }
{
    if greatest {
        greater(e, f)
    } else {
        lesser(e, f)
    }
}

// The bound that a row sets to the variable.
fn bound(limited: bool, variable: u32, values: &[Fraction], row: &Row) -> Option<Fraction>
    requires { IsBounding variable row.now }
    ensures value { Gives limited result (bound limited variable (fractions_of values.now) row.now) }
    ensures unfit { IsNone result → limited ≡ false → CanBound variable (fractions_of values.now) row.now → ⊥ }
{
    let terms = row.terms.as_slice();
    let Some(sum) = terms_added(limited, variable, values, terms) else {
        return None;
    };
    let Some(sum) = plus(limited, sum, whole(row.constant)) else {
        return None;
    };
    negated_over(limited, sum, factor_of(variable, terms))
}

// The sum of the terms other than the variable's.
fn terms_added(
    limited: bool,
    variable: u32,
    values: &[Fraction],
    terms: &[(u32, i128)],
) -> Option<Fraction>
    ensures value { Gives limited result (terms_added limited variable (fractions_of values.now) terms.now (whole (pos 0))) }
    ensures unfit { IsNone result → limited ≡ false → CanAddTerms variable (fractions_of values.now) terms.now (whole (pos 0)) → ⊥ }
{
    let mut sum = whole(0);
    'terms: for term in terms {
        let Some(next) = term_added(limited, variable, values, term, sum) else {
            return None;
        };
        sum = next;
    }
    Some(sum)
}

// The sum and one term, unless it is the variable's.
fn term_added(
    limited: bool,
    variable: u32,
    values: &[Fraction],
    term: &(u32, i128),
    before: Fraction,
) -> Option<Fraction>
    ensures value { Gives limited result (term_added limited variable (fractions_of values.now) term.now (fraction before.over before.under)) }
    ensures unfit { IsNone result → limited ≡ false → CanAddTerm variable (fractions_of values.now) term.now (fraction before.over before.under) → ⊥ }
{
    let (x, factor) = term;
    if *x == variable {
        return Some(before);
    }
    let Some(product) = times(limited, *factor, value_at(values, *x)) else {
        return None;
    };
    plus(limited, before, product)
}

// The value of a variable, 0 where it has none.
fn value_at(values: &[Fraction], x: u32) -> Fraction
    ensures { fraction result.over result.under ≡ slice_index_or (fractions_of values.now) x (whole (pos 0)) }
{
    match values.get(x as usize) {
        Some(value) => *value,
        None => whole(0),
    }
}
