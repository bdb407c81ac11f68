//! Requirements.

ghost use Rattle.std.specs.Prelude.{◌≡◌, ◌≤◌, ◌^◌, ◌*ℤ◌, option_map, IfSome, length, true};
ghost use Rattle.std.specs.List.{list_all};
ghost use Rattle.lt_entry.specs.Meeting.{value_set, number_of, number_at, sum_of, needs_hold};
ghost use Rattle.lt_entry.specs.Inputs.{is_short, has_small_factor};
ghost use Rattle.lt_input_values.specs.Bounds.{IsWithin, HaveNumbers64};
ghost use Rattle.lt_input_values.specs.Finding.{IsFinder};

use crate::finder::Finder;
use lt_input_wants::is_related;
use lt_model::{CellSet, Need, NeedTerm, Place, StartValue};

fn number_set(it: &CellSet) -> Option<i128>
    ensures { result ≡ number_of (value_set it.now) }
{
    match it {
        CellSet::Number(_, z) => Some(*z),
        CellSet::Point(_, _) => None,
    }
}

fn number_started(start: &StartValue) -> Option<i128>
    ensures { result ≡ number_of start.now }
{
    match start {
        StartValue::Number(z) => Some(*z),
        StartValue::Point(_) | StartValue::Other => None,
    }
}

// The number in the free cell at a place.
fn number_at(finder: &Finder<'_>, place: &Place) -> Option<i128>
    requires finder { IsFinder finder.now }
    ensures { result ≡ number_at finder.now.spec.now finder.now.input.now place.now }
{
    let cell = finder.cell_at(place)?;
    match finder.last_set(&cell.at) {
        Some(it) => number_set(it),
        None => number_started(&cell.start),
    }
}

// A factor times the number at its place.
fn product_of(finder: &Finder<'_>, term: &NeedTerm) -> Option<i128>
    requires finder { IsFinder finder.now }
    requires numbers { HaveNumbers64 finder.now.spec.now finder.now.input.now }
    requires factor { has_small_factor term.now ≡ true }
    ensures product { result ≡ option_map (λ z. term.now.factor *ℤ z) (number_at finder.now.spec.now finder.now.input.now term.now.at) }
    ensures small { IfSome result (IsWithin (2 ^ 95)) }
{
    Some(term.factor * number_at(finder, &term.at)?)
}

// The sum of the terms, where each cell has a number.
fn sum_of(finder: &Finder<'_>, terms: &[NeedTerm]) -> Option<i128>
    requires finder { IsFinder finder.now }
    requires numbers { HaveNumbers64 finder.now.spec.now finder.now.input.now }
    requires factors { list_all has_small_factor terms.now ≡ true }
    requires few { length terms.now ≤ 16 }
    ensures { result ≡ sum_of finder.now.spec.now finder.now.input.now terms.now }
{
    let mut sum = 0;
    for term in terms {
        sum += product_of(finder, term)?;
    }
    Some(sum)
}

fn need_holds(finder: &Finder<'_>, need: &Need) -> bool
    requires finder { IsFinder finder.now }
    requires numbers { HaveNumbers64 finder.now.spec.now finder.now.input.now }
    requires short { is_short need.now ≡ true }
    ensures { result ≡ needs_hold finder.now.spec.now finder.now.input.now need.now }
{
    match sum_of(finder, need.terms.as_slice()) {
        Some(sum) => is_related(need.rel, sum, need.constant),
        None => false,
    }
}

/// Whether all requirements hold.
pub fn needs_hold(finder: &Finder<'_>) -> bool
    requires finder { IsFinder finder.now }
    requires numbers { HaveNumbers64 finder.now.spec.now finder.now.input.now }
    requires short { list_all is_short finder.now.spec.now.needs ≡ true }
    ensures { result ≡ list_all (needs_hold finder.now.spec.now finder.now.input.now) finder.now.spec.now.needs }
{
    for need in finder.spec.needs.as_slice() {
        if !need_holds(finder, need) {
            return false;
        }
    }
    true
}
