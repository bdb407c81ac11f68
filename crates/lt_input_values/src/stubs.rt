//! The values for functions without a body.

ghost use Rattle.std.specs.Prelude.{◌≡◌};
ghost use Rattle.std.specs.List.{list_all};
ghost use Rattle.lt_entry.specs.Meeting.{keeps_range};
ghost use Rattle.lt_input_values.specs.Finding.{IsFinder, is_within};

use crate::bounds::Bounds;
use crate::finder::Finder;
use lt_model::StubSet;

fn are_within(bounds: Option<Bounds>, values: &[i128]) -> bool
    ensures { result ≡ list_all (is_within bounds) values.now }
{
    match bounds {
        Some((low, high)) => values.iter().all(|z| low <= *z && *z <= high),
        None => true,
    }
}

// Whether values are in each range of their function.
fn are_in_ranges(finder: &Finder<'_>, it: &StubSet) -> bool
    requires finder { IsFinder finder.now }
    ensures { result ≡ list_all (λ range. keeps_range range it.now) finder.now.spec.now.stubs }
{
    let bounds = finder.bounds(it.name.as_slice());
    are_within(bounds, it.values.as_slice())
}

/// Whether the values for each function are in each of its ranges.
pub fn stubs_keep_ranges(finder: &Finder<'_>) -> bool
    requires finder { IsFinder finder.now }
    ensures { result ≡ list_all (λ it. list_all (λ range. keeps_range range it) finder.now.spec.now.stubs) finder.now.input.now.stubs }
{
    for it in finder.input.stubs.as_slice() {
        if !are_in_ranges(finder, it) {
            return false;
        }
    }
    true
}
