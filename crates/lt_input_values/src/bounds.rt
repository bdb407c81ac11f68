//! What functions without a body may give.

ghost use Rattle.std.specs.Prelude.{◌≡◌, ◌&&◌, ℤ, int_le, IfOk, Some};
ghost use Rattle.std.specs.List.{list_all};
ghost use Rattle.lt_input_values.specs.Finding.{is_within, is_in_range, may_give, HasBounds};

use lt_model::StubRange;
use std::alloc::{AllocError, Global};
use std::collections::HashMap;

/// The least and the greatest number.
pub type Bounds = (i128, i128);

// The numbers of these that are in a range too; all numbers where there are no bounds so far.
fn narrowed(bounds: Option<Bounds>, range: &StubRange) -> Bounds
    ensures { (z : ℤ) → is_within (Some result) z ≡ (is_within bounds z && is_in_range range.now z) }
{
    match bounds {
        Some((low, high)) => (low.max(range.lo), high.min(range.hi)),
        None => (range.lo, range.hi),
    }
}

/// The bounds of a function, which are those of all its ranges.
pub fn bounds_for(ranges: &[StubRange], name: &[u8]) -> Option<Bounds>
    ensures { (z : ℤ) → is_within result z ≡ may_give ranges.now name.now z }
{
    let mut bounds = None;
    for range in ranges {
        if name == range.name.as_slice() {
            bounds = Some(narrowed(bounds, range));
        }
    }
    bounds
}

/// The bounds of each function that has a range.
pub fn bounds_of<'a>(
    alloc: Global,
    ranges: &'a [StubRange],
) -> Result<HashMap<&'a [u8], Bounds>, AllocError>
    ensures { IfOk result (HasBounds ranges.now) }
{
    let mut bounds = HashMap::new(alloc);
    for range in ranges {
        let name = range.name.as_slice();
        let narrower = narrowed(bounds.get(name).copied(), range);
        bounds.insert(name, narrower)?;
    }
    Ok(bounds)
}
