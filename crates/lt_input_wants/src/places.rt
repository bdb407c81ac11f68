//! Places, and what an input sets at them.

ghost use Rattle.std.specs.Prelude.{◌≡◌};
ghost use Rattle.lt_entry.specs.Conditions.{same_place};
ghost use Rattle.lt_entry.specs.Meeting.{place_set, same_target};

use lt_model::{CellSet, Place};

/// Whether two places are one.
pub fn same_place(p: &Place, q: &Place) -> bool
    ensures { result ≡ same_place p.now q.now }
{
    p.root.as_slice() == q.root.as_slice() && p.offset == q.offset
}

/// Whether two targets are one.
pub fn same_target(p: &Option<Place>, q: &Option<Place>) -> bool
    ensures { result ≡ same_target p.now q.now }
{
    match (p, q) {
        (None, None) => true,
        (Some(p), Some(q)) => same_place(p, q),
        _ => false,
    }
}

/// The place at which something is set.
pub fn place_set(it: &CellSet) -> &Place
    ensures { result.now ≡ place_set it.now }
{
    match it {
        CellSet::Number(place, _) => place,
        CellSet::Point(place, _) => place,
    }
}
