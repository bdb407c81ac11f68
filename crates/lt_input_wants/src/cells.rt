//! What a free cell may hold.

ghost use Rattle.std.specs.Prelude.{◌≡◌, option_map};
ghost use Rattle.std.specs.List.{list_any};
ghost use Rattle.lt_entry.specs.Meeting.{same_target, is_wanted, value_set};
ghost use Rattle.lt_input_wants.specs.Cells.{holds_well};

use crate::places::same_target;
use lt_model::{CellSet, FreeCell, Place, StartValue, Want};

fn is_target(targets: &[Option<Place>], target: &Option<Place>) -> bool
    ensures { result ≡ list_any (same_target target.now) targets.now }
{
    targets.iter().any(|it| same_target(target, it))
}

fn may_hold(want: &Want, z: i128) -> bool
    ensures { result ≡ is_wanted want.now (StartValue.Number z) }
{
    match want {
        Want::Between(low, high) => *low <= z && z <= *high,
        Want::OneOf(_) => false,
    }
}

fn may_point_to(want: &Want, target: &Option<Place>) -> bool
    ensures { result ≡ is_wanted want.now (StartValue.Point target.now) }
{
    match want {
        Want::Between(_, _) => false,
        Want::OneOf(targets) => is_target(targets.as_slice(), target),
    }
}

fn is_set_well(want: &Want, it: &CellSet) -> bool
    ensures { result ≡ is_wanted want.now (value_set it.now) }
{
    match it {
        CellSet::Number(_, z) => may_hold(want, *z),
        CellSet::Point(_, target) => may_point_to(want, target),
    }
}

fn starts_well(want: &Want, start: &StartValue) -> bool
    ensures { result ≡ is_wanted want.now start.now }
{
    match start {
        StartValue::Number(z) => may_hold(want, *z),
        StartValue::Point(target) => may_point_to(want, target),
        StartValue::Other => false,
    }
}

/// Whether a cell holds what it may, where this is set in it.
pub fn holds_well(cell: &FreeCell, it: Option<&CellSet>) -> bool
    ensures { result ≡ holds_well cell.now (option_map (λ set. set.now) it.entry) }
{
    match it {
        Some(set) => is_set_well(&cell.want, set),
        None => starts_well(&cell.want, &cell.start),
    }
}
