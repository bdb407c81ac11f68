//! What lines say of cells.

ghost use Rattle.std.specs.Prelude.{◌≡◌, ◌&&◌, not, None, Some, OnOk, if◌then◌else◌, is_some};
ghost use Rattle.lt_model.specs.declared.input.Place.{Place};
ghost use Rattle.lt_tree.specs.Typing.Entities.{or_else};
ghost use Rattle.lt_entry.specs.Conditions.{same_place, is_range};
ghost use Rattle.lt_entry.specs.Views.{numeral_view};
ghost use Rattle.lt_input_wants.specs.Places.{found_at};

use crate::numbers::is_range;
use lt_entry::Numeral;
use lt_model::{DataModel, Place, Scalar, Want};
use std::alloc::AllocError;
use std::collections::HashMap;

/// What lines say of cells, by the names of their objects and their offsets.
pub type Wants<'p> = HashMap<(&'p [u8], u64), Want>;

/// Whether something is said of a cell.
pub fn is_said(wants: &Wants<'_>, place: &Place) -> bool
    ensures { result ≡ is_some (found_at wants.now place.now) }
{
    wants.contains_key(&(place.root.as_slice(), place.offset))
}

/// Whether a cell of this type, if it is a number's, may have the range, and nothing is said of it.
pub fn may_have_range(
    wants: &Wants<'_>,
    model: DataModel,
    place: &Place,
    scalar: Option<Scalar>,
    low: Numeral,
    high: Numeral,
) -> bool
    ensures { result ≡ (is_range model (numeral_view low) (numeral_view high) scalar && not (is_some (found_at wants.now place.now))) }
{
    is_range(model, low, high, scalar) && !is_said(wants, place)
}

/// What is said of a cell, unless something is said of it before.
pub fn say<'p>(
    wants: &mut Wants<'p>,
    name: &'p [u8],
    offset: u64,
    want: Want,
) -> Result<(), AllocError>
    ensures { OnOk result ((place : Place) → found_at wants.new place ≡ or_else (found_at wants.old place) (if same_place (record { root = name.now; offset = offset }) place then Some want else None)) }
{
    if wants.contains_key(&(name, offset)) {
        return Ok(());
    }
    wants.insert((name, offset), want)?;
    Ok(())
}
