//! What the places and targets of a line name: no step goes to every element, so they name at most one thing.

ghost use Rattle.std.specs.Prelude.{IfOk};
ghost use Rattle.lt_entry.specs.Views.{place_view, target_view};
ghost use Rattle.lt_input_names.specs.Views.{AreNames};
ghost use Rattle.lt_input_suites.specs.Parts.{IsPart, IsTarget};

use lt_entry::{PlaceWord, TargetWord};
use lt_input_names::{Names, Part, PartType};
use lt_model::Place;
use std::alloc::{AllocError, Global};

/// The part that a place names.
pub fn part_of(
    alloc: Global,
    names: &Names<'_>,
    place: &PlaceWord<'_>,
) -> Result<Option<Part>, AllocError>
    requires { AreNames names.now }
    ensures { IfOk result (IsPart names.now (place_view place.now)) }
{
    let mut parts = names.parts(alloc, place)?;
    Ok(parts.pop())
}

/// The address that a target names for a pointer of this type.
pub fn target_of(
    alloc: Global,
    names: &Names<'_>,
    ty: PartType,
    target: &TargetWord<'_>,
) -> Result<Option<Option<Place>>, AllocError>
    requires { AreNames names.now }
    ensures { IfOk result (IsTarget names.now ty (target_view target.now)) }
{
    match names.target(ty) {
        None => Ok(None),
        Some(pointed) => {
            let mut targets = names.targets(alloc, pointed, target)?;
            Ok(targets.pop())
        }
    }
}
