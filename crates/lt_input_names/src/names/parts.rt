// The parts of objects that places name.

ghost use Rattle.std.specs.Prelude.{◌≡◌, IfOk, map};
ghost use Rattle.lt_entry.specs.Naming.{named_by};
ghost use Rattle.lt_entry.specs.Views.{place_view};
ghost use Rattle.lt_input_names.specs.Parts.{part_in, place_in};
ghost use Rattle.lt_input_names.specs.Views.{AreNames, scope_of, named_at};

use super::Names;
use crate::part::{Part, PartType};
use lt_entry::PlaceWord;
use lt_model::{Name, Place};
use std::alloc::{AllocError, Global};

impl<'p> Names<'p> {
    /// The parts of objects that a place names, in the order in which they lie.
    pub fn parts(&self, alloc: Global, place: &PlaceWord<'_>) -> Result<Vec<Part>, AllocError>
        requires { AreNames self.now }
        ensures { IfOk result (λ parts. map (named_at self.now) parts.items ≡ named_by (scope_of self.now) (place_view place.now)) }
    {
        match self.root(place.name) {
            None => Ok(Vec::new(alloc)),
            Some(root) => {
                let pieces = self.pieces(alloc, root.ty, &place.steps)?;
                parts_in(alloc, place.name, pieces.ty, &pieces.offsets)
            }
        }
    }
}

// The parts of the object of a name.
fn parts_in(
    alloc: Global,
    name: &[u8],
    ty: PartType,
    offsets: &[u64],
) -> Result<Vec<Part>, AllocError>
    ensures { IfOk result (λ parts. parts.items ≡ map (part_in name.now ty) offsets.now) }
{
    let mut parts = Vec::new(alloc);
    for offset in offsets {
        let place = place_in(alloc, name, *offset)?;
        parts.push(Part { place, ty })?;
    }
    Ok(parts)
}

/// A byte of the object of a name.
pub(super) fn place_in(alloc: Global, name: &[u8], offset: u64) -> Result<Place, AllocError>
    ensures { IfOk result (λ place. place ≡ place_in name.now offset) }
{
    let root = Name::new(alloc, name)?;
    Ok(Place { root, offset })
}
