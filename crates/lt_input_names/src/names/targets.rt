// The addresses that targets name.

ghost use Rattle.std.specs.Prelude.{◌≡◌, ◌∷◌, ◌++◌, List, ℕ, [], IfOk, map, if◌then◌else◌};
ghost use Rattle.lt_tree.specs.Typing.Types.{Array};
ghost use Rattle.lt_entry.specs.Naming.{targets_of, past_elements, is_past_end, is_pointed};
ghost use Rattle.lt_entry.specs.Written.{value_of};
ghost use Rattle.lt_entry.specs.Views.{numeral_view, step_view, target_view};
ghost use Rattle.lt_input_names.specs.Blocks.{element_of};
ghost use Rattle.lt_input_names.specs.Parts.{address_in};
ghost use Rattle.lt_input_names.specs.Roots.{root_at};
ghost use Rattle.lt_input_names.specs.Targets.{targets_in, only_index, end_in, IsEnd};
ghost use Rattle.lt_input_names.specs.Views.{AreNames, program_at, scope_of, types_at, type_at};

use super::Names;
use super::parts::place_in;
use super::sizes::element_part;
use super::steps::{byte_at, natural};
use crate::part::{ArrayType, PartType, Pieces, Root};
use lt_entry::{Numeral, PlaceWord, Step, TargetWord};
use lt_model::Place;
use std::alloc::{AllocError, Global};

impl<'p> Names<'p> {
    /// The addresses that a target names for a pointer to this type; none where it names something else.
    pub fn targets(
        &self,
        alloc: Global,
        pointed: PartType,
        target: &TargetWord<'_>,
    ) -> Result<Vec<Option<Place>>, AllocError>
        requires { AreNames self.now }
        ensures { IfOk result (λ targets. targets.items ≡ targets_of (scope_of self.now) (type_at self.now pointed) (target_view target.now)) }
    {
        match target {
            TargetWord::Null => null(alloc),
            TargetWord::Place(place) => match self.root(place.name) {
                None => Ok(Vec::new(alloc)),
                Some(root) => self.targets_in(alloc, pointed, root, place),
            },
        }
    }

    // The addresses within an object and past its end.
    fn targets_in(
        &self,
        alloc: Global,
        pointed: PartType,
        root: Root,
        place: &PlaceWord<'_>,
    ) -> Result<Vec<Option<Place>>, AllocError>
        requires { AreNames self.now }
        ensures { IfOk result (λ targets. targets.items ≡ targets_in (program_at self.now) (type_at self.now pointed) (root_at (types_at self.now) place.now.name.now root) (map step_view place.now.steps.items)) }
    {
        let pieces = self.pieces(alloc, root.ty, &place.steps)?;
        let offsets = self.offsets_of(alloc, pointed, pieces);
        let end = self.end(pointed, root, &place.steps)?;
        addresses(alloc, place.name, &offsets, end)
    }

    // Where the parts begin, if they are of the type to which a pointer points.
    fn offsets_of(&self, alloc: Global, pointed: PartType, pieces: Pieces) -> Vec<u64>
        requires { AreNames self.now }
        ensures { result.items ≡ (if is_pointed (type_at self.now pointed) (type_at self.now pieces.ty) then pieces.offsets.items else []) }
    {
        if self.is_pointed(pointed, pieces.ty) {
            return pieces.offsets;
        }
        Vec::new(alloc)
    }

    // The byte past the end of a block, where steps lead there.
    fn end(
        &self,
        pointed: PartType,
        root: Root,
        steps: &[Step<'_>],
    ) -> Result<Option<u64>, AllocError>
        requires { AreNames self.now }
        ensures { IfOk result (IsEnd self.now pointed root steps.now) }
    {
        match only_index(steps) {
            None => Ok(None),
            Some(index) => self.end_of_root(pointed, root, index),
        }
    }

    // The byte past the end of a block, where that has this number.
    fn end_of_root(
        &self,
        pointed: PartType,
        root: Root,
        index: Numeral,
    ) -> Result<Option<u64>, AllocError>
        requires { AreNames self.now }
        ensures { IfOk result (λ end. (name : List ℕ) → (if root.is_block then past_elements (program_at self.now) (type_at self.now pointed) name (numeral_view index) (type_at self.now root.ty) else []) ≡ end_in name end) }
    {
        let is_block = root.is_block;
        if is_block {
            return self.end_of_array(pointed, root.ty, index);
        }
        Ok(None)
    }

    // The byte past the last element of an array of what a pointer points to, where that has this number.
    fn end_of_array(
        &self,
        pointed: PartType,
        ty: PartType,
        index: Numeral,
    ) -> Result<Option<u64>, AllocError>
        requires { AreNames self.now }
        ensures { IfOk result (λ end. (name : List ℕ) → past_elements (program_at self.now) (type_at self.now pointed) name (numeral_view index) (type_at self.now ty) ≡ end_in name end) }
    {
        match self.array(ty) {
            None => Ok(None),
            Some(array) => self.end_of_elements(pointed, array, index),
        }
    }

    // The byte past the last of these elements.
    fn end_of_elements(
        &self,
        pointed: PartType,
        array: ArrayType,
        index: Numeral,
    ) -> Result<Option<u64>, AllocError>
        requires { AreNames self.now }
        ensures { IfOk result (λ end. (name : List ℕ) → past_elements (program_at self.now) (type_at self.now pointed) name (numeral_view index) (Array (element_of (types_at self.now) array.element) array.count) ≡ end_in name end) }
    {
        let is_there = is_past_end(index, array.count);
        if is_there {
            let is_pointed = self.is_pointed(pointed, element_part(array.element));
            if is_pointed {
                let size = self.element_size(array.element);
                let end = byte_at(0, size, u64::from(array.count))?;
                return Ok(Some(end));
            }
            return Ok(None);
        }
        Ok(None)
    }
}

// The null pointer.
fn null(alloc: Global) -> Result<Vec<Option<Place>>, AllocError>
    ensures { IfOk result (λ targets. targets.items ≡ None ∷ []) }
{
    let mut targets = Vec::new(alloc);
    targets.push(None)?;
    Ok(targets)
}

// The addresses of these bytes of the object of a name, the last that past its end.
fn addresses(
    alloc: Global,
    name: &[u8],
    offsets: &[u64],
    end: Option<u64>,
) -> Result<Vec<Option<Place>>, AllocError>
    ensures { IfOk result (λ targets. targets.items ≡ map (address_in name.now) offsets.now ++ end_in name.now end) }
{
    let mut targets = Vec::new(alloc);
    for offset in offsets {
        let place = place_in(alloc, name, *offset)?;
        targets.push(Some(place))?;
    }
    match end {
        None => Ok(targets),
        Some(offset) => {
            let place = place_in(alloc, name, offset)?;
            targets.push(Some(place))?;
            Ok(targets)
        }
    }
}

// The index that is the only step.
fn only_index(steps: &[Step<'_>]) -> Option<Numeral>
    ensures { result ≡ only_index steps.now }
{
    let (first, rest) = steps.split_first()?;
    if !rest.is_empty() {
        return None;
    }
    match first {
        Step::Index(index) => Some(*index),
        Step::Each | Step::Member(_) => None,
    }
}

fn is_past_end(index: Numeral, count: u32) -> bool
    ensures { result ≡ is_past_end count (value_of (numeral_view index)) }
{
    match natural(index) {
        None => false,
        Some(number) => number == u64::from(count),
    }
}
