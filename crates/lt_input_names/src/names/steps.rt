// The parts of an object to which steps lead.

ghost use Rattle.std.specs.Prelude.{◌≡◌, ◌+◌, ◌*◌, ◌++◌, List, [], ◌∷◌, IfOk, OnOk, map, flat_map, option_map, slice_get};
ghost use Rattle.lt_tree.specs.Typing.Types.{CType};
ghost use Rattle.lt_tree.specs.Typing.EntityView.{member_of, structs_of};
ghost use Rattle.lt_tree.specs.Typing.Extents.{members_in};
ghost use Rattle.lt_tree.specs.Typing.Extents as extents;
ghost use Rattle.lt_entry.specs.Written.{value_of};
ghost use Rattle.lt_entry.specs.Naming.{parts_at, stepped};
ghost use Rattle.lt_entry.specs.Views.{numeral_view, step_view};
ghost use Rattle.lt_entry.specs.declared.place.Step.TheVariants as steps;
ghost use Rattle.lt_input_names.specs.Parts.{LeadsTo, part_at, pieces_at, run, strided, natural, first_named, members_within, placed_pair, pair_at, stride_of, IsElement};
ghost use Rattle.lt_input_names.specs.Views.{AreNames, program_at, types_at, type_at};

use super::Names;
use super::sizes::element_part;
use crate::part::{ArrayType, PartType, Pieces, Stride};
use crate::roots::row_type;
use lt_entry::{Numeral, Step};
use lt_table::PlacedMember;
use lt_tree::typed::{Member, Program, StructType};
use std::alloc::{AllocError, Global};

impl<'p> Names<'p> {
    /// The parts of an object of this type to which steps lead, in the order in which they lie. One step is followed at a time, from all parts to which
    /// those before it lead: these are of one type.
    pub(super) fn pieces(
        &self,
        alloc: Global,
        ty: PartType,
        steps: &[Step<'_>],
    ) -> Result<Pieces, AllocError>
        requires { AreNames self.now }
        ensures { IfOk result (λ it. pieces_at self.now it ≡ parts_at (program_at self.now) (map step_view steps.now) (part_at (type_at self.now ty) 0)) }
    {
        let mut pieces = whole(alloc, ty)?;
        for step in steps {
            pieces = self.stepped(alloc, *step, &pieces)?;
        }
        Ok(pieces)
    }

    // The parts to which a step leads from these.
    fn stepped(&self, alloc: Global, step: Step<'_>, pieces: &Pieces) -> Result<Pieces, AllocError>
        requires { AreNames self.now }
        ensures { IfOk result (λ it. pieces_at self.now it ≡ flat_map (stepped (program_at self.now) (step_view step.entry)) (pieces_at self.now pieces.now)) }
    {
        let led = self.stride(step, pieces.ty)?;
        match led {
            None => Ok(Pieces {
                ty: pieces.ty,
                offsets: Vec::new(alloc),
            }),
            Some(stride) => {
                let offsets = strided(alloc, stride, &pieces.offsets)?;
                Ok(Pieces {
                    ty: stride.ty,
                    offsets,
                })
            }
        }
    }

    // Where a step leads from a part of this type, if anywhere.
    fn stride(&self, step: Step<'_>, ty: PartType) -> Result<Option<Stride>, AllocError>
        requires { AreNames self.now }
        ensures { IfOk result (LeadsTo self.now step.entry ty) }
    {
        match step {
            Step::Index(index) => self.element(index, ty),
            Step::Each => Ok(self.each_element(ty)),
            Step::Member(name) => Ok(self.member(name, ty)),
        }
    }

    // An element of an array.
    fn element(&self, index: Numeral, ty: PartType) -> Result<Option<Stride>, AllocError>
        requires { AreNames self.now }
        ensures { IfOk result (LeadsTo self.now (steps.Index index) ty) }
    {
        match self.array(ty) {
            None => Ok(None),
            Some(array) => match natural(index) {
                None => Ok(None),
                Some(number) => self.numbered(array, number),
            },
        }
    }

    // The element of this number of an array, if it has that.
    fn numbered(&self, array: ArrayType, number: u64) -> Result<Option<Stride>, AllocError>
        requires { AreNames self.now }
        ensures { IfOk result (IsElement self.now array number) }
    {
        let count = u64::from(array.count);
        if number >= count {
            return Ok(None);
        }
        let size = self.element_size(array.element);
        let start = byte_at(0, size, number)?;
        Ok(Some(Stride {
            ty: element_part(array.element),
            start,
            apart: 0,
            count: 1,
        }))
    }

    // All elements of an array.
    fn each_element(&self, ty: PartType) -> Option<Stride>
        requires { AreNames self.now }
        ensures { LeadsTo self.now steps.Each ty result }
    {
        match self.array(ty) {
            None => None,
            Some(array) => Some(Stride {
                ty: element_part(array.element),
                start: 0,
                apart: self.element_size(array.element),
                count: array.count,
            }),
        }
    }

    // The member of a struct that has this name.
    fn member(&self, name: &[u8], ty: PartType) -> Option<Stride>
        requires { AreNames self.now }
        ensures { LeadsTo self.now (steps.Member name.entry) ty result }
    {
        match self.struct_number(ty) {
            None => None,
            Some(number) => match self.member_of(number, name) {
                None => None,
                Some(member) => Some(stride_of(member)),
            },
        }
    }

    // The first member of this name of the struct of this number.
    fn member_of(&self, number: u32, name: &[u8]) -> Option<PlacedMember>
        requires { AreNames self.now }
        ensures { option_map (pair_at (types_at self.now)) result ≡ option_map placed_pair (extents.member_of (program_at self.now).model (program_at self.now).structs number name.now) }
    {
        let all = members_of(self.kinds.program, number);
        match first_named(all, name) {
            None => None,
            Some(place) => placed_at(self.layouts.members(number), place),
        }
    }
}

// All of an object.
fn whole(alloc: Global, ty: PartType) -> Result<Pieces, AllocError>
    ensures ty { IfOk result (λ it. it.ty ≡ ty) }
    ensures offsets { IfOk result (λ it. it.offsets.items ≡ 0 ∷ []) }
{
    let mut offsets = Vec::new(alloc);
    offsets.push(0)?;
    Ok(Pieces { ty, offsets })
}

// The bytes to which a stride leads from these.
fn strided(alloc: Global, stride: Stride, offsets: &[u64]) -> Result<Vec<u64>, AllocError>
    ensures { IfOk result (λ them. them.items ≡ flat_map (strided stride) offsets.now) }
{
    let mut them = Vec::new(alloc);
    for offset in offsets {
        let first = behind(*offset, stride.start)?;
        put_run(&mut them, first, stride.apart, stride.count)?;
    }
    Ok(them)
}

// So many bytes, the first of them this one, so many apart.
fn put_run(offsets: &mut Vec<u64>, first: u64, apart: u64, count: u32) -> Result<(), AllocError>
    ensures { OnOk result (offsets.new.items ≡ offsets.old.items ++ run first apart count) }
{
    for k in 0..count {
        let at = byte_at(first, apart, u64::from(k))?;
        offsets.push(at)?;
    }
    Ok(())
}

// So many bytes behind a byte. More than 2^64 bytes are more than memory has.
fn behind(offset: u64, distance: u64) -> Result<u64, AllocError>
    ensures { IfOk result (λ at. at ≡ offset + distance) }
{
    offset.checked_add(distance).ok_or(AllocError)
}

/// The byte behind so many things of a size.
pub(super) fn byte_at(first: u64, size: u64, number: u64) -> Result<u64, AllocError>
    ensures { IfOk result (λ at. at ≡ first + number * size) }
{
    match number.checked_mul(size) {
        None => Err(AllocError),
        Some(distance) => behind(first, distance),
    }
}

/// The number that a numeral writes, unless it is below 0.
pub(super) fn natural(numeral: Numeral) -> Option<u64>
    ensures { result ≡ natural (value_of (numeral_view numeral)) }
{
    if numeral.is_negative && numeral.size > 0 {
        return None;
    }
    Some(numeral.size)
}

// To a member.
fn stride_of(member: PlacedMember) -> Stride
    ensures { result ≡ stride_of member }
{
    Stride {
        ty: row_type(member.ty),
        start: member.offset,
        apart: 0,
        count: 1,
    }
}

fn struct_at<'a>(program: &'a Program<'_>, number: u32) -> Option<&'a StructType>
    ensures { option_map (λ it. it.now) result ≡ slice_get program.now.structs.items number }
{
    program.structs.get(number as usize)
}

// The members of the struct of this number.
fn members_of<'a>(program: &'a Program<'_>, number: u32) -> &'a [Member]
    ensures { (types : List CType) → map (member_of types) result.now ≡ members_in (structs_of types program.now.structs.items) number }
{
    match struct_at(program, number) {
        None => &[],
        Some(it) => members_within(it),
    }
}

fn members_within(it: &StructType) -> &[Member]
    ensures { result.now ≡ members_within it.now.members }
{
    match &it.members {
        None => &[],
        Some(members) => members.as_slice(),
    }
}

fn placed_at(members: &[PlacedMember], place: usize) -> Option<PlacedMember>
    ensures { result ≡ slice_get members.now place }
{
    members.get(place).copied()
}

// The place of the first member of this name.
fn first_named(members: &[Member], name: &[u8]) -> Option<usize>
    ensures { result ≡ first_named name.now members.now }
{
    members
        .iter()
        .position(|member| member.name.as_slice() == name)
}
