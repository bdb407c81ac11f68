ghost use Rattle.std.specs.Prelude.{◌≡◌, ◌+◌, ◌*◌, ◌<◌, ◌≤◌, ◌^◌, min, map, false, Some, option_map, slice_get, ℕ, length};
ghost use Rattle.std.specs.Option.{option_copied};
ghost use Rattle.lt_model.specs.Types.{unqualified, element};
ghost use Rattle.lt_model.specs.TypeView.{type_of, is_quoted, member_of, structs_of};
ghost use Rattle.lt_model.specs.Layout.{then_some, within, rounded, scalar_extent, pointer_extent, extent_for, resized, elements, single_extent, type_extent, member_offset, with_member, no_members, members_extent, struct_extent, extent_of, size_in, placed_behind, offset_among, offset_in, members_of, AreRanked};

use crate::ctype::{CType, MemberType, StructType, Structs};
use crate::scalar::{DataModel, Scalar, pointer_width, width};

/// The size and the alignment of a type, in bytes.
#[derive(Clone, Copy, PartialEq, Eq, Debug)]
pub struct Extent {
    pub size: u64,
    pub alignment: u64,
}

// A sum of numbers of bytes.
fn sum(a: u64, b: u64) -> Option<u64>
    ensures { result ≡ within (a + b) }
{
    a.checked_add(b)
}

// The next multiple of an alignment.
fn rounded(n: u64, alignment: u64) -> Option<u64>
    ensures { result ≡ rounded n alignment }
{
    n.checked_next_multiple_of(alignment)
}

// The extent of a scalar or a pointer of so many bits.
fn extent_for(bits: u32) -> Extent
    requires { bits ≤ 64 }
    ensures { result ≡ extent_for bits }
{
    let bytes = u64::from((bits + 7) / 8);
    Extent {
        size: bytes,
        alignment: bytes,
    }
}

// The extent of a scalar.
fn scalar_extent(model: DataModel, ty: Scalar) -> Extent
    ensures { result ≡ scalar_extent model ty }
{
    extent_for(width(model, ty))
}

// The extent of a pointer.
fn pointer_extent(model: DataModel) -> Extent
    ensures { result ≡ pointer_extent model }
{
    extent_for(pointer_width(model))
}

// The extent, with another size.
fn resized(extent: Extent, size: Option<u64>) -> Option<Extent>
    ensures { result ≡ resized extent size }
{
    Some(Extent {
        size: size?,
        alignment: extent.alignment,
    })
}

// The size of so many elements.
fn repeated(size: u64, count: u128) -> Option<u64>
    requires { count ≤ 2 ^ 64 }
    ensures { result ≡ within (size * count) }
{
    let bytes = u128::from(size) * count;
    if bytes < 1 << 64 {
        Some(bytes as u64)
    } else {
        None
    }
}

// A number of elements, times another; numbers from 2 ^ 64 count as that.
fn counted(count: u128, length: u32) -> u128
    requires { count ≤ 2 ^ 64 }
    ensures is { result ≡ min (count * length) (2 ^ 64) }
{
    (count * u128::from(length)).min(1 << 64)
}

// The type of an array's elements without its qualifiers, and how many it has; numbers from 2 ^ 64 count as that.
#[tactic(auto, using(crate::proofs::Layouts::element_qualified, crate::proofs::Layouts::elements_qualified))]
fn elements(t: &CType) -> (&CType, u128)
    ensures element { type_of result.0.now ≡ unqualified (element (type_of t.now)) }
    ensures bare { is_quoted result.0.now ≡ false }
    ensures count { result.1 ≡ min (elements (type_of t.now)) (2 ^ 64) }
{
    let mut count: u128 = 1;
    let mut at = t;
    loop {
        match at {
            CType::Array(of, length) => {
                count = counted(count, *length);
                at = of;
            }
            CType::Quoted(_, of) => at = of,
            CType::Void
            | CType::Num(_)
            | CType::Pointer(_)
            | CType::Struct(_)
            | CType::Function(_)
            | CType::Floating => return (at, count),
        }
    }
}

// Where a member stands after others.
fn member_offset(before: Extent, member: Extent) -> Option<u64>
    ensures { result ≡ member_offset before member }
{
    rounded(before.size, member.alignment)
}

// Members with one more behind them.
fn with_member(before: Extent, member: Extent) -> Option<Extent>
    ensures { result ≡ with_member before member }
{
    let offset = member_offset(before, member)?;
    let end = sum(offset, member.size)?;
    Some(Extent {
        size: end,
        alignment: before.alignment.max(member.alignment),
    })
}

// The members of a struct that is complete.
#[tactic(auto, using(crate::proofs::Layouts::members_held))]
fn members_of(structs: &[StructType], k: u32) -> Option<&[MemberType]>
    ensures { option_map (map member_of) (option_copied result) ≡ members_of (structs_of structs.now) k }
{
    match structs.get(k as usize) {
        None => None,
        Some(it) => match &it.members {
            None => None,
            Some(members) => Some(members.as_slice()),
        },
    }
}

// The extent of a type that is no array and has no qualifiers.
#[cycle(extent)]
fn single_extent(
    model: DataModel,
    structs: &[StructType],
    depth: usize,
    t: &CType,
) -> Option<Extent>
    requires { is_quoted t.now ≡ false }
    ensures { result ≡ single_extent model (struct_extent model (structs_of structs.now) depth) (type_of t.now) }
{
    match t {
        CType::Num(s) => Some(scalar_extent(model, *s)),
        CType::Pointer(_) => Some(pointer_extent(model)),
        CType::Struct(k) => struct_extent(model, structs, depth, *k),
        CType::Void
        | CType::Array(_, _)
        | CType::Function(_)
        | CType::Floating
        | CType::Quoted(_, _) => None,
    }
}

// The extent of a type.
#[cycle(extent)]
#[tactic(auto, using(crate::proofs::Layouts::single_unqualified))]
fn type_extent(model: DataModel, structs: &[StructType], depth: usize, t: &CType) -> Option<Extent>
    ensures { result ≡ type_extent model (struct_extent model (structs_of structs.now) depth) (type_of t.now) }
{
    let (of, count) = elements(t);
    let extent = single_extent(model, structs, depth, of)?;
    resized(extent, repeated(extent.size, count))
}

// The end of members and their greatest alignment.
#[cycle(extent)]
fn members_extent(
    model: DataModel,
    structs: &[StructType],
    depth: usize,
    members: &[MemberType],
) -> Option<Extent>
    ensures { result ≡ members_extent (type_extent model (struct_extent model (structs_of structs.now) depth)) no_members (map member_of members.now) }
{
    let mut before = Extent {
        size: 0,
        alignment: 1,
    };
    for member in members {
        let extent = type_extent(model, structs, depth, &member.ty)?;
        before = with_member(before, extent)?;
    }
    Some(before)
}

// The extent of a struct, where structs nest no deeper than this.
#[cycle(extent)]
#[tactic(auto, unfolding(crate::specs::Layout::struct_extent))]
fn struct_extent(model: DataModel, structs: &[StructType], depth: usize, k: u32) -> Option<Extent>
    ensures { result ≡ struct_extent model (structs_of structs.now) depth k }
{
    if depth == 0 {
        return None;
    }
    let members = members_of(structs, k)?;
    let all = members_extent(model, structs, depth - 1, members)?;
    resized(all, rounded(all.size, all.alignment))
}

// The extent of a type of a program.
fn extent_of(model: DataModel, structs: &[StructType], t: &CType) -> Option<Extent>
    ensures { result ≡ extent_of model (structs_of structs.now) (type_of t.now) }
{
    type_extent(model, structs, structs.len(), t)
}

// The end of members of a program and their greatest alignment.
fn end_of(model: DataModel, structs: &[StructType], members: &[MemberType]) -> Option<Extent>
    ensures { result ≡ members_extent (extent_of model (structs_of structs.now)) no_members (map member_of members.now) }
{
    members_extent(model, structs, structs.len(), members)
}

/// The size of a type in bytes, C11 6.5.3.4. None for void, function and floating types, for a struct that is incomplete or holds itself, and where a
/// number of bytes on the way passes 64 bits.
pub fn size_of(model: DataModel, structs: &Structs, t: &CType) -> Option<u64>
    ensures { result ≡ size_in model (structs_of structs.now.list) (type_of t.now) }
{
    let extent = extent_of(model, structs.list.as_slice(), t)?;
    Some(extent.size)
}

// A member by its place.
fn member_at(members: &[MemberType], place: usize) -> Option<&MemberType>
    ensures { option_copied result ≡ slice_get members.now place }
{
    members.get(place)
}

// Where a member stands behind others, if its end fits too.
fn offset_behind(before: Extent, member: Extent) -> Option<u64>
    ensures { result ≡ then_some (member_offset before member) (λ offset. then_some (with_member before member) (λ after. Some offset)) }
{
    let offset = member_offset(before, member)?;
    let _end = with_member(before, member)?;
    Some(offset)
}

// Where a member stands among all members of its struct.
fn offset_among(
    model: DataModel,
    structs: &[StructType],
    members: &[MemberType],
    place: usize,
) -> Option<u64>
    ensures { result ≡ offset_among (placed_behind (extent_of model (structs_of structs.now)) no_members (map member_of members.now)) place }
{
    let member = member_at(members, place)?;
    let extent = extent_of(model, structs, &member.ty)?;
    let before = end_of(model, structs, &members[..place])?;
    offset_behind(before, extent)
}

/// The offset of a member of a struct in bytes, C11 6.7.2.1. None where there is no such member, or the struct is incomplete, or a type on the way has
/// no size, or a number of bytes on the way passes 64 bits.
pub fn layout(model: DataModel, structs: &Structs, tag: u32, member: u32) -> Option<u64>
    ensures { result ≡ offset_in model (structs_of structs.now.list) tag member }
{
    let list = structs.list.as_slice();
    let members = members_of(list, tag)?;
    offset_among(model, list, members, member as usize)
}

/// A law: where no struct holds itself, a greater bound on how deep structs nest changes no extent. It does nothing.
#[tactic(auto, using(crate::proofs::Nesting::nesting_bounded))]
pub fn nesting_law(model: DataModel, structs: &Structs)
    ensures { (rank : ℕ → ℕ) → AreRanked (structs_of structs.now.list) rank → (depth k : ℕ) → k < length (structs_of structs.now.list) → length (structs_of structs.now.list) ≤ depth → struct_extent model (structs_of structs.now.list) depth k ≡ struct_extent model (structs_of structs.now.list) (length (structs_of structs.now.list)) k }
{}
