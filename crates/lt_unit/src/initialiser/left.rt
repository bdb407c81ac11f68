// What is left to be filled of an object, C11 6.7.9p17 to p21.

ghost use Rattle.std.specs.Prelude.{◌≡◌, ◌+◌, ◌++◌, ◌∷◌, [], List, map, drop, slice_get, Option, Some, None, IfOk, OnOk};
ghost use Rattle.lt_tree.specs.Typing.Types.{CType};
ghost use Rattle.lt_tree.specs.Typing.TypeRows.{type_in};
ghost use Rattle.lt_tree.specs.Typing.Extents.{size_of};
ghost use Rattle.lt_tree.specs.Typing.Entities.{Known};
ghost use Rattle.lt_tree.specs.Typing.Filling.{one_object, length_left, behind_first};
ghost use Rattle.lt_table.specs.TableRows.{Stays};
ghost use Rattle.lt_unit.specs.LeftParts.{Knows, run_of, member_run, runs_behind, runs_in, runs_if, runs_of, endless, behind_all, BeginWith, FirstIs};

use lt_table::{PlacedMember, Types};
use lt_tree::typed::TypeId;
use std::alloc::AllocError;
use std::rc::Rc;

/// A part of an object: where it begins, and its type.
#[derive(Clone, Copy, PartialEq, Eq, Debug)]
pub struct Part {
    pub offset: u64,
    pub ty: TypeId,
}

/// What is left behind a part.
#[derive(Drop)]
pub enum Behind {
    /// More objects of the same type: so many with the part itself, or without an end.
    Alike(Option<u32>),
    /// The members of a struct from one on; the struct begins at this offset.
    Members {
        offset: u64,
        members: Rc<Vec<PlacedMember>>,
        next: usize,
    },
}

/// Parts that are left to be filled: the first, and what is behind it.
#[derive(Drop)]
pub struct Left {
    pub first: Part,
    pub behind: Behind,
}

/// A part alone.
pub fn alone(first: Part) -> Left
    ensures { (types : List CType) → runs_in types result ≡ one_object first.offset (type_in types first.ty) ∷ [] }
{
    Left {
        first,
        behind: Behind::Alike(Some(1)),
    }
}

/// The elements of an array; without an end where their number is to come.
pub fn elements(offset: u64, ty: TypeId, length: u32) -> Left
    ensures { (types : List CType) → runs_in types result ≡ record { offset = offset; type = type_in types ty; left = length_left length } ∷ [] }
{
    let count = if length == 0 { None } else { Some(length) };
    Left {
        first: Part { offset, ty },
        behind: Behind::Alike(count),
    }
}

// The member of this place.
fn member(members: &[PlacedMember], place: usize) -> Option<PlacedMember>
    ensures { result ≡ slice_get members.now place }
{
    members.get(place).copied()
}

/// The members from one on of a struct that begins at this offset, if there are any.
pub fn members_from(
    offset: u64,
    members: Rc<Vec<PlacedMember>>,
    place: usize,
) -> Result<Option<Left>, AllocError>
    ensures { IfOk result (λ left. (types : List CType) → runs_if types left ≡ map (member_run types offset) (drop place members.value.items)) }
{
    match member(&members, place) {
        None => Ok(None),
        Some(PlacedMember { ty, offset: within }) => {
            let begin = offset.checked_add(within).ok_or(AllocError)?;
            let next = place.checked_add(1).ok_or(AllocError)?;
            Ok(Some(Left {
                first: Part { offset: begin, ty },
                behind: Behind::Members {
                    offset,
                    members,
                    next,
                },
            }))
        }
    }
}

// The objects behind the first of so many.
fn next_alike(types: &Types, first: Part, count: Option<u32>) -> Result<Left, AllocError>
    ensures { IfOk result (λ left. Stays types.now.rows (λ longer. (known : Known) → Knows known longer types.now → runs_in longer left ≡ record { offset = first.offset + size_of known.model known.structs (type_in longer first.ty); type = type_in longer first.ty; left = count } ∷ [])) }
{
    let size = types.size_of(first.ty).ok_or(AllocError)?;
    let offset = first.offset.checked_add(size).ok_or(AllocError)?;
    Ok(Left {
        first: Part {
            offset,
            ty: first.ty,
        },
        behind: Behind::Alike(count),
    })
}

// What is behind the first of so many objects.
fn alike_behind(types: &Types, first: Part, count: Option<u32>) -> Result<Option<Left>, AllocError>
    ensures { IfOk result (λ left. Stays types.now.rows (λ longer. (known : Known) → Knows known longer types.now → runs_if longer left ≡ behind_first known (run_of longer first count))) }
{
    match count {
        None => Ok(Some(next_alike(types, first, None)?)),
        Some(n) => {
            if n <= 1 {
                Ok(None)
            } else {
                Ok(Some(next_alike(types, first, Some(n - 1))?))
            }
        }
    }
}

impl Left {
    /// The first object, if the objects like it have no end.
    pub fn endless(&self) -> Option<Part>
        ensures { result ≡ endless self.now }
    {
        match &self.behind {
            Behind::Alike(None) => Some(self.first),
            Behind::Alike(Some(_)) => None,
            Behind::Members { .. } => None,
        }
    }

    /// What is behind the first object.
    pub fn behind_first(&self, types: &Types) -> Result<Option<Left>, AllocError>
        ensures { IfOk result (λ left. Stays types.now.rows (λ longer. (known : Known) → Knows known longer types.now → runs_if longer left ≡ behind_all known (runs_in longer self.now))) }
    {
        match &self.behind {
            Behind::Alike(count) => alike_behind(types, self.first, *count),
            Behind::Members {
                offset,
                members,
                next,
            } => members_from(*offset, members.clone()?, *next),
        }
    }

    /// What is behind all objects that are like the first.
    pub fn behind_alike(&self) -> Result<Option<Left>, AllocError>
        ensures { IfOk result (λ left. (types : List CType) → runs_if types left ≡ runs_behind types self.now.behind) }
    {
        match &self.behind {
            Behind::Alike(_) => Ok(None),
            Behind::Members {
                offset,
                members,
                next,
            } => members_from(*offset, members.clone()?, *next),
        }
    }
}

/// More to be filled before the rest.
pub fn push_before(left: &mut Vec<Left>, more: Option<Left>) -> Result<(), AllocError>
    ensures { OnOk result ((types : List CType) → runs_of types left.new.items ≡ runs_if types more ++ runs_of types left.old.items) }
{
    match more {
        None => Ok(()),
        Some(more) => {
            left.push(more)?;
            Ok(())
        }
    }
}

/// Takes off the objects in front that are alike; the first of them.
pub fn take_alike(left: &mut Vec<Left>) -> Result<Option<Part>, AllocError>
    ensures { IfOk result (λ part. (types : List CType) → BeginWith types (runs_of types left.old.items) part (runs_of types left.new.items)) }
{
    match left.pop() {
        None => Ok(None),
        Some(top) => {
            let behind = top.behind_alike()?;
            push_before(left, behind)?;
            Ok(Some(top.first))
        }
    }
}

/// Takes off the first object.
pub fn take_first(types: &Types, left: &mut Vec<Left>) -> Result<Option<Part>, AllocError>
    ensures { IfOk result (λ part. Stays types.now.rows (λ longer. (known : Known) → Knows known longer types.now → FirstIs known longer (runs_of longer left.old.items) part (runs_of longer left.new.items))) }
{
    match left.pop() {
        None => Ok(None),
        Some(top) => {
            let behind = top.behind_first(types)?;
            push_before(left, behind)?;
            Ok(Some(top.first))
        }
    }
}
