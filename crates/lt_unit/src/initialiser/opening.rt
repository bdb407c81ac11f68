// Parts of objects that have parts themselves, C11 6.7.9p20.

ghost use Rattle.std.specs.Prelude.{◌≡◌, ◌∷◌, ◌++◌, ℕ, Bool, false, List, length, map, Option, Some, None, IfOk, OnOk, if◌then◌else◌};
ghost use Rattle.lt_tree.specs.Typing.Types.{CType, Array, Struct, scalar_of, is_array, struct_of};
ghost use Rattle.lt_tree.specs.Typing.TypeRows.{type_in};
ghost use Rattle.lt_tree.specs.Typing.Extents.{placed_members};
ghost use Rattle.lt_tree.specs.Typing.Entities.{Known};
ghost use Rattle.lt_tree.specs.Typing.Operands.{holds};
ghost use Rattle.lt_tree.specs.Typing.Filling as typing;
ghost use Rattle.lt_tree.specs.Typing.Filling.{Run, one_object};
ghost use Rattle.lt_table.specs.TableRows.{Stays};
ghost use Rattle.lt_unit.specs.LeftParts.{Knows, plain, runs_in, runs_if, runs_of, is_taken_for, within_if, begins_with_characters, PartIs, CharactersAre};

use crate::initialiser::left::{
    Left, Part, alone, elements, members_from, push_before, take_alike,
};
use lt_model::Scalar;
use lt_table::Types;
use lt_tree::typed::TypeId;
use std::alloc::AllocError;

/// What an initialiser without braces is taken for as a whole.
#[derive(Clone, Copy, PartialEq, Eq, Debug)]
pub enum Taken {
    /// A string literal: for an array of characters.
    CharacterArray,
    /// An expression: for a struct of its own type, if it is one.
    StructOf(Option<u32>),
}

// ---- types

/// The type without qualifiers.
pub fn unqualified(types: &Types, t: TypeId) -> Result<TypeId, AllocError>
    ensures { IfOk result (λ u. Stays types.now.rows (λ longer. type_in longer u ≡ plain (type_in longer t))) }
{
    let mut ty = t;
    for _turn in 0..u64::MAX {
        let Some(bare) = types.table().unqualified(ty) else {
            return Err(AllocError);
        };
        if bare == ty {
            return Ok(ty);
        }
        ty = bare;
    }
    Err(AllocError)
}

// Whether it is a character type.
fn is_character(types: &Types, t: TypeId) -> Result<bool, AllocError>
    ensures { IfOk result (λ b. Stays types.now.rows (λ longer. b ≡ holds typing.is_character (scalar_of (type_in longer t)))) }
{
    match types.table().scalar_of(t) {
        None => Err(AllocError),
        Some(None) => Ok(false),
        Some(Some(scalar)) => Ok(matches!(scalar, Scalar::Char | Scalar::SChar | Scalar::UChar)),
    }
}

/// Whether it is an array of characters.
pub fn is_character_array(types: &Types, t: TypeId) -> Result<bool, AllocError>
    ensures { IfOk result (λ b. Stays types.now.rows (λ longer. b ≡ typing.is_character_array (type_in longer t))) }
{
    match types.table().array_of(t) {
        None => Err(AllocError),
        Some(None) => Ok(false),
        Some(Some((element, _))) => is_character(types, element),
    }
}

// ---- parts

// The members of a struct that begins at this offset.
fn members_of(types: &Types, offset: u64, number: u32) -> Result<Option<Left>, AllocError>
    ensures { IfOk result (λ left. Stays types.now.rows (λ longer. (known : Known) → Knows known longer types.now → runs_if longer left ≡ map (typing.member_run offset) (placed_members known.model known.structs number))) }
{
    match types.placed_members(number)? {
        None => Ok(None),
        Some(members) => members_from(offset, members, 0),
    }
}

// The parts of an object without qualifiers that is no array.
fn single_parts(types: &Types, part: Part) -> Result<Option<Left>, AllocError>
    ensures { IfOk result (λ left. Stays types.now.rows (λ longer. (known : Known) → Knows known longer types.now → plain (type_in longer part.ty) ≡ type_in longer part.ty → is_array (type_in longer part.ty) ≡ false → runs_if longer left ≡ typing.parts_of known part.offset (type_in longer part.ty))) }
{
    match types.table().struct_of(part.ty) {
        None => Err(AllocError),
        Some(None) => Ok(Some(alone(part))),
        Some(Some(number)) => members_of(types, part.offset, number),
    }
}

/// The parts of an object: its elements, its members, or itself.
pub fn parts_of(types: &Types, part: Part) -> Result<Option<Left>, AllocError>
    ensures { IfOk result (λ left. Stays types.now.rows (λ longer. (known : Known) → Knows known longer types.now → runs_if longer left ≡ typing.parts_of known part.offset (type_in longer part.ty))) }
{
    let Part { offset, ty } = part;
    let ty = unqualified(types, ty)?;
    match types.table().array_of(ty) {
        None => Err(AllocError),
        Some(None) => single_parts(types, Part { offset, ty }),
        Some(Some((element, length))) => Ok(Some(elements(offset, element, length))),
    }
}

// ---- one type inwards

// Whether an array of these elements is taken whole.
fn takes_array(types: &Types, taken: Taken, element: TypeId) -> Result<bool, AllocError>
    ensures { IfOk result (λ b. Stays types.now.rows (λ longer. (n : ℕ) → b ≡ is_taken_for taken (Array (type_in longer element) n))) }
{
    match taken {
        Taken::CharacterArray => is_character(types, element),
        Taken::StructOf(_) => Ok(false),
    }
}

// Whether a struct is taken whole.
fn takes_struct(taken: Taken, number: u32) -> bool
    ensures { result ≡ is_taken_for taken (Struct number) }
{
    match taken {
        Taken::CharacterArray => false,
        Taken::StructOf(None) => false,
        Taken::StructOf(Some(own)) => own == number,
    }
}

// Goes to the first element of an array, unless the array is taken whole.
fn in_array(
    types: &Types,
    taken: Taken,
    part: Part,
    element: TypeId,
    length: u32,
    left: &mut Vec<Left>,
) -> Result<Option<Part>, AllocError>
    ensures { IfOk result (λ next. Stays types.now.rows (λ longer. (known : Known) → Knows known longer types.now → (in_struct : ℕ → ℕ → List Run → List Run) → type_in longer part.ty ≡ Array (type_in longer element) length → within_if known (is_taken_for taken) in_struct longer next (runs_of longer left.new.items) ≡ typing.first_within known (is_taken_for taken) in_struct part.offset (type_in longer part.ty) (runs_of longer left.old.items))) }
{
    if takes_array(types, taken, element)? {
        push_before(left, Some(alone(part)))?;
        return Ok(None);
    }
    let elements = elements(part.offset, element, length);
    let behind = elements.behind_first(types)?;
    push_before(left, behind)?;
    Ok(Some(elements.first))
}

// Goes to the first member of a struct, as deep as structs may nest.
fn in_members(
    types: &Types,
    depth: &mut usize,
    offset: u64,
    number: u32,
    left: &mut Vec<Left>,
) -> Result<Option<Part>, AllocError>
    ensures { IfOk result (λ next. Stays types.now.rows (λ longer. (known : Known) → Knows known longer types.now → (whole : CType → Bool) → within_if known whole (typing.first_in_struct known whole depth.new) longer next (runs_of longer left.new.items) ≡ typing.first_in_struct known whole depth.old offset number (runs_of longer left.old.items))) }
{
    if *depth == 0 {
        return Ok(None);
    }
    *depth -= 1;
    match members_of(types, offset, number)? {
        None => Ok(None),
        Some(members) => {
            let behind = members.behind_alike()?;
            push_before(left, behind)?;
            Ok(Some(members.first))
        }
    }
}

// Goes to the first member of a struct, unless the struct is taken whole.
fn in_struct(
    types: &Types,
    taken: Taken,
    depth: &mut usize,
    part: Part,
    number: u32,
    left: &mut Vec<Left>,
) -> Result<Option<Part>, AllocError>
    ensures { IfOk result (λ next. Stays types.now.rows (λ longer. (known : Known) → Knows known longer types.now → type_in longer part.ty ≡ Struct number → within_if known (is_taken_for taken) (typing.first_in_struct known (is_taken_for taken) depth.new) longer next (runs_of longer left.new.items) ≡ typing.first_within known (is_taken_for taken) (typing.first_in_struct known (is_taken_for taken) depth.old) part.offset (type_in longer part.ty) (runs_of longer left.old.items))) }
{
    if takes_struct(taken, number) {
        push_before(left, Some(alone(part)))?;
        return Ok(None);
    }
    in_members(types, depth, part.offset, number, left)
}

// Goes into an object without qualifiers that is no array.
fn in_single(
    types: &Types,
    taken: Taken,
    depth: &mut usize,
    part: Part,
    left: &mut Vec<Left>,
) -> Result<Option<Part>, AllocError>
    ensures { IfOk result (λ next. Stays types.now.rows (λ longer. (known : Known) → Knows known longer types.now → plain (type_in longer part.ty) ≡ type_in longer part.ty → is_array (type_in longer part.ty) ≡ false → within_if known (is_taken_for taken) (typing.first_in_struct known (is_taken_for taken) depth.new) longer next (runs_of longer left.new.items) ≡ typing.first_within known (is_taken_for taken) (typing.first_in_struct known (is_taken_for taken) depth.old) part.offset (type_in longer part.ty) (runs_of longer left.old.items))) }
{
    match types.table().struct_of(part.ty) {
        None => Err(AllocError),
        Some(None) => {
            push_before(left, Some(alone(part)))?;
            Ok(None)
        }
        Some(Some(number)) => in_struct(types, taken, depth, part, number, left),
    }
}

// Goes one type inwards, unless the object is taken whole.
fn inwards(
    types: &Types,
    taken: Taken,
    depth: &mut usize,
    part: Part,
    left: &mut Vec<Left>,
) -> Result<Option<Part>, AllocError>
    ensures { IfOk result (λ next. Stays types.now.rows (λ longer. (known : Known) → Knows known longer types.now → within_if known (is_taken_for taken) (typing.first_in_struct known (is_taken_for taken) depth.new) longer next (runs_of longer left.new.items) ≡ typing.first_within known (is_taken_for taken) (typing.first_in_struct known (is_taken_for taken) depth.old) part.offset (type_in longer part.ty) (runs_of longer left.old.items))) }
{
    let Part { offset, ty } = part;
    let ty = unqualified(types, ty)?;
    let part = Part { offset, ty };
    match types.table().array_of(ty) {
        None => Err(AllocError),
        Some(None) => in_single(types, taken, depth, part, left),
        Some(Some((element, length))) => in_array(types, taken, part, element, length, left),
    }
}

// ---- the part in front

// An object gives way to its first part that is taken whole, and what is behind.
fn open_within(
    types: &Types,
    taken: Taken,
    first: Part,
    left: &mut Vec<Left>,
) -> Result<(), AllocError>
    ensures { OnOk result (Stays types.now.rows (λ longer. (known : Known) → Knows known longer types.now → runs_of longer left.new.items ≡ typing.first_within known (is_taken_for taken) (typing.first_in_struct known (is_taken_for taken) (length known.structs)) first.offset (type_in longer first.ty) (runs_of longer left.old.items))) }
{
    let mut part = first;
    let mut depth = types.struct_count();
    for _turn in 0..u64::MAX {
        match inwards(types, taken, &mut depth, part, left)? {
            None => return Ok(()),
            Some(next) => part = next,
        }
    }
    Err(AllocError)
}

// What is left, once these parts before it are opened.
fn open(types: &Types, taken: Taken, top: &Left, left: &mut Vec<Left>) -> Result<(), AllocError>
    ensures { OnOk result (Stays types.now.rows (λ longer. (known : Known) → Knows known longer types.now → runs_of longer left.new.items ≡ typing.opened known (is_taken_for taken) (runs_in longer top.now ++ runs_of longer left.old.items))) }
{
    let behind = top.behind_first(types)?;
    push_before(left, behind)?;
    open_within(types, taken, top.first, left)
}

/// Takes off the part for which an initialiser is; where there is none, all stays.
pub fn take_part(
    types: &Types,
    taken: Taken,
    left: &mut Vec<Left>,
) -> Result<Option<Part>, AllocError>
    ensures { IfOk result (λ part. Stays types.now.rows (λ longer. (known : Known) → Knows known longer types.now → PartIs longer (typing.opened known (is_taken_for taken) (runs_of longer left.old.items)) (runs_of longer left.old.items) part (runs_of longer left.new.items))) }
{
    let Some(top) = left.pop() else {
        return Ok(None);
    };
    open(types, taken, &top, left)?;
    match take_alike(left)? {
        Some(part) => Ok(Some(part)),
        None => {
            push_before(left, Some(top))?;
            Ok(None)
        }
    }
}

// Whether an array of characters is in front.
fn front_is_character_array(types: &Types, left: &[Left]) -> Result<bool, AllocError>
    ensures { IfOk result (λ b. Stays types.now.rows (λ longer. b ≡ begins_with_characters (runs_of longer left.now))) }
{
    match left.split_last() {
        None => Ok(false),
        Some((front, _)) => is_character_array(types, front.first.ty),
    }
}

// Whether an array of characters is in front, once what is left is opened for a string literal.
fn opens_to_characters(types: &Types, left: &[Left]) -> Result<bool, AllocError>
    ensures { IfOk result (λ b. Stays types.now.rows (λ longer. (known : Known) → Knows known longer types.now → b ≡ begins_with_characters (typing.opened known typing.is_character_array (runs_of longer left.now)))) }
{
    match left.split_last() {
        None => Ok(false),
        Some((top, below)) => opens_top_to_characters(types, top, below),
    }
}

// The same, of these parts before others.
fn opens_top_to_characters(types: &Types, top: &Left, below: &[Left]) -> Result<bool, AllocError>
    ensures { IfOk result (λ b. Stays types.now.rows (λ longer. (known : Known) → Knows known longer types.now → b ≡ begins_with_characters (typing.opened known typing.is_character_array (runs_in longer top.now ++ runs_of longer below.now)))) }
{
    let mut opened = Vec::new(types.alloc());
    open(types, Taken::CharacterArray, top, &mut opened)?;
    if opened.is_empty() {
        front_is_character_array(types, below)
    } else {
        front_is_character_array(types, &opened)
    }
}

/// Takes off the array of characters for which a string literal is; where there is none, all stays.
pub fn take_characters(types: &Types, left: &mut Vec<Left>) -> Result<Option<Part>, AllocError>
    ensures { IfOk result (λ part. Stays types.now.rows (λ longer. (known : Known) → Knows known longer types.now → CharactersAre longer (typing.opened known typing.is_character_array (runs_of longer left.old.items)) (runs_of longer left.old.items) part (runs_of longer left.new.items))) }
{
    if !opens_to_characters(types, left)? {
        return Ok(None);
    }
    take_part(types, Taken::CharacterArray, left)
}
