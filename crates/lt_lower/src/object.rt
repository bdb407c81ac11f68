//! Code of objects and how they start, C11 6.7.9.

ghost use Rattle.std.specs.Prelude.{◌*◌, false, length};
ghost use Rattle.lt_tree.specs.Typing.TypedTree as e;
ghost use Rattle.lt_tree.specs.Typing.ValueView.{value_of};
ghost use Rattle.lt_tree.specs.Typing.StatementView.{start_part_of, local_of};
ghost use Rattle.lt_meaning.specs.Statements.{is_sealed_object};
ghost use Rattle.lt_code.specs.Bodies as code;
ghost use Rattle.lt_code.specs.Code.{up_to, assigned, tracking_at, program_in};
ghost use Rattle.lt_emit.specs.Emission.{GivesWithin, costs, HasPoint, TypedStands};
ghost use Rattle.lt_emit.specs.Entering.{EntersIf};
ghost use Rattle.lt_lower.specs.Known.{IsKnownLocal};
ghost use Rattle.lt_lower.specs.Stands.{opening_cost, parts_cost, part_cost, ObjectStands, OpeningStands, PartStands, PartsStand, HasPart, LettersStand, letter};

use lt_emit::{Builder, Fate, full_value};
use lt_ir::{Movement, Node};
use lt_model::{CellType, Content, Scalar};
use lt_tree::typed::{Local, StartPart, TypeId, Value};
use std::alloc::AllocError;

/// A local object begins and gets its first value.
pub fn opening(b: &mut Builder, it: &Local, to: u32) -> Result<u32, AllocError>
    requires { HasPoint b.old to }
    ensures code { GivesWithin b.old b.new result (opening_cost it.now) (OpeningStands it.now to) }
    ensures enters { EntersIf (λ here. IsKnownLocal here (local_of here.types it.now)) b.old b.new result }
{
    let sealed = sealed(b, it.object, to)?;
    match &it.start {
        None => b.create(it.object, false, sealed),
        Some(start) => {
            let filled = parts(b, it.object, start.parts.as_slice(), sealed)?;
            b.create(it.object, start.zeroed, filled)
        }
    }
}

// An object can't be written from here on, where its type says so.
fn sealed(b: &mut Builder, object: u32, to: u32) -> Result<u32, AllocError>
    requires { HasPoint b.old to }
    ensures { GivesWithin b.old b.new result (costs 1 0) (ObjectStands (λ s v. code.sealed_if s.stands (is_sealed_object (program_in s) object) v) object to) }
{
    if b.site.tables.is_sealed(object) {
        b.seal(object, to)
    } else {
        Ok(to)
    }
}

// The parts of a first value, in the order of the text.
fn parts(b: &mut Builder, object: u32, all: &[StartPart], to: u32) -> Result<u32, AllocError>
    requires { HasPoint b.old to }
    ensures { GivesWithin b.old b.new result (parts_cost all.now) (PartsStand object all.now to) }
{
    let mut from = to;
    'parts: for at in (0..all.len()).rev() {
        from = part(b, object, &all[at], from)?;
    }
    Ok(from)
}

// A part of a first value.
fn part(b: &mut Builder, object: u32, part: &StartPart, to: u32) -> Result<u32, AllocError>
    requires { HasPoint b.old to }
    ensures { GivesWithin b.old b.new result (part_cost (λ types. start_part_of types part.now)) (PartStands object part.now to) }
{
    match part {
        StartPart::Stored { offset, value } => stored(b, object, *offset, value, to),
        StartPart::Fixed { .. } => b.emit(Node::Stop),
        StartPart::Letters { offset, ty, bytes } => {
            letters(b, object, *ty, *offset, bytes.as_slice(), to)
        }
    }
}

// The value of a full expression goes to an offset.
fn stored(b: &mut Builder, object: u32, offset: u64, v: &Value, to: u32) -> Result<u32, AllocError>
    requires { HasPoint b.old to }
    ensures { GivesWithin b.old b.new result (part_cost (λ types. e.stored offset (value_of types v.now))) (HasPart (λ types. e.stored offset (value_of types v.now)) object to) }
{
    let stored = first_assigned(b, v.ty(), to)?;
    let value = full_value(b, Fate::Wanted, v, 1, stored)?;
    part_address(b, object, offset, value)
}

// The value in register 1 goes to the address in register 0. Nothing clashes with it.
fn first_assigned(b: &mut Builder, ty: TypeId, to: u32) -> Result<u32, AllocError>
    requires { HasPoint b.old to }
    ensures { GivesWithin b.old b.new result (costs 1 2) (TypedStands (λ s t. up_to s 1 (assigned (tracking_at false s) t 0 1)) ty to) }
{
    let access = b.access(ty)?;
    let outside = b.tracks;
    b.tracks = false;
    let code = b.assigned(ty, access, 0, 1, to);
    b.tracks = outside;
    code
}

// The address of a part of an object goes to register 0.
fn part_address(b: &mut Builder, object: u32, offset: u64, to: u32) -> Result<u32, AllocError>
    requires { HasPoint b.old to }
    ensures { GivesWithin b.old b.new result (costs 2 1) (ObjectStands (λ s v. code.part_address s v offset) object to) }
{
    let moved = b.emit(Node::Move {
        to: 0,
        pointer: 0,
        by: Movement::Member { offset },
        next: to,
    })?;
    b.address(0, object, moved)
}

// Bytes go to characters, from an offset on. There are fewer than 2^64: more end as want of memory does.
fn letters(
    b: &mut Builder,
    object: u32,
    ty: Scalar,
    offset: u64,
    bytes: &[u8],
    to: u32,
) -> Result<u32, AllocError>
    requires { HasPoint b.old to }
    ensures { GivesWithin b.old b.new result (costs (4 * length bytes.now) 2) (LettersStand object ty offset bytes.now to) }
{
    let mut from = to;
    'letters: for at in (0..bytes.len()).rev() {
        let offset = offset.checked_add(at as u64).ok_or(AllocError)?;
        from = letter(b, object, ty, offset, bytes[at], from)?;
    }
    Ok(from)
}

// A byte goes to a character.
fn letter(
    b: &mut Builder,
    object: u32,
    ty: Scalar,
    offset: u64,
    byte: u8,
    to: u32,
) -> Result<u32, AllocError>
    requires { HasPoint b.old to }
    ensures { GivesWithin b.old b.new result (costs 4 2) (ObjectStands (λ s v. letter s v ty offset byte) object to) }
{
    let stored = b.emit(Node::Store {
        place: 0,
        value: 1,
        gives: 1,
        ty: CellType::Num(ty),
        tracks: false,
        next: to,
    })?;
    let constant = b.constant(1, Content::Number(i128::from(byte)), stored)?;
    part_address(b, object, offset, constant)
}
