// Code of conversions and operators, C11 6.5.2.1 to 6.5.9.

ghost use Rattle.std.specs.Prelude.{◌≡◌, List};
ghost use Rattle.lt_tree.specs.Typing.Types.{CType, Void};
ghost use Rattle.lt_tree.specs.Typing.TypeRows.{type_in};
ghost use Rattle.lt_tree.specs.Typing.ValueView.{value_of, place_of, conversion_of, side_of};
ghost use Rattle.lt_tree.specs.Typing.TypedTree as e;
ghost use Rattle.lt_emit.specs.Emission.{HasPoint};
ghost use Rattle.lt_emit.specs.Stands.{GivesValue, GivesPlain, GivesPlace};

use crate::builder::Builder;
use crate::expression::{operands, place, value};
use crate::fate::Fate;
use crate::pieces::room;
use lt_ir::Node;
use lt_model::{Content, Op};
use lt_tree::typed::{Conversion, Place, Side, TypeId, Value};
use std::alloc::AllocError;

/// A conversion, made where its fate lets it be made here.
#[cycle(expression)]
pub fn conversion(
    b: &mut Builder,
    fate: Fate,
    ty: TypeId,
    how: Conversion,
    operand: &Value,
    register: u32,
    to: u32,
) -> Result<u32, AllocError>
    requires { HasPoint b.old to }
    ensures { GivesValue b.old b.new result fate (λ types. e.Convert (conversion_of how) (type_in types ty) (value_of types operand.now)) register to }
{
    if how == Conversion::ToVoid {
        let dropped = b.replaced(register, Content::Unset, to)?;
        value(b, Fate::Untaken, operand, register, dropped)
    } else if fate.converts() {
        let converted = b.conversion(how, ty, register, to)?;
        value(b, fate.inside(), operand, register, converted)
    } else {
        value(b, fate.inside(), operand, register, to)
    }
}

/// `-a`.
#[cycle(expression)]
pub fn minus(
    b: &mut Builder,
    ty: TypeId,
    operand: &Value,
    register: u32,
    to: u32,
) -> Result<u32, AllocError>
    requires { HasPoint b.old to }
    ensures { GivesPlain b.old b.new result (λ types. e.Minus (type_in types ty) (value_of types operand.now)) register to }
{
    room(register)?;
    let negated = b.negated(ty, register, to)?;
    value(b, Fate::Wanted, operand, register, negated)
}

/// `~a`.
#[cycle(expression)]
pub fn complement(
    b: &mut Builder,
    ty: TypeId,
    operand: &Value,
    register: u32,
    to: u32,
) -> Result<u32, AllocError>
    requires { HasPoint b.old to }
    ensures { GivesPlain b.old b.new result (λ types. e.Complement (type_in types ty) (value_of types operand.now)) register to }
{
    room(register)?;
    let complemented = b.complemented(ty, register, to)?;
    value(b, Fate::Wanted, operand, register, complemented)
}

/// A pointer that is moved by a number of elements.
#[cycle(expression)]
pub fn movement(
    b: &mut Builder,
    op: Op,
    size: u64,
    side: Side,
    left: &Value,
    right: &Value,
    register: u32,
    to: u32,
) -> Result<u32, AllocError>
    requires { HasPoint b.old to }
    ensures { GivesPlain b.old b.new result (λ types. e.Move Void op size (side_of side) (value_of types left.now) (value_of types right.now)) register to }
{
    room(register)?;
    let moved = b.moved(op, size, side, register, to)?;
    operands(b, left, right, register, moved)
}

/// The number of elements between two pointers.
#[cycle(expression)]
pub fn distance(
    b: &mut Builder,
    size: u64,
    left: &Value,
    right: &Value,
    register: u32,
    to: u32,
) -> Result<u32, AllocError>
    requires { HasPoint b.old to }
    ensures { GivesPlain b.old b.new result (λ types. e.Distance Void size (value_of types left.now) (value_of types right.now)) register to }
{
    room(register)?;
    let subtracted = b.emit(Node::Subtract {
        to: register,
        left: register,
        right: register + 1,
        size,
        next: to,
    })?;
    operands(b, left, right, register, subtracted)
}

/// Two pointers that are compared.
#[cycle(expression)]
pub fn comparison(
    b: &mut Builder,
    op: Op,
    left: &Value,
    right: &Value,
    register: u32,
    to: u32,
) -> Result<u32, AllocError>
    requires { HasPoint b.old to }
    ensures { GivesPlain b.old b.new result (λ types. e.Compare Void op (value_of types left.now) (value_of types right.now)) register to }
{
    room(register)?;
    let compared = b.emit(Node::Compare {
        to: register,
        left: register,
        right: register + 1,
        op,
        next: to,
    })?;
    operands(b, left, right, register, compared)
}

/// `a[i]`.
#[cycle(expression)]
pub fn element(
    b: &mut Builder,
    size: u64,
    side: Side,
    left: &Value,
    right: &Value,
    register: u32,
    to: u32,
) -> Result<u32, AllocError>
    requires { HasPoint b.old to }
    ensures { GivesPlace b.old b.new result (λ types. e.Element Void size (side_of side) (value_of types left.now) (value_of types right.now)) register to }
{
    room(register)?;
    let moved = b.moved(Op::Add, size, side, register, to)?;
    operands(b, left, right, register, moved)
}

/// `s.m`.
#[cycle(expression)]
pub fn part(
    b: &mut Builder,
    offset: u64,
    whole: &Place,
    register: u32,
    to: u32,
) -> Result<u32, AllocError>
    requires { HasPoint b.old to }
    ensures { GivesPlace b.old b.new result (λ types. e.Part Void offset (place_of types whole.now)) register to }
{
    let member = b.member(register, offset, to)?;
    place(b, whole, register, member)
}
