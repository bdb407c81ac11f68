//! Code of expressions, C11 6.5.
mod assigning;
mod calling;
mod connecting;
mod marking;
mod operators;

ghost use Rattle.std.specs.Prelude.{◌≡◌, ◌+◌, ◌<◌, ◌^◌, List, true};
ghost use Rattle.lt_tree.specs.Typing.Types.{CType, Void};
ghost use Rattle.lt_tree.specs.Typing.TypeRows.{type_in};
ghost use Rattle.lt_tree.specs.Typing.ValueView.{value_of, place_of};
ghost use Rattle.lt_tree.specs.Typing.TypedTree as e;
ghost use Rattle.lt_emit.specs.Emission.{GivesWithin, HasPoint};
ghost use Rattle.lt_emit.specs.Stands.{GivesValue, GivesPlain, GivesPlace, GivesTest, HasOperands, operands_cost, is_plain};

use crate::builder::Builder;
use crate::changes::Change;
use crate::fate::Fate;
use crate::pieces::room;
use assigning::{assign, step, update};
use calling::call;
use connecting::{comma, conditional, connected, connected_test};
use lt_ir::{How, Node, Parts};
use lt_model::{Content, Op, Scalar};
use lt_tree::typed::{Place, TypeId, Value};
pub use marking::mark;
use marking::{after, decided, decided_test, marked, marked_test};
use operators::{comparison, complement, conversion, distance, element, minus, movement, part};
use std::alloc::AllocError;

/// The code of an expression, whose value goes to a register.
#[cycle(expression)]
pub fn value(
    b: &mut Builder,
    fate: Fate,
    v: &Value,
    register: u32,
    to: u32,
) -> Result<u32, AllocError>
    requires { HasPoint b.old to }
    ensures { GivesValue b.old b.new result fate (λ types. value_of types v.now) register to }
{
    match v {
        Value::Constant(_, number) => b.constant(register, Content::Number(*number), to),
        Value::Load(ty, p) => load(b, *ty, p, register, to),
        Value::Arithmetic {
            op,
            operands,
            left,
            right,
            ..
        } => arithmetic(b, *op, *operands, left, right, register, to),
        Value::Not(_, operand) => negation(b, operand, register, to),
        Value::Whole(_, p) => place(b, p, register, to),
        Value::Decay(_, p) => place(b, p, register, to),
        Value::AddressOf(_, p) => place(b, p, register, to),
        Value::Convert(ty, how, operand) => {
            conversion(b, fate, *ty, *how, operand, register, to)
        }
        Value::Minus(ty, operand) => minus(b, *ty, operand, register, to),
        Value::Complement(ty, operand) => complement(b, *ty, operand, register, to),
        Value::Move {
            op,
            size,
            pointer,
            left,
            right,
            ..
        } => movement(b, *op, *size, *pointer, left, right, register, to),
        Value::Distance {
            size,
            left,
            right,
            ..
        } => distance(b, *size, left, right, register, to),
        Value::Compare(_, op, left, right) => comparison(b, *op, left, right, register, to),
        Value::Assign(ty, target, v) => assign(b, *ty, target, v, register, to),
        Value::Update {
            ty,
            op,
            operands,
            place,
            value,
        } => update(
            b,
            Change::Computed(*op, *operands),
            *ty,
            place,
            value,
            register,
            to,
        ),
        Value::UpdatePointer {
            ty,
            op,
            size,
            place,
            value,
        } => update(
            b,
            Change::Moved(*op, *size),
            *ty,
            place,
            value,
            register,
            to,
        ),
        Value::Step {
            ty,
            gives,
            op,
            operands,
            place,
        } => step(
            b,
            Change::Computed(*op, *operands),
            *ty,
            *gives,
            place,
            register,
            to,
        ),
        Value::StepPointer {
            ty,
            gives,
            op,
            size,
            place,
        } => step(
            b,
            Change::Moved(*op, *size),
            *ty,
            *gives,
            place,
            register,
            to,
        ),
        Value::After(_, operand, id) => after(b, fate, operand, *id, register, to),
        Value::Logical(_, op, left, right) => connected(b, *op, left, right, register, to),
        Value::Conditional(_, tested, left, right) => conditional(
            b, fate, tested, left, right, register, to,
        ),
        Value::Call(ty, name, all) => call(b, fate, *ty, name, all.as_slice(), register, to),
        Value::Comma(_, parts) => comma(b, fate, parts.as_slice(), register, to),
        Value::Marked(_, marks, v) => marked(b, fate, marks.as_slice(), v, register, to),
        Value::Decide {
            operand,
            when_true,
            when_false,
            ..
        } => decided(b, operand, *when_true, *when_false, register, to),
    }
}

// Whether its operand doesn't hold.
#[cycle(expression)]
fn negation(b: &mut Builder, operand: &Value, register: u32, to: u32) -> Result<u32, AllocError>
    requires { HasPoint b.old to }
    ensures { GivesPlain b.old b.new result (λ types. e.Not Void (value_of types operand.now)) register to }
{
    let on = b.truth(register, false, to)?;
    let off = b.truth(register, true, to)?;
    test(b, operand, register, on, off)
}

// A scalar that is read.
#[cycle(expression)]
fn load(b: &mut Builder, ty: TypeId, p: &Place, register: u32, to: u32) -> Result<u32, AllocError>
    requires { HasPoint b.old to }
    ensures { GivesPlain b.old b.new result (λ types. e.Load (type_in types ty) (place_of types p.now)) register to }
{
    let read = b.load(register, register, ty, to)?;
    place(b, p, register, read)
}

/// Two operands, and what is done with them.
#[cycle(expression)]
pub fn operands(
    b: &mut Builder,
    left: &Value,
    right: &Value,
    register: u32,
    to: u32,
) -> Result<u32, AllocError>
    requires point { HasPoint b.old to }
    requires room { register + 4 < 2 ^ 32 }
    ensures { GivesWithin b.old b.new result (operands_cost left.now right.now register) (HasOperands left.now right.now register to) }
{
    let joined = b.clash(
        Parts::Unsequenced {
            left: register,
            right: register + 1,
        },
        to,
    )?;
    let second = value(b, Fate::Wanted, right, register + 1, joined)?;
    value(b, Fate::Wanted, left, register, second)
}

// An operator on two integers.
#[cycle(expression)]
fn arithmetic(
    b: &mut Builder,
    op: Op,
    ty: Scalar,
    left: &Value,
    right: &Value,
    register: u32,
    to: u32,
) -> Result<u32, AllocError>
    requires { HasPoint b.old to }
    ensures { GivesPlain b.old b.new result (λ types. e.Arithmetic Void op ty (value_of types left.now) (value_of types right.now)) register to }
{
    room(register)?;
    let applied = b.emit(Node::Apply {
        to: register,
        left: register,
        right: register + 1,
        op,
        ty,
        next: to,
    })?;
    operands(b, left, right, register, applied)
}

/// The code of an expression as a test, which leads to one node or to the other.
#[cycle(expression)]
pub fn test(b: &mut Builder, v: &Value, register: u32, on: u32, off: u32) -> Result<u32, AllocError>
    requires on { HasPoint b.old on }
    requires off { HasPoint b.old off }
    ensures { GivesTest b.old b.new result (λ types. value_of types v.now) register on off }
{
    match v {
        Value::Not(_, operand) => negated_test(b, operand, register, on, off),
        Value::Logical(_, op, left, right) => connected_test(
            b, *op, left, right, register, on, off,
        ),
        Value::Marked(_, marks, v) => marked_test(b, marks.as_slice(), v, register, on, off),
        Value::Decide {
            operand,
            when_true,
            when_false,
            ..
        } => decided_test(b, operand, *when_true, *when_false, register, on, off),
        _ => plain_test(b, v, register, on, off),
    }
}

// The value of an expression, and a branch on it.
#[cycle(expression)]
fn plain_test(
    b: &mut Builder,
    v: &Value,
    register: u32,
    on: u32,
    off: u32,
) -> Result<u32, AllocError>
    requires on { HasPoint b.old on }
    requires off { HasPoint b.old off }
    requires plain { (types : List CType) → is_plain (value_of types v.now) ≡ true }
    ensures { GivesTest b.old b.new result (λ types. value_of types v.now) register on off }
{
    let tested = b.branch(register, on, off)?;
    value(b, Fate::Wanted, v, register, tested)
}

// A test that holds where its operand doesn't.
#[cycle(expression)]
fn negated_test(
    b: &mut Builder,
    operand: &Value,
    register: u32,
    on: u32,
    off: u32,
) -> Result<u32, AllocError>
    requires on { HasPoint b.old on }
    requires off { HasPoint b.old off }
    ensures { GivesTest b.old b.new result (λ types. e.Not Void (value_of types operand.now)) register on off }
{
    test(b, operand, register, off, on)
}

/// The code of an lvalue, whose address goes to a register.
#[cycle(expression)]
pub fn place(b: &mut Builder, p: &Place, register: u32, to: u32) -> Result<u32, AllocError>
    requires { HasPoint b.old to }
    ensures { GivesPlace b.old b.new result (λ types. place_of types p.now) register to }
{
    match p {
        Place::Object(_, number) => b.address(register, *number, to),
        Place::Pointed(_, pointer) => pointed(b, pointer, register, to),
        Place::Held(_, pointer) => pointed(b, pointer, register, to),
        Place::Element {
            size,
            pointer,
            left,
            right,
            ..
        } => element(b, *size, *pointer, left, right, register, to),
        Place::Part { offset, whole, .. } => part(b, *offset, whole, register, to),
    }
}

// Where a pointer points to.
#[cycle(expression)]
fn pointed(b: &mut Builder, pointer: &Value, register: u32, to: u32) -> Result<u32, AllocError>
    requires { HasPoint b.old to }
    ensures { GivesPlace b.old b.new result (λ types. e.Pointed Void (value_of types pointer.now)) register to }
{
    let converted = b.converted(register, register, How::ToPointer, to)?;
    value(b, Fate::Wanted, pointer, register, converted)
}
