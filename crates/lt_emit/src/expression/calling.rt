// Code of calls, C11 6.5.2.2.

ghost use Rattle.std.specs.Prelude.{◌≡◌, ◌+◌, ◌<◌, ◌^◌, length};
ghost use Rattle.lt_tree.specs.Typing.Types.{Void};
ghost use Rattle.lt_tree.specs.Typing.TypeRows.{type_in};
ghost use Rattle.lt_tree.specs.Typing.ValueView.{value_of, values_in};
ghost use Rattle.lt_tree.specs.Typing.TypedTree as e;
ghost use Rattle.lt_code.specs.Code.{taken_into};
ghost use Rattle.lt_emit.specs.Emission.{GivesWithin, costs, HasPoint};
ghost use Rattle.lt_emit.specs.Stands.{GivesValue};
ghost use Rattle.lt_emit.specs.Calling.{arguments_cost, joins_cost, passed_cost, call_cost, ArgumentsStand, JoinStands, JoinsStand, PassedStand, CallStands, OutsideStands, NextStands};

use crate::builder::Builder;
use crate::expression::value;
use crate::fate::Fate;
use crate::pieces::room_for;
use lt_ir::{How, Node, Parts};
use lt_model::{Content, Name};
use lt_tables::stops;
use lt_tree::typed::{TypeId, Value};
use std::alloc::AllocError;

/// A call: its arguments stand in the registers from this one on.
#[cycle(expression)]
pub fn call(
    b: &mut Builder,
    fate: Fate,
    ty: TypeId,
    name: &Name,
    arguments: &[Value],
    register: u32,
    to: u32,
) -> Result<u32, AllocError>
    requires { HasPoint b.old to }
    ensures { GivesValue b.old b.new result fate (λ types. e.Call (type_in types ty) name.now (values_in types arguments.now)) register to }
{
    room_for(register, arguments.len())?;
    let count = arguments.len() as u32;
    let called = b.call(fate.takes(), name, ty, register, count, to)?;
    let ticked = b.emit(Node::Tick { next: called })?;
    let passed = passed(b, arguments, register, ticked)?;
    let settled = b.clash(Parts::Settled { register }, passed)?;
    let joined = joins(b, arguments, register, settled)?;
    values(b, arguments, register, joined)
}

// The values of arguments, the first first.
#[cycle(expression)]
fn values(b: &mut Builder, arguments: &[Value], register: u32, to: u32) -> Result<u32, AllocError>
    requires point { HasPoint b.old to }
    requires room { register + length arguments.now + 4 < 2 ^ 32 }
    ensures { GivesWithin b.old b.new result (arguments_cost arguments.now register) (ArgumentsStand arguments.now register to) }
{
    let mut from = to;
    'arguments: for at in (0..arguments.len()).rev() {
        let held = register + at as u32;
        from = value(b, Fate::Unconverted, &arguments[at], held, from)?;
    }
    Ok(from)
}

// The joins of arguments, of which the code does the last first: it has nothing behind it.
fn joins(b: &mut Builder, arguments: &[Value], register: u32, to: u32) -> Result<u32, AllocError>
    requires point { HasPoint b.old to }
    requires room { register + length arguments.now + 4 < 2 ^ 32 }
    ensures { GivesWithin b.old b.new result (joins_cost (length arguments.now) register) (JoinsStand arguments.now register to) }
{
    let mut from = to;
    'arguments: for (at, argument) in arguments.iter().enumerate() {
        from = join(b, argument, register + at as u32, from)?;
    }
    b.constant(register + arguments.len() as u32, Content::Unset, from)
}

// An argument is joined with those behind it, and read where it is a struct.
fn join(b: &mut Builder, argument: &Value, register: u32, to: u32) -> Result<u32, AllocError>
    requires point { HasPoint b.old to }
    requires room { register + 4 < 2 ^ 32 }
    ensures { GivesWithin b.old b.new result (costs 2 (register + 2)) (JoinStands argument.now register to) }
{
    let parts = Parts::Unsequenced {
        left: register,
        right: register + 1,
    };
    let clash = b.clash(parts, to)?;
    b.reads(argument.ty(), register, clash)
}

// The values of arguments are converted, and are there.
fn passed(b: &mut Builder, arguments: &[Value], register: u32, to: u32) -> Result<u32, AllocError>
    requires point { HasPoint b.old to }
    requires room { register + length arguments.now + 4 < 2 ^ 32 }
    ensures { GivesWithin b.old b.new result (passed_cost arguments.now register) (PassedStand arguments.now register to) }
{
    let mut from = to;
    'arguments: for at in (0..arguments.len()).rev() {
        let held = register + at as u32;
        let there = b.converted(held, held, How::ToValue, from)?;
        from = b.late(&arguments[at], held, there)?;
    }
    Ok(from)
}

impl<'t> Builder<'t> {
    // The call itself, behind its arguments and its tick.
    fn call(
        &mut self,
        is_taken: bool,
        name: &Name,
        ty: TypeId,
        first: u32,
        count: u32,
        to: u32,
    ) -> Result<u32, AllocError>
        requires { HasPoint self.old to }
        ensures { GivesWithin self.old self.new result (call_cost name.now first count) (CallStands is_taken name.now ty first count to) }
    {
        match self.site.tables.function(name) {
            Some(function) => self.emit(Node::Call {
                function,
                to: target(is_taken, first),
                first,
                count,
                next: to,
            }),
            None => self.outside(is_taken, name, ty, first, to),
        }
    }

    // The call of a function without a body.
    fn outside(
        &mut self,
        is_taken: bool,
        name: &Name,
        ty: TypeId,
        register: u32,
        to: u32,
    ) -> Result<u32, AllocError>
        requires { HasPoint self.old to }
        ensures { GivesWithin self.old self.new result (costs 1 (register + 1)) (OutsideStands is_taken name.now ty register to) }
    {
        if stops(name) {
            self.emit(Node::Stop)
        } else if !is_taken {
            Ok(to)
        } else if self.site.tables.is_void(ty) {
            self.replaced(register, Content::Unset, to)
        } else {
            self.next_for(name, register, to)
        }
    }

    // The next value of a function without a body.
    fn next_for(&mut self, name: &Name, register: u32, to: u32) -> Result<u32, AllocError>
        requires { HasPoint self.old to }
        ensures { GivesWithin self.old self.new result (costs 1 (register + 1)) (NextStands name.now register to) }
    {
        match self.site.tables.stub(name) {
            None => Ok(to),
            Some(stub) => self.emit(Node::Stub {
                stub,
                to: register,
                next: to,
            }),
        }
    }
}

// Where the value of a call goes, if it is taken.
fn target(is_taken: bool, register: u32) -> Option<u32>
    ensures { result ≡ taken_into is_taken register }
{
    if is_taken { Some(register) } else { None }
}
