// Code of `&&`, `||`, `?:` and `,`: C11 6.5.13 to 6.5.15 and 6.5.17.

ghost use Rattle.std.specs.Prelude.{◌+◌, ◌<◌, ◌^◌};
ghost use Rattle.lt_tree.specs.declared.expression.LogicalOp.TheVariants as logical;
ghost use Rattle.lt_tree.specs.Typing.Types.{Void};
ghost use Rattle.lt_tree.specs.Typing.ValueView.{value_of, values_in};
ghost use Rattle.lt_tree.specs.Typing.TypedTree as e;
ghost use Rattle.lt_emit.specs.Emission.{GivesWithin, costs, HasPoint, PieceStands};
ghost use Rattle.lt_emit.specs.Stands.{GivesPlain, GivesValue, GivesTest};
ghost use Rattle.lt_emit.specs.Connecting.{second_cost, branch_cost, part_cost, joined_in, settled_in, behind_part, SecondStands, BranchStands, PartStands};

use crate::builder::Builder;
use crate::expression::{test, value};
use crate::fate::Fate;
use crate::pieces::room;
use lt_ir::{How, Node, Parts};
use lt_model::Content;
use lt_tree::LogicalOp;
use lt_tree::typed::Value;
use std::alloc::AllocError;

/// `&&` and `||`.
#[cycle(expression)]
pub fn connected(
    b: &mut Builder,
    op: LogicalOp,
    left: &Value,
    right: &Value,
    register: u32,
    to: u32,
) -> Result<u32, AllocError>
    requires { HasPoint b.old to }
    ensures { GivesPlain b.old b.new result (λ types. e.Logical Void op (value_of types left.now) (value_of types right.now)) register to }
{
    let on = b.truth(register, true, to)?;
    let off = b.truth(register, false, to)?;
    connected_test(b, op, left, right, register, on, off)
}

/// The same as a test.
#[cycle(expression)]
pub fn connected_test(
    b: &mut Builder,
    op: LogicalOp,
    left: &Value,
    right: &Value,
    register: u32,
    on: u32,
    off: u32,
) -> Result<u32, AllocError>
    requires on { HasPoint b.old on }
    requires off { HasPoint b.old off }
    ensures { GivesTest b.old b.new result (λ types. e.Logical Void op (value_of types left.now) (value_of types right.now)) register on off }
{
    match op {
        LogicalOp::And => conjunction(b, left, right, register, on, off),
        LogicalOp::Or => disjunction(b, left, right, register, on, off),
    }
}

// `&&`, whose right operand is evaluated where the left one holds.
#[cycle(expression)]
fn conjunction(
    b: &mut Builder,
    left: &Value,
    right: &Value,
    register: u32,
    on: u32,
    off: u32,
) -> Result<u32, AllocError>
    requires on { HasPoint b.old on }
    requires off { HasPoint b.old off }
    ensures { GivesTest b.old b.new result (λ types. e.Logical Void logical.And (value_of types left.now) (value_of types right.now)) register on off }
{
    let further = second(b, right, register, on, off)?;
    let settled = b.clash(Parts::Settled { register }, off)?;
    test(b, left, register, further, settled)
}

// `||`, whose right operand is evaluated where the left one doesn't hold.
#[cycle(expression)]
fn disjunction(
    b: &mut Builder,
    left: &Value,
    right: &Value,
    register: u32,
    on: u32,
    off: u32,
) -> Result<u32, AllocError>
    requires on { HasPoint b.old on }
    requires off { HasPoint b.old off }
    ensures { GivesTest b.old b.new result (λ types. e.Logical Void logical.Or (value_of types left.now) (value_of types right.now)) register on off }
{
    let further = second(b, right, register, on, off)?;
    let settled = b.clash(Parts::Settled { register }, on)?;
    test(b, left, register, settled, further)
}

// The right operand, behind the sequence point.
#[cycle(expression)]
fn second(
    b: &mut Builder,
    right: &Value,
    register: u32,
    on: u32,
    off: u32,
) -> Result<u32, AllocError>
    requires on { HasPoint b.old on }
    requires off { HasPoint b.old off }
    ensures { GivesWithin b.old b.new result (second_cost right.now register) (SecondStands right.now register on off) }
{
    room(register)?;
    let joined = Parts::Sequenced {
        left: register,
        right: register + 1,
    };
    let joined_on = b.clash(joined, on)?;
    let joined_off = b.clash(joined, off)?;
    let tested = test(b, right, register + 1, joined_on, joined_off)?;
    b.clash(Parts::Settled { register }, tested)
}

/// `?:`.
#[cycle(expression)]
pub fn conditional(
    b: &mut Builder,
    fate: Fate,
    tested: &Value,
    left: &Value,
    right: &Value,
    register: u32,
    to: u32,
) -> Result<u32, AllocError>
    requires { HasPoint b.old to }
    ensures { GivesValue b.old b.new result fate (λ types. e.Conditional Void (value_of types tested.now) (value_of types left.now) (value_of types right.now)) register to }
{
    room(register)?;
    let joined = b.joined(register, to)?;
    let on = branch(b, fate, left, register, joined)?;
    let off = branch(b, fate, right, register, joined)?;
    test(b, tested, register, on, off)
}

// A branch of `?:`, behind the sequence point.
#[cycle(expression)]
fn branch(b: &mut Builder, fate: Fate, v: &Value, register: u32, to: u32) -> Result<u32, AllocError>
    requires point { HasPoint b.old to }
    requires room { register + 4 < 2 ^ 32 }
    ensures { GivesWithin b.old b.new result (branch_cost v.now register) (BranchStands fate v.now register to) }
{
    let chosen = value(b, fate.of_branch(), v, register + 1, to)?;
    b.clash(Parts::Settled { register }, chosen)
}

impl<'t> Builder<'t> {
    // A value goes one register down, to the footprint of what was done before it.
    fn joined(&mut self, register: u32, to: u32) -> Result<u32, AllocError>
        requires point { HasPoint self.old to }
        requires room { register + 4 < 2 ^ 32 }
        ensures { GivesWithin self.old self.new result (costs 2 (register + 2)) (PieceStands (λ s. joined_in s register) to) }
    {
        let moved = self.emit(Node::Convert {
            to: register,
            from: register + 1,
            how: How::AsItIs,
            next: to,
        })?;
        let parts = Parts::Sequenced {
            left: register,
            right: register + 1,
        };
        self.clash(parts, moved)
    }

    // The sequence point behind a part of a comma expression.
    fn settled(&mut self, register: u32, to: u32) -> Result<u32, AllocError>
        requires point { HasPoint self.old to }
        requires room { register + 4 < 2 ^ 32 }
        ensures { GivesWithin self.old self.new result (costs 2 (register + 2)) (PieceStands (λ s. settled_in s register) to) }
    {
        let parts = Parts::Sequenced {
            left: register,
            right: register + 1,
        };
        let joined = self.clash(parts, to)?;
        self.clash(
            Parts::Settled {
                register: register + 1,
            },
            joined,
        )
    }

    // What is done behind a part of a comma expression.
    fn behind_part(&mut self, is_last: bool, register: u32, to: u32) -> Result<u32, AllocError>
        requires point { HasPoint self.old to }
        requires room { register + 4 < 2 ^ 32 }
        ensures { GivesWithin self.old self.new result (costs 2 (register + 2)) (PieceStands (λ s. behind_part s is_last register) to) }
    {
        if is_last {
            self.joined(register, to)
        } else {
            self.settled(register, to)
        }
    }
}

/// The parts of a comma expression, of which the last gives the value.
#[cycle(expression)]
pub fn comma(
    b: &mut Builder,
    fate: Fate,
    parts: &[Value],
    register: u32,
    to: u32,
) -> Result<u32, AllocError>
    requires { HasPoint b.old to }
    ensures { GivesValue b.old b.new result fate (λ types. e.Comma Void (values_in types parts.now)) register to }
{
    room(register)?;
    let last_fate = fate.of_last();
    let mut from = to;
    'parts: for at in (0..parts.len()).rev() {
        let is_last = at + 1 == parts.len();
        from = comma_part(b, last_fate, is_last, &parts[at], register, from)?;
    }
    b.constant(register, Content::Unset, from)
}

// A part of a comma expression. The footprint of those before it is in the register, its own value in the next.
#[cycle(expression)]
fn comma_part(
    b: &mut Builder,
    fate: Fate,
    is_last: bool,
    v: &Value,
    register: u32,
    to: u32,
) -> Result<u32, AllocError>
    requires point { HasPoint b.old to }
    requires room { register + 4 < 2 ^ 32 }
    ensures { GivesWithin b.old b.new result (part_cost v.now register) (PartStands fate is_last v.now register to) }
{
    let behind = b.behind_part(is_last, register, to)?;
    value(b, fate.of_part(is_last), v, register + 1, behind)
}
