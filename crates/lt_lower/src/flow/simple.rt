// Statements without statements inside, and the full expressions of others.

ghost use Rattle.std.specs.Prelude.{◌≡◌, List};
ghost use Rattle.lt_tree.specs.Typing.Types.{CType};
ghost use Rattle.lt_tree.specs.Typing.TypedTree as e;
ghost use Rattle.lt_tree.specs.Typing.ValueView.{value_of};
ghost use Rattle.lt_tree.specs.Typing.StatementView.{maybe_of};
ghost use Rattle.lt_code.specs.Bodies as code;
ghost use Rattle.lt_emit.specs.Emission.{GivesWithin, costs, Enters, HasPoint, PieceStands};
ghost use Rattle.lt_lower.specs.Stands.{HasExits, GivesFlow, optional_cost, optional_test_cost, OptionalStands, OptionalTestStands, maybe_at};

use crate::flow::Exits;
use lt_emit::{Builder, Fate, full_test, full_value};
use lt_ir::{How, Node};
use lt_tree::typed::Value;
use std::alloc::AllocError;

/// A tick.
pub fn tick(b: &mut Builder, to: u32) -> Result<u32, AllocError>
    requires { HasPoint b.old to }
    ensures code { GivesWithin b.old b.new result (costs 1 0) (PieceStands code.tick to) }
    ensures enters { Enters b.old b.new result }
{
    b.emit(Node::Tick { next: to })
}

/// An expression statement, C11 6.8.3.
pub fn evaluates(b: &mut Builder, v: &Value, x: Exits) -> Result<u32, AllocError>
    requires { HasExits b.old x }
    ensures code { GivesFlow b.old b.new result (λ types. e.Evaluates (value_of types v.now)) x }
    ensures enters { Enters b.old b.new result }
{
    let value = full_value(b, Fate::Untaken, v, 0, x.next)?;
    tick(b, value)
}

/// A `return`, C11 6.8.6.4.
pub fn returns(b: &mut Builder, value: &Option<Box<Value>>, x: Exits) -> Result<u32, AllocError>
    requires { HasExits b.old x }
    ensures code { GivesFlow b.old b.new result (λ types. e.Return (maybe_of types value.now)) x }
    ensures enters { Enters b.old b.new result }
{
    match value {
        None => tick(b, x.leaves),
        Some(v) => gives_back(b, v, x),
    }
}

// A `return` of a value.
fn gives_back(b: &mut Builder, v: &Value, x: Exits) -> Result<u32, AllocError>
    requires { HasExits b.old x }
    ensures code { GivesFlow b.old b.new result (λ types. e.Return (Some (value_of types v.now))) x }
    ensures enters { Enters b.old b.new result }
{
    let held = b.converted(0, 0, How::ToValue, x.back)?;
    let value = full_value(b, Fate::Wanted, v, 0, held)?;
    tick(b, value)
}

/// An expression that may be left out, behind its box.
pub fn given(v: &Option<Box<Value>>) -> Option<&Value>
    ensures { (types : List CType) → maybe_at types result ≡ maybe_of types v.now }
{
    match v {
        None => None,
        Some(v) => Some(v),
    }
}

/// An expression that may be left out, whose value is dropped.
pub fn optional(b: &mut Builder, v: Option<&Value>, to: u32) -> Result<u32, AllocError>
    requires { HasPoint b.old to }
    ensures { GivesWithin b.old b.new result (optional_cost v.entry) (OptionalStands v.entry to) }
{
    match v {
        None => Ok(to),
        Some(v) => full_value(b, Fate::Dropped, v, 0, to),
    }
}

/// A test that may be left out: it holds then.
pub fn optional_test(
    b: &mut Builder,
    v: Option<&Value>,
    on: u32,
    off: u32,
) -> Result<u32, AllocError>
    requires on { HasPoint b.old on }
    requires off { HasPoint b.old off }
    ensures { GivesWithin b.old b.new result (optional_test_cost v.entry) (OptionalTestStands v.entry on off) }
{
    match v {
        None => Ok(on),
        Some(v) => full_test(b, v, 0, on, off),
    }
}
