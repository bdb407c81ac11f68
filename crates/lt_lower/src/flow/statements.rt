// Statements, by what they are.

ghost use Rattle.std.specs.Prelude.{List, OnOk};
ghost use Rattle.lt_tree.specs.Typing.TypedTree as e;
ghost use Rattle.lt_tree.specs.Typing.ValueView.{value_of};
ghost use Rattle.lt_tree.specs.Typing.StatementView.{statement_of, for_start_of, maybe_of, items_in, cases_in};
ghost use Rattle.lt_emit.specs.Emission.{GivesWithin, Enters, HasPoint};
ghost use Rattle.lt_lower.specs.Known.{IsKnownStatement, AreKnownItems};
ghost use Rattle.lt_lower.specs.Opening.{OpensIf, ItemOpens};
ghost use Rattle.lt_lower.specs.Stands.{HasExits, GivesFlow, turns_cost, items_cost, item_cost, TurnsStand, ItemsStand, ItemStands, GivesCases, PutsCase};

use crate::flow::ends::{ends_along, exits_at};
use crate::flow::labels::{choice, put_labels};
use crate::flow::simple::{evaluates, given, optional, optional_test, returns, tick};
use crate::flow::start::{start_ends, start_opens};
use crate::flow::{Entered, Exits};
use crate::object::opening;
use lt_emit::{Builder, Fate, full_test, full_value, mark};
use lt_tree::typed::{Case, ForStart, Item, Statement, Value};
use std::alloc::AllocError;

/// The code of a statement.
#[cycle(flow)]
pub fn flows(b: &mut Builder, s: &Statement, x: Exits) -> Result<u32, AllocError>
    requires { HasExits b.old x }
    ensures code { GivesFlow b.old b.new result (λ types. statement_of types s.now) x }
    ensures enters { OpensIf (λ here. IsKnownStatement here (statement_of here.types s.now)) b.old b.new x.next result }
{
    match s {
        Statement::Compound(its) => items(b, its.as_slice(), x),
        Statement::Evaluates(v) => evaluates(b, v, x),
        Statement::Null => tick(b, x.next),
        Statement::If(test, body) => if_alone(b, test, body, x),
        Statement::IfElse(test, body, other) => if_else(b, test, body, other, x),
        Statement::While(test, body) => while_loop(b, test, body, x),
        Statement::Do(body, test) => do_loop(b, body, test, x),
        Statement::For(start, test, step, body) => for_loop(b, start, test, step, body, x),
        Statement::Switch(v, its) => switch(b, v, its.as_slice(), x),
        Statement::Break => tick(b, x.breaks),
        Statement::Continue => tick(b, x.continues),
        Statement::Return(value) => returns(b, value, x),
    }
}

// An `if` without `else`, C11 6.8.4.1.
#[cycle(flow)]
fn if_alone(b: &mut Builder, v: &Value, body: &Statement, x: Exits) -> Result<u32, AllocError>
    requires { HasExits b.old x }
    ensures code { GivesFlow b.old b.new result (λ types. e.If (value_of types v.now) (statement_of types body.now)) x }
    ensures enters { Enters b.old b.new result }
{
    let on = flows(b, body, x)?;
    let test = full_test(b, v, 0, on, x.next)?;
    tick(b, test)
}

// An `if` with `else`.
#[cycle(flow)]
fn if_else(
    b: &mut Builder,
    v: &Value,
    body: &Statement,
    other: &Statement,
    x: Exits,
) -> Result<u32, AllocError>
    requires { HasExits b.old x }
    ensures code { GivesFlow b.old b.new result (λ types. e.IfElse (value_of types v.now) (statement_of types body.now) (statement_of types other.now)) x }
    ensures enters { Enters b.old b.new result }
{
    let off = flows(b, other, x)?;
    let on = flows(b, body, x)?;
    let test = full_test(b, v, 0, on, off)?;
    tick(b, test)
}

// The turns of a `while` or a `for`, C11 6.8.5.
#[cycle(flow)]
fn turns(
    b: &mut Builder,
    test: Option<&Value>,
    step: Option<&Value>,
    body: &Statement,
    x: Exits,
) -> Result<u32, AllocError>
    requires { HasExits b.old x }
    ensures { GivesWithin b.old b.new result (turns_cost test.entry step.entry body.now) (TurnsStand test.entry step.entry body.now x) }
{
    let head = b.reserve()?;
    let stepped = optional(b, step, head)?;
    let inside = Exits {
        next: stepped,
        breaks: x.next,
        continues: stepped,
        ..x
    };
    let turn = flows(b, body, inside)?;
    let tested = optional_test(b, test, turn, x.next)?;
    b.patch(head, tested);
    Ok(head)
}

// A `while`.
#[cycle(flow)]
fn while_loop(b: &mut Builder, v: &Value, body: &Statement, x: Exits) -> Result<u32, AllocError>
    requires { HasExits b.old x }
    ensures code { GivesFlow b.old b.new result (λ types. e.While (value_of types v.now) (statement_of types body.now)) x }
    ensures enters { Enters b.old b.new result }
{
    let head = turns(b, Some(v), None, body, x)?;
    tick(b, head)
}

// A `do`.
#[cycle(flow)]
fn do_loop(b: &mut Builder, body: &Statement, v: &Value, x: Exits) -> Result<u32, AllocError>
    requires { HasExits b.old x }
    ensures code { GivesFlow b.old b.new result (λ types. e.Do (statement_of types body.now) (value_of types v.now)) x }
    ensures enters { Enters b.old b.new result }
{
    let again = b.reserve()?;
    let inside = Exits {
        next: again,
        breaks: x.next,
        continues: again,
        ..x
    };
    let turn = flows(b, body, inside)?;
    let tested = full_test(b, v, 0, turn, x.next)?;
    b.patch(again, tested);
    tick(b, turn)
}

// A `for`, whose test and step may be left out.
#[cycle(flow)]
fn for_loop(
    b: &mut Builder,
    start: &ForStart,
    test: &Option<Box<Value>>,
    step: &Option<Box<Value>>,
    body: &Statement,
    x: Exits,
) -> Result<u32, AllocError>
    requires { HasExits b.old x }
    ensures code { GivesFlow b.old b.new result (λ types. e.For (for_start_of types start.now) (maybe_of types test.now) (maybe_of types step.now) (statement_of types body.now)) x }
    ensures enters { Enters b.old b.new result }
{
    let inside = start_ends(b, start, x)?;
    let head = turns(b, given(test), given(step), body, inside)?;
    let first = start_opens(b, start, head)?;
    tick(b, first)
}

/// The code of the items of a block, C11 6.8.2.
#[cycle(flow)]
pub fn items(b: &mut Builder, its: &[Item], x: Exits) -> Result<u32, AllocError>
    requires { HasExits b.old x }
    ensures code { GivesWithin b.old b.new result (items_cost its.now) (ItemsStand its.now x) }
    ensures enters { OpensIf (λ here. AreKnownItems here (items_in here.types its.now)) b.old b.new x.next result }
{
    let exits = ends_along(b, its, x)?;
    let mut from = exits[its.len()].next;
    'items: for at in (0..its.len()).rev() {
        let x = exits_at(b, exits.as_slice(), at);
        from = item(b, &its[at], x, from)?;
    }
    Ok(from)
}

// An item, and where the items behind it begin.
#[cycle(flow)]
fn item(b: &mut Builder, it: &Item, x: Exits, to: u32) -> Result<u32, AllocError>
    requires exits { HasExits b.old x }
    requires behind { HasPoint b.old to }
    ensures code { GivesWithin b.old b.new result (item_cost it.now) (ItemStands it.now x to) }
    ensures enters { ItemOpens it.now b.old b.new to result }
{
    match it {
        Item::Local(local) => opening(b, local, to),
        Item::Statement(s) => flows(b, s, Exits { next: to, ..x }),
        Item::Label(m) => mark(b, m, to),
    }
}

// A `switch`, C11 6.8.4.2.
#[cycle(flow)]
fn switch(b: &mut Builder, v: &Value, its: &[Case], x: Exits) -> Result<u32, AllocError>
    requires { HasExits b.old x }
    ensures code { GivesFlow b.old b.new result (λ types. e.Switch (value_of types v.now) (cases_in types its.now)) x }
    ensures enters { Enters b.old b.new result }
{
    let inside = Exits {
        breaks: x.next,
        ..x
    };
    let all = cases(b, its, inside)?;
    let chosen = choice(b, all.arms, all.default.unwrap_or(x.next))?;
    let value = full_value(b, Fate::Wanted, v, 0, chosen)?;
    tick(b, value)
}

/// The code of the statements of a `switch`.
#[cycle(flow)]
pub fn cases(b: &mut Builder, its: &[Case], x: Exits) -> Result<Entered, AllocError>
    requires { HasExits b.old x }
    ensures { GivesCases b.old b.new result its.now x }
{
    let mut all = Entered {
        from: x.next,
        arms: Vec::new(b.alloc),
        default: None,
    };
    'cases: for at in (0..its.len()).rev() {
        case(b, &its[at], x, &mut all)?;
    }
    all.arms.reverse();
    Ok(all)
}

// A statement of a `switch`, in front of those that are entered.
#[cycle(flow)]
fn case(b: &mut Builder, it: &Case, x: Exits, all: &mut Entered) -> Result<(), AllocError>
    requires exits { HasExits b.old x }
    requires behind { HasPoint b.old all.old.from }
    ensures { OnOk result (PutsCase b.old b.new all.old all.new it.now x) }
{
    let inside = Exits {
        next: all.from,
        ..x
    };
    all.from = flows(b, &it.statement, inside)?;
    put_labels(all, it.labels.as_slice())
}
