// Code of assignments, `++` and `--`, C11 6.5.2.4, 6.5.3.1 and 6.5.16.

ghost use Rattle.std.specs.Prelude.{◌≡◌, List};
ghost use Rattle.lt_tree.specs.Typing.Types.{CType};
ghost use Rattle.lt_tree.specs.Typing.TypeRows.{type_in};
ghost use Rattle.lt_tree.specs.Typing.ValueView.{value_of, place_of, when_of};
ghost use Rattle.lt_tree.specs.Typing.TypedTree as e;
ghost use Rattle.lt_code.specs.Code as code;
ghost use Rattle.lt_emit.specs.Emission.{HasPoint};
ghost use Rattle.lt_emit.specs.Stands.{GivesPlain};
ghost use Rattle.lt_emit.specs.Operators.{updated_by, stepped_by};

use crate::builder::Builder;
use crate::changes::Change;
use crate::expression::{place, value};
use crate::fate::Fate;
use crate::pieces::room;
use lt_ir::Parts;
use lt_model::Content;
use lt_tree::typed::{Place, TypeId, Value, When};
use std::alloc::AllocError;

/// A simple assignment.
#[cycle(expression)]
pub fn assign(
    b: &mut Builder,
    ty: TypeId,
    target: &Place,
    v: &Value,
    register: u32,
    to: u32,
) -> Result<u32, AllocError>
    requires { HasPoint b.old to }
    ensures { GivesPlain b.old b.new result (λ types. e.Assign (type_in types ty) (place_of types target.now) (value_of types v.now)) register to }
{
    room(register)?;
    let stored = b.assignment(ty, v, register, to)?;
    let right = value(b, Fate::Unconverted, v, register + 1, stored)?;
    place(b, target, register, right)
}

/// A compound assignment.
#[cycle(expression)]
pub fn update(
    b: &mut Builder,
    change: Change,
    ty: TypeId,
    target: &Place,
    v: &Value,
    register: u32,
    to: u32,
) -> Result<u32, AllocError>
    requires { HasPoint b.old to }
    ensures { GivesPlain b.old b.new result (λ types. updated_by change (type_in types ty) (place_of types target.now) (value_of types v.now)) register to }
{
    room(register)?;
    let changed = b.changed(change, ty, register, register + 3, to)?;
    let joined = b.clash(
        Parts::Unsequenced {
            left: register,
            right: register + 2,
        },
        changed,
    )?;
    let right = value(b, Fate::Wanted, v, register + 2, joined)?;
    let read = b.load(register + 1, register, ty, right)?;
    place(b, target, register, read)
}

// The register of the value that they give: the old or the new one.
fn kept_in(when: When, old: u32, new: u32) -> u32
    ensures { result ≡ code.kept_in (when_of when) old new }
{
    match when {
        When::Before => old,
        When::After => new,
    }
}

/// `++` and `--`.
#[cycle(expression)]
pub fn step(
    b: &mut Builder,
    change: Change,
    ty: TypeId,
    when: When,
    target: &Place,
    register: u32,
    to: u32,
) -> Result<u32, AllocError>
    requires { HasPoint b.old to }
    ensures { GivesPlain b.old b.new result (λ types. stepped_by change (type_in types ty) (when_of when) (place_of types target.now)) register to }
{
    room(register)?;
    let gives = kept_in(when, register + 1, register + 3);
    let changed = b.changed(change, ty, register, gives, to)?;
    let one = b.constant(register + 2, Content::Number(1), changed)?;
    let read = b.load(register + 1, register, ty, one)?;
    place(b, target, register, read)
}
