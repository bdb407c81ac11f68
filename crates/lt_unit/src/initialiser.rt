// Initialisers, C11 6.7.9.
mod filling;
mod left;
mod lengths;
mod letters;
mod lists;
mod opening;
mod texts;
mod values;
mod whole;
mod written;

ghost use Rattle.lt_tree.specs.Tree as c;
ghost use Rattle.lt_tree.specs.View.{expression_of};
ghost use Rattle.lt_tree.specs.UnitView as source;
ghost use Rattle.lt_tree.specs.Typing.TypeRows.{type_in};
ghost use Rattle.lt_tree.specs.Typing.Declaring.{length_faults};
ghost use Rattle.lt_tree.specs.Typing.InitialiserTyping as typing;
ghost use Rattle.lt_env.specs.Going.{Gives, done};
ghost use Rattle.lt_unit.specs.UnitViews.{started_of};

use filling::nothing_to_fill;
use lists::initialisers;
use lt_tree::typed::{Rule, Start, TypeId};
use lt_tree::{Expr, Initialiser};
use lt_type::{TypeStop, Use, Walker, expression, only_unless};

/// How an object starts, and its type, whose length the initialiser may have given.
#[derive(Drop)]
pub struct Started {
    pub start: Start,
    pub ty: TypeId,
}

/// Goes over the initialiser of an object of this type, which is there from the start or isn't.
pub fn object_initialiser(
    walker: &mut Walker,
    is_static: bool,
    t: TypeId,
    i: &Initialiser,
) -> Result<Started, TypeStop>
    ensures { Gives started_of walker.old walker.new result (λ types. typing.object_initialiser is_static (type_in types t) length_faults (source.initialiser_of i.now)) }
{
    match i {
        Initialiser::Expression(e) => whole::without_braces(walker, is_static, t, e),
        Initialiser::List(list) => whole::in_braces(walker, is_static, t, list.as_slice()),
    }
}

/// Goes over the initialiser of what is no object.
pub fn of_no_object(walker: &mut Walker, i: &Initialiser) -> Result<(), TypeStop>
    ensures { Gives done walker.old walker.new result (λ types. typing.initialiser_of_none (source.initialiser_of i.now)) }
{
    match i {
        Initialiser::Expression(e) => value_of_no_object(walker, e),
        Initialiser::List(list) => list_of_no_object(walker, list.as_slice()),
    }
}

// An expression.
fn value_of_no_object(walker: &mut Walker, e: &Expr) -> Result<(), TypeStop>
    ensures { Gives done walker.old walker.new result (λ types. typing.initialiser_of_none (c.Value (expression_of e.now))) }
{
    let node = walker.enter()?;
    let _x = expression(walker, e, Use::Value)?;
    let faults = only_unless(walker.types.alloc(), false, Rule::BadInitialiser)?;
    walker.settle(node, &faults)
}

// A list.
fn list_of_no_object(walker: &mut Walker, list: &[Initialiser]) -> Result<(), TypeStop>
    ensures { Gives done walker.old walker.new result (λ types. typing.initialiser_of_none (c.Braces (source.initialisers_in list.now))) }
{
    let node = walker.enter()?;
    let nothing = nothing_to_fill(walker.types.alloc());
    let _filled = initialisers(walker, list, false, nothing)?;
    let faults = only_unless(walker.types.alloc(), false, Rule::BadInitialiser)?;
    walker.settle(node, &faults)
}
