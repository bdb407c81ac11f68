// Typed statements, made of typed parts.

ghost use Rattle.std.specs.Prelude.{◌≡◌, IfOk, option_map};
ghost use Rattle.lt_tree.specs.Typing.Types as types_of;
ghost use Rattle.lt_tree.specs.Typing.Types.{Num};
ghost use Rattle.lt_tree.specs.Typing.TypeRows.{type_in};
ghost use Rattle.lt_tree.specs.Typing.TypedTree as e;
ghost use Rattle.lt_tree.specs.Typing.ValueView.{value_of};
ghost use Rattle.lt_tree.specs.Typing.StatementView as view;
ghost use Rattle.lt_tree.specs.Typing.Expressions as expressions;
ghost use Rattle.lt_tree.specs.Typing.StatementTyping as typing;
ghost use Rattle.lt_table.specs.TableRows.{Stays};
ghost use Rattle.lt_table.specs.TypesValue.{Widens};
ghost use Rattle.lt_env.specs.Views.{typed_in};
ghost use Rattle.lt_unit.specs.UnitViews.{statement_in};
ghost use Rattle.lt_model.specs.Conversions.{promoted};

use crate::statement::faults::{scalar_of, unqualified};
use lt_model::{Scalar, promote};
use lt_table::Types;
use lt_tree::typed::makes::statement as makes;
use lt_tree::typed::{ForStart, Statement, TypeId, Value};
use lt_type::{Typed, converted_value, value_in};
use std::alloc::AllocError;

/// An expression as a statement.
pub fn evaluates(types: &mut Types, x: Box<Typed>) -> Result<Box<Statement>, AllocError>
    ensures widens { Widens types.old types.new }
    ensures made { IfOk result (λ s. Stays types.new.rows (λ longer. statement_in longer s ≡ e.Evaluates (expressions.value_in (typed_in longer x)))) }
{
    let value = value_in(types, x)?;
    makes::boxed(types.alloc(), makes::evaluates(value))
}

/// An `if` without `else`.
pub fn if_alone(
    types: &mut Types,
    test: Box<Typed>,
    body: Box<Statement>,
) -> Result<Box<Statement>, AllocError>
    ensures widens { Widens types.old types.new }
    ensures made { IfOk result (λ s. Stays types.new.rows (λ longer. statement_in longer s ≡ e.If (expressions.value_in (typed_in longer test)) (statement_in longer body))) }
{
    let test = value_in(types, test)?;
    makes::boxed(types.alloc(), makes::if_alone(test, body))
}

/// An `if` with `else`.
pub fn if_else(
    types: &mut Types,
    test: Box<Typed>,
    body: Box<Statement>,
    other: Box<Statement>,
) -> Result<Box<Statement>, AllocError>
    ensures widens { Widens types.old types.new }
    ensures made { IfOk result (λ s. Stays types.new.rows (λ longer. statement_in longer s ≡ e.IfElse (expressions.value_in (typed_in longer test)) (statement_in longer body) (statement_in longer other))) }
{
    let test = value_in(types, test)?;
    makes::boxed(types.alloc(), makes::if_else(test, body, other))
}

/// A `while`.
pub fn while_loop(
    types: &mut Types,
    test: Box<Typed>,
    body: Box<Statement>,
) -> Result<Box<Statement>, AllocError>
    ensures widens { Widens types.old types.new }
    ensures made { IfOk result (λ s. Stays types.new.rows (λ longer. statement_in longer s ≡ e.While (expressions.value_in (typed_in longer test)) (statement_in longer body))) }
{
    let test = value_in(types, test)?;
    makes::boxed(types.alloc(), makes::while_loop(test, body))
}

/// A `do`.
pub fn do_loop(
    types: &mut Types,
    body: Box<Statement>,
    test: Box<Typed>,
) -> Result<Box<Statement>, AllocError>
    ensures widens { Widens types.old types.new }
    ensures made { IfOk result (λ s. Stays types.new.rows (λ longer. statement_in longer s ≡ e.Do (statement_in longer body) (expressions.value_in (typed_in longer test)))) }
{
    let test = value_in(types, test)?;
    makes::boxed(types.alloc(), makes::do_loop(body, test))
}

// A value, if it isn't left out.
fn optional_value(
    types: &mut Types,
    x: Option<Box<Typed>>,
) -> Result<Option<Box<Value>>, AllocError>
    ensures widens { Widens types.old types.new }
    ensures made { IfOk result (λ v. Stays types.new.rows (λ longer. view.maybe_of longer v ≡ typing.optional_value (option_map (typed_in longer) x))) }
{
    match x {
        None => Ok(None),
        Some(x) => {
            let value = value_in(types, x)?;
            Ok(Some(value))
        }
    }
}

/// A `for`.
pub fn for_loop(
    types: &mut Types,
    start: ForStart,
    test: Option<Box<Typed>>,
    step: Option<Box<Typed>>,
    body: Box<Statement>,
) -> Result<Box<Statement>, AllocError>
    ensures widens { Widens types.old types.new }
    ensures made { IfOk result (λ s. Stays types.new.rows (λ longer. statement_in longer s ≡ e.For (view.for_start_of longer start) (typing.optional_value (option_map (typed_in longer) test)) (typing.optional_value (option_map (typed_in longer) step)) (statement_in longer body))) }
{
    let x = optional_value(types, test)?;
    let y = optional_value(types, step)?;
    let all = makes::boxed(types.alloc(), makes::for_loop(start, x, y, body))?;
    Ok(all)
}

// The value of an expression, converted to this integer type.
fn converted_as(types: &mut Types, s: Scalar, x: Box<Typed>) -> Result<Box<Value>, AllocError>
    ensures widens { Widens types.old types.new }
    ensures made { IfOk result (λ v. Stays types.new.rows (λ longer. value_of longer v.value ≡ expressions.converted_to (Num s) (expressions.value_in (typed_in longer x)))) }
{
    let t = types.num(s)?;
    converted_value(types, t, x)
}

// The same, converted to this integer type promoted.
fn promoted_value(types: &mut Types, s: Scalar, x: Box<Typed>) -> Result<Box<Value>, AllocError>
    ensures widens { Widens types.old types.new }
    ensures made { IfOk result (λ v. Stays types.new.rows (λ longer. value_of longer v.value ≡ expressions.converted_to (Num (promoted types.old.model s)) (expressions.value_in (typed_in longer x)))) }
{
    let s = promote(types.model(), s);
    converted_as(types, s, x)
}

/// The value of the operand of a `switch`, promoted if it is an integer.
pub fn switch_value(types: &mut Types, x: Box<Typed>) -> Result<Box<Value>, AllocError>
    ensures widens { Widens types.old types.new }
    ensures made { IfOk result (λ v. Stays types.new.rows (λ longer. value_of longer v.value ≡ typing.switch_value types.old.model (typed_in longer x))) }
{
    let scalar = scalar_of(types, &x)?;
    match scalar {
        None => value_in(types, x),
        Some(s) => promoted_value(types, s, x),
    }
}

// A value as one of the type of the function that returns it.
fn returned_value(types: &mut Types, t: TypeId, x: Box<Typed>) -> Result<Box<Value>, AllocError>
    ensures widens { Widens types.old types.new }
    ensures made { IfOk result (λ v. Stays types.new.rows (λ longer. value_of longer v.value ≡ expressions.converted_to (types_of.unqualified (type_in longer t)) (expressions.value_in (typed_in longer x)))) }
{
    let bare = unqualified(types, t)?;
    converted_value(types, bare, x)
}

// What is returned, if there is a value.
fn returned(
    types: &mut Types,
    t: TypeId,
    x: Option<Box<Typed>>,
) -> Result<Option<Box<Value>>, AllocError>
    ensures widens { Widens types.old types.new }
    ensures made { IfOk result (λ v. Stays types.new.rows (λ longer. view.maybe_of longer v ≡ typing.returned (type_in longer t) (option_map (typed_in longer) x))) }
{
    match x {
        None => Ok(None),
        Some(x) => {
            let value = returned_value(types, t, x)?;
            Ok(Some(value))
        }
    }
}

/// `return` in a function that gives this type.
pub fn return_from(
    types: &mut Types,
    t: TypeId,
    x: Option<Box<Typed>>,
) -> Result<Box<Statement>, AllocError>
    ensures widens { Widens types.old types.new }
    ensures made { IfOk result (λ s. Stays types.new.rows (λ longer. statement_in longer s ≡ e.Return (typing.returned (type_in longer t) (option_map (typed_in longer) x)))) }
{
    let value = returned(types, t, x)?;
    makes::boxed(types.alloc(), makes::return_from(value))
}
