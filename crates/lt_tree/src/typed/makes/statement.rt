// Typed statements, items and marks made of their parts.

ghost use Rattle.std.specs.Prelude.{◌≡◌, IfOk, List};
ghost use Rattle.lt_tree.specs.Typing.Types.{CType};
ghost use Rattle.lt_tree.specs.Typing.TypedTree as e;
ghost use Rattle.lt_tree.specs.Typing.ValueView.{value_of, mark_of, bindings_in};
ghost use Rattle.lt_tree.specs.Typing.StatementView.{local_of, for_start_of, maybe_of, statement_of, item_before, items_in, cases_in};

use crate::typed::statement::{Case, ForStart, Item, Local, Statement};
use crate::typed::tree::{Binding, Mark, Value};
use std::alloc::{AllocError, Global};

/// A mark, with the id of its label and the names that it binds.
pub fn mark(predicate: Box<Value>, id: u32, bound: Vec<Binding>) -> Mark
    ensures { (types : List CType) → mark_of types result ≡ e.mark (value_of types predicate.value) id (bindings_in types bound.items) }
{
    Mark {
        predicate,
        id,
        bound,
    }
}

/// A block.
pub fn compound(items: Vec<Item>) -> Statement
    ensures { (types : List CType) → statement_of types result ≡ e.Compound (items_in types items.items) }
{
    Statement::Compound(items)
}

/// An expression as a statement.
pub fn evaluates(value: Box<Value>) -> Statement
    ensures { (types : List CType) → statement_of types result ≡ e.Evaluates (value_of types value.value) }
{
    Statement::Evaluates(value)
}

/// A lone `;`.
pub fn null() -> Statement
    ensures { (types : List CType) → statement_of types result ≡ e.Null }
{
    Statement::Null
}

/// A statement in a box, as those below hold it.
pub fn boxed(alloc: Global, statement: Statement) -> Result<Box<Statement>, AllocError>
    ensures { IfOk result (λ all. all.value ≡ statement) }
{
    Ok(Box::new(alloc, statement)?)
}

/// An `if` without `else`.
pub fn if_alone(test: Box<Value>, body: Box<Statement>) -> Statement
    ensures { (types : List CType) → statement_of types result ≡ e.If (value_of types test.value) (statement_of types body.value) }
{
    Statement::If(test, body)
}

/// An `if` with `else`.
pub fn if_else(test: Box<Value>, body: Box<Statement>, other: Box<Statement>) -> Statement
    ensures { (types : List CType) → statement_of types result ≡ e.IfElse (value_of types test.value) (statement_of types body.value) (statement_of types other.value) }
{
    Statement::IfElse(test, body, other)
}

/// A `while`.
pub fn while_loop(test: Box<Value>, body: Box<Statement>) -> Statement
    ensures { (types : List CType) → statement_of types result ≡ e.While (value_of types test.value) (statement_of types body.value) }
{
    Statement::While(test, body)
}

/// A `do`.
pub fn do_loop(body: Box<Statement>, test: Box<Value>) -> Statement
    ensures { (types : List CType) → statement_of types result ≡ e.Do (statement_of types body.value) (value_of types test.value) }
{
    Statement::Do(body, test)
}

/// A `for`, whose test and step may be left out.
pub fn for_loop(
    start: ForStart,
    test: Option<Box<Value>>,
    step: Option<Box<Value>>,
    body: Box<Statement>,
) -> Statement
    ensures { (types : List CType) → statement_of types result ≡ e.For (for_start_of types start) (maybe_of types test) (maybe_of types step) (statement_of types body.value) }
{
    Statement::For(start, test, step, body)
}

/// A `switch`.
pub fn switch(operand: Box<Value>, cases: Vec<Case>) -> Statement
    ensures { (types : List CType) → statement_of types result ≡ e.Switch (value_of types operand.value) (cases_in types cases.items) }
{
    Statement::Switch(operand, cases)
}

/// `break`.
pub fn break_out() -> Statement
    ensures { (types : List CType) → statement_of types result ≡ e.Break }
{
    Statement::Break
}

/// `continue`.
pub fn continue_on() -> Statement
    ensures { (types : List CType) → statement_of types result ≡ e.Continue }
{
    Statement::Continue
}

/// `return`, with a value or without.
pub fn return_from(value: Option<Box<Value>>) -> Statement
    ensures { (types : List CType) → statement_of types result ≡ e.Return (maybe_of types value) }
{
    Statement::Return(value)
}

/// A local object that a block creates.
pub fn created(local: Local) -> Item
    ensures { (types : List CType) (rest : e.Items) → item_before types result rest ≡ e.a_local (local_of types local) rest }
{
    Item::Local(local)
}

/// A statement in a block.
pub fn performed(statement: Statement) -> Item
    ensures { (types : List CType) (rest : e.Items) → item_before types result rest ≡ e.a_statement (statement_of types statement) rest }
{
    Item::Statement(statement)
}

/// A mark in a block.
pub fn labelled(mark: Mark) -> Item
    ensures { (types : List CType) (rest : e.Items) → item_before types result rest ≡ e.a_label (mark_of types mark) rest }
{
    Item::Label(mark)
}
