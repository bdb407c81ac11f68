// Initialisers, statements and items made of their parts.

ghost use Rattle.std.specs.Prelude.{◌≡◌, IfOk, option_map};
ghost use Rattle.lt_tree.specs.Tree as t;
ghost use Rattle.lt_tree.specs.View.{expression_of, mark_of};
ghost use Rattle.lt_tree.specs.UnitView.{
  initialiser_of,
  initialisers_in,
  declaration_of,
  start_of,
  statement_of,
  item_before,
  items_in,
  cases_in,
};

use crate::declaration::{Declaration, Initialiser};
use crate::expression::Expr;
use crate::mark::Mark;
use crate::statement::{ForStart, Item, Stmt, SwitchCase};
use std::alloc::{AllocError, Global};

/// An initialiser that is an expression.
pub fn value(e: Expr) -> Initialiser
    ensures { initialiser_of result ≡ t.Value (expression_of e) }
{
    Initialiser::Expression(e)
}

/// Initialisers in braces.
pub fn braces(parts: Vec<Initialiser>) -> Initialiser
    ensures { initialiser_of result ≡ t.Braces (initialisers_in parts.items) }
{
    Initialiser::List(parts)
}

/// A block.
pub fn compound(items: Vec<Item>) -> Stmt
    ensures { statement_of result ≡ t.Compound (items_in items.items) }
{
    Stmt::Compound(items)
}

/// An expression as a statement.
pub fn expression(e: Expr) -> Stmt
    ensures { statement_of result ≡ t.Evaluates (expression_of e) }
{
    Stmt::Expression(e)
}

/// A lone `;`.
pub fn null() -> Stmt
    ensures { statement_of result ≡ t.Null }
{
    Stmt::Null
}

/// A statement in a box, as those below hold it.
pub fn boxed(alloc: Global, statement: Stmt) -> Result<Box<Stmt>, AllocError>
    ensures { IfOk result (λ all. all.value ≡ statement) }
{
    Ok(Box::new(alloc, statement)?)
}

/// An `if` without `else`.
pub fn if_alone(test: Expr, body: Box<Stmt>) -> Stmt
    ensures { statement_of result ≡ t.If (expression_of test) (statement_of body.value) }
{
    Stmt::If(test, body, None)
}

/// An `if` with `else`.
pub fn if_else(test: Expr, body: Box<Stmt>, other: Box<Stmt>) -> Stmt
    ensures { statement_of result ≡ t.IfElse (expression_of test) (statement_of body.value) (statement_of other.value) }
{
    Stmt::If(test, body, Some(other))
}

/// A `while`.
pub fn while_loop(test: Expr, body: Box<Stmt>) -> Stmt
    ensures { statement_of result ≡ t.While (expression_of test) (statement_of body.value) }
{
    Stmt::While(test, body)
}

/// A `do`.
pub fn do_loop(body: Box<Stmt>, test: Expr) -> Stmt
    ensures { statement_of result ≡ t.Do (statement_of body.value) (expression_of test) }
{
    Stmt::Do(body, test)
}

/// A `for`, whose test and step may be left out.
pub fn for_loop(start: ForStart, test: Option<Expr>, step: Option<Expr>, body: Box<Stmt>) -> Stmt
    ensures { statement_of result ≡ t.For (start_of start) (option_map expression_of test) (option_map expression_of step) (statement_of body.value) }
{
    Stmt::For(start, test, step, body)
}

/// A `switch`.
pub fn switch(operand: Expr, cases: Vec<SwitchCase>) -> Stmt
    ensures { statement_of result ≡ t.Switch (expression_of operand) (cases_in cases.items) }
{
    Stmt::Switch(operand, cases)
}

/// `break`.
pub fn break_out() -> Stmt
    ensures { statement_of result ≡ t.Break }
{
    Stmt::Break
}

/// `continue`.
pub fn continue_on() -> Stmt
    ensures { statement_of result ≡ t.Continue }
{
    Stmt::Continue
}

/// `return`, with a value or without.
pub fn return_from(value: Option<Expr>) -> Stmt
    ensures { statement_of result ≡ t.Return (option_map expression_of value) }
{
    Stmt::Return(value)
}

/// A declaration in a block.
pub fn declared(declaration: Declaration) -> Item
    ensures { (rest : t.Items) → item_before result rest ≡ t.a_declaration (declaration_of declaration) rest }
{
    Item::Declaration(declaration)
}

/// A statement in a block.
pub fn performed(statement: Stmt) -> Item
    ensures { (rest : t.Items) → item_before result rest ≡ t.a_statement (statement_of statement) rest }
{
    Item::Statement(statement)
}

/// A mark in a block.
pub fn labelled(mark: Mark) -> Item
    ensures { (rest : t.Items) → item_before result rest ≡ t.a_label (mark_of mark) rest }
{
    Item::Mark(mark)
}
