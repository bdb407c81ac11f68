// Statements with their marks.

ghost use Rattle.std.specs.Prelude.{◌≡◌, ◌++◌, ◌∷◌, ℕ, IfOk, map, option_map};
ghost use Rattle.std.specs.List.{flat_map};
ghost use Rattle.lt_tree.specs.Tree as t;
ghost use Rattle.lt_tree.specs.View.{expression_of};
ghost use Rattle.lt_tree.specs.UnitView.{
  declaration_of,
  start_of,
  label_of,
  statement_of,
  item_before,
  items_in,
  cases_in,
};
ghost use Rattle.lt_tree.specs.Nodes.{
  in_optional,
  in_start,
  in_label,
  in_statement,
  in_items,
  in_cases,
};
ghost use Rattle.lt_objectives.specs.Marked.{
  optional_with_marks,
  for_start_with_marks,
  statement_with_marks,
  items_with_marks,
  cases_with_marks,
};
ghost use Rattle.lt_placing.specs.Walks.{Gives, Copies};
ghost use Rattle.lt_placing.specs.Parts.{GivesStatement, GivesFor, GivesItem, GivesCase};

use crate::declaration::declaration;
use crate::expression::{boxed, copied, expression};
use crate::label::mark;
use crate::walk::Walk;
use lt_tree::makes::statement as makes;
use lt_tree::{Expr, ForStart, Item, Label, Stmt, SwitchCase};
use std::alloc::{AllocError, Global};

fn optional(alloc: Global, walk: &mut Walk, e: &Option<Expr>) -> Result<Option<Expr>, AllocError>
    ensures { Gives walk.old walk.new result (option_map expression_of) (λ new k. optional_with_marks new k (option_map expression_of e.now)) (in_optional (option_map expression_of e.now)) }
{
    match e {
        None => Ok(None),
        Some(e) => Ok(Some(expression(alloc, walk, e)?)),
    }
}

fn for_start(alloc: Global, walk: &mut Walk, start: &ForStart) -> Result<ForStart, AllocError>
    ensures { Gives walk.old walk.new result start_of (λ new k. for_start_with_marks new k (start_of start.now)) (in_start (start_of start.now)) }
{
    match start {
        ForStart::Nothing => Ok(ForStart::Nothing),
        ForStart::Expression(e) => Ok(ForStart::Expression(expression(alloc, walk, e)?)),
        ForStart::Declaration(d) => Ok(ForStart::Declaration(declaration(alloc, walk, d)?)),
    }
}

fn case_label(alloc: Global, walk: &mut Walk, label: &Label) -> Result<Label, AllocError>
    ensures { Copies walk.old walk.new result label_of (label_of label.now) (in_label (label_of label.now)) }
{
    walk.step();
    match label {
        Label::Case(value) => {
            let value = copied(alloc, walk, value)?;
            Ok(Label::Case(Box::into_inner(value)))
        }
        Label::Default => Ok(Label::Default),
    }
}

fn case_labels(alloc: Global, walk: &mut Walk, list: &[Label]) -> Result<Vec<Label>, AllocError>
    ensures { Copies walk.old walk.new result (λ made. map label_of made.items) (map label_of list.now) (flat_map in_label (map label_of list.now)) }
{
    let mut all = Vec::new(alloc);
    'list: for each in list {
        all.push(case_label(alloc, walk, each)?)?;
    }
    Ok(all)
}

#[cycle(statements)]
fn statement(alloc: Global, walk: &mut Walk, statement: &Stmt) -> Result<Stmt, AllocError>
    ensures { GivesStatement walk.old walk.new result (λ made. made) (statement_of statement.now) }
{
    walk.step();
    match statement {
        Stmt::Compound(list) => Ok(makes::compound(items(alloc, walk, list.as_slice())?)),
        Stmt::Expression(e) => Ok(makes::expression(expression(alloc, walk, e)?)),
        Stmt::Null => Ok(makes::null()),
        Stmt::If(test, taken, other) => {
            let test = boxed(alloc, walk, test)?;
            let taken = body(alloc, walk, taken)?;
            match other {
                None => Ok(makes::if_alone(Box::into_inner(test), taken)),
                Some(other) => {
                    let other = body(alloc, walk, other)?;
                    Ok(makes::if_else(Box::into_inner(test), taken, other))
                }
            }
        }
        Stmt::While(test, inner) => {
            let test = boxed(alloc, walk, test)?;
            let inner = body(alloc, walk, inner)?;
            Ok(makes::while_loop(Box::into_inner(test), inner))
        }
        Stmt::Do(inner, test) => {
            let inner = body(alloc, walk, inner)?;
            Ok(makes::do_loop(inner, expression(alloc, walk, test)?))
        }
        Stmt::For(start, test, step, inner) => { for_loop(alloc, walk, start, test, step, inner) }
        Stmt::Switch(operand, list) => {
            let operand = boxed(alloc, walk, operand)?;
            let cases = cases(alloc, walk, list.as_slice())?;
            Ok(makes::switch(Box::into_inner(operand), cases))
        }
        Stmt::Break => Ok(makes::break_out()),
        Stmt::Continue => Ok(makes::continue_on()),
        Stmt::Return(value) => Ok(makes::return_from(optional(alloc, walk, value)?)),
    }
}

#[cycle(statements)]
fn for_loop(
    alloc: Global,
    walk: &mut Walk,
    start: &ForStart,
    test: &Option<Expr>,
    step: &Option<Expr>,
    inner: &Stmt,
) -> Result<Stmt, AllocError>
    ensures { GivesFor walk.old walk.new result (start_of start.now) (option_map expression_of test.now) (option_map expression_of step.now) (statement_of inner.now) }
{
    let start = for_start(alloc, walk, start)?;
    let test = optional(alloc, walk, test)?;
    let step = optional(alloc, walk, step)?;
    let inner = body(alloc, walk, inner)?;
    Ok(makes::for_loop(start, test, step, inner))
}

#[cycle(statements)]
fn body(alloc: Global, walk: &mut Walk, inner: &Stmt) -> Result<Box<Stmt>, AllocError>
    ensures { GivesStatement walk.old walk.new result (λ made. made.value) (statement_of inner.now) }
{
    makes::boxed(alloc, statement(alloc, walk, inner)?)
}

/// Items with their marks.
#[cycle(statements)]
pub fn items(alloc: Global, walk: &mut Walk, list: &[Item]) -> Result<Vec<Item>, AllocError>
    ensures { Gives walk.old walk.new result (λ made. items_in made.items) (λ new k. items_with_marks new k (items_in list.now)) (in_items (items_in list.now)) }
{
    let mut all = Vec::new(alloc);
    'list: for each in list {
        all.push(item(alloc, walk, each)?)?;
    }
    Ok(all)
}

#[cycle(statements)]
fn item(alloc: Global, walk: &mut Walk, item: &Item) -> Result<Item, AllocError>
    ensures { GivesItem walk.old walk.new result item.now }
{
    walk.step();
    match item {
        Item::Declaration(d) => Ok(makes::declared(declaration(alloc, walk, d)?)),
        Item::Statement(inner) => Ok(makes::performed(statement(alloc, walk, inner)?)),
        Item::Mark(label) => Ok(makes::labelled(mark(alloc, walk, label)?)),
    }
}

#[cycle(statements)]
fn cases(alloc: Global, walk: &mut Walk, list: &[SwitchCase]) -> Result<Vec<SwitchCase>, AllocError>
    ensures { Gives walk.old walk.new result (λ made. cases_in made.items) (λ new k. cases_with_marks new k (cases_in list.now)) (in_cases (cases_in list.now)) }
{
    let mut all = Vec::new(alloc);
    'list: for each in list {
        all.push(switch_case(alloc, walk, each)?)?;
    }
    Ok(all)
}

#[cycle(statements)]
fn switch_case(alloc: Global, walk: &mut Walk, case: &SwitchCase) -> Result<SwitchCase, AllocError>
    ensures { GivesCase walk.old walk.new result (map label_of case.now.labels.items) (statement_of case.now.statement) }
{
    let labels = case_labels(alloc, walk, case.labels.as_slice())?;
    Ok(SwitchCase {
        labels,
        statement: statement(alloc, walk, &case.statement)?,
    })
}
