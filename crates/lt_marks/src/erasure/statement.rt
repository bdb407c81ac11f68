// Statements without their marks.

ghost use Rattle.std.specs.Prelude.{◌≡◌, IfOk, map, option_map};
ghost use Rattle.lt_tree.specs.Tree as t;
ghost use Rattle.lt_tree.specs.View.{expression_of};
ghost use Rattle.lt_tree.specs.UnitView.{
  declaration_of,
  start_of,
  label_of,
  statement_of,
  item_before,
  items_in,
  cases_in,
};
ghost use Rattle.lt_tree.specs.Erasure.{
  erased,
  erased_declaration,
  erased_start,
  erased_label,
  erased_statement,
  erased_items,
  erased_cases,
};

use crate::erasure::declaration::plain_declaration;
use crate::erasure::expression::expression;
use lt_tree::makes::statement as makes;
use lt_tree::{Declaration, Expr, ForStart, Item, Label, Stmt, SwitchCase};
use std::alloc::{AllocError, Global};

fn given_expression(alloc: Global, e: &Option<Expr>) -> Result<Option<Expr>, AllocError>
    ensures { IfOk result (λ all. option_map expression_of all ≡ option_map erased (option_map expression_of e.now)) }
{
    match e {
        None => Ok(None),
        Some(e) => Ok(Some(expression(alloc, e)?)),
    }
}

fn plain_start(alloc: Global, start: &ForStart) -> Result<ForStart, AllocError>
    ensures { IfOk result (λ all. start_of all ≡ erased_start (start_of start.now)) }
{
    match start {
        ForStart::Nothing => Ok(ForStart::Nothing),
        ForStart::Expression(e) => Ok(ForStart::Expression(expression(alloc, e)?)),
        ForStart::Declaration(declaration) => {
            Ok(ForStart::Declaration(plain_declaration(alloc, declaration)?))
        }
    }
}

fn plain_label(alloc: Global, label: &Label) -> Result<Label, AllocError>
    ensures { IfOk result (λ all. label_of all ≡ erased_label (label_of label.now)) }
{
    match label {
        Label::Case(value) => Ok(Label::Case(expression(alloc, value)?)),
        Label::Default => Ok(Label::Default),
    }
}

fn plain_labels(alloc: Global, list: &[Label]) -> Result<Vec<Label>, AllocError>
    ensures { IfOk result (λ all. map label_of all.items ≡ map erased_label (map label_of list.now)) }
{
    let mut all = Vec::new(alloc);
    'list: for label in list {
        all.push(plain_label(alloc, label)?)?;
    }
    Ok(all)
}

fn declared_item(alloc: Global, declaration: &Declaration) -> Result<Item, AllocError>
    ensures { IfOk result (λ all. (rest : t.Items) → item_before all rest ≡ t.a_declaration (erased_declaration (declaration_of declaration.now)) rest) }
{
    Ok(makes::declared(plain_declaration(alloc, declaration)?))
}

fn if_alone(alloc: Global, test: &Expr, body: Box<Stmt>) -> Result<Stmt, AllocError>
    ensures { IfOk result (λ all. statement_of all ≡ t.If (erased (expression_of test.now)) (statement_of body.value)) }
{
    Ok(makes::if_alone(expression(alloc, test)?, body))
}

fn if_else(
    alloc: Global,
    test: &Expr,
    body: Box<Stmt>,
    other: Box<Stmt>,
) -> Result<Stmt, AllocError>
    ensures { IfOk result (λ all. statement_of all ≡ t.IfElse (erased (expression_of test.now)) (statement_of body.value) (statement_of other.value)) }
{
    Ok(makes::if_else(expression(alloc, test)?, body, other))
}

fn while_loop(alloc: Global, test: &Expr, body: Box<Stmt>) -> Result<Stmt, AllocError>
    ensures { IfOk result (λ all. statement_of all ≡ t.While (erased (expression_of test.now)) (statement_of body.value)) }
{
    Ok(makes::while_loop(expression(alloc, test)?, body))
}

fn do_loop(alloc: Global, body: Box<Stmt>, test: &Expr) -> Result<Stmt, AllocError>
    ensures { IfOk result (λ all. statement_of all ≡ t.Do (statement_of body.value) (erased (expression_of test.now))) }
{
    Ok(makes::do_loop(body, expression(alloc, test)?))
}

/// A `for` of what stands in its parentheses, and its body. In parts, since each part that waits for
/// another makes the proof longer.
fn for_loop(
    alloc: Global,
    start: &ForStart,
    test: &Option<Expr>,
    step: &Option<Expr>,
    body: Box<Stmt>,
) -> Result<Stmt, AllocError>
    ensures { IfOk result (λ all. statement_of all ≡ t.For (erased_start (start_of start.now)) (option_map erased (option_map expression_of test.now)) (option_map erased (option_map expression_of step.now)) (statement_of body.value)) }
{
    let test = given_expression(alloc, test)?;
    for_step(alloc, start, step, body, test)
}

fn for_step(
    alloc: Global,
    start: &ForStart,
    step: &Option<Expr>,
    body: Box<Stmt>,
    test: Option<Expr>,
) -> Result<Stmt, AllocError>
    ensures { IfOk result (λ all. statement_of all ≡ t.For (erased_start (start_of start.now)) (option_map expression_of test) (option_map erased (option_map expression_of step.now)) (statement_of body.value)) }
{
    let step = given_expression(alloc, step)?;
    for_start(alloc, start, body, test, step)
}

fn for_start(
    alloc: Global,
    start: &ForStart,
    body: Box<Stmt>,
    test: Option<Expr>,
    step: Option<Expr>,
) -> Result<Stmt, AllocError>
    ensures { IfOk result (λ all. statement_of all ≡ t.For (erased_start (start_of start.now)) (option_map expression_of test) (option_map expression_of step) (statement_of body.value)) }
{
    Ok(makes::for_loop(plain_start(alloc, start)?, test, step, body))
}

fn switch(alloc: Global, operand: &Expr, cases: Vec<SwitchCase>) -> Result<Stmt, AllocError>
    ensures { IfOk result (λ all. statement_of all ≡ t.Switch (erased (expression_of operand.now)) (cases_in cases.items)) }
{
    Ok(makes::switch(expression(alloc, operand)?, cases))
}

#[cycle(statement_erasure)]
fn plain_statement(alloc: Global, statement: &Stmt) -> Result<Stmt, AllocError>
    ensures { IfOk result (λ all. statement_of all ≡ erased_statement (statement_of statement.now)) }
{
    match statement {
        Stmt::Compound(items) => Ok(makes::compound(plain_items(alloc, items.as_slice())?)),
        Stmt::Expression(e) => Ok(makes::expression(expression(alloc, e)?)),
        Stmt::Null => Ok(makes::null()),
        Stmt::If(test, body, other) => {
            let body = plain_body(alloc, body)?;
            match other {
                None => if_alone(alloc, test, body),
                Some(other) => {
                    let other = plain_body(alloc, other)?;
                    if_else(alloc, test, body, other)
                }
            }
        }
        Stmt::While(test, body) => while_loop(alloc, test, plain_body(alloc, body)?),
        Stmt::Do(body, test) => do_loop(alloc, plain_body(alloc, body)?, test),
        Stmt::For(start, test, step, body) => {
            let body = plain_body(alloc, body)?;
            for_loop(alloc, start, test, step, body)
        }
        Stmt::Switch(operand, cases) => {
            let cases = plain_cases(alloc, cases.as_slice())?;
            switch(alloc, operand, cases)
        }
        Stmt::Break => Ok(makes::break_out()),
        Stmt::Continue => Ok(makes::continue_on()),
        Stmt::Return(value) => Ok(makes::return_from(given_expression(alloc, value)?)),
    }
}

#[cycle(statement_erasure)]
fn plain_body(alloc: Global, statement: &Stmt) -> Result<Box<Stmt>, AllocError>
    ensures { IfOk result (λ all. statement_of all.value ≡ erased_statement (statement_of statement.now)) }
{
    makes::boxed(alloc, plain_statement(alloc, statement)?)
}

/// Items without their marks.
#[cycle(statement_erasure)]
pub fn plain_items(alloc: Global, list: &[Item]) -> Result<Vec<Item>, AllocError>
    ensures { IfOk result (λ all. items_in all.items ≡ erased_items (items_in list.now)) }
{
    let mut all = Vec::new(alloc);
    'list: for item in list {
        match item {
            Item::Declaration(declaration) => all.push(declared_item(alloc, declaration)?)?,
            Item::Statement(statement) => all.push(performed_item(alloc, statement)?)?,
            Item::Mark(_) => {}
        }
    }
    Ok(all)
}

#[cycle(statement_erasure)]
fn performed_item(alloc: Global, statement: &Stmt) -> Result<Item, AllocError>
    ensures { IfOk result (λ all. (rest : t.Items) → item_before all rest ≡ t.a_statement (erased_statement (statement_of statement.now)) rest) }
{
    Ok(makes::performed(plain_statement(alloc, statement)?))
}

#[cycle(statement_erasure)]
fn plain_cases(alloc: Global, list: &[SwitchCase]) -> Result<Vec<SwitchCase>, AllocError>
    ensures { IfOk result (λ all. cases_in all.items ≡ erased_cases (cases_in list.now)) }
{
    let mut all = Vec::new(alloc);
    'list: for case in list {
        all.push(plain_case(alloc, case)?)?;
    }
    Ok(all)
}

#[cycle(statement_erasure)]
fn plain_case(alloc: Global, case: &SwitchCase) -> Result<SwitchCase, AllocError>
    ensures labels { IfOk result (λ all. map label_of all.labels.items ≡ map erased_label (map label_of case.now.labels.items)) }
    ensures statement { IfOk result (λ all. statement_of all.statement ≡ erased_statement (statement_of case.now.statement)) }
{
    let labels = plain_labels(alloc, case.labels.as_slice())?;
    Ok(SwitchCase {
        labels,
        statement: plain_statement(alloc, &case.statement)?,
    })
}
