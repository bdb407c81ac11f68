ghost use Rattle.std.specs.Prelude.{◌≡◌, [], ◌∷◌, IfOk, map, option_map};
ghost use Rattle.lt_tree.specs.Tree as c;
ghost use Rattle.lt_tree.specs.View.{expression_of};
ghost use Rattle.lt_tree.specs.UnitView.{start_of, label_of, statement_of, items_in, cases_in};
ghost use Rattle.lt_expr.specs.Inside.{inside};
ghost use Rattle.lt_decl.specs.ItemView.{item_of};
ghost use Rattle.lt_decl.specs.Walk as walk;

use super::declaration::declaration;
use lt_expr::Walker;
use lt_tree::{Expr, ForStart, Item, Label, Stmt, SwitchCase};
use std::alloc::AllocError;

// An expression that may be left out.
fn optional(walker: &mut Walker, e: &Option<Expr>) -> Result<(), AllocError>
    ensures { IfOk result (λ _. walker.new ≡ walk.walk_optional (option_map expression_of e.now) walker.old) }
{
    match e {
        None => Ok(()),
        Some(e) => walker.expression(e),
    }
}

// What stands before the first `;` of a `for`.
fn for_start(walker: &mut Walker, start: &ForStart) -> Result<(), AllocError>
    ensures { IfOk result (λ _. walker.new ≡ walk.walk_start (start_of start.now) walker.old) }
{
    match start {
        ForStart::Nothing => Ok(()),
        ForStart::Expression(e) => walker.expression(e),
        ForStart::Declaration(given) => declaration(walker, given),
    }
}

// A label.
fn label(walker: &mut Walker, label: &Label) -> Result<(), AllocError>
    ensures { IfOk result (λ _. walker.new ≡ walk.walk_labels (label_of label.now ∷ []) walker.old) }
{
    let begin = walker.enter();
    label_value(walker, label)?;
    walker.leave(begin)
}

// What is inside of a label.
fn label_value(walker: &mut Walker, label: &Label) -> Result<(), AllocError>
    ensures { IfOk result (λ _. walker.new ≡ inside (walk.walk_labels (label_of label.now ∷ [])) walker.old) }
{
    match label {
        Label::Case(value) => walker.expression(value),
        Label::Default => Ok(()),
    }
}

// Labels in a row.
fn labels(walker: &mut Walker, list: &[Label]) -> Result<(), AllocError>
    ensures { IfOk result (λ _. walker.new ≡ walk.walk_labels (map label_of list.now) walker.old) }
{
    'labels: for at in (0..list.len()).rev() {
        label(walker, &list[at])?;
    }
    Ok(())
}

// A statement.
#[cycle(walk)]
fn statement(walker: &mut Walker, x: &Stmt) -> Result<(), AllocError>
    ensures { IfOk result (λ _. walker.new ≡ walk.walk_statement (statement_of x.now) walker.old) }
{
    let begin = walker.enter();
    parts(walker, x)?;
    walker.leave(begin)
}

// What is inside of a statement, the last part first.
#[cycle(walk)]
fn parts(walker: &mut Walker, x: &Stmt) -> Result<(), AllocError>
    ensures { IfOk result (λ _. walker.new ≡ inside (walk.walk_statement (statement_of x.now)) walker.old) }
{
    match x {
        Stmt::Null | Stmt::Break | Stmt::Continue => Ok(()),
        Stmt::Compound(list) => items(walker, list.as_slice()),
        Stmt::Expression(e) => walker.expression(e),
        Stmt::If(test, body, other) => match other {
            None => {
                statement(walker, body)?;
                walker.expression(test)
            }
            Some(other) => {
                statement(walker, other)?;
                statement(walker, body)?;
                walker.expression(test)
            }
        },
        Stmt::While(test, body) => {
            statement(walker, body)?;
            walker.expression(test)
        }
        Stmt::Do(body, test) => {
            walker.expression(test)?;
            statement(walker, body)
        }
        Stmt::For(start, test, step, body) => {
            statement(walker, body)?;
            optional(walker, step)?;
            optional(walker, test)?;
            for_start(walker, start)
        }
        Stmt::Switch(operand, list) => {
            cases(walker, list.as_slice())?;
            walker.expression(operand)
        }
        Stmt::Return(value) => optional(walker, value),
    }
}

// An item of a block.
#[cycle(walk)]
fn item(walker: &mut Walker, item: &Item) -> Result<(), AllocError>
    ensures { IfOk result (λ _. walker.new ≡ walk.walk_item (item_of item.now) walker.old) }
{
    let begin = walker.enter();
    item_parts(walker, item)?;
    walker.leave(begin)
}

// What is inside of an item.
#[cycle(walk)]
fn item_parts(walker: &mut Walker, item: &Item) -> Result<(), AllocError>
    ensures { IfOk result (λ _. walker.new ≡ inside (walk.walk_item (item_of item.now)) walker.old) }
{
    match item {
        Item::Declaration(given) => declaration(walker, given),
        Item::Statement(x) => statement(walker, x),
        Item::Mark(m) => walker.mark(m),
    }
}

/// Walks items in a row.
#[cycle(walk)]
pub(crate) fn items(walker: &mut Walker, list: &[Item]) -> Result<(), AllocError>
    ensures { IfOk result (λ _. walker.new ≡ walk.walk_items (items_in list.now) walker.old) }
{
    'items: for at in (0..list.len()).rev() {
        item(walker, &list[at])?;
    }
    Ok(())
}

// Statements in a row with their labels.
#[cycle(walk)]
fn cases(walker: &mut Walker, list: &[SwitchCase]) -> Result<(), AllocError>
    ensures { IfOk result (λ _. walker.new ≡ walk.walk_cases (cases_in list.now) walker.old) }
{
    'cases: for at in (0..list.len()).rev() {
        case(walker, &list[at])?;
    }
    Ok(())
}

// A statement with its labels.
#[cycle(walk)]
fn case(walker: &mut Walker, case: &SwitchCase) -> Result<(), AllocError>
    ensures { IfOk result (λ _. walker.new ≡ walk.walk_cases (c.a_case (map label_of case.now.labels.items) (statement_of case.now.statement) c.no_cases) walker.old) }
{
    statement(walker, &case.statement)?;
    labels(walker, case.labels.as_slice())
}
