//! The objects that the statements of a function begin.

ghost use Rattle.std.specs.Prelude.{◌≡◌, ◌++◌, List, IfOk, OnOk, map};
ghost use Rattle.lt_tree.specs.Typing.Types.{CType};
ghost use Rattle.lt_tree.specs.Typing.TypedTree as e;
ghost use Rattle.lt_tree.specs.Typing.StatementView.{statement_of, items_in, item_before, cases_in, for_start_of};
ghost use Rattle.lt_meaning.specs.Runs.{locals_of, locals_in, locals_among};
ghost use Rattle.lt_tables.specs.Objects.{begun_in};

use lt_tree::typed::{Case, ForStart, Item, Statement};
use std::alloc::{AllocError, Global};

/// The objects that these items begin, in the order of the text.
pub fn locals_of(alloc: Global, items: &[Item]) -> Result<Vec<u32>, AllocError>
    ensures { IfOk result (λ locals. (types : List CType) → locals.items ≡ locals_of (items_in types items.now)) }
{
    let mut locals = Vec::new(alloc);
    put_items(&mut locals, items)?;
    Ok(locals)
}

// Those of items.
#[cycle(locals)]
fn put_items(locals: &mut Vec<u32>, items: &[Item]) -> Result<(), AllocError>
    ensures { OnOk result ((types : List CType) → locals.new.items ≡ locals.old.items ++ locals_of (items_in types items.now)) }
{
    for item in items {
        put_item(locals, item)?;
    }
    Ok(())
}

// That of an item.
#[cycle(locals)]
fn put_item(locals: &mut Vec<u32>, item: &Item) -> Result<(), AllocError>
    ensures { OnOk result ((types : List CType) → locals.new.items ≡ locals.old.items ++ locals_of (item_before types item.now e.no_items)) }
{
    match item {
        Item::Local(local) => Ok(locals.push(local.object)?),
        Item::Statement(statement) => put_statement(locals, statement),
        Item::Label(_) => Ok(()),
    }
}

// Those of a statement.
#[cycle(locals)]
fn put_statement(locals: &mut Vec<u32>, statement: &Statement) -> Result<(), AllocError>
    ensures { OnOk result ((types : List CType) → locals.new.items ≡ locals.old.items ++ locals_in (statement_of types statement.now)) }
{
    match statement {
        Statement::Compound(items) => put_items(locals, items.as_slice()),
        Statement::If(_, body) | Statement::While(_, body) | Statement::Do(body, _) => {
            put_statement(locals, body)
        }
        Statement::IfElse(_, body, other) => {
            put_statement(locals, body)?;
            put_statement(locals, other)
        }
        Statement::For(start, _, _, body) => {
            put_start(locals, start)?;
            put_statement(locals, body)
        }
        Statement::Switch(_, cases) => put_cases(locals, cases.as_slice()),
        Statement::Evaluates(_)
        | Statement::Null
        | Statement::Break
        | Statement::Continue
        | Statement::Return(_) => Ok(()),
    }
}

// Those of the statements of a `switch`.
#[cycle(locals)]
fn put_cases(locals: &mut Vec<u32>, cases: &[Case]) -> Result<(), AllocError>
    ensures { OnOk result ((types : List CType) → locals.new.items ≡ locals.old.items ++ locals_among (cases_in types cases.now)) }
{
    for case in cases {
        put_statement(locals, &case.statement)?;
    }
    Ok(())
}

// Those of the head of a `for`.
fn put_start(locals: &mut Vec<u32>, start: &ForStart) -> Result<(), AllocError>
    ensures { OnOk result (locals.new.items ≡ locals.old.items ++ begun_in start.now) }
{
    if let ForStart::Locals(list) = start {
        for local in list {
            locals.push(local.object)?;
        }
    }
    Ok(())
}
