// The items of a block, C11 6.8.2.

ghost use Rattle.std.specs.Prelude.{◌≡◌, ◌∷◌, ◌++◌, [], List, IfOk, OnOk};
ghost use Rattle.lt_tree.specs.Typing.Types.{CType};
ghost use Rattle.lt_tree.specs.Typing.TypedTree as e;
ghost use Rattle.lt_tree.specs.UnitView as source;
ghost use Rattle.lt_tree.specs.View as tree;
ghost use Rattle.lt_tree.specs.Typing.StatementView as view;
ghost use Rattle.lt_tree.specs.Typing.StatementTyping as typing;
ghost use Rattle.lt_env.specs.Going.{Gives};
ghost use Rattle.lt_unit.specs.UnitViews.{around_of, locals_of};
ghost use Rattle.lt_unit.specs.ItemParts.{created_items, performed_items, labelled_items};

use crate::around::Around;
use crate::declaration::declaration;
use crate::statement::statement;
use lt_tree::typed::makes::statement as makes;
use lt_tree::typed::{Item as TypedItem, Local};
use lt_tree::{Declaration, Item, Mark, Stmt};
use lt_type::{TypeStop, Walker, mark};
use std::alloc::{AllocError, Global};

/// Goes over the items of a block; each is a node beside the statement or the mark that it is.
#[cycle(statements)]
pub fn items(walker: &mut Walker, list: &[Item], around: Around) -> Result<Vec<TypedItem>, TypeStop>
    ensures { Gives (λ types made. view.items_in types made.items) walker.old walker.new result (λ types. typing.items (source.items_in list.now) (around_of types around)) }
{
    let mut all = Vec::new(walker.types.alloc());
    'list: for item in list {
        let made = one(walker, item, around)?;
        append(&mut all, made)?;
    }
    Ok(all)
}

// Items behind others.
fn append(all: &mut Vec<TypedItem>, made: Vec<TypedItem>) -> Result<(), AllocError>
    ensures { OnOk result (all.new.items ≡ all.old.items ++ made.items) }
{
    for item in made {
        all.push(item)?;
    }
    Ok(())
}

// Goes over an item; what it creates or does.
#[cycle(statements)]
fn one(walker: &mut Walker, item: &Item, around: Around) -> Result<Vec<TypedItem>, TypeStop>
    ensures { Gives (λ types made. view.items_in types made.items) walker.old walker.new result (λ types. typing.items (source.items_in (item.now ∷ [])) (around_of types around)) }
{
    match item {
        Item::Declaration(d) => created(walker, d),
        Item::Statement(s) => performed(walker, s, around),
        Item::Mark(m) => labelled(walker, m),
    }
}

// The objects that a declaration creates.
fn created(walker: &mut Walker, d: &Declaration) -> Result<Vec<TypedItem>, TypeStop>
    ensures { Gives (λ types made. view.items_in types made.items) walker.old walker.new result (λ types. created_items (source.declaration_of d.now)) }
{
    let node = walker.enter()?;
    let it = declaration(walker, d)?;
    walker.settle(node, &it.faults)?;
    let all = all_created(walker.types.alloc(), it.locals)?;
    Ok(all)
}

// A statement.
#[cycle(statements)]
fn performed(walker: &mut Walker, s: &Stmt, around: Around) -> Result<Vec<TypedItem>, TypeStop>
    ensures { Gives (λ types made. view.items_in types made.items) walker.old walker.new result (λ types. performed_items (source.statement_of s.now) (around_of types around)) }
{
    let _node = walker.enter()?;
    let made = statement(walker, s, around)?;
    let all = alone(
        walker.types.alloc(),
        makes::performed(Box::into_inner(made)),
    )?;
    Ok(all)
}

// A mark.
fn labelled(walker: &mut Walker, m: &Mark) -> Result<Vec<TypedItem>, TypeStop>
    ensures { Gives (λ types made. view.items_in types made.items) walker.old walker.new result (λ types. labelled_items (tree.mark_of m.now)) }
{
    let _node = walker.enter()?;
    let made = mark(walker, m)?;
    let all = alone(walker.types.alloc(), makes::labelled(Box::into_inner(made)))?;
    Ok(all)
}

// One item.
fn alone(alloc: Global, item: TypedItem) -> Result<Vec<TypedItem>, AllocError>
    ensures { IfOk result (λ all. all.items ≡ item ∷ []) }
{
    let mut all = Vec::new(alloc);
    all.push(item)?;
    Ok(all)
}

// The items that create these objects.
fn all_created(alloc: Global, locals: Vec<Local>) -> Result<Vec<TypedItem>, AllocError>
    ensures { IfOk result (λ all. (types : List CType) → view.items_in types all.items ≡ typing.locals_before (locals_of types locals.items) e.no_items) }
{
    let mut all = Vec::new(alloc);
    for local in locals {
        all.push(makes::created(local))?;
    }
    Ok(all)
}
