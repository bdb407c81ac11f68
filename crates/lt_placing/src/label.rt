// Marks of a unit, as they are.

ghost use Rattle.std.specs.Prelude.{◌≡◌, IfOk};
ghost use Rattle.lt_tree.specs.View.{expression_of, mark_of};
ghost use Rattle.lt_tree.specs.Records.{marks_in, bindings_in};
ghost use Rattle.lt_tree.specs.Nodes.{in_expression, in_marks, in_mark, in_bindings};
ghost use Rattle.lt_placing.specs.Walks.{Copies, Passes};

use crate::expression::copied;
use crate::specifier::copy;
use crate::walk::Walk;
use lt_tree::makes::specifier as makes;
use lt_tree::{Binding, Mark};
use std::alloc::{AllocError, Global};

#[cycle(expressions)]
pub fn marks(alloc: Global, walk: &mut Walk, list: &[Mark]) -> Result<Vec<Mark>, AllocError>
    ensures { Copies walk.old walk.new result (λ made. marks_in made.items) (marks_in list.now) (in_marks (marks_in list.now)) }
{
    let mut all = Vec::new(alloc);
    'list: for each in list {
        all.push(mark(alloc, walk, each)?)?;
    }
    Ok(all)
}

#[cycle(expressions)]
pub fn mark(alloc: Global, walk: &mut Walk, mark: &Mark) -> Result<Mark, AllocError>
    ensures { Copies walk.old walk.new result mark_of (mark_of mark.now) (in_mark (mark_of mark.now)) }
{
    walk.step();
    let predicate = copied(alloc, walk, &mark.predicate)?;
    let bound = bindings(alloc, walk, mark.bound.as_slice())?;
    let id = copy(alloc, &mark.id)?;
    let tag = copy(alloc, &mark.tag)?;
    Ok(makes::mark(Box::into_inner(predicate), id, tag, bound))
}

#[cycle(expressions)]
fn bindings(alloc: Global, walk: &mut Walk, list: &[Binding]) -> Result<Vec<Binding>, AllocError>
    ensures { Copies walk.old walk.new result (λ made. bindings_in made.items) (bindings_in list.now) (in_bindings (bindings_in list.now)) }
{
    let mut all = Vec::new(alloc);
    'list: for each in list {
        all.push(binding(alloc, walk, each)?)?;
    }
    Ok(all)
}

#[cycle(expressions)]
fn binding(alloc: Global, walk: &mut Walk, binding: &Binding) -> Result<Binding, AllocError>
    ensures { IfOk result (λ made. Passes walk.old walk.new (λ new k. (made.name ≡ binding.now.name) × (expression_of made.value ≡ expression_of binding.now.value)) (in_expression (expression_of binding.now.value))) }
{
    let value = copied(alloc, walk, &binding.value)?;
    let name = copy(alloc, &binding.name)?;
    Ok(Binding {
        name,
        value: Box::into_inner(value),
    })
}
