// Units with their marks.

ghost use Rattle.std.specs.Prelude.{◌≡◌, ◌≤◌, IfOk, length, map};
ghost use Rattle.std.specs.List.{flat_map};
ghost use Rattle.lt_tree.specs.Tree as t;
ghost use Rattle.lt_tree.specs.Records.{marks_in};
ghost use Rattle.lt_tree.specs.UnitView.{items_in, external_of, unit_of};
ghost use Rattle.lt_tree.specs.Nodes.{in_external};
ghost use Rattle.lt_objectives.specs.Marked.{
  labels_before,
  after_leading,
  external_with_marks,
  externals_with_marks,
  unit_with_marks,
};
ghost use Rattle.lt_placing.specs.NewMarks.{new_marks};
ghost use Rattle.lt_placing.specs.Walks.{Gives};
ghost use Rattle.lt_placing.specs.Parts.{GivesFunction, BeginsWithMarks, function_of, items_before};

use crate::declaration::declaration;
use crate::declarator::declarator;
use crate::new_mark::NewMark;
use crate::place::{PlaceMarks, marks_at_next};
use crate::specifier::specifiers;
use crate::statement::items;
use crate::walk::Walk;
use lt_tree::makes::statement as makes;
use lt_tree::{External, FunctionDefinition, Item, Mark, Unit};
use std::alloc::{AllocError, Global};
use std::collections::VecDeque;

/// How many marks a body begins with.
fn leading_len(list: &[Item]) -> usize
    ensures within { result ≤ length list.now }
    ensures leading { BeginsWithMarks list.now result }
{
    let mut len = 0;
    'items: for item in list {
        match item {
            Item::Mark(_) => len += 1,
            Item::Declaration(_) => return len,
            Item::Statement(_) => return len,
        }
    }
    len
}

fn label_items(alloc: Global, labels: Vec<Mark>) -> Result<Vec<Item>, AllocError>
    ensures { IfOk result (λ made. (rest : t.Items) → items_before made.items rest ≡ labels_before (marks_in labels.items) rest) }
{
    let mut left = VecDeque::from_vec(labels);
    let mut all = Vec::new(alloc);
    'labels: while let Some(label) = left.pop_front() {
        all.push(makes::labelled(label))?;
    }
    Ok(all)
}

/// A body with labels behind the marks with which it begins.
fn behind_leading(
    alloc: Global,
    labels: Vec<Mark>,
    body: Vec<Item>,
) -> Result<Vec<Item>, AllocError>
    ensures { IfOk result (λ made. items_in made.items ≡ after_leading (marks_in labels.items) (items_in body.items)) }
{
    if labels.is_empty() {
        return Ok(body);
    }
    let mut all = body;
    let len = leading_len(all.as_slice());
    let mut rest = all.split_off(len)?;
    let mut items = label_items(alloc, labels)?;
    all.append(&mut items)?;
    all.append(&mut rest)?;
    Ok(all)
}

fn function(
    alloc: Global,
    walk: &mut Walk,
    f: &FunctionDefinition,
) -> Result<FunctionDefinition, AllocError>
    ensures { GivesFunction walk.old walk.new result (function_of f.now) }
{
    let PlaceMarks { starts, .. } = marks_at_next(alloc, walk)?;
    let specifiers = specifiers(alloc, walk, &f.specifiers)?;
    let declarator = declarator(alloc, walk, &f.declarator)?;
    let body = items(alloc, walk, f.body.as_slice())?;
    let body = behind_leading(alloc, starts, body)?;
    Ok(FunctionDefinition {
        specifiers,
        declarator,
        body,
    })
}

fn external(alloc: Global, walk: &mut Walk, external: &External) -> Result<External, AllocError>
    ensures { Gives walk.old walk.new result external_of (λ new k. external_with_marks new k (external_of external.now)) (in_external (external_of external.now)) }
{
    match external {
        External::Function(f) => Ok(External::Function(function(alloc, walk, f)?)),
        External::Declaration(d) => {
            walk.step();
            Ok(External::Declaration(declaration(alloc, walk, d)?))
        }
    }
}

fn externals(alloc: Global, walk: &mut Walk, list: &[External]) -> Result<Vec<External>, AllocError>
    ensures { Gives walk.old walk.new result (λ made. map external_of made.items) (λ new k. externals_with_marks new k (map external_of list.now)) (flat_map in_external (map external_of list.now)) }
{
    let mut all = Vec::new(alloc);
    'list: for each in list {
        all.push(external(alloc, walk, each)?)?;
    }
    Ok(all)
}

/// A unit with these marks, which may be given in any order; those of one place keep theirs. It fails only for want of memory.
pub fn with_marks(alloc: Global, unit: &Unit, marks: Vec<NewMark>) -> Result<Unit, AllocError>
    ensures { IfOk result (λ made. unit_of made ≡ unit_with_marks (new_marks marks.items) (unit_of unit.now)) }
{
    let mut walk = Walk::new(marks)?;
    let externals = externals(alloc, &mut walk, unit.externals.as_slice())?;
    Ok(Unit { externals })
}
