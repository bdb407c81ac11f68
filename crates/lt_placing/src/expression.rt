// Expressions with their marks.

ghost use Rattle.std.specs.Prelude.{◌≡◌, ℕ, IfOk};
ghost use Rattle.lt_tree.specs.Tree as t;
ghost use Rattle.lt_tree.specs.View.{expression_of};
ghost use Rattle.lt_tree.specs.Records.{expressions_in, maybe_in};
ghost use Rattle.lt_tree.specs.Nodes.{in_expressions, in_maybe};
ghost use Rattle.lt_objectives.specs.Marked.{within_all};
ghost use Rattle.lt_placing.specs.Walks.{
  Gives,
  Copies,
  GivesExpression,
  GivesWithin,
  CopiesExpression,
};

use crate::label::marks;
use crate::place::marks_at_next;
use crate::specifier::{boxed_type_name, copy};
use crate::walk::Walk;
use lt_model::Name;
use lt_tree::Expr;
use lt_tree::makes::expression as makes;
use std::alloc::{AllocError, Global};

/// An expression with its marks.
#[cycle(expressions)]
pub fn expression(alloc: Global, walk: &mut Walk, e: &Expr) -> Result<Expr, AllocError>
    ensures { GivesExpression walk.old walk.new result (λ made. made) (expression_of e.now) }
{
    let here = marks_at_next(alloc, walk)?;
    here.with_expression(alloc, within(alloc, walk, e)?)
}

/// The same in a box.
#[cycle(expressions)]
pub fn boxed(alloc: Global, walk: &mut Walk, e: &Expr) -> Result<Box<Expr>, AllocError>
    ensures { GivesExpression walk.old walk.new result (λ made. made.value) (expression_of e.now) }
{
    Ok(Box::new(alloc, expression(alloc, walk, e)?)?)
}

#[cycle(expressions)]
pub fn expressions(alloc: Global, walk: &mut Walk, list: &[Expr]) -> Result<Vec<Expr>, AllocError>
    ensures { Gives walk.old walk.new result (λ made. expressions_in made.items) (λ new k. within_all new k (expressions_in list.now)) (in_expressions (expressions_in list.now)) }
{
    let mut all = Vec::new(alloc);
    'list: for e in list {
        all.push(expression(alloc, walk, e)?)?;
    }
    Ok(all)
}

/// An expression as it is, in a box: no mark is placed in it.
#[cycle(expressions)]
pub fn copied(alloc: Global, walk: &mut Walk, e: &Expr) -> Result<Box<Expr>, AllocError>
    ensures { CopiesExpression walk.old walk.new result (λ made. made.value) (expression_of e.now) }
{
    let mut copying = walk.without_marks(alloc);
    let copy = boxed(alloc, &mut copying, e)?;
    walk.next = copying.next;
    Ok(copy)
}

/// An expression that may be left out, as it is.
#[cycle(expressions)]
pub fn maybe(
    alloc: Global,
    walk: &mut Walk,
    e: &Option<Box<Expr>>,
) -> Result<Option<Box<Expr>>, AllocError>
    ensures { Copies walk.old walk.new result maybe_in (maybe_in e.now) (in_maybe (maybe_in e.now)) }
{
    match e {
        None => Ok(None),
        Some(e) => Ok(Some(copied(alloc, walk, e)?)),
    }
}

/// An expression with the marks of its parts. New labels stand behind the marks in front of it.
#[cycle(expressions)]
fn within(alloc: Global, walk: &mut Walk, e: &Expr) -> Result<Expr, AllocError>
    ensures { GivesWithin walk.old walk.new result (expression_of e.now) }
{
    match e {
        Expr::Name(word) => Ok(Expr::Name(copy(alloc, word)?)),
        Expr::Constant(text) => Ok(Expr::Constant(copy(alloc, text)?)),
        Expr::Text(bytes) => Ok(Expr::Text(copy(alloc, bytes)?)),
        Expr::Index(whole, place) => {
            let whole = boxed(alloc, walk, whole)?;
            Ok(Expr::Index(whole, boxed(alloc, walk, place)?))
        }
        Expr::Call(callee, arguments) => {
            let callee = boxed(alloc, walk, callee)?;
            Ok(Expr::Call(callee, expressions(alloc, walk, arguments.as_slice())?))
        }
        Expr::Member(whole, name) => {
            let whole = boxed(alloc, walk, whole)?;
            Ok(Expr::Member(whole, copy(alloc, name)?))
        }
        Expr::Arrow(pointer, name) => {
            let pointer = boxed(alloc, walk, pointer)?;
            Ok(Expr::Arrow(pointer, copy(alloc, name)?))
        }
        Expr::PostInc(target) => Ok(Expr::PostInc(boxed(alloc, walk, target)?)),
        Expr::PostDec(target) => Ok(Expr::PostDec(boxed(alloc, walk, target)?)),
        Expr::PreInc(target) => Ok(Expr::PreInc(boxed(alloc, walk, target)?)),
        Expr::PreDec(target) => Ok(Expr::PreDec(boxed(alloc, walk, target)?)),
        Expr::Unary(op, operand) => Ok(Expr::Unary(*op, boxed(alloc, walk, operand)?)),
        Expr::SizeofExpr(operand) => Ok(Expr::SizeofExpr(copied(alloc, walk, operand)?)),
        Expr::SizeofType(name) => Ok(Expr::SizeofType(boxed_type_name(alloc, walk, name)?)),
        Expr::Cast(name, operand) => {
            let name = boxed_type_name(alloc, walk, name)?;
            Ok(Expr::Cast(name, boxed(alloc, walk, operand)?))
        }
        Expr::Binary(op, left, right) => {
            let left = boxed(alloc, walk, left)?;
            Ok(Expr::Binary(*op, left, boxed(alloc, walk, right)?))
        }
        Expr::Logical(op, left, right) => {
            let left = boxed(alloc, walk, left)?;
            Ok(Expr::Logical(*op, left, boxed(alloc, walk, right)?))
        }
        Expr::Conditional(test, left, right) => {
            let test = boxed(alloc, walk, test)?;
            let left = boxed(alloc, walk, left)?;
            Ok(Expr::Conditional(test, left, boxed(alloc, walk, right)?))
        }
        Expr::Assign(op, target, value) => {
            let target = boxed(alloc, walk, target)?;
            Ok(Expr::Assign(*op, target, boxed(alloc, walk, value)?))
        }
        Expr::Comma(parts) => {
            let parts = expressions(alloc, walk, parts.as_slice())?;
            Ok(makes::comma(parts))
        }
        Expr::Marked(list, value) => {
            let marks = marks(alloc, walk, list.as_slice())?;
            let here = marks_at_next(alloc, walk)?;
            here.behind_marks(alloc, marks, within(alloc, walk, value)?)
        }
        Expr::Decide(operand, when_true, when_false, tag) => {
            let operand = boxed(alloc, walk, operand)?;
            decide(alloc, operand, when_true, when_false, tag)
        }
        Expr::After(operand, id, tag) => {
            let operand = boxed(alloc, walk, operand)?;
            let id = copy(alloc, id)?;
            Ok(Expr::After(operand, id, copy(alloc, tag)?))
        }
    }
}

/// A `pc_decide` around this operand, with these names once more.
fn decide(
    alloc: Global,
    operand: Box<Expr>,
    when_true: &Name,
    when_false: &Name,
    tag: &Name,
) -> Result<Expr, AllocError>
    ensures { IfOk result (λ made. expression_of made ≡ t.Decide (expression_of operand.value) when_true.now when_false.now tag.now) }
{
    let when_true = copy(alloc, when_true)?;
    let when_false = copy(alloc, when_false)?;
    Ok(Expr::Decide(operand, when_true, when_false, copy(alloc, tag)?))
}
