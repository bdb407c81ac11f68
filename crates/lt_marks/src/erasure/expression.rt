// Expressions without their marks.

ghost use Rattle.std.specs.Prelude.{◌≡◌, IfOk};
ghost use Rattle.lt_tree.specs.View.{expression_of};
ghost use Rattle.lt_tree.specs.Records.{expressions_in, maybe_in};
ghost use Rattle.lt_tree.specs.Erasure.{erased, erased_expressions, erased_maybe};

use crate::erasure::comma::comma;
use crate::erasure::specifier::{boxed_type_name, copy};
use lt_tree::Expr;
use std::alloc::{AllocError, Global};

/// An expression without marks.
#[cycle(erasure)]
pub fn expression(alloc: Global, e: &Expr) -> Result<Expr, AllocError>
    ensures { IfOk result (λ all. expression_of all ≡ erased (expression_of e.now)) }
{
    match e {
        Expr::Name(word) => Ok(Expr::Name(copy(alloc, word)?)),
        Expr::Constant(text) => Ok(Expr::Constant(copy(alloc, text)?)),
        Expr::Text(bytes) => Ok(Expr::Text(copy(alloc, bytes)?)),
        Expr::Index(whole, place) => {
            let whole = boxed(alloc, whole)?;
            Ok(Expr::Index(whole, boxed(alloc, place)?))
        }
        Expr::Call(callee, arguments) => {
            let callee = boxed(alloc, callee)?;
            Ok(Expr::Call(callee, expressions(alloc, arguments.as_slice())?))
        }
        Expr::Member(whole, name) => {
            let whole = boxed(alloc, whole)?;
            Ok(Expr::Member(whole, copy(alloc, name)?))
        }
        Expr::Arrow(pointer, name) => {
            let pointer = boxed(alloc, pointer)?;
            Ok(Expr::Arrow(pointer, copy(alloc, name)?))
        }
        Expr::PostInc(target) => Ok(Expr::PostInc(boxed(alloc, target)?)),
        Expr::PostDec(target) => Ok(Expr::PostDec(boxed(alloc, target)?)),
        Expr::PreInc(target) => Ok(Expr::PreInc(boxed(alloc, target)?)),
        Expr::PreDec(target) => Ok(Expr::PreDec(boxed(alloc, target)?)),
        Expr::Unary(op, operand) => Ok(Expr::Unary(*op, boxed(alloc, operand)?)),
        Expr::SizeofExpr(operand) => Ok(Expr::SizeofExpr(boxed(alloc, operand)?)),
        Expr::SizeofType(name) => Ok(Expr::SizeofType(boxed_type_name(alloc, name)?)),
        Expr::Cast(name, operand) => {
            let name = boxed_type_name(alloc, name)?;
            Ok(Expr::Cast(name, boxed(alloc, operand)?))
        }
        Expr::Binary(op, left, right) => {
            let left = boxed(alloc, left)?;
            Ok(Expr::Binary(*op, left, boxed(alloc, right)?))
        }
        Expr::Logical(op, left, right) => {
            let left = boxed(alloc, left)?;
            Ok(Expr::Logical(*op, left, boxed(alloc, right)?))
        }
        Expr::Conditional(test, left, right) => {
            let test = boxed(alloc, test)?;
            let left = boxed(alloc, left)?;
            Ok(Expr::Conditional(test, left, boxed(alloc, right)?))
        }
        Expr::Assign(op, target, value) => {
            let target = boxed(alloc, target)?;
            Ok(Expr::Assign(*op, target, boxed(alloc, value)?))
        }
        Expr::Comma(parts) => comma(expressions(alloc, parts.as_slice())?),
        Expr::Marked(_, value) => expression(alloc, value),
        Expr::Decide(operand, _, _, _) => expression(alloc, operand),
        Expr::After(operand, _, _) => expression(alloc, operand),
    }
}

#[cycle(erasure)]
fn expressions(alloc: Global, list: &[Expr]) -> Result<Vec<Expr>, AllocError>
    ensures { IfOk result (λ all. expressions_in all.items ≡ erased_expressions (expressions_in list.now)) }
{
    let mut all = Vec::new(alloc);
    'list: for e in list {
        all.push(expression(alloc, e)?)?;
    }
    Ok(all)
}

#[cycle(erasure)]
fn boxed(alloc: Global, e: &Expr) -> Result<Box<Expr>, AllocError>
    ensures { IfOk result (λ all. expression_of all.value ≡ erased (expression_of e.now)) }
{
    Ok(Box::new(alloc, expression(alloc, e)?)?)
}

/// An expression that may be left out, without marks.
#[cycle(erasure)]
pub fn maybe(alloc: Global, e: &Option<Box<Expr>>) -> Result<Option<Box<Expr>>, AllocError>
    ensures { IfOk result (λ all. maybe_in all ≡ erased_maybe (maybe_in e.now)) }
{
    match e {
        None => Ok(None),
        Some(e) => Ok(Some(boxed(alloc, e)?)),
    }
}
