// Expressions made of their parts.

ghost use Rattle.std.specs.Prelude.{◌≡◌, IfOk};
ghost use Rattle.lt_tree.specs.Tree as t;
ghost use Rattle.lt_tree.specs.View.{expression_of};
ghost use Rattle.lt_tree.specs.Records.{expressions_in, marks_in, specifiers_of, declarator_of};

use crate::expression::{Expr, LogicalOp, UnaryOp};
use crate::mark::Mark;
use crate::specifier::TypeName;
use lt_model::{Name, Op};
use std::alloc::{AllocError, Global};

/// Two expressions, each in a box.
fn boxed(alloc: Global, first: Expr, second: Expr) -> Result<(Box<Expr>, Box<Expr>), AllocError>
    ensures first { IfOk result (λ all. all.0.value ≡ first) }
    ensures second { IfOk result (λ all. all.1.value ≡ second) }
{
    let first = Box::new(alloc, first)?;
    Ok((first, Box::new(alloc, second)?))
}

/// The name of an object, a function or an enumerator.
pub fn name(word: Name) -> Expr
    ensures { expression_of result ≡ t.Name word }
{
    Expr::Name(word)
}

/// An integer or character constant, as written.
pub fn constant(text: Name) -> Expr
    ensures { expression_of result ≡ t.Constant text }
{
    Expr::Constant(text)
}

/// A string literal of these bytes.
pub fn text(bytes: Name) -> Expr
    ensures { expression_of result ≡ t.Text bytes }
{
    Expr::Text(bytes)
}

/// An element.
pub fn index(alloc: Global, whole: Expr, place: Expr) -> Result<Expr, AllocError>
    ensures { IfOk result (λ all. expression_of all ≡ t.Index (expression_of whole) (expression_of place)) }
{
    let (whole, place) = boxed(alloc, whole, place)?;
    Ok(Expr::Index(whole, place))
}

/// A call.
pub fn call(alloc: Global, callee: Expr, arguments: Vec<Expr>) -> Result<Expr, AllocError>
    ensures { IfOk result (λ all. expression_of all ≡ t.Call (expression_of callee) (expressions_in arguments.items)) }
{
    Ok(Expr::Call(Box::new(alloc, callee)?, arguments))
}

/// A member of a struct.
pub fn member(alloc: Global, whole: Expr, name: Name) -> Result<Expr, AllocError>
    ensures { IfOk result (λ all. expression_of all ≡ t.Member (expression_of whole) name) }
{
    Ok(Expr::Member(Box::new(alloc, whole)?, name))
}

/// A member of the struct that is pointed to.
pub fn arrow(alloc: Global, pointer: Expr, name: Name) -> Result<Expr, AllocError>
    ensures { IfOk result (λ all. expression_of all ≡ t.Arrow (expression_of pointer) name) }
{
    Ok(Expr::Arrow(Box::new(alloc, pointer)?, name))
}

/// `e++`.
pub fn post_increment(alloc: Global, target: Expr) -> Result<Expr, AllocError>
    ensures { IfOk result (λ all. expression_of all ≡ t.PostInc (expression_of target)) }
{
    Ok(Expr::PostInc(Box::new(alloc, target)?))
}

/// `e--`.
pub fn post_decrement(alloc: Global, target: Expr) -> Result<Expr, AllocError>
    ensures { IfOk result (λ all. expression_of all ≡ t.PostDec (expression_of target)) }
{
    Ok(Expr::PostDec(Box::new(alloc, target)?))
}

/// `++e`.
pub fn pre_increment(alloc: Global, target: Expr) -> Result<Expr, AllocError>
    ensures { IfOk result (λ all. expression_of all ≡ t.PreInc (expression_of target)) }
{
    Ok(Expr::PreInc(Box::new(alloc, target)?))
}

/// `--e`.
pub fn pre_decrement(alloc: Global, target: Expr) -> Result<Expr, AllocError>
    ensures { IfOk result (λ all. expression_of all ≡ t.PreDec (expression_of target)) }
{
    Ok(Expr::PreDec(Box::new(alloc, target)?))
}

/// An operator before an operand.
pub fn unary(alloc: Global, op: UnaryOp, operand: Expr) -> Result<Expr, AllocError>
    ensures { IfOk result (λ all. expression_of all ≡ t.Unary op (expression_of operand)) }
{
    Ok(Expr::Unary(op, Box::new(alloc, operand)?))
}

/// The size of an expression's type.
pub fn sizeof_expression(alloc: Global, operand: Expr) -> Result<Expr, AllocError>
    ensures { IfOk result (λ all. expression_of all ≡ t.SizeofExpr (expression_of operand)) }
{
    Ok(Expr::SizeofExpr(Box::new(alloc, operand)?))
}

/// The size of a type.
pub fn sizeof_type(alloc: Global, name: TypeName) -> Result<Expr, AllocError>
    ensures { IfOk result (λ all. expression_of all ≡ t.SizeofType (specifiers_of name.specifiers) (declarator_of name.declarator)) }
{
    Ok(Expr::SizeofType(Box::new(alloc, name)?))
}

/// A conversion.
pub fn cast(alloc: Global, name: TypeName, operand: Expr) -> Result<Expr, AllocError>
    ensures { IfOk result (λ all. expression_of all ≡ t.Cast (specifiers_of name.specifiers) (declarator_of name.declarator) (expression_of operand)) }
{
    let name = Box::new(alloc, name)?;
    Ok(Expr::Cast(name, Box::new(alloc, operand)?))
}

/// An operator between two operands.
pub fn binary(alloc: Global, op: Op, left: Expr, right: Expr) -> Result<Expr, AllocError>
    ensures { IfOk result (λ all. expression_of all ≡ t.Binary op (expression_of left) (expression_of right)) }
{
    let (left, right) = boxed(alloc, left, right)?;
    Ok(Expr::Binary(op, left, right))
}

/// `left && right` or `left || right`.
pub fn logical(alloc: Global, op: LogicalOp, left: Expr, right: Expr) -> Result<Expr, AllocError>
    ensures { IfOk result (λ all. expression_of all ≡ t.Logical op (expression_of left) (expression_of right)) }
{
    let (left, right) = boxed(alloc, left, right)?;
    Ok(Expr::Logical(op, left, right))
}

/// `test ? left : right`.
pub fn conditional(alloc: Global, test: Expr, left: Expr, right: Expr) -> Result<Expr, AllocError>
    ensures { IfOk result (λ all. expression_of all ≡ t.Conditional (expression_of test) (expression_of left) (expression_of right)) }
{
    let (test, left) = boxed(alloc, test, left)?;
    Ok(Expr::Conditional(test, left, Box::new(alloc, right)?))
}

/// An assignment, with the operator that it applies first, if there is one.
pub fn assign(alloc: Global, op: Option<Op>, target: Expr, value: Expr) -> Result<Expr, AllocError>
    ensures { IfOk result (λ all. expression_of all ≡ t.Assign op (expression_of target) (expression_of value)) }
{
    let (target, value) = boxed(alloc, target, value)?;
    Ok(Expr::Assign(op, target, value))
}

/// A comma expression of these parts, as they stand.
pub fn comma(parts: Vec<Expr>) -> Expr
    ensures { expression_of result ≡ t.Comma (expressions_in parts.items) }
{
    Expr::Comma(parts)
}

/// An expression behind marks.
pub fn marked(alloc: Global, marks: Vec<Mark>, value: Expr) -> Result<Expr, AllocError>
    ensures { IfOk result (λ all. expression_of all ≡ t.Marked (marks_in marks.items) (expression_of value)) }
{
    Ok(Expr::Marked(marks, Box::new(alloc, value)?))
}

/// `pc_decide`, with its two ids as written and its tag.
pub fn decide(
    alloc: Global,
    operand: Expr,
    when_true: Name,
    when_false: Name,
    tag: Name,
) -> Result<Expr, AllocError>
    ensures { IfOk result (λ all. expression_of all ≡ t.Decide (expression_of operand) when_true when_false tag) }
{
    Ok(Expr::Decide(Box::new(alloc, operand)?, when_true, when_false, tag))
}

/// `pc_after`, with its id as written and its tag.
pub fn after(alloc: Global, operand: Expr, id: Name, tag: Name) -> Result<Expr, AllocError>
    ensures { IfOk result (λ all. expression_of all ≡ t.After (expression_of operand) id tag) }
{
    Ok(Expr::After(Box::new(alloc, operand)?, id, tag))
}
