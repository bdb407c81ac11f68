// Expressions made of their parts, with what stands behind the last part.

ghost use Rattle.std.specs.Prelude.{◌≡◌, ◌∷◌, ◌++◌, [], Some, IfOk};
ghost use Rattle.lt_tree.specs.View.{expression_of};
ghost use Rattle.lt_tree.specs.Records.{expressions_in, marks_in};
ghost use Rattle.lt_tree.specs.Operators.{operation};
ghost use Rattle.lt_tree.specs.Tree as t;
ghost use Rattle.lt_expr.specs.Boxes.{boxed, boxed_type};
ghost use Rattle.lt_expr.specs.Labels.{labelled_of};
ghost use Rattle.lt_expr.specs.Infixes.{infix_shown};
ghost use Rattle.lt_expr.specs.Ends as ends;
ghost use Rattle.lt_expr.specs.Front.{behind, ended};
ghost use Rattle.lt_expr.specs.Front as front;
ghost use Rattle.lt_expr.specs.Fronts.{front_of};
ghost use Rattle.lt_expr.specs.Parsing.{rest_of, scope_of, Gives};

use crate::label::Labelled;
use crate::operators::Infix;
use crate::parser::Parser;
use crate::pieces;
use lt_model::Op;
use lt_tree::{Expr, Mark, Stop, Terminal, TypeName, UnaryOp};
use std::alloc::{AllocError, Global};

// One more expression at the end of a list.
pub(crate) fn put(list: &mut Vec<Expr>, e: Box<Expr>) -> Result<(), AllocError>
    ensures { IfOk result (λ _. list.new.items ≡ list.old.items ++ e.value ∷ []) }
{
    list.push(Box::into_inner(e))?;
    Ok(())
}

// ---- suffixes, which end with what they stand behind

// ']'
pub(crate) fn index(
    parser: &mut Parser,
    whole: Box<Expr>,
    index: Box<Expr>,
) -> Result<Box<Expr>, Stop>
    ensures { Gives boxed parser.old parser.new result (ends.index_end (boxed whole) (boxed index) (rest_of parser.old)) }
{
    parser.expect(Terminal::CloseIndex)?;
    Ok(Box::new(parser.alloc, Expr::Index(whole, index))?)
}

// ')'
pub(crate) fn call(
    parser: &mut Parser,
    callee: Box<Expr>,
    arguments: Vec<Expr>,
) -> Result<Box<Expr>, Stop>
    ensures { Gives boxed parser.old parser.new result (ends.call_end (boxed callee) (expressions_in arguments.items) (rest_of parser.old)) }
{
    parser.expect(Terminal::CloseParen)?;
    Ok(Box::new(parser.alloc, pieces::call(callee, arguments))?)
}

// '.' NAME
pub(crate) fn member(parser: &mut Parser, whole: Box<Expr>) -> Result<Box<Expr>, Stop>
    ensures { Gives boxed parser.old parser.new result (ends.member_end (boxed whole) (rest_of parser.old)) }
{
    parser.advance();
    let name = parser.name()?;
    Ok(Box::new(parser.alloc, Expr::Member(whole, name))?)
}

// '->' NAME
pub(crate) fn arrow(parser: &mut Parser, pointer: Box<Expr>) -> Result<Box<Expr>, Stop>
    ensures { Gives boxed parser.old parser.new result (ends.arrow_end (boxed pointer) (rest_of parser.old)) }
{
    parser.advance();
    let name = parser.name()?;
    Ok(Box::new(parser.alloc, Expr::Arrow(pointer, name))?)
}

// '++'
pub(crate) fn post_increment(parser: &mut Parser, target: Box<Expr>) -> Result<Box<Expr>, Stop>
    ensures { Gives boxed parser.old parser.new result (Some (t.PostInc (boxed target), behind (rest_of parser.old))) }
{
    parser.advance();
    Ok(Box::new(parser.alloc, Expr::PostInc(target))?)
}

// '--'
pub(crate) fn post_decrement(parser: &mut Parser, target: Box<Expr>) -> Result<Box<Expr>, Stop>
    ensures { Gives boxed parser.old parser.new result (Some (t.PostDec (boxed target), behind (rest_of parser.old))) }
{
    parser.advance();
    Ok(Box::new(parser.alloc, Expr::PostDec(target))?)
}

// ---- nodes that begin at a byte, and end here

pub(crate) fn pre_increment(
    parser: &mut Parser,
    start: u32,
    target: Box<Expr>,
) -> Result<Box<Expr>, Stop>
    ensures { Gives boxed parser.old parser.new result (Some (t.PreInc (boxed target), ended start (rest_of parser.old))) }
{
    parser.end(start)?;
    Ok(Box::new(parser.alloc, Expr::PreInc(target))?)
}

pub(crate) fn pre_decrement(
    parser: &mut Parser,
    start: u32,
    target: Box<Expr>,
) -> Result<Box<Expr>, Stop>
    ensures { Gives boxed parser.old parser.new result (Some (t.PreDec (boxed target), ended start (rest_of parser.old))) }
{
    parser.end(start)?;
    Ok(Box::new(parser.alloc, Expr::PreDec(target))?)
}

pub(crate) fn unary(
    parser: &mut Parser,
    start: u32,
    op: UnaryOp,
    operand: Box<Expr>,
) -> Result<Box<Expr>, Stop>
    ensures { Gives boxed parser.old parser.new result (Some (t.Unary op (boxed operand), ended start (rest_of parser.old))) }
{
    parser.end(start)?;
    Ok(Box::new(parser.alloc, Expr::Unary(op, operand))?)
}

// ')'
pub(crate) fn size_of_type(
    parser: &mut Parser,
    start: u32,
    name: Box<TypeName>,
) -> Result<Box<Expr>, Stop>
    ensures { Gives boxed parser.old parser.new result (ends.size_end start (boxed_type name).0 (boxed_type name).1 (rest_of parser.old)) }
{
    parser.expect(Terminal::CloseParen)?;
    parser.end(start)?;
    Ok(Box::new(parser.alloc, pieces::size_of_type(name))?)
}

pub(crate) fn size_of_expression(
    parser: &mut Parser,
    start: u32,
    operand: Box<Expr>,
) -> Result<Box<Expr>, Stop>
    ensures { Gives boxed parser.old parser.new result (Some (t.SizeofExpr (boxed operand), ended start (rest_of parser.old))) }
{
    parser.end(start)?;
    Ok(Box::new(parser.alloc, Expr::SizeofExpr(operand))?)
}

pub(crate) fn cast(
    parser: &mut Parser,
    start: u32,
    name: Box<TypeName>,
    operand: Box<Expr>,
) -> Result<Box<Expr>, Stop>
    ensures { Gives boxed parser.old parser.new result (Some (t.Cast (boxed_type name).0 (boxed_type name).1 (boxed operand), ended start (rest_of parser.old))) }
{
    parser.end(start)?;
    Ok(Box::new(parser.alloc, pieces::cast(name, operand))?)
}

// An operator between two operands.
pub(crate) fn operates(
    parser: &mut Parser,
    start: u32,
    op: Infix,
    left: Box<Expr>,
    right: Box<Expr>,
) -> Result<Box<Expr>, Stop>
    ensures { Gives boxed parser.old parser.new result (Some (operation (infix_shown op) (boxed left) (boxed right), ended start (rest_of parser.old))) }
{
    parser.end(start)?;
    match op {
        Infix::Arithmetic(op) => Ok(Box::new(parser.alloc, Expr::Binary(op, left, right))?),
        Infix::Connective(op) => Ok(Box::new(parser.alloc, Expr::Logical(op, left, right))?),
    }
}

pub(crate) fn conditional(
    parser: &mut Parser,
    start: u32,
    test: Box<Expr>,
    left: Box<Expr>,
    right: Box<Expr>,
) -> Result<Box<Expr>, Stop>
    ensures { Gives boxed parser.old parser.new result (Some (t.Conditional (boxed test) (boxed left) (boxed right), ended start (rest_of parser.old))) }
{
    parser.end(start)?;
    Ok(Box::new(parser.alloc, Expr::Conditional(test, left, right))?)
}

pub(crate) fn assign(
    parser: &mut Parser,
    start: u32,
    op: Option<Op>,
    target: Box<Expr>,
    value: Box<Expr>,
) -> Result<Box<Expr>, Stop>
    ensures { Gives boxed parser.old parser.new result (Some (t.Assign op (boxed target) (boxed value), ended start (rest_of parser.old))) }
{
    parser.end(start)?;
    Ok(Box::new(parser.alloc, Expr::Assign(op, target, value))?)
}

pub(crate) fn comma(parser: &mut Parser, start: u32, parts: Vec<Expr>) -> Result<Box<Expr>, Stop>
    ensures { Gives boxed parser.old parser.new result (Some (t.Comma (expressions_in parts.items), ended start (rest_of parser.old))) }
{
    parser.end(start)?;
    Ok(Box::new(parser.alloc, pieces::comma(parts))?)
}

// An expression behind marks.
pub(crate) fn marked(
    parser: &mut Parser,
    start: u32,
    marks: Vec<Mark>,
    value: Box<Expr>,
) -> Result<Box<Expr>, Stop>
    ensures { Gives boxed parser.old parser.new result (Some (t.Marked (marks_in marks.items) (boxed value), ended start (rest_of parser.old))) }
{
    parser.end(start)?;
    Ok(Box::new(parser.alloc, pieces::marked(marks, value))?)
}

// ',' CONSTANT ',' CONSTANT ',' STRING ')'
pub(crate) fn decide(parser: &mut Parser, start: u32, operand: Box<Expr>) -> Result<Box<Expr>, Stop>
    ensures { Gives boxed parser.old parser.new result (ends.decide_end start (boxed operand) (rest_of parser.old)) }
{
    let when_true = parser.id()?;
    let when_false = parser.id()?;
    let tag = parser.tag()?;
    parser.expect(Terminal::CloseParen)?;
    parser.end(start)?;
    Ok(Box::new(
        parser.alloc,
        Expr::Decide(operand, when_true, when_false, tag),
    )?)
}

// ')'
pub(crate) fn after(parser: &mut Parser, start: u32, label: Labelled) -> Result<Box<Expr>, Stop>
    ensures { Gives boxed parser.old parser.new result (ends.after_end start (labelled_of label) (rest_of parser.old)) }
{
    parser.expect(Terminal::CloseParen)?;
    parser.end(start)?;
    Ok(Box::new(
        parser.alloc,
        Expr::After(label.predicate, label.id, label.tag),
    )?)
}

// Something in parentheses, behind which ')' stands.
pub(crate) fn closed(parser: &mut Parser, inner: Box<Expr>) -> Result<Box<Expr>, Stop>
    ensures { Gives boxed parser.old parser.new result (ends.closed (boxed inner) (rest_of parser.old)) }
{
    parser.expect(Terminal::CloseParen)?;
    Ok(inner)
}

// NAME | CONSTANT | STRING+
pub(crate) fn leaf(parser: &mut Parser) -> Result<Box<Expr>, Stop>
    ensures { Gives boxed parser.old parser.new result (front.leaf (scope_of parser.old) (rest_of parser.old)) }
{
    let leaf = parser.leaf()?;
    Ok(Box::new(parser.alloc, leaf)?)
}

// The parts of a comma expression, or the expression alone.
pub(crate) fn parts_of(alloc: Global, first: Box<Expr>) -> Result<Vec<Expr>, AllocError>
    ensures { IfOk result (λ parts. expressions_in parts.items ≡ front_of (boxed first)) }
{
    match Box::into_inner(first) {
        Expr::Comma(parts) => Ok(parts),
        other => {
            let mut parts = Vec::new(alloc);
            parts.push(other)?;
            Ok(parts)
        }
    }
}
