//! Expressions of texts.

use crate::stop::Stop;
use crate::tokens::lexed;
use crate::units::syntax;
use crate::words::Words;
use lt_expr::{ParseStop, Parsed, Typedefs, parse_expr};
use lt_model::Name;
use lt_tree::Expr;
use std::alloc::Global;

// The names of a heading: `+T` is a typedef name, `-T` another name, and `^` takes off the innermost.
fn in_scope(alloc: Global, list: &str) -> Result<Typedefs, Stop> {
    let mut names = Typedefs::new(alloc);
    for word in list.split_whitespace() {
        if word == "^" {
            names.back_to(names.len().saturating_sub(1));
        } else if let Some(name) = word.strip_prefix('+') {
            names.declare(&Name::new(alloc, name.as_bytes())?, true)?;
        } else if let Some(name) = word.strip_prefix('-') {
            names.declare(&Name::new(alloc, name.as_bytes())?, false)?;
        } else {
            return Err(Stop::NoSuchName);
        }
    }
    Ok(names)
}

fn parsed(alloc: Global, text: &[u8], names: &str) -> Result<Parsed, Stop> {
    let names = in_scope(alloc, names)?;
    let tokens = lexed(alloc, text)?;
    match parse_expr(alloc, &tokens, 0, &names) {
        Ok(parsed) => Ok(parsed),
        Err(ParseStop::Syntax(at)) => Err(syntax(&tokens, at)),
        Err(ParseStop::NoMemory) => Err(Stop::NoMemory),
    }
}

fn form(e: &Expr) -> &'static str {
    match e {
        Expr::Name(_) => "Name",
        Expr::Constant(_) => "Constant",
        Expr::Text(_) => "Text",
        Expr::Index(_, _) => "Index",
        Expr::Call(_, _) => "Call",
        Expr::Member(_, _) => "Member",
        Expr::Arrow(_, _) => "Arrow",
        Expr::PostInc(_) => "PostInc",
        Expr::PostDec(_) => "PostDec",
        Expr::PreInc(_) => "PreInc",
        Expr::PreDec(_) => "PreDec",
        Expr::Unary(_, _) => "Unary",
        Expr::SizeofExpr(_) => "SizeofExpr",
        Expr::SizeofType(_) => "SizeofType",
        Expr::Cast(_, _) => "Cast",
        Expr::Binary(_, _, _) => "Binary",
        Expr::Logical(_, _, _) => "Logical",
        Expr::Conditional(_, _, _) => "Conditional",
        Expr::Assign(_, _, _) => "Assign",
        Expr::Comma(_) => "Comma",
        Expr::Marked(_, _) => "Marked",
        Expr::Decide(_, _, _, _) => "Decide",
        Expr::After(_, _, _) => "After",
    }
}

/// The form of an expression, of a string literal its bytes, and how many tokens it has; then the spots of its nodes, or how many
/// these are.
pub fn expression(
    alloc: Global,
    text: &[u8],
    names: &str,
    with_spots: bool,
) -> Result<Vec<u8>, Stop> {
    let parsed = parsed(alloc, text, names)?;
    let mut words = Words::new(alloc);
    match &parsed.tree {
        Expr::Text(bytes) => words.push(&[bytes.as_slice()])?,
        tree => words.push_text(form(tree))?,
    }
    words.push_number(parsed.next as i128)?;
    if with_spots {
        words.push_text("at")?;
        words.push_spots(parsed.spots.as_slice())?;
    } else {
        words.push_number(parsed.spots.len() as i128)?;
    }
    Ok(words.into_bytes())
}
