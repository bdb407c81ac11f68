// Whether an operand's text begins with a sign, read off its head.

ghost use Rattle.std.specs.Prelude.{◌≡◌};
ghost use Rattle.lt_tree.specs.View.{expression_of};
ghost use Rattle.lt_print.specs.Heads as spec;

use lt_tree::{Expr, UnaryOp};

/// The first byte of the text, where a postfix expression is asked.
fn first_byte(e: &Expr) -> Option<u8>
    ensures { result ≡ spec.first_byte (expression_of e.now) }
{
    match e {
        Expr::Name(text) | Expr::Constant(text) => text.as_slice().first().copied(),
        Expr::Text(_) => Some(b'"'),
        Expr::Index(whole, _) => or_else(first_byte(whole), b'['),
        Expr::Call(callee, _) => or_else(first_byte(callee), b'('),
        Expr::Member(whole, _) => or_else(first_byte(whole), b'.'),
        Expr::Arrow(pointer, _) => or_else(first_byte(pointer), b'-'),
        Expr::PostInc(target) => or_else(first_byte(target), b'+'),
        Expr::PostDec(target) => or_else(first_byte(target), b'-'),
        Expr::Decide(..) | Expr::After(..) => Some(b'p'),
        Expr::PreInc(_)
        | Expr::PreDec(_)
        | Expr::Unary(..)
        | Expr::SizeofExpr(_)
        | Expr::SizeofType(_)
        | Expr::Cast(..) => Some(b'('),
        Expr::Binary(..)
        | Expr::Logical(..)
        | Expr::Conditional(..)
        | Expr::Assign(..)
        | Expr::Comma(_)
        | Expr::Marked(..) => Some(b'('),
    }
}

fn or_else(front: Option<u8>, next: u8) -> Option<u8>
    ensures { result ≡ spec.or_else front next }
{
    match front {
        Some(byte) => Some(byte),
        None => Some(next),
    }
}

fn is_sign(byte: Option<u8>) -> bool
    ensures { result ≡ spec.is_sign byte }
{
    match byte {
        Some(byte) => byte == b'+' || byte == b'-' || byte == b'&',
        None => false,
    }
}

fn is_signed_operator(op: UnaryOp) -> bool
    ensures { result ≡ spec.is_signed_operator op }
{
    match op {
        UnaryOp::AddressOf | UnaryOp::Plus | UnaryOp::Minus => true,
        UnaryOp::Dereference | UnaryOp::Complement | UnaryOp::Not => false,
    }
}

/// Whether the operand of a prefix operator begins with `+`, `-` or `&`.
pub fn is_signed(e: &Expr) -> bool
    ensures { result ≡ spec.is_signed (expression_of e.now) }
{
    match e {
        Expr::PreInc(_) | Expr::PreDec(_) => true,
        Expr::Unary(op, _) => is_signed_operator(*op),
        Expr::SizeofExpr(_) | Expr::SizeofType(_) => false,
        Expr::Name(_)
        | Expr::Constant(_)
        | Expr::Text(_)
        | Expr::Index(..)
        | Expr::Call(..)
        | Expr::Member(..)
        | Expr::Arrow(..) => is_sign(first_byte(e)),
        Expr::PostInc(_)
        | Expr::PostDec(_)
        | Expr::Decide(..)
        | Expr::After(..)
        | Expr::Cast(..)
        | Expr::Binary(..)
        | Expr::Logical(..) => is_sign(first_byte(e)),
        Expr::Conditional(..) | Expr::Assign(..) | Expr::Comma(_) | Expr::Marked(..) => is_sign(
            first_byte(e),
        ),
    }
}
