// Postfix expressions, C11 6.5.2.

ghost use Rattle.std.specs.Prelude.{◌≡◌, ◌++◌, ◌∷◌, [], OnOk};
ghost use Rattle.lt_tree.specs.declared.terminal.Terminal.TheVariants as t;
ghost use Rattle.lt_tree.specs.Pieces.{text_of};
ghost use Rattle.lt_tree.specs.Grammar as g;
ghost use Rattle.lt_tree.specs.Canon as spec;
ghost use Rattle.lt_tree.specs.View.{expression_of};
ghost use Rattle.lt_tree.specs.Records.{expressions_in};
ghost use Rattle.lt_print.specs.Heads.{begins_with_digit};

use crate::expression::put_operand;
use crate::level::Level;
use crate::operation::put_list;
use crate::text::{put_gap_if, put_name, put_sign};
use lt_model::Name;
use lt_tree::{Expr, Terminal};
use std::alloc::AllocError;

/// '[' expr ']'
#[cycle(printer)]
#[tactic(auto, unfolding(lt_tree::specs::Pieces::text_of), using(crate::proofs::Texts::texts))]
pub fn put_index(out: &mut Vec<u8>, line: usize, place: &Expr) -> Result<(), AllocError>
    ensures { OnOk result (out.new.items ≡ out.old.items ++ text_of (spec.sign t.OpenIndex ∷ spec.operand line g.comma (expression_of place.now) ++ spec.sign t.CloseIndex ∷ [])) }
{
    put_sign(out, Terminal::OpenIndex)?;
    put_operand(out, line, Level::Comma, place)?;
    put_sign(out, Terminal::CloseIndex)
}

/// '(' assign,* ')'
#[cycle(printer)]
#[tactic(auto, unfolding(lt_tree::specs::Pieces::text_of), using(crate::proofs::Texts::texts))]
pub fn put_arguments(out: &mut Vec<u8>, line: usize, arguments: &[Expr]) -> Result<(), AllocError>
    ensures { OnOk result (out.new.items ≡ out.old.items ++ text_of (spec.in_parentheses (spec.list line g.assignment (expressions_in arguments.now)))) }
{
    put_sign(out, Terminal::OpenParen)?;
    put_list(out, line, Level::Assignment, arguments)?;
    put_sign(out, Terminal::CloseParen)
}

/// postfix '.' NAME, with a space behind an integer constant
#[cycle(printer)]
#[tactic(auto, unfolding(lt_tree::specs::Pieces::text_of), using(crate::proofs::Texts::texts))]
pub fn put_member(
    out: &mut Vec<u8>,
    line: usize,
    whole: &Expr,
    name: &Name,
) -> Result<(), AllocError>
    ensures { OnOk result (out.new.items ≡ out.old.items ++ text_of (spec.operand line g.postfix (expression_of whole.now) ++ spec.gap_if (spec.is_integer (expression_of whole.now)) ++ spec.sign t.Dot ∷ spec.name name.now ∷ [])) }
{
    put_operand(out, line, Level::Postfix, whole)?;
    put_gap_if(out, is_integer(whole))?;
    put_sign(out, Terminal::Dot)?;
    put_name(out, name)
}

/// postfix '->' NAME
#[cycle(printer)]
#[tactic(auto, unfolding(lt_tree::specs::Pieces::text_of), using(crate::proofs::Texts::texts))]
pub fn put_arrow(
    out: &mut Vec<u8>,
    line: usize,
    pointer: &Expr,
    name: &Name,
) -> Result<(), AllocError>
    ensures { OnOk result (out.new.items ≡ out.old.items ++ text_of (spec.operand line g.postfix (expression_of pointer.now) ++ spec.sign t.Arrow ∷ spec.name name.now ∷ [])) }
{
    put_operand(out, line, Level::Postfix, pointer)?;
    put_sign(out, Terminal::Arrow)?;
    put_name(out, name)
}

/// postfix '++' | postfix '--'
#[cycle(printer)]
#[tactic(auto, unfolding(lt_tree::specs::Pieces::text_of), using(crate::proofs::Texts::texts))]
pub fn put_step_behind(
    out: &mut Vec<u8>,
    line: usize,
    target: &Expr,
    sign: Terminal,
) -> Result<(), AllocError>
    ensures { OnOk result (out.new.items ≡ out.old.items ++ text_of (spec.operand line g.postfix (expression_of target.now) ++ spec.sign sign ∷ [])) }
{
    put_operand(out, line, Level::Postfix, target)?;
    put_sign(out, sign)
}

/// An integer constant, and no character constant.
fn is_integer(e: &Expr) -> bool
    ensures { result ≡ spec.is_integer (expression_of e.now) }
{
    match e {
        Expr::Constant(text) => begins_with_digit(text.as_slice()),
        Expr::Name(_)
        | Expr::Text(_)
        | Expr::Index(..)
        | Expr::Call(..)
        | Expr::Member(..)
        | Expr::Arrow(..)
        | Expr::PostInc(_)
        | Expr::PostDec(_) => false,
        Expr::PreInc(_)
        | Expr::PreDec(_)
        | Expr::Unary(..)
        | Expr::SizeofExpr(_)
        | Expr::SizeofType(_)
        | Expr::Cast(..)
        | Expr::Binary(..) => false,
        Expr::Logical(..)
        | Expr::Conditional(..)
        | Expr::Assign(..)
        | Expr::Comma(_)
        | Expr::Marked(..)
        | Expr::Decide(..)
        | Expr::After(..) => false,
    }
}

fn begins_with_digit(text: &[u8]) -> bool
    ensures { result ≡ begins_with_digit text.now }
{
    match text.split_first() {
        Some((first, _)) => b'0' <= *first && *first <= b'9',
        None => false,
    }
}
