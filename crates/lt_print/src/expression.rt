// Expressions, C11 6.5. `line` is the level of indentation of the line that they stand in.

ghost use Rattle.std.specs.Prelude.{◌≡◌, suc, ◌++◌, ◌∷◌, [], OnOk};
ghost use Rattle.lt_tree.specs.Pieces.{text_of, gap};
ghost use Rattle.lt_tree.specs.Grammar as g;
ghost use Rattle.lt_tree.specs.Canon as spec;
ghost use Rattle.lt_tree.specs.View.{expression_of};
ghost use Rattle.lt_print.specs.Levels.{level_meant, IsLevel};

use crate::level::{Level, level_of, tightness, tightness_of_logical};
use crate::literal::put_literal;
use crate::mark::{put_after, put_decide, put_marks};
use crate::operation::{put_between, put_list, put_right, put_value};
use crate::operator::{sign_of_assignment, sign_of_binary, sign_of_logical, sign_of_unary};
use crate::postfix::{put_arguments, put_arrow, put_index, put_member, put_step_behind};
use crate::prefix::{put_prefixed, put_sizeof, put_sizeof_type, put_step, put_type_name};
use crate::text::{put_constant, put_name, put_sign};
use lt_tree::{Expr, Terminal};
use std::alloc::AllocError;

/// An expression where a level is asked: in parentheses exactly where its own is lower.
#[cycle(printer)]
pub fn put_operand(out: &mut Vec<u8>, line: usize, asked: Level, e: &Expr) -> Result<(), AllocError>
    requires { IsLevel asked }
    ensures { OnOk result (out.new.items ≡ out.old.items ++ text_of (spec.operand line (level_meant asked) (expression_of e.now))) }
{
    if level_of(e).is_below(asked) {
        put_sign(out, Terminal::OpenParen)?;
        put_expression(out, line, e)?;
        put_sign(out, Terminal::CloseParen)
    } else {
        put_expression(out, line, e)
    }
}

/// An expression without parentheses around it.
#[cycle(printer)]
#[tactic(auto, unfolding(lt_tree::specs::Canon::operand), using(crate::proofs::Texts::texts, crate::proofs::Places::not_below))]
pub fn put_expression(out: &mut Vec<u8>, line: usize, e: &Expr) -> Result<(), AllocError>
    ensures { OnOk result (out.new.items ≡ out.old.items ++ text_of (spec.expression line (expression_of e.now))) }
{
    match e {
        Expr::Name(name) => put_name(out, name),
        Expr::Constant(text) => put_constant(out, text),
        Expr::Text(bytes) => put_literal(out, bytes),
        Expr::Index(whole, place) => {
            put_operand(out, line, Level::Postfix, whole)?;
            put_index(out, line, place)
        }
        Expr::Call(callee, arguments) => {
            put_operand(out, line, Level::Postfix, callee)?;
            put_arguments(out, line, arguments)
        }
        Expr::Member(whole, name) => put_member(out, line, whole, name),
        Expr::Arrow(pointer, name) => put_arrow(out, line, pointer, name),
        Expr::PostInc(target) => put_step_behind(out, line, target, Terminal::Increment),
        Expr::PostDec(target) => put_step_behind(out, line, target, Terminal::Decrement),
        Expr::PreInc(target) => put_step(out, line, Terminal::Increment, target),
        Expr::PreDec(target) => put_step(out, line, Terminal::Decrement, target),
        Expr::Unary(op, operand) => put_prefixed(out, line, sign_of_unary(*op), operand),
        Expr::SizeofExpr(operand) => put_sizeof(out, line, operand),
        Expr::SizeofType(name) => put_sizeof_type(out, line, name),
        Expr::Cast(name, operand) => {
            put_type_name(out, line, name)?;
            put_operand(out, line, Level::Cast, operand)
        }
        Expr::Binary(op, left, right) => {
            put_operand(out, line, Level::Binary(tightness(*op)), left)?;
            put_right(out, line, tightness(*op), sign_of_binary(*op), right)
        }
        Expr::Logical(op, left, right) => {
            put_operand(out, line, Level::Binary(tightness_of_logical(*op)), left)?;
            put_right(
                out,
                line,
                tightness_of_logical(*op),
                sign_of_logical(*op),
                right,
            )
        }
        Expr::Conditional(test, left, right) => {
            put_operand(out, line, Level::Binary(0), test)?;
            put_between(out, line, left)?;
            put_operand(out, line, Level::Conditional, right)
        }
        Expr::Assign(op, target, value) => {
            put_operand(out, line, Level::Unary, target)?;
            put_value(out, line, sign_of_assignment(*op), value)
        }
        Expr::Comma(parts) => put_list(out, line, Level::Marked, parts),
        Expr::Marked(marks, value) => {
            put_marks(out, line, marks)?;
            put_operand(out, line, Level::Assignment, value)
        }
        Expr::Decide(operand, when_true, when_false, tag) => put_decide(
            out, line, operand, when_true, when_false, tag,
        ),
        Expr::After(operand, id, tag) => put_after(out, line, operand, id, tag),
    }
}
