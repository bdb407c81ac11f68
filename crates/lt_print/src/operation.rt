// Operations with two or more operands, C11 6.5.5 to 6.5.17.

ghost use Rattle.std.specs.Prelude.{◌≡◌, ◌≤◌, suc, ◌++◌, ◌∷◌, [], OnOk};
ghost use Rattle.lt_tree.specs.declared.terminal.Terminal.TheVariants as t;
ghost use Rattle.lt_tree.specs.Pieces.{text_of};
ghost use Rattle.lt_tree.specs.Grammar as g;
ghost use Rattle.lt_tree.specs.Canon as spec;
ghost use Rattle.lt_tree.specs.View.{expression_of};
ghost use Rattle.lt_tree.specs.Records.{expressions_in};
ghost use Rattle.lt_print.specs.Levels.{level_meant, IsLevel};

use crate::expression::put_operand;
use crate::level::Level;
use crate::text::{put_comma_unless, put_spaced};
use lt_tree::{Expr, Terminal};
use std::alloc::AllocError;

/// A binary operator and its right operand, which is tighter.
#[cycle(printer)]
#[tactic(auto, unfolding(lt_tree::specs::Pieces::text_of), using(crate::proofs::Texts::texts, crate::proofs::Places::sums))]
pub fn put_right(
    out: &mut Vec<u8>,
    line: usize,
    tightness: u8,
    sign: Terminal,
    right: &Expr,
) -> Result<(), AllocError>
    requires { tightness ≤ 9 }
    ensures { OnOk result (out.new.items ≡ out.old.items ++ text_of (spec.spaced sign ++ spec.operand line (g.binary (suc tightness)) (expression_of right.now))) }
{
    put_spaced(out, sign)?;
    put_operand(out, line, Level::Binary(tightness + 1), right)
}

/// '?' expr ':'
#[cycle(printer)]
#[tactic(auto, unfolding(lt_tree::specs::Pieces::text_of), using(crate::proofs::Texts::texts))]
pub fn put_between(out: &mut Vec<u8>, line: usize, left: &Expr) -> Result<(), AllocError>
    ensures { OnOk result (out.new.items ≡ out.old.items ++ text_of (spec.spaced t.Question ++ spec.operand line g.comma (expression_of left.now) ++ spec.spaced t.Colon)) }
{
    put_spaced(out, Terminal::Question)?;
    put_operand(out, line, Level::Comma, left)?;
    put_spaced(out, Terminal::Colon)
}

/// ASSIGNOP assign
#[cycle(printer)]
#[tactic(auto, unfolding(lt_tree::specs::Pieces::text_of), using(crate::proofs::Texts::texts))]
pub fn put_value(
    out: &mut Vec<u8>,
    line: usize,
    sign: Terminal,
    value: &Expr,
) -> Result<(), AllocError>
    ensures { OnOk result (out.new.items ≡ out.old.items ++ text_of (spec.spaced sign ++ spec.operand line g.assignment (expression_of value.now))) }
{
    put_spaced(out, sign)?;
    put_operand(out, line, Level::Assignment, value)
}

/// Expressions with commas between.
#[cycle(printer)]
pub fn put_list(
    out: &mut Vec<u8>,
    line: usize,
    asked: Level,
    list: &[Expr],
) -> Result<(), AllocError>
    requires { IsLevel asked }
    ensures { OnOk result (out.new.items ≡ out.old.items ++ text_of (spec.list line (level_meant asked) (expressions_in list.now))) }
{
    for (at, e) in list.iter().enumerate() {
        put_comma_unless(out, at == 0)?;
        put_operand(out, line, asked, e)?;
    }
    Ok(())
}
