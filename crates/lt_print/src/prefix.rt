// Unary expressions and casts, C11 6.5.3 and 6.5.4.

ghost use Rattle.std.specs.Prelude.{◌≡◌, ◌++◌, ◌∷◌, [], OnOk};
ghost use Rattle.lt_tree.specs.declared.terminal.Terminal.TheVariants as t;
ghost use Rattle.lt_tree.specs.Pieces.{text_of, gap};
ghost use Rattle.lt_tree.specs.Grammar as g;
ghost use Rattle.lt_tree.specs.Canon as spec;
ghost use Rattle.lt_tree.specs.View.{expression_of};
ghost use Rattle.lt_tree.specs.Records.{specifiers_of, declarator_of};

use crate::declarator::put_declared;
use crate::expression::put_operand;
use crate::head::is_signed;
use crate::level::Level;
use crate::specifier::put_specifiers;
use crate::text::{put_gap, put_gap_if, put_sign};
use lt_tree::{Expr, Terminal, TypeName};
use std::alloc::AllocError;

/// `++` or `--` and a unary expression
#[cycle(printer)]
#[tactic(auto, unfolding(lt_tree::specs::Pieces::text_of), using(crate::proofs::Texts::texts))]
pub fn put_step(
    out: &mut Vec<u8>,
    line: usize,
    sign: Terminal,
    target: &Expr,
) -> Result<(), AllocError>
    ensures { OnOk result (out.new.items ≡ out.old.items ++ text_of (spec.prefixed sign (spec.operand line g.unary (expression_of target.now)))) }
{
    put_sign(out, sign)?;
    put_gap_if(out, is_signed(target))?;
    put_operand(out, line, Level::Unary, target)
}

/// PREFIX cast
#[cycle(printer)]
#[tactic(auto, unfolding(lt_tree::specs::Pieces::text_of), using(crate::proofs::Texts::texts))]
pub fn put_prefixed(
    out: &mut Vec<u8>,
    line: usize,
    sign: Terminal,
    operand: &Expr,
) -> Result<(), AllocError>
    ensures { OnOk result (out.new.items ≡ out.old.items ++ text_of (spec.prefixed sign (spec.operand line g.cast (expression_of operand.now)))) }
{
    put_sign(out, sign)?;
    put_gap_if(out, is_signed(operand))?;
    put_operand(out, line, Level::Cast, operand)
}

/// 'sizeof' unary
#[cycle(printer)]
#[tactic(auto, unfolding(lt_tree::specs::Pieces::text_of), using(crate::proofs::Texts::texts))]
pub fn put_sizeof(out: &mut Vec<u8>, line: usize, operand: &Expr) -> Result<(), AllocError>
    ensures { OnOk result (out.new.items ≡ out.old.items ++ text_of (spec.sign t.Sizeof ∷ gap ∷ spec.operand line g.unary (expression_of operand.now))) }
{
    put_sign(out, Terminal::Sizeof)?;
    put_gap(out)?;
    put_operand(out, line, Level::Unary, operand)
}

/// 'sizeof' '(' typename ')'
#[cycle(printer)]
#[tactic(auto, unfolding(lt_tree::specs::Pieces::text_of), using(crate::proofs::Texts::texts))]
pub fn put_sizeof_type(out: &mut Vec<u8>, line: usize, name: &TypeName) -> Result<(), AllocError>
    ensures { OnOk result (out.new.items ≡ out.old.items ++ text_of (spec.sign t.Sizeof ∷ spec.in_parentheses (spec.apart (spec.specifiers line (specifiers_of name.now.specifiers)) (spec.declarator line (declarator_of name.now.declarator))))) }
{
    put_sign(out, Terminal::Sizeof)?;
    put_type_name(out, line, name)
}

/// '(' typename ')'
#[cycle(printer)]
#[tactic(auto, unfolding(lt_tree::specs::Pieces::text_of), using(crate::proofs::Texts::texts))]
pub fn put_type_name(out: &mut Vec<u8>, line: usize, name: &TypeName) -> Result<(), AllocError>
    ensures { OnOk result (out.new.items ≡ out.old.items ++ text_of (spec.in_parentheses (spec.apart (spec.specifiers line (specifiers_of name.now.specifiers)) (spec.declarator line (declarator_of name.now.declarator))))) }
{
    put_sign(out, Terminal::OpenParen)?;
    let before = put_specifiers(out, line, &name.specifiers)?;
    put_declared(out, line, before, &name.declarator)?;
    put_sign(out, Terminal::CloseParen)
}
