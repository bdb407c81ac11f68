// Marks and the operands that they stand on.

ghost use Rattle.std.specs.Prelude.{◌≡◌, ◌++◌, ◌∷◌, [], OnOk, if◌then◌else◌};
ghost use Rattle.lt_tree.specs.declared.terminal.Terminal.TheVariants as t;
ghost use Rattle.lt_tree.specs.Pieces.{text_of};
ghost use Rattle.lt_tree.specs.Grammar as g;
ghost use Rattle.lt_tree.specs.Canon as spec;
ghost use Rattle.lt_tree.specs.View.{expression_of, mark_of};
ghost use Rattle.lt_tree.specs.Records.{marks_in, bindings_in};

use crate::expression::put_operand;
use crate::level::Level;
use crate::literal::put_literal;
use crate::text::{put_comma, put_constant, put_name, put_sign};
use lt_model::Name;
use lt_tree::{Binding, Expr, Mark, Terminal};
use std::alloc::AllocError;

/// ',' CONSTANT
#[tactic(auto, unfolding(lt_tree::specs::Pieces::text_of), using(crate::proofs::Texts::texts))]
fn put_id(out: &mut Vec<u8>, id: &Name) -> Result<(), AllocError>
    ensures { OnOk result (out.new.items ≡ out.old.items ++ text_of (spec.comma_gap ++ spec.constant id.now ∷ [])) }
{
    put_comma(out)?;
    put_constant(out, id)
}

/// ',' STRING
#[tactic(auto, unfolding(lt_tree::specs::Pieces::text_of), using(crate::proofs::Texts::texts))]
fn put_tag(out: &mut Vec<u8>, tag: &Name) -> Result<(), AllocError>
    ensures { OnOk result (out.new.items ≡ out.old.items ++ text_of (spec.comma_gap ++ spec.literal tag.now ∷ [])) }
{
    put_comma(out)?;
    put_literal(out, tag)
}

/// 'pc_decide' '(' assign ',' CONSTANT ',' CONSTANT ',' STRING ')'
#[cycle(printer)]
#[tactic(auto, unfolding(lt_tree::specs::Pieces::text_of), using(crate::proofs::Texts::texts))]
pub fn put_decide(
    out: &mut Vec<u8>,
    line: usize,
    operand: &Expr,
    when_true: &Name,
    when_false: &Name,
    tag: &Name,
) -> Result<(), AllocError>
    ensures { OnOk result (out.new.items ≡ out.old.items ++ text_of (spec.sign t.Decide ∷ spec.in_parentheses (spec.operand line g.assignment (expression_of operand.now) ++ spec.comma_gap ++ spec.constant when_true.now ∷ spec.comma_gap ++ spec.constant when_false.now ∷ spec.comma_gap ++ spec.literal tag.now ∷ []))) }
{
    put_sign(out, Terminal::Decide)?;
    put_sign(out, Terminal::OpenParen)?;
    put_operand(out, line, Level::Assignment, operand)?;
    put_id(out, when_true)?;
    put_id(out, when_false)?;
    put_tag(out, tag)?;
    put_sign(out, Terminal::CloseParen)
}

/// 'pc_after' '(' assign ',' CONSTANT ',' STRING ')'
#[cycle(printer)]
#[tactic(auto, unfolding(lt_tree::specs::Pieces::text_of), using(crate::proofs::Texts::texts))]
pub fn put_after(
    out: &mut Vec<u8>,
    line: usize,
    operand: &Expr,
    id: &Name,
    tag: &Name,
) -> Result<(), AllocError>
    ensures { OnOk result (out.new.items ≡ out.old.items ++ text_of (spec.sign t.After ∷ spec.in_parentheses (spec.operand line g.assignment (expression_of operand.now) ++ spec.comma_gap ++ spec.constant id.now ∷ spec.comma_gap ++ spec.literal tag.now ∷ []))) }
{
    put_sign(out, Terminal::After)?;
    put_sign(out, Terminal::OpenParen)?;
    put_operand(out, line, Level::Assignment, operand)?;
    put_id(out, id)?;
    put_tag(out, tag)?;
    put_sign(out, Terminal::CloseParen)
}

/// (mark ',')*
#[cycle(printer)]
pub fn put_marks(out: &mut Vec<u8>, line: usize, marks: &[Mark]) -> Result<(), AllocError>
    ensures { OnOk result (out.new.items ≡ out.old.items ++ text_of (spec.marks_pieces line (marks_in marks.now))) }
{
    for mark in marks {
        put_mark(out, line, mark)?;
        put_comma(out)?;
    }
    Ok(())
}

/// 'pc_label' '(' assign ',' CONSTANT ',' STRING ')' | 'pc_label_bind' '(' assign ',' CONSTANT ',' STRING (',' NAME ',' assign)+ ')'
#[cycle(printer)]
#[tactic(auto, unfolding(lt_tree::specs::Pieces::text_of), using(crate::proofs::Texts::texts))]
pub fn put_mark(out: &mut Vec<u8>, line: usize, mark: &Mark) -> Result<(), AllocError>
    ensures { OnOk result (out.new.items ≡ out.old.items ++ text_of (spec.mark line (mark_of mark.now))) }
{
    put_sign(out, label_word(mark.bound.is_empty()))?;
    put_sign(out, Terminal::OpenParen)?;
    put_operand(out, line, Level::Assignment, &mark.predicate)?;
    put_id(out, &mark.id)?;
    put_tag(out, &mark.tag)?;
    put_bindings(out, line, &mark.bound)?;
    put_sign(out, Terminal::CloseParen)
}

/// The word of a label that binds no names, and of one that binds some.
fn label_word(plain: bool) -> Terminal
    ensures { result ≡ (if plain then t.Label else t.LabelBind) }
{
    if plain {
        Terminal::Label
    } else {
        Terminal::LabelBind
    }
}

/// (',' NAME ',' assign)*
#[cycle(printer)]
fn put_bindings(out: &mut Vec<u8>, line: usize, bound: &[Binding]) -> Result<(), AllocError>
    ensures { OnOk result (out.new.items ≡ out.old.items ++ text_of (spec.bindings line (bindings_in bound.now))) }
{
    for binding in bound {
        put_comma(out)?;
        put_name(out, &binding.name)?;
        put_comma(out)?;
        put_operand(out, line, Level::Assignment, &binding.value)?;
    }
    Ok(())
}
