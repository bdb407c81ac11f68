// Members of structs, C11 6.7.2.1, and enumerators, C11 6.7.2.2.

ghost use Rattle.std.specs.Prelude.{◌≡◌, ◌++◌, ◌∷◌, [], ◌||◌, is_some, OnOk};
ghost use Rattle.lt_tree.specs.declared.terminal.Terminal.TheVariants as t;
ghost use Rattle.lt_tree.specs.Pieces.{text_of};
ghost use Rattle.lt_tree.specs.Tree as c;
ghost use Rattle.lt_tree.specs.Canon as spec;
ghost use Rattle.lt_tree.specs.View.{member_of};
ghost use Rattle.lt_tree.specs.Records.{declarator_of, maybe_in, members_in, member_declarators_in, enumerators_in};
ghost use Rattle.lt_print.specs.Declarators.{is_written};
ghost use Rattle.lt_print.specs.Members.{declarators_stand};

use crate::declarator::{is_written, put_declarator};
use crate::expression::put_operand;
use crate::level::Level;
use crate::specifier::put_specifiers;
use crate::text::{
    end_line, put_comma_unless, put_gap_if, put_indent, put_name, put_sign, put_sign_if, put_spaced,
};
use lt_tree::{Enumerator, Expr, Member, MemberDeclarator, Terminal};
use std::alloc::AllocError;

/// Members, each on a line of its own.
#[cycle(printer)]
pub fn put_members(out: &mut Vec<u8>, line: usize, members: &[Member]) -> Result<(), AllocError>
    ensures { OnOk result (out.new.items ≡ out.old.items ++ text_of (spec.member_lines line (members_in members.now))) }
{
    for member in members {
        put_member_line(out, line, member)?;
    }
    Ok(())
}

/// member = specs (declarator (':' cond)?),* ';'
#[cycle(printer)]
#[tactic(auto, unfolding(lt_tree::specs::Pieces::text_of, lt_tree::specs::Canon::operand), using(crate::proofs::Texts::texts))]
fn put_member_line(out: &mut Vec<u8>, line: usize, member: &Member) -> Result<(), AllocError>
    ensures { OnOk result (out.new.items ≡ out.old.items ++ text_of (spec.member_lines line (c.a_member (member_of member.now) c.no_members))) }
{
    put_indent(out, line)?;
    let before = put_specifiers(out, line, &member.specifiers)?;
    put_gap_if(out, before & any_stands(&member.declarators))?;
    put_member_declarators(out, line, &member.declarators)?;
    put_sign(out, Terminal::Semicolon)?;
    end_line(out)
}

/// Whether the declarators of a member have any text.
fn any_stands(declarators: &[MemberDeclarator]) -> bool
    ensures { result ≡ declarators_stand (member_declarators_in declarators.now) }
{
    if declarators.len() == 1 {
        has_text(&declarators[0])
    } else {
        !declarators.is_empty()
    }
}

fn has_text(declared: &MemberDeclarator) -> bool
    ensures { result ≡ (is_written (declarator_of declared.now.declarator) || is_some declared.now.width) }
{
    is_written(&declared.declarator) | declared.width.is_some()
}

/// (declarator (':' cond)?),*
#[cycle(printer)]
fn put_member_declarators(
    out: &mut Vec<u8>,
    line: usize,
    declarators: &[MemberDeclarator],
) -> Result<(), AllocError>
    ensures { OnOk result (out.new.items ≡ out.old.items ++ text_of (spec.member_declarators line (member_declarators_in declarators.now))) }
{
    for (at, declared) in declarators.iter().enumerate() {
        put_comma_unless(out, at == 0)?;
        put_declarator(out, line, &declared.declarator)?;
        put_after_sign(out, line, Terminal::Colon, &declared.width)?;
    }
    Ok(())
}

/// (NAME ('=' cond)?),+ each on a line of its own
#[cycle(printer)]
pub fn put_enumerators(
    out: &mut Vec<u8>,
    line: usize,
    enumerators: &[Enumerator],
) -> Result<(), AllocError>
    ensures { OnOk result (out.new.items ≡ out.old.items ++ text_of (spec.enumerator_lines line (enumerators_in enumerators.now))) }
{
    for (at, enumerator) in enumerators.iter().enumerate() {
        put_indent(out, line)?;
        put_name(out, &enumerator.name)?;
        put_after_sign(out, line, Terminal::Equal, &enumerator.value)?;
        put_sign_if(out, at + 1 < enumerators.len(), Terminal::Comma)?;
        end_line(out)?;
    }
    Ok(())
}

/// (SIGN cond)?
#[cycle(printer)]
#[tactic(auto, unfolding(lt_tree::specs::Pieces::text_of, lt_tree::specs::Canon::operand), using(crate::proofs::Texts::texts))]
fn put_after_sign(
    out: &mut Vec<u8>,
    line: usize,
    sign: Terminal,
    e: &Option<Box<Expr>>,
) -> Result<(), AllocError>
    ensures { OnOk result (out.new.items ≡ out.old.items ++ text_of (spec.after_sign line sign (maybe_in e.now))) }
{
    match e {
        Some(e) => {
            put_spaced(out, sign)?;
            put_operand(out, line, Level::Conditional, e)
        }
        None => Ok(()),
    }
}
