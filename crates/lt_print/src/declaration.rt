// Declarations and initialisers, C11 6.7 and 6.7.9.

ghost use Rattle.std.specs.Prelude.{◌≡◌, ◌++◌, ◌∷◌, [], ◌||◌, map, is_some, option_map, Option, OnOk};
ghost use Rattle.lt_tree.specs.declared.terminal.Terminal.TheVariants as t;
ghost use Rattle.lt_tree.specs.Pieces.{text_of};
ghost use Rattle.lt_tree.specs.Tree as c;
ghost use Rattle.lt_tree.specs.Canon as spec;
ghost use Rattle.lt_tree.specs.CanonUnits as unit;
ghost use Rattle.lt_tree.specs.Records.{specifiers_of, declarator_of};
ghost use Rattle.lt_tree.specs.UnitView.{initialiser_of, initialisers_in, init_declarator_of, declaration_of};
ghost use Rattle.lt_print.specs.Declarators.{is_written};
ghost use Rattle.lt_print.specs.Statements.{declared_stand};

use crate::declarator::{is_written, put_declarator};
use crate::expression::put_operand;
use crate::level::Level;
use crate::specifier::put_specifiers;
use crate::text::{put_comma_unless, put_gap_if, put_sign, put_spaced};
use lt_tree::{Declaration, InitDeclarator, Initialiser, Terminal};
use std::alloc::AllocError;

/// init = assign | '{' init,+ '}'
#[cycle(initialisers)]
#[tactic(auto, unfolding(lt_tree::specs::Pieces::text_of), using(crate::proofs::Texts::texts))]
fn put_initialiser(
    out: &mut Vec<u8>,
    line: usize,
    initialiser: &Initialiser,
) -> Result<(), AllocError>
    ensures { OnOk result (out.new.items ≡ out.old.items ++ text_of (unit.initialiser line (initialiser_of initialiser.now))) }
{
    match initialiser {
        Initialiser::Expression(value) => put_operand(out, line, Level::Assignment, value),
        Initialiser::List(parts) => {
            put_sign(out, Terminal::OpenBrace)?;
            put_initialisers(out, line, parts)?;
            put_sign(out, Terminal::CloseBrace)
        }
    }
}

/// init,+
#[cycle(initialisers)]
fn put_initialisers(out: &mut Vec<u8>, line: usize, parts: &[Initialiser]) -> Result<(), AllocError>
    ensures { OnOk result (out.new.items ≡ out.old.items ++ text_of (unit.initialisers line (initialisers_in parts.now))) }
{
    for (at, part) in parts.iter().enumerate() {
        put_comma_unless(out, at == 0)?;
        put_initialiser(out, line, part)?;
    }
    Ok(())
}

/// declarator ('=' init)?
#[tactic(auto, unfolding(lt_tree::specs::Pieces::text_of), using(crate::proofs::Texts::texts))]
fn put_init_declarator(
    out: &mut Vec<u8>,
    line: usize,
    declared: &InitDeclarator,
) -> Result<(), AllocError>
    ensures { OnOk result (out.new.items ≡ out.old.items ++ text_of (unit.init_declarator line (declarator_of declared.now.declarator) (option_map initialiser_of declared.now.initialiser))) }
{
    put_declarator(out, line, &declared.declarator)?;
    match &declared.initialiser {
        Some(initialiser) => {
            put_spaced(out, Terminal::Equal)?;
            put_initialiser(out, line, initialiser)
        }
        None => Ok(()),
    }
}

/// (declarator ('=' init)?),*
fn put_init_declarators(
    out: &mut Vec<u8>,
    line: usize,
    declarators: &[InitDeclarator],
) -> Result<(), AllocError>
    ensures { OnOk result (out.new.items ≡ out.old.items ++ text_of (unit.init_declarators line (map init_declarator_of declarators.now))) }
{
    for (at, declared) in declarators.iter().enumerate() {
        put_comma_unless(out, at == 0)?;
        put_init_declarator(out, line, declared)?;
    }
    Ok(())
}

/// Whether the declarators of a declaration have any text.
fn any_stands(declarators: &[InitDeclarator]) -> bool
    ensures { result ≡ declared_stand (map init_declarator_of declarators.now) }
{
    if declarators.len() == 1 {
        has_text(&declarators[0])
    } else {
        !declarators.is_empty()
    }
}

fn has_text(declared: &InitDeclarator) -> bool
    ensures { result ≡ (is_written (declarator_of declared.now.declarator) || is_some declared.now.initialiser) }
{
    is_written(&declared.declarator) | declared.initialiser.is_some()
}

/// specs (declarator ('=' init)?),* ';'
pub fn put_declaration(
    out: &mut Vec<u8>,
    line: usize,
    declaration: &Declaration,
) -> Result<(), AllocError>
    ensures { OnOk result (out.new.items ≡ out.old.items ++ text_of (unit.declaration line (declaration_of declaration.now))) }
{
    let before = put_specifiers(out, line, &declaration.specifiers)?;
    put_gap_if(out, before & any_stands(&declaration.declarators))?;
    put_init_declarators(out, line, &declaration.declarators)?;
    put_sign(out, Terminal::Semicolon)
}
