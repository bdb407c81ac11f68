// Declarators, C11 6.7.6: stars and opening parentheses from the outermost part in, the name, and the rest from the innermost part out.

ghost use Rattle.std.specs.Prelude.{◌≡◌, false, ◌++◌, ◌∷◌, [], IfOk, OnOk};
ghost use Rattle.lt_tree.specs.Pieces.{text_of};
ghost use Rattle.lt_tree.specs.Tree as c;
ghost use Rattle.lt_tree.specs.Canon as spec;
ghost use Rattle.lt_tree.specs.View.{qualifiers_of, parameters_of, part_before};
ghost use Rattle.lt_tree.specs.Records.{declarator_of, parts_in, maybe_in, parameter_list_in};
ghost use Rattle.lt_print.specs.Lists.{behind};
ghost use Rattle.lt_print.specs.Declarators as side;

use crate::expression::put_operand;
use crate::level::Level;
use crate::specifier::put_specifiers;
use crate::text::{put_comma, put_comma_unless, put_gap_if, put_name, put_sign, put_sign_if};
use crate::word::put_qualifiers;
use lt_model::{Name, Quals};
use lt_tree::{Declarator, DeclaratorPart, Expr, Parameter, Parameters, Terminal};
use std::alloc::AllocError;

/// Whether a declarator has a name or a part.
pub fn is_written(declarator: &Declarator) -> bool
    ensures { result ≡ side.is_written (declarator_of declarator.now) }
{
    declarator.name.is_some() | !declarator.parts.as_slice().is_empty()
}

/// A declarator, or nothing where it is missing.
#[cycle(printer)]
pub fn put_declarator(
    out: &mut Vec<u8>,
    line: usize,
    declarator: &Declarator,
) -> Result<(), AllocError>
    ensures { OnOk result (out.new.items ≡ out.old.items ++ text_of (spec.declarator line (declarator_of declarator.now))) }
{
    put_front(out, declarator.name.is_some(), &declarator.parts)?;
    put_name_if(out, &declarator.name)?;
    put_back(out, line, &declarator.parts)
}

/// A declarator behind specifiers, if there are any.
#[cycle(printer)]
pub fn put_declared(
    out: &mut Vec<u8>,
    line: usize,
    before: bool,
    declarator: &Declarator,
) -> Result<(), AllocError>
    ensures { OnOk result (out.new.items ≡ out.old.items ++ text_of (behind before (spec.declarator line (declarator_of declarator.now)))) }
{
    put_gap_if(out, before & is_written(declarator))?;
    put_declarator(out, line, declarator)
}

#[tactic(auto, unfolding(lt_tree::specs::Pieces::text_of), using(crate::proofs::Texts::texts))]
fn put_name_if(out: &mut Vec<u8>, name: &Option<Name>) -> Result<(), AllocError>
    ensures { OnOk result (out.new.items ≡ out.old.items ++ text_of (spec.name_if name.now)) }
{
    match name {
        Some(name) => put_name(out, name),
        None => Ok(()),
    }
}

/// What stands before the name. A `*` directly under an array or a function opens parentheses.
fn put_front(out: &mut Vec<u8>, named: bool, parts: &[DeclaratorPart]) -> Result<(), AllocError>
    ensures { OnOk result (out.new.items ≡ out.old.items ++ text_of (side.front named (parts_in parts.now))) }
{
    let mut suffixed = false;
    for at in (0..parts.len()).rev() {
        if let DeclaratorPart::Pointer(quals) = &parts[at] {
            put_sign_if(out, suffixed, Terminal::OpenParen)?;
            put_star(out, *quals, named | (at > 0))?;
            suffixed = false;
        } else {
            suffixed = true;
        }
    }
    Ok(())
}

/// `*` with its qualifiers, and a space where such are there and something stands inside.
#[tactic(auto, unfolding(lt_tree::specs::Pieces::text_of), using(crate::proofs::Texts::texts))]
fn put_star(out: &mut Vec<u8>, quals: Quals, inside: bool) -> Result<(), AllocError>
    ensures { OnOk result (out.new.items ≡ out.old.items ++ text_of (side.star (qualifiers_of quals) inside)) }
{
    put_sign(out, Terminal::Star)?;
    let before = put_qualifiers(out, false, quals)?;
    put_gap_if(out, before & inside)
}

/// What stands behind the name.
#[cycle(printer)]
fn put_back(out: &mut Vec<u8>, line: usize, parts: &[DeclaratorPart]) -> Result<(), AllocError>
    ensures { OnOk result (out.new.items ≡ out.old.items ++ text_of (side.back line false (parts_in parts.now))) }
{
    let mut pointer = false;
    for part in parts {
        pointer = put_suffix(out, line, pointer, part)?;
    }
    Ok(())
}

/// '[' cond? ']' or '(' params? ')', and nothing for a `*`. Gives whether the part is a pointer.
#[cycle(printer)]
fn put_suffix(
    out: &mut Vec<u8>,
    line: usize,
    pointer: bool,
    part: &DeclaratorPart,
) -> Result<bool, AllocError>
    ensures text { OnOk result (out.new.items ≡ out.old.items ++ text_of (side.back line pointer (part_before part.now c.no_parts))) }
    ensures pointer { IfOk result (λ now. now ≡ side.is_pointer (part_before part.now c.no_parts)) }
{
    match part {
        DeclaratorPart::Pointer(_) => return Ok(true),
        DeclaratorPart::Array(length) => {
            put_sign_if(out, pointer, Terminal::CloseParen)?;
            put_sign(out, Terminal::OpenIndex)?;
            put_maybe(out, line, length)?;
            put_sign(out, Terminal::CloseIndex)?;
        }
        DeclaratorPart::Function(parameters) => {
            put_sign_if(out, pointer, Terminal::CloseParen)?;
            put_sign(out, Terminal::OpenParen)?;
            put_parameters(out, line, parameters)?;
            put_sign(out, Terminal::CloseParen)?;
        }
    }
    Ok(false)
}

/// cond?
#[cycle(printer)]
#[tactic(auto, unfolding(lt_tree::specs::Pieces::text_of, lt_tree::specs::Canon::operand), using(crate::proofs::Texts::texts))]
fn put_maybe(out: &mut Vec<u8>, line: usize, e: &Option<Box<Expr>>) -> Result<(), AllocError>
    ensures { OnOk result (out.new.items ≡ out.old.items ++ text_of (spec.maybe line (maybe_in e.now))) }
{
    match e {
        Some(e) => put_operand(out, line, Level::Conditional, e),
        None => Ok(()),
    }
}

/// params?
#[cycle(printer)]
#[tactic(auto, unfolding(lt_tree::specs::Pieces::text_of, lt_tree::specs::Canon::operand), using(crate::proofs::Texts::texts))]
fn put_parameters(out: &mut Vec<u8>, line: usize, parameters: &Parameters) -> Result<(), AllocError>
    ensures { OnOk result (out.new.items ≡ out.old.items ++ text_of (spec.parameters line (parameters_of parameters.now))) }
{
    match parameters {
        Parameters::Unstated => Ok(()),
        Parameters::Void => put_sign(out, Terminal::Void),
        Parameters::Listed(list) => put_parameter_list(out, line, list),
        Parameters::Open(list) => {
            put_parameter_list(out, line, list)?;
            put_comma(out)?;
            put_sign(out, Terminal::Ellipsis)
        }
    }
}

/// param,+
#[cycle(printer)]
fn put_parameter_list(out: &mut Vec<u8>, line: usize, list: &[Parameter]) -> Result<(), AllocError>
    ensures { OnOk result (out.new.items ≡ out.old.items ++ text_of (spec.parameter_list line (parameter_list_in list.now))) }
{
    for (at, parameter) in list.iter().enumerate() {
        put_comma_unless(out, at == 0)?;
        let before = put_specifiers(out, line, &parameter.specifiers)?;
        put_declared(out, line, before, &parameter.declarator)?;
    }
    Ok(())
}
