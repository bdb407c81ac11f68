// Specifiers, C11 6.7.2, with structs and enums.

ghost use Rattle.std.specs.Prelude.{◌≡◌, ◌++◌, ◌∷◌, [], Option, IfOk, OnOk};
ghost use Rattle.lt_tree.specs.declared.terminal.Terminal.TheVariants as t;
ghost use Rattle.lt_tree.specs.Pieces.{text_of, gap, indent, line_end};
ghost use Rattle.lt_tree.specs.Tree as c;
ghost use Rattle.lt_tree.specs.Canon as spec;
ghost use Rattle.lt_tree.specs.View.{type_of};
ghost use Rattle.lt_tree.specs.Records.{specifiers_of, types_in, members_in, enumerators_in};
ghost use Rattle.lt_print.specs.Lists.{stands, behind};

use crate::member::{put_enumerators, put_members};
use crate::operator::sign_of_word;
use crate::text::{deeper, end_line, put_gap, put_gap_if, put_indent, put_name, put_sign};
use crate::word::{put_basic, put_words};
use lt_model::Name;
use lt_tree::{Enumerator, Member, Specifiers, Terminal, TypeSpecifier};
use std::alloc::AllocError;

/// Specifiers. Gives whether there are any.
#[cycle(printer)]
pub fn put_specifiers(
    out: &mut Vec<u8>,
    line: usize,
    specifiers: &Specifiers,
) -> Result<bool, AllocError>
    ensures text { OnOk result (out.new.items ≡ out.old.items ++ text_of (spec.specifiers line (specifiers_of specifiers.now))) }
    ensures stands { IfOk result (λ now. now ≡ stands (spec.specifiers line (specifiers_of specifiers.now))) }
{
    let before = put_words(out, specifiers)?;
    put_types(out, line, before, &specifiers.types)?;
    Ok(before | !specifiers.types.is_empty())
}

/// Type specifiers, with a space before each that isn't the first of the specifiers.
#[cycle(printer)]
fn put_types(
    out: &mut Vec<u8>,
    line: usize,
    before: bool,
    types: &[TypeSpecifier],
) -> Result<(), AllocError>
    ensures { OnOk result (out.new.items ≡ out.old.items ++ text_of (behind before (spec.type_specifiers line (types_in types.now)))) }
{
    for (at, specifier) in types.iter().enumerate() {
        put_gap_if(out, before | (at > 0))?;
        put_type(out, line, specifier)?;
    }
    Ok(())
}

#[cycle(printer)]
#[tactic(auto, unfolding(lt_tree::specs::Pieces::text_of, lt_tree::specs::Canon::operand), using(crate::proofs::Texts::texts))]
fn put_type(out: &mut Vec<u8>, line: usize, specifier: &TypeSpecifier) -> Result<(), AllocError>
    ensures { OnOk result (out.new.items ≡ out.old.items ++ text_of (spec.type_specifier line (type_of specifier.now))) }
{
    match specifier {
        TypeSpecifier::Basic(basic) => put_basic(out, *basic),
        TypeSpecifier::Word(word) => put_sign(out, sign_of_word(*word)),
        TypeSpecifier::StructTag(tag) => put_tag_alone(out, Terminal::Struct, tag),
        TypeSpecifier::Struct(tag, members) => put_struct(out, line, tag, members),
        TypeSpecifier::EnumTag(tag) => put_tag_alone(out, Terminal::Enum, tag),
        TypeSpecifier::Enum(tag, enumerators) => put_enum(out, line, tag, enumerators),
        TypeSpecifier::Named(name) => put_name(out, name),
    }
}

/// A struct or an enum by its tag.
#[tactic(auto, unfolding(lt_tree::specs::Pieces::text_of), using(crate::proofs::Texts::texts))]
fn put_tag_alone(out: &mut Vec<u8>, word: Terminal, tag: &Name) -> Result<(), AllocError>
    ensures { OnOk result (out.new.items ≡ out.old.items ++ text_of (spec.sign word ∷ gap ∷ spec.name tag.now ∷ [])) }
{
    put_sign(out, word)?;
    put_gap(out)?;
    put_name(out, tag)
}

/// A tag behind `struct` or `enum`, if there is one.
#[tactic(auto, unfolding(lt_tree::specs::Pieces::text_of), using(crate::proofs::Texts::texts))]
fn put_tag_if(out: &mut Vec<u8>, tag: &Option<Name>) -> Result<(), AllocError>
    ensures { OnOk result (out.new.items ≡ out.old.items ++ text_of (spec.name_behind tag.now)) }
{
    match tag {
        Some(name) => {
            put_gap(out)?;
            put_name(out, name)
        }
        None => Ok(()),
    }
}

/// 'struct' NAME? '{' member* '}'
#[cycle(printer)]
#[tactic(auto, unfolding(lt_tree::specs::Pieces::text_of, lt_tree::specs::Canon::operand), using(crate::proofs::Texts::texts))]
fn put_struct(
    out: &mut Vec<u8>,
    line: usize,
    tag: &Option<Name>,
    members: &[Member],
) -> Result<(), AllocError>
    ensures { OnOk result (out.new.items ≡ out.old.items ++ text_of (spec.type_specifier line (c.Struct tag.now (members_in members.now)))) }
{
    put_sign(out, Terminal::Struct)?;
    put_tag_if(out, tag)?;
    open_braces(out)?;
    let inner = deeper(line)?;
    put_members(out, inner, members)?;
    close_braces(out, line)
}

/// 'enum' NAME? '{' (NAME ('=' cond)?),+ '}'
#[cycle(printer)]
#[tactic(auto, unfolding(lt_tree::specs::Pieces::text_of, lt_tree::specs::Canon::operand), using(crate::proofs::Texts::texts))]
fn put_enum(
    out: &mut Vec<u8>,
    line: usize,
    tag: &Option<Name>,
    enumerators: &[Enumerator],
) -> Result<(), AllocError>
    ensures { OnOk result (out.new.items ≡ out.old.items ++ text_of (spec.type_specifier line (c.Enum tag.now (enumerators_in enumerators.now)))) }
{
    put_sign(out, Terminal::Enum)?;
    put_tag_if(out, tag)?;
    open_braces(out)?;
    let inner = deeper(line)?;
    put_enumerators(out, inner, enumerators)?;
    close_braces(out, line)
}

/// ` {` and the end of the line.
#[tactic(auto, unfolding(lt_tree::specs::Pieces::text_of), using(crate::proofs::Texts::texts))]
pub fn open_braces(out: &mut Vec<u8>) -> Result<(), AllocError>
    ensures { OnOk result (out.new.items ≡ out.old.items ++ text_of (gap ∷ spec.sign t.OpenBrace ∷ line_end ∷ [])) }
{
    put_gap(out)?;
    put_sign(out, Terminal::OpenBrace)?;
    end_line(out)
}

/// `}` at the start of a line.
#[tactic(auto, unfolding(lt_tree::specs::Pieces::text_of), using(crate::proofs::Texts::texts))]
pub fn close_braces(out: &mut Vec<u8>, line: usize) -> Result<(), AllocError>
    ensures { OnOk result (out.new.items ≡ out.old.items ++ text_of (indent line ∷ spec.sign t.CloseBrace ∷ [])) }
{
    put_indent(out, line)?;
    put_sign(out, Terminal::CloseBrace)
}
