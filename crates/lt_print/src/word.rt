// The words among specifiers that are no part of a type.

ghost use Rattle.std.specs.Prelude.{◌≡◌, ◌||◌, ◌++◌, map, IfOk, OnOk};
ghost use Rattle.lt_tree.specs.Pieces.{text_of};
ghost use Rattle.lt_tree.specs.View as view;
ghost use Rattle.lt_tree.specs.View.{qualifiers_of};
ghost use Rattle.lt_tree.specs.Canon as spec;
ghost use Rattle.lt_print.specs.Lists.{stands, behind};

use crate::operator::{sign_of_storage, sign_of_word};
use crate::text::{put_gap_if, put_sign};
use lt_model::Quals;
use lt_tree::{BasicType, Specifiers, Storage, Terminal, TypeWord};
use std::alloc::AllocError;

/// A word behind others, if it is there. Gives whether any stands now.
pub fn put_word_if(
    out: &mut Vec<u8>,
    before: bool,
    there: bool,
    word: Terminal,
) -> Result<bool, AllocError>
    ensures text { OnOk result (out.new.items ≡ out.old.items ++ text_of (behind before (spec.word_if there word))) }
    ensures stands { IfOk result (λ now. now ≡ (before || there)) }
{
    if there {
        put_gap_if(out, before)?;
        put_sign(out, word)?;
        Ok(true)
    } else {
        Ok(before)
    }
}

/// Qualifiers behind other words. Gives whether any word stands now.
pub fn put_qualifiers(out: &mut Vec<u8>, before: bool, quals: Quals) -> Result<bool, AllocError>
    ensures text { OnOk result (out.new.items ≡ out.old.items ++ text_of (behind before (spec.qualifiers_pieces (qualifiers_of quals)))) }
    ensures stands { IfOk result (λ now. now ≡ (before || stands (spec.qualifiers_pieces (qualifiers_of quals)))) }
{
    let now = put_word_if(out, before, quals.constant, Terminal::Const)?;
    let now = put_word_if(out, now, quals.volatile, Terminal::Volatile)?;
    Ok(now)
}

/// Storage classes, `inline`, `_Noreturn`, `const`, `volatile`. Gives whether any word stands now.
pub fn put_words(out: &mut Vec<u8>, specifiers: &Specifiers) -> Result<bool, AllocError>
    ensures text { OnOk result (out.new.items ≡ out.old.items ++ text_of (spec.words_pieces (view.words_of specifiers.now.storage specifiers.now.inline specifiers.now.noreturn specifiers.now.quals))) }
    ensures stands { IfOk result (λ now. now ≡ stands (spec.words_pieces (view.words_of specifiers.now.storage specifiers.now.inline specifiers.now.noreturn specifiers.now.quals))) }
{
    let now = put_classes(out, &specifiers.storage)?;
    let now = put_word_if(out, now, specifiers.inline, Terminal::Inline)?;
    let now = put_word_if(out, now, specifiers.noreturn, Terminal::Noreturn)?;
    let now = put_qualifiers(out, now, specifiers.quals)?;
    Ok(now)
}

/// Storage classes. Gives whether there are any.
fn put_classes(out: &mut Vec<u8>, classes: &[Storage]) -> Result<bool, AllocError>
    ensures text { OnOk result (out.new.items ≡ out.old.items ++ text_of (spec.signs_apart (map spec.sign_of_storage classes.now))) }
    ensures stands { IfOk result (λ now. now ≡ stands (spec.signs_apart (map spec.sign_of_storage classes.now))) }
{
    for (at, class) in classes.iter().enumerate() {
        put_gap_if(out, at > 0)?;
        put_sign(out, sign_of_storage(*class))?;
    }
    Ok(!classes.is_empty())
}

/// A type that words name.
pub fn put_basic(out: &mut Vec<u8>, basic: BasicType) -> Result<(), AllocError>
    ensures { OnOk result (out.new.items ≡ out.old.items ++ text_of (spec.signs_apart (map spec.sign_of_word (spec.words_of basic)))) }
{
    put_type_words(out, words_of(basic))
}

/// The words of a type, as they are written.
fn words_of(basic: BasicType) -> &'static [TypeWord]
    ensures { result.now ≡ spec.words_of basic }
{
    match basic {
        BasicType::Void => &[TypeWord::Void],
        BasicType::Char => &[TypeWord::Char],
        BasicType::SignedChar => &[TypeWord::Signed, TypeWord::Char],
        BasicType::UnsignedChar => &[TypeWord::Unsigned, TypeWord::Char],
        BasicType::Short => &[TypeWord::Short],
        BasicType::UnsignedShort => &[TypeWord::Unsigned, TypeWord::Short],
        BasicType::Int => &[TypeWord::Int],
        BasicType::Unsigned => &[TypeWord::Unsigned],
        BasicType::Long => &[TypeWord::Long],
        BasicType::UnsignedLong => &[TypeWord::Unsigned, TypeWord::Long],
        BasicType::LongLong => &[TypeWord::Long, TypeWord::Long],
        BasicType::UnsignedLongLong => &[TypeWord::Unsigned, TypeWord::Long, TypeWord::Long],
        BasicType::Bool => &[TypeWord::Bool],
        BasicType::Float => &[TypeWord::Float],
        BasicType::Double => &[TypeWord::Double],
        BasicType::LongDouble => &[TypeWord::Long, TypeWord::Double],
    }
}

fn put_type_words(out: &mut Vec<u8>, words: &[TypeWord]) -> Result<(), AllocError>
    ensures { OnOk result (out.new.items ≡ out.old.items ++ text_of (spec.signs_apart (map spec.sign_of_word words.now))) }
{
    for (at, word) in words.iter().enumerate() {
        put_gap_if(out, at > 0)?;
        put_sign(out, sign_of_word(*word))?;
    }
    Ok(())
}
