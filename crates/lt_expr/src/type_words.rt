// The types that words name together, C11 6.7.2.

ghost use Rattle.std.specs.Prelude.{◌≡◌, map, IfOk, option_map, option_and_then};
ghost use Rattle.lt_tree.specs.Records.{types_in};
ghost use Rattle.lt_tree.specs.TypeWords as spec;

use lt_tree::{BasicType, TypeSpecifier, TypeWord};
use std::alloc::{AllocError, Global};

const ALL_WORDS: [TypeWord; 10] = [
    TypeWord::Void,
    TypeWord::Char,
    TypeWord::Short,
    TypeWord::Int,
    TypeWord::Long,
    TypeWord::Float,
    TypeWord::Double,
    TypeWord::Signed,
    TypeWord::Unsigned,
    TypeWord::Bool,
];

const SPELLINGS: [(&[TypeWord], BasicType); 31] = [
    (&[TypeWord::Void], BasicType::Void),
    (&[TypeWord::Char], BasicType::Char),
    (&[TypeWord::Signed, TypeWord::Char], BasicType::SignedChar),
    (
        &[TypeWord::Unsigned, TypeWord::Char],
        BasicType::UnsignedChar,
    ),
    (&[TypeWord::Short], BasicType::Short),
    (&[TypeWord::Signed, TypeWord::Short], BasicType::Short),
    (&[TypeWord::Short, TypeWord::Int], BasicType::Short),
    (
        &[TypeWord::Signed, TypeWord::Short, TypeWord::Int],
        BasicType::Short,
    ),
    (
        &[TypeWord::Unsigned, TypeWord::Short],
        BasicType::UnsignedShort,
    ),
    (
        &[TypeWord::Unsigned, TypeWord::Short, TypeWord::Int],
        BasicType::UnsignedShort,
    ),
    (&[TypeWord::Int], BasicType::Int),
    (&[TypeWord::Signed], BasicType::Int),
    (&[TypeWord::Signed, TypeWord::Int], BasicType::Int),
    (&[TypeWord::Unsigned], BasicType::Unsigned),
    (&[TypeWord::Unsigned, TypeWord::Int], BasicType::Unsigned),
    (&[TypeWord::Long], BasicType::Long),
    (&[TypeWord::Signed, TypeWord::Long], BasicType::Long),
    (&[TypeWord::Long, TypeWord::Int], BasicType::Long),
    (
        &[TypeWord::Signed, TypeWord::Long, TypeWord::Int],
        BasicType::Long,
    ),
    (
        &[TypeWord::Unsigned, TypeWord::Long],
        BasicType::UnsignedLong,
    ),
    (
        &[TypeWord::Unsigned, TypeWord::Long, TypeWord::Int],
        BasicType::UnsignedLong,
    ),
    (&[TypeWord::Long, TypeWord::Long], BasicType::LongLong),
    (
        &[TypeWord::Signed, TypeWord::Long, TypeWord::Long],
        BasicType::LongLong,
    ),
    (
        &[TypeWord::Long, TypeWord::Long, TypeWord::Int],
        BasicType::LongLong,
    ),
    (
        &[
            TypeWord::Signed,
            TypeWord::Long,
            TypeWord::Long,
            TypeWord::Int,
        ],
        BasicType::LongLong,
    ),
    (
        &[TypeWord::Unsigned, TypeWord::Long, TypeWord::Long],
        BasicType::UnsignedLongLong,
    ),
    (
        &[
            TypeWord::Unsigned,
            TypeWord::Long,
            TypeWord::Long,
            TypeWord::Int,
        ],
        BasicType::UnsignedLongLong,
    ),
    (&[TypeWord::Float], BasicType::Float),
    (&[TypeWord::Double], BasicType::Double),
    (&[TypeWord::Long, TypeWord::Double], BasicType::LongDouble),
    (&[TypeWord::Bool], BasicType::Bool),
];

#[tactic(auto, unfolding(lt_tree::specs::TypeWords::same_word))]
fn occurrences(word: TypeWord, words: &[TypeWord]) -> usize
    ensures { result ≡ spec.occurrences word words.now }
{
    words.iter().filter(|other| word == **other).count()
}

#[tactic(auto, unfolding(lt_tree::specs::TypeWords::all_words))]
fn same_words(some: &[TypeWord], others: &[TypeWord]) -> bool
    ensures { result ≡ spec.same_words some.now others.now }
{
    ALL_WORDS.iter().all(|word| occurrences(*word, some) == occurrences(*word, others))
}

// The type that the table has for these words.
fn named_among(mut table: &[(&[TypeWord], BasicType)], words: &[TypeWord]) -> Option<BasicType>
    ensures { result ≡ spec.named_among (map (λ row. spec.by row.0.now row.1) table.entry.now) words.now }
{
    while let [(spelling, basic), rest @ ..] = table {
        if same_words(spelling, words) {
            return Some(*basic);
        }
        table = rest;
    }
    None
}

#[tactic(auto, unfolding(lt_tree::specs::TypeWords::spellings))]
fn basic_of(words: &[TypeWord]) -> Option<BasicType>
    ensures { result ≡ spec.basic_of words.now }
{
    named_among(&SPELLINGS, words)
}

// The words, if nothing else stands among these.
fn words_alone(alloc: Global, types: &[TypeSpecifier]) -> Result<Option<Vec<TypeWord>>, AllocError>
    ensures { IfOk result (λ words. option_map (λ v. v.items) words ≡ spec.words_alone (types_in types.now)) }
{
    let mut words = Vec::new(alloc);
    'types: for one in types {
        match one {
            TypeSpecifier::Word(word) => words.push(*word)?,
            _ => return Ok(None),
        }
    }
    Ok(Some(words))
}

/// The type that all of these name together, if they are words that name one.
pub(crate) fn named_together(
    alloc: Global,
    types: &[TypeSpecifier],
) -> Result<Option<BasicType>, AllocError>
    ensures { IfOk result (λ basic. basic ≡ option_and_then spec.basic_of (spec.words_alone (types_in types.now))) }
{
    match words_alone(alloc, types)? {
        Some(words) => Ok(basic_of(words.as_slice())),
        None => Ok(None),
    }
}
