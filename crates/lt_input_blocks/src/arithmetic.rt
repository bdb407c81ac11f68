//! The arithmetic types that words name, C11 6.7.2.

ghost use Rattle.std.specs.Prelude.{◌≡◌, map, IfOk, option_map, option_and_then};
ghost use Rattle.lt_tree.specs.TypeWords as spec;
ghost use Rattle.lt_entry.specs.TypeNames as names;
ghost use Rattle.lt_input_blocks.specs.Tokens.{texts, word_in};

use crate::tokens::is_qualifier;
use lt_tree::{BasicType, TypeWord};
use std::alloc::{AllocError, Global};

const ALL_WORDS: [TypeWord; 10] = [
    TypeWord::Void,
    TypeWord::Char,
    TypeWord::Short,
    TypeWord::Int,
    TypeWord::Long,
    TypeWord::Float,
    TypeWord::Double,
    TypeWord::Signed,
    TypeWord::Unsigned,
    TypeWord::Bool,
];

const SPELLINGS: [(&[TypeWord], BasicType); 31] = [
    (&[TypeWord::Void], BasicType::Void),
    (&[TypeWord::Char], BasicType::Char),
    (&[TypeWord::Signed, TypeWord::Char], BasicType::SignedChar),
    (
        &[TypeWord::Unsigned, TypeWord::Char],
        BasicType::UnsignedChar,
    ),
    (&[TypeWord::Short], BasicType::Short),
    (&[TypeWord::Signed, TypeWord::Short], BasicType::Short),
    (&[TypeWord::Short, TypeWord::Int], BasicType::Short),
    (
        &[TypeWord::Signed, TypeWord::Short, TypeWord::Int],
        BasicType::Short,
    ),
    (
        &[TypeWord::Unsigned, TypeWord::Short],
        BasicType::UnsignedShort,
    ),
    (
        &[TypeWord::Unsigned, TypeWord::Short, TypeWord::Int],
        BasicType::UnsignedShort,
    ),
    (&[TypeWord::Int], BasicType::Int),
    (&[TypeWord::Signed], BasicType::Int),
    (&[TypeWord::Signed, TypeWord::Int], BasicType::Int),
    (&[TypeWord::Unsigned], BasicType::Unsigned),
    (&[TypeWord::Unsigned, TypeWord::Int], BasicType::Unsigned),
    (&[TypeWord::Long], BasicType::Long),
    (&[TypeWord::Signed, TypeWord::Long], BasicType::Long),
    (&[TypeWord::Long, TypeWord::Int], BasicType::Long),
    (
        &[TypeWord::Signed, TypeWord::Long, TypeWord::Int],
        BasicType::Long,
    ),
    (
        &[TypeWord::Unsigned, TypeWord::Long],
        BasicType::UnsignedLong,
    ),
    (
        &[TypeWord::Unsigned, TypeWord::Long, TypeWord::Int],
        BasicType::UnsignedLong,
    ),
    (&[TypeWord::Long, TypeWord::Long], BasicType::LongLong),
    (
        &[TypeWord::Signed, TypeWord::Long, TypeWord::Long],
        BasicType::LongLong,
    ),
    (
        &[TypeWord::Long, TypeWord::Long, TypeWord::Int],
        BasicType::LongLong,
    ),
    (
        &[
            TypeWord::Signed,
            TypeWord::Long,
            TypeWord::Long,
            TypeWord::Int,
        ],
        BasicType::LongLong,
    ),
    (
        &[TypeWord::Unsigned, TypeWord::Long, TypeWord::Long],
        BasicType::UnsignedLongLong,
    ),
    (
        &[
            TypeWord::Unsigned,
            TypeWord::Long,
            TypeWord::Long,
            TypeWord::Int,
        ],
        BasicType::UnsignedLongLong,
    ),
    (&[TypeWord::Float], BasicType::Float),
    (&[TypeWord::Double], BasicType::Double),
    (&[TypeWord::Long, TypeWord::Double], BasicType::LongDouble),
    (&[TypeWord::Bool], BasicType::Bool),
];

#[tactic(auto, unfolding(lt_tree::specs::TypeWords::same_word))]
fn occurrences(word: TypeWord, words: &[TypeWord]) -> usize
    ensures { result ≡ spec.occurrences word words.now }
{
    words.iter().filter(|other| word == **other).count()
}

#[tactic(auto, unfolding(lt_tree::specs::TypeWords::all_words))]
fn same_words(some: &[TypeWord], others: &[TypeWord]) -> bool
    ensures { result ≡ spec.same_words some.now others.now }
{
    ALL_WORDS.iter().all(|word| occurrences(*word, some) == occurrences(*word, others))
}

// The type that the table has for these words.
fn named_among(mut table: &[(&[TypeWord], BasicType)], words: &[TypeWord]) -> Option<BasicType>
    ensures { result ≡ spec.named_among (map (λ row. spec.by row.0.now row.1) table.entry.now) words.now }
{
    while let [(spelling, basic), rest @ ..] = table {
        if same_words(spelling, words) {
            return Some(*basic);
        }
        table = rest;
    }
    None
}

#[tactic(auto, unfolding(lt_tree::specs::TypeWords::spellings))]
fn basic_of(words: &[TypeWord]) -> Option<BasicType>
    ensures { result ≡ spec.basic_of words.now }
{
    named_among(&SPELLINGS, words)
}

const WORDS: [(&[u8], TypeWord); 10] = [
    (b"void", TypeWord::Void),
    (b"char", TypeWord::Char),
    (b"short", TypeWord::Short),
    (b"int", TypeWord::Int),
    (b"long", TypeWord::Long),
    (b"float", TypeWord::Float),
    (b"double", TypeWord::Double),
    (b"signed", TypeWord::Signed),
    (b"unsigned", TypeWord::Unsigned),
    (b"_Bool", TypeWord::Bool),
];

// The word that the table has for a token.
fn word_in(mut table: &[(&[u8], TypeWord)], token: &[u8]) -> Option<TypeWord>
    ensures { result ≡ word_in (map (λ row. (row.0.now, row.1)) table.entry.now) token.now }
{
    while let [(spelling, word), rest @ ..] = table {
        if *spelling == token {
            return Some(*word);
        }
        table = rest;
    }
    None
}

// The word of a type that a token is.
#[tactic(auto, unfolding(lt_tree::specs::TypeWords::all_words))]
fn type_word(token: &[u8]) -> Option<TypeWord>
    ensures { result ≡ names.type_word token.now }
{
    word_in(&WORDS, token)
}

// The words of a type, among which qualifiers may stand.
fn type_words(alloc: Global, tokens: &[&[u8]]) -> Result<Option<Vec<TypeWord>>, AllocError>
    ensures { IfOk result (λ words. option_map (λ v. v.items) words ≡ names.type_words (texts tokens.now)) }
{
    let mut words = Vec::new(alloc);
    'tokens: for token in tokens {
        if !is_qualifier(token) {
            match type_word(token) {
                Some(word) => words.push(word)?,
                None => return Ok(None),
            }
        }
    }
    Ok(Some(words))
}

/// The arithmetic type that words name.
pub fn arithmetic_type(alloc: Global, tokens: &[&[u8]]) -> Result<Option<BasicType>, AllocError>
    ensures { IfOk result (λ it. it ≡ option_and_then spec.basic_of (names.type_words (texts tokens.now))) }
{
    match type_words(alloc, tokens)? {
        Some(words) => Ok(basic_of(words.as_slice())),
        None => Ok(None),
    }
}
