//! The tokens of type names.

ghost use Rattle.std.specs.Prelude.{◌≡◌, ◌==◌, ◌++◌, ◌∷◌, [], IfOk, OnOk};
ghost use Rattle.std.specs.List.{slice_split, list_all};
ghost use Rattle.lt_token.specs.Words.{is_among, keywords, respelled};
ghost use Rattle.lt_token.specs.Words as words;
ghost use Rattle.lt_entry.specs.TypeNames as names;
ghost use Rattle.lt_entry.specs.TypeNames.{with_stars, is_qualifier, is_star};
ghost use Rattle.lt_input_blocks.specs.Tokens.{texts, kept};

use lt_token::{is_among, is_keyword, is_skipped};
use std::alloc::{AllocError, Global};

const RESPELLED: [&[u8]; 3] = [b"__const", b"__volatile__", b"__signed__"];

/// The tokens of the words of a type name, without those that say nothing.
pub fn tokens_of<'a>(alloc: Global, words: &[&'a [u8]]) -> Result<Vec<&'a [u8]>, AllocError>
    ensures { IfOk result (λ tokens. texts tokens.items ≡ names.tokens_of (texts words.now)) }
{
    let mut tokens = Vec::new(alloc);
    for word in words {
        put_word(alloc, &mut tokens, word)?;
    }
    Ok(tokens)
}

// Behind these, the tokens of a word.
fn put_word<'a>(alloc: Global, tokens: &mut Vec<&'a [u8]>, word: &'a [u8]) -> Result<(), AllocError>
    ensures { OnOk result (texts tokens.new.items ≡ texts tokens.old.items ++ kept (with_stars (slice_split (λ b. b == 42) word.now))) }
{
    let pieces = pieces_of(alloc, word)?;
    put_pieces(tokens, pieces.as_slice())
}

// A word, cut at its asterisks.
fn pieces_of<'a>(alloc: Global, word: &'a [u8]) -> Result<Vec<&'a [u8]>, AllocError>
    ensures { IfOk result (λ pieces. texts pieces.items ≡ slice_split (λ b. b == 42) word.now) }
{
    word.split(|b| *b == b'*').collect(alloc)
}

// Behind these, the tokens of pieces between asterisks.
fn put_pieces<'a>(tokens: &mut Vec<&'a [u8]>, pieces: &[&'a [u8]]) -> Result<(), AllocError>
    ensures { OnOk result (texts tokens.new.items ≡ texts tokens.old.items ++ kept (with_stars (texts pieces.now))) }
{
    let Some((first, others)) = pieces.split_first() else {
        return Ok(());
    };
    put_token(tokens, first)?;
    for piece in others {
        put_token(tokens, b"*")?;
        put_token(tokens, piece)?;
    }
    Ok(())
}

// Behind these, the word for which a token stands, unless it is empty or says nothing.
fn put_token<'a>(tokens: &mut Vec<&'a [u8]>, token: &'a [u8]) -> Result<(), AllocError>
    ensures { OnOk result (texts tokens.new.items ≡ texts tokens.old.items ++ kept (token.now ∷ [])) }
{
    if !token.is_empty() && !is_skipped(token) {
        tokens.push(word_of(token))?;
    }
    Ok(())
}

// The word that a spelling stands for.
#[tactic(auto, unfolding(lt_token::specs::Words::word_of, lt_token::specs::Words::spells_const, lt_token::specs::Words::spells_volatile, lt_token::specs::Words::spells_signed))]
fn word_of(token: &[u8]) -> &[u8]
    ensures { result.now ≡ words.word_of token.now }
{
    if token == b"__const".as_slice() {
        return b"const";
    }
    if token == b"__volatile__".as_slice() {
        return b"volatile";
    }
    if token == b"__signed__".as_slice() {
        return b"signed";
    }
    token
}

/// Whether a token is an asterisk.
pub fn is_star(token: &[u8]) -> bool
    ensures { result ≡ is_star token.now }
{
    token == b"*".as_slice()
}

/// Whether a token is a qualifier, C11 6.7.3.
pub fn is_qualifier(token: &[u8]) -> bool
    ensures { result ≡ is_qualifier token.now }
{
    token == b"const".as_slice() || token == b"volatile".as_slice()
}

/// Whether all of these are qualifiers.
pub fn are_qualifiers(tokens: &[&[u8]]) -> bool
    ensures { result ≡ list_all is_qualifier (texts tokens.now) }
{
    for token in tokens {
        if !is_qualifier(token) {
            return false;
        }
    }
    true
}

#[tactic(auto, unfolding(lt_token::specs::Words::respelled, lt_token::specs::Words::spells_const, lt_token::specs::Words::spells_volatile, lt_token::specs::Words::spells_signed))]
fn is_respelled(token: &[u8]) -> bool
    ensures { result ≡ is_among token.now respelled }
{
    is_among(&RESPELLED, token)
}

/// Whether a token is a keyword, C11 6.4.1, in no other spelling.
pub fn is_plain_keyword(token: &[u8]) -> bool
    ensures { result ≡ is_among token.now keywords }
{
    is_keyword(token) && !is_respelled(token)
}
