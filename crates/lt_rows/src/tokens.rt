//! Tokens of texts.

use crate::stop::Stop;
use crate::words::Words;
use lt_lex::{LexStop, Tokens, lex, nest};
use lt_token::Kind;
use std::alloc::{AllocError, Global};

// More than any row needs.
const MOST_BYTES: usize = 10_000_000;

/// The tokens of a text.
pub fn lexed<'a>(alloc: Global, text: &'a [u8]) -> Result<Tokens<'a>, Stop> {
    if text.len() >= MOST_BYTES {
        return Err(Stop::TooLong);
    }
    Ok(lex(alloc, text)?)
}

// A letter for a token's kind.
fn letter(kind: Kind) -> &'static str {
    match kind {
        Kind::Identifier => "I:",
        Kind::Keyword => "K:",
        Kind::Integer => "N:",
        Kind::Character => "C:",
        Kind::Text => "T:",
        Kind::Punctuator => "P:",
    }
}

fn put_stop(words: &mut Words, stop: &LexStop) -> Result<(), AllocError> {
    let (name, at) = match stop {
        LexStop::Lex(at) => ("Lex", *at),
        LexStop::Unsupported(_, at) => ("Unsupported", *at),
        LexStop::TooNested(at) => ("TooNested", *at),
        LexStop::NoMemory => return Err(AllocError),
    };
    words.push_text(name)?;
    if let LexStop::Unsupported(word, _) = stop {
        words.push(&[word.as_slice()])?;
    }
    words.push_number(i128::from(at))
}

fn put_token<'a>(words: &mut Words, kind: &'a [u8], word: &'a [u8]) -> Result<(), AllocError> {
    words.push(&[kind, word])
}

/// Each token's kind and word; or why there are none, and where.
pub fn tokens(alloc: Global, text: &[u8]) -> Result<Vec<u8>, Stop> {
    if text.len() >= MOST_BYTES {
        return Err(Stop::TooLong);
    }
    let mut words = Words::new(alloc);
    match lex(alloc, text) {
        Ok(tokens) => {
            for token in &tokens.list {
                put_token(&mut words, letter(token.kind).as_bytes(), token.word())?;
            }
        }
        Err(stop) => put_stop(&mut words, &stop)?,
    }
    Ok(words.into_bytes())
}

/// How many tokens there are.
pub fn count(alloc: Global, text: &[u8]) -> Result<Vec<u8>, Stop> {
    let tokens = lexed(alloc, text)?;
    let mut words = Words::new(alloc);
    words.push_number(tokens.list.len() as i128)?;
    Ok(words.into_bytes())
}

/// The nest of each token.
pub fn nests(alloc: Global, text: &[u8]) -> Result<Vec<u8>, Stop> {
    let tokens = lexed(alloc, text)?;
    let mut words = Words::new(alloc);
    for k in 0..tokens.list.len() {
        words.push_number(i128::from(nest(&tokens, k)))?;
    }
    Ok(words.into_bytes())
}

/// The first byte and the spelling of each token, and the length of the text.
pub fn places(alloc: Global, text: &[u8]) -> Result<Vec<u8>, Stop> {
    let tokens = lexed(alloc, text)?;
    let mut words = Words::new(alloc);
    for token in &tokens.list {
        words.push_number(i128::from(token.at))?;
        words.push(&[token.text])?;
    }
    words.push_number(i128::from(tokens.length))?;
    Ok(words.into_bytes())
}
