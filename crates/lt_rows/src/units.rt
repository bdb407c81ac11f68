//! Units of texts, and where their nodes begin.

use crate::stop::Stop;
use crate::tokens::lexed;
use crate::words::Words;
use lt_decl::{Parsed, parse_unit};
use lt_expr::ParseStop;
use lt_lex::Tokens;
use std::alloc::Global;

/// What a syntax error is, which has to be at a token or at the text's end.
pub fn syntax(tokens: &Tokens, at: u32) -> Stop {
    if at == tokens.length || tokens.list.iter().any(|token| token.at == at) {
        Stop::Syntax
    } else {
        Stop::SyntaxElsewhere(at)
    }
}

pub fn parsed(alloc: Global, text: &[u8]) -> Result<Parsed, Stop> {
    let tokens = lexed(alloc, text)?;
    match parse_unit(alloc, &tokens) {
        Ok(parsed) => Ok(parsed),
        Err(ParseStop::Syntax(at)) => Err(syntax(&tokens, at)),
        Err(ParseStop::NoMemory) => Err(Stop::NoMemory),
    }
}

/// The first byte of each node.
pub fn spots(alloc: Global, text: &[u8]) -> Result<Vec<u8>, Stop> {
    let parsed = parsed(alloc, text)?;
    let mut words = Words::new(alloc);
    words.push_spots(parsed.spots.as_slice())?;
    Ok(words.into_bytes())
}

/// How many nodes there are.
pub fn nodes(alloc: Global, text: &[u8]) -> Result<Vec<u8>, Stop> {
    let parsed = parsed(alloc, text)?;
    let mut words = Words::new(alloc);
    words.push_number(parsed.spots.len() as i128)?;
    Ok(words.into_bytes())
}

/// How many nodes there are, and the sum of their first bytes, each times the place of its node, which counts from 1.
pub fn weighed_spots(alloc: Global, text: &[u8]) -> Result<Vec<u8>, Stop> {
    let parsed = parsed(alloc, text)?;
    let mut place = 0_u64;
    let mut sum = 0_u64;
    for spot in &parsed.spots {
        place = place.saturating_add(1);
        sum = sum.saturating_add(place.saturating_mul(u64::from(*spot)));
    }
    let mut words = Words::new(alloc);
    words.push_number(i128::from(place))?;
    words.push_number(i128::from(sum))?;
    Ok(words.into_bytes())
}

// Whether a text is a unit. Where it isn't, that has to be for its syntax.
fn is_unit(alloc: Global, text: &[u8]) -> Result<bool, Stop> {
    match parsed(alloc, text) {
        Ok(_) => Ok(true),
        Err(Stop::Syntax) => Ok(false),
        Err(stop) => Err(stop),
    }
}

/// The lengths of the beginnings of a text that are units.
pub fn prefixes(alloc: Global, text: &[u8]) -> Result<Vec<u8>, Stop> {
    let mut words = Words::new(alloc);
    for end in 0..=text.len() {
        let (front, _) = text.split_at(end);
        if is_unit(alloc, front)? {
            words.push_number(end as i128)?;
        }
    }
    Ok(words.into_bytes())
}
