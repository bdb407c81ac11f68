//! Texts in which a form nests.

use lt_decl::{Parsed, parse_unit};
use lt_lex::lex;
use std::alloc::{AllocError, Global};

/// A front, an opening, a middle, a closing and a back; and how often the opening and the closing stand there.
#[derive(Clone, Copy)]
pub struct Nest(pub [&'static str; 5], pub usize);

// A piece so many times.
fn repeat(text: &mut Vec<u8>, times: usize, piece: &str) -> Result<(), AllocError> {
    for _turn in 0..times {
        text.extend_from_slice(piece.as_bytes())?;
    }
    Ok(())
}

/// The text.
pub fn text(alloc: Global, nest: &Nest) -> Result<Vec<u8>, AllocError> {
    let Nest([front, opening, middle, closing, back], times) = *nest;
    let mut text = Vec::from_slice(alloc, front.as_bytes())?;
    repeat(&mut text, times, opening)?;
    text.extend_from_slice(middle.as_bytes())?;
    repeat(&mut text, times, closing)?;
    text.extend_from_slice(back.as_bytes())?;
    Ok(text)
}

/// The unit of a text; none where it has none.
pub fn parsed(alloc: Global, text: &[u8]) -> Option<Parsed> {
    if text.len() >= 10_000_000 {
        return None;
    }
    let tokens = lex(alloc, text).ok()?;
    parse_unit(alloc, &tokens).ok()
}
