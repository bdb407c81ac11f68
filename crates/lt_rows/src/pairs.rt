//! Two texts with a line between them.

use crate::stop::Stop;

const BETWEEN: &[u8] = b"---\n";

/// The text before the line, and the one behind it.
pub fn pair(text: &[u8]) -> Result<(&[u8], &[u8]), Stop> {
    for end in 0..text.len() {
        let (front, rest) = text.split_at(end);
        if let Some(back) = rest.strip_prefix(BETWEEN) {
            return Ok((front, back));
        }
    }
    Err(Stop::OneText)
}

/// The text before the first place of a line, and the one behind it, if there is one.
pub fn cut<'a>(text: &'a [u8], line: &[u8]) -> (&'a [u8], Option<&'a [u8]>) {
    for end in 0..text.len() {
        let (front, rest) = text.split_at(end);
        if let Some(back) = rest.strip_prefix(line) {
            return (front, Some(back));
        }
    }
    (text, None)
}
