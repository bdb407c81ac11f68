// The ids and tags of marks.

ghost use Rattle.std.specs.Prelude.{◌≡◌, Some};
ghost use Rattle.std.specs.List.{list_all};
ghost use Rattle.lt_model.specs.Plain as plain;
ghost use Rattle.lt_tree.specs.Constants as texts;
ghost use Rattle.lt_tree.specs.Typing.MarkRules as marks;

use crate::constants::literals::{character_byte, integer_parts, is_suffix};

/// The greatest id that a label can have at all.
const GREATEST_ID: i128 = 2_147_483_647;

fn id_from(value: i128) -> Option<u32>
    ensures { result ≡ marks.id_from (Some value) }
{
    if 1 <= value && value <= GREATEST_ID {
        Some(value as u32)
    } else {
        None
    }
}

// A byte as a `signed char`.
fn signed_byte(b: u8) -> i128
    ensures { result ≡ texts.signed_byte b }
{
    if b < 128 {
        i128::from(b)
    } else {
        i128::from(b) - 256
    }
}

/// The number that an id says, if it may be one. A character is read as signed, whatever plain `char` is.
pub fn id_of(text: &[u8]) -> Option<u32>
    ensures { result ≡ marks.id_of text.now }
{
    match text.split_first() {
        None => None,
        Some((b, rest)) => {
            if *b == b'\'' {
                match character_byte(rest) {
                    None => None,
                    Some(b) => id_from(signed_byte(b)),
                }
            } else {
                let (value, suffix) = integer_parts(text);
                if is_suffix(suffix) {
                    id_from(value as i128)
                } else {
                    None
                }
            }
        }
    }
}

fn is_plain_byte(b: u8) -> bool
    ensures { result ≡ plain.is_plain_byte b }
{
    b.is_ascii_alphanumeric() || b == b'_' || b == b'.' || b == b':' || b == b'-'
}

fn is_plain(tag: &[u8]) -> bool
    ensures { result ≡ list_all plain.is_plain_byte tag.now }
{
    tag.iter().all(|b| is_plain_byte(*b))
}

/// Whether it is 1 to 32 letters, digits, low lines, full stops, colons and hyphens.
pub fn is_tag(tag: &[u8]) -> bool
    ensures { result ≡ marks.is_tag tag.now }
{
    1 <= tag.len() && tag.len() <= 32 && is_plain(tag)
}
