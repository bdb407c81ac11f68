// The value of string literals, C11 6.4.5.

ghost use Rattle.std.specs.Prelude.{◌≡◌, length, option_map};
ghost use Rattle.lt_tree.specs.Strings as strings;
ghost use Rattle.lt_expr.specs.Parsing.{Reads};
ghost use Rattle.lt_expr.specs.Literals as spec;
ghost use Rattle.lt_expr.specs.Texts as texts;

use lt_model::Name;
use lt_tree::{Stop, escape};
use std::alloc::Global;

// Whether a byte stands for itself.
fn is_plain(byte: u8) -> bool
    ensures { result ≡ strings.is_plain byte }
{
    byte != b'"' && byte != b'\\' && byte != b'\n'
}

// The byte that is spelled here, and the bytes behind what spells it.
fn character(byte: u8, behind: &[u8]) -> Option<(u8, &[u8])>
    ensures { option_map (λ x. (x.0, x.1.now)) result ≡ texts.character byte behind.now }
{
    if is_plain(byte) {
        Some((byte, behind))
    } else if byte == b'\\' {
        escape(behind)
    } else {
        None
    }
}

// What the bytes behind an opening quote spell.
fn value_behind_quote(alloc: Global, bytes: &[u8]) -> Result<Vec<u8>, Stop>
    ensures { Reads (λ value. value.items) result (spec.value_within (length bytes.now) bytes.now) }
{
    let mut value = Vec::new(alloc);
    let mut rest = bytes;
    'bytes: for _turn in 0..bytes.len() {
        let Some((byte, behind)) = rest.split_first() else {
            return Err(Stop::NotOfForm);
        };
        if *byte == b'"' {
            return if behind.is_empty() {
                Ok(value)
            } else {
                Err(Stop::NotOfForm)
            };
        }
        let Some((spelled, after)) = character(*byte, behind) else {
            return Err(Stop::NotOfForm);
        };
        value.push(spelled)?;
        rest = after;
    }
    Err(Stop::NotOfForm)
}

/// The bytes that a literal spells, as it is written with its quotes.
pub(crate) fn value_of(alloc: Global, text: &[u8]) -> Result<Vec<u8>, Stop>
    ensures { Reads (λ value. value.items) result (spec.value_of text.now) }
{
    let Some((byte, behind)) = text.split_first() else {
        return Err(Stop::NotOfForm);
    };
    if *byte == b'"' {
        value_behind_quote(alloc, behind)
    } else {
        Err(Stop::NotOfForm)
    }
}
