// The values of the ids of marks; `specs/Constants.antt` has the values of constants.

ghost use Rattle.std.specs.Prelude.{◌≡◌, ◌≤◌, ◌^◌, min, option_map, Some};
ghost use Rattle.lt_tree.specs.Constants as constants;
ghost use Rattle.lt_tree.specs.Ids.{within};

use crate::escapes::{escape, hex_value};

/// One more than the greatest id.
const BEYOND: u64 = 2_147_483_648;

fn digit(b: u8) -> u64
    ensures value { result ≡ constants.digit b }
    ensures small { result ≤ 16 }
{
    match hex_value(b) {
        None => 16,
        Some(value) => u64::from(value),
    }
}

/// The number that digits of a base make, or `BEYOND` if it is greater, and the bytes behind them.
fn number_from(base: u64, text: &[u8]) -> (u64, &[u8])
    requires least { 1 ≤ base }
    requires most { base ≤ 16 }
    ensures value { result.0 ≡ min (constants.number_from base 0 text.now).0 (2 ^ 31) }
    ensures rest { result.1.now ≡ (constants.number_from base 0 text.now).1 }
{
    let mut value = 0;
    let mut rest = text;
    'digits: while let Some((b, behind)) = rest.split_first() {
        let d = digit(*b);
        if d >= base {
            break;
        }
        value = (base * value + d).min(BEYOND);
        rest = behind;
    }
    (value, rest)
}

fn number_behind_zero(text: &[u8]) -> (u64, &[u8])
    ensures value { result.0 ≡ min (constants.number_behind_zero text.now).0 (2 ^ 31) }
    ensures rest { result.1.now ≡ (constants.number_behind_zero text.now).1 }
{
    match text.split_first() {
        None => (0, text),
        Some((b, rest)) => {
            if *b == b'x' || *b == b'X' {
                number_from(16, rest)
            } else {
                number_from(8, text)
            }
        }
    }
}

fn integer_parts(text: &[u8]) -> (u64, &[u8])
    ensures value { result.0 ≡ min (constants.integer_parts text.now).0 (2 ^ 31) }
    ensures rest { result.1.now ≡ (constants.integer_parts text.now).1 }
{
    match text.split_first() {
        None => (0, text),
        Some((b, rest)) => {
            if *b == b'0' {
                number_behind_zero(rest)
            } else {
                number_from(10, text)
            }
        }
    }
}

fn is_suffix_byte(b: u8) -> bool
    ensures { result ≡ constants.is_suffix_byte b }
{
    b == b'u' || b == b'U' || b == b'l' || b == b'L'
}

fn is_suffix(text: &[u8]) -> bool
    ensures { result ≡ constants.is_suffix text.now }
{
    text.iter().all(|b| is_suffix_byte(*b))
}

fn integer_id(text: &[u8]) -> u32
    ensures { result ≡ within (constants.integer_value text.now) }
{
    let (value, suffix) = integer_parts(text);
    if is_suffix(suffix) && value < BEYOND {
        value as u32
    } else {
        0
    }
}

fn id_before_quote(b: u8, rest: &[u8]) -> u32
    ensures { result ≡ within (option_map constants.signed_byte (constants.before_quote (Some (b, rest.now)))) }
{
    if rest == b"'".as_slice() && b < 128 {
        u32::from(b)
    } else {
        0
    }
}

fn character_id(text: &[u8]) -> u32
    ensures { result ≡ within (option_map constants.signed_byte (constants.character_byte text.now)) }
{
    match text.split_first() {
        None => 0,
        Some((b, rest)) => {
            if *b == b'\\' {
                match escape(rest) {
                    None => 0,
                    Some((value, behind)) => id_before_quote(value, behind),
                }
            } else if *b == b'\'' || *b == b'\n' {
                0
            } else {
                id_before_quote(*b, rest)
            }
        }
    }
}

/// The value of an id as written, if it is from 1 to 2,147,483,647, else 0.
pub fn id_number(text: &[u8]) -> u32
    ensures { result ≡ within (constants.value_of text.now) }
{
    match text.split_first() {
        None => 0,
        Some((b, rest)) => {
            if *b == b'\'' {
                character_id(rest)
            } else {
                integer_id(text)
            }
        }
    }
}
