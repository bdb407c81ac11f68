// Integer and character constants, C11 6.4.4.1 and 6.4.4.4.

ghost use Rattle.std.specs.Prelude.{◌≡◌, ◌≤◌, ◌+◌, ◌^◌, ◌-◌, min, nat_le, pos, ◌&&◌, option_map, count_by, Some};
ghost use Rattle.std.specs.List.{list_any};
ghost use Rattle.lt_model.specs.Conversions.{rank_of};
ghost use Rattle.lt_model.specs.Operators.{is_value};
ghost use Rattle.lt_tree.specs.Constants as texts;
ghost use Rattle.lt_tree.specs.Typing.Constants as typing;
ghost use Rattle.lt_table.specs.ConstantViews.{constant_in};

use lt_model::{DataModel, Scalar, convert, is_signed, is_value};
use lt_tree::{escape, hex_value};

/// A type and a value of it.
#[derive(Clone, Copy, PartialEq, Eq, Debug)]
pub struct TypedConstant {
    pub ty: Scalar,
    pub value: i128,
}

/// One more than the greatest value of any type.
const BEYOND: u128 = 18_446_744_073_709_551_616;

/// The types that a constant may have, C11 6.4.4.1p5.
const TYPES: [Scalar; 6] = [
    Scalar::Int,
    Scalar::UInt,
    Scalar::Long,
    Scalar::ULong,
    Scalar::LLong,
    Scalar::ULLong,
];

fn digit(b: u8) -> u128
    ensures value { result ≡ texts.digit b }
    ensures small { result ≤ 16 }
{
    match hex_value(b) {
        None => 16,
        Some(value) => u128::from(value),
    }
}

// The number that digits of a base make, or `BEYOND` if it is greater, and the bytes behind them.
fn number_from(base: u128, text: &[u8]) -> (u128, &[u8])
    requires least { 1 ≤ base }
    requires most { base ≤ 16 }
    ensures value { result.0 ≡ min (texts.number_from base 0 text.now).0 (2 ^ 64) }
    ensures rest { result.1.now ≡ (texts.number_from base 0 text.now).1 }
{
    let mut value = 0;
    let mut rest = text;
    'digits: while let Some((b, behind)) = rest.split_first() {
        let d = digit(*b);
        if d >= base {
            break;
        }
        value = (base * value + d).min(BEYOND);
        rest = behind;
    }
    (value, rest)
}

fn number_behind_zero(text: &[u8]) -> (u128, &[u8])
    ensures value { result.0 ≡ min (texts.number_behind_zero text.now).0 (2 ^ 64) }
    ensures rest { result.1.now ≡ (texts.number_behind_zero text.now).1 }
{
    match text.split_first() {
        None => (0, text),
        Some((b, rest)) => {
            if *b == b'x' || *b == b'X' {
                number_from(16, rest)
            } else {
                number_from(8, text)
            }
        }
    }
}

/// The value of an integer constant, or 2 ^ 64 if it is greater, and the bytes behind its digits.
pub fn integer_parts(text: &[u8]) -> (u128, &[u8])
    ensures value { result.0 ≡ min (texts.integer_parts text.now).0 (2 ^ 64) }
    ensures rest { result.1.now ≡ (texts.integer_parts text.now).1 }
{
    match text.split_first() {
        None => (0, text),
        Some((b, rest)) => {
            if *b == b'0' {
                number_behind_zero(rest)
            } else {
                number_from(10, text)
            }
        }
    }
}

fn is_unsigned_mark(b: u8) -> bool
    ensures { result ≡ typing.is_unsigned_mark b }
{
    b == b'u' || b == b'U'
}

fn is_long_mark(b: u8) -> bool
    ensures { result ≡ typing.is_long_mark b }
{
    b == b'l' || b == b'L'
}

/// Whether these are letters of a suffix.
pub fn is_suffix(text: &[u8]) -> bool
    ensures { result ≡ texts.is_suffix text.now }
{
    text.iter()
        .all(|b| is_unsigned_mark(*b) || is_long_mark(*b))
}

fn has_unsigned_mark(suffix: &[u8]) -> bool
    ensures { result ≡ list_any typing.is_unsigned_mark suffix.now }
{
    suffix.iter().any(|b| is_unsigned_mark(*b))
}

fn long_marks(suffix: &[u8]) -> usize
    ensures { result ≡ count_by typing.is_long_mark suffix.now }
{
    suffix.iter().filter(|b| is_long_mark(**b)).count()
}

// Whether a type is as long as so many `long` before `int`, or longer.
fn is_as_long(ty: Scalar, longs: usize) -> bool
    ensures { result ≡ nat_le (3 + longs) (rank_of ty) }
{
    match ty {
        Scalar::Int | Scalar::UInt => longs == 0,
        Scalar::Long | Scalar::ULong => longs <= 1,
        Scalar::LLong | Scalar::ULLong => longs <= 2,
        _ => false,
    }
}

// Whether a constant with this suffix may have a type.
fn is_listed(model: DataModel, decimal: bool, suffix: &[u8], ty: Scalar) -> bool
    ensures { result ≡ typing.is_listed model decimal suffix.now ty }
{
    let unsigned = has_unsigned_mark(suffix);
    if !is_as_long(ty, long_marks(suffix)) {
        return false;
    }
    if is_signed(model, ty) {
        !unsigned
    } else {
        unsigned || !decimal
    }
}

// Whether a constant with this suffix and this value may have a type.
fn may_have(model: DataModel, decimal: bool, suffix: &[u8], value: u128, ty: Scalar) -> bool
    requires { value ≤ 2 ^ 64 }
    ensures { result ≡ (typing.is_listed model decimal suffix.now ty && is_value model ty (pos value)) }
{
    is_listed(model, decimal, suffix, ty) && is_value(model, ty, value as i128)
}

// The first of these types that a constant may have and that has its value.
fn first_that_has(
    model: DataModel,
    decimal: bool,
    suffix: &[u8],
    value: u128,
    types: &[Scalar],
) -> Option<Scalar>
    requires { value ≤ 2 ^ 64 }
    ensures { result ≡ typing.first_that_has model decimal suffix.now (pos value) types.now }
{
    for ty in types {
        if may_have(model, decimal, suffix, value, *ty) {
            return Some(*ty);
        }
    }
    None
}

fn before_quote(b: u8, rest: &[u8]) -> Option<u8>
    ensures { result ≡ texts.before_quote (Some (b, rest.now)) }
{
    if rest == b"'".as_slice() {
        Some(b)
    } else {
        None
    }
}

/// The byte of a character constant, behind its opening quote.
pub fn character_byte(text: &[u8]) -> Option<u8>
    ensures { result ≡ texts.character_byte text.now }
{
    match text.split_first() {
        None => None,
        Some((b, rest)) => {
            if *b == b'\\' {
                match escape(rest) {
                    None => None,
                    Some((value, behind)) => before_quote(value, behind),
                }
            } else if *b == b'\'' || *b == b'\n' {
                None
            } else {
                before_quote(*b, rest)
            }
        }
    }
}

fn is_decimal(text: &[u8]) -> bool
    ensures { result ≡ typing.is_decimal text.now }
{
    match text.split_first() {
        None => false,
        Some((b, _)) => *b != b'0',
    }
}

// A constant with this value, if a type has it.
fn typed(model: DataModel, decimal: bool, value: u128, suffix: &[u8]) -> Option<TypedConstant>
    requires { value ≤ 2 ^ 64 }
    ensures { option_map constant_in result ≡ typing.integer_of model decimal (value, suffix.now) }
{
    if !is_suffix(suffix) {
        return None;
    }
    match first_that_has(model, decimal, suffix, value, &TYPES) {
        None => None,
        Some(ty) => Some(TypedConstant {
            ty,
            value: value as i128,
        }),
    }
}

fn integer_of(model: DataModel, text: &[u8]) -> Option<TypedConstant>
    ensures { option_map constant_in result ≡ typing.integer_of model (typing.is_decimal text.now) (texts.integer_parts text.now) }
{
    let (value, suffix) = integer_parts(text);
    typed(model, is_decimal(text), value, suffix)
}

// The value of a character, as a plain `char` has it.
fn char_value(model: DataModel, c: u8) -> i128
    ensures { result ≡ typing.char_value model c }
{
    convert(model, Scalar::UChar, Scalar::Char, i128::from(c))
}

/// The type and the value of an integer or character constant, as written; none where it fits no type of its list.
pub fn constant_of(model: DataModel, text: &[u8]) -> Option<TypedConstant>
    ensures { option_map constant_in result ≡ typing.constant_of model text.now }
{
    match text.split_first() {
        None => None,
        Some((b, rest)) => {
            if *b == b'\'' {
                match character_byte(rest) {
                    None => None,
                    Some(c) => Some(TypedConstant {
                        ty: Scalar::Int,
                        value: char_value(model, c),
                    }),
                }
            } else {
                integer_of(model, text)
            }
        }
    }
}
