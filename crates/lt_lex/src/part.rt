//! From part to part of a literal, a comment or a constant.

ghost use Rattle.std.specs.Prelude.{◌≡◌, if◌then◌else◌};
ghost use Rattle.lt_token.specs.Bytes as bytes;
ghost use Rattle.lt_token.specs.Lexemes.{is_closed_text};
ghost use Rattle.lt_token.specs.Parts as spec;
ghost use Rattle.lt_token.specs.declared.piece.Part.TheVariants as the_part;

use lt_token::{Class, Part};

pub fn class_of(b: u8) -> Class
    ensures { result ≡ bytes.class_of b }
{
    match b {
        b'a'..=b'z' | b'A'..=b'Z' | b'_' => Class::Letter,
        b'0'..=b'9' => Class::Digit,
        b'.' => Class::Dot,
        b' ' | 9..=13 => Class::Blank,
        b'"' => Class::Quote,
        b'\'' => Class::Apostrophe,
        b'#' => Class::Hash,
        b'/' => Class::Slash,
        _ => Class::Sign,
    }
}

pub fn is_word_byte(b: u8) -> bool
    ensures { result ≡ bytes.is_word_byte b }
{
    matches!(class_of(b), Class::Letter | Class::Digit)
}

pub fn is_blank(b: u8) -> bool
    ensures { result ≡ bytes.is_blank b }
{
    matches!(class_of(b), Class::Blank)
}

pub fn is_octal(b: u8) -> bool
    ensures { result ≡ bytes.is_octal b }
{
    matches!(b, b'0'..=b'7')
}

fn is_simple_escape(b: u8) -> bool
    ensures { result ≡ bytes.is_simple_escape b }
{
    matches!(
        b,
        b'\'' | b'"' | b'?' | b'\\' | b'a' | b'b' | b'f' | b'n' | b'r' | b't' | b'v'
    )
}

fn is_e(b: u8) -> bool
    ensures { result ≡ spec.is_e b }
{
    b == b'e' || b == b'E'
}

fn is_p(b: u8) -> bool
    ensures { result ≡ spec.is_p b }
{
    b == b'p' || b == b'P'
}

pub fn is_x(b: u8) -> bool
    ensures { result ≡ spec.is_x b }
{
    b == b'x' || b == b'X'
}

fn is_sign(b: u8) -> bool
    ensures { result ≡ spec.is_sign b }
{
    b == b'+' || b == b'-'
}

fn is_floating_suffix(b: u8) -> bool
    ensures { result ≡ spec.is_floating_suffix b }
{
    b == b'f' || b == b'F' || b == b'l' || b == b'L'
}

fn tail(b: u8) -> Part
    ensures { result ≡ spec.tail b }
{
    if is_word_byte(b) {
        Part::Tail
    } else {
        Part::Nothing
    }
}

fn after_text(b: u8) -> Part
    ensures { result ≡ spec.after the_part.Text b }
{
    match b {
        b'"' => Part::Closed,
        b'\n' => Part::Nothing,
        b'\\' => Part::TextEscape,
        _ => Part::Text,
    }
}

fn after_text_escape(b: u8) -> Part
    ensures { result ≡ spec.after the_part.TextEscape b }
{
    if b == b'x' {
        Part::TextHex
    } else if is_simple_escape(b) || is_octal(b) {
        Part::Text
    } else {
        Part::Nothing
    }
}

fn after_character(b: u8) -> Part
    ensures { result ≡ spec.after the_part.Character b }
{
    if b == b'\'' || b == b'\n' {
        Part::Nothing
    } else if b == b'\\' {
        Part::CharacterEscape
    } else {
        Part::Single
    }
}

fn after_character_escape(b: u8) -> Part
    ensures { result ≡ spec.after the_part.CharacterEscape b }
{
    if b == b'x' {
        Part::CharacterHex
    } else if is_octal(b) {
        Part::OctalOne
    } else if is_simple_escape(b) {
        Part::Single
    } else {
        Part::Nothing
    }
}

fn after_single(b: u8) -> Part
    ensures { result ≡ spec.after the_part.Single b }
{
    if b == b'\'' {
        Part::Closed
    } else {
        Part::Nothing
    }
}

fn after_comment(b: u8) -> Part
    ensures { result ≡ spec.after the_part.Comment b }
{
    if b == b'*' { Part::Star } else { Part::Comment }
}

fn after_star(b: u8) -> Part
    ensures { result ≡ spec.after the_part.Star b }
{
    match b {
        b'/' => Part::Closed,
        b'*' => Part::Star,
        _ => Part::Comment,
    }
}

fn after_zero(b: u8) -> Part
    ensures { result ≡ spec.after the_part.Zero b }
{
    if b.is_ascii_digit() {
        Part::Digits
    } else if b == b'.' {
        Part::Fraction
    } else if is_e(b) {
        Part::Exponent
    } else if is_x(b) {
        Part::HexPrefix
    } else {
        tail(b)
    }
}

fn after_digits(b: u8) -> Part
    ensures { result ≡ spec.after the_part.Digits b }
{
    if b.is_ascii_digit() {
        Part::Digits
    } else if b == b'.' {
        Part::Fraction
    } else if is_e(b) {
        Part::Exponent
    } else {
        tail(b)
    }
}

fn after_fraction(b: u8) -> Part
    ensures { result ≡ spec.after the_part.Fraction b }
{
    if b.is_ascii_digit() {
        Part::Fraction
    } else if is_e(b) {
        Part::Exponent
    } else if is_floating_suffix(b) {
        Part::Suffix
    } else {
        tail(b)
    }
}

fn after_exponent(b: u8) -> Part
    ensures { result ≡ spec.after the_part.Exponent b }
{
    if b.is_ascii_digit() {
        Part::ExponentDigits
    } else if is_sign(b) {
        Part::ExponentSign
    } else {
        tail(b)
    }
}

fn after_exponent_digits(b: u8) -> Part
    ensures { result ≡ spec.after the_part.ExponentDigits b }
{
    if b.is_ascii_digit() {
        Part::ExponentDigits
    } else if is_floating_suffix(b) {
        Part::Suffix
    } else {
        tail(b)
    }
}

fn after_hex_prefix(b: u8) -> Part
    ensures { result ≡ spec.after the_part.HexPrefix b }
{
    if b.is_ascii_hexdigit() {
        Part::Hex
    } else if b == b'.' {
        Part::HexPoint
    } else {
        tail(b)
    }
}

fn after_hex(b: u8) -> Part
    ensures { result ≡ spec.after the_part.Hex b }
{
    if b.is_ascii_hexdigit() {
        Part::Hex
    } else if b == b'.' {
        Part::HexFraction
    } else if is_p(b) {
        Part::Exponent
    } else {
        tail(b)
    }
}

fn after_hex_fraction(b: u8) -> Part
    ensures { result ≡ spec.after the_part.HexFraction b }
{
    if b.is_ascii_hexdigit() {
        Part::HexFraction
    } else if is_p(b) {
        Part::HexExponent
    } else {
        Part::Nothing
    }
}

fn after_hex_exponent(b: u8) -> Part
    ensures { result ≡ spec.after the_part.HexExponent b }
{
    if b.is_ascii_digit() {
        Part::ExponentDigits
    } else if is_sign(b) {
        Part::ExponentSign
    } else {
        Part::Nothing
    }
}

/// The part where the test holds, and else what the last quote of a character constant leads to.
fn unless_single(passes: bool, part: Part, b: u8) -> Part
    ensures { result ≡ (if passes then part else spec.after the_part.Single b) }
{
    if passes { part } else { after_single(b) }
}

fn when(passes: bool, part: Part) -> Part
    ensures { result ≡ (if passes then part else the_part.Nothing) }
{
    if passes { part } else { Part::Nothing }
}

pub fn after(part: Part, b: u8) -> Part
    ensures { result ≡ spec.after part b }
{
    match part {
        Part::Text => after_text(b),
        Part::TextEscape => after_text_escape(b),
        Part::TextHex => when(b.is_ascii_hexdigit(), Part::Text),
        Part::Character => after_character(b),
        Part::CharacterEscape => after_character_escape(b),
        Part::CharacterHex => when(b.is_ascii_hexdigit(), Part::CharacterHexOne),
        Part::CharacterHexOne => unless_single(b.is_ascii_hexdigit(), Part::Single, b),
        Part::OctalOne => unless_single(is_octal(b), Part::OctalTwo, b),
        Part::OctalTwo => unless_single(is_octal(b), Part::Single, b),
        Part::Single => after_single(b),
        Part::Comment => after_comment(b),
        Part::Star => after_star(b),
        Part::Zero => after_zero(b),
        Part::Digits => after_digits(b),
        Part::Fraction => after_fraction(b),
        Part::Exponent => after_exponent(b),
        Part::ExponentSign => when(b.is_ascii_digit(), Part::ExponentDigits),
        Part::ExponentDigits => after_exponent_digits(b),
        Part::HexPrefix => after_hex_prefix(b),
        Part::Hex => after_hex(b),
        Part::HexPoint => when(b.is_ascii_hexdigit(), Part::HexFraction),
        Part::HexFraction => after_hex_fraction(b),
        Part::HexExponent => after_hex_exponent(b),
        Part::Suffix | Part::Tail => tail(b),
        Part::Closed | Part::Nothing => Part::Nothing,
    }
}

pub fn is_whole(part: Part) -> bool
    ensures { result ≡ spec.is_whole part }
{
    matches!(
        part,
        Part::Closed
            | Part::Text
            | Part::Comment
            | Part::Star
            | Part::Zero
            | Part::Digits
            | Part::Fraction
            | Part::Exponent
            | Part::ExponentDigits
            | Part::Suffix
            | Part::HexPrefix
            | Part::Hex
            | Part::Tail
    )
}

pub fn first_digit(b: u8) -> Part
    ensures { result ≡ spec.first_digit b }
{
    if b == b'0' { Part::Zero } else { Part::Digits }
}

/// The part that the bytes lead to.
pub fn ends_at(start: Part, text: &[u8]) -> Part
    ensures { result ≡ spec.ends_at start text.now }
{
    let mut part = start;
    for b in text {
        part = after(part, *b);
    }
    part
}

pub fn is_floating_end(part: Part) -> bool
    ensures { result ≡ spec.is_floating_end part }
{
    matches!(part, Part::Fraction | Part::ExponentDigits | Part::Suffix)
}

pub fn is_closed_end(part: Part) -> bool
    ensures { result ≡ spec.is_closed_end part }
{
    matches!(part, Part::Closed)
}

/// Whether the string ends with a quote that closes it.
pub fn is_closed_string(text: &[u8]) -> bool
    ensures { result ≡ is_closed_text text.now }
{
    match text.split_first() {
        None => false,
        Some((_, rest)) => is_closed_end(ends_at(Part::Text, rest)),
    }
}
