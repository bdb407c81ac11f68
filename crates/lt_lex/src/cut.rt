//! A text is cut into lexemes.

ghost use Rattle.std.specs.Prelude.{◌≡◌, ◌<◌, ◌≤◌, ◌^◌, ◌++◌, if◌then◌else◌, length, map, drop, slice_index, true, IfOk};
ghost use Rattle.std.specs.List.{prefix_len};
ghost use Rattle.std.specs.Char.{is_ascii_digit, is_ascii_hexdigit};
ghost use Rattle.lt_token.specs.Bytes as bytes;
ghost use Rattle.lt_token.specs.Lexemes as spec;
ghost use Rattle.lt_token.specs.Lexemes.{Cuts};
ghost use Rattle.lt_lex.specs.Front.{first_cut};
ghost use Rattle.lt_lex.specs.Views.{lexeme_of, lexemes_of};
ghost use Rattle.lt_token.specs.declared.lexeme.Sort.TheVariants as the_sort;

use crate::part::{
    ends_at, first_digit, is_closed_end, is_closed_string, is_floating_end, is_octal, is_x,
};
use crate::scan::front;
use crate::words::{begins_with_directive, is_integer_suffix};
use lt_token::{Form, Part, Sort};
use std::alloc::{AllocError, Global};

/// A slice of the source, and the place of its first byte.
#[derive(Clone, Copy)]
pub struct Lexeme<'a> {
    pub sort: Sort,
    pub text: &'a [u8],
    pub at: u32,
}

fn byte(text: &[u8], at: usize) -> u8
    ensures { result ≡ slice_index text.now at }
{
    if at < text.len() { text[at] } else { 0 }
}

fn digits_len(text: &[u8]) -> usize
    ensures value { result ≡ prefix_len is_ascii_digit text.now }
    ensures within { result ≤ length text.now }
{
    let mut end = 0;
    while end < text.len() && text[end].is_ascii_digit() {
        end += 1;
    }
    end
}

fn hex_digits_len(text: &[u8]) -> usize
    ensures value { result ≡ prefix_len is_ascii_hexdigit text.now }
    ensures within { result ≤ length text.now }
{
    let mut end = 0;
    while end < text.len() && text[end].is_ascii_hexdigit() {
        end += 1;
    }
    end
}

fn octal_digits_len(text: &[u8]) -> usize
    ensures value { result ≡ prefix_len bytes.is_octal text.now }
    ensures within { result ≤ length text.now }
{
    let mut end = 0;
    while end < text.len() && is_octal(text[end]) {
        end += 1;
    }
    end
}

fn spaces_len(text: &[u8]) -> usize
    ensures value { result ≡ prefix_len bytes.is_space_or_tab text.now }
    ensures within { result ≤ length text.now }
{
    let mut end = 0;
    while end < text.len() && (text[end] == b' ' || text[end] == b'\t') {
        end += 1;
    }
    end
}

#[tactic(auto, unfolding(lt_token::specs::Lexemes::past))]
fn past_digits(text: &[u8]) -> &[u8]
    ensures { result.now ≡ spec.past is_ascii_digit text.now }
{
    text.split_at(digits_len(text)).1
}

#[tactic(auto, unfolding(lt_token::specs::Lexemes::past))]
fn past_hex_digits(text: &[u8]) -> &[u8]
    ensures { result.now ≡ spec.past is_ascii_hexdigit text.now }
{
    text.split_at(hex_digits_len(text)).1
}

#[tactic(auto, unfolding(lt_token::specs::Lexemes::past))]
fn past_octal_digits(text: &[u8]) -> &[u8]
    ensures { result.now ≡ spec.past bytes.is_octal text.now }
{
    text.split_at(octal_digits_len(text)).1
}

#[tactic(auto, unfolding(lt_token::specs::Lexemes::past))]
fn past_spaces(text: &[u8]) -> &[u8]
    ensures { result.now ≡ spec.past bytes.is_space_or_tab text.now }
{
    text.split_at(spaces_len(text)).1
}

/// What is left behind the first bytes.
fn behind(text: &[u8], count: usize) -> &[u8]
    ensures { result.now ≡ drop count text.now }
{
    if count < text.len() {
        text.split_at(count).1
    } else {
        text.split_at(text.len()).1
    }
}

fn is_hexadecimal(word: &[u8]) -> bool
    ensures { result ≡ spec.is_hexadecimal word.now }
{
    byte(word, 0) == b'0' && is_x(byte(word, 1)) && byte(word, 2).is_ascii_hexdigit()
}

fn is_integer(word: &[u8]) -> bool
    ensures { result ≡ spec.is_integer word.now }
{
    if is_hexadecimal(word) {
        is_integer_suffix(past_hex_digits(behind(word, 2)))
    } else if byte(word, 0) == b'0' {
        is_integer_suffix(past_octal_digits(word))
    } else {
        is_integer_suffix(past_digits(word))
    }
}

fn is_floating(word: &[u8]) -> bool
    ensures { result ≡ spec.is_floating word.now }
{
    match word.split_first() {
        None => false,
        Some((first, rest)) => {
            if *first == b'.' {
                is_floating_end(ends_at(Part::Fraction, behind(rest, 1)))
            } else {
                is_floating_end(ends_at(first_digit(*first), rest))
            }
        }
    }
}

fn is_skipped_line(line: &[u8]) -> bool
    ensures { result ≡ spec.is_skipped_line line.now }
{
    let said = past_spaces(behind(line, 1));
    byte(said, 0).is_ascii_digit() || begins_with_directive(said)
}

fn is_closed(comment: &[u8]) -> bool
    ensures { result ≡ spec.is_closed comment.now }
{
    is_closed_end(ends_at(Part::Comment, behind(comment, 2)))
}

fn number_sort(word: &[u8]) -> Sort
    ensures { result ≡ spec.number_sort word.now }
{
    if is_integer(word) {
        Sort::Integer
    } else if is_floating(word) {
        Sort::Foreign
    } else {
        Sort::Malformed
    }
}

fn text_sort(piece: &[u8]) -> Sort
    ensures { result ≡ (if spec.is_closed_text piece.now then the_sort.Text else the_sort.Malformed) }
{
    if is_closed_string(piece) {
        Sort::Text
    } else {
        Sort::Malformed
    }
}

fn unless(skipped: bool) -> Option<Sort>
    ensures { result ≡ (if skipped then None else Some the_sort.Malformed) }
{
    if skipped { None } else { Some(Sort::Malformed) }
}

fn sort_of(form: Form, piece: &[u8]) -> Option<Sort>
    ensures { result ≡ spec.sort_of form piece.now }
{
    match form {
        Form::Word => Some(Sort::Word),
        Form::Number => Some(number_sort(piece)),
        Form::Character => Some(Sort::Character),
        Form::Text => Some(text_sort(piece)),
        Form::Prefixed => Some(Sort::Foreign),
        Form::Punctuator => Some(Sort::Punctuator),
        Form::Blank | Form::LineComment => None,
        Form::BlockComment => unless(is_closed(piece)),
        Form::Marker => unless(is_skipped_line(piece)),
    }
}

/// Whether only spaces and tabs stand before the end of a piece on its line.
pub fn fresh_after(fresh: bool, piece: &[u8]) -> bool
    ensures { result ≡ spec.fresh_after fresh piece.now }
{
    let mut fresh = fresh;
    for b in piece {
        fresh = *b == b'\n' || (fresh && (*b == b' ' || *b == b'\t'));
    }
    fresh
}

/// What is cut off the front of a text, if it doesn't only separate, and how long it is.
pub fn first_cut(fresh: bool, text: &[u8]) -> (Option<Sort>, usize)
    requires { 0 < length text.now }
    ensures value { result ≡ first_cut fresh text.now }
    ensures some { 0 < result.1 }
    ensures within { result.1 ≤ length text.now }
{
    match front(fresh, text) {
        None => (Some(Sort::Malformed), 1),
        Some((form, len)) => (sort_of(form, text.split_at(len).0), len),
    }
}

fn take_piece<'a>(
    lexemes: &mut Vec<Lexeme<'a>>,
    sort: Option<Sort>,
    text: &'a [u8],
    at: u32,
) -> Result<(), AllocError>
    ensures { IfOk result (λ _. map lexeme_of lexemes.new.items ≡ map lexeme_of lexemes.old.items ++ lexemes_of sort text.now at) }
{
    if let Some(sort) = sort {
        lexemes.push(Lexeme { sort, text, at })?;
    }
    Ok(())
}

/// The lexemes of a text. They fail for want of memory alone.
pub fn cut<'a>(alloc: Global, text: &'a [u8]) -> Result<Vec<Lexeme<'a>>, AllocError>
    requires { length text.now < 2 ^ 32 }
    ensures { IfOk result (λ lexemes. Cuts true 0 text.now (map lexeme_of lexemes.items)) }
{
    let mut lexemes = Vec::new(alloc);
    let mut rest = text;
    let mut fresh = true;
    while !rest.is_empty() {
        let at = (text.len() - rest.len()) as u32;
        let (sort, len) = first_cut(fresh, rest);
        let (piece, after) = rest.split_at(len);
        take_piece(&mut lexemes, sort, piece, at)?;
        fresh = fresh_after(fresh, piece);
        rest = after;
    }
    Ok(lexemes)
}
