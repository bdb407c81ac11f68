//! The piece at the front of a text.

ghost use Rattle.std.specs.Prelude.{◌≡◌, ◌<◌, ◌≤◌, ◌+◌, ◌^◌, length, IfSome, drop};
ghost use Rattle.std.specs.List.{prefix_len};
ghost use Rattle.lt_token.specs.Bytes.{is_word_byte, is_blank, is_in_line};
ghost use Rattle.lt_lex.specs.Front as spec;
ghost use Rattle.lt_token.specs.declared.piece.Part.TheVariants as the_part;
ghost use Rattle.std.specs.Prelude.{None};

use crate::part::{
    after, class_of, first_digit, is_blank, is_closed_string, is_whole, is_word_byte,
};
use crate::words::{is_literal_prefix, punctuator_len};
use lt_token::{Class, Form, Part};

fn word_len(text: &[u8]) -> usize
    ensures value { result ≡ prefix_len is_word_byte text.now }
    ensures within { result ≤ length text.now }
{
    let mut end = 0;
    while end < text.len() && is_word_byte(text[end]) {
        end += 1;
    }
    end
}

fn blank_len(text: &[u8]) -> usize
    ensures value { result ≡ prefix_len is_blank text.now }
    ensures within { result ≤ length text.now }
{
    let mut end = 0;
    while end < text.len() && is_blank(text[end]) {
        end += 1;
    }
    end
}

fn line_len(text: &[u8]) -> usize
    ensures value { result ≡ prefix_len is_in_line text.now }
    ensures within { result ≤ length text.now }
{
    let mut end = 0;
    while end < text.len() && text[end] != b'\n' {
        end += 1;
    }
    end
}

fn latest(part: Part, at: usize, best: Option<usize>) -> Option<usize>
    ensures { result ≡ spec.latest part at best }
{
    if is_whole(part) { Some(at) } else { best }
}

/// The last place where what the text goes on with may end, for a text that begins at a place.
fn reach(start: Part, from: usize, text: &[u8]) -> Option<usize>
    requires { from + length text.now < 2 ^ 64 }
    ensures value { result ≡ spec.reach start from None text.now }
    ensures within { IfSome result (λ end. end ≤ from + length text.now) }
{
    let mut part = start;
    let mut best = None;
    for (at, b) in text.iter().enumerate() {
        best = latest(part, from + at, best);
        part = after(part, *b);
        if let Part::Nothing = part {
            return best;
        }
    }
    latest(part, from + text.len(), best)
}

fn punctuator(text: &[u8]) -> Option<(Form, usize)>
    ensures { result ≡ spec.punctuator text.now }
{
    let len = punctuator_len(text);
    if len == 0 {
        None
    } else {
        Some((Form::Punctuator, len))
    }
}

fn closed_len(len: Option<usize>, text: &[u8]) -> Option<usize>
    requires { IfSome len (λ n. n ≤ length text.now) }
    ensures value { result ≡ spec.closed_len len text.now }
    ensures within { IfSome result (λ n. n ≤ length text.now) }
{
    let len = len?;
    if is_closed_string(text.split_at(len).0) {
        Some(len)
    } else {
        None
    }
}

fn literal_len(text: &[u8]) -> Option<usize>
    ensures value { result ≡ spec.literal_len text.now }
    ensures within { IfSome result (λ len. len ≤ length text.now) }
{
    let (first, rest) = text.split_first()?;
    if *first == b'"' {
        closed_len(reach(Part::Text, 1, rest), text)
    } else if *first == b'\'' {
        reach(Part::Character, 1, rest)
    } else {
        None
    }
}

/// A word, or a literal with a prefix.
fn word(text: &[u8]) -> (Form, usize)
    ensures { result ≡ spec.word (prefix_len is_word_byte text.now) text.now }
{
    let (word, rest) = text.split_at(word_len(text));
    if is_literal_prefix(word) {
        match literal_len(rest) {
            None => (Form::Word, word.len()),
            Some(len) => (Form::Prefixed, word.len() + len),
        }
    } else {
        (Form::Word, word.len())
    }
}

fn dot(text: &[u8]) -> Option<(Form, usize)>
    requires { 0 < length text.now }
    ensures { result ≡ spec.dot (drop 1 text.now) text.now }
{
    match text {
        [_, digit, rest @ ..] => {
            if digit.is_ascii_digit() {
                Some((Form::Number, reach(Part::Fraction, 2, rest)?))
            } else {
                punctuator(text)
            }
        }
        _ => punctuator(text),
    }
}

fn slash(text: &[u8]) -> Option<(Form, usize)>
    requires { 0 < length text.now }
    ensures { result ≡ spec.slash (drop 1 text.now) text.now }
{
    match text {
        [_, b'/', rest @ ..] => Some((Form::LineComment, 2 + line_len(rest))),
        [_, b'*', rest @ ..] => Some((Form::BlockComment, reach(Part::Comment, 2, rest)?)),
        _ => punctuator(text),
    }
}

/// The longest piece that begins the text, and its length.
#[tactic(auto, unfolding(crate::specs::Front::front))]
pub fn front(fresh: bool, text: &[u8]) -> Option<(Form, usize)>
    ensures { result ≡ spec.front fresh text.now }
{
    let (first, rest) = text.split_first()?;
    match class_of(*first) {
        Class::Letter => Some(word(text)),
        Class::Digit => Some((Form::Number, reach(first_digit(*first), 1, rest)?)),
        Class::Dot => dot(text),
        Class::Blank => Some((Form::Blank, 1 + blank_len(rest))),
        Class::Quote => Some((Form::Text, reach(Part::Text, 1, rest)?)),
        Class::Apostrophe => Some((Form::Character, reach(Part::Character, 1, rest)?)),
        Class::Hash => {
            if fresh {
                Some((Form::Marker, 1 + line_len(rest)))
            } else {
                None
            }
        }
        Class::Slash => slash(text),
        Class::Sign => punctuator(text),
    }
}
