ghost use Rattle.std.specs.Prelude.{◌≡◌, ◌||◌, ◌==◌, IfOk, option_map, map, codes};
ghost use Rattle.std.specs.List.{list_all};
ghost use Rattle.lt_entry.specs.Written.{is_name_byte, is_name, is_object_name, is_one, is_single};
ghost use Rattle.lt_entry.specs.Views.{step_view, place_view, target_view};
ghost use Rattle.lt_entry.specs.Reading.{begins_step, pieces, read_step, read_closed, read_place, read_single, read_target, read_single_target};

use crate::number::{Numeral, numeral_of};
use crate::words::is_word;
use std::alloc::{AllocError, Global};

/// What leads from an object to a part of it.
#[derive(Clone, Copy)]
pub enum Step<'a> {
    Index(Numeral),
    /// `[*]`, every element.
    Each,
    Member(&'a [u8]),
}

/// A name and steps.
#[derive(Drop)]
pub struct PlaceWord<'a> {
    pub name: &'a [u8],
    pub steps: Vec<Step<'a>>,
}

/// What a pointer may point to.
#[derive(Drop)]
pub enum TargetWord<'a> {
    Null,
    Place(PlaceWord<'a>),
}

fn is_name_byte(b: u8) -> bool
    ensures { result ≡ is_name_byte b }
{
    b.is_ascii_alphanumeric() || b == b'_'
}

/// Whether all bytes are letters, digits or low lines.
pub fn are_name_bytes(bytes: &[u8]) -> bool
    ensures { result ≡ list_all is_name_byte bytes.now }
{
    bytes.iter().all(|b| is_name_byte(*b))
}

/// Whether the word is of the form of an identifier, C11 6.4.2.1.
pub fn is_name(word: &[u8]) -> bool
    ensures { result ≡ is_name word.now }
{
    match word.split_first() {
        Some((first, _)) => !first.is_ascii_digit() && are_name_bytes(word),
        None => false,
    }
}

// Whether the word is a name or that of a default block.
fn is_object_name(word: &[u8]) -> bool
    ensures { result ≡ is_object_name word.now }
{
    match word.split_first() {
        Some((first, rest)) => is_name(if *first == b'@' { rest } else { word }),
        None => false,
    }
}

fn begins_step(b: u8) -> bool
    ensures { result ≡ begins_step b }
{
    b == b'[' || b == b'.'
}

// The word, cut in front of each step.
fn pieces_of<'a>(alloc: Global, word: &'a [u8]) -> Result<Vec<&'a [u8]>, AllocError>
    ensures { IfOk result (λ v. map (λ piece. piece.now) v.items ≡ pieces word.now) }
{
    let mut pieces = Vec::new(alloc);
    let mut start = 0;
    for (i, b) in word.iter().enumerate() {
        if begins_step(*b) {
            pieces.push(&word[start..i])?;
            start = i;
        }
    }
    pieces.push(&word[start..])?;
    Ok(pieces)
}

// The step behind an opening bracket.
fn index_of(closed: &[u8]) -> Option<Step<'_>>
    ensures { option_map step_view result ≡ read_closed closed.now }
{
    let Some((last, inside)) = closed.split_last() else {
        return None;
    };
    if *last != b']' {
        return None;
    }
    if is_word(inside, b"*") {
        return Some(Step::Each);
    }
    match numeral_of(inside) {
        Some(index) => Some(Step::Index(index)),
        None => None,
    }
}

fn step_of(piece: &[u8]) -> Option<Step<'_>>
    ensures { option_map step_view result ≡ read_step piece.now }
{
    let Some((first, rest)) = piece.split_first() else {
        return None;
    };
    if *first == b'[' {
        return index_of(rest);
    }
    if *first == b'.' && is_name(rest) {
        return Some(Step::Member(rest));
    }
    None
}

/// The place that a word writes.
pub fn place_of<'a>(alloc: Global, word: &'a [u8]) -> Result<Option<PlaceWord<'a>>, AllocError>
    ensures { IfOk result (λ o. option_map place_view o ≡ read_place word.now) }
{
    let pieces = pieces_of(alloc, word)?;
    let Some((name, others)) = pieces.as_slice().split_first() else {
        return Ok(None);
    };
    if !is_object_name(name) {
        return Ok(None);
    }
    let mut steps = Vec::new(alloc);
    for piece in others {
        match step_of(piece) {
            Some(step) => steps.push(step)?,
            None => return Ok(None),
        }
    }
    Ok(Some(PlaceWord { name, steps }))
}

fn is_one(step: &Step<'_>) -> bool
    ensures { result ≡ is_one (step_view step.now) }
{
    !matches!(step, Step::Each)
}

// Whether no step goes to every element.
fn is_single(place: &PlaceWord) -> bool
    ensures { result ≡ is_single (place_view place.now) }
{
    for step in place.steps.as_slice() {
        if !is_one(step) {
            return false;
        }
    }
    true
}

/// The place that a word writes, if none of its steps goes to every element.
pub fn single_place_of<'a>(
    alloc: Global,
    word: &'a [u8],
) -> Result<Option<PlaceWord<'a>>, AllocError>
    ensures { IfOk result (λ o. option_map place_view o ≡ read_single word.now) }
{
    match place_of(alloc, word) {
        Ok(Some(place)) => Ok(if is_single(&place) { Some(place) } else { None }),
        Ok(None) => Ok(None),
        Err(error) => Err(error),
    }
}

/// The target that a word writes.
pub fn target_of<'a>(alloc: Global, word: &'a [u8]) -> Result<Option<TargetWord<'a>>, AllocError>
    ensures { IfOk result (λ o. option_map target_view o ≡ read_target word.now) }
{
    if is_word(word, b"null") {
        return Ok(Some(TargetWord::Null));
    }
    match place_of(alloc, word) {
        Ok(Some(place)) => Ok(Some(TargetWord::Place(place))),
        Ok(None) => Ok(None),
        Err(error) => Err(error),
    }
}

/// The target that a word writes, if none of its steps goes to every element.
pub fn single_target_of<'a>(
    alloc: Global,
    word: &'a [u8],
) -> Result<Option<TargetWord<'a>>, AllocError>
    ensures { IfOk result (λ o. option_map target_view o ≡ read_single_target word.now) }
{
    if is_word(word, b"null") {
        return Ok(Some(TargetWord::Null));
    }
    match single_place_of(alloc, word) {
        Ok(Some(place)) => Ok(Some(TargetWord::Place(place))),
        Ok(None) => Ok(None),
        Err(error) => Err(error),
    }
}
