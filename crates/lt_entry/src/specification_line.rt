ghost use Rattle.std.specs.Prelude.{◌≡◌, ◌≤◌, IfOk, OnSome, length, option_map, map};
ghost use Rattle.lt_entry.specs.SpecificationLines as written;
ghost use Rattle.lt_entry.specs.Views.{numeral_view, target_view};
ghost use Rattle.lt_entry.specs.LineViews.{relation_view, term_view, addend_view, line_view};
ghost use Rattle.lt_entry.specs.Reading.{read_all, read_single, read_target};
ghost use Rattle.lt_entry.specs.ReadingLines as reading;
ghost use Rattle.lt_entry.specs.ReadingLines.{parts_of_term, read_term, read_sign, read_addend, read_addends, read_relation, read_entry, read_block, read_range, read_points, read_stub, read_requirement, read_require, read_line};

use crate::number::{Numeral, numeral_of};
use crate::place::{PlaceWord, TargetWord, is_name, place_of, single_place_of, target_of};
use crate::words::{is_word, three_words, two_words};
use std::alloc::{AllocError, Global};

/// How the sum of a requirement stands to its constant.
#[derive(Clone, Copy)]
pub enum Relation {
    AtMost,
    AtLeast,
    EqualTo,
}

/// `PLACE` or `INT*PLACE`.
#[derive(Drop)]
pub struct Term<'a> {
    pub factor: Option<Numeral>,
    pub place: PlaceWord<'a>,
}

/// A term behind `+` or `-`.
#[derive(Drop)]
pub struct Addend<'a> {
    pub is_minus: bool,
    pub term: Term<'a>,
}

/// `block NAME TYPE COUNT`
#[derive(Drop)]
pub struct BlockLine<'a> {
    pub name: &'a [u8],
    pub ty: Vec<&'a [u8]>,
    pub count: Numeral,
}

/// `range PLACE LO HI`
#[derive(Drop)]
pub struct RangeLine<'a> {
    pub place: PlaceWord<'a>,
    pub low: Numeral,
    pub high: Numeral,
}

/// `points PLACE TARGET..`
#[derive(Drop)]
pub struct PointsLine<'a> {
    pub place: PlaceWord<'a>,
    pub targets: Vec<TargetWord<'a>>,
}

/// `stub NAME LO HI`
#[derive(Clone, Copy)]
pub struct StubLine<'a> {
    pub name: &'a [u8],
    pub low: Numeral,
    pub high: Numeral,
}

/// `require SUM REL INT`, with the terms of the sum.
#[derive(Drop)]
pub struct RequireLine<'a> {
    pub first: Term<'a>,
    pub others: Vec<Addend<'a>>,
    pub relation: Relation,
    pub constant: Numeral,
}

/// A line of a specification.
#[derive(Drop)]
pub enum Line<'a> {
    Entry(&'a [u8]),
    Block(BlockLine<'a>),
    Range(RangeLine<'a>),
    Points(PointsLine<'a>),
    Stub(StubLine<'a>),
    Require(RequireLine<'a>),
}

fn parts_of_term<'a>(alloc: Global, word: &'a [u8]) -> Result<Vec<&'a [u8]>, AllocError>
    ensures { IfOk result (λ v. map (λ part. part.now) v.items ≡ parts_of_term word.now) }
{
    word.split(|b| *b == b'*').collect(alloc)
}

// The term of a place, with a factor or none.
fn term_at<'a>(
    alloc: Global,
    factor: Option<Numeral>,
    word: &'a [u8],
) -> Result<Option<Term<'a>>, AllocError>
    ensures { IfOk result (λ o. option_map term_view o ≡ option_map (λ p. record { factor = option_map numeral_view factor; place = p }) (read_single word.now)) }
{
    match single_place_of(alloc, word) {
        Ok(Some(place)) => Ok(Some(Term { factor, place })),
        Ok(None) => Ok(None),
        Err(error) => Err(error),
    }
}

// The term that a word writes.
fn term_of<'a>(alloc: Global, word: &'a [u8]) -> Result<Option<Term<'a>>, AllocError>
    ensures { IfOk result (λ o. option_map term_view o ≡ read_term word.now) }
{
    let parts = parts_of_term(alloc, word)?;
    let Some((factor, place)) = two_words(parts.as_slice()) else {
        return term_at(alloc, None, word);
    };
    match numeral_of(factor) {
        Some(factor) => term_at(alloc, Some(factor), place),
        None => Ok(None),
    }
}

// Whether a sign is a minus.
fn sign_of(word: &[u8]) -> Option<bool>
    ensures { result ≡ read_sign word.now }
{
    if is_word(word, b"+") {
        return Some(false);
    }
    if is_word(word, b"-") {
        return Some(true);
    }
    None
}

fn addend_of<'a>(
    alloc: Global,
    sign: &[u8],
    word: &'a [u8],
) -> Result<Option<Addend<'a>>, AllocError>
    ensures { IfOk result (λ o. option_map addend_view o ≡ read_addend sign.now word.now) }
{
    let Some(is_minus) = sign_of(sign) else {
        return Ok(None);
    };
    match term_of(alloc, word) {
        Ok(Some(term)) => Ok(Some(Addend { is_minus, term })),
        Ok(None) => Ok(None),
        Err(error) => Err(error),
    }
}

// The addend in front.
fn first_addend<'a>(alloc: Global, words: &[&'a [u8]]) -> Result<Option<Addend<'a>>, AllocError>
    ensures reads { IfOk result (λ o. option_map addend_view o ≡ reading.first_addend (map (λ word. word.now) words.now)) }
    ensures room { IfOk result (λ o. OnSome o (2 ≤ length words.now)) }
{
    if words.len() < 2 {
        return Ok(None);
    }
    addend_of(alloc, words[0], words[1])
}

fn addends_of<'a>(alloc: Global, words: &[&'a [u8]]) -> Result<Option<Vec<Addend<'a>>>, AllocError>
    ensures { IfOk result (λ o. option_map (λ v. map addend_view v.items) o ≡ read_addends (map (λ word. word.now) words.now)) }
{
    let mut addends = Vec::new(alloc);
    let mut read = 0;
    while read < words.len() {
        match first_addend(alloc, words.split_at(read).1)? {
            Some(addend) => addends.push(addend)?,
            None => return Ok(None),
        }
        read += 2;
    }
    Ok(Some(addends))
}

fn relation_of(word: &[u8]) -> Option<Relation>
    ensures { option_map relation_view result ≡ read_relation word.now }
{
    if is_word(word, b"<=") {
        return Some(Relation::AtMost);
    }
    if is_word(word, b">=") {
        return Some(Relation::AtLeast);
    }
    if is_word(word, b"==") {
        return Some(Relation::EqualTo);
    }
    None
}

fn targets_of<'a>(
    alloc: Global,
    words: &[&'a [u8]],
) -> Result<Option<Vec<TargetWord<'a>>>, AllocError>
    ensures { IfOk result (λ o. option_map (λ v. map target_view v.items) o ≡ read_all read_target (map (λ word. word.now) words.now)) }
{
    let mut targets = Vec::new(alloc);
    for word in words {
        match target_of(alloc, word)? {
            Some(target) => targets.push(target)?,
            None => return Ok(None),
        }
    }
    Ok(Some(targets))
}

// A line `entry`, behind its first word.
fn entry_line<'a>(words: &[&'a [u8]]) -> Option<Line<'a>>
    ensures { option_map line_view result ≡ option_map written.entry_line (read_entry (map (λ word. word.now) words.now)) }
{
    match words {
        [name] => Some(Line::Entry(name)),
        _ => None,
    }
}

// A line `block`, behind its first word; the same of those below.
fn block_line<'a>(alloc: Global, words: &[&'a [u8]]) -> Result<Option<Line<'a>>, AllocError>
    ensures { IfOk result (λ o. option_map line_view o ≡ read_block (map (λ word. word.now) words.now)) }
{
    let Some((name, behind)) = words.split_first() else {
        return Ok(None);
    };
    let Some((count, ty)) = behind.split_last() else {
        return Ok(None);
    };
    if !is_name(name) {
        return Ok(None);
    }
    let Some(count) = numeral_of(count) else {
        return Ok(None);
    };
    let ty = Vec::from_slice(alloc, ty)?;
    Ok(Some(Line::Block(BlockLine { name, ty, count })))
}

#[tactic(auto, using(crate::proofs::LinesRead::no_range))]
fn range_line<'a>(alloc: Global, words: &[&'a [u8]]) -> Result<Option<Line<'a>>, AllocError>
    ensures { IfOk result (λ o. option_map line_view o ≡ read_range (map (λ word. word.now) words.now)) }
{
    let Some((place, low, high)) = three_words(words) else {
        return Ok(None);
    };
    let Some(low) = numeral_of(low) else {
        return Ok(None);
    };
    let Some(high) = numeral_of(high) else {
        return Ok(None);
    };
    match place_of(alloc, place) {
        Ok(Some(place)) => Ok(Some(Line::Range(RangeLine { place, low, high }))),
        Ok(None) => Ok(None),
        Err(error) => Err(error),
    }
}

fn points_line<'a>(alloc: Global, words: &[&'a [u8]]) -> Result<Option<Line<'a>>, AllocError>
    ensures { IfOk result (λ o. option_map line_view o ≡ read_points (map (λ word. word.now) words.now)) }
{
    let Some((place, targets)) = words.split_first() else {
        return Ok(None);
    };
    let Some(place) = place_of(alloc, place)? else {
        return Ok(None);
    };
    match targets_of(alloc, targets) {
        Ok(Some(targets)) => Ok(Some(Line::Points(PointsLine { place, targets }))),
        Ok(None) => Ok(None),
        Err(error) => Err(error),
    }
}

#[tactic(auto, using(crate::proofs::LinesRead::no_stub))]
fn stub_line<'a>(words: &[&'a [u8]]) -> Option<Line<'a>>
    ensures { option_map line_view result ≡ read_stub (map (λ word. word.now) words.now) }
{
    let Some((name, low, high)) = three_words(words) else {
        return None;
    };
    let Some(low) = numeral_of(low) else {
        return None;
    };
    let Some(high) = numeral_of(high) else {
        return None;
    };
    Some(Line::Stub(StubLine { name, low, high }))
}

// The requirement of these terms with their signs.
fn requirement_of<'a>(
    alloc: Global,
    sum: &[&'a [u8]],
    relation: &[u8],
    constant: &[u8],
) -> Result<Option<Line<'a>>, AllocError>
    ensures { IfOk result (λ o. option_map line_view o ≡ read_requirement (map (λ word. word.now) sum.now) relation.now constant.now) }
{
    let Some((first, others)) = sum.split_first() else {
        return Ok(None);
    };
    let Some(relation) = relation_of(relation) else {
        return Ok(None);
    };
    let Some(constant) = numeral_of(constant) else {
        return Ok(None);
    };
    let Some(first) = term_of(alloc, first)? else {
        return Ok(None);
    };
    match addends_of(alloc, others) {
        Ok(Some(others)) => Ok(Some(Line::Require(RequireLine {
            first,
            others,
            relation,
            constant,
        }))),
        Ok(None) => Ok(None),
        Err(error) => Err(error),
    }
}

fn require_line<'a>(alloc: Global, words: &[&'a [u8]]) -> Result<Option<Line<'a>>, AllocError>
    ensures { IfOk result (λ o. option_map line_view o ≡ read_require (map (λ word. word.now) words.now)) }
{
    let Some((constant, before)) = words.split_last() else {
        return Ok(None);
    };
    match before.split_last() {
        Some((relation, sum)) => requirement_of(alloc, sum, relation, constant),
        None => Ok(None),
    }
}

/// The line of a specification that words write.
pub fn line_of<'a>(alloc: Global, words: &[&'a [u8]]) -> Result<Option<Line<'a>>, AllocError>
    ensures { IfOk result (λ o. option_map line_view o ≡ read_line (map (λ word. word.now) words.now)) }
{
    let Some((keyword, rest)) = words.split_first() else {
        return Ok(None);
    };
    if is_word(keyword, b"range") {
        return range_line(alloc, rest);
    }
    if is_word(keyword, b"points") {
        return points_line(alloc, rest);
    }
    if is_word(keyword, b"require") {
        return require_line(alloc, rest);
    }
    if is_word(keyword, b"entry") {
        return Ok(entry_line(rest));
    }
    if is_word(keyword, b"block") {
        return block_line(alloc, rest);
    }
    if is_word(keyword, b"stub") {
        return Ok(stub_line(rest));
    }
    Ok(None)
}
