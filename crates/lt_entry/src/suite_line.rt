ghost use Rattle.std.specs.Prelude.{◌≡◌, IfOk, option_map, map};
ghost use Rattle.lt_entry.specs.Suites.{is_test_name};
ghost use Rattle.lt_entry.specs.Views.{numeral_view};
ghost use Rattle.lt_entry.specs.LineViews.{suite_line_view};
ghost use Rattle.lt_entry.specs.Reading.{read_all, read_numeral};
ghost use Rattle.lt_entry.specs.ReadingLines.{read_test, read_set, read_point, read_values, read_suite_line};

use crate::number::{Numeral, numeral_of};
use crate::place::{PlaceWord, TargetWord, are_name_bytes, single_place_of, single_target_of};
use crate::words::{is_word, two_words};
use std::alloc::{AllocError, Global};

/// `set PLACE INT`
#[derive(Drop)]
pub struct SetLine<'a> {
    pub place: PlaceWord<'a>,
    pub value: Numeral,
}

/// `point PLACE TARGET`
#[derive(Drop)]
pub struct PointLine<'a> {
    pub place: PlaceWord<'a>,
    pub target: TargetWord<'a>,
}

/// `stub NAME INT..`
#[derive(Drop)]
pub struct ValuesLine<'a> {
    pub stub: &'a [u8],
    pub values: Vec<Numeral>,
}

/// A line of a suite.
#[derive(Drop)]
pub enum SuiteLine<'a> {
    Test(&'a [u8]),
    Set(SetLine<'a>),
    Point(PointLine<'a>),
    Values(ValuesLine<'a>),
}

fn is_test_name(name: &[u8]) -> bool
    ensures { result ≡ is_test_name name.now }
{
    1 <= name.len() && name.len() <= 64 && are_name_bytes(name)
}

fn test_line<'a>(words: &[&'a [u8]]) -> Option<SuiteLine<'a>>
    ensures { option_map suite_line_view result ≡ read_test (map (λ word. word.now) words.now) }
{
    match words {
        [name] => {
            if is_test_name(name) {
                Some(SuiteLine::Test(name))
            } else {
                None
            }
        }
        _ => None,
    }
}

#[tactic(auto, using(crate::proofs::LinesRead::no_set))]
fn set_line<'a>(alloc: Global, words: &[&'a [u8]]) -> Result<Option<SuiteLine<'a>>, AllocError>
    ensures { IfOk result (λ o. option_map suite_line_view o ≡ read_set (map (λ word. word.now) words.now)) }
{
    let Some((place, value)) = two_words(words) else {
        return Ok(None);
    };
    let Some(value) = numeral_of(value) else {
        return Ok(None);
    };
    match single_place_of(alloc, place) {
        Ok(Some(place)) => Ok(Some(SuiteLine::Set(SetLine { place, value }))),
        Ok(None) => Ok(None),
        Err(error) => Err(error),
    }
}

#[tactic(auto, using(crate::proofs::LinesRead::no_point))]
fn point_line<'a>(alloc: Global, words: &[&'a [u8]]) -> Result<Option<SuiteLine<'a>>, AllocError>
    ensures { IfOk result (λ o. option_map suite_line_view o ≡ read_point (map (λ word. word.now) words.now)) }
{
    let Some((place, target)) = two_words(words) else {
        return Ok(None);
    };
    let Some(place) = single_place_of(alloc, place)? else {
        return Ok(None);
    };
    match single_target_of(alloc, target) {
        Ok(Some(target)) => Ok(Some(SuiteLine::Point(PointLine { place, target }))),
        Ok(None) => Ok(None),
        Err(error) => Err(error),
    }
}

fn numerals_of(alloc: Global, words: &[&[u8]]) -> Result<Option<Vec<Numeral>>, AllocError>
    ensures { IfOk result (λ o. option_map (λ v. map numeral_view v.items) o ≡ read_all read_numeral (map (λ word. word.now) words.now)) }
{
    let mut numerals = Vec::new(alloc);
    for word in words {
        match numeral_of(word) {
            Some(numeral) => numerals.push(numeral)?,
            None => return Ok(None),
        }
    }
    Ok(Some(numerals))
}

fn values_line<'a>(alloc: Global, words: &[&'a [u8]]) -> Result<Option<SuiteLine<'a>>, AllocError>
    ensures { IfOk result (λ o. option_map suite_line_view o ≡ read_values (map (λ word. word.now) words.now)) }
{
    let Some((stub, numbers)) = words.split_first() else {
        return Ok(None);
    };
    match numerals_of(alloc, numbers) {
        Ok(Some(values)) => Ok(Some(SuiteLine::Values(ValuesLine { stub, values }))),
        Ok(None) => Ok(None),
        Err(error) => Err(error),
    }
}

/// The line of a suite that words write.
pub fn suite_line_of<'a>(
    alloc: Global,
    words: &[&'a [u8]],
) -> Result<Option<SuiteLine<'a>>, AllocError>
    ensures { IfOk result (λ o. option_map suite_line_view o ≡ read_suite_line (map (λ word. word.now) words.now)) }
{
    let Some((keyword, rest)) = words.split_first() else {
        return Ok(None);
    };
    if is_word(keyword, b"set") {
        return set_line(alloc, rest);
    }
    if is_word(keyword, b"point") {
        return point_line(alloc, rest);
    }
    if is_word(keyword, b"stub") {
        return values_line(alloc, rest);
    }
    if is_word(keyword, b"test") {
        return Ok(test_line(rest));
    }
    Ok(None)
}
