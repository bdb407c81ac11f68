//! The values that the words of a row's fields stand for.

ghost use Rattle.std.specs.Prelude.{◌≡◌, ◌≢◌, ◌++◌, ℕ, List, Option, IfOk, MatchOption};
ghost use Rattle.std.specs.Fmt.{decimal};
ghost use Rattle.lt_model.specs.Operators.{number_of_kind};
ghost use Rattle.lt_cover.specs.Coverage.Names.{IsId, IsIdentifier};
ghost use Rattle.lt_cover.specs.Coverage.Table.{IsRunEnd, IsEnd};
ghost use Rattle.lt_cover.specs.Coverage.Text.{run_word, end_word, state_word};
ghost use Rattle.lt_cover.specs.Coverage.Rows.{Reads, IsAny, IsPlainEnd, begins_well};

use crate::names::{is_identifier, is_test_name};
use crate::rows::{HyperState, TestEnd};
use lt_model::{End, Name, Ub};
use std::alloc::{AllocError, Global};

// The greatest id.
const MOST_ID: u32 = 2_147_483_647;

// Whether the first of the bytes is a digit that a number may begin with.
fn begins_well(word: &[u8]) -> bool
    ensures { result ≡ begins_well word.now }
{
    match word.split_first() {
        Some((first, _)) => b'1' <= *first && *first <= b'9',
        None => false,
    }
}

/// The id that a word writes.
pub fn id_of(word: &[u8]) -> Option<u32>
    ensures { Reads IsId decimal word.now result }
{
    if !begins_well(word) {
        return None;
    }
    let id = str::from_utf8(word).ok()?.parse::<u32>().ok()?;
    if id > MOST_ID {
        return None;
    }
    Some(id)
}

// The kind of undefined behaviour with a number.
fn kind_of(number: u32) -> Option<Ub>
    ensures { Reads IsAny number_of_kind number result }
{
    match number {
        1 => Some(Ub::Overflow),
        2 => Some(Ub::ZeroDivisor),
        3 => Some(Ub::Quotient),
        4 => Some(Ub::Shift),
        5 => Some(Ub::Move),
        6 => Some(Ub::Ended),
        7 => Some(Ub::Null),
        8 => Some(Ub::NoCell),
        9 => Some(Ub::Unset),
        10 => Some(Ub::Sealed),
        11 => Some(Ub::Unsequenced),
        12 => Some(Ub::Unrelated),
        13 => Some(Ub::NoValue),
        _ => None,
    }
}

// What stands behind the front of a word, if it begins so.
fn behind<'a>(word: &'a [u8], front: &[u8]) -> Option<&'a [u8]>
    ensures { MatchOption result ((rest : List ℕ) → word.now ≢ front.now ++ rest) (λ rest. word.now ≡ front.now ++ rest.now) }
{
    word.strip_prefix(front)
}

// The kind of undefined behaviour whose number a word writes.
#[tactic(auto, using(crate::proofs::Ids::kind_read))]
fn kind_written(word: &[u8]) -> Option<Ub>
    ensures { Reads IsAny (λ kind. decimal (number_of_kind kind)) word.now result }
{
    kind_of(id_of(word)?)
}

// The name, if it is an identifier.
fn identifier(alloc: Global, name: &[u8]) -> Result<Option<Name>, AllocError>
    ensures { IfOk result (λ o. Reads IsIdentifier (λ n. n) name.now o) }
{
    if is_identifier(name) {
        Ok(Some(Name::new(alloc, name)?))
    } else {
        Ok(None)
    }
}

// The end that a word tells which nothing follows.
fn plain_end(word: &[u8]) -> Option<TestEnd>
    ensures { Reads IsPlainEnd end_word word.now result }
{
    if word == b"returned".as_slice() {
        Some(TestEnd::Ran(End::Returned))
    } else if word == b"stopped".as_slice() {
        Some(TestEnd::Ran(End::Stopped))
    } else if word == b"steps".as_slice() {
        Some(TestEnd::Ran(End::Steps))
    } else if word == b"deep".as_slice() {
        Some(TestEnd::Ran(End::Deep))
    } else if word == b"cells".as_slice() {
        Some(TestEnd::Ran(End::Cells))
    } else if word == b"outside".as_slice() {
        Some(TestEnd::Outside)
    } else {
        None
    }
}

/// How a test is over by a word.
pub fn end_of(alloc: Global, word: &[u8]) -> Result<Option<TestEnd>, AllocError>
    ensures { IfOk result (λ end. Reads IsEnd end_word word.now end) }
{
    if let Some(number) = behind(word, b"undefined ") {
        return match kind_written(number) {
            Some(kind) => Ok(Some(TestEnd::Ran(End::Undefined(kind)))),
            None => Ok(None),
        };
    }
    if let Some(stub) = behind(word, b"no-input ") {
        return match identifier(alloc, stub)? {
            Some(stub) => Ok(Some(TestEnd::Ran(End::NoInput(stub)))),
            None => Ok(None),
        };
    }
    Ok(plain_end(word))
}

/// The state of a hyperlabel that a word tells.
pub fn state_of(word: &[u8]) -> Option<HyperState>
    ensures { Reads IsAny state_word word.now result }
{
    if word == b"uncovered".as_slice() {
        Some(HyperState::Uncovered)
    } else if word == b"too-wide".as_slice() {
        Some(HyperState::TooWide)
    } else if word == b"covered".as_slice() {
        Some(HyperState::Covered)
    } else {
        None
    }
}
