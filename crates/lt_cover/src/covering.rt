//! The names of the tests that cover a label.

ghost use Rattle.std.specs.Prelude.{◌≡◌, ◌↔◌, IsTrue, ◌==◌, List, ℕ, IfOk, All, map, option_map};
ghost use Rattle.std.specs.List.{slice_split};
ghost use Rattle.lt_cover.specs.Coverage.Names.{IsTestName};
ghost use Rattle.lt_cover.specs.Coverage.Table.{NamesRise};
ghost use Rattle.lt_cover.specs.Coverage.Rows.{Reads, AreCovering, covering_words};

use crate::names::is_test_name;
use lt_model::Name;
use std::alloc::{AllocError, Global};
use std::cmp::Ordering;

// Whether each name is below those after it.
fn rise(names: &[&[u8]]) -> bool
    ensures { IsTrue result ↔ NamesRise (map (λ n. n.now) names.now) }
{
    for i in 1..names.len() {
        if names[i - 1].cmp(names[i]) != Ordering::Less {
            return false;
        }
    }
    true
}

fn are_names(names: &[&[u8]]) -> bool
    ensures { IsTrue result ↔ All IsTestName (map (λ n. n.now) names.now) }
{
    for name in names {
        if !is_test_name(name) {
            return false;
        }
    }
    true
}

fn words_of<'a>(alloc: Global, text: &'a [u8]) -> Result<Vec<&'a [u8]>, AllocError>
    ensures { IfOk result (λ v. map (λ word. word.now) v.items ≡ slice_split (λ b. b == 32) text.now) }
{
    text.split(|b| *b == b' ').collect(alloc)
}

fn copied(alloc: Global, names: &[&[u8]]) -> Result<Vec<Name>, AllocError>
    ensures { IfOk result (λ v. v.items ≡ map (λ n. n.now) names.now) }
{
    let mut copies = Vec::new(alloc);
    for name in names {
        copies.push(Name::new(alloc, name)?)?;
    }
    Ok(copies)
}

/// The covering names of a label with these two words.
pub fn covering(alloc: Global, state: &[u8], by: &[u8]) -> Result<Option<Vec<Name>>, AllocError>
    ensures { IfOk result (λ o. Reads AreCovering covering_words (state.now, by.now) (option_map (λ v. v.items) o)) }
{
    if state == b"uncovered".as_slice() && by.is_empty() {
        return Ok(Some(Vec::new(alloc)));
    }
    if state != b"covered".as_slice() {
        return Ok(None);
    }
    let words = words_of(alloc, by)?;
    let words = words.as_slice();
    if !are_names(words) {
        return Ok(None);
    }
    if !rise(words) {
        return Ok(None);
    }
    Ok(Some(copied(alloc, words)?))
}
