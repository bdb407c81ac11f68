//! Canonical texts, erasures and pure expressions.

use crate::stop::Stop;
use crate::units::parsed;
use crate::words::Words;
use lt_marks::{erase, max_id};
use lt_print::print_unit;
use lt_tree::{External, Item, Stmt, Unit, is_pure};
use std::alloc::Global;

// The canonical text of a unit, which has to be printed as it stands when it is read again.
fn printed(alloc: Global, unit: &Unit) -> Result<Vec<u8>, Stop> {
    let once = print_unit(alloc, unit)?;
    let again = parsed(alloc, once.as_slice())?.unit;
    let twice = print_unit(alloc, &again)?;
    if once == twice {
        Ok(once)
    } else {
        Err(Stop::NotCanonical)
    }
}

pub fn canonical(alloc: Global, text: &[u8]) -> Result<Vec<u8>, Stop> {
    printed(alloc, &parsed(alloc, text)?.unit)
}

// The canonical text of a unit's erasure, in which no id is left.
fn erasure(alloc: Global, unit: &Unit) -> Result<Vec<u8>, Stop> {
    let erased = erase(alloc, unit)?;
    if max_id(&erased) != 0 {
        return Err(Stop::MarkLeft);
    }
    printed(alloc, &erased)
}

/// The greatest id of a unit's marks, and on the lines behind it the canonical text of its erasure.
pub fn erased(alloc: Global, text: &[u8]) -> Result<Vec<u8>, Stop> {
    let unit = parsed(alloc, text)?.unit;
    let greatest = max_id(&unit);
    let mut answer = Vec::from_slice(alloc, format!(in alloc; "{greatest}\n")?.as_bytes())?;
    answer.extend_from_slice(erasure(alloc, &unit)?.as_slice())?;
    Ok(answer)
}

/// How many bytes that text has.
pub fn erased_length(alloc: Global, text: &[u8]) -> Result<Vec<u8>, Stop> {
    let text = erasure(alloc, &parsed(alloc, text)?.unit)?;
    let mut words = Words::new(alloc);
    words.push_number(text.len() as i128)?;
    Ok(words.into_bytes())
}

fn body(unit: &Unit) -> &[Item] {
    match unit.externals.first() {
        Some(External::Function(function)) => function.body.as_slice(),
        _ => &[],
    }
}

/// Of each expression that is a statement of the first function whether it is pure.
pub fn purity(alloc: Global, text: &[u8]) -> Result<Vec<u8>, Stop> {
    let unit = parsed(alloc, text)?.unit;
    let mut words = Words::new(alloc);
    for item in body(&unit) {
        if let Item::Statement(Stmt::Expression(e)) = item {
            words.push_text(if is_pure(e) { "pure" } else { "impure" })?;
        }
    }
    Ok(words.into_bytes())
}
