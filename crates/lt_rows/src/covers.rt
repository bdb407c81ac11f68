//! Coverage files.

use crate::pairs::pair;
use crate::stop::Stop;
use crate::words::Words;
use lt_cover::{Coverage, MergeStop, read_cover, write_cover};
use lt_merge::merge;
use std::alloc::Global;

/// What is written of the table that a text stands for.
pub fn rewritten(alloc: Global, text: &[u8]) -> Result<Vec<u8>, Stop> {
    let table = read_cover(alloc, text)?;
    Ok(write_cover(alloc, &table)?)
}

// On what two tables don't agree.
fn difference(alloc: Global, stop: MergeStop) -> Result<Vec<u8>, Stop> {
    let mut words = Words::new(alloc);
    match stop {
        MergeStop::Label(id) => {
            words.push_text("Label")?;
            words.push_number(i128::from(id))?;
        }
        MergeStop::Hyper(id) => {
            words.push_text("Hyper")?;
            words.push_number(i128::from(id))?;
        }
        MergeStop::Test(name) => {
            words.push_text("Test")?;
            words.push(&[name.as_slice()])?;
        }
        MergeStop::NoMemory => return Err(Stop::NoMemory),
    }
    Ok(words.into_bytes())
}

/// What is written of the merge of these tables, or on what they don't agree.
pub fn merged_text(alloc: Global, left: &Coverage, right: &Coverage) -> Result<Vec<u8>, Stop> {
    match merge(alloc, left, right) {
        Ok(table) => Ok(write_cover(alloc, &table)?),
        Err(stop) => difference(alloc, stop),
    }
}

/// What is written of the merge of two texts, or on what they don't agree.
pub fn merged(alloc: Global, text: &[u8]) -> Result<Vec<u8>, Stop> {
    let (left, right) = pair(text)?;
    let left = read_cover(alloc, left)?;
    let right = read_cover(alloc, right)?;
    merged_text(alloc, &left, &right)
}
