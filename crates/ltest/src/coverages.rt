//! The coverage of a file.

ghost use Rattle.lt_sources.specs.Views.{sources_of};
ghost use Rattle.ltest.specs.Stages.{GivesCoverage, GivesOld};

use crate::stops::TextStop;
use lt_answers::Refusal;
use lt_cover::{CoverStop, Coverage, read_cover};
use lt_sources::Sources;
use std::alloc::Global;

/// The coverage for which a text stands, or the first row that breaks the grammar.
pub fn coverage_of_text(alloc: Global, text: &[u8]) -> Result<Coverage, TextStop>
    ensures { GivesCoverage text.now result }
{
    match read_cover(alloc, text) {
        Ok(coverage) => Ok(coverage),
        Err(CoverStop::Row(row)) => Err(TextStop::Refused(Refusal::Cover(row))),
        Err(CoverStop::NoMemory) => Err(TextStop::NoMemory),
    }
}

/// The old coverage, if there is a file of `--cover`.
pub fn old_coverage(alloc: Global, from: &Sources) -> Result<Option<Coverage>, TextStop>
    ensures { GivesOld (sources_of from.now).cover result }
{
    match &from.cover {
        None => Ok(None),
        Some(text) => Ok(Some(coverage_of_text(alloc, text.as_slice())?)),
    }
}
