//! The text that a command puts.

ghost use Rattle.std.specs.Prelude.{◌≤◌, length};
ghost use Rattle.lt_answers.specs.Answers.{most_bytes};
ghost use Rattle.lt_sources.specs.Views.{sources_of};
ghost use Rattle.ltest.specs.Stages.{GivesCovered, SpellsParsed};
ghost use Rattle.ltest.specs.Texts.{IsReplayAnswer, IsConversionAnswer};

use crate::coverages::coverage_of_text;
use crate::merges::merged;
use crate::programs::program_of_unit;
use crate::stops::TextStop;
use crate::tasks::task_of;
use crate::units::unit_of_text;
use lt_cover::{Coverage, write_cover};
use lt_decl::Parsed;
use lt_replay::replay;
use lt_replayed::{coverage_needs_no_unit, stripped};
use lt_sources::Sources;
use lt_tree::Unit;
use std::alloc::Global;

/// The text of a replay, or the first reason why there is none: its program, specification, suite and old coverage are understood in this
/// order, then the suite is run, and its coverage is merged with the old one.
pub fn replay_text(alloc: Global, from: &Sources) -> Result<Vec<u8>, TextStop>
    requires { length from.now.file.items ≤ most_bytes }
    ensures { IsReplayAnswer (sources_of from.now) result }
{
    let parsed = unit_of_text(alloc, from.file.as_slice())?;
    let coverage = covered(alloc, parsed, from)?;
    Ok(write_cover(alloc, &coverage)?)
}

// The coverage of a unit, merged with the old one. The unit is given up before the suite is run: the code of a large one takes much memory,
// and runs don't need it.
fn covered(alloc: Global, parsed: Parsed, from: &Sources) -> Result<Coverage, TextStop>
    requires { SpellsParsed from.now.file.items parsed }
    ensures { GivesCovered (sources_of from.now) result }
{
    coverage_needs_no_unit();
    let nothing = Unit {
        externals: Vec::new(alloc),
    };
    let program = program_of_unit(alloc, &parsed, from.model)?;
    let task = task_of(alloc, &program, from)?;
    let program = stripped(alloc, program, &nothing);
    drop(parsed);
    let hypers = Vec::new(alloc);
    let new = replay(
        alloc,
        &program,
        &task.specification.spec,
        &task.suite,
        hypers.as_slice(),
        from.steps,
    )?;
    merged(alloc, new, task.old)
}

/// The text of version 2 for a coverage file of either version, or the first row that breaks the grammar.
pub fn conversion_text(alloc: Global, text: &[u8]) -> Result<Vec<u8>, TextStop>
    ensures { IsConversionAnswer text.now result }
{
    let coverage = coverage_of_text(alloc, text)?;
    Ok(write_cover(alloc, &coverage)?)
}
