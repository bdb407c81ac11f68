//! Replays of suites on texts of C.

ghost use Rattle.std.specs.Prelude.{IfOk, option_map};
ghost use Rattle.lt_tree.specs.Typing.ProgramView.{program_of};
ghost use Rattle.lt_entry.specs.Suites.{IsSuite};
ghost use Rattle.lt_input_names.specs.Blocks.{specification_of};
ghost use Rattle.lt_answers.specs.Entries.{Specifies};

use crate::covers::merged_text;
use crate::pairs::{cut, pair};
use crate::stop::Stop;
use crate::units::parsed;
use lt_cover::{Coverage, read_cover, write_cover};
use lt_entry::Suite;
use lt_input_names::Specification;
use lt_input_specs::{default_spec, defaults_are_bounded, specifications_are_bounded};
use lt_input_suites::{read_suite, tests_of_a_suite_differ};
use lt_model::DataModel;
use lt_replay::replay;
use lt_spec_reader::read_spec;
use lt_tree::typed::Program;
use lt_unit::elaborate;
use std::alloc::Global;

// The texts of a replay, and how many ticks a run has.
#[derive(Clone, Copy)]
struct Texts<'a> {
    file: &'a [u8],
    suite: &'a [u8],
    entry: Option<&'a [u8]>,
    cover: Option<&'a [u8]>,
}

fn texts_of(text: &[u8]) -> Result<Texts<'_>, Stop> {
    let (file, rest) = pair(text)?;
    let (rest, cover) = cut(rest, b"--- cover\n");
    let (suite, entry) = cut(rest, b"--- entry\n");
    Ok(Texts {
        file,
        suite,
        entry,
        cover,
    })
}

// The specification of a text, or the default one.
fn specification(
    alloc: Global,
    program: &Program<'_>,
    entry: Option<&[u8]>,
) -> Result<Specification, Stop>
    ensures { IfOk result (λ it. Specifies (program_of program.now) (option_map (λ text. text.now) entry.entry) (specification_of program.now it)) }
{
    match entry {
        None => Ok(default_spec(alloc, program)?),
        Some(text) => Ok(read_spec(alloc, program, text)?),
    }
}

// The suite of a text.
fn suite(
    alloc: Global,
    program: &Program<'_>,
    specification: &Specification,
    text: &[u8],
) -> Result<Suite, Stop>
    ensures { IfOk result (IsSuite (program_of program.now) (specification_of program.now specification.now) text.now) }
{
    Ok(read_suite(alloc, program, specification, text)?)
}

// The coverage of a suite.
fn new_coverage(
    alloc: Global,
    program: &Program<'_>,
    texts: Texts<'_>,
    steps: u64,
) -> Result<Coverage, Stop> {
    let specification = specification(alloc, program, texts.entry)?;
    let suite = suite(alloc, program, &specification, texts.suite)?;
    defaults_are_bounded();
    specifications_are_bounded();
    tests_of_a_suite_differ();
    let hypers = Vec::new(alloc);
    Ok(replay(
        alloc,
        program,
        &specification.spec,
        &suite,
        hypers.as_slice(),
        steps,
    )?)
}

// The coverage of a text, if there is one.
fn old_coverage(alloc: Global, cover: Option<&[u8]>) -> Result<Option<Coverage>, Stop> {
    match cover {
        None => Ok(None),
        Some(text) => Ok(Some(read_cover(alloc, text)?)),
    }
}

/// The coverage text of a suite on a text, merged with an old one if there is one.
pub fn replayed(alloc: Global, text: &[u8], model: DataModel, steps: u64) -> Result<Vec<u8>, Stop> {
    let texts = texts_of(text)?;
    let parsed = parsed(alloc, texts.file)?;
    let program = elaborate(alloc, &parsed.unit, model)?;
    let new = new_coverage(alloc, &program, texts, steps)?;
    match old_coverage(alloc, texts.cover)? {
        None => Ok(write_cover(alloc, &new)?),
        Some(old) => merged_text(alloc, &new, &old),
    }
}
