//! The specification of an entry of a program.

ghost use Rattle.lt_sources.specs.Views.{sources_of};
ghost use Rattle.std.specs.Prelude.{None, Some};
ghost use Rattle.ltest.specs.Stages.{GivesSpecification};

use crate::stops::TextStop;
use lt_answers::Refusal;
use lt_input_names::Specification;
use lt_input_specs::{NoSpec, default_spec};
use lt_sources::Sources;
use lt_spec_reader::{NoSpecification, read_spec};
use lt_tree::typed::Program;
use std::alloc::Global;

/// The specification that the file of `--entry` says, or the default one where there is none; or why there is no specification.
pub fn specification_of(
    alloc: Global,
    program: &Program<'_>,
    from: &Sources,
) -> Result<Specification, TextStop>
    ensures { GivesSpecification program.now (sources_of from.now).entry result }
{
    match &from.entry {
        Some(text) => specification_of_text(alloc, program, text.as_slice()),
        None => default_specification(alloc, program),
    }
}

// The specification that a text says, or its first bad line.
fn specification_of_text(
    alloc: Global,
    program: &Program<'_>,
    text: &[u8],
) -> Result<Specification, TextStop>
    ensures { GivesSpecification program.now (Some text.now) result }
{
    match read_spec(alloc, program, text) {
        Ok(it) => Ok(it),
        Err(NoSpecification::Line(line)) => Err(TextStop::Refused(Refusal::Spec(line))),
        Err(NoSpecification::NoMemory) => Err(TextStop::NoMemory),
    }
}

// The default specification, if a function may be an entry.
fn default_specification(alloc: Global, program: &Program<'_>) -> Result<Specification, TextStop>
    ensures { GivesSpecification program.now None result }
{
    match default_spec(alloc, program) {
        Ok(it) => Ok(it),
        Err(NoSpec::NoEntry) => Err(TextStop::Refused(Refusal::NoEntry)),
        Err(NoSpec::NoMemory) => Err(TextStop::NoMemory),
    }
}
