//! The suite of tests.

ghost use Rattle.ltest.specs.Stages.{GivesSuite};

use crate::stops::TextStop;
use lt_answers::Refusal;
use lt_entry::Suite;
use lt_input_names::Specification;
use lt_input_suites::{NoSuite, read_suite};
use lt_tree::typed::Program;
use std::alloc::Global;

/// The suite that a text says, or its first bad line.
pub fn suite_of_text(
    alloc: Global,
    program: &Program<'_>,
    specification: &Specification,
    text: &[u8],
) -> Result<Suite, TextStop>
    ensures { GivesSuite program.now specification.now text.now result }
{
    match read_suite(alloc, program, specification, text) {
        Ok(suite) => Ok(suite),
        Err(NoSuite::Line(line)) => Err(TextStop::Refused(Refusal::Suite(line))),
        Err(NoSuite::NoMemory) => Err(TextStop::NoMemory),
    }
}
