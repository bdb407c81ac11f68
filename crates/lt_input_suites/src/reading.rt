//! Reads the suite of a text.

ghost use Rattle.std.specs.Prelude.{◌≡◌};
ghost use Rattle.lt_entry.specs.Specifications.{line_number};
ghost use Rattle.lt_input_suites.specs.Reading.{IsSuiteAnswer};

use crate::draft::Draft;
use crate::stops::NoSuite;
use lt_entry::{Suite, rows_of};
use lt_input_names::{Names, Specification};
use lt_tree::typed::Program;
use std::alloc::Global;

// The number of a line, as it is answered.
fn line_number(number: u64) -> u32
    ensures { result ≡ line_number number }
{
    if number < u64::from(u32::MAX) {
        number as u32
    } else {
        u32::MAX
    }
}

/// The suite that a text says, on this specification of the program, or its first line that is none in its place.
pub fn read_suite(
    alloc: Global,
    program: &Program<'_>,
    specification: &Specification,
    text: &[u8],
) -> Result<Suite, NoSuite>
    ensures { IsSuiteAnswer program.now specification.now text.now result }
{
    let names = Names::new(
        alloc,
        program,
        specification.spec.entry,
        &specification.blocks,
    )?;
    let rows = rows_of(alloc, text)?;
    let mut draft = Draft::new(alloc);
    for row in rows.as_slice() {
        if !draft.read(alloc, &names, &row.words)? {
            return Err(NoSuite::Line(line_number(row.number)));
        }
    }
    Ok(draft.over(alloc)?)
}
