//! The entry that the first row names.

ghost use Rattle.std.specs.Prelude.{◌≡◌, IfOk, List};
ghost use Rattle.lt_tree.specs.Typing.ProgramView.{program_of};
ghost use Rattle.lt_entry.specs.Conditions.{number_from, entry_named};
ghost use Rattle.lt_entry.specs.Lines as lines;
ghost use Rattle.lt_entry.specs.LineViews.{row_view};
ghost use Rattle.lt_input_names.specs.Kinds.{AreKinds};
ghost use Rattle.lt_spec_reader.specs.Entries.{IsEntryOf};

use lt_entry::{Line, Row, line_of, lines_are_read};
use lt_input_names::Kinds;
use lt_input_specs::may_be_entry;
use lt_tree::typed::Program;
use std::alloc::{AllocError, Global};

/// A function with a body that may be an entry.
#[derive(Clone, Copy)]
pub struct Entry<'p> {
    pub name: &'p [u8],
    pub number: usize,
}

// The number of the first function with a body that has this name.
fn number_of(program: &Program<'_>, name: &[u8]) -> Option<usize>
    ensures { result ≡ number_from 0 name.now (program_of program.now).functions }
{
    for (i, function) in program.functions.iter().enumerate() {
        if function.name.as_slice() == name {
            return Some(i);
        }
    }
    None
}

// The number of the function of this name that has a body, if it may be an entry.
fn entry_named(kinds: &Kinds<'_>, name: &[u8]) -> Option<usize>
    requires { AreKinds kinds.now }
    ensures { result ≡ entry_named (program_of kinds.now.program.now) name.now }
{
    let number = number_of(kinds.program, name)?;
    if may_be_entry(kinds, number) {
        Some(number)
    } else {
        None
    }
}

/// The entry that a row names, where it is the first.
pub fn entry_of<'p>(
    alloc: Global,
    kinds: &Kinds<'_>,
    row: &Row<'p>,
) -> Result<Option<Entry<'p>>, AllocError>
    requires { AreKinds kinds.now }
    ensures { (rows : List lines.Row) → IfOk result (IsEntryOf (program_of kinds.now.program.now) rows (row_view row.now).words) }
{
    lines_are_read();
    match line_of(alloc, row.words.as_slice())? {
        Some(Line::Entry(name)) => match entry_named(kinds, name) {
            None => Ok(None),
            Some(number) => Ok(Some(Entry { name, number })),
        },
        _ => Ok(None),
    }
}
