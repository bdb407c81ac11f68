//! Reads the specification of a text.

ghost use Rattle.std.specs.Prelude.{◌≡◌, ◌∷◌, [], ℕ, List, Some, suc, map, IfOk};
ghost use Rattle.lt_tree.specs.Typing.ProgramView.{program_of};
ghost use Rattle.lt_entry.specs.Lines as lines;
ghost use Rattle.lt_entry.specs.Naming.{parameters_of};
ghost use Rattle.lt_entry.specs.SpecificationLines.{entry_line};
ghost use Rattle.lt_entry.specs.Conditions.{default_blocks, entry_named};
ghost use Rattle.lt_entry.specs.Specifications.{line_number};
ghost use Rattle.lt_entry.specs.LineViews.{row_view, line_view};
ghost use Rattle.lt_input_names.specs.Blocks.{program_types, block_of};
ghost use Rattle.lt_input_names.specs.Kinds.{AreKinds};
ghost use Rattle.lt_input_specs.specs.Defaults.{root_of};
ghost use Rattle.lt_spec_reader.specs.Answers.{AnswersRows};
ghost use Rattle.lt_spec_reader.specs.Fronts.{AreFirst};
ghost use Rattle.lt_spec_reader.specs.Reading.{IsSpecificationAnswer};
ghost use Rattle.lt_spec_reader.specs.States.{AreRead, IsBehind, IsReady};

use crate::entry::{Entry, entry_of};
use crate::faults::{first_bad, free_cells};
use crate::lines::lines_of;
use crate::pointed::without_points;
use crate::said::said;
use crate::start::start;
use crate::state::State;
use crate::stops::NoSpecification;
use lt_entry::{Line, Row, count_of_lines, rows_of};
use lt_input_names::{Block, Kinds, Specification};
use lt_input_specs::{default_blocks, parameters_of};
use lt_tree::typed::{Object, Program};
use std::alloc::{AllocError, Global};

// The number of a line, as it is answered.
fn bad_line(number: u64) -> NoSpecification
    ensures { result ≡ NoSpecification.Line (line_number number) }
{
    NoSpecification::Line(number.min(u64::from(u32::MAX)) as u32)
}

// The answer of a text in which no line says anything.
fn no_line(alloc: Global, text: &[u8]) -> Result<NoSpecification, AllocError>
    ensures { IfOk result (λ it. it ≡ NoSpecification.Line (line_number (suc (lines.count_of_lines text.now)))) }
{
    Ok(bad_line((count_of_lines(alloc, text)? as u64).saturating_add(1)))
}

// The answer of a file of an entry, where these lines of it fit, and this is the state behind them.
fn judged<'p>(
    alloc: Global,
    kinds: &Kinds<'p>,
    objects: &[&'p Object],
    blocks: &'p [Block],
    rows: &[Row<'p>],
    entry: usize,
    state: &State<'p>,
    lines: &[Line<'p>],
) -> Result<Specification, NoSpecification>
    requires kinds { AreKinds kinds.now }
    requires ready { IsReady state.now }
    ensures { AreRead kinds.now.program.now (map row_view rows.now) entry (map line_view lines.now) state.now → map (λ object. root_of kinds.now.program.now object.now) objects.now ≡ parameters_of (program_of kinds.now.program.now) entry → map (block_of (program_types kinds.now.program.now)) blocks.now ≡ default_blocks (program_of kinds.now.program.now) (map row_view rows.now) entry → AnswersRows kinds.now.program.now (map row_view rows.now) result }
{
    let free = free_cells(alloc, state, objects, blocks, rows)?;
    match first_bad(alloc, state, &free, rows, lines)? {
        Some(number) => Err(bad_line(number)),
        None => Ok(said(alloc, kinds, entry, objects, blocks, state, lines)?),
    }
}

// The answer of a file whose first row names this entry, where this is the state behind that row.
fn read_behind<'p>(
    alloc: Global,
    kinds: &Kinds<'p>,
    objects: &[&'p Object],
    blocks: &'p [Block],
    rows: &[Row<'p>],
    entry: Entry<'p>,
    state: &mut State<'p>,
) -> Result<Specification, NoSpecification>
    requires kinds { AreKinds kinds.now }
    requires ready { IsReady state.old }
    ensures { AreFirst (program_of kinds.now.program.now) (map row_view rows.now) (entry_line entry.entry.name.now ∷ []) → IsBehind kinds.now.program.now (map row_view rows.now) entry.entry.number (entry_line entry.entry.name.now ∷ []) state.old → map (λ object. root_of kinds.now.program.now object.now) objects.now ≡ parameters_of (program_of kinds.now.program.now) entry.entry.number → map (block_of (program_types kinds.now.program.now)) blocks.now ≡ default_blocks (program_of kinds.now.program.now) (map row_view rows.now) entry.entry.number → AnswersRows kinds.now.program.now (map row_view rows.now) result }
{
    let lines = lines_of(alloc, state, Line::Entry(entry.name), rows)?;
    judged(
        alloc,
        kinds,
        objects,
        blocks,
        rows,
        entry.number,
        state,
        lines.as_slice(),
    )
}

// The answer of a file whose first row names this entry, where these are its parameters and their default blocks.
fn read_rows<'p>(
    alloc: Global,
    kinds: &Kinds<'p>,
    objects: &[&'p Object],
    blocks: &'p [Block],
    rows: &[Row<'p>],
    entry: Entry<'p>,
) -> Result<Specification, NoSpecification>
    requires { AreKinds kinds.now }
    ensures { AreFirst (program_of kinds.now.program.now) (map row_view rows.now) (entry_line entry.entry.name.now ∷ []) → entry_named (program_of kinds.now.program.now) entry.entry.name.now ≡ Some entry.entry.number → map (λ object. root_of kinds.now.program.now object.now) objects.now ≡ parameters_of (program_of kinds.now.program.now) entry.entry.number → map (block_of (program_types kinds.now.program.now)) blocks.now ≡ default_blocks (program_of kinds.now.program.now) (map row_view rows.now) entry.entry.number → AnswersRows kinds.now.program.now (map row_view rows.now) result }
{
    let mut state = start(alloc, kinds.program, entry.number, blocks)?;
    read_behind(alloc, kinds, objects, blocks, rows, entry, &mut state)
}

// The same, where what is lent is lent for different times.
fn read_lent(
    alloc: Global,
    kinds: &Kinds<'_>,
    objects: &[&Object],
    blocks: &[Block],
    rows: &[Row<'_>],
    entry: Entry<'_>,
) -> Result<Specification, NoSpecification>
    requires { AreKinds kinds.now }
    ensures { AreFirst (program_of kinds.now.program.now) (map row_view rows.now) (entry_line entry.entry.name.now ∷ []) → entry_named (program_of kinds.now.program.now) entry.entry.name.now ≡ Some entry.entry.number → map (λ object. root_of kinds.now.program.now object.now) objects.now ≡ parameters_of (program_of kinds.now.program.now) entry.entry.number → map (block_of (program_types kinds.now.program.now)) blocks.now ≡ default_blocks (program_of kinds.now.program.now) (map row_view rows.now) entry.entry.number → AnswersRows kinds.now.program.now (map row_view rows.now) result }
{
    read_rows(alloc, kinds, objects, blocks, rows, entry)
}

// The answer of a file whose first row names this entry.
fn read_file(
    alloc: Global,
    kinds: &Kinds<'_>,
    rows: &[Row<'_>],
    entry: Entry<'_>,
) -> Result<Specification, NoSpecification>
    requires { AreKinds kinds.now }
    ensures { AreFirst (program_of kinds.now.program.now) (map row_view rows.now) (entry_line entry.entry.name.now ∷ []) → entry_named (program_of kinds.now.program.now) entry.entry.name.now ≡ Some entry.entry.number → AnswersRows kinds.now.program.now (map row_view rows.now) result }
{
    let objects = parameters_of(alloc, kinds, entry.number)?;
    let pointing = without_points(alloc, objects.as_slice(), rows)?;
    let blocks = default_blocks(alloc, kinds, pointing.as_slice())?;
    read_lent(
        alloc,
        kinds,
        objects.as_slice(),
        blocks.as_slice(),
        rows,
        entry,
    )
}

/// The specification that a text says of an entry of the program, or its first line that is none in its place.
pub fn read_spec(
    alloc: Global,
    program: &Program<'_>,
    text: &[u8],
) -> Result<Specification, NoSpecification>
    ensures { IsSpecificationAnswer program.now text.now result }
{
    let rows = rows_of(alloc, text)?;
    let kinds = Kinds::new(alloc, program)?;
    let Some(first) = rows.as_slice().first() else {
        return Err(no_line(alloc, text)?);
    };
    let Some(entry) = entry_of(alloc, &kinds, first)? else {
        return Err(bad_line(first.number));
    };
    read_file(alloc, &kinds, rows.as_slice(), entry)
}
