//! Lines in their places.

ghost use Rattle.std.specs.Prelude.{◌≡◌, ℕ, List, [], ◌∷◌, IfOk, OnOk, map, option_map};
ghost use Rattle.lt_tree.specs.declared.typed.program.Program as typed;
ghost use Rattle.lt_tree.specs.Typing.ProgramView.{program_of};
ghost use Rattle.lt_entry.specs.Lines as lines;
ghost use Rattle.lt_entry.specs.SpecificationLines as specification;
ghost use Rattle.lt_entry.specs.LineViews.{line_view, row_view};
ghost use Rattle.lt_spec_reader.specs.Fronts.{IsNext, AreFirst};
ghost use Rattle.lt_spec_reader.specs.States.{IsReady, IsBehind, IsStep, GoesAlong, AreRead};

use crate::block::block;
use crate::points::points;
use crate::ranges::range;
use crate::requirements::require;
use crate::state::State;
use crate::stubs::stub;
use lt_entry::{Line, Row, line_of, lines_are_read};
use std::alloc::{AllocError, Global};

// Whether the line fits; if it does, the state is that behind it.
fn step<'p>(alloc: Global, state: &mut State<'p>, line: &Line<'p>) -> Result<bool, AllocError>
    requires { IsReady state.old }
    ensures ready { OnOk result (IsReady state.new) }
    ensures step { (program : typed.Program) (rows : List lines.Row) (entry : ℕ) (before : List specification.Line) → IsBehind program rows entry before state.old → IfOk result (IsStep program rows entry before (line_view line.now) state.new) }
{
    match line {
        Line::Entry(_) => Ok(false),
        Line::Block(it) => block(alloc, &mut state.names, &mut state.blocks, &state.types, it),
        Line::Range(it) => range(alloc, &state.names, &mut state.wants, it),
        Line::Points(it) => points(alloc, &state.names, &mut state.wants, it),
        Line::Stub(it) => stub(&state.names, &mut state.ranges, it),
        Line::Require(it) => require(alloc, &state.names, it),
    }
}

// The line of a row, if it fits; then the state is that behind it.
fn next_line<'p>(
    alloc: Global,
    state: &mut State<'p>,
    row: &Row<'p>,
) -> Result<Option<Line<'p>>, AllocError>
    requires { IsReady state.old }
    ensures ready { OnOk result (IsReady state.new) }
    ensures next { (program : typed.Program) (rows : List lines.Row) (entry : ℕ) (before : List specification.Line) → IsBehind program rows entry before state.old → IfOk result (λ line. IsNext (program_of program) rows before (row_view row.now).words (option_map line_view line)) }
    ensures along { (program : typed.Program) (rows : List lines.Row) (entry : ℕ) (before : List specification.Line) → IsBehind program rows entry before state.old → IfOk result (λ line. GoesAlong program rows entry before state.new (option_map line_view line)) }
{
    lines_are_read();
    match line_of(alloc, row.words.as_slice())? {
        None => Ok(None),
        Some(line) => {
            if step(alloc, state, &line)? {
                return Ok(Some(line));
            }
            Ok(None)
        }
    }
}

/// The lines of the rows from the first, of which this is the line, up to the first that doesn't fit.
pub fn lines_of<'p>(
    alloc: Global,
    state: &mut State<'p>,
    first: Line<'p>,
    rows: &[Row<'p>],
) -> Result<Vec<Line<'p>>, AllocError>
    requires { IsReady state.old }
    ensures ready { OnOk result (IsReady state.new) }
    ensures read { (program : typed.Program) (entry : ℕ) → IsBehind program (map row_view rows.now) entry (line_view first.entry ∷ []) state.old → AreFirst (program_of program) (map row_view rows.now) (line_view first.entry ∷ []) → IfOk result (λ lines. AreRead program (map row_view rows.now) entry (map line_view lines.items) state.new) }
{
    let mut lines = Vec::new(alloc);
    lines.push(first)?;
    for i in 1..rows.len() {
        match next_line(alloc, state, &rows[i])? {
            None => return Ok(lines),
            Some(line) => lines.push(line)?,
        }
    }
    Ok(lines)
}
