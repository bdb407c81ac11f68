// Lines are checked in turn; what a side of a split adds is forgotten at its end.
ghost use Rattle.std.specs.Prelude.{◌≡◌, ◌+◌, ◌≤◌, ◌↔◌, [], ◌∷◌, ◌++◌, length, IsTrue, OnOk};
ghost use Rattle.lt_lin.specs.Rows.{HasContradiction};
ghost use Rattle.lt_lin.specs.Lines.{combination, division, split, before_lines, lines_of};
ghost use Rattle.lt_lin.specs.Room.{places};
ghost use Rattle.lt_lin.specs.Taking.{IsTaken, IsFollowed};

use crate::derive::{
    contradicts, high_constant, quotient_of_row, sum_of_rows, terms_added, terms_in,
};
use crate::desk::Desk;
use crate::line::Line;
use crate::terms::Terms;
use std::alloc::AllocError;

/// What a list of lines has brought so far.
#[derive(Clone, Copy)]
pub(crate) struct Seen {
    /// A row that is known is a contradiction.
    pub(crate) contradiction: bool,
    /// The list holds a split.
    pub(crate) split: bool,
}

/// Whether the lines refute the rows that are known. The rows that the lines give stay behind those.
#[cycle(lines)]
pub(crate) fn follow(
    desk: &mut Desk,
    contradiction: bool,
    lines: &[Line],
) -> Result<bool, AllocError>
    requires { IsTrue contradiction ↔ HasContradiction desk.old.known.rows }
    ensures { IsFollowed (lines_of lines.now) desk.old.known.rows desk.old.limit result desk.new.known.rows desk.new.limit }
{
    let mut seen = Seen {
        contradiction,
        split: false,
    };
    'lines: for line in lines {
        match take(desk, seen, line)? {
            None => return Ok(false),
            Some(more) => seen = more,
        }
    }
    Ok(seen.contradiction || seen.split)
}

// What was seen with the line, or None where the line isn't valid.
#[cycle(lines)]
fn take(desk: &mut Desk, seen: Seen, line: &Line) -> Result<Option<Seen>, AllocError>
    requires { IsTrue seen.contradiction ↔ HasContradiction desk.old.known.rows }
    ensures { IsTaken (before_lines line.now) seen desk.old.known.rows desk.old.limit result desk.new.known.rows desk.new.limit }
{
    match line {
        Line::Combine(pairs) => take_combination(desk, seen, pairs),
        Line::Divide(row, divisor) => take_division(desk, seen, *row, *divisor),
        Line::Split(terms, bound, low, high) => take_split(desk, seen, terms, *bound, low, high),
    }
}

#[cycle(lines)]
fn take_split(
    desk: &mut Desk,
    seen: Seen,
    terms: &Terms,
    bound: i128,
    low: &[Line],
    high: &[Line],
) -> Result<Option<Seen>, AllocError>
    requires { IsTrue seen.contradiction ↔ HasContradiction desk.old.known.rows }
    ensures { IsTaken (split terms.now bound (lines_of low.now) (lines_of high.now)) seen desk.old.known.rows desk.old.limit result desk.new.known.rows desk.new.limit }
{
    let terms = terms.as_slice();
    let Some(high_constant) = high_constant(terms, bound) else {
        return Ok(None);
    };
    desk.make_room(terms.len())?;
    desk.scratch.set_negated(terms);
    if !check_side(desk, seen.contradiction, bound, low)? {
        return Ok(None);
    }
    desk.scratch.set(terms);
    if !check_side(desk, seen.contradiction, high_constant, high)? {
        return Ok(None);
    }
    Ok(Some(Seen {
        contradiction: seen.contradiction,
        split: true,
    }))
}

// Whether the lines refute the rows that are known and one more, whose terms are made already; the row is forgotten again.
#[cycle(lines)]
fn check_side(
    desk: &mut Desk,
    contradiction: bool,
    constant: i128,
    lines: &[Line],
) -> Result<bool, AllocError>
    requires told { IsTrue contradiction ↔ HasContradiction desk.old.known.rows }
    requires room { places desk.old.known.rows + 1 + length desk.old.scratch.terms ≤ desk.old.limit }
    ensures followed { IsFollowed (lines_of lines.now) (desk.old.known.rows ++ record { terms = desk.old.scratch.terms; constant = constant } ∷ []) desk.old.limit result (desk.old.known.rows ++ record { terms = desk.old.scratch.terms; constant = constant } ∷ []) desk.new.limit }
    ensures rows { OnOk result (desk.new.known.rows ≡ desk.old.known.rows) }
{
    let count = desk.known.len();
    let contradiction = contradicts(contradiction, desk.scratch.terms(), constant);
    desk.keep(constant);
    let refuted = follow(desk, contradiction, lines)?;
    desk.known.truncate(count);
    Ok(refuted)
}

fn take_combination(
    desk: &mut Desk,
    seen: Seen,
    pairs: &[(u32, i128)],
) -> Result<Option<Seen>, AllocError>
    requires { IsTrue seen.contradiction ↔ HasContradiction desk.old.known.rows }
    ensures { IsTaken (combination pairs.now) seen desk.old.known.rows desk.old.limit result desk.new.known.rows desk.new.limit }
{
    let Some(terms) = terms_added(&desk.known, pairs) else {
        return Err(AllocError);
    };
    desk.make_room(terms)?;
    let sum = sum_of_rows(&desk.known, pairs, &mut desk.scratch);
    match sum {
        None => Ok(None),
        Some(constant) => Ok(Some(keep_row(desk, seen, constant))),
    }
}

fn take_division(
    desk: &mut Desk,
    seen: Seen,
    row: u32,
    divisor: i128,
) -> Result<Option<Seen>, AllocError>
    requires { IsTrue seen.contradiction ↔ HasContradiction desk.old.known.rows }
    ensures { IsTaken (division row divisor) seen desk.old.known.rows desk.old.limit result desk.new.known.rows desk.new.limit }
{
    let terms = terms_in(&desk.known, row);
    desk.make_room(terms)?;
    let quotient = quotient_of_row(&desk.known, row, divisor, &mut desk.scratch);
    match quotient {
        None => Ok(None),
        Some(constant) => Ok(Some(keep_row(desk, seen, constant))),
    }
}

// Makes the row known that has the terms that were made and the constant.
fn keep_row(desk: &mut Desk, seen: Seen, constant: i128) -> Seen
    requires told { IsTrue seen.contradiction ↔ HasContradiction desk.old.known.rows }
    requires room { places desk.old.known.rows + 1 + length desk.old.scratch.terms ≤ desk.old.limit }
    ensures told { IsTrue result.contradiction ↔ HasContradiction desk.new.known.rows }
    ensures split { result.split ≡ seen.split }
    ensures rows { desk.new.known.rows ≡ desk.old.known.rows ++ record { terms = desk.old.scratch.terms; constant = constant } ∷ [] }
    ensures limit { desk.new.limit ≡ desk.old.limit }
{
    let contradiction = contradicts(seen.contradiction, desk.scratch.terms(), constant);
    desk.keep(constant);
    Seen {
        contradiction,
        split: seen.split,
    }
}
