//! Requirements whose cells aren't free.

ghost use Rattle.std.specs.Prelude.{◌≡◌, List, IfOk, map, option_map, slice_get};
ghost use Rattle.std.specs.List.{list_all};
ghost use Rattle.lt_entry.specs.Lines as written;
ghost use Rattle.lt_entry.specs.Naming.{named_by};
ghost use Rattle.lt_entry.specs.Conditions.{is_free, needs_free};
ghost use Rattle.lt_entry.specs.Specifications.{unfree_rows};
ghost use Rattle.lt_entry.specs.Views.{place_view};
ghost use Rattle.lt_entry.specs.LineViews.{row_view, addend_view, require_view, line_view};
ghost use Rattle.lt_input_names.specs.Views.{AreNames, scope_of, named_at};
ghost use Rattle.lt_spec_reader.specs.Frees.{AreFree, first_of};

use crate::free::Free;
use lt_entry::{Addend, Line, PlaceWord, RequireLine, Row};
use lt_input_names::{Names, Part};
use std::alloc::{AllocError, Global};

fn is_free(free: &Free<'_>, part: &Part) -> bool
    ensures { (names : Names) (rows : List written.Row) → AreFree (scope_of names) rows free.now → result ≡ is_free (scope_of names) rows (named_at names part.now) }
{
    let name = part.place.root.as_slice();
    free.own.contains(name) | free.ranged.contains(&(name, part.place.offset))
}

fn are_free(free: &Free<'_>, parts: &[Part]) -> bool
    ensures { (names : Names) (rows : List written.Row) → AreFree (scope_of names) rows free.now → result ≡ list_all (is_free (scope_of names) rows) (map (named_at names) parts.now) }
{
    for part in parts {
        if !is_free(free, part) {
            return false;
        }
    }
    true
}

// Whether the cells that a place names are free.
fn is_place_free(
    alloc: Global,
    names: &Names<'_>,
    free: &Free<'_>,
    place: &PlaceWord<'_>,
) -> Result<bool, AllocError>
    requires { AreNames names.now }
    ensures { (rows : List written.Row) → AreFree (scope_of names.now) rows free.now → IfOk result (λ is. is ≡ list_all (is_free (scope_of names.now) rows) (named_by (scope_of names.now) (place_view place.now))) }
{
    let parts = names.parts(alloc, place)?;
    Ok(are_free(free, parts.as_slice()))
}

fn are_addends_free(
    alloc: Global,
    names: &Names<'_>,
    free: &Free<'_>,
    addends: &[Addend<'_>],
) -> Result<bool, AllocError>
    requires { AreNames names.now }
    ensures { (rows : List written.Row) → AreFree (scope_of names.now) rows free.now → IfOk result (λ are. are ≡ list_all (λ addend. list_all (is_free (scope_of names.now) rows) (named_by (scope_of names.now) addend.term.place)) (map addend_view addends.now)) }
{
    for addend in addends {
        if !is_place_free(alloc, names, free, &addend.term.place)? {
            return Ok(false);
        }
    }
    Ok(true)
}

// Whether the cells of a requirement are free.
fn needs_free(
    alloc: Global,
    names: &Names<'_>,
    free: &Free<'_>,
    line: &RequireLine<'_>,
) -> Result<bool, AllocError>
    requires { AreNames names.now }
    ensures { (rows : List written.Row) → AreFree (scope_of names.now) rows free.now → IfOk result (λ needs. needs ≡ needs_free (scope_of names.now) rows (require_view line.now)) }
{
    if !is_place_free(alloc, names, free, &line.first.place)? {
        return Ok(false);
    }
    are_addends_free(alloc, names, free, line.others.as_slice())
}

// Whether the cells of a line's requirement, if it has one, are free.
fn is_line_free(
    alloc: Global,
    names: &Names<'_>,
    free: &Free<'_>,
    line: &Line<'_>,
) -> Result<bool, AllocError>
    requires { AreNames names.now }
    ensures { (rows : List written.Row) → AreFree (scope_of names.now) rows free.now → IfOk result (λ is. is ≡ needs_free (scope_of names.now) rows (line_view line.now)) }
{
    match line {
        Line::Require(it) => needs_free(alloc, names, free, it),
        Line::Entry(_) | Line::Block(_) | Line::Range(_) | Line::Points(_) | Line::Stub(_) => Ok(
            true,
        ),
    }
}

/// The number of the row at a place, if there is one.
pub fn number_at(rows: &[Row<'_>], i: usize) -> Option<u64>
    ensures { result ≡ option_map (λ row. (row_view row).number) (slice_get rows.now i) }
{
    match rows.get(i) {
        None => None,
        Some(row) => Some(row.number),
    }
}

/// The number of the first row whose requirement has a cell that isn't free, if there is one among the rows of these lines.
pub fn first_unfree(
    alloc: Global,
    names: &Names<'_>,
    free: &Free<'_>,
    rows: &[Row<'_>],
    lines: &[Line<'_>],
) -> Result<Option<u64>, AllocError>
    requires { AreNames names.now }
    ensures { (all : List written.Row) → AreFree (scope_of names.now) all free.now → IfOk result (λ number. number ≡ first_of (unfree_rows (scope_of names.now) all (map row_view rows.now) (map line_view lines.now))) }
{
    for (i, line) in lines.iter().enumerate() {
        if !is_line_free(alloc, names, free, line)? {
            return Ok(number_at(rows, i));
        }
    }
    Ok(None)
}
