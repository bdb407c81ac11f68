//! The lines `range`.

ghost use Rattle.std.specs.Prelude.{◌≡◌, IfOk, OnOk, List, map, option_map, None, Some};
ghost use Rattle.std.specs.List.{find};
ghost use Rattle.lt_model.specs.declared.input.Place.{Place};
ghost use Rattle.lt_tree.specs.Typing.Entities.{or_else};
ghost use Rattle.lt_entry.specs.Written.{value_of};
ghost use Rattle.lt_entry.specs.SpecificationLines.{Line};
ghost use Rattle.lt_entry.specs.Conditions.{same_place, each_named};
ghost use Rattle.lt_entry.specs.Views.{numeral_view};
ghost use Rattle.lt_entry.specs.LineViews.{range_view};
ghost use Rattle.lt_input_names.specs.Views.{AreNames, scope_of, named_at};
ghost use Rattle.lt_spec_reader.specs.Said.{found_at, HasSaid, IsSaid, may_range};

use lt_entry::RangeLine;
use lt_input_names::{Names, Part};
use lt_input_wants::{Wants, may_have_range, say, value_of};
use lt_model::Want;
use std::alloc::{AllocError, Global};

// Whether a part may have the range of a line, and nothing is said of it.
fn may_have(names: &Names<'_>, wants: &Wants<'_>, line: &RangeLine<'_>, part: &Part) -> bool
    requires { AreNames names.now }
    ensures { (before : List Line) → HasSaid (scope_of names.now) before wants.now → result ≡ may_range (scope_of names.now) before (numeral_view line.now.low) (numeral_view line.now.high) (named_at names.now part.now) }
{
    let scalar = names.scalar(part.ty);
    may_have_range(
        wants,
        names.model(),
        &part.place,
        scalar,
        line.low,
        line.high,
    )
}

// Whether there are parts, and each may have the range of a line.
fn may_all_have(names: &Names<'_>, wants: &Wants<'_>, line: &RangeLine<'_>, parts: &[Part]) -> bool
    requires { AreNames names.now }
    ensures { (before : List Line) → HasSaid (scope_of names.now) before wants.now → result ≡ each_named (may_range (scope_of names.now) before (numeral_view line.now.low) (numeral_view line.now.high)) (map (named_at names.now) parts.now) }
{
    for part in parts {
        if !may_have(names, wants, line, part) {
            return false;
        }
    }
    !parts.is_empty()
}

// What a line says of a cell.
fn want_of(line: &RangeLine<'_>) -> Want
    ensures { result ≡ Want.Between (value_of (numeral_view line.now.low)) (value_of (numeral_view line.now.high)) }
{
    Want::Between(value_of(line.low), value_of(line.high))
}

// The range of a line is said of parts.
fn say_all<'p>(
    wants: &mut Wants<'p>,
    line: &RangeLine<'p>,
    parts: &[Part],
) -> Result<(), AllocError>
    ensures { OnOk result ((place : Place) → found_at wants.new place ≡ or_else (found_at wants.old place) (option_map (λ part. Want.Between (value_of (numeral_view line.now.low)) (value_of (numeral_view line.now.high))) (find (λ part. same_place (record { root = line.now.place.name.now; offset = part.place.offset }) place) parts.now))) }
{
    for part in parts {
        say(wants, line.place.name, part.place.offset, want_of(line))?;
    }
    Ok(())
}

/// Whether the line fits; if it does, what it says of cells is put to what others say.
pub fn range<'p>(
    alloc: Global,
    names: &Names<'p>,
    wants: &mut Wants<'p>,
    line: &RangeLine<'p>,
) -> Result<bool, AllocError>
    requires { AreNames names.now }
    ensures { IfOk result (IsSaid (scope_of names.now) (range_view line.now) wants.old wants.new) }
{
    let parts = names.parts(alloc, &line.place)?;
    if !may_all_have(names, wants, line, parts.as_slice()) {
        return Ok(false);
    }
    say_all(wants, line, parts.as_slice())?;
    Ok(true)
}
