//! The cells that rows with `range` name.

ghost use Rattle.std.specs.Prelude.{◌≡◌, ◌||◌, ℕ, List, IfOk, OnOk, map, option_map};
ghost use Rattle.std.specs.List.{list_any};
ghost use Rattle.lt_model.specs.declared.input.Place.{Place};
ghost use Rattle.lt_entry.specs.Naming.{Scope, named_by};
ghost use Rattle.lt_entry.specs.Conditions.{is_place_in, is_ranged_by, names_place};
ghost use Rattle.lt_entry.specs.Conditions as conditions;
ghost use Rattle.lt_entry.specs.Views.{place_view};
ghost use Rattle.lt_entry.specs.LineViews.{row_view};
ghost use Rattle.lt_input_names.specs.Views.{AreNames, scope_of};
ghost use Rattle.lt_spec_reader.specs.Frees.{has_place, HasRanged};

use lt_entry::{PlaceWord, Row, place_of};
use lt_input_names::{Names, Part};
use std::alloc::{AllocError, Global};
use std::collections::HashSet;

// The place of a row that begins with `range`, if it has one.
fn ranged_place<'p>(alloc: Global, row: &Row<'p>) -> Result<Option<PlaceWord<'p>>, AllocError>
    ensures { IfOk result (λ word. (scope : Scope) (place : Place) → is_ranged_by scope place (row_view row.now).words ≡ names_place scope place (option_map place_view word)) }
{
    let Some((keyword, behind)) = row.words.as_slice().split_first() else {
        return Ok(None);
    };
    let Some((word, _)) = behind.split_first() else {
        return Ok(None);
    };
    if *keyword == b"range".as_slice() {
        return place_of(alloc, word);
    }
    Ok(None)
}

// The places of parts of the object of this name.
fn put_parts<'p>(
    ranged: &mut HashSet<(&'p [u8], u64)>,
    name: &'p [u8],
    parts: &[Part],
) -> Result<(), AllocError>
    ensures { OnOk result ((place : Place) → has_place ranged.new place ≡ (has_place ranged.old place || list_any (λ part. conditions.same_place (record { root = name.now; offset = part.place.offset }) place) parts.now)) }
{
    for part in parts {
        ranged.insert((name, part.place.offset))?;
    }
    Ok(())
}

// The places that a place names.
fn put_place<'p>(
    alloc: Global,
    names: &Names<'_>,
    ranged: &mut HashSet<(&'p [u8], u64)>,
    word: &PlaceWord<'p>,
) -> Result<(), AllocError>
    requires { AreNames names.now }
    ensures { OnOk result ((place : Place) → has_place ranged.new place ≡ (has_place ranged.old place || is_place_in (named_by (scope_of names.now) (place_view word.now)) place)) }
{
    let parts = names.parts(alloc, word)?;
    put_parts(ranged, word.name, parts.as_slice())
}

// The places of the cells that a row names, if it begins with `range`.
fn put_row<'p>(
    alloc: Global,
    names: &Names<'_>,
    ranged: &mut HashSet<(&'p [u8], u64)>,
    row: &Row<'p>,
) -> Result<(), AllocError>
    requires { AreNames names.now }
    ensures { OnOk result ((place : Place) → has_place ranged.new place ≡ (has_place ranged.old place || is_ranged_by (scope_of names.now) place (row_view row.now).words)) }
{
    match ranged_place(alloc, row)? {
        None => Ok(()),
        Some(word) => put_place(alloc, names, ranged, &word),
    }
}

/// The places of the cells that rows with `range` name.
pub fn ranged_places<'p>(
    alloc: Global,
    names: &Names<'_>,
    rows: &[Row<'p>],
) -> Result<HashSet<(&'p [u8], u64)>, AllocError>
    requires { AreNames names.now }
    ensures { IfOk result (HasRanged (scope_of names.now) (map row_view rows.now)) }
{
    let mut ranged = HashSet::new(alloc);
    for row in rows {
        put_row(alloc, names, &mut ranged, row)?;
    }
    Ok(ranged)
}
