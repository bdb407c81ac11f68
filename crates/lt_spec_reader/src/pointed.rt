//! The parameters for which no row says where they point.

ghost use Rattle.std.specs.Prelude.{◌≡◌, IfOk, List, ℕ, map, not, is_some, option_map};
ghost use Rattle.std.specs.List.{filter, list_any};
ghost use Rattle.lt_entry.specs.Reading.{read_target};
ghost use Rattle.lt_entry.specs.Conditions.{points_at};
ghost use Rattle.lt_entry.specs.LineViews.{row_view};
ghost use Rattle.lt_input_names.specs.Stubs.{has_name};
ghost use Rattle.lt_spec_reader.specs.Frees.{is_name_of, HasPointed};

use lt_entry::{Row, target_of};
use lt_tree::typed::Object;
use std::alloc::{AllocError, Global};
use std::collections::HashSet;

// Whether a word has the form of a target.
fn is_target(alloc: Global, word: &[u8]) -> Result<bool, AllocError>
    ensures { IfOk result (λ is. is ≡ is_some (read_target word.now)) }
{
    Ok(target_of(alloc, word)?.is_some())
}

// The name of which a row says where it points, if it says so of one.
fn pointed_name<'p>(alloc: Global, row: &Row<'p>) -> Result<Option<&'p [u8]>, AllocError>
    ensures { IfOk result (λ it. (name : List ℕ) → points_at name (row_view row.now).words ≡ is_name_of name (option_map (λ n. n.now) it)) }
{
    let Some((keyword, behind)) = row.words.as_slice().split_first() else {
        return Ok(None);
    };
    let Some((name, targets)) = behind.split_first() else {
        return Ok(None);
    };
    let Some((target, _)) = targets.split_first() else {
        return Ok(None);
    };
    if *keyword != b"points".as_slice() {
        return Ok(None);
    }
    if is_target(alloc, target)? {
        return Ok(Some(name));
    }
    Ok(None)
}

// The names of which rows say where they point.
fn pointed_names<'p>(alloc: Global, rows: &[Row<'p>]) -> Result<HashSet<&'p [u8]>, AllocError>
    ensures { IfOk result (HasPointed (map row_view rows.now)) }
{
    let mut names = HashSet::new(alloc);
    for row in rows {
        match pointed_name(alloc, row)? {
            None => {}
            Some(name) => {
                names.insert(name)?;
            }
        }
    }
    Ok(names)
}

// Those of the objects whose names aren't among these.
fn without_names<'p>(
    alloc: Global,
    objects: &[&'p Object],
    names: &HashSet<&[u8]>,
) -> Result<Vec<&'p Object>, AllocError>
    ensures { IfOk result (λ others. others.items ≡ filter (λ object. not (has_name names.now object.now.name)) objects.now) }
{
    let mut others = Vec::new(alloc);
    for object in objects {
        if !names.contains(object.name.as_slice()) {
            others.push(*object)?;
        }
    }
    Ok(others)
}

/// Those of the objects of which no row says where they point.
pub fn without_points<'p>(
    alloc: Global,
    objects: &[&'p Object],
    rows: &[Row<'_>],
) -> Result<Vec<&'p Object>, AllocError>
    ensures { IfOk result (λ others. others.items ≡ filter (λ object. not (list_any (λ row. points_at object.now.name row.words) (map row_view rows.now))) objects.now) }
{
    let names = pointed_names(alloc, rows)?;
    without_names(alloc, objects, &names)
}
