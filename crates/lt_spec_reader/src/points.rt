//! The lines `points`.

ghost use Rattle.std.specs.Prelude.{◌≡◌, ◌++◌, ◌==◌, IfOk, OnOk, List, length, map, not, option_map, None, Some};
ghost use Rattle.std.specs.List.{find, flat_map, list_all};
ghost use Rattle.lt_model.specs.declared.input.Place.{Place};
ghost use Rattle.lt_tree.specs.Typing.Types.{target_of};
ghost use Rattle.lt_tree.specs.Typing.Entities.{or_else};
ghost use Rattle.lt_entry.specs.Naming.{targets_of};
ghost use Rattle.lt_entry.specs.SpecificationLines.{Line};
ghost use Rattle.lt_entry.specs.Conditions.{same_place, each_named, have_targets};
ghost use Rattle.lt_entry.specs.Meaning.{targets_for};
ghost use Rattle.lt_entry.specs.Views.{target_view};
ghost use Rattle.lt_entry.specs.LineViews.{points_view};
ghost use Rattle.lt_input_names.specs.Views.{AreNames, scope_of, type_at, named_at};
ghost use Rattle.lt_spec_reader.specs.Said.{found_at, HasSaid, IsSaid, may_point};

use lt_entry::{PointsLine, TargetWord};
use lt_input_names::{Names, Part, PartType};
use lt_input_wants::{Wants, is_said, say};
use lt_model::{Place, Sequence, Want};
use std::alloc::{AllocError, Global};

// Whether this is a target of a pointer to this type.
fn is_target(
    alloc: Global,
    names: &Names<'_>,
    pointed: PartType,
    target: &TargetWord<'_>,
) -> Result<bool, AllocError>
    requires { AreNames names.now }
    ensures { IfOk result (λ is. is ≡ not (length (targets_of (scope_of names.now) (type_at names.now pointed) (target_view target.now)) == 0)) }
{
    let places = names.targets(alloc, pointed, target)?;
    Ok(!places.as_slice().is_empty())
}

// Whether each of these is a target of a pointer to this type.
fn are_targets(
    alloc: Global,
    names: &Names<'_>,
    pointed: PartType,
    targets: &[TargetWord<'_>],
) -> Result<bool, AllocError>
    requires { AreNames names.now }
    ensures { IfOk result (λ are. are ≡ list_all (λ target. not (length (targets_of (scope_of names.now) (type_at names.now pointed) target) == 0)) (map target_view targets.now)) }
{
    for target in targets {
        if !is_target(alloc, names, pointed, target)? {
            return Ok(false);
        }
    }
    Ok(true)
}

// Behind these, the addresses that a target names for a pointer to this type.
fn put_targets(
    alloc: Global,
    names: &Names<'_>,
    all: &mut Vec<Option<Place>>,
    pointed: PartType,
    target: &TargetWord<'_>,
) -> Result<(), AllocError>
    requires { AreNames names.now }
    ensures { OnOk result (all.new.items ≡ all.old.items ++ targets_of (scope_of names.now) (type_at names.now pointed) (target_view target.now)) }
{
    let mut places = names.targets(alloc, pointed, target)?;
    all.append(&mut places)
}

// The addresses that targets name for a pointer to this type.
fn all_targets(
    alloc: Global,
    names: &Names<'_>,
    pointed: PartType,
    targets: &[TargetWord<'_>],
) -> Result<Vec<Option<Place>>, AllocError>
    requires { AreNames names.now }
    ensures { IfOk result (λ all. all.items ≡ flat_map (targets_of (scope_of names.now) (type_at names.now pointed)) (map target_view targets.now)) }
{
    let mut all = Vec::new(alloc);
    for target in targets {
        put_targets(alloc, names, &mut all, pointed, target)?;
    }
    Ok(all)
}

// Whether a part is a pointer to which each target of a line may be given.
fn have_targets(
    alloc: Global,
    names: &Names<'_>,
    targets: &[TargetWord<'_>],
    part: &Part,
) -> Result<bool, AllocError>
    requires { AreNames names.now }
    ensures { IfOk result (λ have. have ≡ have_targets (scope_of names.now) (map target_view targets.now) (target_of (type_at names.now part.now.ty))) }
{
    if targets.is_empty() {
        return Ok(false);
    }
    match names.target(part.ty) {
        None => Ok(false),
        Some(pointed) => are_targets(alloc, names, pointed, targets),
    }
}

// The addresses that targets name for a part.
fn targets_for(
    alloc: Global,
    names: &Names<'_>,
    targets: &[TargetWord<'_>],
    part: &Part,
) -> Result<Vec<Option<Place>>, AllocError>
    requires { AreNames names.now }
    ensures { IfOk result (λ all. all.items ≡ targets_for (scope_of names.now) (map target_view targets.now) (type_at names.now part.now.ty)) }
{
    match names.target(part.ty) {
        None => Ok(Vec::new(alloc)),
        Some(pointed) => all_targets(alloc, names, pointed, targets),
    }
}

// Whether a part may point to the targets of a line, and nothing is said of it.
fn may_point(
    alloc: Global,
    names: &Names<'_>,
    wants: &Wants<'_>,
    line: &PointsLine<'_>,
    part: &Part,
) -> Result<bool, AllocError>
    requires { AreNames names.now }
    ensures { (before : List Line) → HasSaid (scope_of names.now) before wants.now → IfOk result (λ may. may ≡ may_point (scope_of names.now) before (map target_view line.now.targets.items) (named_at names.now part.now)) }
{
    let have = have_targets(alloc, names, line.targets.as_slice(), part)?;
    Ok(have & !is_said(wants, &part.place))
}

// Whether there are parts, and each may point to the targets of a line.
fn may_all_point(
    alloc: Global,
    names: &Names<'_>,
    wants: &Wants<'_>,
    line: &PointsLine<'_>,
    parts: &[Part],
) -> Result<bool, AllocError>
    requires { AreNames names.now }
    ensures { (before : List Line) → HasSaid (scope_of names.now) before wants.now → IfOk result (λ may. may ≡ each_named (may_point (scope_of names.now) before (map target_view line.now.targets.items)) (map (named_at names.now) parts.now)) }
{
    for part in parts {
        if !may_point(alloc, names, wants, line, part)? {
            return Ok(false);
        }
    }
    Ok(!parts.is_empty())
}

// The targets of a line are said of parts.
fn say_all<'p>(
    alloc: Global,
    names: &Names<'p>,
    wants: &mut Wants<'p>,
    line: &PointsLine<'p>,
    parts: &[Part],
) -> Result<(), AllocError>
    requires { AreNames names.now }
    ensures { OnOk result ((place : Place) → found_at wants.new place ≡ or_else (found_at wants.old place) (option_map (λ part. Want.OneOf (targets_for (scope_of names.now) (map target_view line.now.targets.items) (type_at names.now part.ty))) (find (λ part. same_place (record { root = line.now.place.name.now; offset = part.place.offset }) place) parts.now))) }
{
    for part in parts {
        let targets = targets_for(alloc, names, line.targets.as_slice(), part)?;
        let want = Want::OneOf(Sequence::new(targets));
        say(wants, line.place.name, part.place.offset, want)?;
    }
    Ok(())
}

/// Whether the line fits; if it does, what it says of cells is put to what others say.
pub fn points<'p>(
    alloc: Global,
    names: &Names<'p>,
    wants: &mut Wants<'p>,
    line: &PointsLine<'p>,
) -> Result<bool, AllocError>
    requires { AreNames names.now }
    ensures { IfOk result (IsSaid (scope_of names.now) (points_view line.now) wants.old wants.new) }
{
    let parts = names.parts(alloc, &line.place)?;
    if !may_all_point(alloc, names, wants, line, parts.as_slice())? {
        return Ok(false);
    }
    say_all(alloc, names, wants, line, parts.as_slice())?;
    Ok(true)
}
