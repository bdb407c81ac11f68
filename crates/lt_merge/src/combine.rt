//! Merges tables.

ghost use Rattle.std.specs.Prelude.{◌≡◌, IfOk, MatchOption, All};
ghost use Rattle.std.specs.List.Sorted.{IsStrictlySortedBy};
ghost use Rattle.std.specs.Ordering.{nat_cmp};
ghost use Rattle.lt_cover.specs.declared.rows.LabelRow.{LabelRow};
ghost use Rattle.lt_cover.specs.Coverage.Table.{NamesRise, label_ids, hyper_ids};
ghost use Rattle.lt_cover.specs.Coverage.Merge.{EachMerged, IsLeastMixed, IsMergeAnswer, IsMergedHyper, greater, hyper_keys, label_keys};
ghost use Rattle.lt_merge.specs.Keys.{IsRisingLabel, IsSameHyper, IsSameLabel};

use crate::agree::{first_mixed, keys_of_hypers, keys_of_labels};
use crate::outcomes::tests_of_either;
use crate::union::names_of_either;
use lt_cover::{Coverage, HyperRow, HyperState, LabelRow, MergeStop};
use lt_model::{Name, Sequence};
use std::alloc::{AllocError, Global};

// The least label on which two tables don't agree.
fn mixed_label(alloc: Global, a: &[LabelRow], b: &[LabelRow]) -> Result<Option<u32>, AllocError>
    requires first { IsStrictlySortedBy nat_cmp (label_ids a.now) }
    requires second { IsStrictlySortedBy nat_cmp (label_ids b.now) }
    ensures { IfOk result (λ id. MatchOption id (label_keys a.now ≡ label_keys b.now) (IsLeastMixed (label_keys a.now) (label_keys b.now))) }
{
    let left = keys_of_labels(alloc, a)?;
    let right = keys_of_labels(alloc, b)?;
    Ok(first_mixed(left.as_slice(), right.as_slice()))
}

// The least hyperlabel on which two tables don't agree.
fn mixed_hyper(alloc: Global, a: &[HyperRow], b: &[HyperRow]) -> Result<Option<u32>, AllocError>
    requires first { IsStrictlySortedBy nat_cmp (hyper_ids a.now) }
    requires second { IsStrictlySortedBy nat_cmp (hyper_ids b.now) }
    ensures { IfOk result (λ id. MatchOption id (hyper_keys a.now ≡ hyper_keys b.now) (IsLeastMixed (hyper_keys a.now) (hyper_keys b.now))) }
{
    let left = keys_of_hypers(alloc, a)?;
    let right = keys_of_hypers(alloc, b)?;
    Ok(first_mixed(left.as_slice(), right.as_slice()))
}

fn merged_label(alloc: Global, a: &LabelRow, b: &LabelRow) -> Result<LabelRow, AllocError>
    requires same { IsSameLabel a.now b.now }
    requires first { NamesRise a.now.by }
    requires second { NamesRise b.now.by }
    ensures { IfOk result (IsRisingLabel a.now b.now) }
{
    let by = names_of_either(alloc, a.by.as_slice(), b.by.as_slice())?;
    Ok(LabelRow {
        id: a.id,
        tag: Name::new(alloc, a.tag.as_slice())?,
        by: Sequence::new(by),
    })
}

fn merged_labels(alloc: Global, a: &[LabelRow], b: &[LabelRow]) -> Result<Vec<LabelRow>, AllocError>
    requires same { label_keys a.now ≡ label_keys b.now }
    requires first { All (λ (l : LabelRow). NamesRise l.by) a.now }
    requires second { All (λ (l : LabelRow). NamesRise l.by) b.now }
    ensures { IfOk result (λ v. EachMerged IsRisingLabel a.now b.now v.items) }
{
    let mut labels = Vec::new(alloc);
    for i in 0..a.len() {
        labels.push(merged_label(alloc, &a[i], &b[i])?)?;
    }
    Ok(labels)
}

fn greater(a: HyperState, b: HyperState) -> HyperState
    ensures { result ≡ greater a b }
{
    match a {
        HyperState::Covered => HyperState::Covered,
        HyperState::TooWide => match b {
            HyperState::Covered => HyperState::Covered,
            HyperState::TooWide | HyperState::Uncovered => HyperState::TooWide,
        },
        HyperState::Uncovered => b,
    }
}

fn merged_hyper(alloc: Global, a: &HyperRow, b: &HyperRow) -> Result<HyperRow, AllocError>
    requires { IsSameHyper a.now b.now }
    ensures { IfOk result (IsMergedHyper a.now b.now) }
{
    Ok(HyperRow {
        id: a.id,
        tag: Name::new(alloc, a.tag.as_slice())?,
        state: greater(a.state, b.state),
    })
}

fn merged_hypers(alloc: Global, a: &[HyperRow], b: &[HyperRow]) -> Result<Vec<HyperRow>, AllocError>
    requires { hyper_keys a.now ≡ hyper_keys b.now }
    ensures { IfOk result (λ v. EachMerged IsMergedHyper a.now b.now v.items) }
{
    let mut hypers = Vec::new(alloc);
    for i in 0..a.len() {
        hypers.push(merged_hyper(alloc, &a[i], &b[i])?)?;
    }
    Ok(hypers)
}

/// The merge of two tables, or the first on which they don't agree: the least label, else the least hyperlabel, else the least
/// test. It takes time linear in both tables.
pub fn merge(alloc: Global, a: &Coverage, b: &Coverage) -> Result<Coverage, MergeStop>
    ensures { IsMergeAnswer a.now b.now result }
{
    if let Some(id) = mixed_label(alloc, a.labels(), b.labels())? {
        return Err(MergeStop::Label(id));
    }
    if let Some(id) = mixed_hyper(alloc, a.hypers(), b.hypers())? {
        return Err(MergeStop::Hyper(id));
    }
    let tests = tests_of_either(alloc, a.tests(), b.tests())?;
    let labels = merged_labels(alloc, a.labels(), b.labels())?;
    let hypers = merged_hypers(alloc, a.hypers(), b.hypers())?;
    Ok(Coverage::new(tests, labels, hypers))
}
