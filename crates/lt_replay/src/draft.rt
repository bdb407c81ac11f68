//! The table of the tests so far.

ghost use Rattle.std.specs.Prelude.{◌≡◌, ◌∷◌, [], IfOk, OnOk, map};
ghost use Rattle.lt_tree.specs.Typing.EntityView.{label_of};
ghost use Rattle.lt_cover.specs.Coverage.Table.{IsOrdered};
ghost use Rattle.lt_replay.specs.Drafts.{HasLabels, rows_of, table_of, with_name, with_test};

use crate::seen::Seen;
use lt_cover::{Coverage, LabelRow, TestRow};
use lt_model::{Name, Sequence};
use lt_tree::typed::LabelInfo;
use std::alloc::{AllocError, Global};
use std::collections::{BTreeMap, BTreeSet};

/// A label's tag, and the names of the tests so far that cover it.
#[derive(Drop)]
pub struct Tagged {
    pub tag: Name,
    pub by: Vec<Name>,
}

/// The rows of the tests so far, and the labels by their ids.
#[derive(Drop)]
pub struct Draft {
    pub tests: Vec<TestRow>,
    pub labels: BTreeMap<u32, Tagged>,
}

// The labels by their ids, where no test covers one yet. Of two labels of one id the first in the text counts, which is put in last.
fn labels_by_id(alloc: Global, labels: &[LabelInfo]) -> Result<BTreeMap<u32, Tagged>, AllocError>
    ensures { IfOk result (HasLabels (map label_of labels.now)) }
{
    let mut found = BTreeMap::new(alloc);
    'labels: for at in (0..labels.len()).rev() {
        let label = &labels[at];
        let tag = Name::new(alloc, label.tag.as_slice())?;
        let by = Vec::new(alloc);
        found.insert(label.id, Tagged { tag, by })?;
    }
    Ok(found)
}

// One more test covers a label, if there is one of this id.
fn cover(
    alloc: Global,
    labels: &mut BTreeMap<u32, Tagged>,
    id: u32,
    name: &[u8],
) -> Result<(), AllocError>
    ensures { OnOk result (rows_of labels.new ≡ map (with_name name.now (id ∷ [])) (rows_of labels.old)) }
{
    if let Some(label) = labels.get_mut(&id) {
        label.by.push(Name::new(alloc, name)?)?;
    }
    Ok(())
}

// One more test covers each label of these ids.
fn cover_all(
    alloc: Global,
    labels: &mut BTreeMap<u32, Tagged>,
    ids: &BTreeSet<u32>,
    name: &[u8],
) -> Result<(), AllocError>
    ensures { OnOk result (rows_of labels.new ≡ map (with_name name.now ids.now.keys) (rows_of labels.old)) }
{
    for id in ids {
        cover(alloc, labels, *id, name)?;
    }
    Ok(())
}

// The labels, in the order of their ids.
fn label_rows(alloc: Global, labels: BTreeMap<u32, Tagged>) -> Result<Vec<LabelRow>, AllocError>
    ensures { IfOk result (λ rows. rows.items ≡ rows_of labels) }
{
    let mut rows = Vec::with_capacity(alloc, labels.len())?;
    for (id, label) in labels {
        let by = Sequence::new(label.by);
        rows.push(LabelRow {
            id,
            tag: label.tag,
            by,
        })?;
    }
    Ok(rows)
}

impl Draft {
    /// The labels, and no tests.
    pub fn new(alloc: Global, labels: &[LabelInfo]) -> Result<Draft, AllocError>
        ensures tests { IfOk result (λ draft. draft.tests.items ≡ []) }
        ensures labels { IfOk result (λ draft. HasLabels (map label_of labels.now) draft.labels) }
    {
        let labels = labels_by_id(alloc, labels)?;
        Ok(Draft {
            tests: Vec::new(alloc),
            labels,
        })
    }

    /// One more test, with what was seen of it.
    pub fn add(&mut self, alloc: Global, name: &[u8], seen: Seen) -> Result<(), AllocError>
        ensures { OnOk result (table_of self.new ≡ with_test name.now seen (table_of self.old)) }
    {
        cover_all(alloc, &mut self.labels, &seen.covered, name)?;
        let name = Name::new(alloc, name)?;
        self.tests.push(TestRow {
            name,
            end: seen.end,
        })?;
        Ok(())
    }

    /// The whole table.
    pub fn into_coverage(self, alloc: Global) -> Result<Coverage, AllocError>
        requires { IsOrdered (table_of self) }
        ensures { IfOk result (λ coverage. coverage ≡ table_of self) }
    {
        let rows = label_rows(alloc, self.labels)?;
        Ok(Coverage::new(self.tests, rows, Vec::new(alloc)))
    }
}
