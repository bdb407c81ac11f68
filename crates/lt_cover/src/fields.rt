//! The rows that fields stand for.

ghost use Rattle.std.specs.Prelude.{◌≡◌, ◌∷◌, [], IfOk, codes};
ghost use Rattle.lt_cover.specs.Coverage.Names.{IsTag, IsTestName};
ghost use Rattle.lt_cover.specs.Coverage.Table.{IsTestRow, IsHyperRow};
ghost use Rattle.lt_cover.specs.Coverage.Text.{row_fields};
ghost use Rattle.lt_cover.specs.Coverage.Rows.{Reads, IsLabelForm, IsRow};
ghost use Rattle.lt_cover.specs.declared.rows.Row.TheVariants.{Test, Label, Hyper};

use crate::covering::covering;
use crate::names::{is_tag, is_test_name};
use crate::rows::{HyperRow, LabelRow, Row, TestRow};
use crate::values::{end_of, id_of, state_of};
use lt_model::{Name, Sequence};
use std::alloc::{AllocError, Global};

/// The fields of a row behind the first, by what they hold in most rows.
#[derive(Clone, Copy)]
pub struct Parts<'a> {
    pub name: &'a [u8],
    pub tag: &'a [u8],
    pub state: &'a [u8],
    pub by: &'a [u8],
}

fn test_of(alloc: Global, parts: Parts<'_>) -> Result<Option<TestRow>, AllocError>
    ensures { IfOk result (λ o. Reads IsTestRow (λ t. row_fields (Test t)) (codes "test" ∷ parts.entry.name.now ∷ parts.entry.tag.now ∷ parts.entry.state.now ∷ parts.entry.by.now ∷ []) o) }
{
    if !is_test_name(parts.name) || !parts.tag.is_empty() || !parts.by.is_empty() {
        return Ok(None);
    }
    let Some(end) = end_of(alloc, parts.state)? else {
        return Ok(None);
    };
    let name = Name::new(alloc, parts.name)?;
    Ok(Some(TestRow { name, end }))
}

fn label_of(alloc: Global, parts: Parts<'_>) -> Result<Option<LabelRow>, AllocError>
    ensures { IfOk result (λ o. Reads IsLabelForm (λ l. row_fields (Label l)) (codes "label" ∷ parts.entry.name.now ∷ parts.entry.tag.now ∷ parts.entry.state.now ∷ parts.entry.by.now ∷ []) o) }
{
    if !is_tag(parts.tag) {
        return Ok(None);
    }
    let Some(id) = id_of(parts.name) else {
        return Ok(None);
    };
    let Some(by) = covering(alloc, parts.state, parts.by)? else {
        return Ok(None);
    };
    let tag = Name::new(alloc, parts.tag)?;
    Ok(Some(LabelRow {
        id,
        tag,
        by: Sequence::new(by),
    }))
}

fn hyper_of(alloc: Global, parts: Parts<'_>) -> Result<Option<HyperRow>, AllocError>
    ensures { IfOk result (λ o. Reads IsHyperRow (λ h. row_fields (Hyper h)) (codes "hyper" ∷ parts.entry.name.now ∷ parts.entry.tag.now ∷ parts.entry.state.now ∷ parts.entry.by.now ∷ []) o) }
{
    if !is_tag(parts.tag) || !parts.by.is_empty() {
        return Ok(None);
    }
    let Some(id) = id_of(parts.name) else {
        return Ok(None);
    };
    let Some(state) = state_of(parts.state) else {
        return Ok(None);
    };
    let tag = Name::new(alloc, parts.tag)?;
    Ok(Some(HyperRow { id, tag, state }))
}

// The row of this kind.
fn row_of_kind(alloc: Global, kind: &[u8], parts: Parts<'_>) -> Result<Option<Row>, AllocError>
    ensures { IfOk result (λ o. Reads IsRow row_fields (kind.now ∷ parts.entry.name.now ∷ parts.entry.tag.now ∷ parts.entry.state.now ∷ parts.entry.by.now ∷ []) o) }
{
    if kind == b"test".as_slice() {
        Ok(match test_of(alloc, parts)? {
            Some(test) => Some(Row::Test(test)),
            None => None,
        })
    } else if kind == b"label".as_slice() {
        Ok(match label_of(alloc, parts)? {
            Some(label) => Some(Row::Label(label)),
            None => None,
        })
    } else if kind == b"hyper".as_slice() {
        Ok(match hyper_of(alloc, parts)? {
            Some(hyper) => Some(Row::Hyper(hyper)),
            None => None,
        })
    } else {
        Ok(None)
    }
}

/// The row with these fields.
pub fn row_of(alloc: Global, fields: &[Sequence<u8>]) -> Result<Option<Row>, AllocError>
    ensures { IfOk result (λ o. Reads IsRow row_fields fields.now o) }
{
    if fields.len() != 5 {
        return Ok(None);
    }
    let parts = Parts {
        name: fields[1].as_slice(),
        tag: fields[2].as_slice(),
        state: fields[3].as_slice(),
        by: fields[4].as_slice(),
    };
    row_of_kind(alloc, fields[0].as_slice(), parts)
}
