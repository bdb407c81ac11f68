//! Writes coverage files.

ghost use Rattle.std.specs.Prelude.{◌≡◌, ◌++◌, ◌∷◌, [], IfOk, OnOk};
ghost use Rattle.std.specs.List.{flat_map};
ghost use Rattle.lt_cover.specs.Coverage.Text.{cover_text, line, row_fields};
ghost use Rattle.lt_cover.specs.declared.rows.Row.TheVariants.{Test, Label, Hyper};

use crate::rows::{Coverage, HyperRow, LabelRow, TestRow};
use crate::words::{end_word, label_word, names_text, state_word};
use std::alloc::{AllocError, Global};

// Writes a field and the byte behind it.
fn put_field(text: &mut Vec<u8>, field: &[u8], behind: u8) -> Result<(), AllocError>
    ensures { OnOk result (text.new.items ≡ text.old.items ++ (field.now ++ behind ∷ [])) }
{
    text.extend_from_slice(field)?;
    text.push(behind)?;
    Ok(())
}

// Writes a row of fields none of which needs quotes.
fn put_row(
    text: &mut Vec<u8>,
    kind: &[u8],
    name: &[u8],
    tag: &[u8],
    state: &[u8],
    by: &[u8],
) -> Result<(), AllocError>
    ensures { OnOk result (text.new.items ≡ text.old.items ++ line (kind.now ∷ name.now ∷ tag.now ∷ state.now ∷ by.now ∷ [])) }
{
    put_field(text, kind, b',')?;
    put_field(text, name, b',')?;
    put_field(text, tag, b',')?;
    put_field(text, state, b',')?;
    put_field(text, by, b'\n')?;
    Ok(())
}

fn put_test(alloc: Global, text: &mut Vec<u8>, test: &TestRow) -> Result<(), AllocError>
    ensures { OnOk result (text.new.items ≡ text.old.items ++ line (row_fields (Test test.now))) }
{
    let end = end_word(alloc, &test.end)?;
    put_row(
        text,
        b"test",
        test.name.as_slice(),
        b"",
        end.as_slice(),
        b"",
    )
}

fn put_label(alloc: Global, text: &mut Vec<u8>, label: &LabelRow) -> Result<(), AllocError>
    ensures { OnOk result (text.new.items ≡ text.old.items ++ line (row_fields (Label label.now))) }
{
    let id = label.id.to_string(alloc)?;
    let state = label_word(label.by.as_slice());
    let by = names_text(alloc, label.by.as_slice())?;
    put_row(
        text,
        b"label",
        id.as_bytes(),
        label.tag.as_slice(),
        state,
        by.as_slice(),
    )
}

fn put_hyper(alloc: Global, text: &mut Vec<u8>, hyper: &HyperRow) -> Result<(), AllocError>
    ensures { OnOk result (text.new.items ≡ text.old.items ++ line (row_fields (Hyper hyper.now))) }
{
    let id = hyper.id.to_string(alloc)?;
    put_row(
        text,
        b"hyper",
        id.as_bytes(),
        hyper.tag.as_slice(),
        state_word(hyper.state),
        b"",
    )
}

fn put_tests(alloc: Global, text: &mut Vec<u8>, tests: &[TestRow]) -> Result<(), AllocError>
    ensures { OnOk result (text.new.items ≡ text.old.items ++ flat_map (λ t. line (row_fields (Test t))) tests.now) }
{
    for test in tests {
        put_test(alloc, text, test)?;
    }
    Ok(())
}

fn put_labels(alloc: Global, text: &mut Vec<u8>, labels: &[LabelRow]) -> Result<(), AllocError>
    ensures { OnOk result (text.new.items ≡ text.old.items ++ flat_map (λ l. line (row_fields (Label l))) labels.now) }
{
    for label in labels {
        put_label(alloc, text, label)?;
    }
    Ok(())
}

fn put_hypers(alloc: Global, text: &mut Vec<u8>, hypers: &[HyperRow]) -> Result<(), AllocError>
    ensures { OnOk result (text.new.items ≡ text.old.items ++ flat_map (λ h. line (row_fields (Hyper h))) hypers.now) }
{
    for hyper in hypers {
        put_hyper(alloc, text, hyper)?;
    }
    Ok(())
}

/// The text of a table, in version 2: a coverage file, where names, tags and ids have their forms. It fails by want of memory alone.
pub fn write_cover(alloc: Global, c: &Coverage) -> Result<Vec<u8>, AllocError>
    ensures { IfOk result (λ v. v.items ≡ cover_text c.now) }
{
    let mut text = Vec::new(alloc);
    put_row(&mut text, b"ltest-cover", b"2", b"tag", b"state", b"by")?;
    put_tests(alloc, &mut text, c.tests())?;
    put_labels(alloc, &mut text, c.labels())?;
    put_hypers(alloc, &mut text, c.hypers())?;
    Ok(text)
}
