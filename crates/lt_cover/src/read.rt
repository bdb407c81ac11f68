//! Reads coverage files of both versions.

ghost use Rattle.std.specs.Prelude.{◌∷◌, []};
ghost use Rattle.lt_cover.specs.Coverage.Text.{header, version_word};
ghost use Rattle.lt_cover.specs.Coverage.Rows.{Reads, IsAny};
ghost use Rattle.lt_cover.specs.Coverage.Reading.{IsRead, IsReadFrom};

use crate::draft::Draft;
use crate::records::{Fields, rows_of};
use crate::rows::{Coverage, Version};
use crate::stops::CoverStop;
use lt_model::Sequence;
use std::alloc::Global;

// The version that a word tells.
fn version_written(word: &[u8]) -> Option<Version>
    ensures { Reads IsAny version_word word.now result }
{
    if word == b"1".as_slice() {
        Some(Version::One)
    } else if word == b"2".as_slice() {
        Some(Version::Two)
    } else {
        None
    }
}

// The version that a first row with these fields tells.
#[tactic(auto, using(crate::proofs::Headers::header_read))]
fn version_in(format: &[u8], version: &[u8], tag: &[u8], state: &[u8], by: &[u8]) -> Option<Version>
    ensures { Reads IsAny header (format.now ∷ version.now ∷ tag.now ∷ state.now ∷ by.now ∷ []) result }
{
    if format != b"ltest-cover".as_slice()
        || tag != b"tag".as_slice()
        || state != b"state".as_slice()
        || by != b"by".as_slice()
    {
        return None;
    }
    version_written(version)
}

// The version that a first row tells.
fn version_of(fields: &[Sequence<u8>]) -> Option<Version>
    ensures { Reads IsAny header fields.now result }
{
    if fields.len() != 5 {
        return None;
    }
    version_in(
        fields[0].as_slice(),
        fields[1].as_slice(),
        fields[2].as_slice(),
        fields[3].as_slice(),
        fields[4].as_slice(),
    )
}

// Reads the rows behind the first.
fn read_behind(alloc: Global, version: Version, rows: &[Fields]) -> Result<Coverage, CoverStop>
    ensures { IsReadFrom (header version ∷ rows.now) result }
{
    let mut draft = Draft::new(alloc, version);
    let mut number = 1_u32;
    for fields in rows {
        number = number.saturating_add(1);
        if !draft.take(alloc, fields.as_slice())? {
            return Err(CoverStop::Row(number));
        }
    }
    Ok(draft.into_coverage())
}

/// The table that a text stands for. `Row` comes exactly where it stands for none, with the first row that breaks the grammar.
pub fn read_cover(alloc: Global, text: &[u8]) -> Result<Coverage, CoverStop>
    ensures { IsRead text.now result }
{
    let rows = rows_of(alloc, text)?;
    let Some((first, rest)) = rows.as_slice().split_first() else {
        return Err(CoverStop::Row(1));
    };
    let Some(version) = version_of(first.as_slice()) else {
        return Err(CoverStop::Row(1));
    };
    read_behind(alloc, version, rest)
}
