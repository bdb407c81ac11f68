//! The rows of a text, as CSV (RFC 4180) has them: fields between commas, quoted or not. A text in memory is read without a device, so
//! that reading fails for want of memory alone.

ghost use Rattle.std.specs.Prelude.{◌≡◌, ◌++◌, ◌∷◌, [], ℕ, List, IfOk, OnOk};
ghost use Rattle.csv.specs.Machine as csv;
ghost use Rattle.csv.specs.Reading.{default_config, strip_bom};
ghost use Rattle.lt_cover.specs.Coverage.Text.{HasRows};
ghost use Rattle.lt_cover.specs.Coverage.Records.{state_of, taken, Completes};

use lt_model::Sequence;
use std::alloc::{AllocError, Global};
use std::mem;

/// The fields of a row.
pub type Fields = Sequence<Sequence<u8>>;

/// Where the next byte of a text stands.
#[derive(Clone, Copy)]
enum Position {
    /// In front of a row, or of an empty line.
    RowStart,
    FieldStart,
    InField,
    InQuotes,
    /// Behind a quote in a quoted field: the last, or the first of two that stand for one.
    BehindQuote,
    /// Behind a carriage return that ended a row.
    BehindReturn,
}

/// What a byte does to the row at hand.
#[derive(Clone, Copy)]
enum Effect {
    Nothing,
    JoinsField,
    EndsField,
    EndsRow,
}

fn in_field(byte: u8) -> (Position, Effect)
    ensures { taken result ≡ csv.in_field default_config byte }
{
    match byte {
        b',' => (Position::FieldStart, Effect::EndsField),
        b'\r' => (Position::BehindReturn, Effect::EndsRow),
        b'\n' => (Position::RowStart, Effect::EndsRow),
        _ => (Position::InField, Effect::JoinsField),
    }
}

fn at_field_start(byte: u8) -> (Position, Effect)
    ensures { taken result ≡ csv.start_field default_config byte }
{
    if byte == b'"' {
        (Position::InQuotes, Effect::Nothing)
    } else {
        in_field(byte)
    }
}

fn at_row_start(byte: u8) -> (Position, Effect)
    ensures { taken result ≡ csv.start_record default_config byte }
{
    if byte == b'\r' || byte == b'\n' {
        (Position::RowStart, Effect::Nothing)
    } else {
        at_field_start(byte)
    }
}

// Where a byte leads, and what it does.
fn step(position: Position, byte: u8) -> (Position, Effect)
    ensures { taken result ≡ csv.step default_config (state_of position) byte }
{
    match position {
        Position::RowStart => at_row_start(byte),
        Position::FieldStart => at_field_start(byte),
        Position::InField => in_field(byte),
        Position::InQuotes if byte == b'"' => (Position::BehindQuote, Effect::Nothing),
        Position::InQuotes => (Position::InQuotes, Effect::JoinsField),
        Position::BehindQuote if byte == b'"' => (Position::InQuotes, Effect::JoinsField),
        Position::BehindQuote => in_field(byte),
        Position::BehindReturn if byte == b'\n' => (Position::RowStart, Effect::Nothing),
        Position::BehindReturn => at_row_start(byte),
    }
}

// Whether the end of the text ends a row here.
fn ends_at_end(position: Position) -> bool
    ensures { result ≡ csv.ends_at_end (state_of position) }
{
    !matches!(position, Position::RowStart | Position::BehindReturn)
}

/// What is read so far.
#[derive(Drop)]
struct Records {
    alloc: Global,
    rows: Vec<Fields>,
    /// The fields of the row at hand.
    fields: Vec<Sequence<u8>>,
    /// The bytes of the field at hand.
    bytes: Vec<u8>,
    position: Position,
}

impl Records {
    fn end_field(&mut self) -> Result<(), AllocError>
        ensures rows { self.new.rows ≡ self.old.rows }
        ensures fields { OnOk result (self.new.fields.items ≡ self.old.fields.items ++ self.old.bytes.items ∷ []) }
        ensures bytes { self.new.bytes.items ≡ [] }
        ensures position { self.new.position ≡ self.old.position }
    {
        let bytes = mem::replace(&mut self.bytes, Vec::new(self.alloc));
        self.fields.push(Sequence::new(bytes))?;
        Ok(())
    }

    fn end_row(&mut self) -> Result<(), AllocError>
        ensures rows { OnOk result (self.new.rows.items ≡ self.old.rows.items ++ (self.old.fields.items ++ self.old.bytes.items ∷ []) ∷ []) }
        ensures fields { OnOk result (self.new.fields.items ≡ []) }
        ensures bytes { OnOk result (self.new.bytes.items ≡ []) }
        ensures position { self.new.position ≡ self.old.position }
    {
        self.end_field()?;
        let fields = mem::replace(&mut self.fields, Vec::new(self.alloc));
        self.rows.push(Sequence::new(fields))?;
        Ok(())
    }

    // Reads the next byte.
    fn take(&mut self, byte: u8) -> Result<(), AllocError>
        ensures { OnOk result ((rest : List ℕ) (all : List (List (List ℕ))) → Completes self.new rest all → Completes self.old (byte ∷ rest) all) }
    {
        let (position, effect) = step(self.position, byte);
        self.position = position;
        match effect {
            Effect::Nothing => {}
            Effect::JoinsField => self.bytes.push(byte)?,
            Effect::EndsField => self.end_field()?,
            Effect::EndsRow => self.end_row()?,
        }
        Ok(())
    }

    // The rows, where the text ends here.
    fn into_rows(mut self) -> Result<Vec<Fields>, AllocError>
        ensures { IfOk result (λ rows. Completes self [] rows.items) }
    {
        if ends_at_end(self.position) {
            self.end_row()?;
        }
        Ok(self.rows)
    }
}

// The text without the byte order mark at its start.
fn without_mark(text: &[u8]) -> &[u8]
    ensures { result.now ≡ strip_bom text.now }
{
    if text.len() >= 3 && text[0] == 0xEF && text[1] == 0xBB && text[2] == 0xBF {
        &text[3..]
    } else {
        text
    }
}

/// The rows of a text.
pub fn rows_of(alloc: Global, text: &[u8]) -> Result<Vec<Fields>, AllocError>
    ensures { IfOk result (λ rows. HasRows text.now rows.items) }
{
    let mut records = Records {
        alloc,
        rows: Vec::new(alloc),
        fields: Vec::new(alloc),
        bytes: Vec::new(alloc),
        position: Position::RowStart,
    };
    for byte in without_mark(text) {
        records.take(*byte)?;
    }
    records.into_rows()
}
