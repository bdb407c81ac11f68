ghost use Rattle.std.specs.Prelude.{◌≡◌, IfOk, map};
ghost use Rattle.std.specs.List.{slice_split};
ghost use Rattle.std.specs.Str.Lines.{strip_carriage_return};
ghost use Rattle.lt_entry.specs.Lines as lines;
ghost use Rattle.lt_entry.specs.Lines.{is_skipped, lines_among, pieces_of};
ghost use Rattle.lt_entry.specs.LineViews.{row_view};

use std::alloc::{AllocError, Global};

/// A line that isn't skipped: its number in the text, from 1, and its words.
#[derive(Drop)]
pub struct Row<'a> {
    pub number: u64,
    pub words: Vec<&'a [u8]>,
}

// The line without the carriage return at its end.
fn without_return(line: &[u8]) -> &[u8]
    ensures { result.now ≡ strip_carriage_return line.now }
{
    if !line.is_empty() && line[line.len() - 1] == b'\r' {
        return &line[..line.len() - 1];
    }
    line
}

fn is_skipped(line: &[u8]) -> bool
    ensures { result ≡ is_skipped line.now }
{
    match line.split_first() {
        Some((first, _)) => *first == b'#',
        None => true,
    }
}

fn words_of<'a>(alloc: Global, line: &'a [u8]) -> Result<Vec<&'a [u8]>, AllocError>
    ensures { IfOk result (λ v. map (λ word. word.now) v.items ≡ lines.words_of line.now) }
{
    line.split(|b| *b == b' ')
        .filter(|word| !word.is_empty())
        .collect(alloc)
}

fn pieces_of<'a>(alloc: Global, text: &'a [u8]) -> Result<Vec<&'a [u8]>, AllocError>
    ensures { IfOk result (λ v. map (λ piece. piece.now) v.items ≡ pieces_of text.now) }
{
    text.split(|b| *b == b'\n').collect(alloc)
}

/// The lines of a text that aren't skipped.
pub fn rows_of<'a>(alloc: Global, text: &'a [u8]) -> Result<Vec<Row<'a>>, AllocError>
    ensures { IfOk result (λ v. map row_view v.items ≡ lines.rows_of text.now) }
{
    let pieces = pieces_of(alloc, text)?;
    let lines = pieces.as_slice();
    let mut rows = Vec::new(alloc);
    for (i, piece) in lines.iter().enumerate() {
        let line = without_return(piece);
        if !is_skipped(line) {
            rows.push(Row {
                number: i as u64 + 1,
                words: words_of(alloc, line)?,
            })?;
        }
    }
    Ok(rows)
}

fn lines_among(pieces: &[&[u8]]) -> usize
    ensures { result ≡ lines_among (map (λ piece. piece.now) pieces.now) }
{
    match pieces.split_last() {
        Some((last, others)) => {
            if last.is_empty() {
                others.len()
            } else {
                pieces.len()
            }
        }
        None => 0,
    }
}

/// How many lines a text has.
pub fn count_of_lines(alloc: Global, text: &[u8]) -> Result<usize, AllocError>
    ensures { IfOk result (λ n. n ≡ lines.count_of_lines text.now) }
{
    Ok(lines_among(pieces_of(alloc, text)?.as_slice()))
}
