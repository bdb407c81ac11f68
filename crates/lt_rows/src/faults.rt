//! The command `annotate` between a shelf and a sink in memory of which one call fails.

use crate::annotations::annotated;
use crate::answers::told;
use crate::pairs::pair;
use crate::stop::Stop;
use lt_answers::Status;
use lt_outside::{MapShelf, VecSink};
use lt_sources::{put_text, read_file};
use std::alloc::Global;

const FILE: &str = "FILE";

/// A call that fails, by its number from 1.
#[derive(Clone, Copy)]
enum Fault {
    Read(u64),
    /// It takes so many bytes all the same.
    Put(u64, u64),
}

fn number(word: &str) -> Result<u64, Stop> {
    word.parse::<u64>().map_err(|_| Stop::NoNumber)
}

// The fault of a line.
fn fault_of(line: &[u8]) -> Result<Fault, Stop> {
    let line = std::str::from_utf8(line).map_err(|_| Stop::NoSuchFault)?;
    let line = line.strip_suffix("\n").unwrap_or(line);
    match line.split_once(' ') {
        Some(("read", call)) => Ok(Fault::Read(number(call)?)),
        Some(("put", rest)) => {
            let (call, taken) = rest.split_once(' ').ok_or(Stop::NoSuchFault)?;
            Ok(Fault::Put(number(call)?, number(taken)?))
        }
        _ => Err(Stop::NoSuchFault),
    }
}

// A shelf with the file, and a sink, of which these calls fail.
fn outside(
    alloc: Global,
    file: &[u8],
    reads: &[u64],
    puts: &[(u64, u64)],
) -> Result<(MapShelf, VecSink), Stop> {
    let mut shelf = MapShelf::new(alloc, reads)?;
    shelf.add(alloc, FILE, file)?;
    Ok((shelf, VecSink::new(alloc, puts)?))
}

// Reads the file, and puts it with the labels that options ask for.
fn command(
    alloc: Global,
    shelf: &mut MapShelf,
    sink: &mut VecSink,
    options: &str,
) -> Result<Status, Stop> {
    match read_file(alloc, shelf, FILE) {
        Err(status) => Ok(status),
        Ok(file) => {
            let text = annotated(alloc, file.as_slice(), options)?;
            Ok(put_text(sink, text.as_slice()))
        }
    }
}

/// How the command ends on a file past a fault, and what the sink has then.
pub fn ended(alloc: Global, text: &[u8], options: &str) -> Result<Vec<u8>, Stop> {
    let (file, line) = pair(text)?;
    let (mut shelf, mut sink) = match fault_of(line)? {
        Fault::Read(call) => outside(alloc, file, &[call], &[])?,
        Fault::Put(call, taken) => outside(alloc, file, &[], &[(call, taken)])?,
    };
    let status = command(alloc, &mut shelf, &mut sink, options)?;
    let mut out = told(alloc, &status)?;
    out.push(b'\n')?;
    out.extend_from_slice(sink.bytes())?;
    Ok(out)
}
