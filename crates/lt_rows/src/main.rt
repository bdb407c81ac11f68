//! Texts of C with what has to come of them: the rows of the files that the arguments name. `docs/ROWS.md` says how rows are written.
#![tactic(auto)]

mod annotations;
mod answers;
mod covers;
mod escapes;
mod expressions;
mod faults;
mod known;
mod numbers;
mod pairs;
mod printed;
mod question;
mod replays;
mod rules;
mod sheet;
mod stop;
mod table;
mod tokens;
mod units;
mod words;

use escapes::shown;
use sheet::{Row, Sheet};
use std::alloc::{AllocError, Global};
use std::process::ExitCode;
use std::{env, fs, io};
use stop::Stop;

/// How many rows there are, and how often something else came than has to.
#[derive(Drop)]
struct Tally {
    rows: u64,
    differences: u64,
}

// What a stop is in words.
fn in_words(alloc: Global, stop: &Stop) -> Result<Vec<u8>, AllocError> {
    Vec::from_slice(alloc, format!(in alloc; "{stop}")?.as_bytes())
}

// What comes of a row, where that isn't what has to come.
fn difference(alloc: Global, row: &Row, beside: &[u8]) -> Result<Option<Vec<u8>>, AllocError> {
    let came = match row.question.answer(alloc, row.text.as_slice(), beside) {
        Ok(answer) => answer,
        Err(stop) => in_words(alloc, &stop)?,
    };
    if came.as_slice() == row.answer.as_slice() {
        return Ok(None);
    }
    Ok(Some(came))
}

impl Tally {
    // Something else came than has to.
    fn tell(&mut self, rt: &HostRuntime, file: &str, line: usize, came: &[u8]) -> io::Result<()> {
        self.differences = self.differences.saturating_add(1);
        let came = shown(rt.alloc(), came)?;
        println!(rt; "{file}:{line}: {came}")
    }

    fn count(&mut self, rt: &HostRuntime, file: &str, row: &Row, beside: &[u8]) -> io::Result<()> {
        self.rows = self.rows.saturating_add(1);
        match difference(rt.alloc(), row, beside)? {
            None => Ok(()),
            Some(came) => self.tell(rt, file, row.line, came.as_slice()),
        }
    }

    // Goes over the rows of a file.
    fn count_all(&mut self, rt: &HostRuntime, file: &str, text: &str) -> io::Result<()> {
        let alloc = rt.alloc();
        let mut sheet = Sheet::new(alloc);
        for (place, line) in text.lines().enumerate() {
            let line_number = place.saturating_add(1);
            match sheet.take(line_number, line) {
                Ok(None) => {}
                Ok(Some(row)) => self.count(rt, file, &row, sheet.beside())?,
                Err(stop) => {
                    self.tell(rt, file, line_number, in_words(alloc, &stop)?.as_slice())?
                }
            }
        }
        match sheet.unended_row() {
            None => Ok(()),
            Some(line) => self.tell(rt, file, line, in_words(alloc, &Stop::NoEnd)?.as_slice()),
        }
    }
}

// Goes over the files that the arguments name; whether there are no differences.
fn check_files(rt: &HostRuntime) -> io::Result<bool> {
    let mut tally = Tally {
        rows: 0,
        differences: 0,
    };
    for file in env::args(rt)?.skip(1) {
        let before = tally.rows;
        match fs::read_to_string(rt, file.as_str()) {
            Ok(text) => tally.count_all(rt, file.as_str(), text.as_str())?,
            Err(_) => tally.tell(rt, file.as_str(), 0, b"can't be read")?,
        }
        let rows = tally.rows.saturating_sub(before);
        println!(rt; "{file}: {rows} rows")?;
    }
    let Tally { rows, differences } = tally;
    println!(rt; "{rows} rows, {differences} differences")?;
    Ok(differences == 0)
}

fn main(rt: HostRuntime) -> ExitCode {
    match check_files(&rt) {
        Ok(true) => ExitCode::SUCCESS,
        Ok(false) => ExitCode::FAILURE,
        Err(error) => {
            let _ = eprintln!(rt; "{error}");
            ExitCode::FAILURE
        }
    }
}
