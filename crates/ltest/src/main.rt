// The program `ltest`; `src/top.rt` says what a command does between the files and what is put, in the words of `lt_answers`.
#![tactic(auto)]

mod annotations;
mod coverages;
mod labels;
mod laws;
mod merges;
mod programs;
mod specifications;
mod stops;
mod suites;
mod tasks;
mod text;
mod top;
mod units;

use lt_answers::{Status, code, message};
use lt_outside::{DirShelf, StdSink};
use std::env;
use std::io::ErrorKind;
use std::process::ExitCode;

// The words after the program's name, or how the program ends where they aren't had: words that are no text are of no
// command form.
fn words_after_name(rt: &HostRuntime) -> Result<Vec<String>, Status> {
    let args = match env::args(rt) {
        Ok(args) => args,
        Err(e) if e.kind() == ErrorKind::OutOfMemory => return Err(Status::NoMemory),
        Err(_) => return Err(Status::Usage),
    };
    let mut words = Vec::new(rt.alloc());
    for word in args.skip(1) {
        if words.push(word).is_err() {
            return Err(Status::NoMemory);
        }
    }
    Ok(words)
}

fn main(rt: HostRuntime) -> ExitCode {
    let status = match words_after_name(&rt) {
        Err(status) => status,
        Ok(words) => {
            let mut shelf = DirShelf::new(&rt);
            let mut out = StdSink::new(&rt);
            top::ltest(rt.alloc(), words.as_slice(), &mut shelf, &mut out)
        }
    };
    if let Ok(text) = message(rt.alloc(), &status) {
        if !text.is_empty() {
            let _ = rt.eprintln(text.as_str());
        }
    }
    ExitCode::from(code(&status))
}
