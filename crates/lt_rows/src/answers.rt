//! The lines and exit codes that tell how a command ends.

use crate::stop::Stop;
use crate::words::Words;
use lt_answers::{Refusal, Status, code, message};
use lt_model::Name;
use std::alloc::{AllocError, Global};

fn number(word: &str) -> Result<u32, Stop> {
    word.parse::<u32>().map_err(|_| Stop::NoNumber)
}

fn rule(word: &str) -> Result<u8, Stop> {
    word.parse::<u8>().map_err(|_| Stop::NoNumber)
}

fn length(word: &str) -> Result<u64, Stop> {
    word.parse::<u64>().map_err(|_| Stop::NoNumber)
}

fn name(alloc: Global, word: &str) -> Result<Name, AllocError> {
    Name::new(alloc, word.as_bytes())
}

// A name and a number behind it.
fn pair(words: &str) -> Result<(&str, &str), Stop> {
    words.split_once(' ').ok_or(Stop::OneText)
}

fn refusal(alloc: Global, kind: &str, rest: &str) -> Result<Refusal, Stop> {
    match kind {
        "lex" => Ok(Refusal::Lex(number(rest)?)),
        "unsupported" => {
            let (word, at) = pair(rest)?;
            Ok(Refusal::Unsupported(name(alloc, word)?, number(at)?))
        }
        "nested" => Ok(Refusal::TooNested(number(rest)?)),
        "syntax" => Ok(Refusal::Syntax(number(rest)?)),
        "typing" => {
            let (broken, at) = pair(rest)?;
            Ok(Refusal::Typing(rule(broken)?, number(at)?))
        }
        "entry" => Ok(Refusal::NoEntry),
        "spec" => Ok(Refusal::Spec(number(rest)?)),
        "suite" => Ok(Refusal::Suite(number(rest)?)),
        "cover" => Ok(Refusal::Cover(number(rest)?)),
        "label" => Ok(Refusal::Mixed(number(rest)?)),
        "hyperlabel" => Ok(Refusal::MixedHyper(number(rest)?)),
        "grown" => Ok(Refusal::Grown(length(rest)?)),
        "test" => Ok(Refusal::MixedTest(name(alloc, rest)?)),
        _ => Err(Stop::NoSuchQuestion),
    }
}

fn status(alloc: Global, text: &str) -> Result<Status, Stop> {
    let (kind, rest) = text.split_once(' ').unwrap_or((text, ""));
    match kind {
        "done" => Ok(Status::Done),
        "usage" => Ok(Status::Usage),
        "absent" => Ok(Status::Absent(name(alloc, rest)?)),
        "long" => {
            let (file, len) = pair(rest)?;
            Ok(Status::TooLong(name(alloc, file)?, length(len)?))
        }
        "reading" => Ok(Status::ReadFault),
        "writing" => Ok(Status::WriteFault),
        "memory" => Ok(Status::NoMemory),
        _ => Ok(Status::Refused(refusal(alloc, kind, rest)?)),
    }
}

/// The exit code of a status, and its line on standard error.
pub fn told(alloc: Global, status: &Status) -> Result<Vec<u8>, Stop> {
    let mut words = Words::new(alloc);
    words.push_number(i128::from(code(status)))?;
    let line = message(alloc, status)?;
    if !line.is_empty() {
        words.push_text(line.as_str())?;
    }
    Ok(words.into_bytes())
}

/// The exit code of an answer, and its line on standard error.
pub fn answered(alloc: Global, text: &[u8]) -> Result<Vec<u8>, Stop> {
    let text = std::str::from_utf8(text).map_err(|_| Stop::NoSuchQuestion)?;
    told(alloc, &status(alloc, text)?)
}
