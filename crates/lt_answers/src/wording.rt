ghost use Rattle.std.specs.Prelude.{◌≡◌, ◌++◌, IfOk, OnOk, string_bytes, codes};
ghost use Rattle.std.specs.Fmt.{decimal};
ghost use Rattle.std.specs.Str.Lossy.{utf8_lossy};
ghost use Rattle.lt_answers.specs.Messages.{code_of, message_of, refusal_message};

use crate::status::{Refusal, Status};
use std::alloc::{AllocError, Global};

/// The code that the process ends with: 0 where the command is done, and one of its own for each kind of other answer.
pub fn code(s: &Status) -> u8
    ensures { result ≡ code_of s.now }
{
    match s {
        Status::Done => 0,
        Status::Refused(_) => 1,
        Status::Usage => 2,
        Status::Absent(_) => 3,
        Status::TooLong(_, _) => 4,
        Status::ReadFault => 7,
        Status::WriteFault => 8,
        Status::NoMemory => 9,
    }
}

// Words, a number, and words behind it.
fn numbered(alloc: Global, before: &str, number: u32, behind: &str) -> Result<String, AllocError>
    ensures { IfOk result (λ t. string_bytes t ≡ before.now ++ decimal number ++ behind.now) }
{
    let mut text = String::from_str(alloc, before)?;
    text.push_str(number.to_string(alloc)?.as_str())?;
    text.push_str(behind)?;
    Ok(text)
}

// Words and a name, which need be no text.
fn named(alloc: Global, before: &str, name: &[u8]) -> Result<String, AllocError>
    ensures { IfOk result (λ t. string_bytes t ≡ before.now ++ utf8_lossy name.now) }
{
    let mut text = String::from_str(alloc, before)?;
    text.push_str(String::from_utf8_lossy(alloc, name)?.as_str())?;
    Ok(text)
}

// That a word isn't supported.
fn unsupported(alloc: Global, word: &[u8], at: u32) -> Result<String, AllocError>
    ensures { IfOk result (λ t. string_bytes t ≡ utf8_lossy word.now ++ codes " at byte " ++ decimal at ++ codes " is not supported") }
{
    let mut text = named(alloc, "", word)?;
    text.push_str(" at byte ")?;
    text.push_str(at.to_string(alloc)?.as_str())?;
    text.push_str(" is not supported")?;
    Ok(text)
}

// That a rule of typing is broken.
fn broken(alloc: Global, rule: u8, at: u32) -> Result<String, AllocError>
    ensures { IfOk result (λ t. string_bytes t ≡ codes "rule " ++ decimal rule ++ codes " is broken at byte " ++ decimal at) }
{
    let mut text = numbered(alloc, "rule ", u32::from(rule), " is broken at byte ")?;
    text.push_str(at.to_string(alloc)?.as_str())?;
    Ok(text)
}

// That the file of the name is too long.
fn too_long(alloc: Global, name: &[u8], len: u64) -> Result<String, AllocError>
    ensures { IfOk result (λ t. string_bytes t ≡ codes "ltest: file " ++ utf8_lossy name.now ++ codes " has " ++ decimal len ++ codes " bytes") }
{
    let mut text = named(alloc, "ltest: file ", name)?;
    text.push_str(" has ")?;
    text.push_str(len.to_string(alloc)?.as_str())?;
    text.push_str(" bytes")?;
    Ok(text)
}

// That the annotated text nests too deeply.
fn grown(alloc: Global, nest: u64) -> Result<String, AllocError>
    ensures { IfOk result (λ t. string_bytes t ≡ codes "annotated text nests " ++ decimal nest ++ codes " deep") }
{
    let mut text = String::from_str(alloc, "annotated text nests ")?;
    text.push_str(nest.to_string(alloc)?.as_str())?;
    text.push_str(" deep")?;
    Ok(text)
}

// Why a command was refused.
fn refusal_message(alloc: Global, why: &Refusal) -> Result<String, AllocError>
    ensures { IfOk result (λ t. string_bytes t ≡ refusal_message why.now) }
{
    match why {
        Refusal::Lex(at) => numbered(alloc, "no token at byte ", *at, ""),
        Refusal::Unsupported(word, at) => unsupported(alloc, word.as_slice(), *at),
        Refusal::TooNested(at) => numbered(alloc, "nested too deeply at byte ", *at, ""),
        Refusal::Syntax(at) => numbered(alloc, "syntax fault at byte ", *at, ""),
        Refusal::Typing(rule, at) => broken(alloc, *rule, *at),
        Refusal::NoEntry => String::from_str(alloc, "no entry function"),
        Refusal::Spec(line) => numbered(alloc, "entry file, line ", *line, ""),
        Refusal::Suite(line) => numbered(alloc, "suite, line ", *line, ""),
        Refusal::Cover(row) => numbered(alloc, "coverage file, row ", *row, ""),
        Refusal::Mixed(id) => numbered(alloc, "coverage of other label ", *id, ""),
        Refusal::MixedHyper(id) => numbered(alloc, "coverage of other hyperlabel ", *id, ""),
        Refusal::MixedTest(name) => named(alloc, "coverage of other test ", name.as_slice()),
        Refusal::Grown(nest) => grown(alloc, *nest),
    }
}

// Words behind the program's name.
fn told(alloc: Global, text: &str) -> Result<String, AllocError>
    ensures { IfOk result (λ t. string_bytes t ≡ codes "ltest: " ++ text.now) }
{
    let mut line = String::from_str(alloc, "ltest: ")?;
    line.push_str(text)?;
    Ok(line)
}

/// The line for standard error, without its line end; empty where the command is done.
pub fn message(alloc: Global, s: &Status) -> Result<String, AllocError>
    ensures { IfOk result (λ t. string_bytes t ≡ message_of s.now) }
{
    match s {
        Status::Done => Ok(String::new(alloc)),
        Status::Refused(why) => told(alloc, refusal_message(alloc, why)?.as_str()),
        Status::Usage => String::from_str(alloc, "ltest: usage: ltest COMMAND and its words"),
        Status::Absent(name) => named(alloc, "ltest: no file ", name.as_slice()),
        Status::TooLong(name, len) => too_long(alloc, name.as_slice(), *len),
        Status::ReadFault => String::from_str(alloc, "ltest: reading failed"),
        Status::WriteFault => String::from_str(alloc, "ltest: writing failed"),
        Status::NoMemory => String::from_str(alloc, "ltest: out of memory"),
    }
}
