//! The words behind a command, as positionals and options.

ghost use Rattle.std.specs.Prelude.{◌≡◌, IfOk, option_map};
ghost use Rattle.lt_command.specs.Parts.{is_value, parts_of};
ghost use Rattle.lt_command.specs.Views.{AddsOption, Reads, parts_in};
ghost use Rattle.lt_command.specs.Answers.{words_of};

use std::alloc::{AllocError, Global};

/// An option by its word, as `--model`, and its value.
#[derive(Clone, Copy)]
pub struct Setting<'a> {
    pub name: &'a str,
    pub value: &'a str,
}

/// Positionals and options, each in order.
#[derive(Drop)]
pub struct Parts<'a> {
    pub positionals: Vec<&'a str>,
    pub options: Vec<Setting<'a>>,
}

// What is read so far, and the option that waits for its value.
#[derive(Drop)]
struct Reader<'a> {
    parts: Parts<'a>,
    waiting: Option<&'a str>,
}

// Whether a word can be a positional or a value: it isn't empty and doesn't begin with a dash.
fn is_value(word: &str) -> bool
    ensures { result ≡ is_value word.now }
{
    match word.as_bytes().split_first() {
        Some((first, _)) => *first != b'-',
        None => false,
    }
}

impl<'a> Parts<'a> {
    // Adds an option, if its value is one, and says whether it is.
    fn add_option(&mut self, name: &'a str, value: &'a str) -> Result<bool, AllocError>
        ensures { IfOk result (AddsOption self.old name.entry.now value.entry.now self.new) }
    {
        if !is_value(value) {
            return Ok(false);
        }
        self.options.push(Setting { name, value })?;
        Ok(true)
    }
}

impl<'a> Reader<'a> {
    // Reads a word, and says whether it is of the form.
    fn read(&mut self, word: &'a str) -> Result<bool, AllocError>
        ensures { IfOk result (Reads self.old word.entry.now self.new) }
    {
        if let Some(name) = self.waiting {
            self.waiting = None;
            return self.parts.add_option(name, word);
        }
        if is_value(word) {
            self.parts.positionals.push(word)?;
            return Ok(true);
        }
        if let Some((name, value)) = word.split_once('=') {
            return self.parts.add_option(name, value);
        }
        self.waiting = Some(word);
        Ok(true)
    }
}

/// The parts of the words, or none where an option has no value.
pub fn parts_of<'a>(alloc: Global, words: &'a [String]) -> Result<Option<Parts<'a>>, AllocError>
    ensures { IfOk result (λ parts. option_map parts_in parts ≡ parts_of (words_of words.entry.now)) }
{
    let mut reader = Reader {
        parts: Parts {
            positionals: Vec::new(alloc),
            options: Vec::new(alloc),
        },
        waiting: None,
    };
    for word in words {
        if !reader.read(word.as_str())? {
            return Ok(None);
        }
    }
    match reader.waiting {
        Some(_) => Ok(None),
        None => Ok(Some(reader.parts)),
    }
}
