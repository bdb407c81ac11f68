//! Reading the words of a command by `clap`.

ghost use Rattle.std.specs.Prelude.{◌≡◌, true, false, IfOk};
ghost use Rattle.clap.specs.Words.{app_of, found_of, matches_of, rows_of, rule_of, takes};
ghost use Rattle.lt_command.specs.Reading.{option_as, plain_app};
ghost use Rattle.lt_command.specs.Answers.{words_of};

use clap::error::ErrorKind;
use clap::{Arg, ArgMatches, Command};
use std::alloc::{AllocError, Global};

/// A command without a flag for help.
pub fn plain_command<'a>(alloc: Global, name: &'a str) -> Command<'a>
    ensures { app_of result ≡ plain_app name.entry.now }
{
    Command::new(alloc, name).disable_help_flag(true)
}

/// The option `--NAME` with one value.
pub fn option_of<'a>(alloc: Global, name: &'a str) -> Arg<'a>
    ensures rule { rule_of result ≡ option_as name.entry.now }
    ensures local { result.global ≡ false }
{
    Arg::new(alloc, name).long(name)
}

/// What `clap` reads of words that it takes.
pub fn read<'a>(command: Command<'a>, words: &'a [String]) -> Result<ArgMatches<'a>, AllocError>
    requires { takes (app_of command) (words_of words.now) ≡ true }
    ensures { IfOk result (λ matches. rows_of (found_of matches) ≡ matches_of (app_of command.entry) (words_of words.entry.now)) }
{
    match command.try_get_matches_from(words) {
        Ok(matches) => Ok(matches),
        Err(error) => {
            let lacks_memory = error.kind() == ErrorKind::OutOfMemory;
            prove!(lacks_memory);
            Err(AllocError)
        }
    }
}
