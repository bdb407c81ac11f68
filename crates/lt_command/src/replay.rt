//! The command `replay`: the rules say whether its words are of its form, and `clap` reads them.

ghost use Rattle.std.specs.Prelude.{◌≡◌, Some, IfOk, drop, option_map};
ghost use Rattle.clap.specs.Words.{app_of, found_of, rows_of};
ghost use Rattle.lt_command.specs.Parts.{parts_of};
ghost use Rattle.lt_command.specs.Plan.{replay_of, replay_with};
ghost use Rattle.lt_command.specs.Reading.{replay_among, replay_app, said_among};
ghost use Rattle.lt_command.specs.Views.{parts_in};
ghost use Rattle.lt_command.specs.Answers.{Answers, plan_in, said_in, words_of};

use crate::commands::{Command, Replay};
use crate::options::stand_once;
use crate::parsing::{option_of, plain_command, read};
use crate::parts::Parts;
use crate::stops::PlanStop;
use crate::values::{data_model_of, steps_of};
use clap::{Arg, ArgMatches};
use std::alloc::{AllocError, Global};

const DEFAULT_STEPS: u64 = 100_000;

const OPTIONS: [&str; 5] = ["--entry", "--model", "--char", "--steps", "--cover"];

/// The words of the options of `replay`.
#[derive(Clone, Copy)]
pub struct Said<'a> {
    pub entry: Option<&'a str>,
    pub model: Option<&'a str>,
    pub char: Option<&'a str>,
    pub steps: Option<&'a str>,
    pub cover: Option<&'a str>,
}

// The command line as `clap` is told of it.
fn command_line<'a>(alloc: Global) -> Result<clap::Command<'a>, AllocError>
    ensures { IfOk result (λ command. app_of command ≡ replay_app) }
{
    plain_command(alloc, "replay")
        .arg(Arg::new(alloc, "FILE"))?
        .arg(Arg::new(alloc, "SUITE"))?
        .arg(option_of(alloc, "entry"))?
        .arg(option_of(alloc, "model"))?
        .arg(option_of(alloc, "char"))?
        .arg(option_of(alloc, "steps"))?
        .arg(option_of(alloc, "cover"))
}

#[tactic(auto, using(crate::proofs::Matches::first_read))]
fn said_by<'a>(matches: &ArgMatches<'a>) -> Said<'a>
    ensures { said_in result ≡ said_among (rows_of (found_of matches.now)) }
{
    Said {
        entry: matches.get_str("entry"),
        model: matches.get_str("model"),
        char: matches.get_str("char"),
        steps: matches.get_str("steps"),
        cover: matches.get_str("cover"),
    }
}

fn replay_with<'a>(file: &'a str, suite: &'a str, said: Said<'a>) -> Option<Command<'a>>
    ensures { option_map plan_in result ≡ replay_with file.entry.now suite.entry.now (said_in said.entry) }
{
    let model = data_model_of(said.model, said.char)?;
    let steps = match said.steps {
        Some(word) => steps_of(word)?,
        None => DEFAULT_STEPS,
    };
    Some(Command::Replay(Replay {
        file,
        suite,
        entry: said.entry,
        model,
        steps,
        cover: said.cover,
    }))
}

// The replay that was read.
#[tactic(auto, using(crate::proofs::Matches::first_read))]
fn replay_among<'a>(matches: &ArgMatches<'a>) -> Option<Command<'a>>
    ensures { option_map plan_in result ≡ replay_among (rows_of (found_of matches.now)) }
{
    let file = matches.get_str("FILE")?;
    let suite = matches.get_str("SUITE")?;
    replay_with(file, suite, said_by(matches))
}

/// The replay that the words ask for, of which those behind the first have these parts.
pub fn replay_of<'a>(
    alloc: Global,
    words: &'a [String],
    parts: &Parts<'a>,
) -> Result<Command<'a>, PlanStop>
    requires { parts_of (drop 1 (words_of words.now)) ≡ Some (parts_in parts.now) }
    ensures { Answers (replay_of (parts_in parts.now).positionals (parts_in parts.now).options) result }
{
    let positionals = parts.positionals.as_slice();
    let options = parts.options.as_slice();
    if positionals.len() != 2 || !stand_once(&OPTIONS, options) {
        return Err(PlanStop::Usage);
    }
    let matches = read(command_line(alloc)?, words)?;
    match replay_among(&matches) {
        Some(command) => Ok(command),
        None => Err(PlanStop::Usage),
    }
}
