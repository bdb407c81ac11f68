//! The command `annotate`: the rules say whether its words are of its form, and `clap` reads them.

ghost use Rattle.std.specs.Prelude.{◌≡◌, Some, IfOk, drop, option_map};
ghost use Rattle.clap.specs.Words.{app_of, found_of, rows_of};
ghost use Rattle.lt_command.specs.Parts.{parts_of};
ghost use Rattle.lt_command.specs.Plan.{annotate_of, annotate_with};
ghost use Rattle.lt_command.specs.Reading.{annotate_among, annotate_app};
ghost use Rattle.lt_command.specs.Views.{parts_in};
ghost use Rattle.lt_command.specs.Answers.{Answers, plan_in, words_of};

use crate::commands::{Annotate, Command};
use crate::criteria::criteria_of;
use crate::options::stand_once;
use crate::parsing::{option_of, plain_command, read};
use crate::parts::Parts;
use crate::stops::PlanStop;
use crate::values::data_model_of;
use clap::{Arg, ArgMatches};
use std::alloc::{AllocError, Global};

const OPTIONS: [&str; 3] = ["--criteria", "--model", "--char"];

// The command line as `clap` is told of it.
fn command_line<'a>(alloc: Global) -> Result<clap::Command<'a>, AllocError>
    ensures { IfOk result (λ command. app_of command ≡ annotate_app) }
{
    plain_command(alloc, "annotate")
        .arg(Arg::new(alloc, "FILE"))?
        .arg(option_of(alloc, "criteria"))?
        .arg(option_of(alloc, "model"))?
        .arg(option_of(alloc, "char"))
}

fn annotate_with<'a>(
    file: &'a str,
    list: &str,
    model: Option<&str>,
    char: Option<&str>,
) -> Option<Command<'a>>
    ensures { option_map plan_in result
        ≡ annotate_with file.entry.now list.now (option_map (λ word. word.now) model.entry) (option_map (λ word. word.now) char.entry) }
{
    let criteria = criteria_of(list)?;
    let model = data_model_of(model, char)?;
    Some(Command::Annotate(Annotate {
        file,
        criteria,
        model,
    }))
}

// The labels that were asked for.
#[tactic(auto, using(crate::proofs::Matches::first_read))]
fn annotate_among<'a>(matches: &ArgMatches<'a>) -> Option<Command<'a>>
    ensures { option_map plan_in result ≡ annotate_among (rows_of (found_of matches.now)) }
{
    let file = matches.get_str("FILE")?;
    let list = matches.get_str("criteria")?;
    annotate_with(
        file,
        list,
        matches.get_str("model"),
        matches.get_str("char"),
    )
}

/// The labels that the words ask for, of which those behind the first have these parts.
pub fn annotate_of<'a>(
    alloc: Global,
    words: &'a [String],
    parts: &Parts<'a>,
) -> Result<Command<'a>, PlanStop>
    requires { parts_of (drop 1 (words_of words.now)) ≡ Some (parts_in parts.now) }
    ensures { Answers (annotate_of (parts_in parts.now).positionals (parts_in parts.now).options) result }
{
    let positionals = parts.positionals.as_slice();
    let options = parts.options.as_slice();
    if positionals.len() != 1 || !stand_once(&OPTIONS, options) {
        return Err(PlanStop::Usage);
    }
    let matches = read(command_line(alloc)?, words)?;
    match annotate_among(&matches) {
        Some(command) => Ok(command),
        None => Err(PlanStop::Usage),
    }
}
