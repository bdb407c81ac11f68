//! The words of a command line.

ghost use Rattle.std.specs.Prelude.{◌≡◌, map, option_map};
ghost use Rattle.lt_command.specs.Plan.{convert_of, plan_of};
ghost use Rattle.lt_command.specs.Views.{setting_in};
ghost use Rattle.lt_command.specs.Answers.{Answers, plan_in, words_of};

use crate::annotate::annotate_of;
use crate::commands::Command;
use crate::parts::{Setting, parts_of};
use crate::replay::replay_of;
use crate::stops::PlanStop;
use std::alloc::Global;

fn convert_of<'a>(positionals: &[&'a str], options: &[Setting<'a>]) -> Option<Command<'a>>
    ensures { option_map plan_in result ≡ convert_of (map (λ word. word.now) positionals.now) (map setting_in options.now) }
{
    match (positionals, options) {
        ([file], []) => Some(Command::Convert(file)),
        _ => None,
    }
}

/// What the words ask for, the command first; `Usage` exactly where they are of no command form.
#[tactic(auto, unfolding(crate::specs::Plan::plan_of))]
pub fn plan<'a>(alloc: Global, words: &'a [String]) -> Result<Command<'a>, PlanStop>
    ensures { Answers (plan_of (words_of words.entry.now)) result }
{
    let Some((name, rest)) = words.split_first() else {
        return Err(PlanStop::Usage);
    };
    let Some(parts) = parts_of(alloc, rest)? else {
        return Err(PlanStop::Usage);
    };
    if name.as_str() == "replay" {
        return replay_of(alloc, words, &parts);
    }
    if name.as_str() == "annotate" {
        return annotate_of(alloc, words, &parts);
    }
    if name.as_str() == "convert"
        && let Some(command) = convert_of(parts.positionals.as_slice(), parts.options.as_slice())
    {
        return Ok(command);
    }
    Err(PlanStop::Usage)
}
