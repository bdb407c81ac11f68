//! Texts with the labels of criteria, as the command `annotate` puts them.

ghost use Rattle.std.specs.Prelude.{◌≤◌, ◌+◌, IfOk};
ghost use Rattle.lt_numbering.specs.Numbering.{most_id};

use crate::stop::Stop;
use crate::units::parsed;
use crate::words::Words;
use lt_command::{Annotate, Command, PlanStop, plan};
use lt_marks::max_id;
use lt_nest::greatest_nest;
use lt_numbering::MarkStop;
use lt_objectives::Criteria;
use lt_print::print_unit;
use lt_survey::Marked;
use lt_tree::Unit;
use lt_tree::typed::Program;
use lt_unit::elaborate;
use std::alloc::{AllocError, Global};

const MOST_ID: u32 = 2_147_483_647;

const DEEPEST: u64 = 1000;

// The words of a command line on a file, the last ones with one space between two.
fn words_of(alloc: Global, options: &str) -> Result<Vec<String>, AllocError> {
    let mut words = Vec::new(alloc);
    words.push(String::from_str(alloc, "annotate")?)?;
    words.push(String::from_str(alloc, "FILE")?)?;
    if !options.is_empty() {
        for word in options.split(' ') {
            words.push(String::from_str(alloc, word)?)?;
        }
    }
    Ok(words)
}

// What an annotator gives, where no id passes the greatest.
fn within(made: Result<Marked, MarkStop>) -> Result<Marked, Stop>
    ensures { IfOk result (λ it. it.next ≤ most_id + 1) }
{
    match made {
        Ok(it) => {
            if it.next <= MOST_ID + 1 {
                Ok(it)
            } else {
                Err(Stop::LabelIds)
            }
        }
        Err(MarkStop::Ids) => Err(Stop::LabelIds),
        Err(MarkStop::NoMemory) => Err(Stop::NoMemory),
    }
}

fn with_labels(
    alloc: Global,
    unit: &Unit,
    program: &Program<'_>,
    which: Criteria,
) -> Result<Unit, Stop> {
    let first = max_id(unit).saturating_add(1);
    if first > MOST_ID + 1 {
        return Err(Stop::LabelIds);
    }
    let tests = within(lt_crit::annotate(alloc, unit, program, which, first))?;
    let combinations = within(lt_mcc::annotate(alloc, &tests.unit, program, which, tests.next))?;
    let mutants = within(lt_mut::annotate(
        alloc,
        &combinations.unit,
        program,
        which,
        combinations.next,
    ))?;
    Ok(mutants.unit)
}

// A text that has to be printed as it stands when it is read; where it nests too deeply for that, how deep.
fn read_again(alloc: Global, text: Vec<u8>) -> Result<Vec<u8>, Stop> {
    let nest = greatest_nest(alloc, text.as_slice())?.ok_or(Stop::NoTokens)?;
    if nest > DEEPEST {
        let mut words = Words::new(alloc);
        words.push_text("Grown")?;
        words.push_number(i128::from(nest))?;
        return Ok(words.into_bytes());
    }
    if print_unit(alloc, &parsed(alloc, text.as_slice())?.unit)? == text {
        Ok(text)
    } else {
        Err(Stop::NotCanonical)
    }
}

fn put(alloc: Global, text: &[u8], asked: &Annotate<'_>) -> Result<Vec<u8>, Stop> {
    let parsed = parsed(alloc, text)?;
    let program = elaborate(alloc, &parsed.unit, asked.model)?;
    let unit = with_labels(alloc, &parsed.unit, &program, asked.criteria)?;
    read_again(alloc, print_unit(alloc, &unit)?)
}

/// The canonical text of a unit with the labels that options ask for, which has to be printed as it stands when it is read again.
pub fn annotated(alloc: Global, text: &[u8], options: &str) -> Result<Vec<u8>, Stop> {
    let words = words_of(alloc, options)?;
    match plan(alloc, words.as_slice()) {
        Ok(Command::Annotate(asked)) => put(alloc, text, &asked),
        Ok(_) | Err(PlanStop::Usage) => Err(Stop::Usage),
        Err(PlanStop::NoMemory) => Err(Stop::NoMemory),
    }
}
