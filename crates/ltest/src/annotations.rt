//! The text with the labels of criteria.

ghost use Rattle.std.specs.Prelude.{◌≤◌, ◌<◌, length, All};
ghost use Rattle.lt_survey.specs.Marking.{bits_of};
ghost use Rattle.lt_answers.specs.Answers.{most_bytes};
ghost use Rattle.ltest.specs.Labels.{GivesAnnotated, GivesShallow};
ghost use Rattle.ltest.specs.Texts.{IsAnnotationAnswer};

use crate::labels::with_labels;
use crate::programs::program_of_unit;
use crate::stops::TextStop;
use crate::units::unit_of_text;
use lt_answers::Refusal;
use lt_label_counts::ids_never_pass;
use lt_marked_texts::annotated_texts_are_of_units_alone;
use lt_model::DataModel;
use lt_nest::greatest_nest;
use lt_objective_marks::{marked_units_of_sets_run_as_they_did, marked_units_tell_mutants_apart};
use lt_objectives::{Criteria, marks_are_erased};
use lt_print::print_unit;
use lt_token::at_most_one_reading;
use lt_tree::Unit;
use std::alloc::Global;

// The deepest that a text may nest, so that it can be read again.
const DEEPEST: u64 = 1000;

/// The canonical text of a text's unit with the labels of a set of criteria, or the first reason why there is none.
pub fn annotation_text(
    alloc: Global,
    text: &[u8],
    model: DataModel,
    which: Criteria,
) -> Result<Vec<u8>, TextStop>
    requires { length text.now ≤ most_bytes }
    ensures { IsAnnotationAnswer model (bits_of which) text.now result }
{
    let unit = annotated(alloc, text, model, which)?;
    let bytes = print_unit(alloc, &unit)?;
    bytes_are_small(text);
    ids_never_pass();
    annotated_texts_are_of_units_alone();
    marks_are_erased();
    marked_units_of_sets_run_as_they_did();
    marked_units_tell_mutants_apart();
    shallow(alloc, bytes)
}

// What is known of a byte once it is read.
fn bytes_are_small(text: &[u8])
    ensures { All (λ b. b < 256) text.now }
{
    'bytes: for byte in text {
        let _small = *byte;
    }
}

// The unit of a text with the labels of a set of criteria, or why there is none.
fn annotated(
    alloc: Global,
    text: &[u8],
    model: DataModel,
    which: Criteria,
) -> Result<Unit, TextStop>
    requires { length text.now ≤ most_bytes }
    ensures { GivesAnnotated model (bits_of which) text.now result }
{
    let parsed = unit_of_text(alloc, text)?;
    let program = program_of_unit(alloc, &parsed, model)?;
    ids_never_pass();
    let unit = with_labels(alloc, &parsed.unit, &program, which)?;
    Ok(unit)
}

// A text, if it doesn't nest too deeply.
fn shallow(alloc: Global, text: Vec<u8>) -> Result<Vec<u8>, TextStop>
    ensures { GivesShallow text.items result }
{
    at_most_one_reading();
    match greatest_nest(alloc, text.as_slice())? {
        Some(nest) => {
            if nest <= DEEPEST {
                Ok(text)
            } else {
                Err(TextStop::Refused(Refusal::Grown(nest)))
            }
        }
        None => Ok(text),
    }
}
