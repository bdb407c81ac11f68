//! The top call: from the words of a command line and the files of a shelf to what is put on a sink.

ghost use Rattle.std.specs.Prelude.{◌≡◌, ◌≢◌, ◌⊎◌, IfOk, IfErr, Option, Some};
ghost use Rattle.lt_outside.specs.Shelf.{Files};
ghost use Rattle.lt_command.specs.Plan.{Plan, annotate, convert, plan_of, replay};
ghost use Rattle.lt_command.specs.Answers.{annotate_in, plan_in, replay_in, words_of};
ghost use Rattle.lt_answers.specs.Answers.{Ends, FirstIsRead, HasCause, HasPuts, HasReadCause, IsDue, IsFrontPut, IsOutside, IsPut, IsSame, IsText, NamesFile, names_of};
ghost use Rattle.lt_answers.specs.declared.status.Status.{Status};
ghost use Rattle.ltest.specs.Usage.{TellsUsage};

use crate::annotations::annotation_text;
use crate::laws::parts_keep_laws;
use crate::text::{conversion_text, replay_text};
use lt_answers::{Status, one_answer_is_due};
use lt_command::{Annotate, Command, PlanStop, Replay, plan};
use lt_outside::{Shelf, Sink};
use lt_sources::{put_text, read_file, read_sources};
use std::alloc::Global;

// The coverage text of a suite's replay.
fn replay<S: Shelf>(alloc: Global, shelf: &mut S, asked: &Replay<'_>) -> Result<Vec<u8>, Status>
    ensures text { IfOk result (λ v. IsText (S.told shelf.old) (replay (replay_in asked.now)) v.items) }
    ensures ends { IfErr result (λ status. Ends (S.told shelf.old) (replay (replay_in asked.now)) status) }
    ensures names { IfErr result (λ status. NamesFile (names_of (replay (replay_in asked.now))) status) }
    ensures cause { IfErr result (λ status. HasReadCause status (S.missed shelf.old) (S.missed shelf.new) (S.read_faults shelf.old) (S.read_faults shelf.new)) }
    ensures stays { S.told shelf.new ≡ S.told shelf.old }
{
    let from = read_sources(alloc, shelf, asked)?;
    let text = replay_text(alloc, &from)?;
    Ok(text)
}

// The text of a coverage file in the latest version.
fn conversion<S: Shelf>(alloc: Global, shelf: &mut S, file: &str) -> Result<Vec<u8>, Status>
    ensures text { IfOk result (λ v. IsText (S.told shelf.old) (convert file.now) v.items) }
    ensures ends { IfErr result (λ status. Ends (S.told shelf.old) (convert file.now) status) }
    ensures names { IfErr result (λ status. NamesFile (names_of (convert file.now)) status) }
    ensures cause { IfErr result (λ status. HasReadCause status (S.missed shelf.old) (S.missed shelf.new) (S.read_faults shelf.old) (S.read_faults shelf.new)) }
    ensures stays { S.told shelf.new ≡ S.told shelf.old }
{
    let bytes = read_file(alloc, shelf, file)?;
    let text = conversion_text(alloc, bytes.as_slice())?;
    Ok(text)
}

// The text with the labels of criteria.
fn annotation<S: Shelf>(
    alloc: Global,
    shelf: &mut S,
    asked: &Annotate<'_>,
) -> Result<Vec<u8>, Status>
    ensures text { IfOk result (λ v. IsText (S.told shelf.old) (annotate (annotate_in asked.now)) v.items) }
    ensures ends { IfErr result (λ status. Ends (S.told shelf.old) (annotate (annotate_in asked.now)) status) }
    ensures names { IfErr result (λ status. NamesFile (names_of (annotate (annotate_in asked.now))) status) }
    ensures cause { IfErr result (λ status. HasReadCause status (S.missed shelf.old) (S.missed shelf.new) (S.read_faults shelf.old) (S.read_faults shelf.new)) }
    ensures stays { S.told shelf.new ≡ S.told shelf.old }
{
    let bytes = read_file(alloc, shelf, asked.file)?;
    let text = annotation_text(alloc, bytes.as_slice(), asked.model, asked.criteria)?;
    Ok(text)
}

// The text of a command, or why there is none.
fn answer<S: Shelf>(alloc: Global, shelf: &mut S, command: Command<'_>) -> Result<Vec<u8>, Status>
    ensures text { IfOk result (λ v. IsText (S.told shelf.old) (plan_in command.entry) v.items) }
    ensures ends { IfErr result (λ status. Ends (S.told shelf.old) (plan_in command.entry) status) }
    ensures names { IfErr result (λ status. NamesFile (names_of (plan_in command.entry)) status) }
    ensures cause { IfErr result (λ status. HasReadCause status (S.missed shelf.old) (S.missed shelf.new) (S.read_faults shelf.old) (S.read_faults shelf.new)) }
    ensures stays { S.told shelf.new ≡ S.told shelf.old }
{
    match command {
        Command::Replay(asked) => replay(alloc, shelf, &asked),
        Command::Convert(file) => conversion(alloc, shelf, file),
        Command::Annotate(asked) => annotation(alloc, shelf, &asked),
    }
}

/// Does what the words ask for: a command reads its files from the shelf, at most 4,194,304 bytes each, and puts its text on
/// the sink, in one put. The sink takes nothing on any status but `Done` and `WriteFault`.
pub fn ltest<S: Shelf, K: Sink>(
    alloc: Global,
    words: &[String],
    shelf: &mut S,
    out: &mut K,
) -> Status
    // On Done the text of exactly the command's files was put.
    ensures done { result ≡ Status.Done → IsPut (S.told shelf.old) (plan_of (words_of words.now)) (K.taken out.old) (K.taken out.new) }
    // Usage comes exactly where the words are of no command form, but for want of memory.
    ensures usage { TellsUsage (plan_of (words_of words.now)) result }
    // Each answer but a fault and want of memory is the one that is due.
    ensures due { (files : Files) (asked : Plan) → S.told shelf.old ≡ Some files → plan_of (words_of words.now) ≡ Some asked → IsOutside result ⊎ IsDue files asked result }
    // The answer that is due comes, but for a fault or want of memory, and for the place that a syntax fault names.
    ensures exact { (files : Files) (asked : Plan) (s : Status) → S.told shelf.old ≡ Some files → plan_of (words_of words.now) ≡ Some asked → IsDue files asked s → IsOutside result ⊎ IsSame result s }
    // A fault of reading is told only where the first file was there to be read.
    ensures read_fault { (files : Files) (asked : Plan) → S.told shelf.old ≡ Some files → plan_of (words_of words.now) ≡ Some asked → result ≡ Status.ReadFault → FirstIsRead files (names_of asked) }
    // A miss names a file of the command.
    ensures names { (asked : Plan) → plan_of (words_of words.now) ≡ Some asked → NamesFile (names_of asked) result }
    // A miss or a fault is told only where its count rose.
    ensures cause { HasCause result (record { missed = S.missed shelf.old; read_faults = S.read_faults shelf.old; put_faults = K.put_faults out.old })
        (record { missed = S.missed shelf.new; read_faults = S.read_faults shelf.new; put_faults = K.put_faults out.new }) }
    ensures write_fault { result ≡ Status.WriteFault → IsFrontPut (S.told shelf.old) (plan_of (words_of words.now)) (K.taken out.old) (K.taken out.new) }
    // The text is put in one put, and none is made but for the text.
    ensures puts { HasPuts result (K.puts out.old) (K.puts out.new) }
    ensures nothing_put { result ≢ Status.Done → result ≢ Status.WriteFault → K.taken out.new ≡ K.taken out.old }
    ensures stays { S.told shelf.new ≡ S.told shelf.old }
{
    parts_keep_laws();
    one_answer_is_due();
    match plan(alloc, words) {
        Err(PlanStop::Usage) => Status::Usage,
        Err(PlanStop::NoMemory) => Status::NoMemory,
        Ok(command) => match answer(alloc, shelf, command) {
            Err(status) => status,
            Ok(text) => put_text(out, text.as_slice()),
        },
    }
}
