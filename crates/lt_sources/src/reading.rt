//! The files of a command, read off a shelf one after the other.

ghost use Rattle.std.specs.Prelude.{◌≡◌, ◌≤◌, [], ◌∷◌, IfOk, IfErr, vec_len, option_map, option_to_list};
ghost use Rattle.lt_command.specs.Plan.{replay};
ghost use Rattle.lt_command.specs.Answers.{replay_in};
ghost use Rattle.lt_answers.specs.Answers.{most_bytes, names_of, Gave, GaveIf, GaveAll, ReadEnds, HasReadCause, NamesFile};
ghost use Rattle.lt_sources.specs.Views.{sources_of};
ghost use Rattle.lt_sources.specs.Reading.{name_in, bytes_in, AreShort, IsShortIf};

use crate::sources::Sources;
use lt_answers::Status;
use lt_command::Replay;
use lt_model::Name;
use lt_outside::{ReadStop, Shelf};
use std::alloc::Global;

// The most bytes of a file that is read.
const MOST_BYTES: u64 = 4_194_304;

/// Reads a file whole.
pub fn read_file<S: Shelf>(alloc: Global, shelf: &mut S, name: &str) -> Result<Vec<u8>, Status>
    ensures gives { IfOk result (λ v. Gave (S.told shelf.old) name.now v.items) }
    ensures short { IfOk result (λ v. vec_len v ≤ most_bytes) }
    ensures ends { IfErr result (λ status. ReadEnds (S.told shelf.old) (name.now ∷ []) status) }
    ensures names { IfErr result (λ status. NamesFile (name.now ∷ []) status) }
    ensures cause { IfErr result (λ status. HasReadCause status (S.missed shelf.old) (S.missed shelf.new) (S.read_faults shelf.old) (S.read_faults shelf.new)) }
    ensures stays { S.told shelf.new ≡ S.told shelf.old }
    ensures misses { S.missed shelf.old ≤ S.missed shelf.new }
    ensures faults { S.read_faults shelf.old ≤ S.read_faults shelf.new }
{
    match shelf.read(alloc, name, MOST_BYTES) {
        Ok(bytes) => Ok(bytes),
        Err(ReadStop::Absent) => match Name::new(alloc, name.as_bytes()) {
            Ok(name) => Err(Status::Absent(name)),
            Err(_) => Err(Status::NoMemory),
        },
        Err(ReadStop::TooLong(len)) => match Name::new(alloc, name.as_bytes()) {
            Ok(name) => Err(Status::TooLong(name, len)),
            Err(_) => Err(Status::NoMemory),
        },
        Err(ReadStop::Failed) => Err(Status::ReadFault),
        Err(ReadStop::NoMemory) => Err(Status::NoMemory),
    }
}

// Reads the file of an option, where it is given.
fn read_option<S: Shelf>(
    alloc: Global,
    shelf: &mut S,
    name: Option<&str>,
) -> Result<Option<Vec<u8>>, Status>
    ensures gives { IfOk result (λ found. GaveIf (S.told shelf.old) (name_in name.entry) (bytes_in found)) }
    ensures short { IfOk result (λ found. IsShortIf (bytes_in found)) }
    ensures ends { IfErr result (λ status. ReadEnds (S.told shelf.old) (option_to_list (name_in name.entry)) status) }
    ensures names { IfErr result (λ status. NamesFile (option_to_list (name_in name.entry)) status) }
    ensures cause { IfErr result (λ status. HasReadCause status (S.missed shelf.old) (S.missed shelf.new) (S.read_faults shelf.old) (S.read_faults shelf.new)) }
    ensures stays { S.told shelf.new ≡ S.told shelf.old }
    ensures misses { S.missed shelf.old ≤ S.missed shelf.new }
    ensures faults { S.read_faults shelf.old ≤ S.read_faults shelf.new }
{
    match name {
        Some(name) => Ok(Some(read_file(alloc, shelf, name)?)),
        None => Ok(None),
    }
}

/// Reads the files of a replay: FILE, SUITE, the specification of the entry and the old coverage, in this order.
pub fn read_sources<S: Shelf>(
    alloc: Global,
    shelf: &mut S,
    asked: &Replay<'_>,
) -> Result<Sources, Status>
    ensures gives { IfOk result (λ from. GaveAll (S.told shelf.old) (replay_in asked.now) (sources_of from)) }
    ensures short { IfOk result (λ from. AreShort (sources_of from)) }
    ensures ends { IfErr result (λ status. ReadEnds (S.told shelf.old) (names_of (replay (replay_in asked.now))) status) }
    ensures names { IfErr result (λ status. NamesFile (names_of (replay (replay_in asked.now))) status) }
    ensures cause { IfErr result (λ status. HasReadCause status (S.missed shelf.old) (S.missed shelf.new) (S.read_faults shelf.old) (S.read_faults shelf.new)) }
    ensures stays { S.told shelf.new ≡ S.told shelf.old }
    ensures misses { S.missed shelf.old ≤ S.missed shelf.new }
    ensures faults { S.read_faults shelf.old ≤ S.read_faults shelf.new }
{
    let file = read_file(alloc, shelf, asked.file)?;
    let suite = read_file(alloc, shelf, asked.suite)?;
    let entry = read_option(alloc, shelf, asked.entry)?;
    let cover = read_option(alloc, shelf, asked.cover)?;
    Ok(Sources {
        file,
        suite,
        entry,
        cover,
        model: asked.model,
        steps: asked.steps,
    })
}
