ghost use Rattle.std.specs.Prelude.{IsTrue};
ghost use Rattle.lt_outside.specs.Count.{Rose};

use crate::clean_shelf::CleanShelf;
use crate::clean_sink::CleanSink;
use crate::dir_shelf::DirShelf;
use crate::map_shelf::MapShelf;
use crate::shelf::{ReadStop, Shelf, WriteStop};
use crate::sink::{PutStop, Sink};
use crate::std_sink::StdSink;
use crate::vec_sink::VecSink;
use std::alloc::Global;
use std::fs;
use std::test::Fail;

// The helpers promise nothing, so that the tests are proved quickly. Each says whether the answer is the one wanted.
fn reads<S: Shelf>(
    alloc: Global,
    shelf: &mut S,
    name: &str,
    most: u64,
    wanted: Result<&[u8], ReadStop>,
) -> bool {
    match shelf.read(alloc, name, most) {
        Ok(bytes) => wanted.is_ok_and(|wanted| bytes.as_slice() == wanted),
        Err(stop) => wanted == Err(stop),
    }
}

fn writes<S: Shelf>(
    alloc: Global,
    shelf: &mut S,
    name: &str,
    bytes: &[u8],
    wanted: Result<(), WriteStop>,
) -> bool {
    shelf.write(alloc, name, bytes) == wanted
}

fn puts<K: Sink>(sink: &mut K, piece: &[u8], wanted: Result<(), PutStop>) -> bool {
    sink.put(piece) == wanted
}

fn counted<S: Shelf>(shelf: &S, faults: u64, write_faults: u64, misses: u64) -> bool {
    shelf.faults() == faults && shelf.write_faults() == write_faults && shelf.misses() == misses
}

// Writes a name, and reads it whole, cut short, and by another name.
fn gives_back<S: Shelf>(alloc: Global, shelf: &mut S, name: &str) -> bool {
    writes(alloc, shelf, name, b"four", Ok(()))
        && reads(alloc, shelf, name, 4, Ok(b"four"))
        && reads(alloc, shelf, name, 3, Err(ReadStop::TooLong(4)))
        && reads(alloc, shelf, "lacking", 4, Err(ReadStop::Absent))
}

// Says whether a read failed, which a shelf that never counts a fault rules out.
fn read_fails<S: Shelf>(alloc: Global, shelf: &mut S, name: &str) -> bool
    ensures { IsTrue result → Rose (S.read_faults shelf.old) (S.read_faults shelf.new) }
{
    match shelf.read(alloc, name, 100) {
        Err(ReadStop::Failed) => true,
        _ => false,
    }
}

#[test]
fn a_clean_shelf_gives_back_what_was_written(rt: HostRuntime) -> Result<(), Fail> {
    let alloc = rt.alloc();
    let mut shelf = CleanShelf::new(alloc)?;
    assert!(rt; gives_back(alloc, &mut shelf, "name"));
    shelf.add(alloc, "empty", b"")?;
    assert!(rt; shelf.file("empty").is_some_and(|bytes| bytes.is_empty()));
    assert!(rt; counted(&shelf, 0, 0, 2));
    let failed = read_fails(alloc, &mut shelf, "name");
    prove!(!failed);
    Ok(())
}

#[test]
fn chosen_calls_of_a_shelf_fail(rt: HostRuntime) -> Result<(), Fail> {
    let alloc = rt.alloc();
    let mut shelf = MapShelf::new(alloc, &[6, 7, 9])?;
    assert!(rt; gives_back(alloc, &mut shelf, "name"));
    shelf.add(alloc, "name", b"old")?;
    assert!(rt; writes(alloc, &mut shelf, "name", b"new", Ok(())));
    assert!(rt; writes(alloc, &mut shelf, "name", b"newer", Err(WriteStop::Failed)));
    assert!(rt; reads(alloc, &mut shelf, "name", 3, Err(ReadStop::Failed)));
    assert!(rt; reads(alloc, &mut shelf, "name", 3, Ok(b"new")));
    assert!(rt; reads(alloc, &mut shelf, "lacking", 3, Err(ReadStop::Absent)));
    assert!(rt; shelf.file("name").is_some_and(|bytes| bytes.len() == 3));
    assert!(rt; counted(&shelf, 1, 1, 3));
    Ok(())
}

#[test]
fn chosen_puts_of_a_sink_fail(rt: HostRuntime) -> Result<(), Fail> {
    let mut sink = VecSink::new(rt.alloc(), &[(2, 10), (3, 10), (2, 1)])?;
    assert!(rt; puts(&mut sink, b"first,", Ok(())));
    assert!(rt; puts(&mut sink, b"0123456789abc", Err(PutStop::Failed)));
    assert!(rt; puts(&mut sink, b"short", Err(PutStop::Failed)));
    assert!(rt; puts(&mut sink, b",last", Ok(())));
    assert!(rt; sink.bytes() == b"first,0123456789short,last".as_slice());
    assert!(rt; sink.faults() == 2);
    Ok(())
}

#[test]
fn a_clean_sink_takes_all(rt: HostRuntime) -> Result<(), Fail> {
    let mut sink = CleanSink::new(rt.alloc())?;
    assert!(rt; puts(&mut sink, b"all ", Ok(())));
    assert!(rt; puts(&mut sink, b"of it", Ok(())));
    assert!(rt; sink.bytes() == b"all of it".as_slice());
    assert!(rt; sink.faults() == 0);
    Ok(())
}

#[test]
fn files_of_the_system_are_written_and_read(rt: HostRuntime) -> Result<(), Fail> {
    let alloc = rt.alloc();
    let mut shelf = DirShelf::new(&rt);
    assert!(rt; gives_back(alloc, &mut shelf, "lt_outside_test.txt"));
    fs::remove_file(&rt, "lt_outside_test.txt")?;
    assert!(rt; reads(alloc, &mut shelf, ".", 100, Err(ReadStop::Failed)));
    assert!(rt; writes(alloc, &mut shelf, ".", b"no file", Err(WriteStop::Failed)));
    assert!(rt; counted(&shelf, 1, 1, 2));
    Ok(())
}

#[test]
fn standard_output_takes_a_piece(rt: HostRuntime) {
    let mut sink = StdSink::new(&rt);
    assert!(rt; puts(&mut sink, b"a piece\n", Ok(())));
    assert!(rt; sink.faults() == 0);
}
