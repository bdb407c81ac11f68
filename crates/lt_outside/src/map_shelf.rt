ghost use Rattle.std.specs.Prelude.{◌≡◌, ◌≤◌, List, ℕ, None, Some, OnOk, OnErr, IfOk, IfErr, IsErrOf, IsTrue, ◌↔◌, option_copied, MatchResult, Err, vec_len, if◌then◌else◌};
ghost use Rattle.lt_outside.specs.Count.{raised, Rose};
ghost use Rattle.lt_outside.specs.Shelf.{MayStop, IsMiss, IsOver, Puts, KeepsOthers, misses_after, faults_after};
ghost use Rattle.lt_outside.specs.declared.shelf.ReadStop.{ReadStop};
ghost use Rattle.lt_outside.specs.Memory.{map_files, map_fails, map_calls, map_read_faults, map_put_faults, map_missed, next_call_fails, map_read};

use crate::named_files::NamedFiles;
use crate::shelf::{ReadStop, Shelf, WriteStop};
use std::alloc::{AllocError, Global};

/// Files in memory, whose chosen calls of `read` and `write` fail: a shelf for tests.
#[derive(Drop)]
pub struct MapShelf {
    files: NamedFiles,
    // The numbers of the calls that are to fail, from 1, in any order.
    fails: Vec<u64>,
    // How many calls of `read` and `write` there were.
    calls: u64,
    faults: u64,
    write_faults: u64,
    misses: u64,
}

impl MapShelf {
    /// A shelf without files. Its calls of `read` and `write` are numbered together from 1, and those with these
    /// numbers are to fail.
    pub fn new(alloc: Global, fails: &[u64]) -> Result<MapShelf, AllocError>
        ensures empty { IfOk result (λ shelf. (name : List ℕ) → map_files shelf name ≡ None) }
        ensures fails { IfOk result (λ shelf. map_fails shelf ≡ fails.now) }
        ensures calls { IfOk result (λ shelf. map_calls shelf ≡ 0) }
        ensures counts { IfOk result (λ shelf. (map_read_faults shelf ≡ 0) × (map_put_faults shelf ≡ 0) × (map_missed shelf ≡ 0)) }
    {
        Ok(MapShelf {
            files: NamedFiles::new(alloc),
            fails: Vec::from_slice(alloc, fails)?,
            calls: 0,
            faults: 0,
            write_faults: 0,
            misses: 0,
        })
    }

    /// Gives the name these bytes. It is no numbered call, and on an error nothing changed.
    pub fn add(&mut self, alloc: Global, name: &str, bytes: &[u8]) -> Result<(), AllocError>
        ensures ok { OnOk result (Puts (map_files self.old) (map_files self.new) name.now bytes.now) }
        ensures err { OnErr result (map_files self.new ≡ map_files self.old) }
        ensures fails { map_fails self.new ≡ map_fails self.old }
        ensures calls { map_calls self.new ≡ map_calls self.old }
        ensures counts { (map_read_faults self.new ≡ map_read_faults self.old) × (map_put_faults self.new ≡ map_put_faults self.old) × (map_missed self.new ≡ map_missed self.old) }
    {
        self.files.put(alloc, name, bytes)
    }

    /// The bytes of a file, if there is one of this name.
    pub fn file(&self, name: &str) -> Option<&[u8]>
        ensures { option_copied result ≡ map_files self.now name.now }
    {
        self.files.file(name)
    }

    // Counts a call, and says whether it is to fail.
    fn next_call(&mut self) -> bool
        ensures fails { result ≡ next_call_fails self.old }
        ensures calls { map_calls self.new ≡ raised (map_calls self.old) }
        ensures same { self.new ≡ record self.old { calls = map_calls self.new } }
    {
        self.calls = self.calls.saturating_add(1);
        self.fails.contains(&self.calls)
    }
}

impl Shelf for MapShelf {
    ghost told = { λ s. Some (map_files s) };

    ghost read_faults = { map_read_faults };

    ghost put_faults = { map_put_faults };

    ghost missed = { map_missed };

    /// Where the file is there and is short enough, a call that is to fail does so; else the answer is as ever.
    fn read(&mut self, alloc: Global, name: &str, most: u64) -> Result<Vec<u8>, ReadStop>
        ensures gives { IfOk result (λ v. map_files self.old name.now ≡ Some v.items) }
        ensures short { IfOk result (λ v. vec_len v ≤ most) }
        ensures stops { IfErr result (λ stop. MayStop (map_files self.old) name.now most stop) }
        ensures over { IfErr result (IsOver most) }
        ensures miss { IfErr result (λ stop. IsMiss stop → Rose (map_missed self.old) (map_missed self.new)) }
        ensures fault { IsErrOf result ReadStop.Failed → Rose (map_read_faults self.old) (map_read_faults self.new) }
        ensures stays { map_files self.new ≡ map_files self.old }
        ensures writes_stay { map_put_faults self.new ≡ map_put_faults self.old }
        ensures faults_rise { map_read_faults self.old ≤ map_read_faults self.new }
        ensures misses_rise { map_missed self.old ≤ map_missed self.new }
        ensures answer { MatchResult (map_read self.old name.now most) (λ bytes. MatchResult result (λ v. v.items ≡ bytes) (λ stop. stop ≡ ReadStop.NoMemory)) (λ stop. result ≡ Err stop) }
        ensures misses { map_missed self.new ≡ misses_after (map_read self.old name.now most) (map_missed self.old) }
        ensures faults { map_read_faults self.new ≡ faults_after (map_read self.old name.now most) (map_read_faults self.old) }
        ensures calls { map_calls self.new ≡ raised (map_calls self.old) }
        ensures fails { map_fails self.new ≡ map_fails self.old }
    {
        let fails = self.next_call();
        match self.files.readable(name, most, fails) {
            Ok(bytes) => Vec::from_slice(alloc, bytes).map_err(|_| ReadStop::NoMemory),
            Err(stop) => {
                match stop {
                    ReadStop::Absent | ReadStop::TooLong(_) => {
                        self.misses = self.misses.saturating_add(1);
                    }
                    ReadStop::Failed => self.faults = self.faults.saturating_add(1),
                    ReadStop::NoMemory => {}
                }
                Err(stop)
            }
        }
    }

    /// A write that fails leaves all files as they were.
    fn write(&mut self, alloc: Global, name: &str, bytes: &[u8]) -> Result<(), WriteStop>
        ensures puts { OnOk result (Puts (map_files self.old) (map_files self.new) name.now bytes.now) }
        ensures failed { IsErrOf result WriteStop.Failed → KeepsOthers (map_files self.old) (map_files self.new) name.now }
        ensures fault { IsErrOf result WriteStop.Failed → Rose (map_put_faults self.old) (map_put_faults self.new) }
        ensures faults_rise { map_put_faults self.old ≤ map_put_faults self.new }
        ensures unchanged { OnErr result (map_files self.new ≡ map_files self.old) }
        ensures fails_so { IsErrOf result WriteStop.Failed ↔ IsTrue (next_call_fails self.old) }
        ensures faults { map_put_faults self.new ≡ (if next_call_fails self.old then raised (map_put_faults self.old) else map_put_faults self.old) }
        ensures reads_stay { map_read_faults self.new ≡ map_read_faults self.old }
        ensures misses_stay { map_missed self.new ≡ map_missed self.old }
        ensures calls { map_calls self.new ≡ raised (map_calls self.old) }
        ensures fails { map_fails self.new ≡ map_fails self.old }
    {
        if self.next_call() {
            self.write_faults = self.write_faults.saturating_add(1);
            return Err(WriteStop::Failed);
        }
        self.files
            .put(alloc, name, bytes)
            .map_err(|_| WriteStop::NoMemory)
    }

    fn faults(&self) -> u64 {
        self.faults
    }

    fn write_faults(&self) -> u64 {
        self.write_faults
    }

    fn misses(&self) -> u64 {
        self.misses
    }
}
