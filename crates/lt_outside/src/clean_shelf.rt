ghost use Rattle.std.specs.Prelude.{◌≡◌, ◌≤◌, List, ℕ, Err, None, Some, false, OnOk, OnErr, IfOk, IfErr, IsErrOf, IsOkUnless, option_copied, MatchResult, vec_len};
ghost use Rattle.lt_outside.specs.Count.{Rose};
ghost use Rattle.lt_outside.specs.Shelf.{MayStop, IsMiss, IsOver, Puts, read_answer, misses_after};
ghost use Rattle.lt_outside.specs.Memory.{clean_files, clean_missed};

use crate::named_files::NamedFiles;
use crate::shelf::{ReadStop, Shelf, WriteStop};
use std::alloc::{AllocError, Global};

/// Files in memory, whose reads and writes never fail but for want of memory.
#[derive(Drop)]
pub struct CleanShelf {
    files: NamedFiles,
    misses: u64,
}

impl CleanShelf {
    /// A shelf without files.
    pub fn new(alloc: Global) -> Result<CleanShelf, AllocError>
        ensures empty { IfOk result (λ shelf. (name : List ℕ) → clean_files shelf name ≡ None) }
        ensures misses { IfOk result (λ shelf. clean_missed shelf ≡ 0) }
    {
        Ok(CleanShelf {
            files: NamedFiles::new(alloc),
            misses: 0,
        })
    }

    /// Gives the name these bytes. On an error nothing changed.
    pub fn add(&mut self, alloc: Global, name: &str, bytes: &[u8]) -> Result<(), AllocError>
        ensures ok { OnOk result (Puts (clean_files self.old) (clean_files self.new) name.now bytes.now) }
        ensures err { OnErr result (clean_files self.new ≡ clean_files self.old) }
        ensures misses { clean_missed self.new ≡ clean_missed self.old }
    {
        self.files.put(alloc, name, bytes)
    }

    /// The bytes of a file, if there is one of this name.
    pub fn file(&self, name: &str) -> Option<&[u8]>
        ensures { option_copied result ≡ clean_files self.now name.now }
    {
        self.files.file(name)
    }
}

impl Shelf for CleanShelf {
    ghost told = { λ s. Some (clean_files s) };

    ghost read_faults = { λ _. 0 };

    ghost put_faults = { λ _. 0 };

    ghost missed = { clean_missed };

    fn read(&mut self, alloc: Global, name: &str, most: u64) -> Result<Vec<u8>, ReadStop>
        ensures gives { IfOk result (λ v. clean_files self.old name.now ≡ Some v.items) }
        ensures short { IfOk result (λ v. vec_len v ≤ most) }
        ensures stops { IfErr result (λ stop. MayStop (clean_files self.old) name.now most stop) }
        ensures over { IfErr result (IsOver most) }
        ensures miss { IfErr result (λ stop. IsMiss stop → Rose (clean_missed self.old) (clean_missed self.new)) }
        ensures fault { ¬ IsErrOf result ReadStop.Failed }
        ensures stays { clean_files self.new ≡ clean_files self.old }
        ensures misses_rise { clean_missed self.old ≤ clean_missed self.new }
        ensures answer { MatchResult (read_answer (clean_files self.old name.now) most false) (λ bytes. MatchResult result (λ v. v.items ≡ bytes) (λ stop. stop ≡ ReadStop.NoMemory)) (λ stop. result ≡ Err stop) }
        ensures misses { clean_missed self.new ≡ misses_after (read_answer (clean_files self.old name.now) most false) (clean_missed self.old) }
    {
        match self.files.readable(name, most, false) {
            Ok(bytes) => Vec::from_slice(alloc, bytes).map_err(|_| ReadStop::NoMemory),
            Err(stop) => {
                self.misses = self.misses.saturating_add(1);
                Err(stop)
            }
        }
    }

    fn write(&mut self, alloc: Global, name: &str, bytes: &[u8]) -> Result<(), WriteStop>
        ensures puts { OnOk result (Puts (clean_files self.old) (clean_files self.new) name.now bytes.now) }
        ensures memory { OnErr result (clean_files self.new ≡ clean_files self.old) }
        ensures only { IsOkUnless result WriteStop.NoMemory }
        ensures misses_stay { clean_missed self.new ≡ clean_missed self.old }
    {
        self.files
            .put(alloc, name, bytes)
            .map_err(|_| WriteStop::NoMemory)
    }

    fn faults(&self) -> u64 {
        0
    }

    fn write_faults(&self) -> u64 {
        0
    }

    fn misses(&self) -> u64 {
        self.misses
    }
}
