ghost use Rattle.std.specs.Prelude.{◌≡◌, List, ℕ, None, Some, OnOk, OnErr, option_copied, MatchResult};
ghost use Rattle.lt_outside.specs.Shelf.{Puts, read_answer};
ghost use Rattle.lt_outside.specs.Memory.{files_of};

use crate::shelf::ReadStop;
use std::alloc::{AllocError, Global};
use std::collections::BTreeMap;

/// Bytes by name, in memory.
#[derive(Drop)]
pub struct NamedFiles {
    files: BTreeMap<String, Vec<u8>>,
}

impl NamedFiles {
    pub fn new(alloc: Global) -> NamedFiles
        ensures { (name : List ℕ) → files_of result name ≡ None }
    {
        NamedFiles {
            files: BTreeMap::new(alloc),
        }
    }

    /// The bytes of a file, if there is one of this name.
    pub fn file(&self, name: &str) -> Option<&[u8]>
        ensures { option_copied result ≡ files_of self.now name.now }
    {
        match self.files.get(name) {
            Some(bytes) => Some(bytes.as_slice()),
            None => None,
        }
    }

    /// Gives the name these bytes. On an error nothing changed.
    pub fn put(&mut self, alloc: Global, name: &str, bytes: &[u8]) -> Result<(), AllocError>
        ensures ok { OnOk result (Puts (files_of self.old) (files_of self.new) name.now bytes.now) }
        ensures err { OnErr result (files_of self.new ≡ files_of self.old) }
    {
        let key = String::from_str(alloc, name)?;
        let value = Vec::from_slice(alloc, bytes)?;
        self.files.insert(key, value)?;
        Ok(())
    }

    /// The bytes that a read of this name, of at most so many, gives, or why it stops. A call that is to fail stops
    /// only where the file is there and is short enough.
    pub fn readable(&self, name: &str, most: u64, fails: bool) -> Result<&[u8], ReadStop>
        ensures { MatchResult result (λ bytes. read_answer (files_of self.now name.now) most fails ≡ Ok bytes.now) (λ stop. read_answer (files_of self.now name.now) most fails ≡ Err stop) }
    {
        let Some(bytes) = self.file(name) else {
            return Err(ReadStop::Absent);
        };
        let len = bytes.len() as u64;
        if most < len {
            return Err(ReadStop::TooLong(len));
        }
        if fails {
            return Err(ReadStop::Failed);
        }
        Ok(bytes)
    }
}
