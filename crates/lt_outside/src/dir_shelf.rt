ghost use Rattle.std.specs.Prelude.{◌≡◌, None};
ghost use Rattle.lt_outside.specs.System.{dir_read_faults, dir_put_faults, dir_missed};

use crate::shelf::{ReadStop, Shelf, WriteStop};
use std::alloc::Global;
use std::fs::{self, OpenFile};
use std::io::{self, ErrorKind, Read};
use std::rt::Files;

/// The files of the system: a name is a path, as the system takes it. It tells nothing of their content.
#[derive(Drop)]
pub struct DirShelf<'a, R: Files> {
    rt: &'a R,
    faults: u64,
    write_faults: u64,
    misses: u64,
}

impl<'a, R: Files> DirShelf<'a, R> {
    /// A shelf that has counted nothing yet.
    pub fn new(rt: &'a R) -> Self
        ensures faults { ⟦<DirShelf<'a, R> as Shelf>⟧.read_faults result ≡ 0 }
        ensures write_faults { ⟦<DirShelf<'a, R> as Shelf>⟧.put_faults result ≡ 0 }
        ensures misses { ⟦<DirShelf<'a, R> as Shelf>⟧.missed result ≡ 0 }
    {
        DirShelf {
            rt,
            faults: 0,
            write_faults: 0,
            misses: 0,
        }
    }
}

// The bytes of an opened file, one more than `most` at most.
fn read_front<F: Read + Drop>(alloc: Global, file: F, most: u64) -> io::Result<Vec<u8>> {
    let mut bytes = Vec::new(alloc);
    file.take(most.saturating_add(1)).read_to_end(&mut bytes)?;
    Ok(bytes)
}

impl<R: Files> Shelf for DirShelf<'_, R> {
    ghost told = { λ _. None };

    ghost read_faults = { dir_read_faults };

    ghost put_faults = { dir_put_faults };

    ghost missed = { dir_missed };

    fn read(&mut self, alloc: Global, name: &str, most: u64) -> Result<Vec<u8>, ReadStop> {
        let file = match fs::open(self.rt, name) {
            Ok(file) => file,
            Err(e) => {
                if e.kind() == ErrorKind::NotFound {
                    self.misses = self.misses.saturating_add(1);
                    return Err(ReadStop::Absent);
                }
                self.faults = self.faults.saturating_add(1);
                return Err(ReadStop::Failed);
            }
        };
        let told_len = match file.metadata() {
            Ok(metadata) => metadata.len(),
            Err(_) => 0,
        };
        match read_front(alloc, file, most) {
            Ok(bytes) => {
                let len = bytes.len() as u64;
                if len > most {
                    self.misses = self.misses.saturating_add(1);
                    return Err(ReadStop::TooLong(len.max(told_len)));
                }
                Ok(bytes)
            }
            Err(e) => {
                if e.kind() == ErrorKind::OutOfMemory {
                    return Err(ReadStop::NoMemory);
                }
                self.faults = self.faults.saturating_add(1);
                Err(ReadStop::Failed)
            }
        }
    }

    fn write(&mut self, _alloc: Global, name: &str, bytes: &[u8]) -> Result<(), WriteStop> {
        match fs::write(self.rt, name, bytes) {
            Ok(()) => Ok(()),
            Err(_) => {
                self.write_faults = self.write_faults.saturating_add(1);
                Err(WriteStop::Failed)
            }
        }
    }

    fn faults(&self) -> u64 {
        self.faults
    }

    fn write_faults(&self) -> u64 {
        self.write_faults
    }

    fn misses(&self) -> u64 {
        self.misses
    }
}
