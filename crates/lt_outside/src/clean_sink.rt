ghost use Rattle.std.specs.Prelude.{◌≡◌, ◌++◌, [], Some, IfOk, OnOk, OnErr, IsOkUnless};
ghost use Rattle.lt_outside.specs.Count.{raised};
ghost use Rattle.lt_outside.specs.Memory.{clean_bytes, clean_puts};

use crate::sink::{PutStop, Sink};
use std::alloc::{AllocError, Global};

/// Takes bytes into memory, and never fails but for want of memory.
#[derive(Drop)]
pub struct CleanSink {
    bytes: Vec<u8>,
    // How many puts there were.
    puts: u64,
}

impl CleanSink {
    /// A sink that took nothing.
    pub fn new(alloc: Global) -> Result<CleanSink, AllocError>
        ensures empty { IfOk result (λ sink. clean_bytes sink ≡ []) }
        ensures puts { IfOk result (λ sink. clean_puts sink ≡ 0) }
    {
        Ok(CleanSink {
            bytes: Vec::new(alloc),
            puts: 0,
        })
    }

    /// What it took.
    pub fn bytes(&self) -> &[u8]
        ensures { result.now ≡ clean_bytes self.now }
    {
        self.bytes.as_slice()
    }
}

impl Sink for CleanSink {
    ghost taken = { λ s. Some (clean_bytes s) };

    ghost puts = { clean_puts };

    ghost put_faults = { λ _. 0 };

    fn put(&mut self, piece: &[u8]) -> Result<(), PutStop>
        ensures ok { OnOk result (clean_bytes self.new ≡ clean_bytes self.old ++ piece.now) }
        ensures memory { OnErr result (clean_bytes self.new ≡ clean_bytes self.old) }
        ensures only { IsOkUnless result PutStop.NoMemory }
        ensures counted { clean_puts self.new ≡ raised (clean_puts self.old) }
    {
        self.puts = self.puts.saturating_add(1);
        self.bytes
            .extend_from_slice(piece)
            .map_err(|_| PutStop::NoMemory)
    }

    fn faults(&self) -> u64 {
        0
    }
}
