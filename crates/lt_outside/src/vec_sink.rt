ghost use Rattle.std.specs.Prelude.{◌≡◌, ◌≤◌, ◌++◌, [], None, Some, IfOk, OnOk, IsErrOf, IsSomeAnd, MatchResult, take};
ghost use Rattle.lt_outside.specs.Count.{raised, Rose};
ghost use Rattle.lt_outside.specs.Sink.{put_faults_after};
ghost use Rattle.lt_outside.specs.Memory.{sink_bytes, sink_fails, sink_puts, sink_faults, next_cut};

use crate::sink::{PutStop, Sink};
use std::alloc::{AllocError, Global};

/// Takes bytes into memory. Chosen puts fail after a front of their piece: a sink for tests.
#[derive(Drop)]
pub struct VecSink {
    bytes: Vec<u8>,
    // The number of a put that is to fail, from 1, and how many bytes it takes.
    fails: Vec<(u64, u64)>,
    // How many puts there were.
    puts: u64,
    faults: u64,
}

impl VecSink {
    /// A sink that took nothing. A pair is the number of a put that fails, from 1, and how many bytes it takes all the
    /// same, which is the whole piece where that is shorter. Of two pairs with one number the first counts.
    pub fn new(alloc: Global, fails: &[(u64, u64)]) -> Result<VecSink, AllocError>
        ensures empty { IfOk result (λ sink. sink_bytes sink ≡ []) }
        ensures fails { IfOk result (λ sink. sink_fails sink ≡ fails.now) }
        ensures puts { IfOk result (λ sink. sink_puts sink ≡ 0) }
        ensures faults { IfOk result (λ sink. sink_faults sink ≡ 0) }
    {
        Ok(VecSink {
            bytes: Vec::new(alloc),
            fails: Vec::from_slice(alloc, fails)?,
            puts: 0,
            faults: 0,
        })
    }

    /// What it took.
    pub fn bytes(&self) -> &[u8]
        ensures { result.now ≡ sink_bytes self.now }
    {
        self.bytes.as_slice()
    }

    // Counts a put, and says how many bytes it takes, where it is to fail.
    fn next_put(&mut self) -> Option<u64>
        ensures cut { result ≡ next_cut self.old }
        ensures puts { sink_puts self.new ≡ raised (sink_puts self.old) }
        ensures bytes { sink_bytes self.new ≡ sink_bytes self.old }
        ensures fails { sink_fails self.new ≡ sink_fails self.old }
        ensures faults { sink_faults self.new ≡ sink_faults self.old }
    {
        self.puts = self.puts.saturating_add(1);
        let number = self.puts;
        self.fails
            .iter()
            .find(|pair| pair.0 == number)
            .map(|pair| pair.1)
    }
}

impl Sink for VecSink {
    ghost taken = { λ s. Some (sink_bytes s) };

    ghost puts = { sink_puts };

    ghost put_faults = { sink_faults };

    fn put(&mut self, piece: &[u8]) -> Result<(), PutStop>
        ensures ok { OnOk result ((next_cut self.old ≡ None) × (sink_bytes self.new ≡ sink_bytes self.old ++ piece.now)) }
        ensures failed { IsErrOf result PutStop.Failed → IsSomeAnd (next_cut self.old) (λ count. sink_bytes self.new ≡ sink_bytes self.old ++ take count piece.now) }
        ensures memory { IsErrOf result PutStop.NoMemory → sink_bytes self.new ≡ sink_bytes self.old }
        ensures fault { IsErrOf result PutStop.Failed → Rose (sink_faults self.old) (sink_faults self.new) }
        ensures faults_rise { sink_faults self.old ≤ sink_faults self.new }
        ensures faults { MatchResult result (λ _. sink_faults self.new ≡ sink_faults self.old) (λ stop. sink_faults self.new ≡ put_faults_after stop (sink_faults self.old)) }
        ensures puts { sink_puts self.new ≡ raised (sink_puts self.old) }
        ensures fails { sink_fails self.new ≡ sink_fails self.old }
    {
        let cut = self.next_put();
        let mut taken = piece;
        if let Some(most) = cut
            && most < piece.len() as u64
        {
            taken = &piece[..most as usize];
        }
        self.bytes
            .extend_from_slice(taken)
            .map_err(|_| PutStop::NoMemory)?;
        if cut.is_some() {
            self.faults = self.faults.saturating_add(1);
            return Err(PutStop::Failed);
        }
        Ok(())
    }

    fn faults(&self) -> u64 {
        self.faults
    }
}
