ghost use Rattle.std.specs.Prelude.{◌≡◌, None};
ghost use Rattle.lt_outside.specs.System.{std_puts, std_faults};

use crate::sink::{PutStop, Sink};

/// Standard output. It tells nothing of what it took.
#[derive(Drop)]
pub struct StdSink<'a, R: Print> {
    rt: &'a R,
    // How many puts there were.
    puts: u64,
    faults: u64,
}

impl<'a, R: Print> StdSink<'a, R> {
    /// A sink that has counted nothing yet.
    pub fn new(rt: &'a R) -> Self
        ensures puts { ⟦<StdSink<'a, R> as Sink>⟧.puts result ≡ 0 }
        ensures faults { ⟦<StdSink<'a, R> as Sink>⟧.put_faults result ≡ 0 }
    {
        StdSink {
            rt,
            puts: 0,
            faults: 0,
        }
    }
}

impl<R: Print> Sink for StdSink<'_, R> {
    ghost taken = { λ _. None };

    ghost puts = { std_puts };

    ghost put_faults = { std_faults };

    fn put(&mut self, piece: &[u8]) -> Result<(), PutStop> {
        self.puts = self.puts.saturating_add(1);
        match self.rt.write_all(piece) {
            Ok(()) => Ok(()),
            Err(_) => {
                self.faults = self.faults.saturating_add(1);
                Err(PutStop::Failed)
            }
        }
    }

    fn faults(&self) -> u64 {
        self.faults
    }
}
