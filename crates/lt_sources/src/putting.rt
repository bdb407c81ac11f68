//! Puts the text of a command on a sink.

ghost use Rattle.std.specs.Prelude.{◌≡◌};
ghost use Rattle.lt_outside.specs.Count.{raised, Rose};
ghost use Rattle.lt_answers.specs.Answers.{PutEnds};
ghost use Rattle.lt_answers.specs.declared.status.Status.TheVariants.{WriteFault};

use lt_answers::Status;
use lt_outside::{PutStop, Sink};

/// Puts the text, in one put.
pub fn put_text<K: Sink>(out: &mut K, text: &[u8]) -> Status
    ensures ends { PutEnds (K.taken out.old) (K.taken out.new) text.now result }
    ensures cause { result ≡ WriteFault → Rose (K.put_faults out.old) (K.put_faults out.new) }
    ensures puts { K.puts out.new ≡ raised (K.puts out.old) }
{
    match out.put(text) {
        Ok(()) => Status::Done,
        Err(PutStop::Failed) => Status::WriteFault,
        Err(PutStop::NoMemory) => Status::NoMemory,
    }
}
