//! Why an act of a node has no value to go on with.

ghost use Rattle.std.specs.Prelude.{◌≡◌};
ghost use Rattle.lt_acts.specs.Ends.{end_of};

use lt_mem::MemStop;
use lt_model::{End, Ub};
use std::alloc::AllocError;

/// Why a run is over before a node is done.
#[derive(Clone, Copy)]
pub enum Fault {
    /// What no typed program comes to.
    Absurd,
    Undefined(Ub),
    Cells,
}

impl Fault {
    /// How the run is over then.
    pub fn end(self) -> End
        ensures { result ≡ end_of self }
    {
        match self {
            Fault::Absurd => End::Stopped,
            Fault::Undefined(kind) => End::Undefined(kind),
            Fault::Cells => End::Cells,
        }
    }
}

/// Why an act of a node isn't done: the run is over, or there is no memory.
#[derive(Clone, Copy)]
pub enum Stop {
    Over(Fault),
    NoMemory,
}

impl From<Fault> for Stop {
    ghost use Rattle.std.specs.Prelude.{◌≡◌};
    ghost use Rattle.lt_acts.specs.declared.flow.Stop.TheVariants.{Over};

    ghost from_gives = { λ fault stop. stop ≡ Over fault };

    fn from(fault: Fault) -> Stop {
        Stop::Over(fault)
    }
}

impl From<Ub> for Stop {
    ghost use Rattle.std.specs.Prelude.{◌≡◌};
    ghost use Rattle.lt_acts.specs.declared.flow.Stop.TheVariants.{Over};
    ghost use Rattle.lt_acts.specs.declared.flow.Fault.TheVariants.{Undefined};

    ghost from_gives = { λ kind stop. stop ≡ Over (Undefined kind) };

    fn from(kind: Ub) -> Stop {
        Stop::Over(Fault::Undefined(kind))
    }
}

impl From<AllocError> for Stop {
    ghost use Rattle.std.specs.Prelude.{◌≡◌};
    ghost use Rattle.lt_acts.specs.declared.flow.Stop.TheVariants.{NoMemory};

    ghost from_gives = { λ _ stop. stop ≡ NoMemory };

    fn from(_error: AllocError) -> Stop {
        Stop::NoMemory
    }
}

impl From<MemStop> for Stop {
    ghost use Rattle.std.specs.Prelude.{◌≡◌};
    ghost use Rattle.lt_acts.specs.Ends.{stop_of};

    ghost from_gives = { λ why stop. stop ≡ stop_of why };

    fn from(why: MemStop) -> Stop {
        match why {
            MemStop::Cells => Stop::Over(Fault::Cells),
            MemStop::NoMemory => Stop::NoMemory,
        }
    }
}
