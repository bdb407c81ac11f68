//! Why there is no new object.

ghost use Rattle.std.specs.Prelude.{◌≡◌};
ghost use Rattle.lt_mem.specs.declared.stop.MemStop.TheVariants.{NoMemory};

use std::alloc::{AllocError, AllocFailed};
use thiserror::Error;

#[derive(Debug, Drop, Error)]
pub enum MemStop {
    /// More cells would be alive than may be.
    #[error("too many cells would be alive")]
    Cells,
    /// Memory for the object, or a number for it, isn't there.
    #[error("out of memory")]
    NoMemory,
}

impl From<AllocError> for MemStop {
    ghost from_gives = { λ _ e. e ≡ NoMemory };

    fn from(_error: AllocError) -> MemStop {
        MemStop::NoMemory
    }
}

impl<T: Drop> From<AllocFailed<T>> for MemStop {
    ghost from_gives = { λ _ e. e ≡ NoMemory };

    fn from(_error: AllocFailed<T>) -> MemStop {
        MemStop::NoMemory
    }
}
