ghost use Rattle.std.specs.Prelude.{◌≡◌};
ghost use Rattle.lt_numbering.specs.declared.stop.MarkStop.TheVariants as stop;

use std::alloc::{AllocError, AllocFailed};
use thiserror::Error;

/// Why a unit isn't marked.
#[derive(Clone, Copy, PartialEq, Eq, Debug, Error)]
pub enum MarkStop {
    /// An id would pass 2,147,483,647.
    #[error("no id is left for a mark")]
    Ids,
    #[error("out of memory")]
    NoMemory,
}

impl From<AllocError> for MarkStop {
    ghost from_gives = { λ _ e. e ≡ stop.NoMemory };

    fn from(_error: AllocError) -> MarkStop {
        MarkStop::NoMemory
    }
}

impl<T: Drop> From<AllocFailed<T>> for MarkStop {
    ghost from_gives = { λ _ e. e ≡ stop.NoMemory };

    fn from(_error: AllocFailed<T>) -> MarkStop {
        MarkStop::NoMemory
    }
}
