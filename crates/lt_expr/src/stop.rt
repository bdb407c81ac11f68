ghost use Rattle.std.specs.Prelude.{◌≡◌};
ghost use Rattle.lt_expr.specs.declared.stop.ParseStop.TheVariants.{NoMemory};

use std::alloc::{AllocError, AllocFailed};
use thiserror::Error;

/// Why tokens weren't parsed.
#[derive(Clone, Copy, Debug, PartialEq, Eq, Error)]
pub enum ParseStop {
    /// The tokens aren't of the form; a token near the fault begins at this byte, or the text ends there.
    #[error("syntax error at byte {0}")]
    Syntax(u32),
    #[error("out of memory")]
    NoMemory,
}

impl From<AllocError> for ParseStop {
    ghost from_gives = { λ _ e. e ≡ NoMemory };

    fn from(_error: AllocError) -> ParseStop {
        ParseStop::NoMemory
    }
}

impl<T: Drop> From<AllocFailed<T>> for ParseStop {
    ghost from_gives = { λ _ e. e ≡ NoMemory };

    fn from(_error: AllocFailed<T>) -> ParseStop {
        ParseStop::NoMemory
    }
}
