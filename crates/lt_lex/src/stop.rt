//! Why a text has no tokens.

ghost use Rattle.std.specs.Prelude.{◌≡◌};
ghost use Rattle.lt_lex.specs.declared.stop.LexStop.TheVariants.{NoMemory};

use lt_model::Name;
use std::alloc::{AllocError, AllocFailed};
use thiserror::Error;

/// Places are bytes, counted from 0.
#[derive(Debug, Drop, Error)]
pub enum LexStop {
    /// No token begins here.
    #[error("no token at byte {0}")]
    Lex(u32),
    /// The word or literal is in C, and isn't read.
    #[error("a word at byte {1} is not supported")]
    Unsupported(Name, u32),
    #[error("nested too deeply at byte {0}")]
    TooNested(u32),
    #[error("out of memory")]
    NoMemory,
}

impl From<AllocError> for LexStop {
    ghost from_gives = { λ _ e. e ≡ NoMemory };

    fn from(_error: AllocError) -> LexStop {
        LexStop::NoMemory
    }
}

impl<T: Drop> From<AllocFailed<T>> for LexStop {
    ghost from_gives = { λ _ e. e ≡ NoMemory };

    fn from(_error: AllocFailed<T>) -> LexStop {
        LexStop::NoMemory
    }
}
