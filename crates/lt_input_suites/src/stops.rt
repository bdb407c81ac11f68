//! Why a text says no suite.

ghost use Rattle.std.specs.Prelude.{◌≡◌};
ghost use Rattle.lt_input_suites.specs.declared.stops.NoSuite.TheVariants.{NoMemory};

use std::alloc::AllocError;
use thiserror::Error;

/// Why a text says no suite.
#[derive(Debug, Drop, Error)]
pub enum NoSuite {
    /// The first line that is no line of a suite in its place, by its number from 1; the greatest number stands for all behind it.
    #[error("line {0} is no line of a suite in its place")]
    Line(u32),
    #[error("out of memory")]
    NoMemory,
}

impl From<AllocError> for NoSuite {
    ghost from_gives = { λ _ e. e ≡ NoMemory };

    fn from(_error: AllocError) -> NoSuite {
        NoSuite::NoMemory
    }
}
