//! Why a text says no specification.

ghost use Rattle.std.specs.Prelude.{◌≡◌};
ghost use Rattle.lt_spec_reader.specs.declared.stops.NoSpecification.TheVariants.{NoMemory};

use std::alloc::AllocError;
use thiserror::Error;

/// Why a text says no specification.
#[derive(Debug, Drop, Error)]
pub enum NoSpecification {
    /// The first line that is no line of a specification in its place, by its number from 1; the greatest number stands for all behind it.
    #[error("line {0} is no line of a specification in its place")]
    Line(u32),
    #[error("out of memory")]
    NoMemory,
}

impl From<AllocError> for NoSpecification {
    ghost from_gives = { λ _ e. e ≡ NoMemory };

    fn from(_error: AllocError) -> NoSpecification {
        NoSpecification::NoMemory
    }
}
