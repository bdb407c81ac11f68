//! Why there is no default specification.

ghost use Rattle.std.specs.Prelude.{◌≡◌};
ghost use Rattle.lt_input_specs.specs.declared.stops.NoSpec.TheVariants.{NoMemory};

use std::alloc::AllocError;
use thiserror::Error;

/// Why a program has no default specification.
#[derive(Debug, Drop, Error)]
pub enum NoSpec {
    #[error("no function of the program may be an entry")]
    NoEntry,
    #[error("out of memory")]
    NoMemory,
}

impl From<AllocError> for NoSpec {
    ghost from_gives = { λ _ e. e ≡ NoMemory };

    fn from(_error: AllocError) -> NoSpec {
        NoSpec::NoMemory
    }
}
