//! Why words give no command.

ghost use Rattle.std.specs.Prelude.{◌≡◌};
ghost use Rattle.lt_command.specs.declared.stops.PlanStop.TheVariants.{NoMemory};

use std::alloc::AllocError;
use thiserror::Error;

/// Why words give no command.
#[derive(Debug, Drop, Error)]
pub enum PlanStop {
    #[error("the words are of no command form")]
    Usage,
    #[error("out of memory")]
    NoMemory,
}

impl From<AllocError> for PlanStop {
    ghost from_gives = { λ _ e. e ≡ NoMemory };

    fn from(_error: AllocError) -> PlanStop {
        PlanStop::NoMemory
    }
}
