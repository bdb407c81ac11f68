ghost use Rattle.std.specs.Prelude.{◌≡◌};
ghost use Rattle.lt_env.specs.declared.stop.TypeStop.TheVariants.{NoMemory};

use lt_tree::typed::Rule;
use std::alloc::{AllocError, AllocFailed};

/// Why a unit isn't typed.
#[derive(Clone, Copy, Debug, PartialEq, Eq)]
pub enum TypeStop {
    /// The first rule that is broken, and the number of the node at which it is.
    Broken(Rule, u32),
    /// More memory is needed than there is, or an index of more than 32 bits.
    NoMemory,
}

impl From<AllocError> for TypeStop {
    ghost from_gives = { λ _ e. e ≡ NoMemory };

    fn from(_error: AllocError) -> TypeStop {
        TypeStop::NoMemory
    }
}

impl<T: Drop> From<AllocFailed<T>> for TypeStop {
    ghost from_gives = { λ _ e. e ≡ NoMemory };

    fn from(_error: AllocFailed<T>) -> TypeStop {
        TypeStop::NoMemory
    }
}
