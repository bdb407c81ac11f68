//! Why a coverage file isn't read, and why two tables have no merge.

ghost use Rattle.std.specs.Prelude.{◌≡◌};
ghost use Rattle.lt_cover.specs.declared.stops.CoverStop.TheVariants as cover;
ghost use Rattle.lt_cover.specs.declared.stops.MergeStop.TheVariants as merge;

use lt_model::Name;
use std::alloc::{AllocError, AllocFailed};
use thiserror::Error;

/// Why a coverage file isn't read.
#[derive(Debug, Drop, Error)]
pub enum CoverStop {
    /// The first row, counted from 1, that breaks the grammar.
    #[error("row {0} is not one of a coverage file")]
    Row(u32),
    #[error("out of memory")]
    NoMemory,
}

impl From<AllocError> for CoverStop {
    ghost from_gives = { λ _ e. e ≡ cover.NoMemory };

    fn from(_error: AllocError) -> CoverStop {
        CoverStop::NoMemory
    }
}

/// Why two tables have no merge.
#[derive(Debug, Drop, Error)]
pub enum MergeStop {
    /// The least id of a label on which the tables don't agree.
    #[error("the tables don't agree on label {0}")]
    Label(u32),
    /// The least id of a hyperlabel on which they don't agree.
    #[error("the tables don't agree on hyperlabel {0}")]
    Hyper(u32),
    /// The least name of a test that both have, with different ends.
    #[error("the tables don't agree on how tests end")]
    Test(Name),
    #[error("out of memory")]
    NoMemory,
}

impl From<AllocError> for MergeStop {
    ghost from_gives = { λ _ e. e ≡ merge.NoMemory };

    fn from(_error: AllocError) -> MergeStop {
        MergeStop::NoMemory
    }
}

impl<T: Drop> From<AllocFailed<T>> for MergeStop {
    ghost from_gives = { λ _ e. e ≡ merge.NoMemory };

    fn from(_error: AllocFailed<T>) -> MergeStop {
        MergeStop::NoMemory
    }
}
