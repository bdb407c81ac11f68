//! The labels of which a run makes true marks.

ghost use Rattle.std.specs.Prelude.{◌≡◌, []};
ghost use Rattle.lt_model.specs.declared.run.Mark.{Mark as Shown};
ghost use Rattle.lt_replay.specs.Marks.{Sees};

use lt_mach::Watch;
use lt_model::Mark;
use std::alloc::{AllocError, Global};
use std::collections::BTreeSet;

/// The ids of the labels of which true marks were seen.
#[derive(Drop)]
pub struct TrueMarks {
    pub ids: BTreeSet<u32>,
}

impl TrueMarks {
    /// No marks were seen.
    pub fn new(alloc: Global) -> TrueMarks
        ensures { result.ids.keys ≡ [] }
    {
        TrueMarks {
            ids: BTreeSet::new(alloc),
        }
    }
}

impl Watch for TrueMarks {
    ghost saw = { λ old mark new. Sees old mark new };

    fn see(&mut self, alloc: Global, mark: &Mark) -> Result<(), AllocError> {
        if mark.truth {
            self.ids.insert(mark.id)?;
        }
        Ok(())
    }
}
