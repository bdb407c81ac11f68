ghost use Rattle.std.specs.Prelude.{◌≡◌, IfOk, ℕ, List};
ghost use Rattle.lt_tree.specs.UnitView.{unit_of};
ghost use Rattle.lt_objectives.specs.Objectives.{Objective};
ghost use Rattle.lt_numbering.specs.Numbering.{Number};
ghost use Rattle.lt_survey.specs.Marking.{IsMarkedWith};

use lt_numbering::NewMarks;
use lt_placing::with_marks;
use lt_tree::Unit;
use std::alloc::{AllocError, Global};

/// A unit with new marks, and the id that follows theirs.
#[derive(Drop)]
pub struct Marked {
    pub unit: Unit,
    pub next: u32,
}

/// A copy of a unit, in which marks are to have ids from this one on.
pub fn unmarked(alloc: Global, unit: &Unit, next: u32) -> Result<Marked, AllocError>
    ensures { IfOk result (λ it. (unit_of it.unit ≡ unit_of unit.now) × (it.next ≡ next)) }
{
    let unit = with_marks(alloc, unit, Vec::new(alloc))?;
    Ok(Marked { unit, next })
}

/// A unit with the marks of objectives.
pub fn marked_with(alloc: Global, unit: &Unit, new: NewMarks) -> Result<Marked, AllocError>
    ensures { (id : ℕ) (them : List Objective) → Number new id them → IfOk result (IsMarkedWith (unit_of unit.now) id them) }
{
    let unit = with_marks(alloc, unit, new.marks)?;
    Ok(Marked {
        unit,
        next: new.next,
    })
}
