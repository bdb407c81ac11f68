//! Who is shown the marks of a run.

ghost use Rattle.std.specs.Prelude.{◌≡◌, ◌∷◌, ◌++◌, [], List, IfOk, OnOk};
ghost use Rattle.lt_model.specs.declared.run.Mark.{Mark as Shown};
ghost use Rattle.lt_model.specs.declared.run.Binding.{Binding as Bound};

use lt_model::{Binding, Mark, Name, Sequence};
use std::alloc::{AllocError, AllocFailed, Global};
use std::marker::Model;

/// Who is shown the marks of a run, each when it is made.
pub trait Watch {
    /// How it goes on when it sees a mark.
    ghost saw: { Self → Shown → Self → Type 0 };

    /// It sees a mark. It stops for want of memory alone, and then nothing is said of it.
    fn see(&mut self, alloc: Global, mark: &Mark) -> Result<(), AllocError>
        ensures { OnOk result (saw self.old mark.now self.new) };
}

/// A watch that keeps the marks that it saw. Contracts see them, in order.
#[derive(Drop)]
pub struct MarkList {
    marks: Vec<Mark>,
}

impl Model for MarkList {
    ghost use Rattle.std.specs.Prelude.{List};
    ghost use Rattle.lt_model.specs.declared.run.Mark.{Mark as Shown};

    ghost Value = { List Shown };

    ghost view = { λ list. list.marks.items };
}

impl MarkList {
    /// No marks. It takes no memory.
    pub fn new(alloc: Global) -> MarkList
        ensures { result ≡ [] }
    {
        MarkList {
            marks: Vec::new(alloc),
        }
    }

    /// The marks. It takes no memory.
    pub fn into_marks(self) -> Sequence<Mark>
        ensures { result ≡ self }
    {
        Sequence::new(self.marks)
    }
}

impl Watch for MarkList {
    ghost saw = { λ old mark new. new ≡ old ++ mark ∷ [] };

    fn see(&mut self, alloc: Global, mark: &Mark) -> Result<(), AllocError> {
        let copy = copied(alloc, mark)?;
        self.marks.push(copy)?;
        Ok(())
    }
}

// The same bound names, with their values.
fn copied_bound(alloc: Global, bound: &[Binding]) -> Result<Vec<Binding>, AllocError>
    ensures { IfOk result (λ copy. copy.items ≡ bound.now) }
{
    let mut copy = Vec::new(alloc);
    for it in bound {
        let name = Name::new(alloc, it.name.as_slice())?;
        copy.push(Binding {
            name,
            value: it.value,
        })?;
    }
    Ok(copy)
}

// The same mark.
fn copied(alloc: Global, mark: &Mark) -> Result<Mark, AllocError>
    ensures { IfOk result (λ copy. copy ≡ mark.now) }
{
    let bound = copied_bound(alloc, mark.bound.as_slice())?;
    Ok(Mark {
        id: mark.id,
        truth: mark.truth,
        bound: Sequence::new(bound),
    })
}
