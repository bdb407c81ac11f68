ghost use Rattle.std.specs.Prelude.{◌≡◌, IfOk};
ghost use Rattle.lt_tree.specs.View.{mark_of};
ghost use Rattle.lt_tree.specs.Records.{marks_in, bindings_in};
ghost use Rattle.lt_expr.specs.Walk as walk;

use super::walker::Walker;
use lt_tree::{Binding, Mark};
use std::alloc::AllocError;

impl Walker {
    // Marks in a row.
    #[cycle(walk)]
    pub(super) fn marks(&mut self, list: &[Mark]) -> Result<(), AllocError>
        ensures { IfOk result (λ _. self.new ≡ walk.walk_marks (marks_in list.now) self.old) }
    {
        'marks: for at in (0..list.len()).rev() {
            self.mark(&list[at])?;
        }
        Ok(())
    }

    /// Walks a mark.
    #[cycle(walk)]
    pub fn mark(&mut self, mark: &Mark) -> Result<(), AllocError>
        ensures { IfOk result (λ _. self.new ≡ walk.walk_mark (mark_of mark.now) self.old) }
    {
        let start = self.enter();
        self.bindings(mark.bound.as_slice())?;
        self.expression(&mark.predicate)?;
        self.leave(start)
    }

    // The names that a mark binds.
    #[cycle(walk)]
    fn bindings(&mut self, list: &[Binding]) -> Result<(), AllocError>
        ensures { IfOk result (λ _. self.new ≡ walk.walk_bindings (bindings_in list.now) self.old) }
    {
        'bindings: for at in (0..list.len()).rev() {
            self.expression(&list[at].value)?;
        }
        Ok(())
    }
}
