ghost use Rattle.std.specs.Prelude.{◌≡◌, IfOk};
ghost use Rattle.lt_tree.specs.View.{mark_of};
ghost use Rattle.lt_tree.specs.Records.{marks_in, bindings_in};
ghost use Rattle.lt_tree.specs.Scope.{hiding, enumerators_in_mark, enumerators_in_marks, enumerators_in_bindings};

use crate::typedefs::Typedefs;
use lt_tree::{Binding, Mark};
use std::alloc::AllocError;

impl Typedefs {
    // Marks in a row.
    #[cycle(hide)]
    pub(super) fn hide_marks(&mut self, list: &[Mark]) -> Result<(), AllocError>
        ensures { IfOk result (λ _. self.new ≡ hiding (enumerators_in_marks (marks_in list.now)) self.old) }
    {
        'marks: for mark in list {
            self.hide_mark(mark)?;
        }
        Ok(())
    }

    /// Declares the enumerators of a mark.
    #[cycle(hide)]
    #[tactic(auto, using(crate::proofs::Hiding::hiding_both))]
    pub fn hide_mark(&mut self, mark: &Mark) -> Result<(), AllocError>
        ensures { IfOk result (λ _. self.new ≡ hiding (enumerators_in_mark (mark_of mark.now)) self.old) }
    {
        self.hide_expression(&mark.predicate)?;
        self.hide_bindings(mark.bound.as_slice())
    }

    // The names that a mark binds.
    #[cycle(hide)]
    fn hide_bindings(&mut self, list: &[Binding]) -> Result<(), AllocError>
        ensures { IfOk result (λ _. self.new ≡ hiding (enumerators_in_bindings (bindings_in list.now)) self.old) }
    {
        'bindings: for binding in list {
            self.hide_expression(&binding.value)?;
        }
        Ok(())
    }
}
