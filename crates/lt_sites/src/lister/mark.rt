ghost use Rattle.lt_tree.specs.View.{mark_of};
ghost use Rattle.lt_tree.specs.Records.{marks_in, bindings_in};
ghost use Rattle.lt_tree.specs.Nodes.{in_marks, in_mark, in_bindings};
ghost use Rattle.lt_sites.specs.Listed.{Lists};

use super::sites::Lister;
use crate::site::NodeRef;
use lt_tree::{Binding, Mark};
use std::alloc::AllocError;

impl<'u> Lister<'u> {
    // Marks in a row.
    #[cycle(listing)]
    pub(super) fn marks(&mut self, list: &'u [Mark]) -> Result<(), AllocError>
        ensures { Lists result self.old self.new (in_marks (marks_in list.now)) }
    {
        'marks: for at in (0..list.len()).rev() {
            self.mark(&list[at])?;
        }
        Ok(())
    }

    /// Lists a mark.
    #[cycle(listing)]
    pub fn mark(&mut self, mark: &'u Mark) -> Result<(), AllocError>
        ensures { Lists result self.old self.new (in_mark (mark_of mark.now)) }
    {
        let start = self.len();
        self.bindings(mark.bound.as_slice())?;
        self.expression(&mark.predicate)?;
        self.leave(NodeRef::Mark(mark), start, 0)
    }

    // The names that a mark binds.
    #[cycle(listing)]
    fn bindings(&mut self, list: &'u [Binding]) -> Result<(), AllocError>
        ensures { Lists result self.old self.new (in_bindings (bindings_in list.now)) }
    {
        'bindings: for at in (0..list.len()).rev() {
            self.expression(&list[at].value)?;
        }
        Ok(())
    }
}
