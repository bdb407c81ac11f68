ghost use Rattle.std.specs.Prelude.{◌++◌, map};
ghost use Rattle.std.specs.List.{flat_map};
ghost use Rattle.lt_tree.specs.Records.{specifiers_of, declarator_of};
ghost use Rattle.lt_tree.specs.UnitView.{items_in, external_of};
ghost use Rattle.lt_tree.specs.Nodes.{in_specifiers, in_declarator, in_items, in_external};
ghost use Rattle.lt_sites.specs.Listed.{Lists};

use super::sites::Lister;
use crate::site::NodeRef;
use lt_tree::{External, FunctionDefinition};
use std::alloc::AllocError;

impl<'u> Lister<'u> {
    /// Lists externals in a row.
    pub fn externals(&mut self, list: &'u [External]) -> Result<(), AllocError>
        ensures { Lists result self.old self.new (flat_map in_external (map external_of list.now)) }
    {
        'externals: for at in (0..list.len()).rev() {
            self.external(&list[at])?;
        }
        Ok(())
    }

    fn external(&mut self, x: &'u External) -> Result<(), AllocError>
        ensures { Lists result self.old self.new (in_external (external_of x.now)) }
    {
        let start = self.len();
        match x {
            External::Function(function) => {
                self.function(function)?;
                self.leave(NodeRef::External(x), start, 0)
            }
            External::Declaration(declaration) => {
                self.declaration(declaration)?;
                self.leave(NodeRef::External(x), start, 0)
            }
        }
    }

    // What is inside of a function's definition.
    #[tactic(auto, using(crate::proofs::Grown::both))]
    fn function(&mut self, f: &'u FunctionDefinition) -> Result<(), AllocError>
        ensures { Lists result self.old self.new (in_specifiers (specifiers_of f.now.specifiers) ++ in_declarator (declarator_of f.now.declarator) ++ in_items (items_in f.now.body.items)) }
    {
        self.items(f.body.as_slice())?;
        self.declarator(&f.declarator)?;
        self.specifiers(&f.specifiers)
    }
}
