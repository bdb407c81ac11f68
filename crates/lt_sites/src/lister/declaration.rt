ghost use Rattle.std.specs.Prelude.{map, option_map};
ghost use Rattle.std.specs.List.{flat_map};
ghost use Rattle.lt_tree.specs.UnitView.{initialiser_of, initialisers_in, init_declarator_of, declaration_of};
ghost use Rattle.lt_tree.specs.Nodes.{an_initialiser, in_initialiser, in_initialisers, in_optional_initialiser, in_init_declarator, in_declaration};
ghost use Rattle.lt_sites.specs.Listed.{Lists, inside};

use super::sites::Lister;
use crate::site::NodeRef;
use lt_tree::{Declaration, InitDeclarator, Initialiser};
use std::alloc::AllocError;

impl<'u> Lister<'u> {
    // An initialiser.
    #[cycle(initialisers)]
    fn initialiser(&mut self, initialiser: &'u Initialiser) -> Result<(), AllocError>
        ensures { Lists result self.old self.new (in_initialiser (initialiser_of initialiser.now)) }
    {
        let start = self.len();
        self.values(initialiser)?;
        self.leave(NodeRef::Initialiser(initialiser), start, 0)
    }

    // What is inside of an initialiser.
    #[cycle(initialisers)]
    fn values(&mut self, initialiser: &'u Initialiser) -> Result<(), AllocError>
        ensures { Lists result self.old self.new (inside (an_initialiser (initialiser_of initialiser.now))) }
    {
        match initialiser {
            Initialiser::Expression(value) => self.expression(value),
            Initialiser::List(list) => self.initialisers(list.as_slice()),
        }
    }

    // Initialisers in a row.
    #[cycle(initialisers)]
    fn initialisers(&mut self, list: &'u [Initialiser]) -> Result<(), AllocError>
        ensures { Lists result self.old self.new (in_initialisers (initialisers_in list.now)) }
    {
        'initialisers: for at in (0..list.len()).rev() {
            self.initialiser(&list[at])?;
        }
        Ok(())
    }

    // An initialiser that may be left out.
    #[tactic(auto, using(crate::proofs::Grown::listed_none))]
    fn optional_initialiser(&mut self, given: &'u Option<Initialiser>) -> Result<(), AllocError>
        ensures { Lists result self.old self.new (in_optional_initialiser (option_map initialiser_of given.now)) }
    {
        match given {
            None => Ok(()),
            Some(given) => self.initialiser(given),
        }
    }

    // A declarator and its initialiser.
    #[tactic(auto, using(crate::proofs::Grown::both))]
    fn init_declarator(&mut self, one: &'u InitDeclarator) -> Result<(), AllocError>
        ensures { Lists result self.old self.new (in_init_declarator (init_declarator_of one.now)) }
    {
        self.optional_initialiser(&one.initialiser)?;
        self.declarator(&one.declarator)
    }

    // Declarators in a row.
    fn init_declarators(&mut self, list: &'u [InitDeclarator]) -> Result<(), AllocError>
        ensures { Lists result self.old self.new (flat_map in_init_declarator (map init_declarator_of list.now)) }
    {
        'declarators: for at in (0..list.len()).rev() {
            self.init_declarator(&list[at])?;
        }
        Ok(())
    }

    /// Lists what is inside of a declaration.
    #[tactic(auto, using(crate::proofs::Grown::both))]
    pub fn declaration(&mut self, declaration: &'u Declaration) -> Result<(), AllocError>
        ensures { Lists result self.old self.new (in_declaration (declaration_of declaration.now)) }
    {
        self.init_declarators(declaration.declarators.as_slice())?;
        self.specifiers(&declaration.specifiers)
    }
}
