ghost use Rattle.std.specs.Prelude.{◌≡◌, IfOk};
ghost use Rattle.lt_tree.specs.View.{part_before};
ghost use Rattle.lt_tree.specs.Records.{parts_in, declarator_of};
ghost use Rattle.lt_tree.specs.Tree as t;
ghost use Rattle.lt_tree.specs.Scope.{hiding, enumerators_in_parts, after_name, after_declarator};

use crate::typedefs::Typedefs;
use lt_tree::{Declarator, DeclaratorPart};
use std::alloc::AllocError;

impl Typedefs {
    /// Declares the enumerators of a declarator, and then its name, which is a typedef name or isn't.
    pub fn declare_declarator(
        &mut self,
        declarator: &Declarator,
        is_type: bool,
    ) -> Result<(), AllocError>
        ensures { IfOk result (λ _. self.new ≡ after_declarator is_type (declarator_of declarator.now) self.old) }
    {
        self.hide_parts(declarator.parts.as_slice())?;
        self.declare_name(declarator, is_type)
    }

    /// Declares the name of a declarator, if it has one.
    pub(crate) fn declare_name(
        &mut self,
        declarator: &Declarator,
        is_type: bool,
    ) -> Result<(), AllocError>
        ensures { IfOk result (λ _. self.new ≡ after_name is_type (declarator_of declarator.now) self.old) }
    {
        match &declarator.name {
            None => Ok(()),
            Some(name) => self.declare(name, is_type),
        }
    }

    // Declares the enumerators of a declarator's parts. Those of parameters end with their list.
    #[cycle(hide)]
    pub(super) fn hide_parts(&mut self, list: &[DeclaratorPart]) -> Result<(), AllocError>
        ensures { IfOk result (λ _. self.new ≡ hiding (enumerators_in_parts (parts_in list.now)) self.old) }
    {
        'parts: for part in list {
            self.hide_part(part)?;
        }
        Ok(())
    }

    #[cycle(hide)]
    fn hide_part(&mut self, part: &DeclaratorPart) -> Result<(), AllocError>
        ensures { IfOk result (λ _. self.new ≡ hiding (enumerators_in_parts (part_before part.now t.no_parts)) self.old) }
    {
        match part {
            DeclaratorPart::Array(length) => self.hide_maybe(length),
            DeclaratorPart::Pointer(_) | DeclaratorPart::Function(_) => Ok(()),
        }
    }
}
