ghost use Rattle.std.specs.Prelude.{◌≡◌, IfOk};
ghost use Rattle.lt_tree.specs.View.{part_before, parameters_of};
ghost use Rattle.lt_tree.specs.Records.{specifiers_of, declarator_of, parts_in, parameter_list_in};
ghost use Rattle.lt_tree.specs.Tree as t;
ghost use Rattle.lt_expr.specs.Walk as walk;

use super::walker::Walker;
use crate::naming::is_missing;
use lt_tree::{Declarator, DeclaratorPart, Parameter, Parameters};
use std::alloc::AllocError;

impl Walker {
    /// Walks a declarator.
    #[cycle(walk)]
    pub fn declarator(&mut self, declarator: &Declarator) -> Result<(), AllocError>
        ensures { IfOk result (λ _. self.new ≡ walk.walk_declarator (declarator_of declarator.now) self.old) }
    {
        if is_missing(declarator) {
            return Ok(());
        }
        let start = self.enter();
        self.parts(declarator.parts.as_slice())?;
        self.leave(start)
    }

    #[cycle(walk)]
    #[tactic(auto, using(crate::proofs::WalkRows::part_first))]
    fn parts(&mut self, list: &[DeclaratorPart]) -> Result<(), AllocError>
        ensures { IfOk result (λ _. self.new ≡ walk.walk_parts (parts_in list.now) self.old) }
    {
        'parts: for at in (0..list.len()).rev() {
            self.part(&list[at])?;
        }
        Ok(())
    }

    #[cycle(walk)]
    fn part(&mut self, part: &DeclaratorPart) -> Result<(), AllocError>
        ensures { IfOk result (λ _. self.new ≡ walk.walk_parts (part_before part.now t.no_parts) self.old) }
    {
        match part {
            DeclaratorPart::Pointer(_) => Ok(()),
            DeclaratorPart::Array(length) => self.maybe(length),
            DeclaratorPart::Function(parameters) => self.parameters(parameters),
        }
    }

    #[cycle(walk)]
    fn parameters(&mut self, parameters: &Parameters) -> Result<(), AllocError>
        ensures { IfOk result (λ _. self.new ≡ walk.walk_parameters (parameters_of parameters.now) self.old) }
    {
        match parameters {
            Parameters::Unstated | Parameters::Void => Ok(()),
            Parameters::Listed(list) | Parameters::Open(list) => self.parameter_list(
                list.as_slice(),
            ),
        }
    }

    #[cycle(walk)]
    fn parameter_list(&mut self, list: &[Parameter]) -> Result<(), AllocError>
        ensures { IfOk result (λ _. self.new ≡ walk.walk_parameter_list (parameter_list_in list.now) self.old) }
    {
        'parameters: for at in (0..list.len()).rev() {
            self.parameter(&list[at])?;
        }
        Ok(())
    }

    #[cycle(walk)]
    fn parameter(&mut self, parameter: &Parameter) -> Result<(), AllocError>
        ensures { IfOk result (λ _. self.new ≡ walk.walk_specifiers (specifiers_of parameter.now.specifiers) (walk.walk_declarator (declarator_of parameter.now.declarator) self.old)) }
    {
        self.declarator(&parameter.declarator)?;
        self.specifiers(&parameter.specifiers)
    }
}
