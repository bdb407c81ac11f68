ghost use Rattle.std.specs.Prelude.{◌++◌};
ghost use Rattle.lt_tree.specs.View.{parameters_of};
ghost use Rattle.lt_tree.specs.Records.{specifiers_of, declarator_of, parts_in, parameter_list_in};
ghost use Rattle.lt_tree.specs.Nodes.{in_specifiers, in_declarator, in_parts, in_parameters, in_parameter_list};
ghost use Rattle.lt_sites.specs.Listed.{Lists, in_part};

use super::sites::Lister;
use crate::site::NodeRef;
use lt_tree::{Declarator, DeclaratorPart, Parameter, Parameters};
use std::alloc::AllocError;

impl<'u> Lister<'u> {
    /// Lists a declarator, which is a node where it has a name or parts.
    #[cycle(listing)]
    pub fn declarator(&mut self, declarator: &'u Declarator) -> Result<(), AllocError>
        ensures { Lists result self.old self.new (in_declarator (declarator_of declarator.now)) }
    {
        let start = self.len();
        self.parts(declarator.parts.as_slice())?;
        if declarator.name.is_none() && declarator.parts.is_empty() {
            return Ok(());
        }
        self.leave(NodeRef::Declarator(declarator), start, 0)
    }

    #[cycle(listing)]
    fn parts(&mut self, list: &'u [DeclaratorPart]) -> Result<(), AllocError>
        ensures { Lists result self.old self.new (in_parts (parts_in list.now)) }
    {
        'parts: for at in (0..list.len()).rev() {
            self.part(&list[at])?;
        }
        Ok(())
    }

    #[cycle(listing)]
    #[tactic(auto, using(crate::proofs::Grown::listed_none))]
    fn part(&mut self, part: &'u DeclaratorPart) -> Result<(), AllocError>
        ensures { Lists result self.old self.new (in_part part.now) }
    {
        match part {
            DeclaratorPart::Pointer(_) => Ok(()),
            DeclaratorPart::Array(size) => self.maybe(size),
            DeclaratorPart::Function(parameters) => self.parameters(parameters),
        }
    }

    #[cycle(listing)]
    #[tactic(auto, using(crate::proofs::Grown::listed_none))]
    fn parameters(&mut self, parameters: &'u Parameters) -> Result<(), AllocError>
        ensures { Lists result self.old self.new (in_parameters (parameters_of parameters.now)) }
    {
        match parameters {
            Parameters::Unstated | Parameters::Void => Ok(()),
            Parameters::Listed(list) | Parameters::Open(list) => self.parameter_list(
                list.as_slice(),
            ),
        }
    }

    #[cycle(listing)]
    fn parameter_list(&mut self, list: &'u [Parameter]) -> Result<(), AllocError>
        ensures { Lists result self.old self.new (in_parameter_list (parameter_list_in list.now)) }
    {
        'parameters: for at in (0..list.len()).rev() {
            self.parameter(&list[at])?;
        }
        Ok(())
    }

    #[cycle(listing)]
    #[tactic(auto, using(crate::proofs::Grown::both))]
    fn parameter(&mut self, parameter: &'u Parameter) -> Result<(), AllocError>
        ensures { Lists result self.old self.new (in_specifiers (specifiers_of parameter.now.specifiers) ++ in_declarator (declarator_of parameter.now.declarator)) }
    {
        self.declarator(&parameter.declarator)?;
        self.specifiers(&parameter.specifiers)
    }
}
