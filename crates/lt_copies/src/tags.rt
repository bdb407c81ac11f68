//! The tags that declarations name.

ghost use Rattle.std.specs.Prelude.{◌≡◌, IfOk};
ghost use Rattle.lt_tree.specs.View.{type_of, parameters_of};
ghost use Rattle.lt_tree.specs.Records.{specifiers_of, declarator_of, types_in, members_in, parameter_list_in};
ghost use Rattle.lt_objectives.specs.Tags.{tags_in, tags_in_types, tags_in_type, tags_in_members, tags_in_list, tags_in_parameters, tags_of_parameters};
ghost use Rattle.lt_copies.specs.Blocks.{declares_all};
ghost use Rattle.lt_copies.specs.Judged.{tags_in_part};

use crate::blocks::Blocks;
use lt_tree::{
    Declarator, DeclaratorPart, Member, Parameter, Parameters, Specifiers, TypeSpecifier,
};
use std::alloc::AllocError;

impl Blocks {
    /// Declares the tags of structs in specifiers.
    #[cycle(tags)]
    pub fn declare_tags(&mut self, specifiers: &Specifiers) -> Result<(), AllocError>
        ensures { IfOk result (λ _. self.new ≡ declares_all (tags_in (specifiers_of specifiers.now)) self.old) }
    {
        self.declare_types(specifiers.types.as_slice())
    }

    #[cycle(tags)]
    fn declare_types(&mut self, list: &[TypeSpecifier]) -> Result<(), AllocError>
        ensures { IfOk result (λ _. self.new ≡ declares_all (tags_in_types (types_in list.now)) self.old) }
    {
        'types: for at in (0..list.len()).rev() {
            self.declare_type(&list[at])?;
        }
        Ok(())
    }

    #[cycle(tags)]
    fn declare_type(&mut self, kind: &TypeSpecifier) -> Result<(), AllocError>
        ensures { IfOk result (λ _. self.new ≡ declares_all (tags_in_type (type_of kind.now)) self.old) }
    {
        match kind {
            TypeSpecifier::StructTag(tag) => self.declare(tag.as_slice()),
            TypeSpecifier::Struct(tag, members) => {
                self.declare_members(members.as_slice())?;
                match tag {
                    None => Ok(()),
                    Some(tag) => self.declare(tag.as_slice()),
                }
            }
            _ => Ok(()),
        }
    }

    #[cycle(tags)]
    fn declare_members(&mut self, list: &[Member]) -> Result<(), AllocError>
        ensures { IfOk result (λ _. self.new ≡ declares_all (tags_in_members (members_in list.now)) self.old) }
    {
        'members: for at in (0..list.len()).rev() {
            self.declare_tags(&list[at].specifiers)?;
        }
        Ok(())
    }

    /// Declares the tags in the parameters of a function that is defined.
    pub fn declare_parameters(&mut self, declarator: &Declarator) -> Result<(), AllocError>
        ensures { IfOk result (λ _. self.new ≡ declares_all (tags_of_parameters (declarator_of declarator.now)) self.old) }
    {
        match declarator.parts.first() {
            None => Ok(()),
            Some(part) => self.declare_part(part),
        }
    }

    // Those of parameters in a part of a declarator.
    fn declare_part(&mut self, part: &DeclaratorPart) -> Result<(), AllocError>
        ensures { IfOk result (λ _. self.new ≡ declares_all (tags_in_part part.now) self.old) }
    {
        match part {
            DeclaratorPart::Function(parameters) => self.declare_listed(parameters),
            _ => Ok(()),
        }
    }

    fn declare_listed(&mut self, parameters: &Parameters) -> Result<(), AllocError>
        ensures { IfOk result (λ _. self.new ≡ declares_all (tags_in_parameters (parameters_of parameters.now)) self.old) }
    {
        match parameters {
            Parameters::Unstated | Parameters::Void => Ok(()),
            Parameters::Listed(list) | Parameters::Open(list) => self.declare_list(list.as_slice()),
        }
    }

    fn declare_list(&mut self, list: &[Parameter]) -> Result<(), AllocError>
        ensures { IfOk result (λ _. self.new ≡ declares_all (tags_in_list (parameter_list_in list.now)) self.old) }
    {
        'parameters: for at in (0..list.len()).rev() {
            self.declare_tags(&list[at].specifiers)?;
        }
        Ok(())
    }
}
