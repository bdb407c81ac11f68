// Declarators without their marks.

ghost use Rattle.std.specs.Prelude.{◌≡◌, IfOk};
ghost use Rattle.lt_tree.specs.Tree as t;
ghost use Rattle.lt_tree.specs.View.{part_before, parameters_of};
ghost use Rattle.lt_tree.specs.Records.{specifiers_of, declarator_of, parts_in, parameter_list_in};
ghost use Rattle.lt_tree.specs.Erasure.{
  erased_specifiers,
  erased_declarator,
  erased_parts,
  erased_parameters,
  erased_parameter_list,
};

use crate::erasure::expression::maybe;
use crate::erasure::specifier::{copy_maybe, specifiers};
use lt_tree::makes::declarator as makes;
use lt_tree::{Declarator, DeclaratorPart, Parameter, Parameters};
use std::alloc::{AllocError, Global};

/// A declarator without marks.
#[cycle(erasure)]
pub fn declarator(alloc: Global, declarator: &Declarator) -> Result<Declarator, AllocError>
    ensures { IfOk result (λ all. declarator_of all ≡ erased_declarator (declarator_of declarator.now)) }
{
    let parts = parts(alloc, declarator.parts.as_slice())?;
    Ok(Declarator {
        name: copy_maybe(alloc, &declarator.name)?,
        parts,
    })
}

#[cycle(erasure)]
fn parts(alloc: Global, list: &[DeclaratorPart]) -> Result<Vec<DeclaratorPart>, AllocError>
    ensures { IfOk result (λ all. parts_in all.items ≡ erased_parts (parts_in list.now)) }
{
    let mut all = Vec::new(alloc);
    'list: for each in list {
        all.push(part(alloc, each)?)?;
    }
    Ok(all)
}

#[cycle(erasure)]
fn part(alloc: Global, part: &DeclaratorPart) -> Result<DeclaratorPart, AllocError>
    ensures { IfOk result (λ all. (rest : t.Parts) → part_before all (erased_parts rest) ≡ erased_parts (part_before part.now rest)) }
{
    match part {
        DeclaratorPart::Pointer(quals) => Ok(DeclaratorPart::Pointer(*quals)),
        DeclaratorPart::Array(length) => Ok(DeclaratorPart::Array(maybe(alloc, length)?)),
        DeclaratorPart::Function(list) => Ok(DeclaratorPart::Function(parameters(alloc, list)?)),
    }
}

#[cycle(erasure)]
fn parameters(alloc: Global, parameters: &Parameters) -> Result<Parameters, AllocError>
    ensures { IfOk result (λ all. parameters_of all ≡ erased_parameters (parameters_of parameters.now)) }
{
    match parameters {
        Parameters::Unstated => Ok(makes::unstated()),
        Parameters::Void => Ok(makes::void()),
        Parameters::Listed(list) => Ok(makes::listed(parameter_list(alloc, list.as_slice())?)),
        Parameters::Open(list) => Ok(makes::open(parameter_list(alloc, list.as_slice())?)),
    }
}

#[cycle(erasure)]
fn parameter_list(alloc: Global, list: &[Parameter]) -> Result<Vec<Parameter>, AllocError>
    ensures { IfOk result (λ all. parameter_list_in all.items ≡ erased_parameter_list (parameter_list_in list.now)) }
{
    let mut all = Vec::new(alloc);
    'list: for each in list {
        all.push(parameter(alloc, each)?)?;
    }
    Ok(all)
}

#[cycle(erasure)]
fn parameter(alloc: Global, parameter: &Parameter) -> Result<Parameter, AllocError>
    ensures specifiers { IfOk result (λ all. specifiers_of all.specifiers ≡ erased_specifiers (specifiers_of parameter.now.specifiers)) }
    ensures declarator { IfOk result (λ all. declarator_of all.declarator ≡ erased_declarator (declarator_of parameter.now.declarator)) }
{
    let specifiers = specifiers(alloc, &parameter.specifiers)?;
    Ok(Parameter {
        specifiers,
        declarator: declarator(alloc, &parameter.declarator)?,
    })
}
