// Declarators as they are, and their nodes passed.

ghost use Rattle.std.specs.Prelude.{◌≡◌, ◌++◌, ℕ, List, length, IfOk};
ghost use Rattle.lt_tree.specs.Tree as t;
ghost use Rattle.lt_tree.specs.View.{part_before, parameters_of};
ghost use Rattle.lt_tree.specs.Records.{specifiers_of, declarator_of, parts_in, parameter_list_in};
ghost use Rattle.lt_tree.specs.Nodes.{
  if_written,
  in_specifiers,
  in_declarator,
  in_parts,
  in_parameters,
  in_parameter_list,
};
ghost use Rattle.lt_placing.specs.Walks.{GoesOn, Copies, Passes, in_first_part};

use crate::expression::maybe;
use crate::specifier::{copy_maybe, specifiers};
use crate::walk::Walk;
use lt_tree::makes::declarator as makes;
use lt_tree::{Declarator, DeclaratorPart, Parameter, Parameters};
use std::alloc::{AllocError, Global};

/// A declarator; it is a node where it has a name or parts.
#[cycle(expressions)]
pub fn declarator(
    alloc: Global,
    walk: &mut Walk,
    declarator: &Declarator,
) -> Result<Declarator, AllocError>
    ensures { Copies walk.old walk.new result declarator_of (declarator_of declarator.now) (in_declarator (declarator_of declarator.now)) }
{
    step_if_written(walk, declarator);
    let parts = parts(alloc, walk, declarator.parts.as_slice())?;
    Ok(Declarator {
        name: copy_maybe(alloc, &declarator.name)?,
        parts,
    })
}

/// Goes on behind a declarator's own node.
fn step_if_written(walk: &mut Walk, declarator: &Declarator)
    ensures { GoesOn walk.old walk.new (length (if_written declarator.now.name (parts_in declarator.now.parts.items))) }
{
    match &declarator.name {
        Some(_) => walk.step(),
        None => step_if_any(walk, declarator.parts.as_slice()),
    }
}

/// Goes on behind the node of a declarator without a name.
fn step_if_any(walk: &mut Walk, parts: &[DeclaratorPart])
    ensures { GoesOn walk.old walk.new (length (if_written None (parts_in parts.now))) }
{
    if !parts.is_empty() {
        walk.step();
    }
}

#[cycle(expressions)]
fn parts(
    alloc: Global,
    walk: &mut Walk,
    list: &[DeclaratorPart],
) -> Result<Vec<DeclaratorPart>, AllocError>
    ensures { Copies walk.old walk.new result (λ made. parts_in made.items) (parts_in list.now) (in_parts (parts_in list.now)) }
{
    let mut all = Vec::new(alloc);
    'list: for each in list {
        all.push(part(alloc, walk, each)?)?;
    }
    Ok(all)
}

#[cycle(expressions)]
fn part(alloc: Global, walk: &mut Walk, part: &DeclaratorPart) -> Result<DeclaratorPart, AllocError>
    ensures { IfOk result (λ made. Passes walk.old walk.new (λ new k. (rest : t.Parts) → part_before made rest ≡ part_before part.now rest) (in_first_part (part_before part.now t.no_parts))) }
{
    match part {
        DeclaratorPart::Pointer(quals) => Ok(DeclaratorPart::Pointer(*quals)),
        DeclaratorPart::Array(length) => Ok(DeclaratorPart::Array(maybe(alloc, walk, length)?)),
        DeclaratorPart::Function(list) => {
            Ok(DeclaratorPart::Function(parameters(alloc, walk, list)?))
        }
    }
}

#[cycle(expressions)]
fn parameters(
    alloc: Global,
    walk: &mut Walk,
    parameters: &Parameters,
) -> Result<Parameters, AllocError>
    ensures { Copies walk.old walk.new result parameters_of (parameters_of parameters.now) (in_parameters (parameters_of parameters.now)) }
{
    match parameters {
        Parameters::Unstated => Ok(makes::unstated()),
        Parameters::Void => Ok(makes::void()),
        Parameters::Listed(list) => {
            Ok(makes::listed(parameter_list(alloc, walk, list.as_slice())?))
        }
        Parameters::Open(list) => Ok(makes::open(parameter_list(alloc, walk, list.as_slice())?)),
    }
}

#[cycle(expressions)]
fn parameter_list(
    alloc: Global,
    walk: &mut Walk,
    list: &[Parameter],
) -> Result<Vec<Parameter>, AllocError>
    ensures { Copies walk.old walk.new result (λ made. parameter_list_in made.items) (parameter_list_in list.now) (in_parameter_list (parameter_list_in list.now)) }
{
    let mut all = Vec::new(alloc);
    'list: for each in list {
        all.push(parameter(alloc, walk, each)?)?;
    }
    Ok(all)
}

#[cycle(expressions)]
fn parameter(alloc: Global, walk: &mut Walk, parameter: &Parameter) -> Result<Parameter, AllocError>
    ensures { IfOk result (λ made. Passes walk.old walk.new
        (λ new k. (specifiers_of made.specifiers ≡ specifiers_of parameter.now.specifiers) × (declarator_of made.declarator ≡ declarator_of parameter.now.declarator))
        (in_specifiers (specifiers_of parameter.now.specifiers) ++ in_declarator (declarator_of parameter.now.declarator))) }
{
    let specifiers = specifiers(alloc, walk, &parameter.specifiers)?;
    Ok(Parameter {
        specifiers,
        declarator: declarator(alloc, walk, &parameter.declarator)?,
    })
}
