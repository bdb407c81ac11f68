//! What a program knows of the nodes of a unit.

ghost use Rattle.std.specs.Prelude.{◌≡◌, map, length, IfOk};
ghost use Rattle.lt_tree.specs.Tree as c;
ghost use Rattle.lt_tree.specs.Typing.ProgramView.{program_of};
ghost use Rattle.lt_facts.specs.Numbers.{own_numbers};
ghost use Rattle.lt_facts.specs.Indices.{at_place, AreIndicesBelow};
ghost use Rattle.lt_facts.specs.Families.{family, type_families};
ghost use Rattle.lt_facts.specs.Facts.{AreFactIndices, AreFunctionIndices, constants, families, is_constant_fact, type_of_fact};

use crate::indices::places_among;
use crate::types::{Family, family_at, type_families};
use lt_tree::typed::{Constancy, Fact, Function, Program};
use std::alloc::{AllocError, Global};

/// By number: the index of what is known of the node among the program's facts. The numbers are those in the program's own unit.
pub fn fact_indices(
    alloc: Global,
    numbers: &[Option<usize>],
    program: &Program<'_>,
) -> Result<Vec<Option<usize>>, AllocError>
    ensures facts { (unit : c.Unit) → numbers.now ≡ own_numbers unit (program_of program.now) → IfOk result (λ v. AreFactIndices unit (program_of program.now) v.items) }
    ensures within { IfOk result (λ v. AreIndicesBelow (length program.now.facts.items) v.items) }
{
    let nodes = fact_nodes(alloc, &program.facts)?;
    places_among(alloc, numbers, &nodes)
}

/// By number: the index of the function that is defined there among the program's functions. The numbers are those in the program's own unit.
pub fn function_indices(
    alloc: Global,
    numbers: &[Option<usize>],
    program: &Program<'_>,
) -> Result<Vec<Option<usize>>, AllocError>
    ensures functions { (unit : c.Unit) → numbers.now ≡ own_numbers unit (program_of program.now) → IfOk result (λ v. AreFunctionIndices unit (program_of program.now) v.items) }
    ensures within { IfOk result (λ v. AreIndicesBelow (length program.now.functions.items) v.items) }
{
    let nodes = function_nodes(alloc, &program.functions)?;
    places_among(alloc, numbers, &nodes)
}

/// By number: whether it is an integer constant expression.
pub fn constants(
    alloc: Global,
    fact_indices: &[Option<usize>],
    program: &Program<'_>,
) -> Result<Vec<bool>, AllocError>
    ensures { (unit : c.Unit) → AreFactIndices unit (program_of program.now) fact_indices.now → IfOk result (λ v. v.items ≡ constants unit (program_of program.now)) }
{
    let mut constants = Vec::new(alloc);
    for index in fact_indices {
        constants.push(is_constant(program, *index))?;
    }
    Ok(constants)
}

/// By number: the family of its type.
pub fn families(
    alloc: Global,
    fact_indices: &[Option<usize>],
    program: &Program<'_>,
) -> Result<Vec<Family>, AllocError>
    ensures { (unit : c.Unit) → AreFactIndices unit (program_of program.now) fact_indices.now → IfOk result (λ v. v.items ≡ families unit (program_of program.now)) }
{
    let types = type_families(alloc, program)?;
    let mut families = Vec::new(alloc);
    for index in fact_indices {
        let family = family_of_fact(program, &types, *index);
        families.push(family)?;
    }
    Ok(families)
}

fn fact_nodes(alloc: Global, facts: &[Fact]) -> Result<Vec<usize>, AllocError>
    ensures { IfOk result (λ v. v.items ≡ map (λ fact. fact.node) facts.now) }
{
    facts.iter().map(|fact| fact.node as usize).collect(alloc)
}

fn function_nodes(alloc: Global, functions: &[Function]) -> Result<Vec<usize>, AllocError>
    ensures { IfOk result (λ v. v.items ≡ map (λ function. function.node) functions.now) }
{
    let mut nodes = Vec::new(alloc);
    for function in functions {
        nodes.push(function.node as usize)?;
    }
    Ok(nodes)
}

fn fact_at(program: &Program<'_>, index: Option<usize>) -> Option<Fact>
    ensures { result ≡ at_place program.now.facts.items index }
{
    program.facts.get(index?).copied()
}

fn is_constant(program: &Program<'_>, index: Option<usize>) -> bool
    ensures { result ≡ is_constant_fact (at_place (program_of program.now).facts index) }
{
    match fact_at(program, index) {
        None => false,
        Some(fact) => matches!(fact.constancy, Constancy::Number(_)),
    }
}

// With the families of the types of its table.
fn family_of_fact(program: &Program<'_>, types: &[Family], index: Option<usize>) -> Family
    requires { types.now ≡ type_families program.now }
    ensures { result ≡ family program.now.model (type_of_fact (at_place (program_of program.now).facts index)) }
{
    match fact_at(program, index) {
        None => Family::Other,
        Some(fact) => family_at(types, fact.ty),
    }
}
