//! Parameters of functions.

ghost use Rattle.std.specs.Prelude.{◌≡◌, IfOk, map, option_map};
ghost use Rattle.std.specs.Option.{option_to_list};
ghost use Rattle.std.specs.List.{flat_map};
ghost use Rattle.lt_tree.specs.Typing.ProgramView.{program_of};
ghost use Rattle.lt_tree.specs.Typing.TypeRows.{type_in, types_of_rows};
ghost use Rattle.lt_facts.specs.Indices.{at_place};
ghost use Rattle.lt_facts.specs.Families.{type_families};
ghost use Rattle.lt_facts.specs.Facts.{parameters_of};
ghost use Rattle.lt_facts.specs.Parameters.{is_volatile, is_volatile_row, known_of, known_in, DomainsAreKnown};

use crate::types::{Family, family_at};
use lt_model::Name;
use lt_tree::typed::{Program, TypeId, TypeRow};
use std::alloc::{AllocError, Global};

/// What is known of a parameter.
#[derive(Clone, Copy)]
pub struct Parameter<'p> {
    pub name: &'p Name,
    pub family: Family,
    pub is_volatile: bool,
}

/// What is known of parameters says which predicates their domains are. The function does nothing.
pub fn domains_are_known()
    ensures { DomainsAreKnown }
{}

/// What is known of the parameters of the function with this index, with the families of the types of the program's table.
pub fn parameters<'p>(
    alloc: Global,
    function: Option<usize>,
    types: &[Family],
    program: &'p Program<'_>,
) -> Result<Vec<Parameter<'p>>, AllocError>
    requires { types.now ≡ type_families program.now }
    ensures { IfOk result (λ v. map known_in v.items ≡ flat_map (known_of (program_of program.now)) (parameters_of (at_place (program_of program.now).functions function))) }
{
    let mut parameters = Vec::new(alloc);
    for number in parameter_numbers(function, program) {
        if let Some(parameter) = known_of(*number, types, program) {
            parameters.push(parameter)?;
        }
    }
    Ok(parameters)
}

fn parameter_numbers<'p>(function: Option<usize>, program: &'p Program<'_>) -> &'p [u32]
    ensures { result.now ≡ parameters_of (at_place (program_of program.now).functions function) }
{
    let Some(index) = function else {
        return &[];
    };
    match program.functions.get(index) {
        None => &[],
        Some(function) => function.parameters.as_slice(),
    }
}

fn known_of<'p>(number: u32, types: &[Family], program: &'p Program<'_>) -> Option<Parameter<'p>>
    requires { types.now ≡ type_families program.now }
    ensures { option_to_list (option_map known_in result) ≡ known_of (program_of program.now) number }
{
    let object = program.objects.get(number as usize)?;
    Some(Parameter {
        name: &object.name,
        family: family_at(types, object.ty),
        is_volatile: is_volatile(object.ty, &program.table),
    })
}

fn is_volatile(t: TypeId, rows: &[TypeRow]) -> bool
    ensures { result ≡ is_volatile (type_in (types_of_rows rows.now) t) }
{
    match rows.get(t.place as usize) {
        None => false,
        Some(row) => is_volatile_row(row),
    }
}

fn is_volatile_row(row: &TypeRow) -> bool
    ensures { result ≡ is_volatile_row row.now }
{
    match row {
        TypeRow::Qualified(qualifiers, _) => qualifiers.volatile,
        _ => false,
    }
}
