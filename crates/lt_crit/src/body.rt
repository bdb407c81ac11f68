// What has to be true at the start of a function.

ghost use Rattle.std.specs.Prelude.{◌≡◌, ◌++◌, IfOk, OnOk, map};
ghost use Rattle.std.specs.List.{flat_map};
ghost use Rattle.lt_tree.specs.Tree as t;
ghost use Rattle.lt_tree.specs.View.{expression_of};
ghost use Rattle.lt_tree.specs.Typing.ProgramView.{program_of};
ghost use Rattle.lt_objectives.specs.Decisions as decision;
ghost use Rattle.lt_objectives.specs.Objectives.{domains_of_object};
ghost use Rattle.lt_facts.specs.Indices.{at_place};
ghost use Rattle.lt_facts.specs.Families.{type_families};
ghost use Rattle.lt_facts.specs.Facts.{parameters_of};
ghost use Rattle.lt_facts.specs.Parameters.{known_in, known_domains};
ghost use Rattle.lt_predicates.specs.Domains.{domain_predicates};
ghost use Rattle.lt_crit.specs.Known.{body_predicates};

use lt_facts::{Family, Parameter, domains_are_known, parameters};
use lt_model::Name;
use lt_objectives::Criterion;
use lt_predicates::{Domain, domains};
use lt_tree::Expr;
use lt_tree::makes::expression::constant;
use lt_tree::typed::Program;
use std::alloc::{AllocError, Global};

/// The predicates of a criterion at the start of the body of the function with this index, with the families of the types of the program's table.
pub fn body_predicates(
    alloc: Global,
    criterion: Criterion,
    function: Option<usize>,
    types: &[Family],
    program: &Program<'_>,
) -> Result<Vec<Expr>, AllocError>
    requires { types.now ≡ type_families program.now }
    ensures { IfOk result (λ list. map expression_of list.items ≡ body_predicates (program_of program.now) criterion function) }
{
    match criterion {
        Criterion::Function => Ok(vec![in alloc; one(alloc)?]?),
        Criterion::InputDomain => input_domains(alloc, function, types, program),
        _ => Ok(Vec::new(alloc)),
    }
}

/// `1`.
fn one(alloc: Global) -> Result<Expr, AllocError>
    ensures { IfOk result (λ it. expression_of it ≡ decision.one) }
{
    Ok(constant(Name::new(alloc, b"1")?))
}

fn input_domains(
    alloc: Global,
    function: Option<usize>,
    types: &[Family],
    program: &Program<'_>,
) -> Result<Vec<Expr>, AllocError>
    requires { types.now ≡ type_families program.now }
    ensures { IfOk result (λ list. map expression_of list.items ≡ flat_map (domains_of_object (program_of program.now)) (parameters_of (at_place (program_of program.now).functions function))) }
{
    let parameters = parameters(alloc, function, types, program)?;
    domains_are_known();
    let mut list = Vec::new(alloc);
    'parameters: for parameter in &parameters {
        add_domains(alloc, parameter, &mut list)?;
    }
    Ok(list)
}

fn add_domains(
    alloc: Global,
    parameter: &Parameter<'_>,
    list: &mut Vec<Expr>,
) -> Result<(), AllocError>
    ensures { OnOk result (map expression_of list.new.items ≡ map expression_of list.old.items ++ known_domains (known_in parameter.now)) }
{
    let mut more = domains(alloc, domain_of(parameter), parameter.name)?;
    list.append(&mut more)
}

fn domain_of(parameter: &Parameter<'_>) -> Domain
    ensures { domain_predicates result (t.Name parameter.now.name.now) ≡ known_domains (known_in parameter.now) }
{
    if parameter.is_volatile {
        return Domain::Unconstrained;
    }
    match parameter.family {
        Family::Pointer => Domain::Pointer,
        Family::Signed => Domain::Signed,
        Family::Unsigned => Domain::Unsigned,
        Family::Other => Domain::Unconstrained,
    }
}
