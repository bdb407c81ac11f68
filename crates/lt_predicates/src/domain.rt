// The parts of what a variable's type can hold.

ghost use Rattle.std.specs.Prelude.{◌≡◌};
ghost use Rattle.lt_tree.specs.Tree as t;
ghost use Rattle.lt_predicates.specs.Expressions.{Makes};
ghost use Rattle.lt_predicates.specs.Domains.{domain_predicates, relations_to_zero};

use crate::copies::zero;
use lt_model::{Name, Op};
use lt_tree::Expr;
use lt_tree::makes::expression::{binary, name};
use std::alloc::{AllocError, Global};

/// How a type is divided.
#[derive(Clone, Copy, PartialEq, Eq, Debug)]
pub enum Domain {
    /// Not at all.
    Unconstrained,
    /// Into null and what isn't null.
    Pointer,
    /// Into what is less than 0, 0, and what is more.
    Signed,
    /// Into 0 and what is more.
    Unsigned,
}

/// That a variable of this domain lies in each part of it.
pub fn domains(alloc: Global, domain: Domain, variable: &Name) -> Result<Vec<Expr>, AllocError>
    ensures { Makes result (domain_predicates domain (t.Name variable.now)) }
{
    match domain {
        Domain::Unconstrained => compared_to_zero(alloc, variable, &[]),
        Domain::Pointer => compared_to_zero(alloc, variable, &[Op::Eq, Op::Ne]),
        Domain::Signed => compared_to_zero(alloc, variable, &[Op::Lt, Op::Eq, Op::Gt]),
        Domain::Unsigned => compared_to_zero(alloc, variable, &[Op::Eq, Op::Gt]),
    }
}

// The variable compared to 0 in each of these ways.
fn compared_to_zero(
    alloc: Global,
    variable: &Name,
    relations: &[Op],
) -> Result<Vec<Expr>, AllocError>
    ensures { Makes result (relations_to_zero relations.now (t.Name variable.now)) }
{
    let mut list = Vec::new(alloc);
    for relation in relations {
        let copy = name(Name::new(alloc, variable.as_slice())?);
        list.push(binary(alloc, *relation, copy, zero(alloc)?)?)?;
    }
    Ok(list)
}
