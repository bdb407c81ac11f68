// Declarations without their marks.

ghost use Rattle.std.specs.Prelude.{◌≡◌, IfOk, map, option_map};
ghost use Rattle.lt_tree.specs.UnitView.{
  initialiser_of,
  initialisers_in,
  init_declarator_of,
  declaration_of,
};
ghost use Rattle.lt_tree.specs.Erasure.{
  erased_initialiser,
  erased_initialisers,
  erased_init_declarator,
  erased_declaration,
};

use crate::erasure::declarator::declarator;
use crate::erasure::expression::expression;
use crate::erasure::specifier::specifiers;
use lt_tree::makes::statement as makes;
use lt_tree::{Declaration, InitDeclarator, Initialiser};
use std::alloc::{AllocError, Global};

#[cycle(initialiser_erasure)]
fn plain_initialiser(alloc: Global, initialiser: &Initialiser) -> Result<Initialiser, AllocError>
    ensures { IfOk result (λ all. initialiser_of all ≡ erased_initialiser (initialiser_of initialiser.now)) }
{
    match initialiser {
        Initialiser::Expression(e) => Ok(makes::value(expression(alloc, e)?)),
        Initialiser::List(parts) => Ok(makes::braces(plain_initialisers(alloc, parts.as_slice())?)),
    }
}

#[cycle(initialiser_erasure)]
fn plain_initialisers(alloc: Global, list: &[Initialiser]) -> Result<Vec<Initialiser>, AllocError>
    ensures { IfOk result (λ all. initialisers_in all.items ≡ erased_initialisers (initialisers_in list.now)) }
{
    let mut all = Vec::new(alloc);
    'list: for part in list {
        all.push(plain_initialiser(alloc, part)?)?;
    }
    Ok(all)
}

fn given_initialiser(
    alloc: Global,
    initialiser: &Option<Initialiser>,
) -> Result<Option<Initialiser>, AllocError>
    ensures { IfOk result (λ all. option_map initialiser_of all ≡ option_map erased_initialiser (option_map initialiser_of initialiser.now)) }
{
    match initialiser {
        None => Ok(None),
        Some(initialiser) => Ok(Some(plain_initialiser(alloc, initialiser)?)),
    }
}

fn plain_init_declarator(alloc: Global, d: &InitDeclarator) -> Result<InitDeclarator, AllocError>
    ensures { IfOk result (λ all. init_declarator_of all ≡ erased_init_declarator (init_declarator_of d.now)) }
{
    let declarator = declarator(alloc, &d.declarator)?;
    let initialiser = given_initialiser(alloc, &d.initialiser)?;
    Ok(InitDeclarator {
        declarator,
        initialiser,
    })
}

fn plain_init_declarators(
    alloc: Global,
    list: &[InitDeclarator],
) -> Result<Vec<InitDeclarator>, AllocError>
    ensures { IfOk result (λ all. map init_declarator_of all.items ≡ map erased_init_declarator (map init_declarator_of list.now)) }
{
    let mut all = Vec::new(alloc);
    'list: for d in list {
        all.push(plain_init_declarator(alloc, d)?)?;
    }
    Ok(all)
}

/// A declaration without its marks.
pub fn plain_declaration(alloc: Global, d: &Declaration) -> Result<Declaration, AllocError>
    ensures { IfOk result (λ all. declaration_of all ≡ erased_declaration (declaration_of d.now)) }
{
    let specifiers = specifiers(alloc, &d.specifiers)?;
    let declarators = plain_init_declarators(alloc, d.declarators.as_slice())?;
    Ok(Declaration {
        specifiers,
        declarators,
    })
}
