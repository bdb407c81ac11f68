// Declarations with the marks of their initialisers.

ghost use Rattle.std.specs.Prelude.{◌≡◌, ℕ, map, option_map};
ghost use Rattle.std.specs.List.{flat_map};
ghost use Rattle.lt_tree.specs.UnitView.{
  initialiser_of,
  initialisers_in,
  init_declarator_of,
  declaration_of,
};
ghost use Rattle.lt_tree.specs.Nodes.{
  in_initialiser,
  in_initialisers,
  in_optional_initialiser,
  in_init_declarator,
  in_declaration,
};
ghost use Rattle.lt_objectives.specs.Marked.{
  initialiser_with_marks,
  initialisers_with_marks,
  start_with_marks,
  declarators_with_marks,
  declaration_with_marks,
};
ghost use Rattle.lt_placing.specs.Walks.{Gives};
ghost use Rattle.lt_placing.specs.Parts.{GivesInitDeclarator};

use crate::declarator::declarator;
use crate::expression::expression;
use crate::specifier::specifiers;
use crate::walk::Walk;
use lt_tree::makes::statement as makes;
use lt_tree::{Declaration, InitDeclarator, Initialiser};
use std::alloc::{AllocError, Global};

#[cycle(initialisers)]
fn initialiser(
    alloc: Global,
    walk: &mut Walk,
    initialiser: &Initialiser,
) -> Result<Initialiser, AllocError>
    ensures { Gives walk.old walk.new result initialiser_of (λ new k. initialiser_with_marks new k (initialiser_of initialiser.now)) (in_initialiser (initialiser_of initialiser.now)) }
{
    walk.step();
    match initialiser {
        Initialiser::Expression(e) => Ok(makes::value(expression(alloc, walk, e)?)),
        Initialiser::List(parts) => {
            let parts = initialisers(alloc, walk, parts.as_slice())?;
            Ok(makes::braces(parts))
        }
    }
}

#[cycle(initialisers)]
fn initialisers(
    alloc: Global,
    walk: &mut Walk,
    list: &[Initialiser],
) -> Result<Vec<Initialiser>, AllocError>
    ensures { Gives walk.old walk.new result (λ made. initialisers_in made.items) (λ new k. initialisers_with_marks new k (initialisers_in list.now)) (in_initialisers (initialisers_in list.now)) }
{
    let mut all = Vec::new(alloc);
    'list: for each in list {
        all.push(initialiser(alloc, walk, each)?)?;
    }
    Ok(all)
}

fn given_initialiser(
    alloc: Global,
    walk: &mut Walk,
    given: &Option<Initialiser>,
) -> Result<Option<Initialiser>, AllocError>
    ensures { Gives walk.old walk.new result (option_map initialiser_of) (λ new k. start_with_marks new k (option_map initialiser_of given.now)) (in_optional_initialiser (option_map initialiser_of given.now)) }
{
    match given {
        None => Ok(None),
        Some(given) => Ok(Some(initialiser(alloc, walk, given)?)),
    }
}

fn init_declarator(
    alloc: Global,
    walk: &mut Walk,
    d: &InitDeclarator,
) -> Result<InitDeclarator, AllocError>
    ensures { GivesInitDeclarator walk.old walk.new result (init_declarator_of d.now) }
{
    let declarator = declarator(alloc, walk, &d.declarator)?;
    let initialiser = given_initialiser(alloc, walk, &d.initialiser)?;
    Ok(InitDeclarator {
        declarator,
        initialiser,
    })
}

fn init_declarators(
    alloc: Global,
    walk: &mut Walk,
    list: &[InitDeclarator],
) -> Result<Vec<InitDeclarator>, AllocError>
    ensures { Gives walk.old walk.new result (λ made. map init_declarator_of made.items) (λ new k. declarators_with_marks new k (map init_declarator_of list.now)) (flat_map in_init_declarator (map init_declarator_of list.now)) }
{
    let mut all = Vec::new(alloc);
    'list: for each in list {
        all.push(init_declarator(alloc, walk, each)?)?;
    }
    Ok(all)
}

/// A declaration with its marks.
pub fn declaration(
    alloc: Global,
    walk: &mut Walk,
    d: &Declaration,
) -> Result<Declaration, AllocError>
    ensures { Gives walk.old walk.new result declaration_of (λ new k. declaration_with_marks new k (declaration_of d.now)) (in_declaration (declaration_of d.now)) }
{
    let specifiers = specifiers(alloc, walk, &d.specifiers)?;
    let declarators = init_declarators(alloc, walk, d.declarators.as_slice())?;
    Ok(Declaration {
        specifiers,
        declarators,
    })
}
