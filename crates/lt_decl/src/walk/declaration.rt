ghost use Rattle.std.specs.Prelude.{◌≡◌, [], ◌∷◌, IfOk, map, option_map};
ghost use Rattle.lt_tree.specs.UnitView.{initialiser_of, initialisers_in, init_declarator_of, declaration_of};
ghost use Rattle.lt_expr.specs.Inside.{inside};
ghost use Rattle.lt_decl.specs.Walk as walk;

use lt_expr::Walker;
use lt_tree::{Declaration, InitDeclarator, Initialiser};
use std::alloc::AllocError;

// An initialiser.
#[cycle(initialisers)]
fn initialiser(walker: &mut Walker, initialiser: &Initialiser) -> Result<(), AllocError>
    ensures { IfOk result (λ _. walker.new ≡ walk.walk_initialiser (initialiser_of initialiser.now) walker.old) }
{
    let begin = walker.enter();
    parts(walker, initialiser)?;
    walker.leave(begin)
}

// What is inside of an initialiser.
#[cycle(initialisers)]
fn parts(walker: &mut Walker, initialiser: &Initialiser) -> Result<(), AllocError>
    ensures { IfOk result (λ _. walker.new ≡ inside (walk.walk_initialiser (initialiser_of initialiser.now)) walker.old) }
{
    match initialiser {
        Initialiser::Expression(value) => walker.expression(value),
        Initialiser::List(parts) => initialisers(walker, parts.as_slice()),
    }
}

// Initialisers in a row.
#[cycle(initialisers)]
fn initialisers(walker: &mut Walker, list: &[Initialiser]) -> Result<(), AllocError>
    ensures { IfOk result (λ _. walker.new ≡ walk.walk_initialisers (initialisers_in list.now) walker.old) }
{
    'parts: for at in (0..list.len()).rev() {
        initialiser(walker, &list[at])?;
    }
    Ok(())
}

// An initialiser that may be left out.
fn optional_initialiser(walker: &mut Walker, given: &Option<Initialiser>) -> Result<(), AllocError>
    ensures { IfOk result (λ _. walker.new ≡ walk.walk_optional_initialiser (option_map initialiser_of given.now) walker.old) }
{
    match given {
        None => Ok(()),
        Some(given) => initialiser(walker, given),
    }
}

// A declarator and its initialiser.
fn init_declarator(walker: &mut Walker, one: &InitDeclarator) -> Result<(), AllocError>
    ensures { IfOk result (λ _. walker.new ≡ walk.walk_declarators (init_declarator_of one.now ∷ []) walker.old) }
{
    optional_initialiser(walker, &one.initialiser)?;
    walker.declarator(&one.declarator)
}

// Declarators in a row.
fn declarators(walker: &mut Walker, list: &[InitDeclarator]) -> Result<(), AllocError>
    ensures { IfOk result (λ _. walker.new ≡ walk.walk_declarators (map init_declarator_of list.now) walker.old) }
{
    'declarators: for at in (0..list.len()).rev() {
        init_declarator(walker, &list[at])?;
    }
    Ok(())
}

/// Walks a declaration.
pub(crate) fn declaration(walker: &mut Walker, declaration: &Declaration) -> Result<(), AllocError>
    ensures { IfOk result (λ _. walker.new ≡ walk.walk_declaration (declaration_of declaration.now) walker.old) }
{
    declarators(walker, declaration.declarators.as_slice())?;
    walker.specifiers(&declaration.specifiers)
}
