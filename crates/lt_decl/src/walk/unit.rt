ghost use Rattle.std.specs.Prelude.{◌≡◌, [], ◌∷◌, IfOk, map};
ghost use Rattle.lt_tree.specs.Records.{specifiers_of, declarator_of};
ghost use Rattle.lt_tree.specs.UnitView.{items_in, external_of};
ghost use Rattle.lt_expr.specs.Walk.{walk_specifiers, walk_declarator};
ghost use Rattle.lt_expr.specs.Inside.{inside};
ghost use Rattle.lt_decl.specs.Walk as walk;

use super::declaration::declaration;
use super::statement::items;
use lt_expr::Walker;
use lt_tree::{External, FunctionDefinition};
use std::alloc::AllocError;

/// Walks externals in a row.
pub(crate) fn unit(walker: &mut Walker, list: &[External]) -> Result<(), AllocError>
    ensures { IfOk result (λ _. walker.new ≡ walk.walk_unit (map external_of list.now) walker.old) }
{
    'externals: for at in (0..list.len()).rev() {
        external(walker, &list[at])?;
    }
    Ok(())
}

fn external(walker: &mut Walker, x: &External) -> Result<(), AllocError>
    ensures { IfOk result (λ _. walker.new ≡ walk.walk_external (external_of x.now) walker.old) }
{
    let begin = walker.enter();
    parts(walker, x)?;
    walker.leave(begin)
}

// What is inside of an external.
fn parts(walker: &mut Walker, x: &External) -> Result<(), AllocError>
    ensures { IfOk result (λ _. walker.new ≡ inside (walk.walk_external (external_of x.now)) walker.old) }
{
    match x {
        External::Function(f) => function(walker, f),
        External::Declaration(given) => declaration(walker, given),
    }
}

fn function(walker: &mut Walker, f: &FunctionDefinition) -> Result<(), AllocError>
    ensures { IfOk result (λ _. walker.new ≡ walk_specifiers (specifiers_of f.now.specifiers) (walk_declarator (declarator_of f.now.declarator) (walk.walk_items (items_in f.now.body.items) walker.old))) }
{
    items(walker, f.body.as_slice())?;
    walker.declarator(&f.declarator)?;
    walker.specifiers(&f.specifiers)
}
