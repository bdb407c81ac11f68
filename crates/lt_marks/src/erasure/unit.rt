// Units without their marks; `specs/Erasure.antt` says what stands in their place.

ghost use Rattle.std.specs.Prelude.{◌≡◌, IfOk, map};
ghost use Rattle.lt_tree.specs.Tree as t;
ghost use Rattle.lt_tree.specs.Records.{specifiers_of, declarator_of};
ghost use Rattle.lt_tree.specs.UnitView.{items_in, external_of, unit_of};
ghost use Rattle.lt_tree.specs.Erasure.{
  erased_specifiers,
  erased_declarator,
  erased_items,
  erased_external,
  erased_unit,
};

use crate::erasure::declaration::plain_declaration;
use crate::erasure::declarator::declarator;
use crate::erasure::specifier::specifiers;
use crate::erasure::statement::plain_items;
use lt_tree::{External, FunctionDefinition, Unit};
use std::alloc::{AllocError, Global};

fn plain_function(alloc: Global, f: &FunctionDefinition) -> Result<FunctionDefinition, AllocError>
    ensures specifiers { IfOk result (λ all. specifiers_of all.specifiers ≡ erased_specifiers (specifiers_of f.now.specifiers)) }
    ensures declarator { IfOk result (λ all. declarator_of all.declarator ≡ erased_declarator (declarator_of f.now.declarator)) }
    ensures body { IfOk result (λ all. items_in all.body.items ≡ erased_items (items_in f.now.body.items)) }
{
    let specifiers = specifiers(alloc, &f.specifiers)?;
    let declarator = declarator(alloc, &f.declarator)?;
    let body = plain_items(alloc, f.body.as_slice())?;
    Ok(FunctionDefinition {
        specifiers,
        declarator,
        body,
    })
}

fn plain_external(alloc: Global, external: &External) -> Result<External, AllocError>
    ensures { IfOk result (λ all. external_of all ≡ erased_external (external_of external.now)) }
{
    match external {
        External::Function(function) => Ok(External::Function(plain_function(alloc, function)?)),
        External::Declaration(declaration) => {
            Ok(External::Declaration(plain_declaration(alloc, declaration)?))
        }
    }
}

fn plain_externals(alloc: Global, list: &[External]) -> Result<Vec<External>, AllocError>
    ensures { IfOk result (λ all. map external_of all.items ≡ erased_unit (map external_of list.now)) }
{
    let mut all = Vec::new(alloc);
    'list: for external in list {
        all.push(plain_external(alloc, external)?)?;
    }
    Ok(all)
}

/// A unit without its marks: labels and the names they bind go, and an expression behind marks,
/// or in `pc_decide` or `pc_after`, stands alone. It fails only for want of memory.
pub fn erase(alloc: Global, u: &Unit) -> Result<Unit, AllocError>
    ensures { IfOk result (λ all. unit_of all ≡ erased_unit (unit_of u.now)) }
{
    let externals = plain_externals(alloc, u.externals.as_slice())?;
    Ok(Unit { externals })
}
