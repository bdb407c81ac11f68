// Translation units, C11 6.9.

ghost use Rattle.std.specs.Prelude.{◌≡◌, ◌++◌, IfOk, OnOk};
ghost use Rattle.lt_tree.specs.Pieces.{text_of};
ghost use Rattle.lt_tree.specs.CanonUnits as spec;
ghost use Rattle.lt_tree.specs.UnitView.{external_of, unit_of};
ghost use Rattle.lt_tree.specs.Units.{IsWellMade};
ghost use Rattle.lt_print.specs.Laws.{IsOfUnitAlone};
ghost use Rattle.lt_print.specs.Statements.{definition_of};

use crate::declaration::put_declaration;
use crate::declarator::put_declared;
use crate::specifier::{open_braces, put_specifiers};
use crate::statement::put_items;
use crate::text::{end_line, put_sign};
use lt_tree::{External, FunctionDefinition, Terminal, Unit};
use std::alloc::{AllocError, Global};

/// The canonical text of a unit, in bytes. Where some text has this unit, the tokens of the canonical one derive it, and no other.
/// It takes time in proportion to the text, and fails only where memory ends.
#[tactic(auto, using(crate::proofs::Alone::alone_as_canonical))]
pub fn print_unit(alloc: Global, unit: &Unit) -> Result<Vec<u8>, AllocError>
    ensures canonical { IfOk result (λ bytes. bytes.items ≡ spec.canon (unit_of unit.now)) }
    ensures alone { IfOk result (λ bytes. IsWellMade (unit_of unit.now) → IsOfUnitAlone bytes.items (unit_of unit.now)) }
{
    canonical_text(alloc, unit)
}

fn canonical_text(alloc: Global, unit: &Unit) -> Result<Vec<u8>, AllocError>
    ensures { IfOk result (λ bytes. bytes.items ≡ spec.canon (unit_of unit.now)) }
{
    let mut out = Vec::new(alloc);
    for external in &unit.externals {
        put_external(&mut out, external)?;
    }
    Ok(out)
}

/// external = specs declarator compound | declaration
#[tactic(auto, unfolding(lt_tree::specs::Pieces::text_of), using(crate::proofs::Texts::texts))]
fn put_external(out: &mut Vec<u8>, external: &External) -> Result<(), AllocError>
    ensures { OnOk result (out.new.items ≡ out.old.items ++ text_of (spec.external (external_of external.now))) }
{
    match external {
        External::Function(definition) => put_definition(out, definition),
        External::Declaration(declaration) => {
            put_declaration(out, 0, declaration)?;
            end_line(out)
        }
    }
}

/// specs declarator compound
fn put_definition(out: &mut Vec<u8>, definition: &FunctionDefinition) -> Result<(), AllocError>
    ensures { OnOk result (out.new.items ≡ out.old.items ++ text_of (spec.external (definition_of definition.now))) }
{
    let before = put_specifiers(out, 0, &definition.specifiers)?;
    put_declared(out, 0, before, &definition.declarator)?;
    open_braces(out)?;
    put_items(out, 1, &definition.body)?;
    put_sign(out, Terminal::CloseBrace)?;
    end_line(out)
}
