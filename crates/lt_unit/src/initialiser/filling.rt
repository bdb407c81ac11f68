// What initialisers fill, and what is left of an object, C11 6.7.9.

ghost use Rattle.std.specs.Prelude.{◌≡◌, ◌∷◌, [], ◌&&◌, List, map, IfOk, if◌then◌else◌};
ghost use Rattle.lt_tree.specs.UnitView.{initialisers_in};
ghost use Rattle.lt_tree.specs.Typing.Types.{CType};
ghost use Rattle.lt_tree.specs.Typing.TypeRows.{type_in};
ghost use Rattle.lt_tree.specs.Typing.Entities.{Known};
ghost use Rattle.lt_tree.specs.Typing.StatementView.{start_part_of};
ghost use Rattle.lt_tree.specs.Typing.Filling as typing;
ghost use Rattle.lt_table.specs.TableRows.{Stays};
ghost use Rattle.lt_unit.specs.LeftParts.{Knows, runs_if};
ghost use Rattle.lt_unit.specs.Fillings.{filling_in, with_part, behind_parts};

use crate::initialiser::left::{Left, Part, alone, push_before};
use crate::initialiser::opening::{is_character_array, parts_of};
use crate::initialiser::written::only_text;
use lt_table::Types;
use lt_tree::Initialiser;
use lt_tree::typed::StartPart;
use std::alloc::{AllocError, Global};

/// What is left to be filled of an object, the last first; the parts that were filled, and whether an initialiser was left over.
#[derive(Drop)]
pub struct Filling {
    pub left: Vec<Left>,
    pub parts: Vec<StartPart>,
    pub has_surplus: bool,
}

/// Nothing that is left, and no parts.
pub fn nothing_to_fill(alloc: Global) -> Filling
    ensures { (types : List CType) → filling_in types result ≡ typing.nothing_to_fill }
{
    Filling {
        left: Vec::new(alloc),
        parts: Vec::new(alloc),
        has_surplus: false,
    }
}

/// One more part.
pub fn with_part(filling: Filling, part: StartPart) -> Result<Filling, AllocError>
    ensures { IfOk result (λ filled. (types : List CType) → filling_in types filled ≡ with_part (start_part_of types part) (filling_in types filling)) }
{
    let Filling {
        left,
        mut parts,
        has_surplus,
    } = filling;
    match parts.push(part) {
        Ok(()) => Ok(Filling {
            left,
            parts,
            has_surplus,
        }),
        Err(_) => Err(AllocError),
    }
}

// The parts for the initialisers of a list, of which a lone string literal is for a whole array of characters.
fn parts_for(types: &Types, part: Part, is_text: bool) -> Result<Option<Left>, AllocError>
    ensures { IfOk result (λ left. Stays types.now.rows (λ longer. (known : Known) → Knows known longer types.now → runs_if longer left ≡ (if typing.is_character_array (type_in longer part.ty) && is_text then typing.one_object part.offset (type_in longer part.ty) ∷ [] else typing.parts_of known part.offset (type_in longer part.ty)))) }
{
    if is_text && is_character_array(types, part.ty)? {
        return Ok(Some(alone(part)));
    }
    parts_of(types, part)
}

/// What a list for an object fills, behind parts that were filled before it.
pub fn filling_of(
    types: &Types,
    parts: Vec<StartPart>,
    part: Part,
    list: &[Initialiser],
) -> Result<Filling, AllocError>
    ensures { IfOk result (λ filled. Stays types.now.rows (λ longer. (known : Known) → Knows known longer types.now → filling_in longer filled ≡ behind_parts (map (start_part_of longer) parts.items) (typing.filling_of known part.offset (type_in longer part.ty) (initialisers_in list.now)))) }
{
    let inside = parts_for(types, part, only_text(list).is_some())?;
    let mut left = Vec::new(types.alloc());
    push_before(&mut left, inside)?;
    Ok(Filling {
        left,
        parts,
        has_surplus: false,
    })
}
