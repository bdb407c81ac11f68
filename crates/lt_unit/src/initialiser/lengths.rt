// The lengths that initialisers give to arrays, C11 6.7.9p22.

ghost use Rattle.std.specs.Prelude.{◌≡◌, ◌/◌, IfOk};
ghost use Rattle.lt_tree.specs.UnitView.{initialisers_in};
ghost use Rattle.lt_tree.specs.Typing.TypeRows.{type_in};
ghost use Rattle.lt_tree.specs.Typing.Extents.{size_of};
ghost use Rattle.lt_tree.specs.Typing.Entities.{Known};
ghost use Rattle.lt_tree.specs.Typing.Filling as filling;
ghost use Rattle.lt_tree.specs.Typing.InitialiserTyping as typing;
ghost use Rattle.lt_table.specs.TableRows.{Stays, Makes};
ghost use Rattle.lt_table.specs.TypesValue.{Widens};
ghost use Rattle.lt_unit.specs.LeftParts.{Knows, runs_of};

use crate::initialiser::left::{Left, Part};
use crate::initialiser::opening::is_character_array;
use crate::initialiser::written::only_text;
use lt_table::Types;
use lt_tree::Initialiser;
use lt_tree::typed::TypeId;
use std::alloc::AllocError;

/// The type, with this length if it is an array whose length is to come.
pub fn with_length(types: &mut Types, t: TypeId, length: u64) -> Result<TypeId, AllocError>
    ensures widens { Widens types.old types.new }
    ensures made { Makes types.new.rows result (λ longer. typing.with_length (type_in longer t) length) }
{
    match types.table().array_of(t) {
        None => Err(AllocError),
        Some(None) => Ok(t),
        Some(Some((element, known))) => {
            if known == 0 {
                let length = u32::try_from(length).map_err(|_| AllocError)?;
                types.array(element, length)
            } else {
                Ok(t)
            }
        }
    }
}

// How many elements of an array without an end were begun, where this one is to come.
fn begun(types: &Types, first: Part) -> Result<u64, AllocError>
    ensures { IfOk result (λ n. Stays types.now.rows (λ longer. (known : Known) → Knows known longer types.now → n ≡ first.offset / size_of known.model known.structs (type_in longer first.ty))) }
{
    let size = types.size_of(first.ty).ok_or(AllocError)?;
    Ok(first.offset.checked_div(size).unwrap_or(0))
}

// How many elements of an array of unknown length were begun.
fn elements_begun(types: &Types, left: &[Left]) -> Result<u64, AllocError>
    ensures { IfOk result (λ n. Stays types.now.rows (λ longer. (known : Known) → Knows known longer types.now → n ≡ filling.elements_begun known (runs_of longer left.now))) }
{
    let mut rest = left;
    'parts: while let Some((top, below)) = rest.split_last() {
        if let Some(first) = top.endless() {
            return begun(types, first);
        }
        rest = below;
    }
    Ok(0)
}

/// The length that a list gives: that of its lone string literal with the zero behind it, or the number of elements that it begins.
pub fn listed_length(
    types: &Types,
    t: TypeId,
    list: &[Initialiser],
    left: &[Left],
) -> Result<u64, AllocError>
    ensures { IfOk result (λ n. Stays types.now.rows (λ longer. (known : Known) → Knows known longer types.now → (filled : filling.Filling) → filled.left ≡ runs_of longer left.now → n ≡ typing.listed_length known (type_in longer t) (initialisers_in list.now) filled)) }
{
    match only_text(list) {
        None => elements_begun(types, left),
        Some(bytes) => {
            if is_character_array(types, t)? {
                Ok(bytes.len() as u64 + 1)
            } else {
                elements_begun(types, left)
            }
        }
    }
}
