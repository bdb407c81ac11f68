// Initialisers of whole objects, C11 6.7.9p11 to p16 and p22.

ghost use Rattle.std.specs.Prelude.{◌≡◌, ◌∷◌, ◌++◌, [], suc, List, length, map, Option, Some, IfOk, if◌then◌else◌};
ghost use Rattle.lt_tree.specs.Tree as c;
ghost use Rattle.lt_tree.specs.View.{expression_of};
ghost use Rattle.lt_tree.specs.UnitView.{initialisers_in};
ghost use Rattle.lt_tree.specs.Typing.Types.{CType, is_array};
ghost use Rattle.lt_tree.specs.Typing.Rules.{broken_if, bad_initialiser};
ghost use Rattle.lt_tree.specs.Typing.Filling.{is_too_long_for, value_faults};
ghost use Rattle.lt_tree.specs.Typing.Filling as filling;
ghost use Rattle.lt_tree.specs.Typing.TypeRows.{type_in};
ghost use Rattle.lt_tree.specs.Typing.Entities.{Known};
ghost use Rattle.lt_tree.specs.Typing.StatementView.{start_part_of};
ghost use Rattle.lt_tree.specs.Typing.Declaring.{length_faults};
ghost use Rattle.lt_tree.specs.Typing.InitialiserTyping as typing;
ghost use Rattle.lt_table.specs.TableRows.{Stays};
ghost use Rattle.lt_table.specs.TypesValue.{Widens};
ghost use Rattle.lt_env.specs.Going.{Gives};
ghost use Rattle.lt_env.specs.Views.{typed_of, typed_in};
ghost use Rattle.lt_unit.specs.UnitViews.{started_of};
ghost use Rattle.lt_unit.specs.LeftParts.{Knows};
ghost use Rattle.lt_unit.specs.Fillings.{filling_in, whole_faults, whole_value_end, whole_text_end};

use crate::initialiser::Started;
use crate::initialiser::filling::{Filling, filling_of};
use crate::initialiser::left::Part;
use crate::initialiser::lengths::{listed_length, with_length};
use crate::initialiser::letters::letters;
use crate::initialiser::lists::{initialisers, list_faults};
use crate::initialiser::opening::is_character_array;
use crate::initialiser::texts::literal_alone;
use crate::initialiser::values::{length_faults, text_faults, value_faults, value_part};
use crate::initialiser::written::text_in;
use lt_table::Types;
use lt_tree::typed::{Rule, Start, StartPart, TypeId};
use lt_tree::{Expr, Initialiser};
use lt_type::{Faults, TypeStop, Typed, Use, Walker, expression, only_unless};
use std::alloc::{AllocError, Global};

// How an object starts of which these parts are stored.
fn started(zeroed: bool, parts: Vec<StartPart>, ty: TypeId) -> Started
    ensures { (types : List CType) → started_of types result ≡ typing.started zeroed (map (start_part_of types) parts.items) (type_in types ty) }
{
    Started {
        start: Start { zeroed, parts },
        ty,
    }
}

// How an object starts of which this part is stored.
fn started_alone(
    alloc: Global,
    zeroed: bool,
    part: StartPart,
    ty: TypeId,
) -> Result<Started, AllocError>
    ensures { IfOk result (λ it. (types : List CType) → started_of types it ≡ typing.started zeroed (start_part_of types part ∷ []) (type_in types ty)) }
{
    let mut parts = Vec::new(alloc);
    match parts.push(part) {
        Ok(()) => Ok(started(zeroed, parts, ty)),
        Err(_) => Err(AllocError),
    }
}

/// An expression.
pub fn without_braces(
    walker: &mut Walker,
    is_static: bool,
    t: TypeId,
    e: &Expr,
) -> Result<Started, TypeStop>
    ensures { Gives started_of walker.old walker.new result (λ types. typing.object_initialiser is_static (type_in types t) length_faults (c.Value (expression_of e.now))) }
{
    let node = walker.enter()?;
    match text_in(e) {
        None => value(walker, node, is_static, t, e),
        Some(bytes) => text_or_value(walker, node, is_static, t, e, bytes),
    }
}

// A string literal, for an array of characters if the object is one.
fn text_or_value(
    walker: &mut Walker,
    node: u32,
    is_static: bool,
    t: TypeId,
    e: &Expr,
    bytes: &[u8],
) -> Result<Started, TypeStop>
    ensures { Gives started_of walker.old walker.new result (λ types. typing.whole_without_braces node is_static (type_in types t) length_faults (expression_of e.now) (Some bytes.now)) }
{
    let is_text = is_character_array(&walker.types, t)?;
    if is_text {
        text(walker, node, t, bytes)
    } else {
        value(walker, node, is_static, t, e)
    }
}

// Whether it is an array.
fn is_array(types: &Types, t: TypeId) -> Result<bool, AllocError>
    ensures { IfOk result (λ b. Stays types.now.rows (λ longer. b ≡ is_array (type_in longer t))) }
{
    types.table().is_array(t).ok_or(AllocError)
}

// The rules that a value breaks as the initialiser of an array or of anything else.
fn shape_faults(
    types: &mut Types,
    is_static: bool,
    is_array: bool,
    t: TypeId,
    x: &Typed,
) -> Result<Faults, AllocError>
    ensures widens { Widens types.old types.new }
    ensures made { IfOk result (λ faults. Stays types.new.rows (λ longer. (known : Known) → Knows known longer types.old → faults ≡ (if is_array then bad_initialiser ∷ [] else value_faults known is_static (type_in longer t) (typed_of longer x.now)))) }
{
    if is_array {
        only_unless(types.alloc(), false, Rule::BadInitialiser)
    } else {
        value_faults(types, is_static, t, x)
    }
}

// The rules that a value breaks as the initialiser of a whole object.
fn whole_faults(
    types: &mut Types,
    is_static: bool,
    t: TypeId,
    x: &Typed,
) -> Result<Faults, AllocError>
    ensures widens { Widens types.old types.new }
    ensures made { IfOk result (λ faults. Stays types.new.rows (λ longer. (known : Known) → Knows known longer types.old → faults ≡ whole_faults known is_static (type_in longer t) (typed_of longer x.now))) }
{
    let is_array = is_array(types, t)?;
    let too_large = length_faults(types, t)?;
    let mut faults = shape_faults(types, is_static, is_array, t, x)?;
    faults.append(too_large)?;
    Ok(faults)
}

// An expression for its value.
fn value(
    walker: &mut Walker,
    node: u32,
    is_static: bool,
    t: TypeId,
    e: &Expr,
) -> Result<Started, TypeStop>
    ensures { Gives started_of walker.old walker.new result (λ types. typing.whole_value node is_static (type_in types t) length_faults (expression_of e.now)) }
{
    let x = expression(walker, e, Use::Value)?;
    end_of_value(walker, node, is_static, t, x)
}

// The value of a whole object.
fn end_of_value(
    walker: &mut Walker,
    node: u32,
    is_static: bool,
    t: TypeId,
    x: Box<Typed>,
) -> Result<Started, TypeStop>
    ensures { Gives started_of walker.old walker.new result (λ types. whole_value_end node is_static (type_in types t) (typed_in types x)) }
{
    let faults = whole_faults(&mut walker.types, is_static, t, &x)?;
    walker.settle(node, &faults)?;
    let part = value_part(&mut walker.types, is_static, 0, t, x)?;
    let all = started_alone(walker.types.alloc(), false, part, t)?;
    Ok(all)
}

// A string literal for an array of characters.
fn text(walker: &mut Walker, node: u32, t: TypeId, bytes: &[u8]) -> Result<Started, TypeStop>
    ensures { Gives started_of walker.old walker.new result (λ types. typing.whole_text node (type_in types t) length_faults bytes.now) }
{
    literal_alone(walker, bytes)?;
    end_of_text(walker, node, t, bytes)
}

// The length of an array of unknown length that a string literal initialises: there is a zero behind its bytes.
fn text_length(bytes: &[u8]) -> u64
    ensures { result ≡ suc (length bytes.now) }
{
    bytes.len() as u64 + 1
}

// The rules that a string literal breaks which gives an object this type.
fn end_faults(types: &Types, t: TypeId, ty: TypeId, bytes: &[u8]) -> Result<Faults, AllocError>
    ensures { IfOk result (λ faults. Stays types.now.rows (λ longer. (known : Known) → Knows known longer types.now → faults ≡ broken_if bad_initialiser (is_too_long_for (type_in longer t) bytes.now) ++ length_faults known (type_in longer ty))) }
{
    let too_large = length_faults(types, ty)?;
    let mut faults = text_faults(types, t, bytes)?;
    faults.append(too_large)?;
    Ok(faults)
}

// A string literal for an array of characters, once its node has ended.
fn end_of_text(walker: &mut Walker, node: u32, t: TypeId, bytes: &[u8]) -> Result<Started, TypeStop>
    ensures { Gives started_of walker.old walker.new result (λ types. whole_text_end node (type_in types t) bytes.now) }
{
    let ty = with_length(&mut walker.types, t, text_length(bytes))?;
    let faults = end_faults(&walker.types, t, ty, bytes)?;
    walker.settle(node, &faults)?;
    let part = letters(&walker.types, 0, t, bytes)?;
    let all = started_alone(walker.types.alloc(), true, part, ty)?;
    Ok(all)
}

/// A list.
pub fn in_braces(
    walker: &mut Walker,
    is_static: bool,
    t: TypeId,
    list: &[Initialiser],
) -> Result<Started, TypeStop>
    ensures { Gives started_of walker.old walker.new result (λ types. typing.object_initialiser is_static (type_in types t) length_faults (c.Braces (initialisers_in list.now))) }
{
    let node = walker.enter()?;
    let none = Vec::new(walker.types.alloc());
    let inside = filling_of(&walker.types, none, Part { offset: 0, ty: t }, list)?;
    let filled = initialisers(walker, list, is_static, inside)?;
    end_of_list(walker, node, t, list, filled)
}

// The rules that a list breaks which gives an object this type.
fn end_of_list_faults(
    types: &Types,
    t: TypeId,
    ty: TypeId,
    list: &[Initialiser],
    has_surplus: bool,
) -> Result<Faults, AllocError>
    ensures { IfOk result (λ faults. Stays types.now.rows (λ longer. (known : Known) → Knows known longer types.now → (filled : filling.Filling) → filled.has_surplus ≡ has_surplus → faults ≡ filling.list_faults (type_in longer t) (initialisers_in list.now) filled ++ length_faults known (type_in longer ty))) }
{
    let too_large = length_faults(types, ty)?;
    let mut faults = list_faults(types, t, list, has_surplus)?;
    faults.append(too_large)?;
    Ok(faults)
}

// The end of a list.
fn end_of_list(
    walker: &mut Walker,
    node: u32,
    t: TypeId,
    list: &[Initialiser],
    filled: Filling,
) -> Result<Started, TypeStop>
    ensures { Gives started_of walker.old walker.new result (λ types. typing.end_of_list node (type_in types t) length_faults (initialisers_in list.now) (filling_in types filled)) }
{
    let Filling {
        left,
        parts,
        has_surplus,
    } = filled;
    let length = listed_length(&walker.types, t, list, left.as_slice())?;
    let ty = with_length(&mut walker.types, t, length)?;
    let faults = end_of_list_faults(&walker.types, t, ty, list, has_surplus)?;
    walker.settle(node, &faults)?;
    Ok(started(true, parts, ty))
}
