// Initialisers of lists, C11 6.7.9: each is for a part of what is left.

ghost use Rattle.std.specs.Prelude.{◌≡◌, Some, IfOk};
ghost use Rattle.lt_tree.specs.Tree as c;
ghost use Rattle.lt_tree.specs.View.{expression_of};
ghost use Rattle.lt_tree.specs.UnitView.{initialiser_of, initialisers_in};
ghost use Rattle.lt_tree.specs.Typing.TypeRows.{type_in};
ghost use Rattle.lt_tree.specs.Typing.InitialiserTyping as typing;
ghost use Rattle.lt_tree.specs.Typing.Filling as filling;
ghost use Rattle.lt_table.specs.TableRows.{Stays};
ghost use Rattle.lt_env.specs.Going.{Gives};
ghost use Rattle.lt_env.specs.Views.{typed_in};
ghost use Rattle.lt_unit.specs.Fillings.{filling_in, value_filled, value_in_front, text_filled, surplus_filled, list_filled};

use crate::initialiser::filling::{Filling, filling_of, nothing_to_fill, with_part};
use crate::initialiser::left::{Part, take_first};
use crate::initialiser::letters::letters;
use crate::initialiser::opening::{Taken, take_characters, take_part};
use crate::initialiser::texts::literal_alone;
use crate::initialiser::values::{own_struct, text_faults, value_faults, value_part};
use crate::initialiser::written::{begins_with_braces, text_in};
use lt_table::Types;
use lt_tree::typed::{Rule, TypeId};
use lt_tree::{Expr, Initialiser};
use lt_type::{Faults, TypeStop, Typed, Use, Walker, expression};
use std::alloc::AllocError;

/// Goes over the initialisers of a list.
#[cycle(initialisers)]
pub fn initialisers(
    walker: &mut Walker,
    list: &[Initialiser],
    is_static: bool,
    filling: Filling,
) -> Result<Filling, TypeStop>
    ensures { Gives filling_in walker.old walker.new result (λ types. typing.initialisers (initialisers_in list.now) is_static (filling_in types filling)) }
{
    let mut filled = filling;
    'list: for one in list {
        let next = initialiser(walker, one, is_static, filled)?;
        filled = next;
    }
    Ok(filled)
}

// Goes over one of them.
#[cycle(initialisers)]
fn initialiser(
    walker: &mut Walker,
    i: &Initialiser,
    is_static: bool,
    filling: Filling,
) -> Result<Filling, TypeStop>
    ensures { Gives filling_in walker.old walker.new result (λ types. typing.initialiser (initialiser_of i.now) is_static (filling_in types filling)) }
{
    match i {
        Initialiser::Expression(e) => without_braces(walker, is_static, filling, e),
        Initialiser::List(list) => in_braces(walker, is_static, filling, list.as_slice()),
    }
}

// ---- without braces

// An expression.
fn without_braces(
    walker: &mut Walker,
    is_static: bool,
    filling: Filling,
    e: &Expr,
) -> Result<Filling, TypeStop>
    ensures { Gives filling_in walker.old walker.new result (λ types. typing.initialiser (c.Value (expression_of e.now)) is_static (filling_in types filling)) }
{
    let node = walker.enter()?;
    match text_in(e) {
        None => value(walker, node, is_static, filling, e),
        Some(bytes) => text_or_value(walker, node, is_static, filling, e, bytes),
    }
}

// A string literal, for an array of characters if one is in front.
fn text_or_value(
    walker: &mut Walker,
    node: u32,
    is_static: bool,
    filling: Filling,
    e: &Expr,
    bytes: &[u8],
) -> Result<Filling, TypeStop>
    ensures { Gives filling_in walker.old walker.new result (λ types. typing.initialiser_without_braces node is_static (filling_in types filling) (expression_of e.now) (Some bytes.now)) }
{
    let Filling {
        mut left,
        parts,
        has_surplus,
    } = filling;
    let front = take_characters(&walker.types, &mut left)?;
    let filling = Filling {
        left,
        parts,
        has_surplus,
    };
    match front {
        None => value(walker, node, is_static, filling, e),
        Some(part) => fill_text(walker, node, filling, part, bytes),
    }
}

// A string literal for an array of characters, which is left no more.
fn fill_text(
    walker: &mut Walker,
    node: u32,
    filling: Filling,
    part: Part,
    bytes: &[u8],
) -> Result<Filling, TypeStop>
    ensures { Gives filling_in walker.old walker.new result (λ types. text_filled node (filling_in types filling) part.offset (type_in types part.ty) bytes.now) }
{
    literal_alone(walker, bytes)?;
    let faults = text_faults(&walker.types, part.ty, bytes)?;
    walker.settle(node, &faults)?;
    let made = letters(&walker.types, part.offset, part.ty, bytes)?;
    Ok(with_part(filling, made)?)
}

// An expression for its value.
fn value(
    walker: &mut Walker,
    node: u32,
    is_static: bool,
    filling: Filling,
    e: &Expr,
) -> Result<Filling, TypeStop>
    ensures { Gives filling_in walker.old walker.new result (λ types. typing.value_initialiser node is_static (filling_in types filling) (expression_of e.now)) }
{
    let x = expression(walker, e, Use::Value)?;
    value_or_surplus(walker, node, is_static, filling, x)
}

// A value for the part in front, if there is one.
fn value_or_surplus(
    walker: &mut Walker,
    node: u32,
    is_static: bool,
    filling: Filling,
    x: Box<Typed>,
) -> Result<Filling, TypeStop>
    ensures { Gives filling_in walker.old walker.new result (λ types. value_in_front node is_static (filling_in types filling) (typed_in types x)) }
{
    let Filling {
        mut left,
        parts,
        has_surplus,
    } = filling;
    let own = own_struct(&walker.types, &x)?;
    match take_part(&walker.types, Taken::StructOf(own), &mut left)? {
        None => Ok(Filling {
            left,
            parts,
            has_surplus: true,
        }),
        Some(part) => {
            let filling = Filling {
                left,
                parts,
                has_surplus,
            };
            fill_value(walker, node, is_static, filling, part, x)
        }
    }
}

// A value for an object, which is left no more.
fn fill_value(
    walker: &mut Walker,
    node: u32,
    is_static: bool,
    filling: Filling,
    part: Part,
    x: Box<Typed>,
) -> Result<Filling, TypeStop>
    ensures { Gives filling_in walker.old walker.new result (λ types. value_filled node is_static (filling_in types filling) part.offset (type_in types part.ty) (typed_in types x)) }
{
    let faults = value_faults(&mut walker.types, is_static, part.ty, &x)?;
    walker.settle(node, &faults)?;
    let made = value_part(&mut walker.types, is_static, part.offset, part.ty, x)?;
    Ok(with_part(filling, made)?)
}

// ---- in braces

// A list, for the first object that is left, if there is one.
#[cycle(initialisers)]
fn in_braces(
    walker: &mut Walker,
    is_static: bool,
    filling: Filling,
    list: &[Initialiser],
) -> Result<Filling, TypeStop>
    ensures { Gives filling_in walker.old walker.new result (λ types. typing.initialiser (c.Braces (initialisers_in list.now)) is_static (filling_in types filling)) }
{
    let node = walker.enter()?;
    let Filling {
        mut left,
        parts,
        has_surplus,
    } = filling;
    let first = take_first(&walker.types, &mut left)?;
    let filling = Filling {
        left,
        parts,
        has_surplus,
    };
    match first {
        None => surplus_list(walker, is_static, filling, list),
        Some(part) => fill_list(walker, node, is_static, filling, part, list),
    }
}

// A list for which nothing is left.
#[cycle(initialisers)]
fn surplus_list(
    walker: &mut Walker,
    is_static: bool,
    filling: Filling,
    list: &[Initialiser],
) -> Result<Filling, TypeStop>
    ensures { Gives filling_in walker.old walker.new result (λ types. surplus_filled is_static (filling_in types filling) (initialisers_in list.now)) }
{
    let nothing = nothing_to_fill(walker.types.alloc());
    let _inner = initialisers(walker, list, is_static, nothing)?;
    let Filling { left, parts, .. } = filling;
    Ok(Filling {
        left,
        parts,
        has_surplus: true,
    })
}

// A list for an object, which is left no more.
#[cycle(initialisers)]
fn fill_list(
    walker: &mut Walker,
    node: u32,
    is_static: bool,
    filling: Filling,
    part: Part,
    list: &[Initialiser],
) -> Result<Filling, TypeStop>
    ensures { Gives filling_in walker.old walker.new result (λ types. list_filled node is_static (filling_in types filling) part.offset (type_in types part.ty) (initialisers_in list.now)) }
{
    let Filling {
        left,
        parts,
        has_surplus,
    } = filling;
    let inside = filling_of(&walker.types, parts, part, list)?;
    let inner = initialisers(walker, list, is_static, inside)?;
    let faults = list_faults(&walker.types, part.ty, list, inner.has_surplus)?;
    walker.settle(node, &faults)?;
    Ok(Filling {
        left,
        parts: inner.parts,
        has_surplus,
    })
}

/// The rule that a list breaks that has more than its object, or that is of a scalar and has a list inside.
pub fn list_faults(
    types: &Types,
    t: TypeId,
    list: &[Initialiser],
    has_surplus: bool,
) -> Result<Faults, AllocError>
    ensures { IfOk result (λ faults. Stays types.now.rows (λ longer. (filled : filling.Filling) → filled.has_surplus ≡ has_surplus → faults ≡ filling.list_faults (type_in longer t) (initialisers_in list.now) filled)) }
{
    let is_scalar = types.table().is_scalar(t).ok_or(AllocError)?;
    let is_bad = has_surplus || (is_scalar && begins_with_braces(list));
    let mut faults = Faults::new(types.alloc());
    faults.broken_if(Rule::BadInitialiser, is_bad)?;
    Ok(faults)
}
