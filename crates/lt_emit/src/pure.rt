// Pure expressions of predicates, and of the names that marks bind.
mod parts;

ghost use Rattle.std.specs.Prelude.{◌≡◌, IfOk, List, map};
ghost use Rattle.lt_ir.specs.Pure as p;
ghost use Rattle.lt_ir.specs.PureView.{pure_of};
ghost use Rattle.lt_tree.specs.Typing.TypeRows.{type_in};
ghost use Rattle.lt_tree.specs.Typing.ValueView.{conversion_of, value_of, place_of, values_in, bindings_in};
ghost use Rattle.lt_code.specs.Predicates.{raw_of, raw_place, raw_parts, pure_in, converts_here, pures_bound};
ghost use Rattle.lt_tree.specs.Typing.TypedTree as e;
ghost use Rattle.lt_tables.specs.Views.{types_at};
ghost use Rattle.lt_emit.specs.Fate.{fate_of};
ghost use Rattle.lt_emit.specs.Names.{names_at, pures_in};

use crate::fate::Fate;
use crate::purity::is_pure;
use lt_ir::{How, Pure};
use lt_model::{Content, Op};
use lt_tables::Site;
use lt_tree::typed::{Binding, Conversion, Place, TypeId, Value};
pub use parts::{all_ones, truth};
use parts::{complement, connected, converted, minus, moved};
use std::alloc::{AllocError, Global};

/// The expression of the graph, where it is pure.
pub fn pure(alloc: Global, site: &Site, v: &Value) -> Result<Pure, AllocError>
    ensures { IfOk result (λ q. pure_of q ≡ pure_in (names_at site.now) (value_of (types_at site.now.tables.now) v.now)) }
{
    if is_pure(v) {
        raw(alloc, site, Fate::Wanted, v)
    } else {
        Ok(Pure::Never)
    }
}

/// Those whose values are bound.
pub fn pures(alloc: Global, site: &Site, bound: &[Binding]) -> Result<Vec<Pure>, AllocError>
    ensures { IfOk result (λ all. map pure_of all.items ≡ pures_bound (names_at site.now) (bindings_in (types_at site.now.tables.now) bound.now)) }
{
    let mut all = Vec::new(alloc);
    'bound: for binding in bound {
        all.push(pure(alloc, site, &binding.value)?)?;
    }
    Ok(all)
}

// The expression of the graph, whether it is pure or not.
#[cycle(pure)]
fn raw(alloc: Global, site: &Site, fate: Fate, v: &Value) -> Result<Pure, AllocError>
    ensures { IfOk result (λ q. pure_of q ≡ raw_of (names_at site.now) (fate_of fate) (value_of (types_at site.now.tables.now) v.now)) }
{
    match v {
        Value::Constant(_, number) => Ok(Pure::Fixed(Content::Number(*number))),
        Value::Load(ty, p) => {
            let pointer = Box::new(alloc, address(alloc, site, p)?)?;
            Ok(Pure::Load(site.tables.cell_type(*ty), pointer))
        }
        Value::Whole(_, p) | Value::Decay(_, p) | Value::AddressOf(_, p) => address(alloc, site, p),
        Value::Convert(ty, how, operand) => conversion(alloc, site, fate, *ty, *how, operand),
        Value::Minus(ty, operand) => {
            let operand = boxed(alloc, site, Fate::Wanted, operand)?;
            minus(alloc, site.tables, *ty, operand)
        }
        Value::Complement(ty, operand) => {
            let operand = boxed(alloc, site, Fate::Wanted, operand)?;
            complement(alloc, site.tables, *ty, operand)
        }
        Value::Not(_, operand) => {
            let test = boxed(alloc, site, Fate::Wanted, operand)?;
            let on = Box::new(alloc, truth(false))?;
            Ok(Pure::Choose(test, on, Box::new(alloc, truth(true))?))
        }
        Value::Arithmetic {
            op,
            operands,
            left,
            right,
            ..
        } => {
            let left = boxed(alloc, site, Fate::Wanted, left)?;
            let right = boxed(alloc, site, Fate::Wanted, right)?;
            Ok(Pure::Apply(*op, *operands, left, right))
        }
        Value::Move {
            op,
            size,
            pointer,
            left,
            right,
            ..
        } => {
            let left = boxed(alloc, site, Fate::Wanted, left)?;
            let right = boxed(alloc, site, Fate::Wanted, right)?;
            Ok(moved(*op, *size, *pointer, left, right))
        }
        Value::Distance {
            size,
            left,
            right,
            ..
        } => {
            let left = boxed(alloc, site, Fate::Wanted, left)?;
            let right = boxed(alloc, site, Fate::Wanted, right)?;
            Ok(Pure::Distance {
                size: *size,
                left,
                right,
            })
        }
        Value::Compare(_, op, left, right) => {
            let left = boxed(alloc, site, Fate::Wanted, left)?;
            let right = boxed(alloc, site, Fate::Wanted, right)?;
            Ok(Pure::Compare(*op, left, right))
        }
        Value::Logical(_, op, left, right) => {
            let left = boxed(alloc, site, Fate::Wanted, left)?;
            let right = boxed(alloc, site, Fate::Wanted, right)?;
            connected(alloc, *op, left, right)
        }
        Value::Conditional(_, test, left, right) => {
            let test = boxed(alloc, site, Fate::Wanted, test)?;
            let left = boxed(alloc, site, fate.of_branch(), left)?;
            let right = boxed(alloc, site, fate.of_branch(), right)?;
            Ok(Pure::Choose(test, left, right))
        }
        Value::Comma(_, all) => {
            let all = comma_parts(alloc, site, fate.of_last(), all.as_slice())?;
            Ok(Pure::Comma(all))
        }
        _ => Ok(Pure::Never),
    }
}

// The same, where another expression holds it.
#[cycle(pure)]
fn boxed(alloc: Global, site: &Site, fate: Fate, v: &Value) -> Result<Box<Pure>, AllocError>
    ensures { IfOk result (λ q. pure_of q.value ≡ raw_of (names_at site.now) (fate_of fate) (value_of (types_at site.now.tables.now) v.now)) }
{
    Ok(Box::new(alloc, raw(alloc, site, fate, v)?)?)
}

// A conversion, where it is made there.
#[cycle(pure)]
fn conversion(
    alloc: Global,
    site: &Site,
    fate: Fate,
    ty: TypeId,
    how: Conversion,
    operand: &Value,
) -> Result<Pure, AllocError>
    ensures { IfOk result (λ q. pure_of q ≡ raw_of (names_at site.now) (fate_of fate) (e.Convert (conversion_of how) (type_in (types_at site.now.tables.now) ty) (value_of (types_at site.now.tables.now) operand.now))) }
{
    if how == Conversion::ToVoid {
        let operand = boxed(alloc, site, Fate::Untaken, operand)?;
        Ok(Pure::Convert(How::ToVoid, operand))
    } else if fate.converts() {
        let operand = boxed(alloc, site, fate.inside(), operand)?;
        converted(alloc, site.tables, how, ty, operand)
    } else {
        raw(alloc, site, fate.inside(), operand)
    }
}

// The address of an lvalue.
#[cycle(pure)]
fn address(alloc: Global, site: &Site, p: &Place) -> Result<Pure, AllocError>
    ensures { IfOk result (λ q. pure_of q ≡ raw_place (names_at site.now) (place_of (types_at site.now.tables.now) p.now)) }
{
    match p {
        Place::Object(_, number) => Ok(Pure::Place(site.variable(*number))),
        Place::Pointed(_, v) | Place::Held(_, v) => {
            let pointer = boxed(alloc, site, Fate::Wanted, v)?;
            Ok(Pure::Convert(How::ToPointer, pointer))
        }
        Place::Element {
            size,
            pointer,
            left,
            right,
            ..
        } => {
            let left = boxed(alloc, site, Fate::Wanted, left)?;
            let right = boxed(alloc, site, Fate::Wanted, right)?;
            Ok(moved(Op::Add, *size, *pointer, left, right))
        }
        Place::Part { offset, whole, .. } => {
            let pointer = Box::new(alloc, address(alloc, site, whole)?)?;
            Ok(Pure::Member {
                offset: *offset,
                pointer,
            })
        }
    }
}

// The parts of a comma expression.
#[cycle(pure)]
fn comma_parts(
    alloc: Global,
    site: &Site,
    fate: Fate,
    parts: &[Value],
) -> Result<Vec<Pure>, AllocError>
    ensures { IfOk result (λ all. pures_in all.items ≡ raw_parts (names_at site.now) (fate_of fate) (values_in (types_at site.now.tables.now) parts.now)) }
{
    let mut all = Vec::new(alloc);
    'parts: for (i, part) in parts.iter().enumerate() {
        let fate = fate.of_part(i + 1 == parts.len());
        all.push(raw(alloc, site, fate, part)?)?;
    }
    Ok(all)
}
