// Operators on operands of which one is a pointer, C11 6.5.6, 6.5.8 and 6.5.9.

ghost use Rattle.std.specs.Prelude.{◌≡◌, if◌then◌else◌, [], IfOk, ℕ};
ghost use Rattle.lt_tree.specs.Typing.Types as kinds;
ghost use Rattle.lt_tree.specs.Typing.TypeRows.{type_in};
ghost use Rattle.lt_tree.specs.Typing.ValueView.{value_of};
ghost use Rattle.lt_tree.specs.Typing.ConstancyView.{constancy_of};
ghost use Rattle.lt_tree.specs.Typing.Constants as constants;
ghost use Rattle.lt_tree.specs.Typing.Expressions as typing;
ghost use Rattle.lt_tree.specs.Typing.BinaryOperations as binary;
ghost use Rattle.lt_model.specs.declared.operator.Op.TheVariants as ops;
ghost use Rattle.lt_table.specs.ConstantViews.{IsExtent};
ghost use Rattle.lt_table.specs.TableRows.{Stays};
ghost use Rattle.lt_table.specs.TypesValue.{Widens};
ghost use Rattle.lt_env.specs.Views.{typed_in};
ghost use Rattle.lt_judge.specs.Knowing.{known_with};

use crate::shared::{
    element_size, extent_of, is_integer, is_pointer, other_among, pointer_among, side_of,
};
use lt_env::values::{converted_to, value_in, valued, varies};
use lt_env::{Objects, Typed};
use lt_model::{Op, Scalar, difference_type};
use lt_table::{Types, moved_back, moved_by};
use lt_tree::typed::makes::value;
use lt_tree::typed::{Constancy, TypeId, Value};
use std::alloc::AllocError;

// An address, moved by a constant number of elements in the direction of the operator.
fn moved_towards(op: Op, extent: u64, size: u64, at: Constancy, count: Constancy) -> Constancy
    ensures { (sizes : ℕ → ℕ) → IsExtent sizes extent (constancy_of at) → constancy_of result ≡ constants.moved_by sizes size (constancy_of at) (binary.towards op (constancy_of count)) }
{
    match op {
        Op::Sub => moved_back(extent, size, at, count),
        _ => moved_by(extent, size, at, count),
    }
}

// A pointer and a number of elements.
fn moved(
    types: &mut Types,
    objects: &Objects,
    op: Op,
    x: Box<Typed>,
    y: Box<Typed>,
) -> Result<Box<Typed>, AllocError>
    ensures widens { Widens types.old types.new }
    ensures made { IfOk result (λ it. Stays types.new.rows (λ longer. typed_in longer it ≡ binary.moved (known_with longer types.old objects.now) op (typed_in longer x) (typed_in longer y))) }
{
    let alloc = types.alloc();
    let size = element_size(types, &x, &y)?;
    let side = side_of(types, &x)?;
    let pointer = pointer_among(types, &x, &y)?;
    let other = other_among(types, &x, &y)?;
    let ty = pointer.own_type();
    let extent = extent_of(types, objects, pointer.constancy)?;
    let at = moved_towards(op, extent, size, pointer.constancy, other.constancy);
    let left = value_in(types, x)?;
    let right = value_in(types, y)?;
    let value = value::move_by(alloc, ty, op, size, side, left, right)?;
    let all = valued(alloc, value, at, at)?;
    Ok(all)
}

// The number of elements between two pointers.
fn distance(types: &mut Types, x: Box<Typed>, y: Box<Typed>) -> Result<Box<Typed>, AllocError>
    ensures widens { Widens types.old types.new }
    ensures made { IfOk result (λ it. Stays types.new.rows (λ longer. typed_in longer it ≡ binary.distance (known_with longer types.old []) (typed_in longer x) (typed_in longer y))) }
{
    let alloc = types.alloc();
    let scalar = difference_type(types.model());
    let size = element_size(types, &x, &y)?;
    let ty = types.num(scalar)?;
    let left = value_in(types, x)?;
    let right = value_in(types, y)?;
    let value = value::distance(alloc, ty, size, left, right)?;
    let all = varies(alloc, value)?;
    Ok(all)
}

// Beside a pointer of this type, a null pointer constant of integer type is a pointer.
fn beside(types: &mut Types, x: Box<Typed>, t: TypeId) -> Result<Box<Value>, AllocError>
    ensures widens { Widens types.old types.new }
    ensures made { IfOk result (λ v. Stays types.new.rows (λ longer. value_of longer v.value ≡ (if kinds.is_integer (typing.own_type (typed_in longer x)) then typing.converted_to (type_in longer t) (typing.value_in (typed_in longer x)) else typing.value_in (typed_in longer x)))) }
{
    let integer = is_integer(types, &x)?;
    let value = value_in(types, x)?;
    if integer {
        let value = converted_to(types, t, value)?;
        Ok(value)
    } else {
        Ok(value)
    }
}

// Two pointers, compared.
fn compared(
    types: &mut Types,
    op: Op,
    x: Box<Typed>,
    y: Box<Typed>,
) -> Result<Box<Typed>, AllocError>
    ensures widens { Widens types.old types.new }
    ensures made { IfOk result (λ it. Stays types.new.rows (λ longer. typed_in longer it ≡ binary.compared op (typed_in longer x) (typed_in longer y))) }
{
    let alloc = types.alloc();
    let t = x.own_type();
    let u = y.own_type();
    let left = beside(types, x, u)?;
    let right = beside(types, y, t)?;
    let int = types.num(Scalar::Int)?;
    let value = value::compare(alloc, int, op, left, right)?;
    let all = varies(alloc, value)?;
    Ok(all)
}

// `x - y`
fn subtracted(
    types: &mut Types,
    objects: &Objects,
    x: Box<Typed>,
    y: Box<Typed>,
) -> Result<Box<Typed>, AllocError>
    ensures widens { Widens types.old types.new }
    ensures made { IfOk result (λ it. Stays types.new.rows (λ longer. typed_in longer it ≡ binary.on_pointers (known_with longer types.old objects.now) ops.Sub (typed_in longer x) (typed_in longer y))) }
{
    let left = is_pointer(types, &x)?;
    let right = is_pointer(types, &y)?;
    if left && right {
        let all = distance(types, x, y)?;
        Ok(all)
    } else {
        let all = moved(types, objects, Op::Sub, x, y)?;
        Ok(all)
    }
}

/// The operator on operands of which one is a pointer.
pub(super) fn on_pointers(
    types: &mut Types,
    objects: &Objects,
    op: Op,
    x: Box<Typed>,
    y: Box<Typed>,
) -> Result<Box<Typed>, AllocError>
    ensures widens { Widens types.old types.new }
    ensures made { IfOk result (λ it. Stays types.new.rows (λ longer. typed_in longer it ≡ binary.on_pointers (known_with longer types.old objects.now) op (typed_in longer x) (typed_in longer y))) }
{
    match op {
        Op::Add => {
            let all = moved(types, objects, op, x, y)?;
            Ok(all)
        }
        Op::Sub => {
            let all = subtracted(types, objects, x, y)?;
            Ok(all)
        }
        _ => {
            let all = compared(types, op, x, y)?;
            Ok(all)
        }
    }
}
