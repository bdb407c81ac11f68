// Assignments, C11 6.5.16.

ghost use Rattle.std.specs.Prelude.{◌≡◌, ◌++◌, [], IfOk};
ghost use Rattle.lt_tree.specs.Typing.Types as kinds;
ghost use Rattle.lt_tree.specs.Typing.ValueView.{value_of};
ghost use Rattle.lt_tree.specs.Typing.TypedTree as e;
ghost use Rattle.lt_tree.specs.Typing.Rules as rules;
ghost use Rattle.lt_tree.specs.Typing.Operations as operations;
ghost use Rattle.lt_tree.specs.Typing.Expressions as typing;
ghost use Rattle.lt_tree.specs.Typing.BinaryOperations as binary;
ghost use Rattle.lt_table.specs.TableRows.{Stays};
ghost use Rattle.lt_table.specs.TypesValue.{Widens, structs_at};
ghost use Rattle.lt_env.specs.Views.{typed_of, typed_in};
ghost use Rattle.lt_judge.specs.Knowing.{known_with};

use super::faults::update_faults;
use super::integers::{operand, operation_types};
use crate::shared::{converted_value, element_size, fits, is_pointer, write_faults};
use lt_env::values::{place_in, value_in, varies};
use lt_env::{Faults, Typed};
use lt_model::Op;
use lt_table::Types;
use lt_tree::typed::makes::value;
use lt_tree::typed::{Rule, Value};
use std::alloc::AllocError;

fn fits_place(types: &mut Types, x: &Typed, y: &Typed) -> Result<bool, AllocError>
    ensures widens { Widens types.old types.new }
    ensures made { IfOk result (λ b. Stays types.new.rows (λ longer. b ≡ operations.fits (kinds.value_type (typing.own_type (typed_of longer x.now))) (typed_of longer y.now))) }
{
    let t = types.value_type(x.own_type())?;
    let fits = fits(types, t, y)?;
    Ok(fits)
}

/// The rules that `x = y` breaks.
pub(super) fn assignment_faults(
    types: &mut Types,
    x: &Typed,
    y: &Typed,
) -> Result<Faults, AllocError>
    ensures widens { Widens types.old types.new }
    ensures made { IfOk result (λ faults. Stays types.new.rows (λ longer. faults ≡ rules.unless (operations.fits (kinds.value_type (typing.own_type (typed_of longer x.now))) (typed_of longer y.now)) rules.bad_assignment ++ operations.write_faults (structs_at longer types.old) (typed_of longer x.now))) }
{
    let others = write_faults(types, x)?;
    let fits = fits_place(types, x, y)?;
    let mut faults = Faults::new(types.alloc());
    faults.unless(fits, Rule::BadAssignment)?;
    faults.append(others)?;
    Ok(faults)
}

/// `x = y`.
pub(super) fn assigned(
    types: &mut Types,
    x: Box<Typed>,
    y: Box<Typed>,
) -> Result<Box<Typed>, AllocError>
    ensures widens { Widens types.old types.new }
    ensures made { IfOk result (λ it. Stays types.new.rows (λ longer. typed_in longer it ≡ typing.varies (e.Assign (kinds.unqualified (typing.own_type (typed_in longer x))) (typing.place_in (typed_in longer x)) (typing.converted_to (kinds.unqualified (typing.own_type (typed_in longer x))) (typing.value_in (typed_in longer y)))))) }
{
    let alloc = types.alloc();
    let t = types.unqualified(x.own_type())?;
    let place = place_in(types, x)?;
    let value = converted_value(types, t, y)?;
    let value = value::assign(alloc, t, place, value)?;
    let all = varies(alloc, value)?;
    Ok(all)
}

fn operands_faults(types: &mut Types, op: Op, x: &Typed, y: &Typed) -> Result<Faults, AllocError>
    ensures widens { Widens types.old types.new }
    ensures made { IfOk result (λ faults. Stays types.new.rows (λ longer. faults ≡ binary.update_faults (structs_at longer types.old) op (kinds.value_type (typing.own_type (typed_of longer x.now))) (typing.own_type (typed_of longer y.now)))) }
{
    let t = types.value_type(x.own_type())?;
    let u = y.own_type();
    let faults = update_faults(types, op, t, u)?;
    Ok(faults)
}

/// The rules that `x op= y` breaks.
pub(super) fn updating_faults(
    types: &mut Types,
    op: Op,
    x: &Typed,
    y: &Typed,
) -> Result<Faults, AllocError>
    ensures widens { Widens types.old types.new }
    ensures made { IfOk result (λ faults. Stays types.new.rows (λ longer. faults ≡ binary.update_faults (structs_at longer types.old) op (kinds.value_type (typing.own_type (typed_of longer x.now))) (typing.own_type (typed_of longer y.now)) ++ operations.write_faults (structs_at longer types.old) (typed_of longer x.now))) }
{
    let others = write_faults(types, x)?;
    let mut faults = operands_faults(types, op, x, y)?;
    faults.append(others)?;
    Ok(faults)
}

// Where the place is a pointer.
fn updated_pointer(
    types: &mut Types,
    op: Op,
    x: Box<Typed>,
    y: Box<Typed>,
) -> Result<Box<Value>, AllocError>
    ensures widens { Widens types.old types.new }
    ensures made { IfOk result (λ v. Stays types.new.rows (λ longer. value_of longer v.value ≡ e.UpdatePointer (kinds.unqualified (typing.own_type (typed_in longer x))) op (operations.element_size (known_with longer types.old []) (typed_in longer x) (typed_in longer y)) (typing.place_in (typed_in longer x)) (typing.value_in (typed_in longer y)))) }
{
    let alloc = types.alloc();
    let size = element_size(types, &x, &y)?;
    let t = types.unqualified(x.own_type())?;
    let place = place_in(types, x)?;
    let value = value_in(types, y)?;
    let all = value::update_pointer(alloc, t, op, size, place, value)?;
    Ok(all)
}

// Where it is an integer.
fn updated_integer(
    types: &mut Types,
    op: Op,
    x: Box<Typed>,
    y: Box<Typed>,
) -> Result<Box<Value>, AllocError>
    ensures widens { Widens types.old types.new }
    ensures made { IfOk result (λ v. Stays types.new.rows (λ longer. value_of longer v.value ≡ e.Update (kinds.unqualified (typing.own_type (typed_in longer x))) op (binary.operation_type (known_with longer types.old []) op (typed_in longer x) (typed_in longer y)) (typing.place_in (typed_in longer x)) (typing.converted_to (kinds.Num (binary.right_type (known_with longer types.old []) op (typed_in longer x) (typed_in longer y))) (typing.value_in (typed_in longer y))))) }
{
    let alloc = types.alloc();
    let (s, r) = operation_types(types, op, &x, &y)?;
    let t = types.unqualified(x.own_type())?;
    let place = place_in(types, x)?;
    let value = operand(types, r, y)?;
    let all = value::update(alloc, t, op, s, place, value)?;
    Ok(all)
}

/// `x op= y`.
pub(super) fn updated(
    types: &mut Types,
    op: Op,
    x: Box<Typed>,
    y: Box<Typed>,
) -> Result<Box<Typed>, AllocError>
    ensures widens { Widens types.old types.new }
    ensures made { IfOk result (λ it. Stays types.new.rows (λ longer. typed_in longer it ≡ typing.varies (binary.updated (known_with longer types.old []) op (typed_in longer x) (typed_in longer y)))) }
{
    let alloc = types.alloc();
    let pointer = is_pointer(types, &x)?;
    if pointer {
        let value = updated_pointer(types, op, x, y)?;
        let all = varies(alloc, value)?;
        Ok(all)
    } else {
        let value = updated_integer(types, op, x, y)?;
        let all = varies(alloc, value)?;
        Ok(all)
    }
}
