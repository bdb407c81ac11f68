// Operators on two integers, C11 6.5.5 to 6.5.12.

ghost use Rattle.std.specs.Prelude.{◌≡◌, ◌||◌, ◌⊎◌, [], IfOk};
ghost use Rattle.lt_model.specs.Operators.{IsShift};
ghost use Rattle.lt_tree.specs.Typing.Types.{Num};
ghost use Rattle.lt_tree.specs.Typing.ValueView.{value_of};
ghost use Rattle.lt_tree.specs.Typing.Expressions as typing;
ghost use Rattle.lt_tree.specs.Typing.Operands as operands;
ghost use Rattle.lt_tree.specs.Typing.BinaryOperations as binary;
ghost use Rattle.lt_table.specs.TableRows.{Stays, Makes};
ghost use Rattle.lt_table.specs.TypesValue.{Widens};
ghost use Rattle.lt_env.specs.Views.{typed_of, typed_in};
ghost use Rattle.lt_judge.specs.Knowing.{known_with};

use lt_env::Typed;
use lt_env::values::{converted_to, scalar_in, value_in, valued};
use lt_model::{Op, Scalar, promote, usual};
use lt_table::{Types, operated};
use lt_tree::typed::makes::value::arithmetic;
use lt_tree::typed::{TypeId, Value};
use std::alloc::AllocError;

fn is_shift(op: Op) -> bool
    ensures { result ≡ operands.is_shift op }
{
    matches!(op, Op::Shl | Op::Shr)
}

fn is_comparison(op: Op) -> bool
    ensures { result ≡ (operands.is_relation op || operands.is_equality op) }
{
    matches!(op, Op::Lt | Op::Le | Op::Gt | Op::Ge | Op::Eq | Op::Ne)
}

/// The type of an operation on integers, and that of its right operand.
pub(super) fn operation_types(
    types: &Types,
    op: Op,
    x: &Typed,
    y: &Typed,
) -> Result<(Scalar, Scalar), AllocError>
    ensures operation { IfOk result (λ s. Stays types.now.rows (λ longer. s.0 ≡ binary.operation_type (known_with longer types.now []) op (typed_of longer x.now) (typed_of longer y.now))) }
    ensures right { IfOk result (λ s. Stays types.now.rows (λ longer. s.1 ≡ binary.right_type (known_with longer types.now []) op (typed_of longer x.now) (typed_of longer y.now))) }
    ensures shift { IfOk result (λ s. (s.1 ≡ s.0) ⊎ IsShift op) }
{
    let model = types.model();
    let left = scalar_in(types, x)?;
    let right = scalar_in(types, y)?;
    if is_shift(op) {
        Ok((promote(model, left), promote(model, right)))
    } else {
        let both = usual(model, left, right);
        Ok((both, both))
    }
}

// Relations give an `int`.
fn result_type(types: &mut Types, op: Op, s: Scalar) -> Result<TypeId, AllocError>
    ensures widens { Widens types.old types.new }
    ensures made { Makes types.new.rows result (λ longer. binary.result_type op s) }
{
    if is_comparison(op) {
        types.num(Scalar::Int)
    } else {
        types.num(s)
    }
}

/// The value of an operand in this type.
pub(super) fn operand(types: &mut Types, s: Scalar, x: Box<Typed>) -> Result<Box<Value>, AllocError>
    ensures widens { Widens types.old types.new }
    ensures made { IfOk result (λ v. Stays types.new.rows (λ longer. value_of longer v.value ≡ typing.converted_to (Num s) (typing.value_in (typed_in longer x)))) }
{
    let t = types.num(s)?;
    let value = value_in(types, x)?;
    let value = converted_to(types, t, value)?;
    Ok(value)
}

/// The operator on two integers.
pub(super) fn on_integers(
    types: &mut Types,
    op: Op,
    x: Box<Typed>,
    y: Box<Typed>,
) -> Result<Box<Typed>, AllocError>
    ensures widens { Widens types.old types.new }
    ensures made { IfOk result (λ it. Stays types.new.rows (λ longer. typed_in longer it ≡ binary.on_integers (known_with longer types.old []) op (typed_in longer x) (typed_in longer y))) }
{
    let alloc = types.alloc();
    let model = types.model();
    let (s, r) = operation_types(types, op, &x, &y)?;
    let constancy = operated(model, op, s, r, x.constancy, y.constancy);
    let erased = operated(model, op, s, r, x.erased, y.erased);
    let left = operand(types, s, x)?;
    let right = operand(types, r, y)?;
    let ty = result_type(types, op, s)?;
    let value = arithmetic(alloc, ty, op, s, left, right)?;
    let all = valued(alloc, value, constancy, erased)?;
    Ok(all)
}
