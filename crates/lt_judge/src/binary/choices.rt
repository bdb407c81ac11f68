// `&&` and `||`, C11 6.5.13 and 6.5.14, and `?:`, C11 6.5.15.

ghost use Rattle.std.specs.Prelude.{◌≡◌, ◌||◌, [], IfOk};
ghost use Rattle.lt_tree.specs.View as view;
ghost use Rattle.lt_tree.specs.Typing.Types as kinds;
ghost use Rattle.lt_tree.specs.Typing.TypeRows.{type_in};
ghost use Rattle.lt_tree.specs.Typing.Constants as constants;
ghost use Rattle.lt_tree.specs.Typing.TypedTree as e;
ghost use Rattle.lt_tree.specs.Typing.Operands as operands;
ghost use Rattle.lt_tree.specs.Typing.Operations as operations;
ghost use Rattle.lt_tree.specs.Typing.Expressions as typing;
ghost use Rattle.lt_tree.specs.Typing.BinaryOperations as binary;
ghost use Rattle.lt_model.specs.declared.scalar.Scalar.TheVariants as scalars;
ghost use Rattle.lt_model.specs.Conversions.{usual_of};
ghost use Rattle.lt_table.specs.TableRows.{Stays, Makes};
ghost use Rattle.lt_table.specs.TypesValue.{Widens};
ghost use Rattle.lt_env.specs.Views.{typed_of, typed_in};
ghost use Rattle.lt_judge.specs.Knowing.{known_with};

use crate::shared::{are_integers, converted_value, is_pointer};
use lt_env::Typed;
use lt_env::values::{constancy_to, scalar_in, target_in, value_in, valued};
use lt_model::{Quals, Scalar, usual};
use lt_table::{Types, chosen, connected, is_null_constant};
use lt_tree::LogicalOp;
use lt_tree::typed::TypeId;
use lt_tree::typed::makes::value;
use std::alloc::AllocError;

/// `x && y` and `x || y`.
pub(super) fn logical(
    types: &mut Types,
    op: LogicalOp,
    x: Box<Typed>,
    y: Box<Typed>,
) -> Result<Box<Typed>, AllocError>
    ensures widens { Widens types.old types.new }
    ensures made { IfOk result (λ it. Stays types.new.rows (λ longer. typed_in longer it ≡ typing.valued (e.Logical (kinds.Num scalars.Int) op (typing.value_in (typed_in longer x)) (typing.value_in (typed_in longer y))) (constants.connected (binary.settles op) (typed_in longer x).constancy (typed_in longer y).constancy) (constants.connected (binary.settles op) (typed_in longer x).erased (typed_in longer y).erased))) }
{
    let alloc = types.alloc();
    let constancy = connected(op, x.constancy, y.constancy);
    let erased = connected(op, x.erased, y.erased);
    let left = value_in(types, x)?;
    let right = value_in(types, y)?;
    let int = types.num(Scalar::Int)?;
    let value = value::logical(alloc, int, op, left, right)?;
    let all = valued(alloc, value, constancy, erased)?;
    Ok(all)
}

fn both(p: Quals, q: Quals) -> Quals
    ensures { view.qualifiers_of result ≡ kinds.both (view.qualifiers_of p) (view.qualifiers_of q) }
{
    Quals {
        constant: p.constant || q.constant,
        volatile: p.volatile || q.volatile,
    }
}

// The qualifiers of both.
fn both_qualifiers(types: &Types, t: TypeId, u: TypeId) -> Result<Quals, AllocError>
    ensures { IfOk result (λ quals. Stays types.now.rows (λ longer. view.qualifiers_of quals ≡ kinds.both (kinds.own_qualifiers (type_in longer t)) (kinds.own_qualifiers (type_in longer u)))) }
{
    let p = types.table().own_qualifiers(t).ok_or(AllocError)?;
    let q = types.table().own_qualifiers(u).ok_or(AllocError)?;
    Ok(both(p, q))
}

// A pointer to this target, with the qualifiers of both.
fn common_pointer(
    types: &mut Types,
    target: TypeId,
    t: TypeId,
    u: TypeId,
) -> Result<TypeId, AllocError>
    ensures widens { Widens types.old types.new }
    ensures made { Makes types.new.rows result (λ longer. binary.common_pointer (type_in longer target) (type_in longer t) (type_in longer u)) }
{
    let quals = both_qualifiers(types, t, u)?;
    let target = types.qualified(quals, target)?;
    let pointer = types.pointer(target)?;
    Ok(pointer)
}

// Two pointers to one type.
fn alike_pointer(types: &mut Types, x: &Typed, y: &Typed) -> Result<TypeId, AllocError>
    ensures widens { Widens types.old types.new }
    ensures made { Makes types.new.rows result (λ longer. binary.common_pointer (kinds.unqualified (operations.target_in (typed_of longer x.now))) (operations.target_in (typed_of longer x.now)) (operations.target_in (typed_of longer y.now))) }
{
    let t = target_in(types, x)?;
    let u = target_in(types, y)?;
    let target = types.unqualified(t)?;
    let pointer = common_pointer(types, target, t, u)?;
    Ok(pointer)
}

// Two pointers of which one points to `void`.
fn void_pointer(types: &mut Types, x: &Typed, y: &Typed) -> Result<TypeId, AllocError>
    ensures widens { Widens types.old types.new }
    ensures made { Makes types.new.rows result (λ longer. binary.common_pointer kinds.Void (operations.target_in (typed_of longer x.now)) (operations.target_in (typed_of longer y.now))) }
{
    let t = target_in(types, x)?;
    let u = target_in(types, y)?;
    let void = types.void()?;
    let pointer = common_pointer(types, void, t, u)?;
    Ok(pointer)
}

fn point_alike(types: &Types, x: &Typed, y: &Typed) -> Result<bool, AllocError>
    ensures { IfOk result (λ b. Stays types.now.rows (λ longer. b ≡ operands.point_alike (typing.own_type (typed_of longer x.now)) (typing.own_type (typed_of longer y.now)))) }
{
    let t = x.own_type();
    let u = y.own_type();
    match types.table().point_alike(t, u) {
        Some(alike) => Ok(alike),
        None => Err(AllocError),
    }
}

// Beside a pointer, a null pointer constant takes the type of the pointer.
fn gives_way(types: &Types, x: &Typed, other: &Typed) -> Result<bool, AllocError>
    ensures { IfOk result (λ b. Stays types.now.rows (λ longer. b ≡ binary.gives_way (typed_of longer x.now) (typed_of longer other.now))) }
{
    let beside = is_pointer(types, other)?;
    Ok(is_null_constant(x.constancy) && beside)
}

fn chosen_pointer(types: &mut Types, x: &Typed, y: &Typed) -> Result<TypeId, AllocError>
    ensures widens { Widens types.old types.new }
    ensures made { Makes types.new.rows result (λ longer. binary.chosen_pointer (typed_of longer x.now) (typed_of longer y.now)) }
{
    if point_alike(types, x, y)? {
        let pointer = alike_pointer(types, x, y)?;
        Ok(pointer)
    } else if gives_way(types, x, y)? {
        Ok(y.own_type())
    } else if gives_way(types, y, x)? {
        Ok(x.own_type())
    } else {
        let pointer = void_pointer(types, x, y)?;
        Ok(pointer)
    }
}

// Of two integers.
fn usual_type(types: &mut Types, x: &Typed, y: &Typed) -> Result<TypeId, AllocError>
    ensures widens { Widens types.old types.new }
    ensures made { Makes types.new.rows result (λ longer. kinds.Num (usual_of types.old.model (typing.scalar_in (typed_of longer x.now)) (typing.scalar_in (typed_of longer y.now)))) }
{
    let left = scalar_in(types, x)?;
    let right = scalar_in(types, y)?;
    let model = types.model();
    let ty = types.num(usual(model, left, right))?;
    Ok(ty)
}

fn is_one_pointer(types: &Types, x: &Typed, y: &Typed) -> Result<bool, AllocError>
    ensures { IfOk result (λ b. Stays types.now.rows (λ longer. b ≡ (kinds.is_pointer (typing.own_type (typed_of longer x.now)) || kinds.is_pointer (typing.own_type (typed_of longer y.now))))) }
{
    let left = is_pointer(types, x)?;
    let right = is_pointer(types, y)?;
    Ok(left || right)
}

// The type of a choice.
fn chosen_type(types: &mut Types, x: &Typed, y: &Typed) -> Result<TypeId, AllocError>
    ensures widens { Widens types.old types.new }
    ensures made { Makes types.new.rows result (λ longer. binary.chosen_type (known_with longer types.old []) (typed_of longer x.now) (typed_of longer y.now)) }
{
    if are_integers(types, x, y)? {
        let ty = usual_type(types, x, y)?;
        Ok(ty)
    } else if is_one_pointer(types, x, y)? {
        let ty = chosen_pointer(types, x, y)?;
        Ok(ty)
    } else {
        Ok(x.own_type())
    }
}

// `p ? x : y`, of this type.
fn conditional_of(
    types: &mut Types,
    t: TypeId,
    p: Box<Typed>,
    x: Box<Typed>,
    y: Box<Typed>,
) -> Result<Box<Typed>, AllocError>
    ensures widens { Widens types.old types.new }
    ensures made { IfOk result (λ it. Stays types.new.rows (λ longer. typed_in longer it ≡ typing.valued (e.Conditional (type_in longer t) (typing.value_in (typed_in longer p)) (typing.converted_to (type_in longer t) (typing.value_in (typed_in longer x))) (typing.converted_to (type_in longer t) (typing.value_in (typed_in longer y)))) (typing.constancy_to types.old.model (type_in longer t) (constants.chosen (typed_in longer p).constancy (typed_in longer x).constancy (typed_in longer y).constancy)) (typing.constancy_to types.old.model (type_in longer t) (constants.chosen (typed_in longer p).erased (typed_in longer x).erased (typed_in longer y).erased)))) }
{
    let alloc = types.alloc();
    let constancy = chosen(p.constancy, x.constancy, y.constancy);
    let erased = chosen(p.erased, x.erased, y.erased);
    let constancy = constancy_to(types, t, constancy)?;
    let erased = constancy_to(types, t, erased)?;
    let test = value_in(types, p)?;
    let left = converted_value(types, t, x)?;
    let right = converted_value(types, t, y)?;
    let value = value::conditional(alloc, t, test, left, right)?;
    let all = valued(alloc, value, constancy, erased)?;
    Ok(all)
}

/// `p ? x : y`.
pub(super) fn conditional(
    types: &mut Types,
    p: Box<Typed>,
    x: Box<Typed>,
    y: Box<Typed>,
) -> Result<Box<Typed>, AllocError>
    ensures widens { Widens types.old types.new }
    ensures made { IfOk result (λ it. Stays types.new.rows (λ longer. typed_in longer it ≡ (binary.judge_conditional (typed_in longer p) (typed_in longer x) (typed_in longer y) (known_with longer types.old [])).typed)) }
{
    let t = chosen_type(types, &x, &y)?;
    let all = conditional_of(types, t, p, x, y)?;
    Ok(all)
}
