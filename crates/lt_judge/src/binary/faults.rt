// Which operands the operators take.

ghost use Rattle.std.specs.Prelude.{◌≡◌, ◌&&◌, ◌++◌, IfOk};
ghost use Rattle.lt_tree.specs.Typing.Types as kinds;
ghost use Rattle.lt_tree.specs.Typing.TypeRows.{type_in};
ghost use Rattle.lt_tree.specs.Typing.Rules as rules;
ghost use Rattle.lt_tree.specs.Typing.Operands as operands;
ghost use Rattle.lt_tree.specs.Typing.Expressions as typing;
ghost use Rattle.lt_tree.specs.Typing.BinaryOperations as binary;
ghost use Rattle.lt_table.specs.TableRows.{Stays};
ghost use Rattle.lt_table.specs.TypesValue.{structs_at};
ghost use Rattle.lt_env.specs.Views.{typed_of};

use crate::shared::{are_integers, is_scalar, only_unless};
use lt_env::{Faults, Typed};
use lt_model::Op;
use lt_table::Types;
use lt_tree::typed::{Rule, TypeId};
use std::alloc::AllocError;

// `+`
fn sum_faults(types: &Types, x: &Typed, y: &Typed) -> Result<Faults, AllocError>
    ensures { IfOk result (λ faults. Stays types.now.rows (λ longer. faults ≡ rules.unless (operands.can_be_added (structs_at longer types.now) (typing.own_type (typed_of longer x.now)) (typing.own_type (typed_of longer y.now))) rules.bad_sum)) }
{
    let t = x.own_type();
    let u = y.own_type();
    match types.can_be_added(t, u) {
        Some(holds) => {
            let faults = only_unless(types.alloc(), holds, Rule::BadSum)?;
            Ok(faults)
        }
        None => Err(AllocError),
    }
}

// `-`
fn difference_faults(types: &Types, x: &Typed, y: &Typed) -> Result<Faults, AllocError>
    ensures { IfOk result (λ faults. Stays types.now.rows (λ longer. faults ≡ rules.unless (operands.can_be_subtracted (structs_at longer types.now) (typing.own_type (typed_of longer x.now)) (typing.own_type (typed_of longer y.now))) rules.bad_sum)) }
{
    let t = x.own_type();
    let u = y.own_type();
    match types.can_be_subtracted(t, u) {
        Some(holds) => {
            let faults = only_unless(types.alloc(), holds, Rule::BadSum)?;
            Ok(faults)
        }
        None => Err(AllocError),
    }
}

// `<`, `<=`, `>` and `>=`
fn order_faults(types: &Types, x: &Typed, y: &Typed) -> Result<Faults, AllocError>
    ensures { IfOk result (λ faults. Stays types.now.rows (λ longer. faults ≡ rules.unless (operands.can_be_ordered (typing.own_type (typed_of longer x.now)) (typing.own_type (typed_of longer y.now))) rules.bad_comparison)) }
{
    let t = x.own_type();
    let u = y.own_type();
    match types.table().can_be_ordered(t, u) {
        Some(holds) => {
            let faults = only_unless(types.alloc(), holds, Rule::BadComparison)?;
            Ok(faults)
        }
        None => Err(AllocError),
    }
}

// `==` and `!=`
fn equality_faults(types: &Types, x: &Typed, y: &Typed) -> Result<Faults, AllocError>
    ensures { IfOk result (λ faults. Stays types.now.rows (λ longer. faults ≡ rules.unless (operands.can_be_compared (typing.own_type (typed_of longer x.now)) (typed_of longer x.now).constancy (typing.own_type (typed_of longer y.now)) (typed_of longer y.now).constancy) rules.bad_comparison)) }
{
    let t = x.own_type();
    let u = y.own_type();
    match types
        .table()
        .can_be_compared(t, x.constancy, u, y.constancy)
    {
        Some(holds) => {
            let faults = only_unless(types.alloc(), holds, Rule::BadComparison)?;
            Ok(faults)
        }
        None => Err(AllocError),
    }
}

// The other operators.
fn integer_faults(types: &Types, x: &Typed, y: &Typed) -> Result<Faults, AllocError>
    ensures { IfOk result (λ faults. Stays types.now.rows (λ longer. faults ≡ rules.unless (operands.are_integers (typing.own_type (typed_of longer x.now)) (typing.own_type (typed_of longer y.now))) rules.operand_not_integer)) }
{
    let holds = are_integers(types, x, y)?;
    let faults = only_unless(types.alloc(), holds, Rule::OperandNotInteger)?;
    Ok(faults)
}

/// The rules that the operands of `x op y` break.
pub(super) fn operand_faults(
    types: &Types,
    op: Op,
    x: &Typed,
    y: &Typed,
) -> Result<Faults, AllocError>
    ensures { IfOk result (λ faults. Stays types.now.rows (λ longer. faults ≡ binary.operand_faults (structs_at longer types.now) op (typed_of longer x.now) (typed_of longer y.now))) }
{
    match op {
        Op::Add => sum_faults(types, x, y),
        Op::Sub => difference_faults(types, x, y),
        Op::Lt | Op::Le | Op::Gt | Op::Ge => order_faults(types, x, y),
        Op::Eq | Op::Ne => equality_faults(types, x, y),
        _ => integer_faults(types, x, y),
    }
}

/// The rules that the operands of `x && y` and `x || y` break.
pub(super) fn logical_faults(types: &Types, x: &Typed, y: &Typed) -> Result<Faults, AllocError>
    ensures { IfOk result (λ faults. Stays types.now.rows (λ longer. faults ≡ rules.unless (kinds.is_scalar (typing.own_type (typed_of longer x.now)) && kinds.is_scalar (typing.own_type (typed_of longer y.now))) rules.not_scalar)) }
{
    let left = is_scalar(types, x)?;
    let right = is_scalar(types, y)?;
    let faults = only_unless(types.alloc(), left && right, Rule::NotScalar)?;
    Ok(faults)
}

fn can_be_chosen_from(types: &Types, x: &Typed, y: &Typed) -> Result<bool, AllocError>
    ensures { IfOk result (λ b. Stays types.now.rows (λ longer. b ≡ operands.can_be_chosen_from (typing.own_type (typed_of longer x.now)) (typed_of longer x.now).constancy (typing.own_type (typed_of longer y.now)) (typed_of longer y.now).constancy)) }
{
    let t = x.own_type();
    let u = y.own_type();
    match types
        .table()
        .can_be_chosen_from(t, x.constancy, u, y.constancy)
    {
        Some(holds) => Ok(holds),
        None => Err(AllocError),
    }
}

/// The rules that the operands of `p ? x : y` break.
pub(super) fn choice_faults(
    types: &Types,
    p: &Typed,
    x: &Typed,
    y: &Typed,
) -> Result<Faults, AllocError>
    ensures { IfOk result (λ faults. Stays types.now.rows (λ longer. faults ≡ rules.unless (kinds.is_scalar (typing.own_type (typed_of longer p.now))) rules.not_scalar ++ rules.unless (operands.can_be_chosen_from (typing.own_type (typed_of longer x.now)) (typed_of longer x.now).constancy (typing.own_type (typed_of longer y.now)) (typed_of longer y.now).constancy) rules.bad_choice)) }
{
    let scalar = is_scalar(types, p)?;
    let chosen = can_be_chosen_from(types, x, y)?;
    let mut faults = Faults::new(types.alloc());
    faults.unless(scalar, Rule::NotScalar)?;
    faults.unless(chosen, Rule::BadChoice)?;
    Ok(faults)
}

// `x += y` and `x -= y`
fn change_faults(types: &Types, t: TypeId, u: TypeId) -> Result<Faults, AllocError>
    ensures { IfOk result (λ faults. Stays types.now.rows (λ longer. faults ≡ rules.unless (operands.can_be_changed_by (structs_at longer types.now) (type_in longer t) (type_in longer u)) rules.bad_sum)) }
{
    match types.can_be_changed_by(t, u) {
        Some(holds) => {
            let faults = only_unless(types.alloc(), holds, Rule::BadSum)?;
            Ok(faults)
        }
        None => Err(AllocError),
    }
}

/// The rules that the operands of `x op= y` break, whose types as values these are.
pub(super) fn update_faults(
    types: &Types,
    op: Op,
    t: TypeId,
    u: TypeId,
) -> Result<Faults, AllocError>
    ensures { IfOk result (λ faults. Stays types.now.rows (λ longer. faults ≡ binary.update_faults (structs_at longer types.now) op (type_in longer t) (type_in longer u))) }
{
    match op {
        Op::Add | Op::Sub => change_faults(types, t, u),
        _ => match types.table().are_integers(t, u) {
            Some(holds) => {
                let faults = only_unless(types.alloc(), holds, Rule::OperandNotInteger)?;
                Ok(faults)
            }
            None => Err(AllocError),
        },
    }
}
