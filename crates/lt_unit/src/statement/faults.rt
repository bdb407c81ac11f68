// The rules that statements break.

ghost use Rattle.std.specs.Prelude.{◌≡◌, ◌++◌, ◌∷◌, [], if◌then◌else◌, IfOk, option_map};
ghost use Rattle.lt_tree.specs.Typing.Types as types_of;
ghost use Rattle.lt_tree.specs.Typing.TypeRows.{type_in};
ghost use Rattle.lt_tree.specs.Typing.Rules as rules;
ghost use Rattle.lt_tree.specs.Typing.Expressions as expressions;
ghost use Rattle.lt_tree.specs.Typing.Operations as operations;
ghost use Rattle.lt_tree.specs.Typing.StatementTyping as typing;
ghost use Rattle.lt_table.specs.TableRows.{Stays};
ghost use Rattle.lt_env.specs.Views.{typed_of, typed_in};

use lt_model::Scalar;
use lt_table::Types;
use lt_tree::typed::{Rule, TypeId};
use lt_type::{Faults, Typed, fits, is_integer, is_scalar, only_unless};
use std::alloc::AllocError;

/// The integer type of an expression.
pub fn scalar_of(types: &Types, x: &Typed) -> Result<Option<Scalar>, AllocError>
    ensures { IfOk result (λ s. Stays types.now.rows (λ longer. s ≡ types_of.scalar_of (expressions.own_type (typed_of longer x.now)))) }
{
    types.table().scalar_of(x.own_type()).ok_or(AllocError)
}

/// Of what is tested.
pub fn test_faults(types: &Types, x: &Typed) -> Result<Faults, AllocError>
    ensures { IfOk result (λ faults. Stays types.now.rows (λ longer. faults ≡ typing.test_faults (typed_of longer x.now))) }
{
    let scalar = is_scalar(types, x)?;
    only_unless(types.alloc(), scalar, Rule::NotScalar)
}

/// Of what is tested, if it isn't left out.
fn optional_test_faults(types: &Types, x: &Option<Box<Typed>>) -> Result<Faults, AllocError>
    ensures { IfOk result (λ faults. Stays types.now.rows (λ longer. faults ≡ typing.optional_test_faults (option_map (typed_in longer) x.now))) }
{
    match x {
        None => Ok(Faults::new(types.alloc())),
        Some(x) => test_faults(types, x),
    }
}

/// Of the head of a `for`, behind those of its start.
pub fn for_faults(
    types: &Types,
    start: Faults,
    x: &Option<Box<Typed>>,
) -> Result<Faults, AllocError>
    ensures { IfOk result (λ faults. Stays types.now.rows (λ longer. faults ≡ start ++ typing.optional_test_faults (option_map (typed_in longer) x.now))) }
{
    let others = optional_test_faults(types, x)?;
    let mut all = start;
    all.append(others)?;
    Ok(all)
}

/// Of the operand of a `switch`.
pub fn switch_faults(types: &Types, x: &Typed) -> Result<Faults, AllocError>
    ensures { IfOk result (λ faults. Stays types.now.rows (λ longer. faults ≡ typing.test_faults (typed_of longer x.now) ++ rules.unless (types_of.is_integer (expressions.own_type (typed_of longer x.now))) rules.bad_case)) }
{
    let integer = is_integer(types, x)?;
    let mut all = test_faults(types, x)?;
    all.unless(integer, Rule::BadCase)?;
    Ok(all)
}

fn is_void(types: &Types, t: TypeId) -> Result<bool, AllocError>
    ensures { IfOk result (λ b. Stays types.now.rows (λ longer. b ≡ types_of.is_void (type_in longer t))) }
{
    types.table().is_void(t).ok_or(AllocError)
}

/// The type without its qualifiers.
pub fn unqualified(types: &Types, t: TypeId) -> Result<TypeId, AllocError>
    ensures { IfOk result (λ u. Stays types.now.rows (λ longer. type_in longer u ≡ types_of.unqualified (type_in longer t))) }
{
    types.table().unqualified(t).ok_or(AllocError)
}

// Whether a value fits the function's type.
fn can_be_returned(types: &Types, t: TypeId, x: &Typed) -> Result<bool, AllocError>
    ensures { IfOk result (λ b. Stays types.now.rows (λ longer. b ≡ operations.fits (types_of.unqualified (type_in longer t)) (typed_of longer x.now))) }
{
    let bare = unqualified(types, t)?;
    fits(types, bare, x)
}

// Of a value that is returned.
fn value_faults(types: &Types, t: TypeId, x: &Typed) -> Result<Faults, AllocError>
    ensures { IfOk result (λ faults. Stays types.now.rows (λ longer. faults ≡ if types_of.is_void (type_in longer t) then rules.bad_return ∷ [] else rules.unless (operations.fits (types_of.unqualified (type_in longer t)) (typed_of longer x.now)) rules.bad_assignment)) }
{
    let void = is_void(types, t)?;
    let fits = can_be_returned(types, t, x)?;
    if void {
        only_unless(types.alloc(), false, Rule::BadReturn)
    } else {
        only_unless(types.alloc(), fits, Rule::BadAssignment)
    }
}

/// Of `return` in a function that gives this type.
pub fn return_faults(types: &Types, t: TypeId, x: &Option<Box<Typed>>) -> Result<Faults, AllocError>
    ensures { IfOk result (λ faults. Stays types.now.rows (λ longer. faults ≡ typing.return_faults (type_in longer t) (option_map (typed_in longer) x.now))) }
{
    match x {
        None => {
            let void = is_void(types, t)?;
            only_unless(types.alloc(), void, Rule::BadReturn)
        }
        Some(x) => value_faults(types, t, x),
    }
}
