// Expressions whose values marks ask.

ghost use Rattle.std.specs.Prelude.{◌≡◌, ◌&&◌, not, List, IfOk};
ghost use Rattle.lt_tree.specs.Typing.Types.{CType, Num};
ghost use Rattle.lt_tree.specs.Typing.ValueView.{marks_in};
ghost use Rattle.lt_tree.specs.Typing.Constants as constants;
ghost use Rattle.lt_tree.specs.Typing.TypedTree as e;
ghost use Rattle.lt_tree.specs.Typing.Expressions as typing;
ghost use Rattle.lt_tree.specs.Typing.MarkRules as marks;
ghost use Rattle.lt_model.specs.declared.scalar.Scalar.TheVariants as scalars;
ghost use Rattle.lt_table.specs.TableRows.{Stays};
ghost use Rattle.lt_table.specs.TypesValue.{Widens};
ghost use Rattle.lt_env.specs.Going.{known_of};
ghost use Rattle.lt_env.specs.Views.{use_of, typed_of, typed_in};

use crate::marks::ids::{is_good_id, number_of_id};
use crate::shared::is_scalar;
use lt_env::values::{as_it_is_read, value_in, valued};
use lt_env::{Form, Typed, Use, Walker};
use lt_model::Scalar;
use lt_table::{Types, is_tag};
use lt_tree::typed::makes::value;
use lt_tree::typed::{Constancy, Mark};
use std::alloc::AllocError;

/// Whether each holds.
pub(super) fn are_all(first: bool, second: bool, third: bool, fourth: bool) -> bool
    ensures { result ≡ (first && second && third && fourth) }
{
    first && second && third && fourth
}

fn is_truth(role: Use) -> bool
    ensures { result ≡ marks.is_truth (use_of role) }
{
    matches!(role, Use::Truth)
}

/// Whether a `pc_decide` may stand here.
pub(super) fn is_good_decision(
    walker: &Walker,
    role: Use,
    x: &Typed,
    when_true: &[u8],
    when_false: &[u8],
    tag: &[u8],
) -> Result<bool, AllocError>
    ensures { IfOk result (λ b. Stays walker.now.types.rows (λ longer. b ≡ marks.is_good_decision (use_of role) (known_of longer walker.now) (typed_of longer x.now) when_true.now when_false.now tag.now)) }
{
    let truth = is_truth(role);
    let scalar = is_scalar(&walker.types, x)?;
    let first = is_good_id(walker, when_true);
    let second = is_good_id(walker, when_false);
    let differ = number_of_id(when_true) != number_of_id(when_false);
    let tagged = is_tag(tag);
    let here = are_all(truth, !walker.is_unmarked, scalar, first);
    Ok(are_all(here, second, differ, tagged))
}

/// `pc_decide(x, ..)`
pub(super) fn decided(
    types: &mut Types,
    x: Box<Typed>,
    when_true: u32,
    when_false: u32,
) -> Result<Box<Typed>, AllocError>
    ensures widens { Widens types.old types.new }
    ensures made { IfOk result (λ it. Stays types.new.rows (λ longer. typed_in longer it ≡ typing.valued (e.Decide (Num scalars.Int) (typing.value_in (typed_in longer x)) when_true when_false) constants.varying (typed_in longer x).erased)) }
{
    let alloc = types.alloc();
    let erased = x.erased;
    let value = value_in(types, x)?;
    let int = types.num(Scalar::Int)?;
    let value = value::decide(alloc, int, value, when_true, when_false)?;
    let all = valued(alloc, value, Constancy::Varying, erased)?;
    Ok(all)
}

fn is_lvalue_in_use(role: Use, x: &Typed) -> bool
    ensures { (types : List CType) → result ≡ marks.is_lvalue_in_use (use_of role) (typed_of types x.now) }
{
    match role {
        Use::Place => x.is_lvalue(),
        Use::Value | Use::Truth | Use::Callee => false,
    }
}

/// Whether a `pc_after` may stand here.
pub(super) fn is_good_after(walker: &Walker, role: Use, x: &Typed, id: &[u8], tag: &[u8]) -> bool
    ensures { (types : List CType) → result ≡ (not (marks.is_lvalue_in_use (use_of role) (typed_of types x.now)) && not walker.now.is_unmarked && marks.is_good_id (known_of types walker.now) id.now && marks.is_tag tag.now) }
{
    let lvalue = is_lvalue_in_use(role, x);
    let good = is_good_id(walker, id);
    let tagged = is_tag(tag);
    are_all(!lvalue, !walker.is_unmarked, good, tagged)
}

// `pc_after` of an expression that is read.
fn after_of(types: &mut Types, x: Box<Typed>, id: u32) -> Result<Box<Typed>, AllocError>
    ensures widens { Widens types.old types.new }
    ensures made { IfOk result (λ it. Stays types.new.rows (λ longer. typed_in longer it ≡ marks.after_of (typed_in longer x) id)) }
{
    let alloc = types.alloc();
    let ty = x.own_type();
    let is_register = x.is_register;
    let erased = x.erased;
    let value = value_in(types, x)?;
    let value = value::after(alloc, ty, value, id)?;
    Ok(Box::new(
        alloc,
        Typed {
            form: Form::Value(value),
            is_register,
            is_after: true,
            constancy: Constancy::Varying,
            erased,
        },
    )?)
}

/// `pc_after(x, ..)`
pub(super) fn read_before(
    types: &mut Types,
    x: Box<Typed>,
    id: u32,
) -> Result<Box<Typed>, AllocError>
    ensures widens { Widens types.old types.new }
    ensures made { IfOk result (λ it. Stays types.new.rows (λ longer. typed_in longer it ≡ marks.after_of (typing.as_it_is_read (typed_in longer x)) id)) }
{
    let read = as_it_is_read(types, x)?;
    let all = after_of(types, read, id)?;
    Ok(all)
}

/// An expression behind marks.
pub(super) fn marked(
    types: &mut Types,
    list: Vec<Mark>,
    x: Box<Typed>,
) -> Result<Box<Typed>, AllocError>
    ensures widens { Widens types.old types.new }
    ensures made { IfOk result (λ it. Stays types.new.rows (λ longer. typed_in longer it ≡ marks.behind_marks (marks_in longer list.items) (typed_in longer x))) }
{
    let alloc = types.alloc();
    let ty = x.own_type();
    let is_register = x.is_register;
    let erased = x.erased;
    let value = value_in(types, x)?;
    let value = value::marked(alloc, ty, list, value)?;
    Ok(Box::new(
        alloc,
        Typed {
            form: Form::Value(value),
            is_register,
            is_after: false,
            constancy: Constancy::Varying,
            erased,
        },
    )?)
}
