// Operators on two and three operands, C11 6.5.5 to 6.5.17.
mod assignments;
mod choices;
mod commas;
mod faults;
mod integers;
mod pointers;

ghost use Rattle.std.specs.Prelude.{◌≡◌, if◌then◌else◌, [], IfOk};
ghost use Rattle.lt_tree.specs.Typing.Expressions as typing;
ghost use Rattle.lt_tree.specs.Typing.Operands as operands;
ghost use Rattle.lt_tree.specs.Typing.BinaryOperations as definitions;
ghost use Rattle.lt_tree.specs.Typing.BinaryOperations.{judge_binary, judge_logical, judge_conditional, judge_assignment, judge_comma};
ghost use Rattle.lt_table.specs.TableRows.{Stays};
ghost use Rattle.lt_table.specs.TypesValue.{Widens};
ghost use Rattle.lt_env.specs.Going.{Gives, answering};
ghost use Rattle.lt_judge.specs.Knowing.{known_with};
ghost use Rattle.lt_env.specs.Views.{typed_in, all_typed, judged_in};

use crate::shared::{are_integers, judgement};
use assignments::{assigned, assignment_faults, updated, updating_faults};
use choices::{conditional, logical};
use commas::comma_of;
use faults::{choice_faults, logical_faults, operand_faults};
use integers::on_integers;
use lt_env::values::varies;
use lt_env::{Faults, Judged, Objects, TypeStop, Typed, Walker};
use lt_model::Op;
use lt_table::Types;
use lt_tree::LogicalOp;
use pointers::on_pointers;
use std::alloc::AllocError;

// The operator, on integers or on operands of which one is a pointer.
fn on_operands(
    types: &mut Types,
    objects: &Objects,
    op: Op,
    x: Box<Typed>,
    y: Box<Typed>,
) -> Result<Box<Typed>, AllocError>
    ensures widens { Widens types.old types.new }
    ensures made { IfOk result (λ it. Stays types.new.rows (λ longer. typed_in longer it ≡ (if operands.are_integers (typing.own_type (typed_in longer x)) (typing.own_type (typed_in longer y)) then definitions.on_integers (known_with longer types.old []) op (typed_in longer x) (typed_in longer y) else definitions.on_pointers (known_with longer types.old objects.now) op (typed_in longer x) (typed_in longer y)))) }
{
    let integers = are_integers(types, &x, &y)?;
    if integers {
        let all = on_integers(types, op, x, y)?;
        Ok(all)
    } else {
        let all = on_pointers(types, objects, op, x, y)?;
        Ok(all)
    }
}

fn binary(
    types: &mut Types,
    objects: &Objects,
    op: Op,
    x: Box<Typed>,
    y: Box<Typed>,
) -> Result<Box<Judged>, AllocError>
    ensures widens { Widens types.old types.new }
    ensures made { IfOk result (λ judged. Stays types.new.rows (λ longer. judged_in longer judged ≡ judge_binary op (typed_in longer x) (typed_in longer y) (known_with longer types.old objects.now))) }
{
    let alloc = types.alloc();
    let faults = operand_faults(types, op, &x, &y)?;
    let typed = on_operands(types, objects, op, x, y)?;
    let judged = judgement(alloc, faults, typed)?;
    Ok(judged)
}

/// `x op y`.
pub fn judge_binary(
    walker: &mut Walker,
    op: Op,
    x: Box<Typed>,
    y: Box<Typed>,
) -> Result<Box<Judged>, TypeStop>
    ensures { Gives judged_in walker.old walker.new result (λ types. answering (λ known. judge_binary op (typed_in types x) (typed_in types y) known)) }
{
    let judged = binary(&mut walker.types, &walker.objects, op, x, y)?;
    Ok(judged)
}

/// `x && y` and `x || y`.
pub fn judge_logical(
    walker: &mut Walker,
    op: LogicalOp,
    x: Box<Typed>,
    y: Box<Typed>,
) -> Result<Box<Judged>, TypeStop>
    ensures { Gives judged_in walker.old walker.new result (λ types. answering (λ known. judge_logical op (typed_in types x) (typed_in types y))) }
{
    let alloc = walker.types.alloc();
    let faults = logical_faults(&walker.types, &x, &y)?;
    let typed = logical(&mut walker.types, op, x, y)?;
    let judged = judgement(alloc, faults, typed)?;
    Ok(judged)
}

/// `p ? x : y`.
pub fn judge_conditional(
    walker: &mut Walker,
    p: Box<Typed>,
    x: Box<Typed>,
    y: Box<Typed>,
) -> Result<Box<Judged>, TypeStop>
    ensures { Gives judged_in walker.old walker.new result (λ types. answering (λ known. judge_conditional (typed_in types p) (typed_in types x) (typed_in types y) known)) }
{
    let alloc = walker.types.alloc();
    let faults = choice_faults(&walker.types, &p, &x, &y)?;
    let typed = conditional(&mut walker.types, p, x, y)?;
    let judged = judgement(alloc, faults, typed)?;
    Ok(judged)
}

fn assign(types: &mut Types, x: Box<Typed>, y: Box<Typed>) -> Result<Box<Judged>, AllocError>
    ensures widens { Widens types.old types.new }
    ensures made { IfOk result (λ judged. Stays types.new.rows (λ longer. judged_in longer judged ≡ definitions.judge_assign (typed_in longer x) (typed_in longer y) (known_with longer types.old []))) }
{
    let alloc = types.alloc();
    let faults = assignment_faults(types, &x, &y)?;
    let typed = assigned(types, x, y)?;
    let judged = judgement(alloc, faults, typed)?;
    Ok(judged)
}

fn update(
    types: &mut Types,
    op: Op,
    x: Box<Typed>,
    y: Box<Typed>,
) -> Result<Box<Judged>, AllocError>
    ensures widens { Widens types.old types.new }
    ensures made { IfOk result (λ judged. Stays types.new.rows (λ longer. judged_in longer judged ≡ definitions.judge_update op (typed_in longer x) (typed_in longer y) (known_with longer types.old []))) }
{
    let alloc = types.alloc();
    let faults = updating_faults(types, op, &x, &y)?;
    let typed = updated(types, op, x, y)?;
    let judged = judgement(alloc, faults, typed)?;
    Ok(judged)
}

/// `x = y` and `x op= y`.
pub fn judge_assignment(
    walker: &mut Walker,
    op: Option<Op>,
    x: Box<Typed>,
    y: Box<Typed>,
) -> Result<Box<Judged>, TypeStop>
    ensures { Gives judged_in walker.old walker.new result (λ types. answering (λ known. judge_assignment op (typed_in types x) (typed_in types y) known)) }
{
    match op {
        None => {
            let judged = assign(&mut walker.types, x, y)?;
            Ok(judged)
        }
        Some(op) => {
            let judged = update(&mut walker.types, op, x, y)?;
            Ok(judged)
        }
    }
}

fn comma(types: &mut Types, xs: Vec<Box<Typed>>) -> Result<Box<Judged>, AllocError>
    ensures widens { Widens types.old types.new }
    ensures made { IfOk result (λ judged. Stays types.new.rows (λ longer. judged_in longer judged ≡ judge_comma (all_typed longer xs.items))) }
{
    let alloc = types.alloc();
    let void = types.void()?;
    let value = comma_of(types, void, xs)?;
    let typed = varies(alloc, value)?;
    let judged = judgement(alloc, Faults::new(alloc), typed)?;
    Ok(judged)
}

/// `x, y, ..`.
pub fn judge_comma(walker: &mut Walker, xs: Vec<Box<Typed>>) -> Result<Box<Judged>, TypeStop>
    ensures { Gives judged_in walker.old walker.new result (λ types. answering (λ known. judge_comma (all_typed types xs.items))) }
{
    let judged = comma(&mut walker.types, xs)?;
    Ok(judged)
}
