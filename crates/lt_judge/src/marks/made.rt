// Marks with their predicates and the names that they bind.

ghost use Rattle.std.specs.Prelude.{◌≡◌, List, IfOk};
ghost use Rattle.lt_tree.specs.View.{expression_of};
ghost use Rattle.lt_tree.specs.Typing.Types.{CType};
ghost use Rattle.lt_tree.specs.Typing.ValueView as view;
ghost use Rattle.lt_tree.specs.Typing.TypedTree as e;
ghost use Rattle.lt_tree.specs.Typing.Steps as steps;
ghost use Rattle.lt_tree.specs.Typing.Expressions as typing;
ghost use Rattle.lt_tree.specs.Typing.MarkRules as marks;
ghost use Rattle.lt_table.specs.TableRows.{Stays};
ghost use Rattle.lt_table.specs.TypesValue.{Widens};
ghost use Rattle.lt_env.specs.Going.{Gives, done, known_of};
ghost use Rattle.lt_judge.specs.MarkEnds.{mark_settles};
ghost use Rattle.lt_env.specs.Views.{typed_of, typed_in, bindings_with};

use crate::marks::asked::are_all;
use crate::marks::bindings::{are_good_bindings, are_new_names, bindings_of, names_of};
use crate::marks::ids::{is_good_id, label};
use crate::shared::{is_scalar, only_unless};
use lt_env::values::value_in;
use lt_env::{TypeStop, Typed, Walker};
use lt_table::{Types, is_tag};
use lt_tree::typed::makes::statement::mark;
use lt_tree::typed::{Mark, Rule};
use lt_tree::{Binding, Expr, is_pure};
use std::alloc::AllocError;

// Whether no mark before binds one of these names, and each stands once.
fn are_new(walker: &Walker, bound: &[Binding], values: &[Box<Typed>]) -> Result<bool, AllocError>
    ensures { IfOk result (λ b. (types : List CType) → b ≡ marks.are_new_names (known_of types walker.now) (marks.names_of (bindings_with types bound.now values.now))) }
{
    let names = names_of(walker.types.alloc(), bound, values)?;
    let new = are_new_names(walker, names.as_slice())?;
    Ok(new)
}

// Whether a mark with this predicate may stand here.
fn is_good_mark(
    walker: &Walker,
    written: &Expr,
    x: &Typed,
    id: &[u8],
    tag: &[u8],
    bound: &[Binding],
    values: &[Box<Typed>],
) -> Result<bool, AllocError>
    ensures { IfOk result (λ b. Stays walker.now.types.rows (λ longer. b ≡ marks.is_good_mark (known_of longer walker.now) (expression_of written.now) (typed_of longer x.now) id.now tag.now (bindings_with longer bound.now values.now))) }
{
    let scalar = is_scalar(&walker.types, x)?;
    let pure = is_pure(written);
    let good = is_good_id(walker, id);
    let tagged = is_tag(tag);
    let bindings = are_good_bindings(&walker.types, bound, values)?;
    let new = are_new(walker, bound, values)?;
    let predicate = are_all(!walker.is_unmarked, scalar, pure, good);
    Ok(are_all(predicate, tagged, bindings, new))
}

/// Judges a mark at its node.
pub(super) fn settle_mark(
    walker: &mut Walker,
    node: u32,
    written: &Expr,
    x: &Typed,
    id: &[u8],
    tag: &[u8],
    bound: &[Binding],
    values: &[Box<Typed>],
) -> Result<(), TypeStop>
    ensures { Gives done walker.old walker.new result (λ types. mark_settles node (expression_of written.now) (typed_of types x.now) id.now tag.now (bindings_with types bound.now values.now)) }
{
    let good = is_good_mark(walker, written, x, id, tag, bound, values)?;
    let faults = only_unless(walker.types.alloc(), good, Rule::BadMark)?;
    walker.settle(node, &faults)?;
    Ok(())
}

/// Adds the label of a mark.
pub(super) fn add_mark_label(
    walker: &mut Walker,
    id: &[u8],
    tag: &[u8],
    bound: &[Binding],
    values: &[Box<Typed>],
) -> Result<(), TypeStop>
    ensures { Gives done walker.old walker.new result (λ types. steps.adds_label (marks.label_of id.now tag.now (marks.names_of (bindings_with types bound.now values.now)))) }
{
    let alloc = walker.types.alloc();
    let names = names_of(alloc, bound, values)?;
    let label = label(alloc, id, tag, names)?;
    walker.add_label(label)?;
    Ok(())
}

/// A mark of these parts.
pub(super) fn mark_of(
    types: &mut Types,
    x: Box<Typed>,
    id: u32,
    bound: &[Binding],
    values: Vec<Box<Typed>>,
) -> Result<Box<Mark>, AllocError>
    ensures widens { Widens types.old types.new }
    ensures made { IfOk result (λ m. Stays types.new.rows (λ longer. view.mark_of longer m.value ≡ e.mark (typing.value_in (typed_in longer x)) id (marks.bindings_of (bindings_with longer bound.now values.items)))) }
{
    let alloc = types.alloc();
    let predicate = value_in(types, x)?;
    let made = bindings_of(types, bound, values)?;
    let mark = mark(predicate, id, made);
    Ok(Box::new(alloc, mark)?)
}
