// Declarators, and expressions with type names, C11 6.5.3.4, 6.5.4 and 6.7.6.

ghost use Rattle.std.specs.Prelude.{◌≡◌, ◌++◌, false, true, map, Option, None, IfOk};
ghost use Rattle.lt_tree.specs.View.{expression_of};
ghost use Rattle.lt_tree.specs.Records.{specifiers_of, declarator_of, parts_in};
ghost use Rattle.lt_tree.specs.Tree as c;
ghost use Rattle.lt_tree.specs.Typing.TypeRows.{type_in};
ghost use Rattle.lt_tree.specs.Typing.Declarators as d;
ghost use Rattle.lt_tree.specs.Typing.NodeEnds.{also};
ghost use Rattle.lt_tree.specs.Typing.ExpressionTyping as typing;
ghost use Rattle.lt_tree.specs.Typing.Types.{CType};
ghost use Rattle.lt_env.specs.Going.{Gives};
ghost use Rattle.lt_type.specs.Found as found;
ghost use Rattle.lt_type.specs.Found.{part_of};
ghost use Rattle.lt_type.specs.Ends.{declarator_end, sizeof_type_end, cast_end, array_end};
ghost use Rattle.lt_env.specs.Views.{use_of, typed_in, judged_in};
ghost use Rattle.lt_declare.specs.DeclaredViews.{specified_of, setting_of, built_of, declares_of, judging_of};
ghost use Rattle.std.specs.Prelude.{List, option_map};

use crate::walk::expression;
use crate::walk::naming::{maybe, specifiers};
use crate::walk::parameters::block_of_parameters;
use crate::walk::shapes::{Shape, with_shapes};
use lt_declare::declarators::{end_of_declarator, enter_if, judged_faults, length_or_none};
use lt_declare::{Built, Declares, Judging, Setting, Specified};
use lt_env::{Faults, Judged, TypeStop, Typed, Use, Walker};
use lt_judge::{calls, unary};
use lt_model::Name;
use lt_tree::typed::TypeId;
use lt_tree::{Declarator, DeclaratorPart, Expr, TypeName};
use std::alloc::{AllocError, Global};

/// Goes over a declarator behind these specifiers; it may be that of a function with a body.
#[cycle(typing)]
pub fn declarator(
    walker: &mut Walker,
    d: &Declarator,
    it: &Specified,
    is_definition: bool,
    judging: Judging,
) -> Result<Declares, TypeStop>
    ensures { Gives declares_of walker.old walker.new result (λ types. typing.declarator (declarator_of d.now) (specified_of types it.now) is_definition (judging_of judging)) }
{
    let node = enter_if(walker, is_written(&d.name, d.parts.as_slice()))?;
    let b = parts(walker, d.parts.as_slice(), it.ty, is_definition)?;
    end_declarator(walker, node, &d.name, it, judging, b)
}

// A declarator is a node where it has a name or parts.
fn is_written(name: &Option<Name>, list: &[DeclaratorPart]) -> bool
    ensures { result ≡ d.is_written name.now (parts_in list.now) }
{
    match name {
        Some(_) => true,
        None => has_parts(list),
    }
}

fn has_parts(list: &[DeclaratorPart]) -> bool
    ensures { result ≡ d.is_written None (parts_in list.now) }
{
    match list.split_first() {
        None => false,
        Some((first, _)) => match first {
            DeclaratorPart::Pointer(_) | DeclaratorPart::Array(_) | DeclaratorPart::Function(_) =>
                true,
        },
    }
}

// A declarator ends.
fn end_declarator(
    walker: &mut Walker,
    node: Option<u32>,
    name: &Option<Name>,
    it: &Specified,
    judging: Judging,
    b: Built,
) -> Result<Declares, TypeStop>
    ensures { Gives declares_of walker.old walker.new result (λ types. declarator_end node name.now (specified_of types it.now) (judging_of judging) (built_of types b)) }
{
    let faults = judged_faults(walker, it, judging, name, &b)?;
    end_of_declarator(walker, node, name, b, faults)
}

// The parts of a declarator around a type, from the name outwards.
#[cycle(typing)]
fn parts(
    walker: &mut Walker,
    list: &[DeclaratorPart],
    t: TypeId,
    is_definition: bool,
) -> Result<Built, TypeStop>
    ensures { Gives built_of walker.old walker.new result (λ types. typing.parts (parts_in list.now) (type_in types t) is_definition true) }
{
    let shapes = shapes(walker, list, is_definition)?;
    with_shapes(walker, t, shapes)
}

#[cycle(typing)]
fn shapes(
    walker: &mut Walker,
    list: &[DeclaratorPart],
    is_definition: bool,
) -> Result<Vec<Shape>, TypeStop>
    ensures { Gives (λ types all. map (part_of types) all.items) walker.old walker.new result (λ types. found.parts list.now is_definition true) }
{
    let mut all = Vec::new(walker.types.alloc());
    let mut is_defined = is_definition;
    let mut is_outermost = true;
    'list: for part in list {
        all.push(shape(walker, part, is_defined, is_outermost)?)?;
        is_defined = false;
        is_outermost = false;
    }
    Ok(all)
}

#[cycle(typing)]
fn shape(
    walker: &mut Walker,
    part: &DeclaratorPart,
    is_definition: bool,
    is_outermost: bool,
) -> Result<Shape, TypeStop>
    ensures { Gives part_of walker.old walker.new result (λ types. found.part part.now is_definition is_outermost) }
{
    match part {
        DeclaratorPart::Pointer(quals) => Ok(Shape::Pointer(*quals)),
        DeclaratorPart::Array(length) => {
            let n = maybe(walker, length)?;
            end_array(walker, is_outermost, n)
        }
        DeclaratorPart::Function(list) => {
            let them = block_of_parameters(walker, list, is_definition)?;
            Ok(Shape::Function(them))
        }
    }
}

// An array part ends.
fn end_array(
    walker: &mut Walker,
    is_outermost: bool,
    n: Option<Box<Typed>>,
) -> Result<Shape, TypeStop>
    ensures { Gives part_of walker.old walker.new result (λ types. array_end is_outermost (option_map (typed_in types) n)) }
{
    let length = length_or_none(walker, is_outermost, n)?;
    Ok(Shape::Array(length))
}

// `sizeof (t)`
#[cycle(typing)]
pub fn size_of_type(walker: &mut Walker, name: &TypeName, role: Use) -> Result<Box<Typed>, TypeStop>
    ensures { Gives typed_in walker.old walker.new result (λ types. typing.expression (c.SizeofType (specifiers_of name.now.specifiers) (declarator_of name.now.declarator)) (use_of role)) }
{
    let node = walker.enter()?;
    let setting = setting_in_sizeof(&name.declarator);
    let it = specifiers(walker, &name.specifiers, setting)?;
    let t = declarator(walker, &name.declarator, &it, false, Judging::TypeName)?;
    end_size_of_type(walker, node, role, t)
}

// Where the type specifiers of a type name in `sizeof` stand.
fn setting_in_sizeof(m: &Declarator) -> Setting
    ensures { setting_of result ≡ d.setting_in_sizeof (declarator_of m.now) }
{
    if is_written(&m.name, m.parts.as_slice()) {
        Setting::Elsewhere
    } else {
        Setting::InSizeof
    }
}

// `sizeof` of a type ends.
fn end_size_of_type(
    walker: &mut Walker,
    node: u32,
    role: Use,
    t: Declares,
) -> Result<Box<Typed>, TypeStop>
    ensures { Gives typed_in walker.old walker.new result (λ types. sizeof_type_end node (use_of role) (declares_of types t)) }
{
    let judged = unary::judge_size(walker, t.ty)?;
    let with_faults = judged_with(walker.types.alloc(), t.faults, judged)?;
    walker.finish(node, role, with_faults)
}

// What is judged, with what a type name breaks.
fn judged_with(
    alloc: Global,
    faults: Faults,
    judged: Box<Judged>,
) -> Result<Box<Judged>, AllocError>
    ensures { IfOk result (λ all. (types : List CType) → judged_in types all ≡ also faults (judged_in types judged)) }
{
    let Judged {
        faults: others,
        typed,
    } = Box::into_inner(judged);
    let mut all = faults;
    all.append(others)?;
    Ok(Box::new(alloc, Judged { faults: all, typed })?)
}

// `(t)x`
#[cycle(typing)]
pub fn cast(
    walker: &mut Walker,
    name: &TypeName,
    operand: &Expr,
    role: Use,
) -> Result<Box<Typed>, TypeStop>
    ensures { Gives typed_in walker.old walker.new result (λ types. typing.expression (c.Cast (specifiers_of name.now.specifiers) (declarator_of name.now.declarator) (expression_of operand.now)) (use_of role)) }
{
    let node = walker.enter()?;
    let it = specifiers(walker, &name.specifiers, Setting::Elsewhere)?;
    let t = declarator(walker, &name.declarator, &it, false, Judging::TypeName)?;
    let x = expression(walker, operand, Use::Value)?;
    end_cast(walker, node, role, t, x)
}

// A cast ends.
fn end_cast(
    walker: &mut Walker,
    node: u32,
    role: Use,
    t: Declares,
    operand: Box<Typed>,
) -> Result<Box<Typed>, TypeStop>
    ensures { Gives typed_in walker.old walker.new result (λ types. cast_end node (use_of role) (declares_of types t) (typed_in types operand)) }
{
    let judged = calls::judge_cast(walker, t.ty, operand)?;
    let with_faults = judged_with(walker.types.alloc(), t.faults, judged)?;
    walker.finish(node, role, with_faults)
}
