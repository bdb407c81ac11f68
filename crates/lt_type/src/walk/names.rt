// Names, constants and string literals, C11 6.5.1.

ghost use Rattle.std.specs.Prelude.{◌≡◌, if◌then◌else◌, List, IfOk};
ghost use Rattle.lt_tree.specs.Tree as c;
ghost use Rattle.lt_tree.specs.Typing.ExpressionTyping as typing;
ghost use Rattle.lt_tree.specs.Typing.NodeEnds.{text_object};
ghost use Rattle.lt_tree.specs.Typing.EntityView.{object_of, life_of};
ghost use Rattle.lt_tree.specs.Typing.Entities.{literal, unmade};
ghost use Rattle.lt_tree.specs.Typing.Types.{CType};
ghost use Rattle.lt_tree.specs.Typing.TypeRows.{type_in};
ghost use Rattle.lt_env.specs.Going.{Gives, answering, itself};
ghost use Rattle.lt_type.specs.Ends.{letters_of, text_number, text_end};
ghost use Rattle.lt_env.specs.Views.{typed_in, use_of};

use lt_env::{TypeStop, Typed, Use, Walker};
use lt_judge::names::{judge_constant, judge_name, judge_text, text_type};
use lt_model::{Name, Scalar};
use lt_tree::typed::{Life, Object, Start, StartPart, TypeId};
use std::alloc::{AllocError, Global};

/// A name.
pub fn name(walker: &mut Walker, name: &[u8], role: Use) -> Result<Box<Typed>, TypeStop>
    ensures { Gives typed_in walker.old walker.new result (λ types. typing.expression (c.Name name.now) (use_of role)) }
{
    let node = walker.enter()?;
    let judged = judge_name(walker, role, name)?;
    walker.finish(node, role, judged)
}

/// An integer or character constant, as written.
pub fn constant(walker: &mut Walker, text: &[u8], role: Use) -> Result<Box<Typed>, TypeStop>
    ensures { Gives typed_in walker.old walker.new result (λ types. typing.expression (c.Constant text.now) (use_of role)) }
{
    let node = walker.enter()?;
    let judged = judge_constant(walker, text)?;
    walker.finish(node, role, judged)
}

// A string literal is made unless it stands in `sizeof`.
fn life_of_text(is_unmarked: bool) -> Life
    ensures { life_of result ≡ (if is_unmarked then unmade else literal) }
{
    if is_unmarked {
        Life::Unmade
    } else {
        Life::Literal
    }
}

// An object that starts as these bytes.
fn object_with(
    alloc: Global,
    node: u32,
    ty: TypeId,
    life: Life,
    bytes: &[u8],
) -> Result<Object, AllocError>
    ensures { IfOk result (λ object. (types : List CType) → object_of types object ≡ letters_of node (type_in types ty) (life_of life) bytes.now) }
{
    let mut parts = Vec::new(alloc);
    parts.push(StartPart::Letters {
        offset: 0,
        ty: Scalar::Char,
        bytes: Name::new(alloc, bytes)?,
    })?;
    Ok(Object {
        node,
        name: Name::new(alloc, &[])?,
        ty,
        life,
        start: Some(Start {
            zeroed: true,
            parts,
        }),
    })
}

// The object of a string literal.
fn object_of_text(walker: &mut Walker, node: u32, bytes: &[u8]) -> Result<Object, TypeStop>
    ensures { Gives object_of walker.old walker.new result (λ types. answering (λ known. text_object node known bytes.now)) }
{
    let ty = text_type(&mut walker.types, bytes)?;
    let alloc = walker.types.alloc();
    let life = life_of_text(walker.is_unmarked);
    let object = object_with(alloc, node, ty, life, bytes)?;
    Ok(object)
}

// The number of the object of a string literal.
fn text_number(walker: &mut Walker, node: u32, bytes: &[u8]) -> Result<u32, TypeStop>
    ensures { Gives itself walker.old walker.new result (λ types. text_number node bytes.now) }
{
    let object = object_of_text(walker, node, bytes)?;
    walker.add_object(object)
}

// A string literal ends.
fn end_text(
    walker: &mut Walker,
    node: u32,
    role: Use,
    bytes: &[u8],
    number: u32,
) -> Result<Box<Typed>, TypeStop>
    ensures { Gives typed_in walker.old walker.new result (λ types. text_end node (use_of role) bytes.now number) }
{
    let judged = judge_text(walker, bytes, number)?;
    walker.finish(node, role, judged)
}

/// A string literal.
pub fn text(walker: &mut Walker, bytes: &[u8], role: Use) -> Result<Box<Typed>, TypeStop>
    ensures { Gives typed_in walker.old walker.new result (λ types. typing.expression (c.Text bytes.now) (use_of role)) }
{
    let node = walker.enter()?;
    let number = text_number(walker, node, bytes)?;
    end_text(walker, node, role, bytes, number)
}
