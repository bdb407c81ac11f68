// What declarators declare, C11 6.2.2, 6.7 and 6.9.

ghost use Rattle.std.specs.Prelude.{◌≡◌, List, Option, Some, None, option_map, slice_get, if◌then◌else◌};
ghost use Rattle.lt_model.specs.Layout.{then_some};
ghost use Rattle.lt_tree.specs.Typing.Types.{CType};
ghost use Rattle.lt_tree.specs.Typing.TypeRows.{type_in};
ghost use Rattle.lt_tree.specs.Typing.StatementView.{start_of};
ghost use Rattle.lt_tree.specs.Typing.EntityView.{life_of, object_of, function_of};
ghost use Rattle.lt_tree.specs.Typing.Entities as entities;
ghost use Rattle.lt_tree.specs.Typing.Steps as steps;
ghost use Rattle.lt_tree.specs.Typing.Declaring as typing;
ghost use Rattle.lt_env.specs.Going.{Gives, answering, itself, done};
ghost use Rattle.lt_declare.specs.DeclaredKinds.{kind_in};
ghost use Rattle.lt_unit.specs.UnitViews.{adds_function};

use lt_model::Name;
use lt_tree::Storage;
use lt_tree::typed::{Entity, Function, Life, Object, Start, TypeId};
use lt_type::{DeclaredKind, Objects, TypeStop, Walker, kind_of};

/// What a declarator of this type declares behind this storage class.
pub fn kind(
    walker: &mut Walker,
    class: Option<Storage>,
    t: TypeId,
) -> Result<DeclaredKind, TypeStop>
    ensures { Gives (λ types kind. kind_in kind) walker.old walker.new result (λ types. answering (λ known. typing.kind_of known class (type_in types t))) }
{
    match kind_of(walker, class, t) {
        Some(kind) => Ok(kind),
        None => Err(TypeStop::NoMemory),
    }
}

/// A function is declared, and its name is in scope.
pub fn declare_function(walker: &mut Walker, name: &[u8], t: TypeId) -> Result<(), TypeStop>
    ensures { Gives done walker.old walker.new result (λ types. typing.declare_function name.now (type_in types t)) }
{
    walker.declared.declare(name, t)?;
    walker.bind(name, Entity::Function)
}

/// An object is declared, and its name is in scope: its number. A linked object is the one that is there already.
pub fn declare_object(
    walker: &mut Walker,
    life: Life,
    is_register: bool,
    node: u32,
    name: &[u8],
    t: TypeId,
) -> Result<u32, TypeStop>
    ensures { Gives itself walker.old walker.new result (λ types. typing.declare_object (life_of life) is_register node name.now (type_in types t)) }
{
    let number = object_for(walker, life, node, name, t)?;
    let entity = Entity::Object {
        number,
        is_register,
    };
    walker.bind(name, entity)?;
    Ok(number)
}

// The object of a declaration: one that is linked and there already, or another.
fn object_for(
    walker: &mut Walker,
    life: Life,
    node: u32,
    name: &[u8],
    t: TypeId,
) -> Result<u32, TypeStop>
    ensures { Gives itself walker.old walker.new result (λ types known. typing.object_for (life_of life) node name.now (type_in types t) (entities.linked_object name.now known) known) }
{
    let found = walker.objects.linked(name);
    match shared(life, found) {
        Some(number) => Ok(number),
        None => new_object(walker, life, node, name, t),
    }
}

// The object of the same name, if both are linked.
fn shared(life: Life, found: Option<u32>) -> Option<u32>
    ensures { result ≡ (if entities.is_linked (life_of life) then found else None) }
{
    match life {
        Life::Linked => found,
        _ => None,
    }
}

fn new_object(
    walker: &mut Walker,
    life: Life,
    node: u32,
    name: &[u8],
    t: TypeId,
) -> Result<u32, TypeStop>
    ensures { Gives itself walker.old walker.new result (λ types. typing.new_object (life_of life) node name.now (type_in types t)) }
{
    let name = Name::new(walker.types.alloc(), name)?;
    let object = Object {
        node,
        name,
        ty: t,
        life,
        start: None,
    };
    walker.add_object(object)
}

/// An object has this type and starts so.
pub fn start_object(
    walker: &mut Walker,
    number: u32,
    start: Option<Start>,
    t: TypeId,
) -> Result<(), TypeStop>
    ensures { Gives done walker.old walker.new result (λ types. steps.changes (typing.with_start number (option_map (start_of types) start) (type_in types t))) }
{
    walker.objects.start(number, t, start);
    Ok(())
}

/// One more function with its body.
pub fn add_function(walker: &mut Walker, function: Function) -> Result<(), TypeStop>
    ensures { Gives done walker.old walker.new result (λ types. adds_function (function_of types function)) }
{
    walker.functions.add(function)?;
    Ok(())
}

/// The type of an object.
pub fn type_of_object(walker: &mut Walker, number: u32) -> Result<TypeId, TypeStop>
    ensures { Gives type_in walker.old walker.new result (λ types. answering (λ known. entities.type_of_object known number)) }
{
    match declared_type(&walker.objects, number) {
        Some(t) => Ok(t),
        None => Ok(walker.types.void()?),
    }
}

fn declared_type(objects: &Objects, number: u32) -> Option<TypeId>
    ensures { result ≡ then_some (slice_get objects.now number) (λ object. Some object.ty) }
{
    Some(objects.get(number)?.ty)
}

/// Whether an object with this life is there from the start.
pub fn is_static(life: Life) -> bool
    ensures { result ≡ entities.is_static (life_of life) }
{
    matches!(life, Life::Linked | Life::LocalStatic | Life::Literal)
}
