// Parameters of functions, C11 6.7.6.3.

ghost use Rattle.std.specs.Prelude.{◌≡◌, ◌∷◌, [], List, Some, None, IfOk, if◌then◌else◌};
ghost use Rattle.lt_tree.specs.Typing.Types.{CType};
ghost use Rattle.lt_tree.specs.Typing.TypeRows.{type_in};
ghost use Rattle.lt_tree.specs.Typing.EntityView.{object_of};
ghost use Rattle.lt_tree.specs.Typing.Entities.{parameter, unmade};
ghost use Rattle.lt_tree.specs.Typing.Declarators as typing;
ghost use Rattle.lt_tree.specs.Typing.NodeEnds.{without_parameters, with_dots};
ghost use Rattle.lt_env.specs.NamesValue.{frame_at};
ghost use Rattle.lt_env.specs.Going.{Gives, answering};
ghost use Rattle.lt_declare.specs.DeclaredViews.{parameters_in, declares_of};
ghost use Rattle.lt_declare.specs.Declaring.{binding_object, behind, parameter_behind};

use crate::made::{Declares, Parameters};
use lt_env::{Faults, NameFrame, TypeStop, Walker};
use lt_model::Name;
use lt_tree::typed::{Entity, Life, Object, TypeId};
use std::alloc::{AllocError, Global};

/// `()` and `(void)`, and the end of a list of parameters.
pub fn without_parameters(walker: &mut Walker) -> Result<Box<Parameters>, TypeStop>
    ensures { Gives parameters_in walker.old walker.new result (λ types. without_parameters) }
{
    let alloc = walker.types.alloc();
    let frame = walker.names.innermost(alloc)?;
    let parameters = no_parameters_yet(alloc, frame)?;
    Ok(parameters)
}

fn no_parameters_yet(alloc: Global, frame: NameFrame) -> Result<Box<Parameters>, AllocError>
    ensures { IfOk result (λ p. (types : List CType) → parameters_in types p ≡ typing.no_parameters_yet (frame_at types frame)) }
{
    let parameters = Box::new(
        alloc,
        Parameters {
            types: Vec::new(alloc),
            dots: false,
            objects: Vec::new(alloc),
            are_named: true,
            frame,
            faults: Faults::new(alloc),
        },
    )?;
    Ok(parameters)
}

/// `...` behind parameters.
pub fn with_dots(
    walker: &mut Walker,
    parameters: Box<Parameters>,
) -> Result<Box<Parameters>, TypeStop>
    ensures { Gives parameters_in walker.old walker.new result (λ types. answering (λ known. with_dots (parameters_in types parameters))) }
{
    let _walker = walker;
    let mut parameters = parameters;
    parameters.dots = true;
    Ok(parameters)
}

/// A parameter has an object, and a name if it is written.
pub fn binds_parameter(
    walker: &mut Walker,
    is_definition: bool,
    is_register: bool,
    node: u32,
    name: &Option<Name>,
    t: TypeId,
) -> Result<Vec<u32>, TypeStop>
    ensures { Gives (λ types objects. objects.items) walker.old walker.new result (λ types. typing.binds_parameter is_definition is_register node name.now (type_in types t)) }
{
    match name {
        None => Ok(Vec::new(walker.types.alloc())),
        Some(name) => binds_named(walker, is_definition, is_register, node, name.as_slice(), t),
    }
}

fn binds_named(
    walker: &mut Walker,
    is_definition: bool,
    is_register: bool,
    node: u32,
    name: &[u8],
    t: TypeId,
) -> Result<Vec<u32>, TypeStop>
    ensures { Gives (λ types objects. objects.items) walker.old walker.new result (λ types. typing.binds_parameter is_definition is_register node (Some name.now) (type_in types t)) }
{
    let object = parameter_object(walker.types.alloc(), is_definition, node, name, t)?;
    binds_object(walker, object, name, is_register)
}

// An object, and its name.
fn binds_object(
    walker: &mut Walker,
    object: Object,
    name: &[u8],
    is_register: bool,
) -> Result<Vec<u32>, TypeStop>
    ensures { Gives (λ types objects. objects.items) walker.old walker.new result (λ types. binding_object name.now is_register (object_of types object)) }
{
    let number = walker.add_object(object)?;
    let entity = Entity::Object {
        number,
        is_register,
    };
    walker.bind(name, entity)?;
    let objects = alone(walker.types.alloc(), number)?;
    Ok(objects)
}

fn alone(alloc: Global, number: u32) -> Result<Vec<u32>, AllocError>
    ensures { IfOk result (λ list. list.items ≡ number ∷ []) }
{
    let mut list = Vec::new(alloc);
    list.push(number)?;
    Ok(list)
}

fn parameter_object(
    alloc: Global,
    is_definition: bool,
    node: u32,
    name: &[u8],
    t: TypeId,
) -> Result<Object, AllocError>
    ensures { IfOk result (λ object. (types : List CType) → object_of types object ≡ record { node = node; name = name.now; type = type_in types t; life = (if is_definition then parameter else unmade); start = None }) }
{
    let name = Name::new(alloc, name)?;
    let life = if is_definition {
        Life::Parameter
    } else {
        Life::Unmade
    };
    Ok(Object {
        node,
        name,
        ty: t,
        life,
        start: None,
    })
}

/// One more parameter behind others.
pub fn parameter_behind(
    walker: &mut Walker,
    made: Box<Parameters>,
    it: Declares,
    objects: Vec<u32>,
) -> Result<Box<Parameters>, TypeStop>
    ensures { Gives parameters_in walker.old walker.new result (λ types. answering (λ known. parameter_behind (parameters_in types made) (declares_of types it) objects.items)) }
{
    let ty = walker.types.adjusted(it.ty)?;
    let ty = walker.types.unqualified(ty)?;
    let parameters = behind(made, ty, it.name.is_some(), &objects, it.faults)?;
    Ok(parameters)
}

// One more of this type, with its objects and what it breaks.
#[tactic(auto, using(crate::proofs::ParameterLists::types_more))]
fn behind(
    others: Box<Parameters>,
    ty: TypeId,
    is_named: bool,
    objects: &[u32],
    faults: Faults,
) -> Result<Box<Parameters>, AllocError>
    ensures { IfOk result (λ p. (types : List CType) → parameters_in types p ≡ behind (parameters_in types others) (type_in types ty) is_named objects.now faults) }
{
    let mut others = others;
    others.types.push(ty)?;
    others.objects.extend_from_slice(objects)?;
    others.faults.append(faults)?;
    others.are_named = others.are_named && is_named;
    Ok(others)
}
