// What the parts of declarators make, C11 6.7.6, and which rules they break; parameters stand in a file of their own.

ghost use Rattle.std.specs.Prelude.{◌≡◌, ◌++◌, ◌||◌, [], List, Some, None, option_map, IfOk, if◌then◌else◌};
ghost use Rattle.lt_tree.specs.View.{qualifiers_of};
ghost use Rattle.lt_tree.specs.Typing.Types.{CType, is_function, is_array};
ghost use Rattle.lt_tree.specs.Typing.TypeRows.{type_in};
ghost use Rattle.lt_tree.specs.Typing.Rules.{broken_if, function_as_value};
ghost use Rattle.lt_tree.specs.Typing.Entities.{parameter};
ghost use Rattle.lt_tree.specs.Typing.Declarators as typing;
ghost use Rattle.lt_tree.specs.Typing.NodeEnds.{end_of_declarator, enter_if, without_parameters, with_dots};
ghost use Rattle.lt_table.specs.TableRows.{Stays};
ghost use Rattle.lt_table.specs.TypesValue.{structs_at};
ghost use Rattle.lt_env.specs.Going.{Gives, answering, itself};
ghost use Rattle.lt_env.specs.Views.{typed_in};
ghost use Rattle.lt_declare.specs.DeclaredViews.{specified_of, parameters_in, built_of, declares_of, judging_of};
ghost use Rattle.lt_declare.specs.Declaring.{array_breaks};

use crate::enums::integer_in;
use crate::judged::judged;
use crate::made::{Built, Declares, Judging, Parameters, Specified};
pub use crate::parameter_lists::{
    binds_parameter, parameter_behind, with_dots, without_parameters,
};
use lt_env::{Faults, TypeStop, Typed, Walker};
use lt_model::{Name, Quals};
use lt_tree::typed::{Rule, TypeId};
use std::alloc::{AllocError, Global};

/// The length of an array part, if it is one; 0 where an initialiser or the place of a parameter gives it.
pub fn length_or_none(
    walker: &mut Walker,
    is_outermost: bool,
    x: Option<Box<Typed>>,
) -> Result<Option<u32>, TypeStop>
    ensures { Gives itself walker.old walker.new result (λ types. answering (λ known. typing.length_or_none is_outermost (option_map (typed_in types) x))) }
{
    match x {
        None => Ok(unstated_length(is_outermost)),
        Some(x) => {
            let z = integer_in(&walker.types, &x)?;
            Ok(length_given(z))
        }
    }
}

fn unstated_length(is_outermost: bool) -> Option<u32>
    ensures { result ≡ typing.length_or_none is_outermost None }
{
    if is_outermost { Some(0) } else { None }
}

fn length_given(z: Option<i128>) -> Option<u32>
    ensures { result ≡ option_map typing.length_from z }
{
    match z {
        None => None,
        Some(z) => Some(length_from(z)),
    }
}

// A number of elements: from 1 to 1,048,576. Any other counts as one more than that.
fn length_from(z: i128) -> u32
    ensures { result ≡ typing.length_from z }
{
    if 1 <= z && z <= 1048576 {
        z as u32
    } else {
        1048577
    }
}

fn is_length(n: Option<u32>) -> bool
    ensures { result ≡ typing.is_length n }
{
    match n {
        None => false,
        Some(n) => n <= 1048576,
    }
}

/// A type without parts.
pub fn built(walker: &mut Walker, t: TypeId) -> Result<Built, TypeStop>
    ensures { Gives built_of walker.old walker.new result (λ types. answering (λ known. typing.built (type_in types t) [])) }
{
    Ok(Built {
        ty: t,
        faults: Faults::new(walker.types.alloc()),
        parameters: None,
    })
}

/// An array part around others.
pub fn array_of(walker: &mut Walker, n: Option<u32>, inner: Built) -> Result<Built, TypeStop>
    ensures { Gives built_of walker.old walker.new result (λ types. answering (λ known. typing.array_of known n (built_of types inner))) }
{
    let ty = walker.types.array(inner.ty, n.unwrap_or(0))?;
    let mut faults = array_faults(walker, is_length(n), inner.ty, ty)?;
    faults.append(inner.faults)?;
    Ok(Built {
        ty,
        faults,
        parameters: None,
    })
}

// What an array of elements of this type breaks.
fn array_faults(
    walker: &Walker,
    has_length: bool,
    element: TypeId,
    whole: TypeId,
) -> Result<Faults, AllocError>
    ensures { IfOk result (λ faults. Stays walker.now.types.rows (λ types. faults ≡ array_breaks (structs_at types walker.now.types) has_length (type_in types element) (type_in types whole))) }
{
    let is_incomplete = walker.types.is_incomplete(element).ok_or(AllocError)?;
    let is_function = walker.types.table().is_function(element).ok_or(AllocError)?;
    let too_many = walker.types.has_too_many_cells(whole).ok_or(AllocError)?;
    let mut faults = Faults::new(walker.types.alloc());
    faults.unless(has_length, Rule::BadLength)?;
    faults.broken_if(Rule::IncompleteType, is_incomplete)?;
    faults.broken_if(Rule::FunctionAsValue, is_function)?;
    faults.broken_if(Rule::BadLength, too_many)?;
    Ok(faults)
}

/// A function part around others.
pub fn function_of(
    walker: &mut Walker,
    parameters: Box<Parameters>,
    inner: Built,
) -> Result<Built, TypeStop>
    ensures { Gives built_of walker.old walker.new result (λ types. answering (λ known. typing.function_of (parameters_in types parameters) (built_of types inner))) }
{
    let types = parameters.types.clone()?;
    let ty = walker.types.function(inner.ty, types, parameters.dots)?;
    let faults = function_faults(walker, &parameters.faults, inner.ty, inner.faults)?;
    Ok(Built {
        ty,
        faults,
        parameters: Some(parameters),
    })
}

// What a function that gives this breaks, with what its parameters and what it gives break.
fn function_faults(
    walker: &Walker,
    parameters: &Faults,
    t: TypeId,
    inner: Faults,
) -> Result<Faults, AllocError>
    ensures { IfOk result (λ faults. Stays walker.now.types.rows (λ types. faults ≡ broken_if function_as_value (is_function (type_in types t) || is_array (type_in types t)) ++ parameters.now ++ inner)) }
{
    let is_function = walker.types.table().is_function(t).ok_or(AllocError)?;
    let is_array = walker.types.table().is_array(t).ok_or(AllocError)?;
    let alloc = walker.types.alloc();
    let mut faults = Faults::new(alloc);
    faults.broken_if(Rule::FunctionAsValue, is_function || is_array)?;
    let others = parameters.copied(alloc)?;
    faults.append(others)?;
    faults.append(inner)?;
    Ok(faults)
}

/// A pointer part around others.
pub fn pointer_to(walker: &mut Walker, quals: Quals, inner: Built) -> Result<Built, TypeStop>
    ensures { Gives built_of walker.old walker.new result (λ types. answering (λ known. typing.pointer_to (qualifiers_of quals) (built_of types inner))) }
{
    let ty = walker.types.pointer(inner.ty)?;
    let ty = walker.types.qualified(quals, ty)?;
    Ok(Built {
        ty,
        faults: inner.faults,
        parameters: None,
    })
}

/// What a declarator breaks, with its specifiers.
pub fn judged_faults(
    walker: &mut Walker,
    it: &Specified,
    judging: Judging,
    name: &Option<Name>,
    b: &Built,
) -> Result<Faults, TypeStop>
    ensures { Gives itself walker.old walker.new result (λ types. answering (λ known. typing.all_faults (specified_of types it.now) (built_of types b.now) (judging_of judging name.now known (built_of types b.now)))) }
{
    let own = with_judged(walker, judging, name, b)?;
    let mut faults = it.faults.copied(walker.types.alloc())?;
    faults.append(own)?;
    Ok(faults)
}

// What its parts break, and what is judged of what it declares.
fn with_judged(
    walker: &mut Walker,
    judging: Judging,
    name: &Option<Name>,
    b: &Built,
) -> Result<Faults, TypeStop>
    ensures { Gives itself walker.old walker.new result (λ types. answering (λ known. b.now.faults ++ judging_of judging name.now known (built_of types b.now))) }
{
    let mut faults = b.faults.copied(walker.types.alloc())?;
    let others = judged(walker, judging, name, b)?;
    faults.append(others)?;
    Ok(faults)
}

/// A declarator is a node where it is written.
pub fn enter_if(walker: &mut Walker, written: bool) -> Result<Option<u32>, TypeStop>
    ensures { Gives itself walker.old walker.new result (λ types. enter_if written) }
{
    if written {
        let node = walker.enter()?;
        Ok(Some(node))
    } else {
        Ok(None)
    }
}

/// A declarator ends: what it breaks is judged where it is a node.
pub fn end_of_declarator(
    walker: &mut Walker,
    node: Option<u32>,
    name: &Option<Name>,
    b: Built,
    faults: Faults,
) -> Result<Declares, TypeStop>
    ensures { Gives declares_of walker.old walker.new result (λ types. end_of_declarator node name.now (built_of types b) faults) }
{
    let alloc = walker.types.alloc();
    let name = copied_name(alloc, name)?;
    match node {
        None => Ok(declares(0, name, b, faults)),
        Some(node) => {
            walker.settle(node, &faults)?;
            Ok(declares(node, name, b, Faults::new(alloc)))
        }
    }
}

fn declares(node: u32, name: Option<Name>, b: Built, faults: Faults) -> Declares
    ensures { (types : List CType) → declares_of types result ≡ typing.declares node name (built_of types b) faults }
{
    Declares {
        node,
        name,
        ty: b.ty,
        parameters: b.parameters,
        faults,
    }
}

fn copied_name(alloc: Global, name: &Option<Name>) -> Result<Option<Name>, AllocError>
    ensures { IfOk result (λ copy. copy ≡ name.now) }
{
    match name {
        None => Ok(None),
        Some(name) => {
            let copy = Name::new(alloc, name.as_slice())?;
            Ok(Some(copy))
        }
    }
}
