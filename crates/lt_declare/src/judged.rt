// Which rules type names, parameters and members break, C11 6.7.2.1, 6.7.6.3 and 6.7.7.

ghost use Rattle.std.specs.Prelude.{◌≡◌, List, IfOk};
ghost use Rattle.lt_tree.specs.Typing.Types.{CType};
ghost use Rattle.lt_tree.specs.Typing.TypeRows.{type_in};
ghost use Rattle.lt_tree.specs.Typing.Rules.{broken_if, bad_length};
ghost use Rattle.lt_tree.specs.Typing.Declarators as typing;
ghost use Rattle.lt_tree.specs.Typing.Expressions as expressions;
ghost use Rattle.lt_table.specs.TableRows.{Stays};
ghost use Rattle.lt_table.specs.TypesValue.{structs_at};
ghost use Rattle.lt_env.specs.Going.{Gives, answering, itself, known_of};
ghost use Rattle.lt_declare.specs.DeclaredViews.{built_of, judging_of, member_faults};
ghost use Rattle.lt_declare.specs.Declaring.{parameter_breaks};

use crate::declaration::{declaration_faults, definition_faults};
use crate::made::{Built, Judging};
use lt_env::{Faults, TypeStop, Walker};
use lt_model::Name;
use lt_table::Types;
use lt_tree::typed::{Rule, TypeId};
use std::alloc::AllocError;

/// What is judged of what a declarator declares.
pub fn judged(
    walker: &mut Walker,
    judging: Judging,
    name: &Option<Name>,
    b: &Built,
) -> Result<Faults, TypeStop>
    ensures { Gives itself walker.old walker.new result (λ types. answering (λ known. judging_of judging name.now known (built_of types b.now))) }
{
    match judging {
        Judging::TypeName => {
            let faults = type_name_faults(walker, b.ty)?;
            Ok(faults)
        }
        Judging::Parameter { is_definition } => { parameter_faults(walker, is_definition, name, b) }
        Judging::Member {
            is_declared,
            has_width,
        } => {
            let faults = member_faults(walker, is_declared, has_width, b)?;
            Ok(faults)
        }
        Judging::Declaration {
            class,
            has_initialiser,
        } => {
            let faults = declaration_faults(walker, class, has_initialiser, name, b)?;
            Ok(faults)
        }
        Judging::Definition { class } => {
            let faults = definition_faults(walker, class, name, b)?;
            Ok(faults)
        }
    }
}

fn type_name_faults(walker: &Walker, t: TypeId) -> Result<Faults, AllocError>
    ensures { IfOk result (λ faults. Stays walker.now.types.rows (λ types. faults ≡ broken_if bad_length (typing.lacks_length (type_in types t)))) }
{
    let lacks = lacks_length(&walker.types, t)?;
    let mut faults = Faults::new(walker.types.alloc());
    faults.broken_if(Rule::BadLength, lacks)?;
    Ok(faults)
}

/// Whether only an initialiser could give an array's length.
pub fn lacks_length(types: &Types, t: TypeId) -> Result<bool, AllocError>
    ensures { IfOk result (λ b. Stays types.now.rows (λ types. b ≡ typing.lacks_length (type_in types t))) }
{
    let array = types.table().array_of(t).ok_or(AllocError)?;
    match array {
        Some((_, length)) => Ok(length == 0),
        None => Ok(false),
    }
}

/// Whether it or an array's elements are floating.
pub fn has_floating(types: &Types, t: TypeId) -> Result<bool, AllocError>
    ensures { IfOk result (λ b. Stays types.now.rows (λ types. b ≡ expressions.has_floating (type_in types t))) }
{
    let element = types.table().element(t).ok_or(AllocError)?;
    let is_floating = types.table().is_floating(element).ok_or(AllocError)?;
    Ok(is_floating)
}

/// Whether it or an array's elements point to a function.
pub fn has_pointer_to_function(types: &Types, t: TypeId) -> Result<bool, AllocError>
    ensures { IfOk result (λ b. Stays types.now.rows (λ types. b ≡ expressions.has_pointer_to_function (type_in types t))) }
{
    let element = types.table().element(t).ok_or(AllocError)?;
    let points = types
        .table()
        .is_pointer_to_function(element)
        .ok_or(AllocError)?;
    Ok(points)
}

fn parameter_faults(
    walker: &mut Walker,
    is_definition: bool,
    name: &Option<Name>,
    b: &Built,
) -> Result<Faults, TypeStop>
    ensures { Gives itself walker.old walker.new result (λ types. answering (λ known. typing.parameter_faults is_definition name.now known (built_of types b.now))) }
{
    let ty = walker.types.adjusted(b.ty)?;
    let is_declared = is_declared_here(walker, name);
    let faults = adjusted_faults(walker, is_definition, is_declared, ty)?;
    Ok(faults)
}

fn is_declared_here(walker: &Walker, name: &Option<Name>) -> bool
    ensures { (types : List CType) → result ≡ typing.is_declared_here (known_of types walker.now) name.now }
{
    match name {
        None => false,
        Some(name) => walker.names.find_here(name.as_slice()).is_some(),
    }
}

// What a parameter of this adjusted type breaks.
fn adjusted_faults(
    walker: &Walker,
    is_definition: bool,
    is_declared: bool,
    t: TypeId,
) -> Result<Faults, AllocError>
    ensures { IfOk result (λ faults. Stays walker.now.types.rows (λ types. faults ≡ parameter_breaks (structs_at types walker.now.types) is_definition is_declared (type_in types t))) }
{
    let is_incomplete = walker.types.is_incomplete(t).ok_or(AllocError)?;
    let is_floating = walker.types.table().is_floating(t).ok_or(AllocError)?;
    let points = walker
        .types
        .table()
        .is_pointer_to_function(t)
        .ok_or(AllocError)?;
    let mut faults = Faults::new(walker.types.alloc());
    faults.broken_if(Rule::DeclaredTwice, is_declared)?;
    faults.broken_if(Rule::IncompleteType, is_incomplete)?;
    faults.broken_if(Rule::FloatingType, is_definition && is_floating)?;
    faults.broken_if(Rule::FunctionAsValue, is_definition && points)?;
    Ok(faults)
}

fn member_faults(
    walker: &Walker,
    is_declared: bool,
    has_width: bool,
    b: &Built,
) -> Result<Faults, AllocError>
    ensures { IfOk result (λ faults. Stays walker.now.types.rows (λ types. faults ≡ member_faults is_declared has_width (known_of types walker.now) (built_of types b.now))) }
{
    let is_incomplete = walker.types.is_incomplete(b.ty).ok_or(AllocError)?;
    let is_floating = has_floating(&walker.types, b.ty)?;
    let lacks = lacks_length(&walker.types, b.ty)?;
    let is_function = walker.types.table().is_function(b.ty).ok_or(AllocError)?;
    let points = has_pointer_to_function(&walker.types, b.ty)?;
    let mut faults = Faults::new(walker.types.alloc());
    faults.broken_if(Rule::DeclaredTwice, is_declared)?;
    faults.broken_if(Rule::IncompleteType, is_incomplete)?;
    faults.broken_if(Rule::FloatingType, is_floating)?;
    faults.broken_if(Rule::BadLength, lacks)?;
    faults.broken_if(Rule::BitField, has_width)?;
    faults.broken_if(Rule::FunctionAsValue, is_function || points)?;
    Ok(faults)
}
