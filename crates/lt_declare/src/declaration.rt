// Which rules the declarators of declarations and of functions with bodies break, C11 6.7 and 6.9.1.

ghost use Rattle.std.specs.Prelude.{◌≡◌, ◌||◌, List, Some, IfOk};
ghost use Rattle.lt_tree.specs.Typing.Types.{CType, is_void};
ghost use Rattle.lt_tree.specs.Typing.TypeRows.{type_in, all_in};
ghost use Rattle.lt_tree.specs.Typing.EntityView as view;
ghost use Rattle.lt_tree.specs.Typing.Rules as rules;
ghost use Rattle.lt_tree.specs.Typing.Declaring as typing;
ghost use Rattle.lt_table.specs.TableRows.{Stays};
ghost use Rattle.lt_env.specs.Going.{known_of};
ghost use Rattle.lt_declare.specs.DeclaredViews.{built_of, parameters_of};
ghost use Rattle.lt_declare.specs.DeclaredKinds.{kind_in};

use crate::judged::{has_floating, has_pointer_to_function, lacks_length};
use crate::kinds::{DeclaredKind, is_class, kind_of};
use crate::made::{Built, Parameters};
use crate::redeclared::{disagrees_elsewhere, is_declared_twice};
use lt_env::{Faults, Walker};
use lt_model::Name;
use lt_table::Types;
use lt_tree::Storage;
use lt_tree::typed::{Rule, TypeId};
use std::alloc::AllocError;

fn object_faults(walker: &Walker, t: TypeId, has_initialiser: bool) -> Result<Faults, AllocError>
    ensures { IfOk result (λ faults. Stays walker.now.types.rows (λ types. faults ≡ typing.object_faults (known_of types walker.now) (type_in types t) has_initialiser)) }
{
    let is_incomplete = walker.types.is_incomplete(t).ok_or(AllocError)?;
    let is_floating = has_floating(&walker.types, t)?;
    let lacks = lacks_length(&walker.types, t)?;
    let points = has_pointer_to_function(&walker.types, t)?;
    let mut faults = Faults::new(walker.types.alloc());
    faults.broken_if(Rule::IncompleteType, is_incomplete)?;
    faults.broken_if(Rule::FloatingType, is_floating)?;
    faults.broken_if(Rule::BadLength, lacks && !has_initialiser)?;
    faults.broken_if(Rule::FunctionAsValue, points)?;
    Ok(faults)
}

fn kind_faults(
    walker: &Walker,
    kind: DeclaredKind,
    name: &[u8],
    t: TypeId,
    has_initialiser: bool,
) -> Result<Faults, AllocError>
    ensures { IfOk result (λ faults. Stays walker.now.types.rows (λ types. faults ≡ typing.kind_faults (known_of types walker.now) (kind_in kind) name.now (type_in types t) has_initialiser)) }
{
    match kind {
        DeclaredKind::TypeName => {
            let lacks = lacks_length(&walker.types, t)?;
            broken(walker, Rule::BadLength, lacks)
        }
        DeclaredKind::Function => {
            let disagrees = disagrees_elsewhere(walker, name, t)?;
            broken(walker, Rule::FunctionDisagrees, disagrees)
        }
        DeclaredKind::Object { .. } => object_faults(walker, t, has_initialiser),
    }
}

fn broken(walker: &Walker, rule: Rule, is_broken: bool) -> Result<Faults, AllocError>
    ensures { IfOk result (λ faults. faults ≡ rules.broken_if (view.rule_of rule) is_broken) }
{
    let mut faults = Faults::new(walker.types.alloc());
    faults.broken_if(rule, is_broken)?;
    Ok(faults)
}

fn faults_of_name(
    walker: &Walker,
    name: &[u8],
    kind: DeclaredKind,
    t: TypeId,
    has_initialiser: bool,
) -> Result<Faults, AllocError>
    ensures { IfOk result (λ faults. Stays walker.now.types.rows (λ types. faults ≡ typing.named_faults (known_of types walker.now) (Some name.now) (kind_in kind) (type_in types t) has_initialiser)) }
{
    let twice = is_declared_twice(walker, kind, name, t, has_initialiser)?;
    let others = kind_faults(walker, kind, name, t, has_initialiser)?;
    let mut faults = broken(walker, Rule::DeclaredTwice, twice)?;
    faults.append(others)?;
    Ok(faults)
}

fn named_faults(
    walker: &Walker,
    name: &Option<Name>,
    kind: DeclaredKind,
    t: TypeId,
    has_initialiser: bool,
) -> Result<Faults, AllocError>
    ensures { IfOk result (λ faults. Stays walker.now.types.rows (λ types. faults ≡ typing.named_faults (known_of types walker.now) name.now (kind_in kind) (type_in types t) has_initialiser)) }
{
    match name {
        None => kind_faults(walker, kind, &[], t, has_initialiser),
        Some(name) => faults_of_name(walker, name.as_slice(), kind, t, has_initialiser),
    }
}

/// What a declarator of a declaration breaks.
pub fn declaration_faults(
    walker: &Walker,
    class: Option<Storage>,
    has_initialiser: bool,
    name: &Option<Name>,
    b: &Built,
) -> Result<Faults, AllocError>
    ensures { IfOk result (λ faults. Stays walker.now.types.rows (λ types. faults ≡ typing.declaration_faults class has_initialiser name.now (known_of types walker.now) (built_of types b.now))) }
{
    let kind = kind_of(walker, class, b.ty).ok_or(AllocError)?;
    named_faults(walker, name, kind, b.ty, has_initialiser)
}

// ---- definitions of functions

fn are_passable(types: &Types, list: &[TypeId]) -> Result<bool, AllocError>
    ensures { IfOk result (λ b. Stays types.now.rows (λ types. b ≡ typing.are_passable (all_in types list.now))) }
{
    for t in list {
        let is_good = is_given(types, *t)?;
        if !is_good {
            return Ok(false);
        }
    }
    Ok(true)
}

// What a definition may take or give: an integer, a pointer or nothing.
fn is_given(types: &Types, t: TypeId) -> Result<bool, AllocError>
    ensures { IfOk result (λ b. Stays types.now.rows (λ types. b ≡ (typing.is_passable (type_in types t) || is_void (type_in types t)))) }
{
    let is_scalar = types.table().is_scalar(t).ok_or(AllocError)?;
    let is_void = types.table().is_void(t).ok_or(AllocError)?;
    Ok(is_scalar || is_void)
}

fn is_good_definition(types: &Types, parameters: &Parameters, t: TypeId) -> Result<bool, AllocError>
    ensures { IfOk result (λ b. Stays types.now.rows (λ types. b ≡ typing.is_good_definition (parameters_of types parameters.now) (type_in types t))) }
{
    let function = types.table().function_of(t).ok_or(AllocError)?;
    match function {
        None => Ok(true),
        Some(function) => {
            let takes = are_passable(types, &function.parameters)?;
            let gives = is_given(types, function.result)?;
            Ok(parameters.are_named && !function.dots && takes && gives)
        }
    }
}

fn definition_shape_faults(walker: &Walker, b: &Built) -> Result<Faults, AllocError>
    ensures { IfOk result (λ faults. Stays walker.now.types.rows (λ types. faults ≡ typing.definition_shape_faults (built_of types b.now))) }
{
    match &b.parameters {
        None => broken(walker, Rule::FunctionDisagrees, true),
        Some(parameters) => {
            let is_good = is_good_definition(&walker.types, parameters, b.ty)?;
            broken(walker, Rule::BadDefinition, !is_good)
        }
    }
}

fn has_body_already(walker: &Walker, name: &Option<Name>) -> bool
    ensures { (types : List CType) → result ≡ typing.has_body_already (known_of types walker.now) name.now }
{
    match name {
        None => false,
        Some(name) => walker.functions.has(name.as_slice()),
    }
}

/// What the declarator of a function with a body breaks, before the body.
pub fn definition_faults(
    walker: &Walker,
    class: Option<Storage>,
    name: &Option<Name>,
    b: &Built,
) -> Result<Faults, AllocError>
    ensures { IfOk result (λ faults. Stays walker.now.types.rows (λ types. faults ≡ typing.definition_faults class name.now (known_of types walker.now) (built_of types b.now))) }
{
    let shape = definition_shape_faults(walker, b)?;
    let is_typedef = is_class(Storage::Typedef, class);
    let has_body = has_body_already(walker, name);
    let mut faults = declaration_faults(walker, class, false, name, b)?;
    faults.append(shape)?;
    faults.broken_if(Rule::FunctionDisagrees, is_typedef | has_body)?;
    Ok(faults)
}
