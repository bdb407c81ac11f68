// Which names are declared twice, C11 6.2.2 and 6.7.

ghost use Rattle.std.specs.Prelude.{◌≡◌, not, List, IfOk, option_map, is_some, slice_get};
ghost use Rattle.lt_tree.specs.Typing.Types.{CType, same};
ghost use Rattle.lt_tree.specs.Typing.TypeRows.{type_in};
ghost use Rattle.lt_tree.specs.Typing.EntityView as view;
ghost use Rattle.lt_tree.specs.Typing.EntityView.{entity_of};
ghost use Rattle.lt_tree.specs.Typing.Entities as entities;
ghost use Rattle.lt_tree.specs.Typing.Operands.{holds};
ghost use Rattle.lt_tree.specs.Typing.Declaring as typing;
ghost use Rattle.lt_table.specs.TableRows.{Stays};
ghost use Rattle.lt_env.specs.Going.{known_of};
ghost use Rattle.lt_declare.specs.Declaring.{is_function_that, agrees_with};
ghost use Rattle.lt_declare.specs.DeclaredKinds.{kind_in};

use crate::kinds::DeclaredKind;
use lt_env::Walker;
use lt_table::Types;
use lt_tree::typed::{Entity, Life, TypeId};
use std::alloc::AllocError;

// A typedef name may be declared again as the same type.
fn is_other_typedef(types: &Types, found: Option<Entity>, t: TypeId) -> Result<bool, AllocError>
    ensures { IfOk result (λ b. Stays types.now.rows (λ types. b ≡ holds (λ entity. not (typing.is_same_typedef (type_in types t) entity)) (option_map (entity_of types) found))) }
{
    match found {
        None => Ok(false),
        Some(Entity::Typedef(u)) => {
            let is_same = types.table().same(t, u).ok_or(AllocError)?;
            Ok(!is_same)
        }
        Some(Entity::Object { .. }) => Ok(true),
        Some(Entity::Function) => Ok(true),
        Some(Entity::Enumerator(_)) => Ok(true),
    }
}

// A function may be declared again where its type agrees.
fn is_other_function(found: Option<Entity>, agrees: bool) -> bool
    ensures { (types : List CType) → result ≡ holds (λ entity. not (is_function_that agrees entity)) (option_map (entity_of types) found) }
{
    match found {
        None => false,
        Some(Entity::Function) => !agrees,
        Some(Entity::Object { .. }) => true,
        Some(Entity::Typedef(_)) => true,
        Some(Entity::Enumerator(_)) => true,
    }
}

fn is_same_as(types: &Types, t: TypeId, u: Option<TypeId>) -> Result<bool, AllocError>
    ensures { IfOk result (λ b. Stays types.now.rows (λ types. b ≡ holds (same (type_in types t)) (option_map (type_in types) u))) }
{
    match u {
        None => Ok(false),
        Some(u) => {
            let is_same = types.table().same(t, u).ok_or(AllocError)?;
            Ok(is_same)
        }
    }
}

fn is_other_than(types: &Types, t: TypeId, u: Option<TypeId>) -> Result<bool, AllocError>
    ensures { IfOk result (λ b. Stays types.now.rows (λ types. b ≡ holds (λ v. not (same (type_in types t) v)) (option_map (type_in types) u))) }
{
    match u {
        None => Ok(false),
        Some(u) => {
            let is_same = types.table().same(t, u).ok_or(AllocError)?;
            Ok(!is_same)
        }
    }
}

// An array whose length its initialiser is to give is compatible with any of its elements.
fn is_compatible(types: &Types, t: TypeId, u: TypeId) -> Result<bool, AllocError>
    ensures { IfOk result (λ b. Stays types.now.rows (λ types. b ≡ typing.is_compatible (type_in types t) (type_in types u))) }
{
    let first = types.table().array_of(t).ok_or(AllocError)?;
    let second = types.table().array_of(u).ok_or(AllocError)?;
    let is_same = types.table().same(t, u).ok_or(AllocError)?;
    let Some((a, n)) = first else {
        return Ok(is_same);
    };
    let Some((b, k)) = second else {
        return Ok(is_same);
    };
    let are_same = types.table().same(a, b).ok_or(AllocError)?;
    Ok(are_same && (n == 0 || n == k))
}

fn type_of_object(walker: &Walker, number: u32) -> Result<TypeId, AllocError>
    ensures { IfOk result (λ t. (types : List CType) → type_in types t ≡ entities.type_of_object (known_of types walker.now) number) }
{
    match walker.objects.get(number) {
        Some(object) => Ok(object.ty),
        None => Err(AllocError),
    }
}

// The linked object, if there is one, has a compatible type.
fn agrees_with(walker: &Walker, linked: Option<u32>, t: TypeId) -> Result<bool, AllocError>
    ensures { IfOk result (λ b. Stays walker.now.types.rows (λ types. b ≡ agrees_with (known_of types walker.now) linked (type_in types t))) }
{
    match linked {
        None => Ok(true),
        Some(number) => {
            let u = type_of_object(walker, number)?;
            is_compatible(&walker.types, t, u)
        }
    }
}

fn is_linked(life: Life) -> bool
    ensures { result ≡ entities.is_linked (view.life_of life) }
{
    match life {
        Life::Linked => true,
        _ => false,
    }
}

fn is_linked_at(walker: &Walker, number: u32) -> bool
    ensures { (types : List CType) → result ≡ holds (λ object. entities.is_linked object.life) (slice_get (known_of types walker.now).objects number) }
{
    match walker.objects.get(number) {
        Some(object) => is_linked(object.life),
        None => false,
    }
}

fn is_started_at(walker: &Walker, number: u32) -> bool
    ensures { (types : List CType) → result ≡ holds (λ object. is_some object.start) (slice_get (known_of types walker.now).objects number) }
{
    match walker.objects.get(number) {
        Some(object) => object.start.is_some(),
        None => false,
    }
}

// A name stands for something else than a linked object.
fn is_unlinked(walker: &Walker, found: Option<Entity>) -> bool
    ensures { (types : List CType) → result ≡ holds (λ entity. not (typing.is_linked_object (known_of types walker.now) entity)) (option_map (entity_of types) found) }
{
    match found {
        None => false,
        Some(Entity::Object { number, .. }) => !is_linked_at(walker, number),
        Some(Entity::Function) => true,
        Some(Entity::Typedef(_)) => true,
        Some(Entity::Enumerator(_)) => true,
    }
}

fn is_started(walker: &Walker, linked: Option<u32>) -> bool
    ensures { (types : List CType) → result ≡ holds (λ number. holds (λ object. is_some object.start) (slice_get (known_of types walker.now).objects number)) linked }
{
    match linked {
        None => false,
        Some(number) => is_started_at(walker, number),
    }
}

// A linked object may be declared again with a compatible type, and has at most one initialiser; any other object is declared once.
fn is_object_declared_twice(
    walker: &Walker,
    life: Life,
    name: &[u8],
    t: TypeId,
    has_initialiser: bool,
) -> Result<bool, AllocError>
    ensures { IfOk result (λ b. Stays walker.now.types.rows (λ types. b ≡ typing.is_object_declared_twice (known_of types walker.now) (view.life_of life) name.now (type_in types t) has_initialiser)) }
{
    let found = walker.names.find_here(name);
    let linked = walker.objects.linked(name);
    let agrees = agrees_with(walker, linked, t)?;
    let is_function = is_function_elsewhere(walker, name);
    let is_again = has_initialiser & is_started(walker, linked);
    let differs = !agrees | is_unlinked(walker, found) | is_function | is_again;
    Ok(if is_linked(life) {
        differs
    } else {
        found.is_some()
    })
}

// A name with linkage is a function's or an object's, in whatever scopes it is declared.
fn is_function_elsewhere(walker: &Walker, name: &[u8]) -> bool
    ensures { (types : List CType) → result ≡ typing.is_function_elsewhere (known_of types walker.now) name.now }
{
    walker.declared.ty(name).is_some()
}

fn is_object_elsewhere(walker: &Walker, name: &[u8]) -> bool
    ensures { (types : List CType) → result ≡ typing.is_object_elsewhere (known_of types walker.now) name.now }
{
    walker.objects.linked(name).is_some()
}

fn is_function_declared_twice(walker: &Walker, name: &[u8], t: TypeId) -> Result<bool, AllocError>
    ensures { IfOk result (λ b. Stays walker.now.types.rows (λ types. b ≡ typing.is_function_declared_twice (known_of types walker.now) name.now (type_in types t))) }
{
    let agrees = agrees_with_function(walker, name, t)?;
    let is_other = is_other_function(walker.names.find_here(name), agrees);
    let is_object = is_object_elsewhere(walker, name);
    Ok(is_other | is_object)
}

fn agrees_with_function(walker: &Walker, name: &[u8], t: TypeId) -> Result<bool, AllocError>
    ensures { IfOk result (λ b. Stays walker.now.types.rows (λ types. b ≡ typing.agrees_with_function (known_of types walker.now) name.now (type_in types t))) }
{
    is_same_as(&walker.types, t, walker.declared.ty(name))
}

/// Whether a name is declared in this scope otherwise than this declarator may declare it again.
pub fn is_declared_twice(
    walker: &Walker,
    kind: DeclaredKind,
    name: &[u8],
    t: TypeId,
    has_initialiser: bool,
) -> Result<bool, AllocError>
    ensures { IfOk result (λ b. Stays walker.now.types.rows (λ types. b ≡ typing.is_declared_twice (known_of types walker.now) (kind_in kind) name.now (type_in types t) has_initialiser)) }
{
    match kind {
        DeclaredKind::TypeName => {
            let is_other = is_other_typedef(&walker.types, walker.names.find_here(name), t)?;
            Ok(is_other)
        }
        DeclaredKind::Function => {
            let is_twice = is_function_declared_twice(walker, name, t)?;
            Ok(is_twice)
        }
        DeclaredKind::Object { life, .. } => {
            is_object_declared_twice(walker, life, name, t, has_initialiser)
        }
    }
}

/// A function that is declared in another scope with another type.
pub fn disagrees_elsewhere(walker: &Walker, name: &[u8], t: TypeId) -> Result<bool, AllocError>
    ensures { IfOk result (λ b. Stays walker.now.types.rows (λ types. b ≡ typing.disagrees_elsewhere (known_of types walker.now) name.now (type_in types t))) }
{
    let is_here = walker.names.find_here(name).is_some();
    let is_other = is_other_than(&walker.types, t, walker.declared.ty(name))?;
    Ok(!is_here && is_other)
}
