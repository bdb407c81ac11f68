// Names, constants and string literals, C11 6.5.1.

ghost use Rattle.std.specs.Prelude.{◌≡◌, List, IfOk, map, option_map, unwrap_or};
ghost use Rattle.lt_table.specs.TableRows.{Stays, Makes};
ghost use Rattle.lt_table.specs.TypesValue.{Widens, structs_at};
ghost use Rattle.lt_tree.specs.Typing.Types.{CType, Void};
ghost use Rattle.lt_tree.specs.Typing.TypeRows.{type_in};
ghost use Rattle.lt_tree.specs.Typing.TypedTree as tree;
ghost use Rattle.lt_tree.specs.Typing.Constants.{constant_of};
ghost use Rattle.lt_tree.specs.Typing.ConstancyView.{constancy_of};
ghost use Rattle.lt_tree.specs.Typing.EntityView.{entity_of, object_of, declared_of, life_of};
ghost use Rattle.lt_tree.specs.Typing.Entities as entities;
ghost use Rattle.lt_tree.specs.Typing.Entities.{Known, meaning_of};
ghost use Rattle.lt_tree.specs.Typing.Operations as operations;
ghost use Rattle.lt_tree.specs.Typing.NodeEnds.{text_at};
ghost use Rattle.lt_env.specs.Going.{Gives, answering};
ghost use Rattle.lt_env.specs.Views.{use_of, typed_in, judged_in};

use crate::one_rule::{broken, judgement_unless};
use crate::shared::judgement;
use lt_env::values::{constant, placed};
use lt_env::{Declarations, Faults, Form, Judged, Objects, TypeStop, Typed, Use, Walker};
use lt_model::{Name, Scalar};
use lt_table::{Types, constant_of};
use lt_tree::typed::{Constancy, Entity, Life, Rule, TypeId, makes};
use std::alloc::AllocError;

// The type of an object.
fn object_type(types: &mut Types, objects: &Objects, number: u32) -> Result<TypeId, AllocError>
    ensures widens { Widens types.old types.new }
    ensures made { IfOk result (λ t. Stays types.new.rows (λ longer. (known : Known) → known.objects ≡ map (object_of longer) objects.now → type_in longer t ≡ entities.type_of_object known number)) }
{
    match objects.get(number) {
        Some(object) => Ok(object.ty),
        None => types.void(),
    }
}

// Whether an object is created before the run.
fn is_static(life: Life) -> bool
    ensures { result ≡ entities.is_static (life_of life) }
{
    matches!(life, Life::Linked | Life::LocalStatic | Life::Literal)
}

fn lives_from_the_start(objects: &Objects, number: u32) -> bool
    ensures { (longer : List CType) → (known : Known) → known.objects ≡ map (object_of longer) objects.now → result ≡ operations.lives_from_the_start known number }
{
    match objects.get(number) {
        Some(object) => is_static(object.life),
        None => false,
    }
}

// What the address of an object is as a constant.
fn constancy_of_object(objects: &Objects, number: u32) -> Constancy
    ensures { (longer : List CType) → (known : Known) → known.objects ≡ map (object_of longer) objects.now → constancy_of result ≡ operations.constancy_of_object known number }
{
    if lives_from_the_start(objects, number) {
        Constancy::Address {
            object: number,
            offset: 0,
        }
    } else {
        Constancy::Varying
    }
}

// The name of an object.
fn object_named(
    types: &mut Types,
    objects: &Objects,
    number: u32,
    is_register: bool,
) -> Result<Box<Typed>, AllocError>
    ensures widens { Widens types.old types.new }
    ensures made { IfOk result (λ x. Stays types.new.rows (λ longer. (known : Known) → known.objects ≡ map (object_of longer) objects.now → typed_in longer x ≡ operations.object_named known number is_register)) }
{
    let constancy = constancy_of_object(objects, number);
    let ty = object_type(types, objects, number)?;
    let place = makes::place::object(types.alloc(), ty, number)?;
    let typed = Typed {
        form: Form::Place(place),
        is_register,
        is_after: false,
        constancy,
        erased: constancy,
    };
    Ok(Box::new(types.alloc(), typed)?)
}

// The type of a function.
fn function_type(
    types: &mut Types,
    declared: &Declarations,
    name: &[u8],
) -> Result<TypeId, AllocError>
    ensures widens { Widens types.old types.new }
    ensures made { IfOk result (λ t. Stays types.new.rows (λ longer. (known : Known) → known.declared ≡ map (declared_of longer) declared.now → type_in longer t ≡ unwrap_or (entities.declared_among name.now known.declared) Void)) }
{
    match declared.ty(name) {
        Some(ty) => Ok(ty),
        None => types.void(),
    }
}

// The name of a function.
fn function_named(
    types: &mut Types,
    declared: &Declarations,
    name: &[u8],
) -> Result<Box<Typed>, AllocError>
    ensures widens { Widens types.old types.new }
    ensures made { IfOk result (λ x. Stays types.new.rows (λ longer. (known : Known) → known.declared ≡ map (declared_of longer) declared.now → typed_in longer x ≡ operations.function_named known name.now)) }
{
    let ty = function_type(types, declared, name)?;
    let name = Name::new(types.alloc(), name)?;
    let typed = Typed {
        form: Form::Designator(name, ty),
        is_register: false,
        is_after: false,
        constancy: Constancy::Varying,
        erased: Constancy::Varying,
    };
    Ok(Box::new(types.alloc(), typed)?)
}

// Whether it is called.
fn is_callee(role: Use) -> bool
    ensures { result ≡ operations.is_callee (use_of role) }
{
    matches!(role, Use::Callee)
}

// What a name gives that stands for this.
#[tactic(auto, unfolding(lt_tree::specs::Typing::Operations::judge_name))]
fn named(
    types: &mut Types,
    objects: &Objects,
    declared: &Declarations,
    role: Use,
    name: &[u8],
    meaning: Option<Entity>,
) -> Result<Box<Judged>, AllocError>
    ensures widens { Widens types.old types.new }
    ensures made { IfOk result (λ j. Stays types.new.rows (λ longer. (known : Known) → known.objects ≡ map (object_of longer) objects.now → known.declared ≡ map (declared_of longer) declared.now → judged_in longer j ≡ operations.judge_name (use_of role) name.now (option_map (entity_of longer) meaning) known)) }
{
    let alloc = types.alloc();
    match meaning {
        None => broken(types, Rule::UndeclaredName),
        Some(Entity::Typedef(_)) => broken(types, Rule::UndeclaredName),
        Some(
            Entity::Object {
                number,
                is_register,
            },
        ) => {
            let typed = object_named(types, objects, number, is_register)?;
            judgement(alloc, Faults::new(alloc), typed)
        }
        Some(Entity::Function) => {
            let typed = function_named(types, declared, name)?;
            judgement_unless(alloc, is_callee(role), Rule::FunctionAsValue, typed)
        }
        Some(Entity::Enumerator(z)) => {
            let typed = constant(types, Scalar::Int, z)?;
            judgement(alloc, Faults::new(alloc), typed)
        }
    }
}

/// A name.
pub fn judge_name(walker: &mut Walker, role: Use, name: &[u8]) -> Result<Box<Judged>, TypeStop>
    ensures { Gives judged_in walker.old walker.new result (λ types. answering (λ known. operations.judge_name (use_of role) name.now (meaning_of name.now known) known)) }
{
    let meaning = walker.names.find(name);
    Ok(named(
        &mut walker.types,
        &walker.objects,
        &walker.declared,
        role,
        name,
        meaning,
    )?)
}

#[tactic(auto, unfolding(lt_tree::specs::Typing::Operations::judge_constant))]
fn written(types: &mut Types, text: &[u8]) -> Result<Box<Judged>, AllocError>
    ensures widens { Widens types.old types.new }
    ensures made { IfOk result (λ j. Stays types.new.rows (λ longer. judged_in longer j ≡ operations.judge_constant (constant_of types.old.model text.now))) }
{
    match constant_of(types.model(), text) {
        None => broken(types, Rule::ConstantTooLarge),
        Some(c) => {
            let typed = constant(types, c.ty, c.value)?;
            let alloc = types.alloc();
            judgement(alloc, Faults::new(alloc), typed)
        }
    }
}

/// An integer or character constant, as written.
pub fn judge_constant(walker: &mut Walker, text: &[u8]) -> Result<Box<Judged>, TypeStop>
    ensures { Gives judged_in walker.old walker.new result (λ types. answering (λ known. operations.judge_constant (constant_of known.model text.now))) }
{
    Ok(written(&mut walker.types, text)?)
}

/// The type of a string literal: an array of its bytes and a zero.
pub fn text_type(types: &mut Types, bytes: &[u8]) -> Result<TypeId, AllocError>
    ensures widens { Widens types.old types.new }
    ensures made { Makes types.new.rows result (λ longer. operations.text_type bytes.now) }
{
    let Ok(length) = u32::try_from(bytes.len() + 1) else {
        return Err(AllocError);
    };
    let char = types.num(Scalar::Char)?;
    types.array(char, length)
}

/// A string literal, whose object has this number.
pub fn judge_text(walker: &mut Walker, bytes: &[u8], object: u32) -> Result<Box<Judged>, TypeStop>
    ensures { Gives judged_in walker.old walker.new result (λ types. answering (λ known. text_at known bytes.now object)) }
{
    let ty = text_type(&mut walker.types, bytes)?;
    let alloc = walker.types.alloc();
    let place = makes::place::object(alloc, ty, object)?;
    let typed = placed(alloc, place, Constancy::Address { object, offset: 0 })?;
    Ok(judgement(alloc, Faults::new(alloc), typed)?)
}
