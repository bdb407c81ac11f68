// Enums and enumerators, C11 6.7.2.2 and 6.7.2.3.

ghost use Rattle.std.specs.Prelude.{◌≡◌, pos, ◌+ℤ◌, [], ◌∷◌, List, Some, None, is_some, option_map, unwrap_or, IfOk, IfErr};
ghost use Rattle.lt_tree.specs.Typing.Types.{CType};
ghost use Rattle.lt_tree.specs.Typing.EntityView.{entity_of, tagged_of, rule_of};
ghost use Rattle.lt_tree.specs.Typing.Entities.{tagged_in, an_enumerator};
ghost use Rattle.lt_tree.specs.Typing.Specifying as typing;
ghost use Rattle.lt_tree.specs.Typing.NodeEnds.{end_of_enumerator};
ghost use Rattle.lt_table.specs.TableRows.{Stays};
ghost use Rattle.lt_env.specs.Going.{Gives, answering, itself, known_of};
ghost use Rattle.lt_env.specs.Views.{typed_in, typed_of};
ghost use Rattle.lt_declare.specs.DeclaredViews.{naming_of, setting_of};
ghost use Rattle.lt_env.specs.declared.stop.TypeStop.TheVariants.{NoMemory};
ghost use Rattle.lt_declare.specs.Declaring.{integer_in, tag_faults, enumerator_end, enum_by};

use crate::made::{Naming, Setting};
use crate::specifiers::{basic_named, no_naming};
use lt_env::{Faults, TypeStop, Typed, Walker};
use lt_model::{Name, Scalar, is_value};
use lt_table::Types;
use lt_tree::BasicType;
use lt_tree::typed::{Constancy, Entity, Rule, Tagged};
use std::alloc::AllocError;

/// `enum e`.
pub fn enum_tagged(walker: &mut Walker, setting: Setting, tag: &[u8]) -> Result<Naming, TypeStop>
    ensures { Gives naming_of walker.old walker.new result (λ types. answering (λ known. typing.enum_tagged (setting_of setting) (tagged_in tag.now known.frames))) }
{
    match enum_found(walker.names.find_tag(tag)) {
        None => no_naming(walker),
        Some(true) => basic_named(walker, BasicType::Int),
        Some(false) => {
            let faults = incomplete_faults(walker, setting)?;
            enum_named(walker, faults)
        }
    }
}

// Whether an enum is complete, if the tag is one's.
fn enum_found(found: Option<Tagged>) -> Option<bool>
    ensures { (setting : typing.Setting) → typing.enum_tagged setting (option_map tagged_of found) ≡ enum_by setting result }
{
    match found {
        Some(Tagged::Enum(is_complete)) => Some(is_complete),
        _ => None,
    }
}

// What an enum breaks that isn't complete.
fn incomplete_faults(walker: &Walker, setting: Setting) -> Result<Faults, AllocError>
    ensures { IfOk result (λ faults. faults ≡ typing.incomplete_enum (setting_of setting) ∷ []) }
{
    let mut faults = Faults::new(walker.types.alloc());
    faults.broken_if(incomplete_rule(setting), true)?;
    Ok(faults)
}

fn incomplete_rule(setting: Setting) -> Rule
    ensures { rule_of result ≡ typing.incomplete_enum (setting_of setting) }
{
    match setting {
        Setting::InSizeof => Rule::NoSize,
        Setting::Alone | Setting::Elsewhere => Rule::NoType,
    }
}

/// `enum e {`.
pub fn open_enum(walker: &mut Walker, tag: &Option<Name>) -> Result<Faults, TypeStop>
    ensures { Gives itself walker.old walker.new result (λ types. typing.open_enum tag.now) }
{
    match tag {
        None => Ok(Faults::new(walker.types.alloc())),
        Some(tag) => tag_enum(walker, tag.as_slice()),
    }
}

// The tag of an enum is declared.
fn tag_enum(walker: &mut Walker, tag: &[u8]) -> Result<Faults, TypeStop>
    ensures { Gives itself walker.old walker.new result (λ types. typing.open_enum (Some tag.now)) }
{
    let faults = tag_faults(walker, tag)?;
    walker.bind_tag(tag, Tagged::Enum(false))?;
    Ok(faults)
}

fn tag_faults(walker: &Walker, tag: &[u8]) -> Result<Faults, AllocError>
    ensures { IfOk result (λ faults. (types : List CType) → faults ≡ tag_faults tag.now (known_of types walker.now)) }
{
    let mut faults = Faults::new(walker.types.alloc());
    let found = walker.names.find_tag_here(tag);
    faults.broken_if(Rule::DeclaredTwice, found.is_some())?;
    Ok(faults)
}

/// `}`: the enum is complete.
pub fn close_enum(
    walker: &mut Walker,
    tag: &Option<Name>,
    faults: Faults,
) -> Result<Naming, TypeStop>
    ensures { Gives naming_of walker.old walker.new result (λ types. typing.close_enum tag.now faults) }
{
    match tag {
        None => enum_named(walker, faults),
        Some(tag) => close_tagged(walker, tag.as_slice(), faults),
    }
}

// The enum of this tag is complete.
fn close_tagged(walker: &mut Walker, tag: &[u8], faults: Faults) -> Result<Naming, TypeStop>
    ensures { Gives naming_of walker.old walker.new result (λ types. typing.close_enum (Some tag.now) faults) }
{
    walker.bind_tag(tag, Tagged::Enum(true))?;
    enum_named(walker, faults)
}

/// An enum whose tag breaks these rules.
pub(crate) fn enum_named(walker: &mut Walker, faults: Faults) -> Result<Naming, TypeStop>
    ensures { Gives naming_of walker.old walker.new result (λ types. answering (λ known. (record { type = Some typing.enum_type; faults = faults }))) }
{
    let ty = walker.types.num(Scalar::Int)?;
    Ok(Naming {
        ty: Some(ty),
        faults,
    })
}

/// The value of an enumerator, with an expression of its own or without one.
pub fn value_given(
    walker: &mut Walker,
    counted: i128,
    x: Option<Box<Typed>>,
) -> Result<Option<i128>, TypeStop>
    ensures { Gives itself walker.old walker.new result (λ types. answering (λ known. typing.value_given counted (option_map (typed_in types) x))) }
{
    match x {
        None => Ok(Some(counted)),
        Some(x) => {
            let z = integer_in(&walker.types, &x)?;
            Ok(z)
        }
    }
}

// The value of an integer constant expression, if it is one.
pub(crate) fn integer_in(types: &Types, x: &Typed) -> Result<Option<i128>, AllocError>
    ensures { IfOk result (λ z. Stays types.now.rows (λ types. z ≡ integer_in (typed_of types x.now))) }
{
    let Some(is_integer) = types.table().is_integer(x.own_type()) else {
        return Err(AllocError);
    };
    match x.constancy {
        Constancy::Number(z) => Ok(if is_integer { Some(z) } else { None }),
        _ => Ok(None),
    }
}

/// An enumerator ends, and its name is in scope; what the next one counts on.
pub fn end_of_enumerator(
    walker: &mut Walker,
    node: u32,
    name: &[u8],
    z: Option<i128>,
) -> Result<i128, TypeStop>
    ensures { Gives itself walker.old walker.new result (λ types. end_of_enumerator node name.now z) }
{
    let faults = enumerator_faults(walker, name, z)?;
    enumerator_ends(walker, node, name, z, &faults)
}

// It ends where these rules are broken.
fn enumerator_ends(
    walker: &mut Walker,
    node: u32,
    name: &[u8],
    z: Option<i128>,
    faults: &Faults,
) -> Result<i128, TypeStop>
    ensures { Gives itself walker.old walker.new result (λ types. enumerator_end node name.now z faults.now) }
{
    walker.settle(node, faults)?;
    walker.bind(name, enumerator(z))?;
    next_after(z)
}

fn enumerator(z: Option<i128>) -> Entity
    ensures { (types : List CType) → entity_of types result ≡ an_enumerator (unwrap_or z (pos 0)) }
{
    Entity::Enumerator(z.unwrap_or(0))
}

fn next_after(z: Option<i128>) -> Result<i128, TypeStop>
    ensures next { IfOk result (λ next. next ≡ unwrap_or z (pos 0) +ℤ pos 1) }
    ensures stops { IfErr result (λ stop. stop ≡ NoMemory) }
{
    match z.unwrap_or(0).checked_add(1) {
        Some(next) => Ok(next),
        None => Err(TypeStop::NoMemory),
    }
}

fn enumerator_faults(walker: &Walker, name: &[u8], z: Option<i128>) -> Result<Faults, AllocError>
    ensures { IfOk result (λ faults. (types : List CType) → faults ≡ typing.enumerator_faults (known_of types walker.now) name.now z) }
{
    let mut faults = Faults::new(walker.types.alloc());
    let found = walker.names.find_here(name);
    faults.broken_if(Rule::DeclaredTwice, found.is_some())?;
    faults.unless(is_good_value(walker, z), Rule::BadCase)?;
    Ok(faults)
}

fn is_good_value(walker: &Walker, z: Option<i128>) -> bool
    ensures { (types : List CType) → result ≡ typing.is_good_value (known_of types walker.now) z }
{
    match z {
        None => false,
        Some(z) => is_value(walker.types.model(), Scalar::Int, z),
    }
}
