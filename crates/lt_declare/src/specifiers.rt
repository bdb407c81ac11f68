// What specifiers name, C11 6.7.1 to 6.7.3; structs and enums stand in files of their own.

ghost use Rattle.std.specs.Prelude.{◌≡◌, ◌++◌, [], List, Some, None, map, ◌&&◌, length, nat_le, is_some, option_map, unwrap_or, IfOk};
ghost use Rattle.lt_model.specs.declared.scalar.Scalar.TheVariants as S;
ghost use Rattle.lt_tree.specs.View.{words_of};
ghost use Rattle.lt_tree.specs.Typing.Types.{CType, Num};
ghost use Rattle.lt_tree.specs.Typing.TypeRows.{type_in};
ghost use Rattle.lt_tree.specs.Typing.EntityView.{entity_of};
ghost use Rattle.lt_tree.specs.Typing.Entities.{meaning_of};
ghost use Rattle.lt_tree.specs.Typing.Rules.{no_type, unless};
ghost use Rattle.lt_tree.specs.Typing.Specifying as typing;
ghost use Rattle.lt_tree.specs.Typing.NodeEnds.{end_of_enumerator};
ghost use Rattle.lt_table.specs.TableRows.{Makes};
ghost use Rattle.lt_table.specs.TypesValue.{Widens};
ghost use Rattle.lt_env.specs.Going.{Gives, answering, known_of};
ghost use Rattle.lt_declare.specs.DeclaredViews.{naming_of, setting_of, specified_of};
ghost use Rattle.lt_declare.specs.Declaring.{all_faults};

pub use crate::enums::{close_enum, end_of_enumerator, enum_tagged, open_enum, value_given};
use crate::kinds::is_class;
use crate::made::{Naming, Setting, Specified};
pub use crate::structs::{close_struct, open_struct, struct_by_tag};
use lt_env::{Faults, TypeStop, Walker};
use lt_model::Scalar;
use lt_table::Types;
use lt_tree::typed::{Entity, Rule, TypeId};
use lt_tree::{BasicType, Specifiers, Storage};
use std::alloc::AllocError;

/// Where type specifiers stand beside these words, in a declaration or a type name that stands so.
pub fn beside_words(s: &Specifiers, setting: Setting) -> Setting
    ensures { setting_of result ≡ typing.beside_words (words_of s.now.storage s.now.inline s.now.noreturn s.now.quals) (setting_of setting) }
{
    if is_alone(setting) && has_words(s) {
        Setting::Elsewhere
    } else {
        setting
    }
}

/// Whether a declaration is of nothing else.
pub(crate) fn is_alone(setting: Setting) -> bool
    ensures { result ≡ typing.is_alone (setting_of setting) }
{
    match setting {
        Setting::Alone => true,
        Setting::InSizeof | Setting::Elsewhere => false,
    }
}

// Whether storage classes, qualifiers or words of functions stand beside the type.
fn has_words(s: &Specifiers) -> bool
    ensures { result ≡ typing.has_words (words_of s.now.storage s.now.inline s.now.noreturn s.now.quals) }
{
    !s.storage.is_empty() || s.inline || s.noreturn || s.quals.constant || s.quals.volatile
}

/// Whether they have the storage class `register`.
pub fn is_register(it: &Specified) -> bool
    ensures { (types : List CType) → result ≡ typing.is_register (specified_of types it.now) }
{
    is_class(Storage::Register, it.storage)
}

/// Type words that name a type together.
pub fn basic_named(walker: &mut Walker, basic: BasicType) -> Result<Naming, TypeStop>
    ensures { Gives naming_of walker.old walker.new result (λ types. answering (λ known. typing.names (typing.basic_type basic))) }
{
    let ty = basic_type(&mut walker.types, basic)?;
    Ok(names(walker, ty))
}

// The type that words name together.
fn basic_type(types: &mut Types, basic: BasicType) -> Result<TypeId, AllocError>
    ensures widens { Widens types.old types.new }
    ensures made { Makes types.new.rows result (λ types. typing.basic_type basic) }
{
    match basic {
        BasicType::Void => types.void(),
        BasicType::Char => types.num(Scalar::Char),
        BasicType::SignedChar => types.num(Scalar::SChar),
        BasicType::UnsignedChar => types.num(Scalar::UChar),
        BasicType::Short => types.num(Scalar::Short),
        BasicType::UnsignedShort => types.num(Scalar::UShort),
        BasicType::Int => types.num(Scalar::Int),
        BasicType::Unsigned => types.num(Scalar::UInt),
        BasicType::Long => types.num(Scalar::Long),
        BasicType::UnsignedLong => types.num(Scalar::ULong),
        BasicType::LongLong => types.num(Scalar::LLong),
        BasicType::UnsignedLongLong => types.num(Scalar::ULLong),
        BasicType::Bool => types.num(Scalar::Bool),
        BasicType::Float | BasicType::Double | BasicType::LongDouble => types.floating(),
    }
}

/// What names this type.
pub(crate) fn names(walker: &Walker, ty: TypeId) -> Naming
    ensures { (types : List CType) → naming_of types result ≡ typing.names (type_in types ty) }
{
    Naming {
        ty: Some(ty),
        faults: Faults::new(walker.types.alloc()),
    }
}

/// What names no type.
pub fn no_naming(walker: &mut Walker) -> Result<Naming, TypeStop>
    ensures { Gives naming_of walker.old walker.new result (λ types. answering (λ known. typing.no_naming)) }
{
    Ok(nothing(walker))
}

fn nothing(walker: &Walker) -> Naming
    ensures { (types : List CType) → naming_of types result ≡ typing.no_naming }
{
    Naming {
        ty: None,
        faults: Faults::new(walker.types.alloc()),
    }
}

/// A typedef name.
pub fn typedef_named(walker: &mut Walker, name: &[u8]) -> Result<Naming, TypeStop>
    ensures { Gives naming_of walker.old walker.new result (λ types. answering (λ known. typing.typedef_named (meaning_of name.now known))) }
{
    Ok(found_typedef(walker, name))
}

fn found_typedef(walker: &Walker, name: &[u8]) -> Naming
    ensures { (types : List CType) → naming_of types result ≡ typing.typedef_named (meaning_of name.now (known_of types walker.now)) }
{
    Naming {
        ty: typedef_in(walker.names.find(name)),
        faults: Faults::new(walker.types.alloc()),
    }
}

fn typedef_in(found: Option<Entity>) -> Option<TypeId>
    ensures { (types : List CType) → typing.typedef_named (option_map (entity_of types) found) ≡ record { type = option_map (type_in types) result; faults = [] } }
{
    match found {
        Some(Entity::Typedef(ty)) => Some(ty),
        _ => None,
    }
}

/// What specifiers say, of which each type specifier names this.
pub fn specified(
    walker: &mut Walker,
    s: &Specifiers,
    namings: Vec<Naming>,
) -> Result<Specified, TypeStop>
    ensures { Gives specified_of walker.old walker.new result (λ types. answering (λ known. typing.specified (words_of s.now.storage s.now.inline s.now.noreturn s.now.quals) (map (naming_of types) namings.items))) }
{
    let named = only_type(&namings);
    let is_good = are_good(named, &s.storage);
    let faults = specifier_faults(walker, is_good, namings)?;
    let ty = type_or_int(&mut walker.types, named)?;
    let ty = walker.types.qualified(s.quals, ty)?;
    Ok(Specified {
        ty,
        storage: first_class(&s.storage),
        faults,
    })
}

// The type that is named, where exactly one specifier names one.
fn only_type(namings: &[Naming]) -> Option<TypeId>
    ensures { (types : List CType) → option_map (type_in types) result ≡ typing.only_type (map (naming_of types) namings.now) }
{
    match namings {
        [naming] => naming.ty,
        _ => None,
    }
}

// Specifiers that name one type, and at most one storage class.
fn are_good(named: Option<TypeId>, storage: &[Storage]) -> bool
    ensures { result ≡ (is_some named && nat_le (length storage.now) 1) }
{
    named.is_some() && storage.len() <= 1
}

fn specifier_faults(
    walker: &Walker,
    is_good: bool,
    namings: Vec<Naming>,
) -> Result<Faults, AllocError>
    ensures { IfOk result (λ faults. faults ≡ unless is_good no_type ++ all_faults namings.items) }
{
    let mut faults = Faults::new(walker.types.alloc());
    faults.unless(is_good, Rule::NoType)?;
    for naming in namings {
        faults.append(naming.faults)?;
    }
    Ok(faults)
}

fn type_or_int(types: &mut Types, named: Option<TypeId>) -> Result<TypeId, AllocError>
    ensures widens { Widens types.old types.new }
    ensures made { Makes types.new.rows result (λ types. unwrap_or (option_map (type_in types) named) (Num S.Int)) }
{
    match named {
        Some(ty) => Ok(ty),
        None => types.num(Scalar::Int),
    }
}

fn first_class(storage: &[Storage]) -> Option<Storage>
    ensures { result ≡ typing.first_class storage.now }
{
    match storage {
        [class, ..] => Some(*class),
        [] => None,
    }
}
