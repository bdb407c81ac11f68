// Specifiers, with structs, enums and enumerators, C11 6.7.1 to 6.7.3.

ghost use Rattle.std.specs.Prelude.{◌≡◌, pos, map, option_map};
ghost use Rattle.lt_tree.specs.View.{type_of};
ghost use Rattle.lt_tree.specs.Records.{maybe_in, specifiers_of, types_in, members_in, enumerators_in};
ghost use Rattle.lt_tree.specs.Tree as c;
ghost use Rattle.lt_tree.specs.Typing.ExpressionTyping as typing;
ghost use Rattle.lt_tree.specs.Typing.NodeEnds.{end_of_enumerator};
ghost use Rattle.lt_tree.specs.Typing.Specifying.{value_given, elsewhere};
ghost use Rattle.lt_env.specs.Going.{Gives, itself, done};
ghost use Rattle.lt_type.specs.Ends.{enumerator};
ghost use Rattle.lt_env.specs.Views.{typed_in};
ghost use Rattle.lt_declare.specs.DeclaredViews.{naming_of, setting_of, specified_of};

use crate::walk::members::members;
use crate::walk::operators::unmarked;
use lt_declare::{Naming, Setting, Specified, specifiers as ends};
use lt_env::{TypeStop, Typed, Use, Walker};
use lt_model::Name;
use lt_tree::{Enumerator, Expr, Member, Specifiers, TypeSpecifier};

// A constant expression that may be left out.
#[cycle(typing)]
pub fn maybe(walker: &mut Walker, e: &Option<Box<Expr>>) -> Result<Option<Box<Typed>>, TypeStop>
    ensures { Gives (λ types x. option_map (typed_in types) x) walker.old walker.new result (λ types. typing.maybe (maybe_in e.now)) }
{
    match e {
        None => Ok(None),
        Some(e) => {
            let x = unmarked(walker, e, Use::Value)?;
            Ok(Some(x))
        }
    }
}

/// Goes over the specifiers of a declaration, a parameter or a type name.
#[cycle(typing)]
pub fn specifiers(
    walker: &mut Walker,
    s: &Specifiers,
    setting: Setting,
) -> Result<Specified, TypeStop>
    ensures { Gives specified_of walker.old walker.new result (λ types. typing.specifiers (specifiers_of s.now) (setting_of setting)) }
{
    let beside = ends::beside_words(s, setting);
    let namings = type_specifiers(walker, s.types.as_slice(), beside)?;
    ends::specified(walker, s, namings)
}

#[cycle(typing)]
fn type_specifiers(
    walker: &mut Walker,
    list: &[TypeSpecifier],
    setting: Setting,
) -> Result<Vec<Naming>, TypeStop>
    ensures { Gives (λ types all. map (naming_of types) all.items) walker.old walker.new result (λ types. typing.type_specifiers (types_in list.now) (setting_of setting)) }
{
    let mut all = Vec::new(walker.types.alloc());
    'list: for t in list {
        all.push(type_specifier(walker, t, setting)?)?;
    }
    Ok(all)
}

#[cycle(typing)]
fn type_specifier(
    walker: &mut Walker,
    t: &TypeSpecifier,
    setting: Setting,
) -> Result<Naming, TypeStop>
    ensures { Gives naming_of walker.old walker.new result (λ types. typing.type_specifier (type_of t.now) (setting_of setting)) }
{
    match t {
        TypeSpecifier::Basic(basic) => ends::basic_named(walker, *basic),
        TypeSpecifier::Word(_) => ends::no_naming(walker),
        TypeSpecifier::StructTag(tag) => ends::struct_by_tag(walker, setting, tag.as_slice()),
        TypeSpecifier::Struct(tag, list) => structure(walker, tag, list.as_slice()),
        TypeSpecifier::EnumTag(tag) => ends::enum_tagged(walker, setting, tag.as_slice()),
        TypeSpecifier::Enum(tag, list) => enumeration(walker, tag, list.as_slice()),
        TypeSpecifier::Named(name) => ends::typedef_named(walker, name.as_slice()),
    }
}

// A struct with its members.
#[cycle(typing)]
fn structure(walker: &mut Walker, tag: &Option<Name>, list: &[Member]) -> Result<Naming, TypeStop>
    ensures { Gives naming_of walker.old walker.new result (λ types. typing.type_specifier (c.Struct tag.now (members_in list.now)) elsewhere) }
{
    let opened = ends::open_struct(walker, tag)?;
    let found = members(walker, list)?;
    ends::close_struct(walker, opened, found)
}

// An enum with its enumerators.
#[cycle(typing)]
fn enumeration(
    walker: &mut Walker,
    tag: &Option<Name>,
    list: &[Enumerator],
) -> Result<Naming, TypeStop>
    ensures { Gives naming_of walker.old walker.new result (λ types. typing.type_specifier (c.Enum tag.now (enumerators_in list.now)) elsewhere) }
{
    let faults = ends::open_enum(walker, tag)?;
    enumerators(walker, list)?;
    ends::close_enum(walker, tag, faults)
}

#[cycle(typing)]
fn enumerators(walker: &mut Walker, list: &[Enumerator]) -> Result<(), TypeStop>
    ensures { Gives done walker.old walker.new result (λ types. typing.enumerators (enumerators_in list.now) (pos 0)) }
{
    let mut counted: i128 = 0;
    'list: for e in list {
        counted = enumerator(walker, e, counted)?;
    }
    Ok(())
}

// An enumerator, and what the next one counts on.
#[cycle(typing)]
fn enumerator(walker: &mut Walker, e: &Enumerator, counted: i128) -> Result<i128, TypeStop>
    ensures { Gives itself walker.old walker.new result (λ types. enumerator e.now.name (maybe_in e.now.value) counted) }
{
    let node = walker.enter()?;
    let x = maybe(walker, &e.value)?;
    end_enumerator(walker, node, e.name.as_slice(), counted, x)
}

// An enumerator ends.
fn end_enumerator(
    walker: &mut Walker,
    node: u32,
    name: &[u8],
    counted: i128,
    x: Option<Box<Typed>>,
) -> Result<i128, TypeStop>
    ensures { Gives itself walker.old walker.new result (λ types. end_of_enumerator node name.now (value_given counted (option_map (typed_in types) x))) }
{
    let z = ends::value_given(walker, counted, x)?;
    ends::end_of_enumerator(walker, node, name, z)
}
