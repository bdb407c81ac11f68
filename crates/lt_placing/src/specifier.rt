// Specifiers and type names as they are, and their nodes passed.

ghost use Rattle.std.specs.Prelude.{◌≡◌, ◌++◌, ◌∷◌, ℕ, List, Option, IfOk};
ghost use Rattle.lt_tree.specs.Tree as t;
ghost use Rattle.lt_tree.specs.View.{type_of, member_of};
ghost use Rattle.lt_tree.specs.Records.{
  maybe_in,
  specifiers_of,
  declarator_of,
  types_in,
  members_in,
  member_declarators_in,
  enumerators_in,
};
ghost use Rattle.lt_tree.specs.Nodes.{
  an_enumerator,
  in_maybe,
  in_specifiers,
  in_types,
  in_type,
  in_members,
  in_member_declarators,
  in_enumerators,
  in_declarator,
};
ghost use Rattle.lt_placing.specs.Walks.{Copies, CopiesTypeName, Passes, in_member};

use crate::declarator::declarator;
use crate::expression::maybe;
use crate::walk::Walk;
use lt_model::Name;
use lt_tree::makes::specifier as makes;
use lt_tree::{Enumerator, Member, MemberDeclarator, Specifiers, TypeName, TypeSpecifier};
use std::alloc::{AllocError, Global};

/// A name once more.
pub fn copy(alloc: Global, name: &Name) -> Result<Name, AllocError>
    ensures { IfOk result (λ made. made ≡ name.now) }
{
    Name::new(alloc, name.as_slice())
}

/// A name once more, if there is one.
pub fn copy_maybe(alloc: Global, name: &Option<Name>) -> Result<Option<Name>, AllocError>
    ensures { IfOk result (λ made. made ≡ name.now) }
{
    match name {
        None => Ok(None),
        Some(name) => Ok(Some(copy(alloc, name)?)),
    }
}

#[cycle(expressions)]
pub fn specifiers(
    alloc: Global,
    walk: &mut Walk,
    specifiers: &Specifiers,
) -> Result<Specifiers, AllocError>
    ensures { Copies walk.old walk.new result specifiers_of (specifiers_of specifiers.now) (in_specifiers (specifiers_of specifiers.now)) }
{
    let types = types(alloc, walk, specifiers.types.as_slice())?;
    Ok(Specifiers {
        storage: Vec::from_slice(alloc, specifiers.storage.as_slice())?,
        inline: specifiers.inline,
        noreturn: specifiers.noreturn,
        quals: specifiers.quals,
        types,
    })
}

#[cycle(expressions)]
fn type_name(alloc: Global, walk: &mut Walk, name: &TypeName) -> Result<TypeName, AllocError>
    ensures { CopiesTypeName walk.old walk.new result (λ made. made) name.now }
{
    let specifiers = specifiers(alloc, walk, &name.specifiers)?;
    Ok(TypeName {
        specifiers,
        declarator: declarator(alloc, walk, &name.declarator)?,
    })
}

/// The name of a type, in a box.
#[cycle(expressions)]
pub fn boxed_type_name(
    alloc: Global,
    walk: &mut Walk,
    name: &TypeName,
) -> Result<Box<TypeName>, AllocError>
    ensures { CopiesTypeName walk.old walk.new result (λ made. made.value) name.now }
{
    Ok(Box::new(alloc, type_name(alloc, walk, name)?)?)
}

#[cycle(expressions)]
fn types(
    alloc: Global,
    walk: &mut Walk,
    list: &[TypeSpecifier],
) -> Result<Vec<TypeSpecifier>, AllocError>
    ensures { Copies walk.old walk.new result (λ made. types_in made.items) (types_in list.now) (in_types (types_in list.now)) }
{
    let mut all = Vec::new(alloc);
    'list: for each in list {
        all.push(type_specifier(alloc, walk, each)?)?;
    }
    Ok(all)
}

#[cycle(expressions)]
fn type_specifier(
    alloc: Global,
    walk: &mut Walk,
    ty: &TypeSpecifier,
) -> Result<TypeSpecifier, AllocError>
    ensures { Copies walk.old walk.new result type_of (type_of ty.now) (in_type (type_of ty.now)) }
{
    match ty {
        TypeSpecifier::Basic(basic) => Ok(makes::basic(*basic)),
        TypeSpecifier::Word(word) => Ok(makes::word(*word)),
        TypeSpecifier::StructTag(tag) => Ok(makes::struct_tag(copy(alloc, tag)?)),
        TypeSpecifier::Struct(tag, list) => struct_with(alloc, walk, list.as_slice(), tag),
        TypeSpecifier::EnumTag(tag) => Ok(makes::enum_tag(copy(alloc, tag)?)),
        TypeSpecifier::Enum(tag, list) => enum_with(alloc, walk, list.as_slice(), tag),
        TypeSpecifier::Named(name) => Ok(makes::named(copy(alloc, name)?)),
    }
}

#[cycle(expressions)]
fn struct_with(
    alloc: Global,
    walk: &mut Walk,
    list: &[Member],
    tag: &Option<Name>,
) -> Result<TypeSpecifier, AllocError>
    ensures { Copies walk.old walk.new result type_of (t.Struct tag.now (members_in list.now)) (in_members (members_in list.now)) }
{
    let members = members(alloc, walk, list)?;
    Ok(makes::struct_with(copy_maybe(alloc, tag)?, members))
}

#[cycle(expressions)]
fn enum_with(
    alloc: Global,
    walk: &mut Walk,
    list: &[Enumerator],
    tag: &Option<Name>,
) -> Result<TypeSpecifier, AllocError>
    ensures { Copies walk.old walk.new result type_of (t.Enum tag.now (enumerators_in list.now)) (in_enumerators (enumerators_in list.now)) }
{
    let enumerators = enumerators(alloc, walk, list)?;
    Ok(makes::enum_with(copy_maybe(alloc, tag)?, enumerators))
}

#[cycle(expressions)]
fn members(alloc: Global, walk: &mut Walk, list: &[Member]) -> Result<Vec<Member>, AllocError>
    ensures { Copies walk.old walk.new result (λ made. members_in made.items) (members_in list.now) (in_members (members_in list.now)) }
{
    let mut all = Vec::new(alloc);
    'list: for each in list {
        all.push(member(alloc, walk, each)?)?;
    }
    Ok(all)
}

#[cycle(expressions)]
fn member(alloc: Global, walk: &mut Walk, member: &Member) -> Result<Member, AllocError>
    ensures { Copies walk.old walk.new result member_of (member_of member.now) (in_member (member_of member.now)) }
{
    walk.step();
    let specifiers = specifiers(alloc, walk, &member.specifiers)?;
    let declarators = member_declarators(alloc, walk, member.declarators.as_slice())?;
    Ok(makes::member(specifiers, declarators))
}

#[cycle(expressions)]
fn member_declarators(
    alloc: Global,
    walk: &mut Walk,
    list: &[MemberDeclarator],
) -> Result<Vec<MemberDeclarator>, AllocError>
    ensures { Copies walk.old walk.new result (λ made. member_declarators_in made.items) (member_declarators_in list.now) (in_member_declarators (member_declarators_in list.now)) }
{
    let mut all = Vec::new(alloc);
    'list: for each in list {
        all.push(member_declarator(alloc, walk, each)?)?;
    }
    Ok(all)
}

#[cycle(expressions)]
fn member_declarator(
    alloc: Global,
    walk: &mut Walk,
    member: &MemberDeclarator,
) -> Result<MemberDeclarator, AllocError>
    ensures { IfOk result (λ made. Passes walk.old walk.new
        (λ new k. (declarator_of made.declarator ≡ declarator_of member.now.declarator) × (maybe_in made.width ≡ maybe_in member.now.width))
        (in_declarator (declarator_of member.now.declarator) ++ in_maybe (maybe_in member.now.width))) }
{
    let declarator = declarator(alloc, walk, &member.declarator)?;
    Ok(MemberDeclarator {
        declarator,
        width: maybe(alloc, walk, &member.width)?,
    })
}

#[cycle(expressions)]
fn enumerators(
    alloc: Global,
    walk: &mut Walk,
    list: &[Enumerator],
) -> Result<Vec<Enumerator>, AllocError>
    ensures { Copies walk.old walk.new result (λ made. enumerators_in made.items) (enumerators_in list.now) (in_enumerators (enumerators_in list.now)) }
{
    let mut all = Vec::new(alloc);
    'list: for each in list {
        all.push(enumerator(alloc, walk, each)?)?;
    }
    Ok(all)
}

#[cycle(expressions)]
fn enumerator(
    alloc: Global,
    walk: &mut Walk,
    enumerator: &Enumerator,
) -> Result<Enumerator, AllocError>
    ensures { IfOk result (λ made. Passes walk.old walk.new
        (λ new k. (made.name ≡ enumerator.now.name) × (maybe_in made.value ≡ maybe_in enumerator.now.value))
        (an_enumerator enumerator.now.name (maybe_in enumerator.now.value) ∷ in_maybe (maybe_in enumerator.now.value))) }
{
    walk.step();
    let name = copy(alloc, &enumerator.name)?;
    Ok(Enumerator {
        name,
        value: maybe(alloc, walk, &enumerator.value)?,
    })
}
