// Specifiers without their marks.

ghost use Rattle.std.specs.Prelude.{◌≡◌, IfOk};
ghost use Rattle.lt_tree.specs.Tree as t;
ghost use Rattle.lt_tree.specs.View.{type_of, member_of};
ghost use Rattle.lt_tree.specs.Records.{
  maybe_in,
  specifiers_of,
  declarator_of,
  types_in,
  members_in,
  member_declarators_in,
  enumerators_in,
};
ghost use Rattle.lt_tree.specs.Erasure.{
  erased_maybe,
  erased_specifiers,
  erased_types,
  erased_type,
  erased_members,
  erased_member,
  erased_member_declarators,
  erased_enumerators,
  erased_declarator,
};

use crate::erasure::declarator::declarator;
use crate::erasure::expression::maybe;
use lt_model::Name;
use lt_tree::makes::specifier as makes;
use lt_tree::{Enumerator, Member, MemberDeclarator, Specifiers, TypeName, TypeSpecifier};
use std::alloc::{AllocError, Global};

/// A name once more.
pub fn copy(alloc: Global, name: &Name) -> Result<Name, AllocError>
    ensures { IfOk result (λ all. all ≡ name.now) }
{
    Name::new(alloc, name.as_slice())
}

/// A name once more, if there is one.
pub fn copy_maybe(alloc: Global, name: &Option<Name>) -> Result<Option<Name>, AllocError>
    ensures { IfOk result (λ all. all ≡ name.now) }
{
    match name {
        None => Ok(None),
        Some(name) => Ok(Some(copy(alloc, name)?)),
    }
}

/// Specifiers without marks.
#[cycle(erasure)]
pub fn specifiers(alloc: Global, specifiers: &Specifiers) -> Result<Specifiers, AllocError>
    ensures { IfOk result (λ all. specifiers_of all ≡ erased_specifiers (specifiers_of specifiers.now)) }
{
    let types = types(alloc, specifiers.types.as_slice())?;
    Ok(Specifiers {
        storage: Vec::from_slice(alloc, specifiers.storage.as_slice())?,
        inline: specifiers.inline,
        noreturn: specifiers.noreturn,
        quals: specifiers.quals,
        types,
    })
}

#[cycle(erasure)]
fn type_name(alloc: Global, name: &TypeName) -> Result<TypeName, AllocError>
    ensures specifiers { IfOk result (λ all. specifiers_of all.specifiers ≡ erased_specifiers (specifiers_of name.now.specifiers)) }
    ensures declarator { IfOk result (λ all. declarator_of all.declarator ≡ erased_declarator (declarator_of name.now.declarator)) }
{
    let specifiers = specifiers(alloc, &name.specifiers)?;
    Ok(TypeName {
        specifiers,
        declarator: declarator(alloc, &name.declarator)?,
    })
}

/// The name of a type without marks, in a box.
#[cycle(erasure)]
pub fn boxed_type_name(alloc: Global, name: &TypeName) -> Result<Box<TypeName>, AllocError>
    ensures specifiers { IfOk result (λ all. specifiers_of all.value.specifiers ≡ erased_specifiers (specifiers_of name.now.specifiers)) }
    ensures declarator { IfOk result (λ all. declarator_of all.value.declarator ≡ erased_declarator (declarator_of name.now.declarator)) }
{
    Ok(Box::new(alloc, type_name(alloc, name)?)?)
}

#[cycle(erasure)]
fn types(alloc: Global, list: &[TypeSpecifier]) -> Result<Vec<TypeSpecifier>, AllocError>
    ensures { IfOk result (λ all. types_in all.items ≡ erased_types (types_in list.now)) }
{
    let mut all = Vec::new(alloc);
    'list: for each in list {
        all.push(type_specifier(alloc, each)?)?;
    }
    Ok(all)
}

#[cycle(erasure)]
fn type_specifier(alloc: Global, ty: &TypeSpecifier) -> Result<TypeSpecifier, AllocError>
    ensures { IfOk result (λ all. type_of all ≡ erased_type (type_of ty.now)) }
{
    match ty {
        TypeSpecifier::Basic(basic) => Ok(makes::basic(*basic)),
        TypeSpecifier::Word(word) => Ok(makes::word(*word)),
        TypeSpecifier::StructTag(tag) => Ok(makes::struct_tag(copy(alloc, tag)?)),
        TypeSpecifier::Struct(tag, list) => struct_with(alloc, list.as_slice(), tag),
        TypeSpecifier::EnumTag(tag) => Ok(makes::enum_tag(copy(alloc, tag)?)),
        TypeSpecifier::Enum(tag, list) => enum_with(alloc, list.as_slice(), tag),
        TypeSpecifier::Named(name) => Ok(makes::named(copy(alloc, name)?)),
    }
}

#[cycle(erasure)]
fn struct_with(
    alloc: Global,
    list: &[Member],
    tag: &Option<Name>,
) -> Result<TypeSpecifier, AllocError>
    ensures { IfOk result (λ all. type_of all ≡ t.Struct tag.now (erased_members (members_in list.now))) }
{
    let members = members(alloc, list)?;
    Ok(makes::struct_with(copy_maybe(alloc, tag)?, members))
}

#[cycle(erasure)]
fn enum_with(
    alloc: Global,
    list: &[Enumerator],
    tag: &Option<Name>,
) -> Result<TypeSpecifier, AllocError>
    ensures { IfOk result (λ all. type_of all ≡ t.Enum tag.now (erased_enumerators (enumerators_in list.now))) }
{
    let enumerators = enumerators(alloc, list)?;
    Ok(makes::enum_with(copy_maybe(alloc, tag)?, enumerators))
}

#[cycle(erasure)]
fn members(alloc: Global, list: &[Member]) -> Result<Vec<Member>, AllocError>
    ensures { IfOk result (λ all. members_in all.items ≡ erased_members (members_in list.now)) }
{
    let mut all = Vec::new(alloc);
    'list: for each in list {
        all.push(member(alloc, each)?)?;
    }
    Ok(all)
}

#[cycle(erasure)]
fn member(alloc: Global, member: &Member) -> Result<Member, AllocError>
    ensures { IfOk result (λ all. member_of all ≡ erased_member (member_of member.now)) }
{
    let specifiers = specifiers(alloc, &member.specifiers)?;
    let declarators = member_declarators(alloc, member.declarators.as_slice())?;
    Ok(makes::member(specifiers, declarators))
}

#[cycle(erasure)]
fn member_declarators(
    alloc: Global,
    list: &[MemberDeclarator],
) -> Result<Vec<MemberDeclarator>, AllocError>
    ensures { IfOk result (λ all. member_declarators_in all.items ≡ erased_member_declarators (member_declarators_in list.now)) }
{
    let mut all = Vec::new(alloc);
    'list: for each in list {
        all.push(member_declarator(alloc, each)?)?;
    }
    Ok(all)
}

#[cycle(erasure)]
fn member_declarator(
    alloc: Global,
    member: &MemberDeclarator,
) -> Result<MemberDeclarator, AllocError>
    ensures declarator { IfOk result (λ all. declarator_of all.declarator ≡ erased_declarator (declarator_of member.now.declarator)) }
    ensures width { IfOk result (λ all. maybe_in all.width ≡ erased_maybe (maybe_in member.now.width)) }
{
    let declarator = declarator(alloc, &member.declarator)?;
    Ok(MemberDeclarator {
        declarator,
        width: maybe(alloc, &member.width)?,
    })
}

#[cycle(erasure)]
fn enumerators(alloc: Global, list: &[Enumerator]) -> Result<Vec<Enumerator>, AllocError>
    ensures { IfOk result (λ all. enumerators_in all.items ≡ erased_enumerators (enumerators_in list.now)) }
{
    let mut all = Vec::new(alloc);
    'list: for each in list {
        all.push(enumerator(alloc, each)?)?;
    }
    Ok(all)
}

#[cycle(erasure)]
fn enumerator(alloc: Global, enumerator: &Enumerator) -> Result<Enumerator, AllocError>
    ensures name { IfOk result (λ all. all.name ≡ enumerator.now.name) }
    ensures value { IfOk result (λ all. maybe_in all.value ≡ erased_maybe (maybe_in enumerator.now.value)) }
{
    let name = copy(alloc, &enumerator.name)?;
    Ok(Enumerator {
        name,
        value: maybe(alloc, &enumerator.value)?,
    })
}
