// Specifiers and marks made of their parts.

ghost use Rattle.std.specs.Prelude.{◌≡◌, IfOk};
ghost use Rattle.lt_tree.specs.Tree as t;
ghost use Rattle.lt_tree.specs.View.{expression_of, mark_of, type_of, member_of};
ghost use Rattle.lt_tree.specs.Records.{
  bindings_in,
  specifiers_of,
  members_in,
  member_declarators_in,
  enumerators_in,
  maybe_in,
  maybe_given,
};

use crate::declarator::Declarator;
use crate::expression::Expr;
use crate::mark::{Binding, Mark};
use crate::specifier::{
    BasicType, Enumerator, Member, MemberDeclarator, Specifiers, TypeSpecifier, TypeWord,
};
use lt_model::Name;
use std::alloc::{AllocError, Global};

/// `pc_label`, or `pc_label_bind` where names are bound; the id as written.
pub fn mark(predicate: Expr, id: Name, tag: Name, bound: Vec<Binding>) -> Mark
    ensures { mark_of result ≡ t.mark (expression_of predicate) id tag (bindings_in bound.items) }
{
    Mark {
        predicate,
        id,
        tag,
        bound,
    }
}

/// All type words together.
pub fn basic(basic: BasicType) -> TypeSpecifier
    ensures { type_of result ≡ t.Basic basic }
{
    TypeSpecifier::Basic(basic)
}

/// A type word of those that name no type together.
pub fn word(word: TypeWord) -> TypeSpecifier
    ensures { type_of result ≡ t.Word word }
{
    TypeSpecifier::Word(word)
}

/// A struct by its tag alone.
pub fn struct_tag(tag: Name) -> TypeSpecifier
    ensures { type_of result ≡ t.StructTag tag }
{
    TypeSpecifier::StructTag(tag)
}

/// A struct with its members.
pub fn struct_with(tag: Option<Name>, members: Vec<Member>) -> TypeSpecifier
    ensures { type_of result ≡ t.Struct tag (members_in members.items) }
{
    TypeSpecifier::Struct(tag, members)
}

/// An enum by its tag alone.
pub fn enum_tag(tag: Name) -> TypeSpecifier
    ensures { type_of result ≡ t.EnumTag tag }
{
    TypeSpecifier::EnumTag(tag)
}

/// An enum with its enumerators.
pub fn enum_with(tag: Option<Name>, enumerators: Vec<Enumerator>) -> TypeSpecifier
    ensures { type_of result ≡ t.Enum tag (enumerators_in enumerators.items) }
{
    TypeSpecifier::Enum(tag, enumerators)
}

/// A typedef name.
pub fn named(name: Name) -> TypeSpecifier
    ensures { type_of result ≡ t.Named name }
{
    TypeSpecifier::Named(name)
}

/// A declaration among the members of a struct.
pub fn member(specifiers: Specifiers, declarators: Vec<MemberDeclarator>) -> Member
    ensures { member_of result ≡ t.member (specifiers_of specifiers) (member_declarators_in declarators.items) }
{
    Member {
        specifiers,
        declarators,
    }
}

/// A member, with its width if it is a bit-field.
pub fn member_declarator(
    alloc: Global,
    declarator: Declarator,
    width: Option<Expr>,
) -> Result<MemberDeclarator, AllocError>
    ensures declarator { IfOk result (λ all. all.declarator ≡ declarator) }
    ensures width { IfOk result (λ all. maybe_in all.width ≡ maybe_given width) }
{
    let width = boxed(alloc, width)?;
    Ok(MemberDeclarator { declarator, width })
}

/// An enumeration constant, with its value if it is given.
pub fn enumerator(alloc: Global, name: Name, value: Option<Expr>) -> Result<Enumerator, AllocError>
    ensures name { IfOk result (λ all. all.name ≡ name) }
    ensures value { IfOk result (λ all. maybe_in all.value ≡ maybe_given value) }
{
    let value = boxed(alloc, value)?;
    Ok(Enumerator { name, value })
}

/// An expression that may be left out, in a box.
pub(crate) fn boxed(alloc: Global, e: Option<Expr>) -> Result<Option<Box<Expr>>, AllocError>
    ensures { IfOk result (λ all. maybe_in all ≡ maybe_given e) }
{
    match e {
        None => Ok(None),
        Some(e) => Ok(Some(Box::new(alloc, e)?)),
    }
}
