// Trees made of their parts.

ghost use Rattle.std.specs.Prelude.{◌≡◌, Some};
ghost use Rattle.lt_tree.specs.View.{expression_of, mark_of, type_of, member_of, part_before, parameters_of};
ghost use Rattle.lt_tree.specs.Records.{expressions_in, marks_in, bindings_in, specifiers_of, declarator_of, members_in, member_declarators_in, enumerators_in, maybe_in, parameter_list_in};
ghost use Rattle.lt_tree.specs.Tree as t;
ghost use Rattle.lt_expr.specs.Boxes.{boxed, boxed_type};
ghost use Rattle.lt_expr.specs.Parsing.{Reads};

use lt_model::Name;
use lt_tree::{
    Binding, Declarator, DeclaratorPart, Enumerator, Expr, Mark, Member, MemberDeclarator,
    Parameter, Parameters, Specifiers, Stop, TypeName, TypeSpecifier,
};
use std::alloc::Global;

pub(crate) fn call(callee: Box<Expr>, arguments: Vec<Expr>) -> Expr
    ensures { expression_of result ≡ t.Call (boxed callee) (expressions_in arguments.items) }
{
    Expr::Call(callee, arguments)
}

pub(crate) fn size_of_type(name: Box<TypeName>) -> Expr
    ensures { expression_of result ≡ t.SizeofType (boxed_type name).0 (boxed_type name).1 }
{
    Expr::SizeofType(name)
}

pub(crate) fn cast(name: Box<TypeName>, operand: Box<Expr>) -> Expr
    ensures { expression_of result ≡ t.Cast (boxed_type name).0 (boxed_type name).1 (boxed operand) }
{
    Expr::Cast(name, operand)
}

pub(crate) fn comma(parts: Vec<Expr>) -> Expr
    ensures { expression_of result ≡ t.Comma (expressions_in parts.items) }
{
    Expr::Comma(parts)
}

pub(crate) fn marked(marks: Vec<Mark>, value: Box<Expr>) -> Expr
    ensures { expression_of result ≡ t.Marked (marks_in marks.items) (boxed value) }
{
    Expr::Marked(marks, value)
}

// The name of a type.
pub(crate) fn type_name(
    alloc: Global,
    specifiers: Specifiers,
    declarator: Declarator,
) -> Result<Box<TypeName>, Stop>
    ensures { Reads boxed_type result (Some (specifiers_of specifiers, declarator_of declarator)) }
{
    Ok(Box::new(
        alloc,
        TypeName {
            specifiers,
            declarator,
        },
    )?)
}

pub fn mark(predicate: Expr, id: Name, tag: Name, bound: Vec<Binding>) -> Mark
    ensures { mark_of result ≡ t.mark (expression_of predicate) id tag (bindings_in bound.items) }
{
    Mark {
        predicate,
        id,
        tag,
        bound,
    }
}

pub fn structure(tag: Option<Name>, members: Vec<Member>) -> TypeSpecifier
    ensures { type_of result ≡ t.Struct tag (members_in members.items) }
{
    TypeSpecifier::Struct(tag, members)
}

pub fn enumeration(tag: Option<Name>, enumerators: Vec<Enumerator>) -> TypeSpecifier
    ensures { type_of result ≡ t.Enum tag (enumerators_in enumerators.items) }
{
    TypeSpecifier::Enum(tag, enumerators)
}

pub fn member(specifiers: Specifiers, declarators: Vec<MemberDeclarator>) -> Member
    ensures { member_of result ≡ t.member (specifiers_of specifiers) (member_declarators_in declarators.items) }
{
    Member {
        specifiers,
        declarators,
    }
}

pub fn array(length: Option<Box<Expr>>) -> DeclaratorPart
    ensures { (rest : t.Parts) → part_before result rest ≡ t.Array (maybe_in length) rest }
{
    DeclaratorPart::Array(length)
}

pub fn function(parameters: Parameters) -> DeclaratorPart
    ensures { (rest : t.Parts) → part_before result rest ≡ t.Function (parameters_of parameters) rest }
{
    DeclaratorPart::Function(parameters)
}

pub fn listed(list: Vec<Parameter>) -> Parameters
    ensures { parameters_of result ≡ t.Listed (parameter_list_in list.items) }
{
    Parameters::Listed(list)
}

pub fn open(list: Vec<Parameter>) -> Parameters
    ensures { parameters_of result ≡ t.Open (parameter_list_in list.items) }
{
    Parameters::Open(list)
}

pub fn parameter(specifiers: Specifiers, declarator: Declarator) -> Parameter
    ensures specifiers { specifiers_of result.specifiers ≡ specifiers_of specifiers }
    ensures declarator { declarator_of result.declarator ≡ declarator_of declarator }
{
    Parameter {
        specifiers,
        declarator,
    }
}
