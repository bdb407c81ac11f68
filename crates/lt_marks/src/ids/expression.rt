// The greatest id of the marks in an expression.

ghost use Rattle.std.specs.Prelude.{◌≡◌, max, [], ◌∷◌, ◌++◌};
ghost use Rattle.lt_tree.specs.Tree as t;
ghost use Rattle.lt_tree.specs.View.{expression_of, mark_of, type_of, member_of, part_before, parameters_of};
ghost use Rattle.lt_tree.specs.Records.{
  expressions_in,
  maybe_in,
  marks_in,
  bindings_in,
  types_in,
  specifiers_of,
  parts_in,
  declarator_of,
  parameter_list_in,
  members_in,
  member_declarators_in,
  enumerators_in,
};
ghost use Rattle.lt_tree.specs.Ids.{
  ids_in,
  ids_in_expressions,
  ids_in_maybe,
  ids_in_marks,
  ids_in_mark,
  ids_in_bindings,
  ids_in_specifiers,
  ids_in_types,
  ids_in_type,
  ids_in_members,
  ids_in_member,
  ids_in_member_declarators,
  ids_in_enumerators,
  ids_in_declarator,
  ids_in_parts,
  ids_in_parameters,
  ids_in_parameter_list,
  greatest_id,
};

use lt_model::Name;
use lt_tree::{
    Binding, Declarator, DeclaratorPart, Enumerator, Expr, Mark, Member, MemberDeclarator,
    Parameter, Parameters, Specifiers, TypeName, TypeSpecifier, id_number,
};

#[cycle(ids)]
#[tactic(auto, using(crate::proofs::Greatest::greatest_both))]
pub fn in_expression(e: &Expr) -> u32
    ensures { result ≡ greatest_id (ids_in (expression_of e.now)) }
{
    match e {
        Expr::Name(_) | Expr::Constant(_) | Expr::Text(_) => 0,
        Expr::Index(whole, place) => in_expression(whole).max(in_expression(place)),
        Expr::Call(callee, arguments) => {
            in_expression(callee).max(in_expressions(arguments.as_slice()))
        }
        Expr::Member(whole, _) => in_expression(whole),
        Expr::Arrow(pointer, _) => in_expression(pointer),
        Expr::PostInc(target) => in_expression(target),
        Expr::PostDec(target) => in_expression(target),
        Expr::PreInc(target) => in_expression(target),
        Expr::PreDec(target) => in_expression(target),
        Expr::Unary(_, operand) => in_expression(operand),
        Expr::SizeofExpr(operand) => in_expression(operand),
        Expr::SizeofType(name) => in_type_name(name),
        Expr::Cast(name, operand) => in_type_name(name).max(in_expression(operand)),
        Expr::Binary(_, left, right) => in_expression(left).max(in_expression(right)),
        Expr::Logical(_, left, right) => in_expression(left).max(in_expression(right)),
        Expr::Conditional(test, left, right) => {
            in_expression(test)
                .max(in_expression(left))
                .max(in_expression(right))
        }
        Expr::Assign(_, target, value) => in_expression(target).max(in_expression(value)),
        Expr::Comma(parts) => in_expressions(parts.as_slice()),
        Expr::Marked(marks, value) => in_marks(marks.as_slice()).max(in_expression(value)),
        Expr::Decide(operand, when_true, when_false, _) => in_decide(
            operand, when_true, when_false,
        ),
        Expr::After(operand, id, _) => in_expression(operand).max(id_number(id.as_slice())),
    }
}

#[cycle(ids)]
#[tactic(auto, using(crate::proofs::Greatest::greatest_both))]
fn in_decide(operand: &Expr, when_true: &Name, when_false: &Name) -> u32
    ensures { result ≡ max (greatest_id (ids_in (expression_of operand.now))) (greatest_id (when_true.now ∷ when_false.now ∷ [])) }
{
    let ids = id_number(when_true.as_slice()).max(id_number(when_false.as_slice()));
    in_expression(operand).max(ids)
}

#[cycle(ids)]
#[tactic(auto, using(crate::proofs::Greatest::greatest_both))]
fn in_expressions(list: &[Expr]) -> u32
    ensures { result ≡ greatest_id (ids_in_expressions (expressions_in list.now)) }
{
    let mut best: u32 = 0;
    'list: for e in list {
        best = best.max(in_expression(e));
    }
    best
}

#[cycle(ids)]
#[tactic(auto, using(crate::proofs::Greatest::greatest_both))]
fn in_marks(list: &[Mark]) -> u32
    ensures { result ≡ greatest_id (ids_in_marks (marks_in list.now)) }
{
    let mut best: u32 = 0;
    'list: for mark in list {
        best = best.max(in_mark(mark));
    }
    best
}

#[cycle(ids)]
#[tactic(auto, using(crate::proofs::Greatest::greatest_both))]
pub fn in_mark(mark: &Mark) -> u32
    ensures { result ≡ greatest_id (ids_in_mark (mark_of mark.now)) }
{
    let own = id_number(mark.id.as_slice()).max(in_bindings(mark.bound.as_slice()));
    in_expression(&mark.predicate).max(own)
}

#[cycle(ids)]
#[tactic(auto, using(crate::proofs::Greatest::greatest_both))]
fn in_bindings(list: &[Binding]) -> u32
    ensures { result ≡ greatest_id (ids_in_bindings (bindings_in list.now)) }
{
    let mut best: u32 = 0;
    'list: for binding in list {
        best = best.max(in_expression(&binding.value));
    }
    best
}

#[cycle(ids)]
#[tactic(auto, using(crate::proofs::Greatest::greatest_both))]
fn in_type_name(name: &TypeName) -> u32
    ensures { result ≡ greatest_id (ids_in_specifiers (specifiers_of name.now.specifiers) ++ ids_in_declarator (declarator_of name.now.declarator)) }
{
    in_specifiers(&name.specifiers).max(in_declarator(&name.declarator))
}

#[cycle(ids)]
#[tactic(auto, using(crate::proofs::Greatest::greatest_both))]
pub fn in_specifiers(specifiers: &Specifiers) -> u32
    ensures { result ≡ greatest_id (ids_in_specifiers (specifiers_of specifiers.now)) }
{
    in_types(specifiers.types.as_slice())
}

#[cycle(ids)]
#[tactic(auto, using(crate::proofs::Greatest::greatest_both))]
fn in_types(list: &[TypeSpecifier]) -> u32
    ensures { result ≡ greatest_id (ids_in_types (types_in list.now)) }
{
    let mut best: u32 = 0;
    'list: for ty in list {
        best = best.max(in_type(ty));
    }
    best
}

#[cycle(ids)]
#[tactic(auto, using(crate::proofs::Greatest::greatest_both))]
fn in_type(ty: &TypeSpecifier) -> u32
    ensures { result ≡ greatest_id (ids_in_type (type_of ty.now)) }
{
    match ty {
        TypeSpecifier::Struct(_, members) => in_members(members.as_slice()),
        TypeSpecifier::Enum(_, enumerators) => in_enumerators(enumerators.as_slice()),
        TypeSpecifier::Basic(_) => 0,
        TypeSpecifier::Word(_) => 0,
        TypeSpecifier::StructTag(_) => 0,
        TypeSpecifier::EnumTag(_) => 0,
        TypeSpecifier::Named(_) => 0,
    }
}

#[cycle(ids)]
#[tactic(auto, using(crate::proofs::Greatest::greatest_both))]
fn in_members(list: &[Member]) -> u32
    ensures { result ≡ greatest_id (ids_in_members (members_in list.now)) }
{
    let mut best: u32 = 0;
    'list: for member in list {
        best = best.max(in_member(member));
    }
    best
}

#[cycle(ids)]
#[tactic(auto, using(crate::proofs::Greatest::greatest_both))]
fn in_member(member: &Member) -> u32
    ensures { result ≡ greatest_id (ids_in_member (member_of member.now)) }
{
    in_specifiers(&member.specifiers).max(in_member_declarators(member.declarators.as_slice()))
}

#[cycle(ids)]
#[tactic(auto, using(crate::proofs::Greatest::greatest_both))]
fn in_member_declarators(list: &[MemberDeclarator]) -> u32
    ensures { result ≡ greatest_id (ids_in_member_declarators (member_declarators_in list.now)) }
{
    let mut best: u32 = 0;
    'list: for member in list {
        best = best.max(in_member_declarator(member));
    }
    best
}

#[cycle(ids)]
#[tactic(auto, using(crate::proofs::Greatest::greatest_both))]
fn in_member_declarator(member: &MemberDeclarator) -> u32
    ensures { result ≡ greatest_id (ids_in_declarator (declarator_of member.now.declarator) ++ ids_in_maybe (maybe_in member.now.width)) }
{
    in_declarator(&member.declarator).max(in_maybe(&member.width))
}

#[cycle(ids)]
#[tactic(auto, using(crate::proofs::Greatest::greatest_both))]
fn in_enumerators(list: &[Enumerator]) -> u32
    ensures { result ≡ greatest_id (ids_in_enumerators (enumerators_in list.now)) }
{
    let mut best: u32 = 0;
    'list: for enumerator in list {
        best = best.max(in_maybe(&enumerator.value));
    }
    best
}

#[cycle(ids)]
#[tactic(auto, using(crate::proofs::Greatest::greatest_both))]
fn in_maybe(e: &Option<Box<Expr>>) -> u32
    ensures { result ≡ greatest_id (ids_in_maybe (maybe_in e.now)) }
{
    match e {
        None => 0,
        Some(e) => in_expression(e),
    }
}

#[cycle(ids)]
#[tactic(auto, using(crate::proofs::Greatest::greatest_both))]
pub fn in_declarator(declarator: &Declarator) -> u32
    ensures { result ≡ greatest_id (ids_in_declarator (declarator_of declarator.now)) }
{
    in_parts(declarator.parts.as_slice())
}

#[cycle(ids)]
#[tactic(auto, using(crate::proofs::Greatest::greatest_both))]
fn in_parts(list: &[DeclaratorPart]) -> u32
    ensures { result ≡ greatest_id (ids_in_parts (parts_in list.now)) }
{
    let mut best: u32 = 0;
    'list: for part in list {
        best = best.max(in_part(part));
    }
    best
}

#[cycle(ids)]
#[tactic(auto, using(crate::proofs::Greatest::greatest_both))]
fn in_part(part: &DeclaratorPart) -> u32
    ensures { (rest : t.Parts) → greatest_id (ids_in_parts (part_before part.now rest)) ≡ max result (greatest_id (ids_in_parts rest)) }
{
    match part {
        DeclaratorPart::Pointer(_) => 0,
        DeclaratorPart::Array(length) => in_maybe(length),
        DeclaratorPart::Function(parameters) => in_parameters(parameters),
    }
}

#[cycle(ids)]
#[tactic(auto, using(crate::proofs::Greatest::greatest_both))]
fn in_parameters(parameters: &Parameters) -> u32
    ensures { result ≡ greatest_id (ids_in_parameters (parameters_of parameters.now)) }
{
    match parameters {
        Parameters::Unstated => 0,
        Parameters::Void => 0,
        Parameters::Listed(list) => in_parameter_list(list.as_slice()),
        Parameters::Open(list) => in_parameter_list(list.as_slice()),
    }
}

#[cycle(ids)]
#[tactic(auto, using(crate::proofs::Greatest::greatest_both))]
fn in_parameter_list(list: &[Parameter]) -> u32
    ensures { result ≡ greatest_id (ids_in_parameter_list (parameter_list_in list.now)) }
{
    let mut best: u32 = 0;
    'list: for parameter in list {
        best = best.max(in_parameter(parameter));
    }
    best
}

#[cycle(ids)]
#[tactic(auto, using(crate::proofs::Greatest::greatest_both))]
fn in_parameter(parameter: &Parameter) -> u32
    ensures { result ≡ greatest_id (ids_in_specifiers (specifiers_of parameter.now.specifiers) ++ ids_in_declarator (declarator_of parameter.now.declarator)) }
{
    in_specifiers(&parameter.specifiers).max(in_declarator(&parameter.declarator))
}
