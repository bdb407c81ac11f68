// Members of structs, C11 6.7.2.1.

ghost use Rattle.std.specs.Prelude.{◌≡◌, ◌++◌, [], List, IfOk};
ghost use Rattle.lt_tree.specs.View.{member_of};
ghost use Rattle.lt_tree.specs.Records as tree;
ghost use Rattle.lt_tree.specs.Records.{maybe_in, declarator_of};
ghost use Rattle.lt_tree.specs.Typing.Types.{CType};
ghost use Rattle.lt_tree.specs.Typing.Rules.{broken_if, incomplete_type};
ghost use Rattle.lt_tree.specs.Typing.Declarators.{member_faults, is_member_already, with_member, has_width};
ghost use Rattle.lt_tree.specs.Typing.NodeEnds.{alone_faults, is_no_declarator};
ghost use Rattle.lt_tree.specs.Typing.ExpressionTyping as typing;
ghost use Rattle.lt_env.specs.Going.{Gives};
ghost use Rattle.lt_type.specs.Ends.{member_declarator, members_end};
ghost use Rattle.lt_type.specs.Membered.{membered_of};
ghost use Rattle.lt_declare.specs.DeclaredViews.{members_in, specified_of, declares_of};

use crate::walk::declarators::declarator;
use crate::walk::naming::{maybe, specifiers};
use lt_declare::{Declares, Judging, OpenMembers, Setting, Specified};
use lt_env::{Faults, TypeStop, Walker};
use lt_model::Name;
use lt_tree::typed::Rule;
use lt_tree::{Member, MemberDeclarator};
use std::alloc::{AllocError, Global};

/// Members so far, and what declarators break that are no nodes.
#[derive(Drop)]
pub struct Membered {
    pub members: OpenMembers,
    pub faults: Faults,
}

// The members of a struct.
#[cycle(typing)]
pub fn members(walker: &mut Walker, list: &[Member]) -> Result<OpenMembers, TypeStop>
    ensures { Gives members_in walker.old walker.new result (λ types. typing.members (tree.members_in list.now) []) }
{
    let mut found = OpenMembers::new(walker.types.alloc());
    'list: for m in list {
        found = member(walker, m, found)?;
    }
    Ok(found)
}

// A declaration among members, behind others.
#[cycle(typing)]
fn member(walker: &mut Walker, m: &Member, found: OpenMembers) -> Result<OpenMembers, TypeStop>
    ensures { Gives members_in walker.old walker.new result (λ types. typing.struct_member (member_of m.now) (members_in types found)) }
{
    let node = walker.enter()?;
    let it = specifiers(walker, &m.specifiers, Setting::Elsewhere)?;
    let all = member_declarators(walker, m.declarators.as_slice(), &it, found)?;
    end_member(
        walker,
        node,
        is_no_declarator(m.declarators.as_slice()),
        &it,
        all,
    )
}

// Whether no declarator follows.
fn is_no_declarator(list: &[MemberDeclarator]) -> bool
    ensures { result ≡ is_no_declarator (tree.member_declarators_in list.now) }
{
    match list.split_first() {
        None => true,
        Some(_) => false,
    }
}

// A declaration among members ends.
fn end_member(
    walker: &mut Walker,
    node: u32,
    is_alone: bool,
    it: &Specified,
    found: Membered,
) -> Result<OpenMembers, TypeStop>
    ensures { Gives members_in walker.old walker.new result (λ types. members_end node is_alone (specified_of types it.now) (membered_of types found)) }
{
    let faults = faults_with(walker.types.alloc(), is_alone, it, found.faults)?;
    walker.settle(node, &faults)?;
    Ok(found.members)
}

// What a declaration among members breaks.
fn faults_with(
    alloc: Global,
    is_alone: bool,
    it: &Specified,
    faults: Faults,
) -> Result<Faults, AllocError>
    ensures { IfOk result (λ all. (types : List CType) → all ≡ broken_if incomplete_type is_alone ++ alone_faults is_alone (specified_of types it.now) ++ faults) }
{
    if !is_alone {
        return Ok(faults);
    }
    let mut all = Faults::new(alloc);
    all.broken_if(Rule::IncompleteType, true)?;
    all.append(it.faults.copied(alloc)?)?;
    all.append(faults)?;
    Ok(all)
}

#[cycle(typing)]
fn member_declarators(
    walker: &mut Walker,
    list: &[MemberDeclarator],
    it: &Specified,
    found: OpenMembers,
) -> Result<Membered, TypeStop>
    ensures { Gives membered_of walker.old walker.new result (λ types. typing.member_declarators (tree.member_declarators_in list.now) (specified_of types it.now) (members_in types found)) }
{
    let mut all = Membered {
        members: found,
        faults: Faults::new(walker.types.alloc()),
    };
    'list: for m in list {
        let declared = member_declarator(walker, m, it, &all.members)?;
        all = with_declared(all, declared)?;
    }
    Ok(all)
}

// A member and its width, behind others.
#[cycle(typing)]
fn member_declarator(
    walker: &mut Walker,
    m: &MemberDeclarator,
    it: &Specified,
    found: &OpenMembers,
) -> Result<Declares, TypeStop>
    ensures { Gives declares_of walker.old walker.new result (λ types. member_declarator (declarator_of m.now.declarator) (maybe_in m.now.width) (specified_of types it.now) (member_faults (members_in types found.now) (has_width (maybe_in m.now.width)))) }
{
    let judging = Judging::Member {
        is_declared: is_declared(found, &m.declarator.name),
        has_width: m.width.is_some(),
    };
    let declared = declarator(walker, &m.declarator, it, false, judging)?;
    let _width = maybe(walker, &m.width)?;
    Ok(declared)
}

// Whether there is a member of this name.
fn is_declared(members: &OpenMembers, name: &Option<Name>) -> bool
    ensures { (types : List CType) → result ≡ is_member_already (members_in types members.now) name.now }
{
    match name {
        None => false,
        Some(name) => members.has(name.as_slice()),
    }
}

// With what one more declarator declares.
fn with_declared(all: Membered, declared: Declares) -> Result<Membered, AllocError>
    ensures members { IfOk result (λ more. (types : List CType) → members_in types more.members ≡ with_member (members_in types all.members) (declares_of types declared)) }
    ensures faults { IfOk result (λ more. more.faults ≡ all.faults ++ declared.faults) }
{
    let Membered {
        mut members,
        mut faults,
    } = all;
    let Declares {
        node: _node,
        name,
        ty,
        parameters: _parameters,
        faults: others,
    } = declared;
    if let Some(name) = name {
        members.add(name, ty)?;
    }
    faults.append(others)?;
    Ok(Membered { members, faults })
}
