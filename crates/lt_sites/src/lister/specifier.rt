ghost use Rattle.std.specs.Prelude.{◌++◌};
ghost use Rattle.lt_tree.specs.View.{type_of, member_of};
ghost use Rattle.lt_tree.specs.Records.{specifiers_of, declarator_of, types_in, members_in, member_declarators_in, enumerators_in, maybe_in};
ghost use Rattle.lt_tree.specs.Nodes.{a_member, an_enumerator, in_specifiers, in_declarator, in_types, in_type, in_members, in_member_declarators, in_enumerators, in_maybe};
ghost use Rattle.lt_sites.specs.Sites.{in_node};
ghost use Rattle.lt_sites.specs.Listed.{Lists};

use super::sites::Lister;
use crate::site::NodeRef;
use lt_tree::{Enumerator, Member, MemberDeclarator, Specifiers, TypeName, TypeSpecifier};
use std::alloc::AllocError;

impl<'u> Lister<'u> {
    // The name of a type.
    #[cycle(listing)]
    #[tactic(auto, using(crate::proofs::Grown::both))]
    pub(super) fn type_name(&mut self, name: &'u TypeName) -> Result<(), AllocError>
        ensures { Lists result self.old self.new (in_specifiers (specifiers_of name.now.specifiers) ++ in_declarator (declarator_of name.now.declarator)) }
    {
        self.declarator(&name.declarator)?;
        self.specifiers(&name.specifiers)
    }

    /// Lists the specifiers of a declaration.
    #[cycle(listing)]
    pub fn specifiers(&mut self, specifiers: &'u Specifiers) -> Result<(), AllocError>
        ensures { Lists result self.old self.new (in_specifiers (specifiers_of specifiers.now)) }
    {
        self.types(specifiers.types.as_slice())
    }

    #[cycle(listing)]
    fn types(&mut self, list: &'u [TypeSpecifier]) -> Result<(), AllocError>
        ensures { Lists result self.old self.new (in_types (types_in list.now)) }
    {
        'types: for at in (0..list.len()).rev() {
            self.type_specifier(&list[at])?;
        }
        Ok(())
    }

    #[cycle(listing)]
    #[tactic(auto, using(crate::proofs::Grown::listed_none))]
    fn type_specifier(&mut self, kind: &'u TypeSpecifier) -> Result<(), AllocError>
        ensures { Lists result self.old self.new (in_type (type_of kind.now)) }
    {
        match kind {
            TypeSpecifier::Struct(_, members) => self.members(members.as_slice()),
            TypeSpecifier::Enum(_, enumerators) => self.enumerators(enumerators.as_slice()),
            TypeSpecifier::Basic(_)
            | TypeSpecifier::Word(_)
            | TypeSpecifier::StructTag(_)
            | TypeSpecifier::EnumTag(_)
            | TypeSpecifier::Named(_) => Ok(()),
        }
    }

    #[cycle(listing)]
    fn members(&mut self, list: &'u [Member]) -> Result<(), AllocError>
        ensures { Lists result self.old self.new (in_members (members_in list.now)) }
    {
        'members: for at in (0..list.len()).rev() {
            self.member(&list[at])?;
        }
        Ok(())
    }

    #[cycle(listing)]
    fn member(&mut self, member: &'u Member) -> Result<(), AllocError>
        ensures { Lists result self.old self.new (in_node (a_member (member_of member.now))) }
    {
        let start = self.len();
        self.member_declarators(member.declarators.as_slice())?;
        self.specifiers(&member.specifiers)?;
        self.leave(NodeRef::Member(member), start, 0)
    }

    #[cycle(listing)]
    fn member_declarators(&mut self, list: &'u [MemberDeclarator]) -> Result<(), AllocError>
        ensures { Lists result self.old self.new (in_member_declarators (member_declarators_in list.now)) }
    {
        'declarators: for at in (0..list.len()).rev() {
            self.member_declarator(&list[at])?;
        }
        Ok(())
    }

    // A member and its width.
    #[cycle(listing)]
    #[tactic(auto, using(crate::proofs::Grown::both))]
    fn member_declarator(&mut self, member: &'u MemberDeclarator) -> Result<(), AllocError>
        ensures { Lists result self.old self.new (in_declarator (declarator_of member.now.declarator) ++ in_maybe (maybe_in member.now.width)) }
    {
        self.maybe(&member.width)?;
        self.declarator(&member.declarator)
    }

    #[cycle(listing)]
    fn enumerators(&mut self, list: &'u [Enumerator]) -> Result<(), AllocError>
        ensures { Lists result self.old self.new (in_enumerators (enumerators_in list.now)) }
    {
        'enumerators: for at in (0..list.len()).rev() {
            self.enumerator(&list[at])?;
        }
        Ok(())
    }

    #[cycle(listing)]
    fn enumerator(&mut self, enumerator: &'u Enumerator) -> Result<(), AllocError>
        ensures { Lists result self.old self.new (in_node (an_enumerator enumerator.now.name (maybe_in enumerator.now.value))) }
    {
        let start = self.len();
        self.maybe(&enumerator.value)?;
        self.leave(NodeRef::Enumerator(enumerator), start, 0)
    }
}
