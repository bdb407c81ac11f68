ghost use Rattle.std.specs.Prelude.{◌≡◌, IfOk};
ghost use Rattle.lt_tree.specs.View.{type_of, member_of};
ghost use Rattle.lt_tree.specs.Records.{specifiers_of, declarator_of, types_in, members_in, member_declarators_in, enumerators_in, maybe_in};
ghost use Rattle.lt_expr.specs.Walk as walk;

use super::walker::Walker;
use lt_tree::{Enumerator, Member, MemberDeclarator, Specifiers, TypeName, TypeSpecifier};
use std::alloc::AllocError;

impl Walker {
    // The name of a type.
    #[cycle(walk)]
    pub(super) fn type_name(&mut self, name: &TypeName) -> Result<(), AllocError>
        ensures { IfOk result (λ _. self.new ≡ walk.walk_specifiers (specifiers_of name.now.specifiers) (walk.walk_declarator (declarator_of name.now.declarator) self.old)) }
    {
        self.declarator(&name.declarator)?;
        self.specifiers(&name.specifiers)
    }

    /// Walks the specifiers of a declaration.
    #[cycle(walk)]
    pub fn specifiers(&mut self, specifiers: &Specifiers) -> Result<(), AllocError>
        ensures { IfOk result (λ _. self.new ≡ walk.walk_specifiers (specifiers_of specifiers.now) self.old) }
    {
        self.types(specifiers.types.as_slice())
    }

    #[cycle(walk)]
    fn types(&mut self, list: &[TypeSpecifier]) -> Result<(), AllocError>
        ensures { IfOk result (λ _. self.new ≡ walk.walk_types (types_in list.now) self.old) }
    {
        'types: for at in (0..list.len()).rev() {
            self.type_specifier(&list[at])?;
        }
        Ok(())
    }

    #[cycle(walk)]
    fn type_specifier(&mut self, kind: &TypeSpecifier) -> Result<(), AllocError>
        ensures { IfOk result (λ _. self.new ≡ walk.walk_type (type_of kind.now) self.old) }
    {
        match kind {
            TypeSpecifier::Struct(_, members) => self.members(members.as_slice()),
            TypeSpecifier::Enum(_, enumerators) => self.enumerators(enumerators.as_slice()),
            TypeSpecifier::Basic(_)
            | TypeSpecifier::Word(_)
            | TypeSpecifier::StructTag(_)
            | TypeSpecifier::EnumTag(_)
            | TypeSpecifier::Named(_) => Ok(()),
        }
    }

    #[cycle(walk)]
    fn members(&mut self, list: &[Member]) -> Result<(), AllocError>
        ensures { IfOk result (λ _. self.new ≡ walk.walk_members (members_in list.now) self.old) }
    {
        'members: for at in (0..list.len()).rev() {
            self.member(&list[at])?;
        }
        Ok(())
    }

    #[cycle(walk)]
    fn member(&mut self, member: &Member) -> Result<(), AllocError>
        ensures { IfOk result (λ _. self.new ≡ walk.walk_member (member_of member.now) self.old) }
    {
        let start = self.enter();
        self.member_declarators(member.declarators.as_slice())?;
        self.specifiers(&member.specifiers)?;
        self.leave(start)
    }

    #[cycle(walk)]
    fn member_declarators(&mut self, list: &[MemberDeclarator]) -> Result<(), AllocError>
        ensures { IfOk result (λ _. self.new ≡ walk.walk_member_declarators (member_declarators_in list.now) self.old) }
    {
        'declarators: for at in (0..list.len()).rev() {
            self.member_declarator(&list[at])?;
        }
        Ok(())
    }

    // A member and its width.
    #[cycle(walk)]
    fn member_declarator(&mut self, member: &MemberDeclarator) -> Result<(), AllocError>
        ensures { IfOk result (λ _. self.new ≡ walk.walk_declarator (declarator_of member.now.declarator) (walk.walk_maybe (maybe_in member.now.width) self.old)) }
    {
        self.maybe(&member.width)?;
        self.declarator(&member.declarator)
    }

    #[cycle(walk)]
    fn enumerators(&mut self, list: &[Enumerator]) -> Result<(), AllocError>
        ensures { IfOk result (λ _. self.new ≡ walk.walk_enumerators (enumerators_in list.now) self.old) }
    {
        'enumerators: for at in (0..list.len()).rev() {
            self.enumerator(&list[at])?;
        }
        Ok(())
    }

    #[cycle(walk)]
    fn enumerator(&mut self, enumerator: &Enumerator) -> Result<(), AllocError>
        ensures { IfOk result (λ _. self.new ≡ walk.node (walk.walk_maybe (maybe_in enumerator.now.value)) self.old) }
    {
        let start = self.enter();
        self.maybe(&enumerator.value)?;
        self.leave(start)
    }
}
