ghost use Rattle.std.specs.Prelude.{◌≡◌, IfOk};
ghost use Rattle.lt_tree.specs.View.{type_of};
ghost use Rattle.lt_tree.specs.Records.{specifiers_of, declarator_of, types_in, members_in, member_declarators_in, enumerators_in};
ghost use Rattle.lt_tree.specs.Scope as scope;
ghost use Rattle.lt_tree.specs.Scope.{hiding};

use crate::typedefs::Typedefs;
use lt_tree::{Enumerator, Member, MemberDeclarator, Specifiers, TypeName, TypeSpecifier};
use std::alloc::AllocError;

impl Typedefs {
    // The name of a type.
    #[cycle(hide)]
    pub(super) fn hide_type_name(&mut self, name: &TypeName) -> Result<(), AllocError>
        ensures { IfOk result (λ _. self.new ≡ hiding (scope.enumerators_in_declarator (declarator_of name.now.declarator)) (hiding (scope.enumerators_in_specifiers (specifiers_of name.now.specifiers)) self.old)) }
    {
        self.hide_specifiers(&name.specifiers)?;
        self.hide_parts(name.declarator.parts.as_slice())
    }

    /// Declares the enumerators of specifiers.
    #[cycle(hide)]
    pub fn hide_specifiers(&mut self, specifiers: &Specifiers) -> Result<(), AllocError>
        ensures { IfOk result (λ _. self.new ≡ hiding (scope.enumerators_in_specifiers (specifiers_of specifiers.now)) self.old) }
    {
        self.hide_types(specifiers.types.as_slice())
    }

    #[cycle(hide)]
    fn hide_types(&mut self, list: &[TypeSpecifier]) -> Result<(), AllocError>
        ensures { IfOk result (λ _. self.new ≡ hiding (scope.enumerators_in_types (types_in list.now)) self.old) }
    {
        'types: for kind in list {
            self.hide_type(kind)?;
        }
        Ok(())
    }

    #[cycle(hide)]
    fn hide_type(&mut self, kind: &TypeSpecifier) -> Result<(), AllocError>
        ensures { IfOk result (λ _. self.new ≡ hiding (scope.enumerators_in_type (type_of kind.now)) self.old) }
    {
        match kind {
            TypeSpecifier::Struct(_, members) => self.hide_members(members.as_slice()),
            TypeSpecifier::Enum(_, enumerators) => self.hide_enumerators(enumerators.as_slice()),
            TypeSpecifier::Basic(_)
            | TypeSpecifier::Word(_)
            | TypeSpecifier::StructTag(_)
            | TypeSpecifier::EnumTag(_)
            | TypeSpecifier::Named(_) => Ok(()),
        }
    }

    #[cycle(hide)]
    fn hide_members(&mut self, list: &[Member]) -> Result<(), AllocError>
        ensures { IfOk result (λ _. self.new ≡ hiding (scope.enumerators_in_members (members_in list.now)) self.old) }
    {
        'members: for member in list {
            self.hide_specifiers(&member.specifiers)?;
            self.hide_member_declarators(member.declarators.as_slice())?;
        }
        Ok(())
    }

    #[cycle(hide)]
    fn hide_member_declarators(&mut self, list: &[MemberDeclarator]) -> Result<(), AllocError>
        ensures { IfOk result (λ _. self.new ≡ hiding (scope.enumerators_in_member_declarators (member_declarators_in list.now)) self.old) }
    {
        'declarators: for member in list {
            self.hide_parts(member.declarator.parts.as_slice())?;
            self.hide_maybe(&member.width)?;
        }
        Ok(())
    }

    #[cycle(hide)]
    fn hide_enumerators(&mut self, list: &[Enumerator]) -> Result<(), AllocError>
        ensures { IfOk result (λ _. self.new ≡ hiding (scope.enumerators_of (enumerators_in list.now)) self.old) }
    {
        'enumerators: for enumerator in list {
            self.hide_maybe(&enumerator.value)?;
            self.declare(&enumerator.name, false)?;
        }
        Ok(())
    }
}
