// What stands between the braces of structs and enums, C11 6.7.2.1 and 6.7.2.2.

ghost use Rattle.lt_tree.specs.View.{member_of};
ghost use Rattle.lt_tree.specs.Records.{members_in, member_declarators_in, enumerators_in};
ghost use Rattle.lt_tree.specs.Scope.{after_members, after_member, after_member_declarators, after_enumerators};
ghost use Rattle.lt_expr.specs.Namings.{naming_of};
ghost use Rattle.lt_expr.specs.Parsing.{rest_of, scope_of, GivesNames};
ghost use Rattle.lt_expr.specs.Reading as reading;

use crate::naming::{Naming, naming_behind};
use crate::parser::{Parser, deeper};
use crate::pieces;
use lt_tree::{Enumerator, Member, MemberDeclarator, Stop, Terminal};

impl<'a> Parser<'a> {
    // member* '}'
    #[cycle(parser)]
    #[tactic(auto, using(crate::proofs::Joins::more_members, crate::proofs::Joins::all_members, crate::proofs::Joins::no_members), unfolding(crate::specs::Reading::expression))]
    pub(crate) fn members(&mut self, mut depth: usize) -> Result<Vec<Member>, Stop>
        ensures { GivesNames (λ xs. members_in xs.items) (λ members. after_members members (scope_of self.old)) self.old self.new result (reading.members depth (scope_of self.old) (rest_of self.old)) }
    {
        let mut members = Vec::new(self.alloc);
        'more: loop {
            depth = deeper(depth)?;
            if self.sees(Terminal::CloseBrace) {
                self.advance();
                return Ok(members);
            }
            let member = self.member(depth)?;
            members.push(member)?;
        }
    }

    // member = specs (declarator (':' cond)?),* ';'
    #[cycle(parser)]
    #[tactic(auto, unfolding(crate::specs::Reading::expression))]
    fn member(&mut self, depth: usize) -> Result<Member, Stop>
        ensures { GivesNames member_of (λ m. after_member m (scope_of self.old)) self.old self.new result (reading.member depth (scope_of self.old) (rest_of self.old)) }
    {
        let depth = deeper(depth)?;
        let start = self.start();
        let specifiers = self.inner_specifiers(depth)?;
        if self.sees(Terminal::Semicolon) {
            self.advance();
            self.end(start)?;
            let none = Vec::new(self.alloc);
            return Ok(pieces::member(specifiers, none));
        }
        let naming = naming_behind(&specifiers);
        let declarators = self.member_declarators(depth, naming)?;
        self.end(start)?;
        Ok(pieces::member(specifiers, declarators))
    }

    // (declarator (':' cond)?),+ ';'
    #[cycle(parser)]
    #[tactic(auto, using(crate::proofs::Joins::more_member_declarators, crate::proofs::Joins::last_member_declarators, crate::proofs::Joins::no_member_declarators), unfolding(crate::specs::Reading::expression))]
    fn member_declarators(
        &mut self,
        mut depth: usize,
        mut naming: Naming,
    ) -> Result<Vec<MemberDeclarator>, Stop>
        ensures { GivesNames (λ xs. member_declarators_in xs.items) (λ ds. after_member_declarators ds (scope_of self.old)) self.old self.new result (reading.member_declarators depth (scope_of self.old) (naming_of naming) (rest_of self.old)) }
    {
        let mut declarators = Vec::new(self.alloc);
        'more: loop {
            depth = deeper(depth)?;
            let declarator = self.inner_declarator(depth, naming)?;
            let width = self.after_sign(depth, Terminal::Colon)?;
            declarators.push(MemberDeclarator { declarator, width })?;
            if !self.sees(Terminal::Comma) {
                self.expect(Terminal::Semicolon)?;
                return Ok(declarators);
            }
            self.advance();
            naming = Naming::Named;
        }
    }

    // (NAME ('=' cond)?),+ ','? '}'
    #[cycle(parser)]
    #[tactic(auto, using(crate::proofs::Joins::more_enumerators, crate::proofs::Joins::last_enumerators, crate::proofs::Joins::no_enumerators), unfolding(crate::specs::Reading::expression))]
    pub(crate) fn enumerators(&mut self, mut depth: usize) -> Result<Vec<Enumerator>, Stop>
        ensures { GivesNames (λ xs. enumerators_in xs.items) (λ es. after_enumerators es (scope_of self.old)) self.old self.new result (reading.enumerators depth (scope_of self.old) (rest_of self.old)) }
    {
        let mut enumerators = Vec::new(self.alloc);
        'more: loop {
            depth = deeper(depth)?;
            let start = self.start();
            let name = self.name()?;
            let value = self.after_sign(depth, Terminal::Equal)?;
            self.end(start)?;
            self.declare_enumerator(&name)?;
            enumerators.push(Enumerator { name, value })?;
            if !self.sees(Terminal::Comma) {
                self.expect(Terminal::CloseBrace)?;
                return Ok(enumerators);
            }
            self.advance();
            if self.sees(Terminal::CloseBrace) {
                self.advance();
                return Ok(enumerators);
            }
        }
    }
}
