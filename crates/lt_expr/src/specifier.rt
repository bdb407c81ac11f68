// The specifiers of declarations and type names, C11 6.7 and 6.7.2.

ghost use Rattle.std.specs.Prelude.{false};
ghost use Rattle.lt_tree.specs.Records.{specifiers_of, maybe_in};
ghost use Rattle.lt_tree.specs.Scope.{after_types, after_specifiers, after_maybe};
ghost use Rattle.lt_expr.specs.Parsing.{rest_of, scope_of, Gives, GivesNames};
ghost use Rattle.lt_expr.specs.Boxes.{boxed_type};
ghost use Rattle.lt_expr.specs.Specifier.{after_specifier};
ghost use Rattle.lt_expr.specs.FoundView.{specifier_of, found_of};
ghost use Rattle.lt_expr.specs.Reading as reading;

use crate::found::{Specifier, gathered, none_found, with_specifier};
use crate::naming::Naming;
use crate::parser::{Parser, deeper};
use crate::pieces;
use lt_model::Name;
use lt_tree::{Expr, Specifiers, Stop, Terminal, TypeName, TypeSpecifier};

impl<'a> Parser<'a> {
    // typename = specs abstract?; what it declares is in scope behind the expression that it stands in
    #[cycle(parser)]
    #[tactic(auto, unfolding(crate::specs::Reading::expression))]
    pub(crate) fn boxed_type_name(&mut self, depth: usize) -> Result<Box<TypeName>, Stop>
        ensures { Gives boxed_type self.old self.new result (reading.type_name depth (scope_of self.old) (rest_of self.old)) }
    {
        let depth = deeper(depth)?;
        let around = self.open_list();
        let specifiers = self.inner_specifiers(depth)?;
        let declarator = self.inner_declarator(depth, Naming::Nameless)?;
        self.close_list(around);
        pieces::type_name(self.alloc, specifiers, declarator)
    }

    // specs: one or more
    #[cycle(parser)]
    #[tactic(auto, unfolding(crate::specs::Reading::expression))]
    pub(crate) fn inner_specifiers(&mut self, depth: usize) -> Result<Specifiers, Stop>
        ensures { GivesNames specifiers_of (λ s. after_specifiers s (scope_of self.old)) self.old self.new result (reading.specifiers depth (scope_of self.old) (rest_of self.old)) }
    {
        let depth = deeper(depth)?;
        if !self.begins_specifier(false) {
            return Err(Stop::NotOfForm);
        }
        let found = self.further(depth)?;
        let all = gathered(self.alloc, found)?;
        Ok(all)
    }

    // specifiers up to what is none
    #[cycle(parser)]
    #[tactic(auto, using(crate::proofs::FoundJoins::more_found, crate::proofs::FoundJoins::all_found, crate::proofs::FoundJoins::no_found), unfolding(crate::specs::Reading::expression))]
    fn further(&mut self, mut depth: usize) -> Result<Specifiers, Stop>
        ensures { GivesNames found_of (λ found. after_types found.types (scope_of self.old)) self.old self.new result (reading.further depth (scope_of self.old) false (rest_of self.old)) }
    {
        let mut found = none_found(self.alloc);
        let mut typed = false;
        'more: loop {
            depth = deeper(depth)?;
            if !self.begins_specifier(typed) {
                return Ok(found);
            }
            let one = self.specifier(depth)?;
            typed = one.leaves_typed(typed);
            found = with_specifier(found, one)?;
        }
    }

    #[cycle(parser)]
    #[tactic(auto, unfolding(crate::specs::Reading::expression))]
    fn specifier(&mut self, depth: usize) -> Result<Specifier, Stop>
        ensures { GivesNames specifier_of (λ s. after_specifier s (scope_of self.old)) self.old self.new result (reading.specifier depth (scope_of self.old) (rest_of self.old)) }
    {
        let depth = deeper(depth)?;
        if self.sees(Terminal::Struct) {
            self.advance();
            let tag = self.optional_name()?;
            self.structure(depth, tag)
        } else if self.sees(Terminal::Enum) {
            self.advance();
            let tag = self.optional_name()?;
            self.enumeration(depth, tag)
        } else {
            self.one_specifier()
        }
    }

    // behind 'struct' NAME?: '{' member* '}', which may be missing where there is a tag
    #[cycle(parser)]
    #[tactic(auto, unfolding(crate::specs::Reading::expression))]
    fn structure(&mut self, depth: usize, tag: Option<Name>) -> Result<Specifier, Stop>
        ensures { GivesNames specifier_of (λ s. after_specifier s (scope_of self.old)) self.old self.new result (reading.structure depth (scope_of self.old) tag (rest_of self.old)) }
    {
        let depth = deeper(depth)?;
        if self.sees(Terminal::OpenBrace) {
            self.advance();
            let members = self.members(depth)?;
            return Ok(Specifier::Type(pieces::structure(tag, members)));
        }
        match tag {
            Some(tag) => Ok(Specifier::Type(TypeSpecifier::StructTag(tag))),
            None => Err(Stop::NotOfForm),
        }
    }

    // behind 'enum' NAME?: '{' (NAME ('=' cond)?),+ ','? '}', which may be missing where there is a tag
    #[cycle(parser)]
    #[tactic(auto, unfolding(crate::specs::Reading::expression))]
    fn enumeration(&mut self, depth: usize, tag: Option<Name>) -> Result<Specifier, Stop>
        ensures { GivesNames specifier_of (λ s. after_specifier s (scope_of self.old)) self.old self.new result (reading.enumeration depth (scope_of self.old) tag (rest_of self.old)) }
    {
        let depth = deeper(depth)?;
        if self.sees(Terminal::OpenBrace) {
            self.advance();
            let enumerators = self.enumerators(depth)?;
            return Ok(Specifier::Type(pieces::enumeration(tag, enumerators)));
        }
        match tag {
            Some(tag) => Ok(Specifier::Type(TypeSpecifier::EnumTag(tag))),
            None => Err(Stop::NotOfForm),
        }
    }

    // (SIGN cond)?
    #[cycle(parser)]
    #[tactic(auto, unfolding(crate::specs::Reading::expression))]
    pub(crate) fn after_sign(
        &mut self,
        depth: usize,
        sign: Terminal,
    ) -> Result<Option<Box<Expr>>, Stop>
        ensures { GivesNames maybe_in (λ e. after_maybe e (scope_of self.old)) self.old self.new result (reading.after_sign depth (scope_of self.old) sign (rest_of self.old)) }
    {
        let depth = deeper(depth)?;
        if !self.sees(sign) {
            return Ok(None);
        }
        self.advance();
        let value = self.boxed_conditional(depth)?;
        self.hide_expression(&value)?;
        Ok(Some(value))
    }
}
