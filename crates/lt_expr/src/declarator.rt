// Declarators, C11 6.7.6.

ghost use Rattle.std.specs.Prelude.{ℕ};
ghost use Rattle.lt_tree.specs.View.{parameters_of};
ghost use Rattle.lt_tree.specs.Records.{declarator_of, parts_in, parameter_list_in};
ghost use Rattle.lt_tree.specs.Scope.{after_parts, after_inside};
ghost use Rattle.lt_expr.specs.Namings.{naming_of, name_and_parts, part_alone};
ghost use Rattle.lt_expr.specs.Parsing.{rest_of, scope_of, Gives, GivesNames};
ghost use Rattle.lt_expr.specs.Reading as reading;

use crate::naming::{Naming, is_missing};
use crate::parser::{Parser, deeper};
use crate::pieces;
use lt_tree::{Declarator, DeclaratorPart, Parameter, Parameters, Stop, Terminal};

impl<'a> Parser<'a> {
    // a declarator; where it may lack a name, it may be missing as a whole
    #[cycle(parser)]
    #[tactic(auto, unfolding(crate::specs::Reading::expression))]
    pub(crate) fn inner_declarator(
        &mut self,
        depth: usize,
        naming: Naming,
    ) -> Result<Declarator, Stop>
        ensures { GivesNames declarator_of (λ d. after_inside d (scope_of self.old)) self.old self.new result (reading.declarator depth (scope_of self.old) (naming_of naming) (rest_of self.old)) }
    {
        let depth = deeper(depth)?;
        if naming.takes_none() && !self.begins_declarator() {
            let parts = Vec::new(self.alloc);
            return Ok(Declarator { name: None, parts });
        }
        let start = self.start();
        let declarator = self.pointers(depth, naming)?;
        if is_missing(&declarator) {
            return Err(Stop::NotOfForm);
        }
        self.end(start)?;
        Ok(declarator)
    }

    // ('*' qualifier*)* direct
    #[cycle(parser)]
    #[tactic(auto, using(crate::proofs::Joins::parts_push), unfolding(crate::specs::Reading::expression))]
    fn pointers(&mut self, depth: usize, naming: Naming) -> Result<Declarator, Stop>
        ensures { GivesNames name_and_parts (λ x. after_parts x.1 (scope_of self.old)) self.old self.new result (reading.pointers depth (scope_of self.old) (naming_of naming) (rest_of self.old)) }
    {
        let depth = deeper(depth)?;
        if !self.sees(Terminal::Star) {
            return self.direct(depth, naming);
        }
        self.advance();
        let quals = self.qualifiers();
        let mut declarator = self.pointers(depth, naming.behind_star())?;
        declarator.parts.push(DeclaratorPart::Pointer(quals))?;
        Ok(declarator)
    }

    // direct = (NAME? | '(' declarator ')') suffix*
    #[cycle(parser)]
    #[tactic(auto, unfolding(crate::specs::Reading::expression))]
    fn direct(&mut self, depth: usize, naming: Naming) -> Result<Declarator, Stop>
        ensures { GivesNames name_and_parts (λ x. after_parts x.1 (scope_of self.old)) self.old self.new result (reading.direct depth (scope_of self.old) (naming_of naming) (rest_of self.old)) }
    {
        let depth = deeper(depth)?;
        if self.begins_nested(naming) {
            self.advance();
            let mut inner = self.pointers(depth, naming)?;
            self.expect(Terminal::CloseParen)?;
            let mut suffixes = self.suffixes(depth)?;
            inner.parts.append(&mut suffixes)?;
            return Ok(inner);
        }
        let name = self.own_name(naming)?;
        let parts = self.suffixes(depth)?;
        Ok(Declarator { name, parts })
    }

    // suffix*
    #[cycle(parser)]
    #[tactic(auto, using(crate::proofs::Joins::no_parts), unfolding(crate::specs::Reading::expression))]
    fn suffixes(&mut self, mut depth: usize) -> Result<Vec<DeclaratorPart>, Stop>
        ensures { GivesNames (λ xs. parts_in xs.items) (λ parts. after_parts parts (scope_of self.old)) self.old self.new result (reading.suffixes depth (scope_of self.old) (rest_of self.old)) }
    {
        let mut parts = Vec::new(self.alloc);
        'more: loop {
            depth = deeper(depth)?;
            if !self.begins_suffix() {
                return Ok(parts);
            }
            let part = self.suffix(depth)?;
            parts.push(part)?;
        }
    }

    // suffix = '[' cond? ']' | '(' params? ')'
    #[cycle(parser)]
    #[tactic(auto, unfolding(crate::specs::Reading::expression))]
    fn suffix(&mut self, depth: usize) -> Result<DeclaratorPart, Stop>
        ensures { GivesNames part_alone (λ parts. after_parts parts (scope_of self.old)) self.old self.new result (reading.suffix depth (scope_of self.old) (rest_of self.old)) }
    {
        let depth = deeper(depth)?;
        if self.sees(Terminal::OpenParen) {
            self.advance();
            let inside = self.parameters(depth)?;
            return Ok(pieces::function(inside));
        }
        self.advance();
        if self.sees(Terminal::CloseIndex) {
            self.advance();
            return Ok(pieces::array(None));
        }
        let length = self.boxed_conditional(depth)?;
        self.expect(Terminal::CloseIndex)?;
        self.hide_expression(&length)?;
        Ok(pieces::array(Some(length)))
    }

    // params? ')', with params = 'void' | param,+ (',' '...')?
    #[cycle(parser)]
    #[tactic(auto, unfolding(crate::specs::Reading::expression))]
    fn parameters(&mut self, depth: usize) -> Result<Parameters, Stop>
        ensures { Gives parameters_of self.old self.new result (reading.parameters depth (scope_of self.old) (rest_of self.old)) }
    {
        let depth = deeper(depth)?;
        if self.sees(Terminal::CloseParen) {
            self.advance();
            return Ok(Parameters::Unstated);
        }
        if self.is_void_alone() {
            self.advance();
            self.advance();
            return Ok(Parameters::Void);
        }
        let list = self.parameter_list(depth)?;
        self.list_end(list)
    }

    // param,+, with param = specs (declarator | abstract)?
    #[cycle(parser)]
    #[tactic(auto, using(crate::proofs::Joins::more_parameters, crate::proofs::Joins::last_parameters, crate::proofs::Joins::no_parameters), unfolding(crate::specs::Reading::expression))]
    fn parameter_list(&mut self, mut depth: usize) -> Result<Vec<Parameter>, Stop>
        ensures { Gives (λ xs. parameter_list_in xs.items) self.old self.new result (reading.parameter_list depth (scope_of self.old) (rest_of self.old)) }
    {
        let around = self.open_list();
        let mut list = Vec::new(self.alloc);
        'more: loop {
            depth = deeper(depth)?;
            let specifiers = self.inner_specifiers(depth)?;
            let declarator = self.inner_declarator(depth, Naming::Either)?;
            self.declare_parameter(&declarator)?;
            list.push(pieces::parameter(specifiers, declarator))?;
            if !self.goes_on_with_parameter() {
                self.close_list(around);
                return Ok(list);
            }
            self.advance();
        }
    }
}
