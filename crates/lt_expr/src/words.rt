// Single symbols, as they are read.

ghost use Rattle.std.specs.Prelude.{◌≡◌, map, IfOk};
ghost use Rattle.lt_tree.specs.View.{expression_of, parameters_of, qualifiers_of};
ghost use Rattle.lt_tree.specs.Records.{parameter_list_in};
ghost use Rattle.lt_expr.specs.Symbols.{shown};
ghost use Rattle.lt_expr.specs.FoundView.{specifier_of};
ghost use Rattle.lt_expr.specs.Namings.{naming_of};
ghost use Rattle.lt_expr.specs.Parsing.{rest_of, scope_of, Gives, GoesOn};
ghost use Rattle.lt_expr.specs.Front as front;
ghost use Rattle.lt_expr.specs.Literals.{begins_literal};
ghost use Rattle.lt_expr.specs.Texts as texts;
ghost use Rattle.lt_expr.specs.Specifier as spec;
ghost use Rattle.lt_expr.specs.Reading as reading;

use crate::found::{Specifier, word_specifier};
use crate::literal::value_of;
use crate::naming::Naming;
use crate::parser::Parser;
use crate::pieces;
use crate::symbol::Symbol;
use lt_model::{Name, Quals};
use lt_tree::{Expr, Parameter, Parameters, Stop, Terminal, TypeSpecifier};

impl<'a> Parser<'a> {
    // NAME
    #[tactic(auto, unfolding(crate::specs::Front::name_at))]
    pub(crate) fn name(&mut self) -> Result<Name, Stop>
        ensures { Gives (λ w. w) self.old self.new result (front.name_at (rest_of self.old)) }
    {
        match self.rest().split_first() {
            Some((Symbol::Name(word, _), _)) => {
                let name = Name::new(self.alloc, word)?;
                self.advance();
                Ok(name)
            }
            _ => Err(Stop::NotOfForm),
        }
    }

    // NAME?
    pub(crate) fn optional_name(&mut self) -> Result<Option<Name>, Stop>
        ensures { Gives (λ w. w) self.old self.new result (front.optional_name (rest_of self.old)) }
    {
        match self.rest().split_first() {
            Some((Symbol::Name(word, _), _)) => {
                let name = Name::new(self.alloc, word)?;
                self.advance();
                Ok(Some(name))
            }
            _ => Ok(None),
        }
    }

    // NAME, or nothing
    pub(crate) fn own_name(&mut self, naming: Naming) -> Result<Option<Name>, Stop>
        ensures { Gives (λ w. w) self.old self.new result (front.own_name (naming_of naming) (scope_of self.old) (rest_of self.old)) }
    {
        match self.rest().split_first() {
            Some((Symbol::Name(word, _), _)) => {
                if !self.takes_name(naming, word) {
                    return Err(Stop::NotOfForm);
                }
                let name = Name::new(self.alloc, word)?;
                self.advance();
                Ok(Some(name))
            }
            _ => {
                if naming.takes_none() {
                    Ok(None)
                } else {
                    Err(Stop::NotOfForm)
                }
            }
        }
    }

    // NAME | CONSTANT | STRING+
    #[tactic(auto, unfolding(crate::specs::Front::leaf))]
    pub(crate) fn leaf(&mut self) -> Result<Expr, Stop>
        ensures { Gives expression_of self.old self.new result (front.leaf (scope_of self.old) (rest_of self.old)) }
    {
        match self.rest().split_first() {
            Some((Symbol::Name(word, at), _)) => {
                if self.is_type(word) {
                    return Err(Stop::NotOfForm);
                }
                let name = Name::new(self.alloc, word)?;
                self.advance();
                self.end(*at)?;
                Ok(Expr::Name(name))
            }
            Some((Symbol::Constant(text, at), _)) => {
                let text = Name::new(self.alloc, text)?;
                self.advance();
                self.end(*at)?;
                Ok(Expr::Constant(text))
            }
            Some((Symbol::Literal(_, at), _)) => {
                let bytes = self.text()?;
                self.end(*at)?;
                Ok(Expr::Text(Name::new(self.alloc, bytes.as_slice())?))
            }
            _ => Err(Stop::NotOfForm),
        }
    }

    // ',' CONSTANT
    #[tactic(auto, unfolding(crate::specs::Front::id_at))]
    pub(crate) fn id(&mut self) -> Result<Name, Stop>
        ensures { Gives (λ w. w) self.old self.new result (front.id_at (rest_of self.old)) }
    {
        self.expect(Terminal::Comma)?;
        match self.rest().split_first() {
            Some((Symbol::Constant(text, _), _)) => {
                let id = Name::new(self.alloc, text)?;
                self.advance();
                Ok(id)
            }
            _ => Err(Stop::NotOfForm),
        }
    }

    // ',' STRING
    #[tactic(auto, unfolding(crate::specs::Front::tag_at))]
    pub(crate) fn tag(&mut self) -> Result<Name, Stop>
        ensures { Gives (λ w. w) self.old self.new result (front.tag_at (rest_of self.old)) }
    {
        self.expect(Terminal::Comma)?;
        let tag = self.literal()?;
        Ok(Name::new(self.alloc, tag.as_slice())?)
    }

    // STRING
    fn literal(&mut self) -> Result<Vec<u8>, Stop>
        ensures { Gives (λ bytes. bytes.items) self.old self.new result (texts.literal_at (rest_of self.old)) }
    {
        match self.rest().split_first() {
            Some((Symbol::Literal(text, _), _)) => {
                let value = value_of(self.alloc, text)?;
                self.advance();
                Ok(value)
            }
            _ => Err(Stop::NotOfForm),
        }
    }

    fn begins_literal(&self) -> bool
        ensures { result ≡ begins_literal (rest_of self.now).0 }
    {
        match self.rest().split_first() {
            Some((Symbol::Literal(_, _), _)) => true,
            _ => false,
        }
    }

    // STRING+
    #[tactic(auto, using(crate::proofs::Texts::one_more, crate::proofs::Texts::last_one, crate::proofs::Texts::none_here))]
    fn text(&mut self) -> Result<Vec<u8>, Stop>
        ensures { Gives (λ bytes. bytes.items) self.old self.new result (texts.text_at (rest_of self.old)) }
    {
        let mut bytes = Vec::new(self.alloc);
        'more: loop {
            let value = self.literal()?;
            bytes.extend_from_slice(value.as_slice())?;
            if !self.begins_literal() {
                return Ok(bytes);
            }
        }
    }

    // qualifier*
    #[tactic(auto, using(crate::proofs::Qualifiers::at_const, crate::proofs::Qualifiers::at_volatile, crate::proofs::Qualifiers::at_none, crate::proofs::Qualifiers::const_is_there, crate::proofs::Qualifiers::volatile_is_there))]
    pub(crate) fn qualifiers(&mut self) -> Quals
        ensures rest { rest_of self.new ≡ ((front.qualifiers (rest_of self.old).0).1, (rest_of self.old).1) }
        ensures value { qualifiers_of result ≡ (front.qualifiers (rest_of self.old).0).0 }
        ensures on { GoesOn self.old self.new }
    {
        let mut quals = Quals {
            constant: false,
            volatile: false,
        };
        'more: loop {
            if self.sees(Terminal::Const) {
                quals.constant = true;
            } else if self.sees(Terminal::Volatile) {
                quals.volatile = true;
            } else {
                return quals;
            }
            self.advance();
        }
    }

    // a specifier of one symbol
    #[tactic(auto, unfolding(crate::specs::Specifier::one_specifier))]
    pub(crate) fn one_specifier(&mut self) -> Result<Specifier, Stop>
        ensures { Gives specifier_of self.old self.new result (spec.one_specifier (rest_of self.old)) }
    {
        match self.rest().split_first() {
            Some((Symbol::Name(word, _), _)) => {
                let name = Name::new(self.alloc, word)?;
                self.advance();
                Ok(Specifier::Type(TypeSpecifier::Named(name)))
            }
            Some((Symbol::Sign(terminal, _), _)) => match word_specifier(*terminal) {
                Some(specifier) => {
                    self.advance();
                    Ok(specifier)
                }
                None => Err(Stop::NotOfForm),
            },
            _ => Err(Stop::NotOfForm),
        }
    }

    // (',' '...')? ')'
    pub(crate) fn list_end(&mut self, list: Vec<Parameter>) -> Result<Parameters, Stop>
        ensures { Gives parameters_of self.old self.new result (reading.list_end (parameter_list_in list.items) (rest_of self.old)) }
    {
        if self.sees(Terminal::Comma) {
            self.advance();
            self.expect(Terminal::Ellipsis)?;
            self.expect(Terminal::CloseParen)?;
            return Ok(pieces::open(list));
        }
        self.expect(Terminal::CloseParen)?;
        Ok(pieces::listed(list))
    }
}
