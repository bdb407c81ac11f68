//! The walk over the lexemes of a text.

ghost use Rattle.std.specs.Prelude.{◌≡◌, ◌<◌, ◌≤◌, ◌+◌, ◌^◌, [], List, IfOk};
ghost use Rattle.lt_token.specs.Lexemes.{Lexeme};
ghost use Rattle.lt_token.specs.Tokens as spec;
ghost use Rattle.lt_nest.specs.Walk.{one_more, answer_of};
ghost use Rattle.lt_nest.specs.Views.{behind_of, answer_with, Takes, most};

use crate::nesting::Nesting;
use crate::skipping::{Skipping, Taken, taken_where};
use lt_lex::trails_after;
use lt_token::{Kind, Sort};
use std::alloc::{AllocError, Global};

/// What is known between two lexemes.
#[derive(Drop)]
pub struct Walk {
    pub skipping: Skipping,
    /// What comes stands directly behind an identifier, `)` or `]`.
    pub trails: bool,
    pub nesting: Nesting,
}

impl Walk {
    pub fn new(alloc: Global) -> Walk
        ensures first { (ls : List Lexeme) → answer_of ls ≡ answer_with result ls }
        ensures most { most result ≡ 0 }
    {
        Walk {
            skipping: Skipping::Nothing,
            trails: false,
            nesting: Nesting::new(alloc),
        }
    }

    fn take_token(&mut self, kind: Kind, text: &[u8]) -> Result<(), AllocError>
        requires { self.old.nesting.levels.weight + 1 < 2 ^ 64 }
        ensures skipping { self.new.skipping ≡ self.old.skipping }
        ensures trails { IfOk result (λ _. self.new.trails ≡ spec.trails_after kind text.now) }
        ensures behind { IfOk result (λ _. behind_of self.new.nesting ≡ one_more (behind_of self.old.nesting) kind text.now) }
        ensures weight { IfOk result (λ _. self.new.nesting.levels.weight ≤ self.old.nesting.levels.weight + 1) }
    {
        self.nesting.take(kind, text)?;
        self.trails = trails_after(kind, text);
        Ok(())
    }

    /// Takes what is cut off the text, and tells whether the text can still be tokens.
    pub fn take(&mut self, sort: Option<Sort>, text: &[u8]) -> Result<bool, AllocError>
        requires { most self.old + 1 < 2 ^ 64 }
        ensures answer { IfOk result (Takes self.old sort text.now self.new) }
        ensures most { IfOk result (λ _. most self.new ≤ most self.old + 1) }
    {
        let Some(sort) = sort else {
            return Ok(true);
        };
        match taken_where(self.skipping, self.trails, sort, text) {
            Taken::Token(kind) => self.take_token(kind, text)?,
            Taken::Skipped(skipping) => self.skipping = skipping,
            Taken::Refused => return Ok(false),
        }
        Ok(true)
    }

    /// The greatest nest, where the text ends here.
    pub fn end(mut self) -> Result<Option<u64>, AllocError>
        requires { most self + 1 < 2 ^ 64 }
        ensures { IfOk result (λ found. found ≡ answer_with self []) }
    {
        match self.skipping {
            Skipping::Nothing => {
                self.nesting.settle(false)?;
                Ok(Some(self.nesting.greatest))
            }
            Skipping::Group | Skipping::Inside(_) => Ok(None),
        }
    }
}
