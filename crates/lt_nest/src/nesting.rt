//! How deep the tokens so far nest.

ghost use Rattle.std.specs.Prelude.{◌≡◌, ◌<◌, ◌≤◌, ◌+◌, ◌^◌, false, IfOk};
ghost use Rattle.lt_token.specs.Nest as spec;
ghost use Rattle.lt_nest.specs.Walk.{at_first, settled, one_more};
ghost use Rattle.lt_nest.specs.Views.{behind_of};

use crate::levels::Levels;
use lt_lex::step_of;
use lt_token::{Kind, Step};
use std::alloc::{AllocError, Global};

/// The nest of a token is known once the next one is, which may be `else`.
#[derive(Drop)]
pub struct Nesting {
    /// The levels that the last token finds.
    pub levels: Levels,
    /// What the last token does to them; nothing before the first.
    pub awaited: Step,
    /// The greatest nest of the tokens before the last.
    pub greatest: u64,
}

fn is_else(kind: Kind, text: &[u8]) -> bool
    ensures { result ≡ spec.is_else kind text.now }
{
    match kind {
        Kind::Keyword => text == b"else".as_slice(),
        _ => false,
    }
}

impl Nesting {
    pub fn new(alloc: Global) -> Nesting
        ensures first { behind_of result ≡ at_first }
        ensures weight { result.levels.weight ≡ 0 }
    {
        Nesting {
            levels: Levels::new(alloc),
            awaited: Step::Passes,
            greatest: 0,
        }
    }

    /// Settles the nest of the last token.
    pub fn settle(&mut self, else_follows: bool) -> Result<(), AllocError>
        requires { self.old.levels.weight + 1 < 2 ^ 64 }
        ensures settled { IfOk result (λ _. behind_of self.new ≡ settled (behind_of self.old) else_follows) }
        ensures weight { IfOk result (λ _. self.new.levels.weight ≤ self.old.levels.weight + 1) }
    {
        self.levels.turn(self.awaited, else_follows)?;
        self.greatest = self.greatest.max(self.levels.weight);
        Ok(())
    }

    /// Takes one more token.
    pub fn take(&mut self, kind: Kind, text: &[u8]) -> Result<(), AllocError>
        requires { self.old.levels.weight + 1 < 2 ^ 64 }
        ensures taken { IfOk result (λ _. behind_of self.new ≡ one_more (behind_of self.old) kind text.now) }
        ensures weight { IfOk result (λ _. self.new.levels.weight ≤ self.old.levels.weight + 1) }
    {
        self.settle(is_else(kind, text))?;
        self.awaited = step_of(kind, text);
        Ok(())
    }
}
