//! The tokens of a text.

ghost use Rattle.std.specs.Prelude.{◌≡◌, map};
ghost use Rattle.lt_token.specs.Tokens.{AreApart};
ghost use Rattle.lt_token.proofs.Placed.{AreApart-IsProp};
ghost use Rattle.lt_token.specs.Nest.{nests};
ghost use Rattle.lt_lex.specs.Views.{token_of};

use crate::token::Token;

/// The tokens of a text, in order. Their spans don't overlap.
#[derive(Drop)]
pub struct Tokens<'a> {
    pub list: Vec<Token<'a>>,
    /// The bytes of the text.
    pub length: u32,
    /// The nest of each token.
    pub(crate) depths: Vec<u32>,
    ghost apart: { AreApart 0 (map token_of list.items) length } by { AreApart-IsProp 0 (map token_of list.items) length },
    ghost nested: { depths.items ≡ nests (map token_of list.items) },
}
