//! A token.

ghost use Rattle.std.specs.Prelude.{◌≡◌};
ghost use Rattle.lt_token.specs.Words.{word_of};

use crate::words::{is_const_spelling, is_signed_spelling, is_volatile_spelling};
use lt_token::Kind;

/// A slice of the source, and the place of its first byte.
#[derive(Clone, Copy, Debug)]
pub struct Token<'a> {
    pub kind: Kind,
    pub text: &'a [u8],
    pub at: u32,
}

impl<'a> Token<'a> {
    /// The word that the token stands for: `const` for `__const`, `volatile` for `__volatile__`,
    /// `signed` for `__signed__`, and its own bytes for every other.
    #[tactic(auto, unfolding(lt_token::specs::Words::word_of))]
    pub fn word(&self) -> &'a [u8]
        ensures { result.now ≡ word_of self.now.text.now }
    {
        if is_const_spelling(self.text) {
            b"const"
        } else if is_volatile_spelling(self.text) {
            b"volatile"
        } else if is_signed_spelling(self.text) {
            b"signed"
        } else {
            self.text
        }
    }
}
