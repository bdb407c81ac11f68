//! The lexer.

ghost use Rattle.std.specs.Prelude.{◌≡◌, ◌<◌, ◌^◌, length, IfOk, IfSome, vec_len};
ghost use Rattle.lt_token.specs.Tokens.{ArePlaced};
ghost use Rattle.lt_token.specs.Answer.{Answer, IsAnswer};
ghost use Rattle.lt_token.specs.Nest as spec;
ghost use Rattle.lt_lex.specs.Lexed.{tokens_of, answer_of};

use crate::cut::cut;
use crate::levels::nests;
use crate::read::read;
use crate::stop::LexStop;
use crate::tokens::Tokens;
use std::alloc::Global;

fn lexed<'a>(alloc: Global, text: &'a [u8]) -> Result<Tokens<'a>, LexStop>
    requires { length text.now < 2 ^ 32 }
    ensures given { IfSome (answer_of result) (IsAnswer text.now) }
    ensures length { IfOk result (λ tokens. tokens.length ≡ length text.now) }
{
    let lexemes = cut(alloc, text)?;
    let list = read(alloc, &lexemes)?;
    let depths = nests(alloc, &list)?;
    Ok(Tokens {
        list,
        length: text.len() as u32,
        depths,
    })
}

/// The tokens of a C text, as C11 6.4 has them, of fewer than 2^32 bytes.
///
/// `Lex(at)` comes where the text before the byte `at` is tokens and none begins there;
/// `Unsupported(word, at)` at the first word or literal of C that isn't read, where no `Lex` comes
/// before it; `TooNested(at)` at the first token whose nest passes 1,000, where the whole text is tokens.
pub fn lex<'a>(alloc: Global, text: &'a [u8]) -> Result<Tokens<'a>, LexStop>
    requires { length text.now < 2 ^ 32 }
    ensures given { IfSome (answer_of result) (IsAnswer text.now) }
    ensures only { (a : Answer) → IsAnswer text.now a → IfSome (answer_of result) (λ b. a ≡ b) }
    ensures length { IfOk result (λ tokens. tokens.length ≡ length text.now) }
    ensures slices { IfOk result (λ tokens. ArePlaced text.now 0 (tokens_of tokens)) }
{
    lexed(alloc, text)
}

/// The nest of the token at the place `k` of the list: for each open level of brackets what counts in
/// it, and the number of open brackets.
pub fn nest(tokens: &Tokens, k: usize) -> u32
    requires { k < vec_len tokens.now.list }
    ensures { result ≡ spec.nest (tokens_of tokens.now) k }
{
    tokens.depths[k]
}
