//! The unit that a text spells.

ghost use Rattle.std.specs.Prelude.{◌<◌, ◌^◌, length};
ghost use Rattle.ltest.specs.Stages.{GivesTokens, GivesUnit};

use crate::stops::TextStop;
use lt_answers::Refusal;
use lt_decl::{Parsed, parse_into_unit};
use lt_expr::ParseStop;
use lt_lex::{LexStop, Tokens, lex};
use std::alloc::Global;

/// The unit that a text spells, or why it spells none.
pub fn unit_of_text(alloc: Global, text: &[u8]) -> Result<Parsed, TextStop>
    requires { length text.now < 2 ^ 32 }
    ensures { GivesUnit text.now result }
{
    let tokens = tokens_of_text(alloc, text)?;
    match parse_into_unit(alloc, tokens) {
        Ok(parsed) => Ok(parsed),
        Err(ParseStop::Syntax(at)) => Err(TextStop::Refused(Refusal::Syntax(at))),
        Err(ParseStop::NoMemory) => Err(TextStop::NoMemory),
    }
}

// The tokens of a text, or why it has none.
fn tokens_of_text<'a>(alloc: Global, text: &'a [u8]) -> Result<Tokens<'a>, TextStop>
    requires { length text.now < 2 ^ 32 }
    ensures { GivesTokens text.now result }
{
    match lex(alloc, text) {
        Ok(tokens) => Ok(tokens),
        Err(LexStop::Lex(at)) => Err(TextStop::Refused(Refusal::Lex(at))),
        Err(LexStop::Unsupported(word, at)) => {
            Err(TextStop::Refused(Refusal::Unsupported(word, at)))
        }
        Err(LexStop::TooNested(at)) => Err(TextStop::Refused(Refusal::TooNested(at))),
        Err(LexStop::NoMemory) => Err(TextStop::NoMemory),
    }
}
