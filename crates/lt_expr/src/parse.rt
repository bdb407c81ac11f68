//! The parser of an expression among the tokens of a text.

ghost use Rattle.std.specs.Prelude.{◌≤◌, MatchResult, vec_len};
ghost use Rattle.lt_tree.specs.View.{expression_of};
ghost use Rattle.lt_expr.specs.Reading as reading;
ghost use Rattle.lt_expr.specs.Parsing.{rest_of, scope_of, Gives};
ghost use Rattle.lt_expr.specs.Parsed.{symbols_in, IsBetween, IsPlace, StopsParsing};

use crate::parser::Parser;
use crate::stop::ParseStop;
use crate::table::symbols_of;
use crate::typedefs::Typedefs;
use crate::walk::Walker;
use lt_lex::Tokens;
use lt_tree::{Expr, Stop};
use std::alloc::Global;

/// An expression among tokens.
#[derive(Drop)]
pub struct Parsed {
    pub tree: Expr,
    /// The place of the first token behind it.
    pub next: usize,
    /// For each node, in the order of a walk from parent to child, the byte of its first token.
    pub spots: Vec<u32>,
}

impl<'a> Parser<'a> {
    // An expression behind which it can't go on.
    #[tactic(auto, unfolding(crate::specs::Reading::whole, crate::specs::Reading::enough))]
    fn whole(&mut self) -> Result<Expr, Stop>
        ensures { Gives expression_of self.old self.new result (reading.whole (scope_of self.old) (rest_of self.old)) }
    {
        let depth = 20 * self.rest().len() + 20;
        let whole = self.expression(depth)?;
        if self.goes_on() {
            return Err(Stop::NotOfForm);
        }
        Ok(whole)
    }
}

// The byte of a token near a fault, or the text's length.
pub fn place_of(tokens: &Tokens, passed: usize) -> u32
    ensures { IsPlace tokens.now result }
{
    match tokens.list.as_slice().get(passed) {
        Some(token) => token.at,
        None => tokens.length,
    }
}

/// The expression, C11 6.5.17, that the tokens from the place `from` on begin with, as far as it goes:
/// behind it stands no operator, `(`, `[`, `.`, `->`, `?`, comma or string. `names` are those in scope,
/// which tell type names from others.
///
/// `Syntax(at)` comes exactly where there is none.
pub fn parse_expr(
    alloc: Global,
    tokens: &Tokens,
    from: usize,
    names: &Typedefs,
) -> Result<Parsed, ParseStop>
    requires { from ≤ vec_len tokens.now.list }
    ensures { MatchResult result (λ p. IsBetween names.now (symbols_in tokens.now) from (expression_of p.tree) p.next p.spots.items) (StopsParsing names.now tokens.now from) }
{
    let symbols = symbols_of(alloc, tokens.list.as_slice())?;
    let mut parser = Parser::new(alloc, symbols.as_slice(), from, names);
    match parser.whole() {
        Ok(tree) => {
            let next = parser.passed();
            let mut walker = Walker::new(alloc, parser.into_ends());
            walker.expression(&tree)?;
            Ok(Parsed {
                tree,
                next,
                spots: walker.into_spots(),
            })
        }
        Err(Stop::NotOfForm) => Err(ParseStop::Syntax(place_of(tokens, parser.passed()))),
        Err(Stop::NoMemory) => Err(ParseStop::NoMemory),
    }
}
