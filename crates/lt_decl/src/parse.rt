//! The parser of a text's tokens.

ghost use Rattle.std.specs.Prelude.{◌≡◌, map};
ghost use Rattle.lt_tree.specs.Symbols.{place};
ghost use Rattle.lt_expr.specs.Symbols.{shown};
ghost use Rattle.lt_expr.specs.Parsing.{rest_of, scope_of};
ghost use Rattle.lt_expr.specs.Reading.{enough};
ghost use Rattle.lt_decl.specs.Declares.{GivesUnit};
ghost use Rattle.lt_decl.specs.Parsed.{IsPlaceAmong, IsUnitOf, IsUnitOfSymbols};
ghost use Rattle.lt_decl.specs.Reading as reading;

use crate::external::externals;
use crate::walk;
use lt_expr::{ParseStop, Parser, Symbol, Typedefs, Walker, symbols_of};
use lt_lex::Tokens;
use lt_tree::{External, Stop, Unit};
use std::alloc::Global;

/// The unit that a text is.
#[derive(Drop)]
pub struct Parsed {
    pub unit: Unit,
    /// For each node, in the order of a walk from parent to child, the byte of its first token.
    pub spots: Vec<u32>,
}

// All externals, as deep as they may nest.
#[tactic(auto, unfolding(lt_expr::specs::Reading::enough))]
fn whole(parser: &mut Parser) -> Result<Vec<External>, Stop>
    ensures { GivesUnit parser.old parser.new result (reading.externals (enough (rest_of parser.old).0) (scope_of parser.old) (rest_of parser.old)) }
{
    let depth = 20 * parser.rest().len() + 20;
    externals(parser, depth)
}

/// The unit, C11 6.9, that these tokens are.
///
/// `Syntax(at)` comes exactly where they are none.
pub fn parse_unit(alloc: Global, tokens: &Tokens) -> Result<Parsed, ParseStop>
    ensures { IsUnitOf tokens.now result }
{
    let symbols = symbols_of(alloc, tokens.list.as_slice())?;
    unit_of_symbols(alloc, symbols.as_slice(), tokens.length)
}

/// The same, where the tokens are given up before the unit is read: the tokens of a large text take much memory.
pub fn parse_into_unit(alloc: Global, tokens: Tokens) -> Result<Parsed, ParseStop>
    ensures { IsUnitOf tokens.entry result }
{
    let symbols = symbols_of(alloc, tokens.list.as_slice())?;
    let length = tokens.length;
    drop(tokens);
    unit_of_symbols(alloc, symbols.as_slice(), length)
}

// The unit that the symbols of a text of this length are.
fn unit_of_symbols(alloc: Global, symbols: &[Symbol<'_>], length: u32) -> Result<Parsed, ParseStop>
    ensures { IsUnitOfSymbols (map shown symbols.now) length result }
{
    let names = Typedefs::new(alloc);
    let mut parser = Parser::new(alloc, symbols, 0, &names);
    match whole(&mut parser) {
        Ok(externals) => {
            let mut walker = Walker::new(alloc, parser.into_ends());
            walk::unit(&mut walker, externals.as_slice())?;
            Ok(Parsed {
                unit: Unit { externals },
                spots: walker.into_spots(),
            })
        }
        Err(Stop::NotOfForm) => Err(ParseStop::Syntax(place_among(
            symbols,
            parser.passed(),
            length,
        ))),
        Err(Stop::NoMemory) => Err(ParseStop::NoMemory),
    }
}

// Where a symbol begins that is near a fault, or the text's length.
fn place_among(symbols: &[Symbol<'_>], passed: usize, length: u32) -> u32
    ensures { IsPlaceAmong (map shown symbols.now) length result }
{
    match symbols.get(passed) {
        Some(symbol) => start_of(symbol),
        None => length,
    }
}

fn start_of(symbol: &Symbol<'_>) -> u32
    ensures { result ≡ place (shown symbol.now) }
{
    match symbol {
        Symbol::Name(_, at)
        | Symbol::Constant(_, at)
        | Symbol::Literal(_, at)
        | Symbol::Sign(_, at) => *at,
    }
}
