// Initialisers, C11 6.7.9.

ghost use Rattle.lt_tree.specs.UnitView.{initialiser_of, initialisers_in};
ghost use Rattle.lt_expr.specs.Parsing.{rest_of, scope_of, Gives};
ghost use Rattle.lt_decl.specs.Reading as reading;

use lt_expr::{Parser, deeper};
use lt_tree::makes::statement as makes;
use lt_tree::{Initialiser, Stop, Terminal};

// init = assign | '{' init,+ ','? '}'
#[cycle(initialisers)]
#[tactic(auto, unfolding(crate::specs::Reading::initialiser))]
pub(crate) fn initialiser(parser: &mut Parser, depth: usize) -> Result<Initialiser, Stop>
    ensures { Gives initialiser_of parser.old parser.new result (reading.initialiser depth (scope_of parser.old) (rest_of parser.old)) }
{
    let depth = deeper(depth)?;
    let start = parser.start();
    if parser.sees(Terminal::OpenBrace) {
        parser.advance();
        let parts = initialisers(parser, depth)?;
        parser.end(start)?;
        return Ok(makes::braces(parts));
    }
    let value = parser.assignment(depth)?;
    parser.end(start)?;
    Ok(makes::value(value))
}

// init,+ ','? '}'
#[cycle(initialisers)]
#[tactic(auto, unfolding(crate::specs::Reading::initialiser))]
fn initialisers(parser: &mut Parser, mut depth: usize) -> Result<Vec<Initialiser>, Stop>
    ensures { Gives (λ xs. initialisers_in xs.items) parser.old parser.new result (reading.initialisers depth (scope_of parser.old) (rest_of parser.old)) }
{
    let mut parts = Vec::new(parser.alloc());
    'more: loop {
        depth = deeper(depth)?;
        let part = initialiser(parser, depth)?;
        parts.push(part)?;
        if !parser.sees(Terminal::Comma) {
            parser.expect(Terminal::CloseBrace)?;
            return Ok(parts);
        }
        parser.advance();
        if parser.sees(Terminal::CloseBrace) {
            parser.advance();
            return Ok(parts);
        }
    }
}
