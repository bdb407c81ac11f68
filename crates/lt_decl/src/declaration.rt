// Declarations, C11 6.7: a name is in scope from the end of its declarator.

ghost use Rattle.std.specs.Prelude.{map, option_map};
ghost use Rattle.lt_tree.specs.Records.{declarator_of};
ghost use Rattle.lt_tree.specs.UnitView.{initialiser_of, init_declarator_of, declaration_of};
ghost use Rattle.lt_tree.specs.Scope.{after_declarators, after_declaration};
ghost use Rattle.lt_expr.specs.Parsing.{rest_of, scope_of, Gives};
ghost use Rattle.lt_expr.specs.Parsing.{GivesNames};
ghost use Rattle.lt_decl.specs.Singles.{one_declarator, after_one};
ghost use Rattle.lt_decl.specs.Reading as reading;

use crate::initialiser::initialiser;
use crate::names::{hide_initialiser, makes_types};
use lt_expr::{Naming, Parser, deeper, naming_behind};
use lt_tree::{Declaration, Declarator, InitDeclarator, Initialiser, Stop, Terminal};

// ('=' init)?
#[tactic(auto, unfolding(crate::specs::Reading::optional_initialiser))]
fn optional_initialiser(parser: &mut Parser, depth: usize) -> Result<Option<Initialiser>, Stop>
    ensures { Gives (λ i. option_map initialiser_of i) parser.old parser.new result (reading.optional_initialiser depth (scope_of parser.old) (rest_of parser.old)) }
{
    let depth = deeper(depth)?;
    if !parser.sees(Terminal::Equal) {
        return Ok(None);
    }
    parser.advance();
    let given = initialiser(parser, depth)?;
    Ok(Some(given))
}

// behind a declarator: ('=' init)?
fn init_declarator(
    parser: &mut Parser,
    depth: usize,
    is_type: bool,
    declarator: Declarator,
) -> Result<InitDeclarator, Stop>
    ensures { GivesNames init_declarator_of (λ d. after_one is_type d (scope_of parser.old)) parser.old parser.new result (one_declarator depth (scope_of parser.old) is_type (declarator_of declarator) (rest_of parser.old)) }
{
    parser.declare(&declarator, is_type)?;
    let initialiser = optional_initialiser(parser, depth)?;
    hide_initialiser(parser, &initialiser)?;
    Ok(InitDeclarator {
        declarator,
        initialiser,
    })
}

// behind a declarator: ('=' init)? (',' declarator ('=' init)?)* ';'
#[tactic(auto, unfolding(crate::specs::Reading::optional_initialiser))]
pub(crate) fn declarators(
    parser: &mut Parser,
    mut depth: usize,
    is_type: bool,
    first: Declarator,
) -> Result<Vec<InitDeclarator>, Stop>
    ensures { GivesNames (λ xs. map init_declarator_of xs.items) (λ ds. after_declarators is_type ds (scope_of parser.old)) parser.old parser.new result (reading.declarators depth (scope_of parser.old) is_type (declarator_of first) (rest_of parser.old)) }
{
    let mut list = Vec::new(parser.alloc());
    let mut declarator = first;
    'more: loop {
        depth = deeper(depth)?;
        let one = init_declarator(parser, depth, is_type, declarator)?;
        list.push(one)?;
        if !parser.sees(Terminal::Comma) {
            parser.expect(Terminal::Semicolon)?;
            return Ok(list);
        }
        parser.advance();
        declarator = parser.declarator(depth, Naming::Named)?;
    }
}

// declaration = specs (declarator ('=' init)?),* ';'
#[tactic(auto, unfolding(crate::specs::Reading::optional_initialiser))]
pub(crate) fn declaration(parser: &mut Parser, depth: usize) -> Result<Declaration, Stop>
    ensures { GivesNames declaration_of (λ d. after_declaration d (scope_of parser.old)) parser.old parser.new result (reading.declaration depth (scope_of parser.old) (rest_of parser.old)) }
{
    let depth = deeper(depth)?;
    let specifiers = parser.specifiers(depth)?;
    parser.hide_specifiers(&specifiers)?;
    if parser.sees(Terminal::Semicolon) {
        parser.advance();
        let declarators = Vec::new(parser.alloc());
        return Ok(Declaration {
            specifiers,
            declarators,
        });
    }
    let naming = naming_behind(&specifiers);
    let is_type = makes_types(&specifiers);
    let first = parser.declarator(depth, naming)?;
    let declarators = declarators(parser, depth, is_type, first)?;
    Ok(Declaration {
        specifiers,
        declarators,
    })
}
