// External declarations, C11 6.9.

ghost use Rattle.std.specs.Prelude.{◌≡◌, map};
ghost use Rattle.lt_tree.specs.Records.{specifiers_of, declarator_of};
ghost use Rattle.lt_tree.specs.UnitView.{items_in, external_of};
ghost use Rattle.lt_tree.specs.Scope.{after_external};
ghost use Rattle.lt_expr.specs.Parsing.{rest_of, scope_of, Gives};
ghost use Rattle.lt_expr.specs.Parsing.{GivesNames};
ghost use Rattle.lt_decl.specs.Declares.{GivesUnit};
ghost use Rattle.lt_decl.specs.Items.{at_end};
ghost use Rattle.lt_decl.specs.Singles.{in_function, definition, declared_on, behind_external};
ghost use Rattle.lt_decl.specs.Reading as reading;

use crate::declaration::declarators;
use crate::names::{declare_parameters, makes_types};
use crate::statement::items;
use lt_expr::{Parser, deeper, naming_behind};
use lt_tree::{
    Declaration, Declarator, External, FunctionDefinition, Item, Specifiers, Stop, Terminal,
};

// The items of a function's body, where its parameters are in scope.
fn body(parser: &mut Parser, depth: usize, declarator: &Declarator) -> Result<Vec<Item>, Stop>
    ensures { Gives (λ xs. items_in xs.items) parser.old parser.new result (reading.items depth (in_function (declarator_of declarator.now) (scope_of parser.old)) (rest_of parser.old)) }
{
    let around = parser.open_list();
    declare_parameters(parser, declarator)?;
    let items = items(parser, depth)?;
    parser.close_list(around);
    Ok(items)
}

// behind specs declarator: compound
fn definition(
    parser: &mut Parser,
    depth: usize,
    start: u32,
    specifiers: Specifiers,
    declarator: Declarator,
) -> Result<External, Stop>
    ensures { GivesNames external_of (λ x. behind_external x (scope_of parser.old)) parser.old parser.new result (definition depth (scope_of parser.old) start (specifiers_of specifiers) (declarator_of declarator) (rest_of parser.old)) }
{
    parser.advance();
    parser.declare(&declarator, makes_types(&specifiers))?;
    let body = body(parser, depth, &declarator)?;
    parser.end(start)?;
    Ok(External::Function(FunctionDefinition {
        specifiers,
        declarator,
        body,
    }))
}

// behind specs declarator: the rest of a declaration
fn declared(
    parser: &mut Parser,
    depth: usize,
    start: u32,
    specifiers: Specifiers,
    declarator: Declarator,
) -> Result<External, Stop>
    ensures { GivesNames external_of (λ x. behind_external x (scope_of parser.old)) parser.old parser.new result (declared_on depth (scope_of parser.old) start (specifiers_of specifiers) (declarator_of declarator) (rest_of parser.old)) }
{
    let is_type = makes_types(&specifiers);
    let declarators = declarators(parser, depth, is_type, declarator)?;
    parser.end(start)?;
    Ok(External::Declaration(Declaration {
        specifiers,
        declarators,
    }))
}

// specs declarator compound | declaration
#[tactic(auto, unfolding(crate::specs::Reading::external))]
fn external(parser: &mut Parser, depth: usize) -> Result<External, Stop>
    ensures { GivesNames external_of (λ x. after_external x (scope_of parser.old)) parser.old parser.new result (reading.external depth (scope_of parser.old) (rest_of parser.old)) }
{
    let depth = deeper(depth)?;
    let start = parser.start();
    let specifiers = parser.specifiers(depth)?;
    parser.hide_specifiers(&specifiers)?;
    if parser.sees(Terminal::Semicolon) {
        parser.advance();
        parser.end(start)?;
        let declarators = Vec::new(parser.alloc());
        return Ok(External::Declaration(Declaration {
            specifiers,
            declarators,
        }));
    }
    let declarator = parser.declarator(depth, naming_behind(&specifiers))?;
    let depth = deeper(depth)?;
    if parser.sees(Terminal::OpenBrace) {
        definition(parser, depth, start, specifiers, declarator)
    } else {
        declared(parser, depth, start, specifiers, declarator)
    }
}

fn is_at_end(parser: &Parser) -> bool
    ensures { result ≡ at_end (rest_of parser.now).0 }
{
    parser.rest().is_empty()
}

// external*, with external = specs declarator compound | declaration | ';', up to the end
#[tactic(auto, unfolding(crate::specs::Reading::externals))]
pub(crate) fn externals(parser: &mut Parser, mut depth: usize) -> Result<Vec<External>, Stop>
    ensures { GivesUnit parser.old parser.new result (reading.externals depth (scope_of parser.old) (rest_of parser.old)) }
{
    let mut externals = Vec::new(parser.alloc());
    'more: loop {
        depth = deeper(depth)?;
        if is_at_end(parser) {
            return Ok(externals);
        }
        if parser.sees(Terminal::Semicolon) {
            parser.advance();
            continue;
        }
        let one = external(parser, depth)?;
        externals.push(one)?;
    }
}
