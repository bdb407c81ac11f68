// Items of a block.

ghost use Rattle.std.specs.Prelude.{◌≡◌};
ghost use Rattle.lt_tree.specs.View.{mark_of};
ghost use Rattle.lt_tree.specs.UnitView.{declaration_of, statement_of};
ghost use Rattle.lt_expr.specs.Parsing.{rest_of, scope_of};
ghost use Rattle.lt_expr.specs.Parsing.{GivesNames};
ghost use Rattle.lt_decl.specs.Items as read;
ghost use Rattle.lt_decl.specs.Items.{after_item};
ghost use Rattle.lt_decl.specs.ItemView.{item_of};
ghost use Rattle.lt_decl.specs.Reading as reading;

use crate::marked::expression_on;
use lt_expr::{Parser, deeper};
use lt_tree::makes::statement as makes;
use lt_tree::{Declaration, Item, Mark, Stmt, Stop, Terminal};

pub(crate) fn declared(declaration: Declaration) -> Item
    ensures { item_of result ≡ read.declared (declaration_of declaration) }
{
    Item::Declaration(declaration)
}

pub(crate) fn stated(statement: Box<Stmt>) -> Item
    ensures { item_of result ≡ read.stated (statement_of statement.value) }
{
    Item::Statement(Box::into_inner(statement))
}

fn marked(mark: Mark) -> Item
    ensures { item_of result ≡ read.marked (mark_of mark) }
{
    Item::Mark(mark)
}

// behind a mark: ';' or ',' and the rest of an expression and ';'
#[tactic(auto, unfolding(crate::specs::Reading::statement))]
pub(crate) fn marked_item(
    parser: &mut Parser,
    depth: usize,
    start: u32,
    mark: Mark,
) -> Result<Item, Stop>
    ensures { GivesNames item_of (λ i. after_item i (scope_of parser.old)) parser.old parser.new result (reading.marked_item depth (scope_of parser.old) start (mark_of mark) (rest_of parser.old)) }
{
    let depth = deeper(depth)?;
    if parser.sees(Terminal::Semicolon) {
        parser.advance();
        parser.end(start)?;
        parser.hide_mark(&mark)?;
        return Ok(marked(mark));
    }
    parser.expect(Terminal::Comma)?;
    let value = expression_on(parser, depth, start, mark)?;
    parser.expect(Terminal::Semicolon)?;
    parser.end(start)?;
    parser.end(start)?;
    parser.hide_expression(&value)?;
    Ok(stated(makes::boxed(parser.alloc(), makes::expression(value))?))
}
