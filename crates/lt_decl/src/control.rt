// What stands in statements beside their bodies, C11 6.8.

ghost use Rattle.std.specs.Prelude.{◌≡◌, map, option_map};
ghost use Rattle.lt_tree.specs.View.{expression_of};
ghost use Rattle.lt_tree.specs.UnitView.{start_of as start_shown, label_of};
ghost use Rattle.lt_tree.specs.Scope.{after_start, after_labels};
ghost use Rattle.lt_expr.specs.Parsing.{rest_of, scope_of, Gives};
ghost use Rattle.lt_expr.specs.Parsing.{GivesNames};
ghost use Rattle.lt_decl.specs.HeadView.{head_of};
ghost use Rattle.lt_decl.specs.Singles.{begins_label, one_label, after_label, head, after_head};
ghost use Rattle.lt_decl.specs.Reading as reading;

use crate::declaration::declaration;
use crate::names::hide_optional;
use lt_expr::{Parser, deeper};
use lt_tree::{Expr, ForStart, Label, Stop, Terminal};

/// What stands in the parentheses of a `for`.
#[derive(Drop)]
pub(crate) struct ForHead {
    pub(crate) start: ForStart,
    pub(crate) test: Option<Expr>,
    pub(crate) step: Option<Expr>,
}

// '(' expr ')'
#[tactic(auto, unfolding(crate::specs::Reading::controlling))]
pub(crate) fn test(parser: &mut Parser, depth: usize) -> Result<Expr, Stop>
    ensures { Gives expression_of parser.old parser.new result (reading.controlling depth (scope_of parser.old) (rest_of parser.old)) }
{
    let depth = deeper(depth)?;
    parser.expect(Terminal::OpenParen)?;
    let test = parser.expression(depth)?;
    parser.expect(Terminal::CloseParen)?;
    Ok(test)
}

// expr? SIGN
#[tactic(auto, unfolding(crate::specs::Reading::controlling))]
pub(crate) fn optional(
    parser: &mut Parser,
    depth: usize,
    end: Terminal,
) -> Result<Option<Expr>, Stop>
    ensures { Gives (λ e. option_map expression_of e) parser.old parser.new result (reading.optional depth (scope_of parser.old) end (rest_of parser.old)) }
{
    let depth = deeper(depth)?;
    if parser.sees(end) {
        parser.advance();
        return Ok(None);
    }
    let expression = parser.expression(depth)?;
    parser.expect(end)?;
    Ok(Some(expression))
}

// declaration | expr? ';'
#[tactic(auto, unfolding(crate::specs::Reading::controlling))]
fn for_start(parser: &mut Parser, depth: usize) -> Result<ForStart, Stop>
    ensures { GivesNames start_shown (λ f. after_start f (scope_of parser.old)) parser.old parser.new result (reading.for_start depth (scope_of parser.old) (rest_of parser.old)) }
{
    let depth = deeper(depth)?;
    if parser.begins_specifier(false) {
        let declaration = declaration(parser, depth)?;
        return Ok(ForStart::Declaration(declaration));
    }
    let first = optional(parser, depth, Terminal::Semicolon)?;
    hide_optional(parser, &first)?;
    match first {
        None => Ok(ForStart::Nothing),
        Some(e) => Ok(ForStart::Expression(e)),
    }
}

// (declaration | expr? ';') expr? ';' expr? ')'
pub(crate) fn for_head(parser: &mut Parser, depth: usize) -> Result<ForHead, Stop>
    ensures { GivesNames head_of (λ h. after_head h (scope_of parser.old)) parser.old parser.new result (head depth (scope_of parser.old) (rest_of parser.old)) }
{
    let start = for_start(parser, depth)?;
    let test = optional(parser, depth, Terminal::Semicolon)?;
    hide_optional(parser, &test)?;
    let step = optional(parser, depth, Terminal::CloseParen)?;
    hide_optional(parser, &step)?;
    Ok(ForHead { start, test, step })
}

fn begins_label(parser: &Parser) -> bool
    ensures { result ≡ begins_label (rest_of parser.now).0 }
{
    parser.sees(Terminal::Case) || parser.sees(Terminal::Default)
}

// label = 'case' cond ':' | 'default' ':'
fn label(parser: &mut Parser, depth: usize) -> Result<Label, Stop>
    ensures { GivesNames label_of (λ l. after_label l (scope_of parser.old)) parser.old parser.new result (one_label depth (scope_of parser.old) (rest_of parser.old)) }
{
    let start = parser.start();
    if parser.sees(Terminal::Case) {
        parser.advance();
        let value = parser.conditional(depth)?;
        parser.expect(Terminal::Colon)?;
        parser.end(start)?;
        parser.hide_expression(&value)?;
        return Ok(Label::Case(value));
    }
    parser.advance();
    parser.expect(Terminal::Colon)?;
    parser.end(start)?;
    Ok(Label::Default)
}

// label*
#[tactic(auto, unfolding(crate::specs::Reading::controlling))]
pub(crate) fn labels(parser: &mut Parser, mut depth: usize) -> Result<Vec<Label>, Stop>
    ensures { GivesNames (λ xs. map label_of xs.items) (λ ls. after_labels ls (scope_of parser.old)) parser.old parser.new result (reading.labels depth (scope_of parser.old) (rest_of parser.old)) }
{
    let mut labels = Vec::new(parser.alloc());
    'more: loop {
        depth = deeper(depth)?;
        if !begins_label(parser) {
            return Ok(labels);
        }
        let one = label(parser, depth)?;
        labels.push(one)?;
    }
}
