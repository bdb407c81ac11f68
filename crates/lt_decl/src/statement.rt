// Statements and blocks, C11 6.8. A statement is held in a box while others are read.

ghost use Rattle.lt_tree.specs.View.{expression_of};
ghost use Rattle.lt_tree.specs.UnitView.{statement_of, items_in, cases_in};
ghost use Rattle.lt_tree.specs.Scope.{after_expression};
ghost use Rattle.lt_expr.specs.Parsing.{rest_of, scope_of, Gives};
ghost use Rattle.lt_expr.specs.Parsing.{GivesNames};
ghost use Rattle.lt_decl.specs.Items.{after_item};
ghost use Rattle.lt_decl.specs.ItemView.{item_of, case_of};
ghost use Rattle.lt_decl.specs.Singles.{one_case, after_case};
ghost use Rattle.lt_decl.specs.Reading as reading;

use crate::control::{for_head, labels, optional, test};
use crate::declaration::declaration;
use crate::item::{declared, marked_item, stated};
use crate::names::hide_statement;
use lt_expr::{Parser, deeper};
use lt_tree::makes::statement as makes;
use lt_tree::{Expr, Item, Stmt, Stop, SwitchCase, Terminal};

// statement = compound | ';' | 'if' .. | 'while' .. | 'do' .. | 'for' .. | 'switch' .. | 'break' ';' | 'continue' ';' | 'return' expr? ';' | expr ';'
#[cycle(statements)]
#[tactic(auto, unfolding(crate::specs::Reading::statement))]
fn statement(parser: &mut Parser, depth: usize) -> Result<Box<Stmt>, Stop>
    ensures { Gives (λ x. statement_of x.value) parser.old parser.new result (reading.statement depth (scope_of parser.old) (rest_of parser.old)) }
{
    let depth = deeper(depth)?;
    let start = parser.start();
    if parser.sees(Terminal::OpenBrace) {
        parser.advance();
        let items = items(parser, depth)?;
        parser.end(start)?;
        Ok(makes::boxed(parser.alloc(), makes::compound(items))?)
    } else if parser.sees(Terminal::Semicolon) {
        parser.advance();
        parser.end(start)?;
        Ok(makes::boxed(parser.alloc(), makes::null())?)
    } else if parser.sees(Terminal::If) {
        parser.advance();
        choice(parser, depth, start)
    } else if parser.sees(Terminal::While) {
        parser.advance();
        while_loop(parser, depth, start)
    } else if parser.sees(Terminal::Do) {
        parser.advance();
        do_loop(parser, depth, start)
    } else if parser.sees(Terminal::For) {
        parser.advance();
        for_loop(parser, depth, start)
    } else if parser.sees(Terminal::Switch) {
        parser.advance();
        switch(parser, depth, start)
    } else {
        simple(parser, depth)
    }
}

// 'break' ';' | 'continue' ';' | 'return' expr? ';' | expr ';'
#[tactic(auto, unfolding(crate::specs::Reading::statement))]
fn simple(parser: &mut Parser, depth: usize) -> Result<Box<Stmt>, Stop>
    ensures { Gives (λ x. statement_of x.value) parser.old parser.new result (reading.simple depth (scope_of parser.old) (rest_of parser.old)) }
{
    let depth = deeper(depth)?;
    let start = parser.start();
    if parser.sees(Terminal::Break) {
        parser.advance();
        parser.expect(Terminal::Semicolon)?;
        parser.end(start)?;
        Ok(makes::boxed(parser.alloc(), makes::break_out())?)
    } else if parser.sees(Terminal::Continue) {
        parser.advance();
        parser.expect(Terminal::Semicolon)?;
        parser.end(start)?;
        Ok(makes::boxed(parser.alloc(), makes::continue_on())?)
    } else if parser.sees(Terminal::Return) {
        parser.advance();
        let value = optional(parser, depth, Terminal::Semicolon)?;
        parser.end(start)?;
        Ok(makes::boxed(parser.alloc(), makes::return_from(value))?)
    } else {
        let value = parser.expression(depth)?;
        parser.expect(Terminal::Semicolon)?;
        parser.end(start)?;
        Ok(makes::boxed(parser.alloc(), makes::expression(value))?)
    }
}

// A statement under a test, whose enumerators are in scope there alone.
#[cycle(statements)]
fn under(parser: &mut Parser, depth: usize, test: &Expr) -> Result<Box<Stmt>, Stop>
    ensures { Gives (λ x. statement_of x.value) parser.old parser.new result (reading.statement depth (after_expression (expression_of test.now) (scope_of parser.old)) (rest_of parser.old)) }
{
    let around = parser.open_list();
    parser.hide_expression(test)?;
    let body = statement(parser, depth)?;
    parser.close_list(around);
    Ok(body)
}

// behind 'if': '(' expr ')' statement ('else' statement)?
#[cycle(statements)]
#[tactic(auto, unfolding(crate::specs::Reading::statement))]
fn choice(parser: &mut Parser, depth: usize, start: u32) -> Result<Box<Stmt>, Stop>
    ensures { Gives (λ x. statement_of x.value) parser.old parser.new result (reading.choice depth (scope_of parser.old) start (rest_of parser.old)) }
{
    let depth = deeper(depth)?;
    let test = test(parser, depth)?;
    let body = under(parser, depth, &test)?;
    if !parser.sees(Terminal::Else) {
        parser.end(start)?;
        return Ok(makes::boxed(parser.alloc(), makes::if_alone(test, body))?);
    }
    parser.advance();
    let other = under(parser, depth, &test)?;
    parser.end(start)?;
    Ok(makes::boxed(parser.alloc(), makes::if_else(test, body, other))?)
}

// behind 'while': '(' expr ')' statement
#[cycle(statements)]
#[tactic(auto, unfolding(crate::specs::Reading::statement))]
fn while_loop(parser: &mut Parser, depth: usize, start: u32) -> Result<Box<Stmt>, Stop>
    ensures { Gives (λ x. statement_of x.value) parser.old parser.new result (reading.while_loop depth (scope_of parser.old) start (rest_of parser.old)) }
{
    let depth = deeper(depth)?;
    let test = test(parser, depth)?;
    let body = under(parser, depth, &test)?;
    parser.end(start)?;
    Ok(makes::boxed(parser.alloc(), makes::while_loop(test, body))?)
}

// behind 'do': statement 'while' '(' expr ')' ';'
#[cycle(statements)]
#[tactic(auto, unfolding(crate::specs::Reading::statement))]
fn do_loop(parser: &mut Parser, depth: usize, start: u32) -> Result<Box<Stmt>, Stop>
    ensures { Gives (λ x. statement_of x.value) parser.old parser.new result (reading.do_loop depth (scope_of parser.old) start (rest_of parser.old)) }
{
    let depth = deeper(depth)?;
    let body = statement(parser, depth)?;
    parser.expect(Terminal::While)?;
    let test = test(parser, depth)?;
    parser.expect(Terminal::Semicolon)?;
    parser.end(start)?;
    Ok(makes::boxed(parser.alloc(), makes::do_loop(body, test))?)
}

// behind 'for': '(' (declaration | expr? ';') expr? ';' expr? ')' statement
#[cycle(statements)]
#[tactic(auto, unfolding(crate::specs::Reading::statement))]
fn for_loop(parser: &mut Parser, depth: usize, start: u32) -> Result<Box<Stmt>, Stop>
    ensures { Gives (λ x. statement_of x.value) parser.old parser.new result (reading.for_loop depth (scope_of parser.old) start (rest_of parser.old)) }
{
    let depth = deeper(depth)?;
    parser.expect(Terminal::OpenParen)?;
    let around = parser.open_list();
    let head = for_head(parser, depth)?;
    let body = statement(parser, depth)?;
    parser.close_list(around);
    parser.end(start)?;
    Ok(makes::boxed(
        parser.alloc(),
        makes::for_loop(head.start, head.test, head.step, body),
    )?)
}

// behind 'switch': '(' expr ')' '{' (label* statement)* '}'
#[cycle(statements)]
#[tactic(auto, unfolding(crate::specs::Reading::statement))]
fn switch(parser: &mut Parser, depth: usize, start: u32) -> Result<Box<Stmt>, Stop>
    ensures { Gives (λ x. statement_of x.value) parser.old parser.new result (reading.switch depth (scope_of parser.old) start (rest_of parser.old)) }
{
    let depth = deeper(depth)?;
    let operand = test(parser, depth)?;
    parser.expect(Terminal::OpenBrace)?;
    let cases = cases(parser, depth, &operand)?;
    parser.end(start)?;
    Ok(makes::boxed(parser.alloc(), makes::switch(operand, cases))?)
}

// (label* statement)* '}', where the enumerators of the operand are in scope
#[cycle(statements)]
#[tactic(auto, unfolding(crate::specs::Reading::statement))]
fn cases(parser: &mut Parser, mut depth: usize, operand: &Expr) -> Result<Vec<SwitchCase>, Stop>
    ensures { Gives (λ xs. cases_in xs.items) parser.old parser.new result (reading.cases depth (after_expression (expression_of operand.now) (scope_of parser.old)) (rest_of parser.old)) }
{
    let around = parser.open_list();
    parser.hide_expression(operand)?;
    let mut cases = Vec::new(parser.alloc());
    'more: loop {
        depth = deeper(depth)?;
        if parser.sees(Terminal::CloseBrace) {
            parser.advance();
            parser.close_list(around);
            cases.shrink_to_fit();
            return Ok(cases);
        }
        let one = case(parser, depth)?;
        cases.push(one)?;
    }
}

// label* statement
#[cycle(statements)]
fn case(parser: &mut Parser, depth: usize) -> Result<SwitchCase, Stop>
    ensures { GivesNames case_of (λ y. after_case y (scope_of parser.old)) parser.old parser.new result (one_case depth (scope_of parser.old) (rest_of parser.old)) }
{
    let labels = labels(parser, depth)?;
    let body = statement(parser, depth)?;
    hide_statement(parser, &body)?;
    Ok(SwitchCase {
        labels,
        statement: Box::into_inner(body),
    })
}

// item* '}'
#[cycle(statements)]
#[tactic(auto, unfolding(crate::specs::Reading::statement))]
pub(crate) fn items(parser: &mut Parser, mut depth: usize) -> Result<Vec<Item>, Stop>
    ensures { Gives (λ xs. items_in xs.items) parser.old parser.new result (reading.items depth (scope_of parser.old) (rest_of parser.old)) }
{
    let around = parser.open_list();
    let mut items = Vec::new(parser.alloc());
    'more: loop {
        depth = deeper(depth)?;
        if parser.sees(Terminal::CloseBrace) {
            parser.advance();
            parser.close_list(around);
            items.shrink_to_fit();
            return Ok(items);
        }
        let one = item(parser, depth)?;
        items.push(one)?;
    }
}

// item = declaration | statement | mark ';'
#[cycle(statements)]
#[tactic(auto, unfolding(crate::specs::Reading::statement))]
fn item(parser: &mut Parser, depth: usize) -> Result<Item, Stop>
    ensures { GivesNames item_of (λ i. after_item i (scope_of parser.old)) parser.old parser.new result (reading.item depth (scope_of parser.old) (rest_of parser.old)) }
{
    let depth = deeper(depth)?;
    let start = parser.start();
    if parser.begins_mark() {
        let mark = parser.mark(depth)?;
        return marked_item(parser, depth, start, mark);
    }
    if parser.begins_specifier(false) {
        let declaration = declaration(parser, depth)?;
        parser.end(start)?;
        return Ok(declared(declaration));
    }
    let body = statement(parser, depth)?;
    parser.end(start)?;
    hide_statement(parser, &body)?;
    Ok(stated(body))
}
