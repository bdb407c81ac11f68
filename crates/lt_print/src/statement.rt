// Statements and blocks, C11 6.8, from the first word on, which stands in a line of the level `line`, to the end of the last line.

ghost use Rattle.std.specs.Prelude.{◌≡◌, ◌++◌, ◌∷◌, [], map, option_map, Option, OnOk};
ghost use Rattle.std.specs.List.{flat_map};
ghost use Rattle.lt_tree.specs.declared.terminal.Terminal.TheVariants as t;
ghost use Rattle.lt_tree.specs.Pieces.{text_of, gap, indent, line_end};
ghost use Rattle.lt_tree.specs.Tree as c;
ghost use Rattle.lt_tree.specs.Canon as spec;
ghost use Rattle.lt_tree.specs.CanonUnits as unit;
ghost use Rattle.lt_tree.specs.View.{expression_of};
ghost use Rattle.lt_tree.specs.UnitView.{label_of, start_of, statement_of, item_before, items_in, cases_in};
ghost use Rattle.lt_print.specs.Statements as part;

use crate::declaration::put_declaration;
use crate::expression::{put_expression, put_operand};
use crate::level::Level;
use crate::mark::put_mark;
use crate::specifier::{close_braces, open_braces};
use crate::text::{deeper, end_line, put_gap, put_indent, put_sign};
use lt_tree::{Expr, ForStart, Item, Label, Stmt, SwitchCase, Terminal};
use std::alloc::AllocError;

#[cycle(statements)]
#[tactic(auto, unfolding(lt_tree::specs::Pieces::text_of, lt_tree::specs::CanonUnits::lines), using(crate::proofs::Texts::texts))]
pub fn put_statement(out: &mut Vec<u8>, line: usize, statement: &Stmt) -> Result<(), AllocError>
    ensures { OnOk result (out.new.items ≡ out.old.items ++ text_of (unit.lines line (statement_of statement.now))) }
{
    match statement {
        Stmt::Compound(items) => put_block(out, line, items),
        Stmt::Expression(e) => {
            put_expression(out, line, e)?;
            end_statement(out)
        }
        Stmt::Null => end_statement(out),
        Stmt::If(test, body, other) => {
            put_header(out, line, Terminal::If, test)?;
            put_body(out, line, body)?;
            put_else(out, line, other)
        }
        Stmt::While(test, body) => {
            put_header(out, line, Terminal::While, test)?;
            put_body(out, line, body)
        }
        Stmt::Do(body, test) => {
            put_sign(out, Terminal::Do)?;
            put_body(out, line, body)?;
            put_indent(out, line)?;
            put_header(out, line, Terminal::While, test)?;
            end_statement(out)
        }
        Stmt::For(start, test, step, body) => {
            put_for_header(out, line, start, test, step)?;
            put_body(out, line, body)
        }
        Stmt::Switch(operand, cases) => {
            put_header(out, line, Terminal::Switch, operand)?;
            put_cases(out, line, cases)
        }
        Stmt::Break => {
            put_sign(out, Terminal::Break)?;
            end_statement(out)
        }
        Stmt::Continue => {
            put_sign(out, Terminal::Continue)?;
            end_statement(out)
        }
        Stmt::Return(value) => {
            put_sign(out, Terminal::Return)?;
            put_optional(out, line, value)?;
            end_statement(out)
        }
    }
}

/// `;` and the end of the line.
#[tactic(auto, unfolding(lt_tree::specs::Pieces::text_of), using(crate::proofs::Texts::texts))]
fn end_statement(out: &mut Vec<u8>) -> Result<(), AllocError>
    ensures { OnOk result (out.new.items ≡ out.old.items ++ text_of (spec.sign t.Semicolon ∷ line_end ∷ [])) }
{
    put_sign(out, Terminal::Semicolon)?;
    end_line(out)
}

/// A keyword and '(' expr ')'
#[tactic(auto, unfolding(lt_tree::specs::Pieces::text_of), using(crate::proofs::Texts::texts))]
fn put_header(out: &mut Vec<u8>, line: usize, word: Terminal, e: &Expr) -> Result<(), AllocError>
    ensures { OnOk result (out.new.items ≡ out.old.items ++ text_of (spec.sign word ∷ gap ∷ spec.in_parentheses (spec.expression line (expression_of e.now)))) }
{
    put_sign(out, word)?;
    put_gap(out)?;
    put_sign(out, Terminal::OpenParen)?;
    put_expression(out, line, e)?;
    put_sign(out, Terminal::CloseParen)
}

/// 'for' '(' (declaration | expr? ';') expr? ';' expr? ')'
#[tactic(auto, unfolding(lt_tree::specs::Pieces::text_of), using(crate::proofs::Texts::texts))]
fn put_for_header(
    out: &mut Vec<u8>,
    line: usize,
    start: &ForStart,
    test: &Option<Expr>,
    step: &Option<Expr>,
) -> Result<(), AllocError>
    ensures { OnOk result (out.new.items ≡ out.old.items ++ text_of (spec.sign t.For ∷ gap ∷ spec.in_parentheses (unit.for_start line (start_of start.now) ++ unit.optional line (option_map expression_of test.now) ++ spec.sign t.Semicolon ∷ unit.optional line (option_map expression_of step.now)))) }
{
    put_sign(out, Terminal::For)?;
    put_gap(out)?;
    put_sign(out, Terminal::OpenParen)?;
    put_for_start(out, line, start)?;
    put_optional(out, line, test)?;
    put_sign(out, Terminal::Semicolon)?;
    put_optional(out, line, step)?;
    put_sign(out, Terminal::CloseParen)
}

/// declaration | expr? ';'
#[tactic(auto, unfolding(lt_tree::specs::Pieces::text_of), using(crate::proofs::Texts::texts))]
fn put_for_start(out: &mut Vec<u8>, line: usize, start: &ForStart) -> Result<(), AllocError>
    ensures { OnOk result (out.new.items ≡ out.old.items ++ text_of (unit.for_start line (start_of start.now))) }
{
    match start {
        ForStart::Nothing => put_sign(out, Terminal::Semicolon),
        ForStart::Expression(e) => {
            put_expression(out, line, e)?;
            put_sign(out, Terminal::Semicolon)
        }
        ForStart::Declaration(declaration) => put_declaration(out, line, declaration),
    }
}

/// expr?, with a space before it
#[tactic(auto, unfolding(lt_tree::specs::Pieces::text_of), using(crate::proofs::Texts::texts))]
fn put_optional(out: &mut Vec<u8>, line: usize, e: &Option<Expr>) -> Result<(), AllocError>
    ensures { OnOk result (out.new.items ≡ out.old.items ++ text_of (unit.optional line (option_map expression_of e.now))) }
{
    match e {
        Some(e) => {
            put_gap(out)?;
            put_expression(out, line, e)
        }
        None => Ok(()),
    }
}

/// A body: a compound one behind its header, any other on the next line and one level deeper.
#[cycle(statements)]
fn put_body(out: &mut Vec<u8>, line: usize, body: &Stmt) -> Result<(), AllocError>
    ensures { OnOk result (out.new.items ≡ out.old.items ++ text_of (part.body_lines line (statement_of body.now))) }
{
    if is_compound(body) {
        put_gap(out)?;
        put_statement(out, line, body)
    } else {
        end_line(out)?;
        let inner = deeper(line)?;
        put_indent(out, inner)?;
        put_statement(out, inner, body)
    }
}

fn is_compound(statement: &Stmt) -> bool
    ensures { result ≡ part.is_compound (statement_of statement.now) }
{
    match statement {
        Stmt::Compound(_) => true,
        Stmt::Expression(_)
        | Stmt::Null
        | Stmt::If(..)
        | Stmt::While(..)
        | Stmt::Do(..)
        | Stmt::For(..)
        | Stmt::Switch(..)
        | Stmt::Break
        | Stmt::Continue
        | Stmt::Return(_) => false,
    }
}

/// ('else' statement)?
#[cycle(statements)]
#[tactic(auto, unfolding(lt_tree::specs::Pieces::text_of), using(crate::proofs::Texts::texts))]
fn put_else(out: &mut Vec<u8>, line: usize, other: &Option<Box<Stmt>>) -> Result<(), AllocError>
    ensures { OnOk result (out.new.items ≡ out.old.items ++ text_of (part.else_lines line other.now)) }
{
    match other {
        Some(body) => {
            put_indent(out, line)?;
            put_sign(out, Terminal::Else)?;
            put_body(out, line, body)
        }
        None => Ok(()),
    }
}

/// '{' item* '}'
#[cycle(statements)]
fn put_block(out: &mut Vec<u8>, line: usize, items: &[Item]) -> Result<(), AllocError>
    ensures { OnOk result (out.new.items ≡ out.old.items ++ text_of (unit.lines line (c.Compound (items_in items.now)))) }
{
    put_sign(out, Terminal::OpenBrace)?;
    end_line(out)?;
    let inner = deeper(line)?;
    put_items(out, inner, items)?;
    close_braces(out, line)?;
    end_line(out)
}

/// The items of a block, each from the start of a line on.
#[cycle(statements)]
pub fn put_items(out: &mut Vec<u8>, line: usize, items: &[Item]) -> Result<(), AllocError>
    ensures { OnOk result (out.new.items ≡ out.old.items ++ text_of (unit.item_lines line (items_in items.now))) }
{
    for item in items {
        put_item(out, line, item)?;
    }
    Ok(())
}

/// item = declaration | statement | mark ';'
#[cycle(statements)]
#[tactic(auto, unfolding(lt_tree::specs::Pieces::text_of, lt_tree::specs::CanonUnits::lines), using(crate::proofs::Texts::texts))]
fn put_item(out: &mut Vec<u8>, line: usize, item: &Item) -> Result<(), AllocError>
    ensures { OnOk result (out.new.items ≡ out.old.items ++ text_of (unit.item_lines line (item_before item.now c.no_items))) }
{
    put_indent(out, line)?;
    match item {
        Item::Declaration(declaration) => {
            put_declaration(out, line, declaration)?;
            end_line(out)
        }
        Item::Statement(statement) => put_statement(out, line, statement),
        Item::Mark(mark) => {
            put_mark(out, line, mark)?;
            end_statement(out)
        }
    }
}

/// '{' (label* statement)* '}', one level deeper, behind a header
#[cycle(statements)]
fn put_cases(out: &mut Vec<u8>, line: usize, cases: &[SwitchCase]) -> Result<(), AllocError>
    ensures { OnOk result (out.new.items ≡ out.old.items ++ text_of (part.case_block line (cases_in cases.now))) }
{
    open_braces(out)?;
    let inner = deeper(line)?;
    put_case_lines(out, inner, cases)?;
    close_braces(out, line)?;
    end_line(out)
}

/// (label* statement)*
#[cycle(statements)]
fn put_case_lines(out: &mut Vec<u8>, line: usize, cases: &[SwitchCase]) -> Result<(), AllocError>
    ensures { OnOk result (out.new.items ≡ out.old.items ++ text_of (unit.case_lines line (cases_in cases.now))) }
{
    for case in cases {
        put_labels(out, line, &case.labels)?;
        put_indent(out, line)?;
        put_statement(out, line, &case.statement)?;
    }
    Ok(())
}

/// label*
fn put_labels(out: &mut Vec<u8>, line: usize, labels: &[Label]) -> Result<(), AllocError>
    ensures { OnOk result (out.new.items ≡ out.old.items ++ text_of (flat_map (unit.label_line line) (map label_of labels.now))) }
{
    for label in labels {
        put_label(out, line, label)?;
    }
    Ok(())
}

/// label = 'case' cond ':' | 'default' ':'
#[tactic(auto, unfolding(lt_tree::specs::Pieces::text_of), using(crate::proofs::Texts::texts))]
fn put_label(out: &mut Vec<u8>, line: usize, label: &Label) -> Result<(), AllocError>
    ensures { OnOk result (out.new.items ≡ out.old.items ++ text_of (unit.label_line line (label_of label.now))) }
{
    put_indent(out, line)?;
    match label {
        Label::Case(value) => {
            put_sign(out, Terminal::Case)?;
            put_gap(out)?;
            put_operand(out, line, Level::Conditional, value)?;
        }
        Label::Default => put_sign(out, Terminal::Default)?,
    }
    put_sign(out, Terminal::Colon)?;
    end_line(out)
}
