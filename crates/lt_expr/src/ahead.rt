// What stands in front, where the grammar goes by it.

ghost use Rattle.std.specs.Prelude.{◌≡◌, ◌≤◌, map, drop, IfSome, option_map};
ghost use Rattle.lt_expr.specs.Symbols.{shown};
ghost use Rattle.lt_tree.specs.Scope as scope;
ghost use Rattle.lt_tree.specs.Ahead as ahead;
ghost use Rattle.lt_expr.specs.Infixes.{infix_shown};
ghost use Rattle.lt_expr.specs.Namings.{naming_of};
ghost use Rattle.lt_expr.specs.Parsing.{rest_of, scope_of};
ghost use Rattle.lt_expr.specs.Front as front;

use crate::naming::Naming;
use crate::operators::{Infix, assignment_of, infix_of, is_operator, is_specifier_word};
use crate::parser::Parser;
use crate::symbol::Symbol;
use lt_model::Op;
use lt_tree::Terminal;

// The terminal in front of symbols.
#[tactic(auto, unfolding(lt_tree::specs::Ahead::same_terminal))]
fn begins_with(symbols: &[Symbol], terminal: Terminal) -> bool
    ensures { result ≡ ahead.sees terminal (map shown symbols.now) }
{
    match symbols.split_first() {
        Some((Symbol::Sign(found, _), _)) => *found == terminal,
        _ => Terminal::Other == terminal,
    }
}

// The symbols behind the first.
fn behind<'s, 'a>(symbols: &'s [Symbol<'a>]) -> &'s [Symbol<'a>]
    ensures { map shown result.now ≡ drop 1 (map shown symbols.now) }
{
    match symbols {
        [] => symbols,
        [_, rest @ ..] => rest,
    }
}

impl<'a> Parser<'a> {
    /// Whether this is the next symbol.
    pub fn sees(&self, terminal: Terminal) -> bool
        ensures { result ≡ ahead.sees terminal (rest_of self.now).0 }
    {
        begins_with(self.rest(), terminal)
    }

    fn sees_second(&self, terminal: Terminal) -> bool
        ensures { result ≡ ahead.sees terminal (drop 1 (rest_of self.now).0) }
    {
        begins_with(behind(self.rest()), terminal)
    }

    /// Whether a name stands for a type.
    pub fn is_type(&self, word: &[u8]) -> bool
        ensures { result ≡ scope.is_type (scope_of self.now) word.now }
    {
        match self.inner.find(word) {
            Some(kind) => kind,
            None => match self.outer.find(word) {
                Some(kind) => kind,
                None => false,
            },
        }
    }

    /// Whether a declarator may have this name.
    pub(crate) fn takes_name(&self, naming: Naming, word: &[u8]) -> bool
        ensures { result ≡ ahead.takes_name (naming_of naming) (scope_of self.now) word.now }
    {
        match naming {
            Naming::Named | Naming::Either => true,
            Naming::Untyped => !self.is_type(word),
            Naming::Nameless => false,
        }
    }

    // A specifier in front of these symbols.
    fn is_specifier(&self, typed: bool, symbols: &[Symbol]) -> bool
        ensures { result ≡ ahead.begins_specifier (scope_of self.now) typed (map shown symbols.now) }
    {
        match symbols.split_first() {
            Some((Symbol::Sign(terminal, _), _)) => is_specifier_word(*terminal),
            Some((Symbol::Name(word, _), _)) => !typed && self.is_type(word),
            _ => false,
        }
    }

    /// Whether one more specifier is next, behind those that named a type or didn't.
    pub fn begins_specifier(&self, typed: bool) -> bool
        ensures { result ≡ ahead.begins_specifier (scope_of self.now) typed (rest_of self.now).0 }
    {
        self.is_specifier(typed, self.rest())
    }

    /// Whether a mark is next.
    pub fn begins_mark(&self) -> bool
        ensures { result ≡ front.begins_mark (rest_of self.now).0 }
    {
        self.sees(Terminal::Label) || self.sees(Terminal::LabelBind)
    }

    pub(crate) fn begins_cast(&self) -> bool
        ensures { result ≡ front.begins_cast (scope_of self.now) (rest_of self.now).0 }
    {
        self.sees(Terminal::OpenParen) && self.is_specifier(false, behind(self.rest()))
    }

    pub(crate) fn begins_postfix(&self) -> bool
        ensures { result ≡ front.begins_postfix (rest_of self.now).0 }
    {
        self.sees(Terminal::OpenIndex)
            || self.sees(Terminal::OpenParen)
            || self.sees(Terminal::Dot)
            || self.sees(Terminal::Arrow)
            || self.sees(Terminal::Increment)
            || self.sees(Terminal::Decrement)
    }

    /// The assignment in front, where no cast stands before it.
    pub(crate) fn assignment_behind(&self, cast: bool) -> Option<Option<Op>>
        ensures { result ≡ front.assignment_behind cast (rest_of self.now).0 }
    {
        if cast {
            None
        } else {
            assignment_of(self.terminal())
        }
    }

    /// The operator in front, if it binds at least so tightly.
    #[tactic(auto, unfolding(crate::specs::Front::operator_at))]
    pub(crate) fn operator_at(&self, least: usize) -> Option<(Infix, usize)>
        ensures value { option_map (λ o. (infix_shown o.0, o.1)) result ≡ front.operator_at least (rest_of self.now).0 }
        ensures small { IfSome result (λ o. o.1 ≤ 9) }
    {
        let (op, level) = infix_of(self.terminal())?;
        if least <= level {
            Some((op, level))
        } else {
            None
        }
    }

    pub(crate) fn begins_declarator(&self) -> bool
        ensures { result ≡ ahead.begins_declarator (rest_of self.now).0 }
    {
        match self.rest().split_first() {
            Some((Symbol::Name(_, _), _)) => true,
            _ => self.sees(Terminal::Star)
                || self.sees(Terminal::OpenParen)
                || self.sees(Terminal::OpenIndex),
        }
    }

    pub(crate) fn begins_suffix(&self) -> bool
        ensures { result ≡ ahead.begins_suffix (rest_of self.now).0 }
    {
        self.sees(Terminal::OpenParen) || self.sees(Terminal::OpenIndex)
    }

    // a parameter list stands behind the parenthesis in front
    fn opens_parameters(&self, naming: Naming) -> bool
        ensures { result ≡ ahead.opens_parameters (naming_of naming) (scope_of self.now) (drop 1 (rest_of self.now).0) }
    {
        match naming {
            Naming::Named | Naming::Untyped => false,
            Naming::Nameless | Naming::Either => {
                self.sees_second(Terminal::CloseParen)
                    || self.is_specifier(false, behind(self.rest()))
            }
        }
    }

    pub(crate) fn begins_nested(&self, naming: Naming) -> bool
        ensures { result ≡ front.begins_nested (naming_of naming) (scope_of self.now) (rest_of self.now).0 }
    {
        self.sees(Terminal::OpenParen) && !self.opens_parameters(naming)
    }

    pub(crate) fn is_void_alone(&self) -> bool
        ensures { result ≡ ahead.is_void_alone (rest_of self.now).0 }
    {
        match self.rest().split_first() {
            Some((Symbol::Sign(Terminal::Void, _), rest)) => begins_with(
                rest,
                Terminal::CloseParen,
            ),
            _ => false,
        }
    }

    pub(crate) fn goes_on_with_parameter(&self) -> bool
        ensures { result ≡ front.goes_on_with_parameter (rest_of self.now).0 }
    {
        self.sees(Terminal::Comma) && !self.sees_second(Terminal::Ellipsis)
    }

    /// Whether an expression can't end here.
    pub fn goes_on(&self) -> bool
        ensures { result ≡ ahead.goes_on (rest_of self.now).0 }
    {
        match self.rest().split_first() {
            Some((Symbol::Sign(terminal, _), _)) => extends(*terminal),
            Some((Symbol::Literal(_, _), _)) => true,
            _ => false,
        }
    }
}

fn extends(terminal: Terminal) -> bool
    ensures { result ≡ ahead.extends terminal }
{
    match terminal {
        Terminal::OpenParen
        | Terminal::OpenIndex
        | Terminal::Dot
        | Terminal::Arrow
        | Terminal::Question
        | Terminal::Comma => true,
        _ => is_operator(terminal),
    }
}
