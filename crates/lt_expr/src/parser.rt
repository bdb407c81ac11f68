ghost use Rattle.std.specs.Prelude.{◌≡◌, ◌≤◌, [], ◌∷◌, suc, length, map, drop, reverse, IfOk, MatchResult};
ghost use Rattle.lt_tree.specs.Symbols.{start_of};
ghost use Rattle.lt_tree.specs.Ahead as ahead;
ghost use Rattle.lt_tree.specs.Records.{expressions_in};
ghost use Rattle.lt_tree.specs.declared.stop.Stop.TheVariants.{NotOfForm};
ghost use Rattle.lt_expr.specs.Boxes.{boxed};
ghost use Rattle.lt_expr.specs.Symbols.{shown};
ghost use Rattle.lt_expr.specs.Parsing.{rest_of, scope_of, GoesOn, Passes};
ghost use Rattle.lt_expr.specs.Front as front;
ghost use Rattle.lt_expr.specs.Fronts.{front_of};

use crate::nodes;
use crate::symbol::Symbol;
use crate::typedefs::Typedefs;
use lt_tree::{Expr, Stop, Terminal};
use std::alloc::{AllocError, Global};
use std::marker::Model;

/// A place among the symbols of a text, with what was read before it.
#[derive(Drop)]
pub struct Parser<'a> {
    pub(crate) alloc: Global,
    symbols: &'a [Symbol<'a>],
    passed: usize,
    /// The bytes that the nodes begin at that have ended.
    ends: Vec<u32>,
    pub(crate) outer: &'a Typedefs,
    /// The names that were declared within: parameters of the lists that are open, and enumerators.
    pub(crate) inner: Typedefs,
}

impl<'a> Model for Parser<'a> {
    ghost use Rattle.std.specs.Prelude.{◌≤◌, length, map, reverse};
    ghost use Rattle.lt_expr.specs.Symbols.{shown};
    ghost use Rattle.lt_expr.specs.Parsing.{Parsing};

    ghost Value = { Parsing };

    ghost view = { λ p. record { alloc = p.alloc; symbols = map shown p.symbols.now; passed = p.passed; ends = reverse p.ends.items; inner = p.inner; outer = p.outer.now } };

    ghost invariant = { λ p. p.passed ≤ length p.symbols.now };
}

// One level deeper in the nest.
pub fn deeper(depth: usize) -> Result<usize, Stop>
    ensures { MatchResult result (λ n. depth ≡ suc n) (λ e. (depth ≡ 0) × (e ≡ NotOfForm)) }
{
    match depth.checked_sub(1) {
        Some(less) => Ok(less),
        None => Err(Stop::NotOfForm),
    }
}

impl<'a> Parser<'a> {
    /// These symbols from a place on, with the names that are in scope there.
    pub fn new(
        alloc: Global,
        symbols: &'a [Symbol<'a>],
        from: usize,
        outer: &'a Typedefs,
    ) -> Parser<'a>
        requires { from ≤ length symbols.now }
        ensures { result ≡ record { alloc = alloc; symbols = map shown symbols.now; passed = from; ends = []; inner = []; outer = outer.now } }
    {
        Parser {
            alloc,
            symbols,
            passed: from,
            ends: Vec::new(alloc),
            outer,
            inner: Typedefs::new(alloc),
        }
    }

    /// The place of the next symbol.
    pub fn passed(&self) -> usize
        ensures place { result ≡ self.now.passed }
        ensures within { result ≤ length self.now.symbols }
    {
        self.passed
    }

    /// The bytes that the nodes begin at that have ended, the last one last.
    pub fn into_ends(self) -> Vec<u32>
        ensures { reverse result.items ≡ self.entry.ends }
    {
        self.ends
    }

    /// The symbols that are left.
    pub fn rest(&self) -> &'a [Symbol<'a>]
        ensures { map shown result.now ≡ (rest_of self.now).0 }
    {
        self.symbols.split_at(self.passed).1
    }

    /// The byte that the next symbol begins at, 0 at the end of the text.
    pub fn start(&self) -> u32
        ensures { result ≡ start_of (rest_of self.now).0 }
    {
        match self.rest().split_first() {
            None => 0,
            Some((Symbol::Name(_, at), _))
            | Some((Symbol::Constant(_, at), _))
            | Some((Symbol::Literal(_, at), _))
            | Some((Symbol::Sign(_, at), _)) => *at,
        }
    }

    /// The next symbol, if it is a terminal.
    pub fn terminal(&self) -> Terminal
        ensures { result ≡ ahead.terminal_at (rest_of self.now).0 }
    {
        match self.rest().split_first() {
            Some((Symbol::Sign(terminal, _), _)) => *terminal,
            _ => Terminal::Other,
        }
    }

    /// Goes behind the next symbol.
    pub fn advance(&mut self)
        ensures rest { rest_of self.new ≡ front.behind (rest_of self.old) }
        ensures on { GoesOn self.old self.new }
    {
        if self.passed < self.symbols.len() {
            self.passed += 1;
        }
    }

    /// Goes behind this terminal, which has to be the next symbol.
    pub fn expect(&mut self, terminal: Terminal) -> Result<(), Stop>
        ensures { Passes self.old self.new result (front.expect terminal (rest_of self.old)) }
    {
        if self.sees(terminal) {
            self.advance();
            Ok(())
        } else {
            Err(Stop::NotOfForm)
        }
    }

    /// Ends a node that begins at this byte.
    pub fn end(&mut self, start: u32) -> Result<(), AllocError>
        ensures { IfOk result (λ _. (rest_of self.new ≡ front.ended start (rest_of self.old)) × GoesOn self.old self.new) }
    {
        self.ends.push(start)?;
        Ok(())
    }

    // The parts of a comma expression, which is then no node, or the expression alone.
    pub(crate) fn reopened(&mut self, first: Box<Expr>) -> Result<Vec<Expr>, AllocError>
        ensures { IfOk result (λ parts. (expressions_in parts.items ≡ front_of (boxed first)) × (rest_of self.new ≡ front.reopened (boxed first) (rest_of self.old)) × GoesOn self.old self.new) }
    {
        if let Expr::Comma(_) = &*first {
            let _ended = self.ends.pop();
        }
        nodes::parts_of(self.alloc, first)
    }
}
