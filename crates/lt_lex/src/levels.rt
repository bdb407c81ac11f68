//! How deep tokens nest.

ghost use Rattle.std.specs.Prelude.{◌≡◌, ◌<◌, ◌≤◌, ◌+◌, ◌-◌, ◌^◌, ◌∷◌, map, length, IfOk, MatchResult, OnOk, vec_len};
ghost use Rattle.lt_token.specs.Nest as spec;
ghost use Rattle.lt_lex.specs.Views.{token_of};
ghost use Rattle.lt_token.specs.declared.kind.Kind.TheVariants as the_kind;
ghost use Rattle.lt_lex.specs.Levels.{levels_of, IsWeighed, AreNests, StopsNesting};

use crate::stop::LexStop;
use crate::token::Token;
use crate::words::{is_counted, is_opening};
use lt_token::{Kind, Step};
use std::alloc::{AllocError, Global};

/// A token nests too deeply above this.
const DEEPEST: u32 = 1000;

/// The counts of the open levels.
#[derive(Drop)]
struct Levels {
    /// The outermost level first.
    outer: Vec<u32>,
    /// The count of the innermost level.
    inner: u32,
    /// The sum of all counts, and the number of open brackets.
    weight: u32,
}

impl Levels {
    fn open(&mut self) -> Result<(), AllocError>
        requires weighed { IsWeighed self.old }
        requires room { self.old.weight ≤ spec.deepest }
        ensures levels { IfOk result (λ _. levels_of self.new ≡ 0 ∷ levels_of self.old) }
        ensures weighed { IfOk result (λ _. IsWeighed self.new) }
    {
        self.outer.push(self.inner)?;
        self.inner = 0;
        self.weight += 1;
        Ok(())
    }

    fn count(&mut self)
        requires weighed { IsWeighed self.old }
        requires room { self.old.weight ≤ spec.deepest }
        ensures levels { levels_of self.new ≡ spec.count (levels_of self.old) }
        ensures weighed { IsWeighed self.new }
    {
        self.inner += 1;
        self.weight += 1;
    }

    fn begin_anew(&mut self)
        requires { IsWeighed self.old }
        ensures levels { levels_of self.new ≡ spec.begin_anew (levels_of self.old) }
        ensures weighed { IsWeighed self.new }
        ensures lighter { self.new.weight ≤ self.old.weight }
    {
        self.weight -= self.inner;
        self.inner = 0;
    }

    fn leave(&mut self)
        requires { IsWeighed self.old }
        ensures levels { levels_of self.new ≡ spec.leave (levels_of self.old) }
        ensures weighed { IsWeighed self.new }
        ensures lighter { self.new.weight ≤ self.old.weight }
    {
        if let Some(count) = self.outer.pop() {
            self.weight -= self.inner + 1;
            self.inner = count;
        }
    }

    fn turn(&mut self, step: Step, else_follows: bool) -> Result<(), AllocError>
        requires weighed { IsWeighed self.old }
        requires room { self.old.weight ≤ spec.deepest }
        ensures levels { IfOk result (λ _. levels_of self.new ≡ spec.levels_after step else_follows (levels_of self.old)) }
        ensures weighed { IfOk result (λ _. IsWeighed self.new) }
    {
        match step {
            Step::Opens => self.open()?,
            Step::Returns => {
                self.leave();
                self.count();
            }
            Step::EndsBlock => {
                self.leave();
                if !else_follows {
                    self.begin_anew();
                }
            }
            Step::EndsStatement => {
                if !else_follows {
                    self.begin_anew();
                }
            }
            Step::Separates => self.begin_anew(),
            Step::Counts => self.count(),
            Step::Passes => {}
        }
        Ok(())
    }
}

fn step_of_mark(text: &[u8]) -> Step
    ensures { result ≡ spec.step_of the_kind.Punctuator text.now }
{
    if is_opening(text) {
        Step::Opens
    } else if text == b")".as_slice() || text == b"]".as_slice() {
        Step::Returns
    } else if text == b"}".as_slice() {
        Step::EndsBlock
    } else if text == b";".as_slice() {
        Step::EndsStatement
    } else if text == b",".as_slice() {
        Step::Separates
    } else if text == b"...".as_slice() {
        Step::Passes
    } else {
        Step::Counts
    }
}

/// What a token does to the levels of the nest.
pub fn step_of(kind: Kind, text: &[u8]) -> Step
    ensures { result ≡ spec.step_of kind text.now }
{
    match kind {
        Kind::Keyword => {
            if is_counted(text) {
                Step::Counts
            } else {
                Step::Passes
            }
        }
        Kind::Punctuator => step_of_mark(text),
        _ => Step::Passes,
    }
}

fn begins_with_else(tokens: &[Token]) -> bool
    ensures { result ≡ spec.begins_with_else (map token_of tokens.now) }
{
    match tokens.split_first() {
        None => false,
        Some((first, _)) => match first.kind {
            Kind::Keyword => first.text == b"else".as_slice(),
            _ => false,
        },
    }
}

/// The nest of each token, or the first that nests too deeply.
pub fn nests(alloc: Global, tokens: &[Token]) -> Result<Vec<u32>, LexStop>
    ensures { MatchResult result (λ depths. AreNests (map token_of tokens.now) depths.items) (StopsNesting (map token_of tokens.now)) }
{
    let mut depths = Vec::new(alloc);
    let mut levels = Levels {
        outer: Vec::new(alloc),
        inner: 0,
        weight: 0,
    };
    for (at, token) in tokens.iter().enumerate() {
        let else_follows = begins_with_else(tokens.split_at(at + 1).1);
        levels.turn(step_of(token.kind, token.text), else_follows)?;
        if levels.weight > DEEPEST {
            return Err(LexStop::TooNested(token.at));
        }
        depths.push(levels.weight)?;
    }
    Ok(depths)
}
