//! The levels of brackets that are open.

ghost use Rattle.std.specs.Prelude.{◌≡◌, ◌<◌, ◌≤◌, ◌+◌, ◌^◌, [], ◌∷◌, reverse, IfOk};
ghost use Rattle.lt_token.specs.Nest as spec;

use lt_token::Step;
use std::alloc::{AllocError, Global};

/// The counts of the open levels.
#[derive(Drop)]
pub struct Levels {
    /// The outermost level first.
    pub outer: Vec<u64>,
    /// The count of the innermost level.
    pub inner: u64,
    /// The sum of all counts, and the number of open brackets.
    pub weight: u64,
    ghost weighed: { weight ≡ spec.weight (inner ∷ reverse outer.items) },
}

impl Levels {
    ghost use Rattle.lt_nest.specs.Views.{levels_of};

    pub fn new(alloc: Global) -> Levels
        ensures levels { levels_of result ≡ 0 ∷ [] }
        ensures weight { result.weight ≡ 0 }
    {
        Levels {
            outer: Vec::new(alloc),
            inner: 0,
            weight: 0,
        }
    }

    fn open(&mut self) -> Result<(), AllocError>
        requires { self.old.weight + 1 < 2 ^ 64 }
        ensures levels { IfOk result (λ _. levels_of self.new ≡ 0 ∷ levels_of self.old) }
        ensures weight { IfOk result (λ _. self.new.weight ≡ self.old.weight + 1) }
    {
        self.outer.push(self.inner)?;
        self.inner = 0;
        self.weight += 1;
        Ok(())
    }

    fn count(&mut self)
        requires { self.old.weight + 1 < 2 ^ 64 }
        ensures levels { levels_of self.new ≡ spec.count (levels_of self.old) }
        ensures weight { self.new.weight ≡ self.old.weight + 1 }
    {
        self.inner += 1;
        self.weight += 1;
    }

    fn begin_anew(&mut self)
        ensures levels { levels_of self.new ≡ spec.begin_anew (levels_of self.old) }
        ensures weight { self.new.weight ≤ self.old.weight }
    {
        self.weight -= self.inner;
        self.inner = 0;
    }

    fn leave(&mut self)
        ensures levels { levels_of self.new ≡ spec.leave (levels_of self.old) }
        ensures weight { self.new.weight ≤ self.old.weight }
    {
        if let Some(count) = self.outer.pop() {
            self.weight -= self.inner + 1;
            self.inner = count;
        }
    }

    /// Does to the levels what a token does; `else_follows` says that the next one is `else`.
    pub fn turn(&mut self, step: Step, else_follows: bool) -> Result<(), AllocError>
        requires { self.old.weight + 1 < 2 ^ 64 }
        ensures levels { IfOk result (λ _. levels_of self.new ≡ spec.levels_after step else_follows (levels_of self.old)) }
        ensures weight { IfOk result (λ _. self.new.weight ≤ self.old.weight + 1) }
    {
        match step {
            Step::Opens => self.open()?,
            Step::Returns => {
                self.leave();
                self.count();
            }
            Step::EndsBlock => {
                self.leave();
                if !else_follows {
                    self.begin_anew();
                }
            }
            Step::EndsStatement => {
                if !else_follows {
                    self.begin_anew();
                }
            }
            Step::Separates => self.begin_anew(),
            Step::Counts => self.count(),
            Step::Passes => {}
        }
        Ok(())
    }
}
