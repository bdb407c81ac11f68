//! The tests that the lines of a suite so far say.

ghost use Rattle.std.specs.Prelude.{◌≡◌, List, [], IfOk, OnOk, map};
ghost use Rattle.lt_entry.specs.Naming.{Scope};
ghost use Rattle.lt_entry.specs.Suites.{test_line};
ghost use Rattle.lt_entry.specs.LineViews.{suite_line_view};
ghost use Rattle.lt_input_names.specs.Views.{AreNames, scope_of};
ghost use Rattle.lt_input_suites.specs.Drafts.{HasEnded, IsDraft, Reads, Takes, tests_of};

use crate::begun::Begun;
use lt_entry::{Suite, SuiteLine, Test, suite_line_of};
use lt_input_names::Names;
use lt_model::Sequence;
use std::alloc::{AllocError, Global};
use std::collections::HashSet;

/// The tests so far.
#[derive(Drop)]
pub struct Draft<'a> {
    /// Those that are over.
    tests: Vec<Test>,
    /// The names of all of them.
    names: HashSet<&'a [u8]>,
    /// The last one.
    begun: Option<Begun<'a>>,
}

impl<'a> Draft<'a> {
    /// No tests.
    pub fn new(alloc: Global) -> Draft<'a>
        ensures { (scope : Scope) → IsDraft scope [] result }
    {
        Draft {
            tests: Vec::new(alloc),
            names: HashSet::new(alloc),
            begun: None,
        }
    }

    /// What the line of these words says, if they are a line that fits behind those so far.
    pub fn read(
        &mut self,
        alloc: Global,
        names: &Names<'_>,
        words: &[&'a [u8]],
    ) -> Result<bool, AllocError>
        requires { AreNames names.now }
        ensures { IfOk result (Reads (scope_of names.now) (map (λ word. word.now) words.now) self.old self.new) }
    {
        match suite_line_of(alloc, words)? {
            None => Ok(false),
            Some(line) => self.put(alloc, names, &line),
        }
    }

    /// The suite of these tests.
    pub fn over(mut self, alloc: Global) -> Result<Suite, AllocError>
        ensures { IfOk result (λ suite. suite.tests ≡ tests_of self.entry) }
    {
        self.end(alloc)?;
        Ok(Suite {
            tests: Sequence::new(self.tests),
        })
    }

    // What a line says, if it fits behind those so far.
    fn put(
        &mut self,
        alloc: Global,
        names: &Names<'_>,
        line: &SuiteLine<'a>,
    ) -> Result<bool, AllocError>
        requires { AreNames names.now }
        ensures { IfOk result (Takes (scope_of names.now) (suite_line_view line.now) self.old self.new) }
    {
        if let SuiteLine::Test(name) = line {
            return self.begin(alloc, name);
        }
        match &mut self.begun {
            None => Ok(false),
            Some(test) => test.put(alloc, names, line),
        }
    }

    // Another test, if none before has its name.
    fn begin(&mut self, alloc: Global, name: &'a [u8]) -> Result<bool, AllocError>
        ensures { IfOk result (λ taken. (scope : Scope) → Takes scope (test_line name.now) self.old self.new taken) }
    {
        if !self.names.insert(name)? {
            return Ok(false);
        }
        self.end(alloc)?;
        self.begun = Some(Begun::new(alloc, name));
        Ok(true)
    }

    // The test that has begun is over.
    fn end(&mut self, alloc: Global) -> Result<(), AllocError>
        ensures { OnOk result (HasEnded self.old self.new) }
    {
        match self.begun.take() {
            None => Ok(()),
            Some(test) => Ok(self.tests.push(test.over(alloc)?)?),
        }
    }
}
