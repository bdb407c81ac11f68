//! The test that has begun.

ghost use Rattle.std.specs.Prelude.{◌≡◌, [], IfOk};
ghost use Rattle.lt_entry.specs.Naming.{Scope};
ghost use Rattle.lt_entry.specs.LineViews.{set_view, point_view, values_view, suite_line_view};
ghost use Rattle.lt_input_names.specs.Views.{AreNames, scope_of};
ghost use Rattle.lt_input_suites.specs.Drafts.{HasSet, Puts, test_of};

use crate::numbers::{are_numbers, values_of};
use crate::parts::{part_of, target_of};
use lt_entry::{PointLine, SetLine, SuiteLine, Test, ValuesLine};
use lt_input_names::Names;
use lt_input_wants::{MarkedPlaces, is_number, value_of};
use lt_model::{CellSet, Name, Sequence, StubSet};
use std::alloc::{AllocError, Global};
use std::collections::HashSet;

/// A test, as far as the lines so far say it.
#[derive(Drop)]
pub struct Begun<'a> {
    name: &'a [u8],
    cells: Vec<CellSet>,
    stubs: Vec<StubSet>,
    /// The places that it sets.
    places: MarkedPlaces<'a>,
    /// The functions for which it has values.
    functions: HashSet<&'a [u8]>,
}

impl<'a> Begun<'a> {
    /// Nothing is said yet of the test of this name.
    pub fn new(alloc: Global, name: &'a [u8]) -> Begun<'a>
        ensures said { test_of result ≡ record { name = name.now; cells = []; stubs = [] } }
        ensures set { (scope : Scope) → HasSet scope [] result }
    {
        Begun {
            name,
            cells: Vec::new(alloc),
            stubs: Vec::new(alloc),
            places: MarkedPlaces::new(alloc),
            functions: HashSet::new(alloc),
        }
    }

    /// The test.
    pub fn over(self, alloc: Global) -> Result<Test, AllocError>
        ensures { IfOk result (λ test. test ≡ test_of self.entry) }
    {
        Ok(Test {
            name: Name::new(alloc, self.name)?,
            cells: Sequence::new(self.cells),
            stubs: Sequence::new(self.stubs),
        })
    }

    /// What another line says, if it fits in the test. A line that begins a test says nothing of this one.
    pub fn put(
        &mut self,
        alloc: Global,
        names: &Names<'_>,
        line: &SuiteLine<'a>,
    ) -> Result<bool, AllocError>
        requires { AreNames names.now }
        ensures { IfOk result (Puts (scope_of names.now) (suite_line_view line.now) self.old self.new) }
    {
        match line {
            SuiteLine::Test(_) => Ok(true),
            SuiteLine::Set(line) => self.put_set(alloc, names, line),
            SuiteLine::Point(line) => self.put_point(alloc, names, line),
            SuiteLine::Values(line) => self.put_values(alloc, names, line),
        }
    }

    fn put_set(
        &mut self,
        alloc: Global,
        names: &Names<'_>,
        line: &SetLine<'a>,
    ) -> Result<bool, AllocError>
        requires { AreNames names.now }
        ensures { IfOk result (Puts (scope_of names.now) (set_view line.now) self.old self.new) }
    {
        let Some(part) = part_of(alloc, names, &line.place)? else {
            return Ok(false);
        };
        if !is_number(names.model(), line.value, names.scalar(part.ty)) {
            return Ok(false);
        }
        if !self.places.mark(line.place.name, part.place.offset)? {
            return Ok(false);
        }
        self.cells
            .push(CellSet::Number(part.place, value_of(line.value)))?;
        Ok(true)
    }

    fn put_point(
        &mut self,
        alloc: Global,
        names: &Names<'_>,
        line: &PointLine<'a>,
    ) -> Result<bool, AllocError>
        requires { AreNames names.now }
        ensures { IfOk result (Puts (scope_of names.now) (point_view line.now) self.old self.new) }
    {
        let Some(part) = part_of(alloc, names, &line.place)? else {
            return Ok(false);
        };
        let Some(target) = target_of(alloc, names, part.ty, &line.target)? else {
            return Ok(false);
        };
        if !self.places.mark(line.place.name, part.place.offset)? {
            return Ok(false);
        }
        self.cells.push(CellSet::Point(part.place, target))?;
        Ok(true)
    }

    fn put_values(
        &mut self,
        alloc: Global,
        names: &Names<'_>,
        line: &ValuesLine<'a>,
    ) -> Result<bool, AllocError>
        requires { AreNames names.now }
        ensures { IfOk result (Puts (scope_of names.now) (values_view line.now) self.old self.new) }
    {
        let scalar = names.stub(line.stub);
        if scalar.is_none() {
            return Ok(false);
        }
        if !are_numbers(names.model(), &line.values, scalar) {
            return Ok(false);
        }
        if !self.functions.insert(line.stub)? {
            return Ok(false);
        }
        self.stubs.push(StubSet {
            name: Name::new(alloc, line.stub)?,
            values: Sequence::new(values_of(alloc, &line.values)?),
        })?;
        Ok(true)
    }
}
