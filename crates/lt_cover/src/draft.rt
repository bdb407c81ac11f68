//! A table that is read row by row.

ghost use Rattle.std.specs.Prelude.{◌≡◌, ◌↔◌, [], IsTrue, IfOk, OnOk, All, Contains};
ghost use Rattle.std.specs.List.Sorted.{IsStrictlySortedBy};
ghost use Rattle.std.specs.Ordering.{nat_cmp};
ghost use Rattle.lt_cover.specs.Coverage.Table.{IsOrdered, NamesRise, names_of, label_ids, hyper_ids};
ghost use Rattle.lt_cover.specs.Coverage.Text.{MayHold};
ghost use Rattle.lt_cover.specs.Coverage.Rows.{IsBelowName, IsBelowId, MayFollow, TestMayFollow, LabelMayFollow, Takes, added};
ghost use Rattle.lt_cover.specs.Coverage.Draft.{table_of};

use crate::fields::row_of;
use crate::rows::{Coverage, HyperRow, LabelRow, Row, TestRow, Version};
use lt_model::{Name, Sequence};
use std::alloc::{AllocError, Global};
use std::cmp::Ordering;

/// The table of the rows so far, in a file of a version.
#[derive(Drop)]
pub struct Draft {
    version: Version,
    tests: Vec<TestRow>,
    labels: Vec<LabelRow>,
    hypers: Vec<HyperRow>,
}

// Whether a name is that of one of the tests.
fn is_test(tests: &[TestRow], name: &[u8]) -> bool
    requires { NamesRise (names_of tests.now) }
    ensures { IsTrue result ↔ Contains (names_of tests.now) name.now }
{
    tests
        .binary_search_by(|test| test.name.as_slice().cmp(name))
        .is_ok()
}

// Whether each name is that of one of the tests.
fn are_tests(tests: &[TestRow], names: &[Name]) -> bool
    requires { NamesRise (names_of tests.now) }
    ensures { IsTrue result ↔ All (λ name. Contains (names_of tests.now) name) names.now }
{
    for name in names {
        if !is_test(tests, name.as_slice()) {
            return false;
        }
    }
    true
}

// Whether a name is above those of the tests.
fn is_above_tests(tests: &[TestRow], name: &[u8]) -> bool
    requires { NamesRise (names_of tests.now) }
    ensures { IsTrue result ↔ All (IsBelowName name.now) (names_of tests.now) }
{
    match tests.last() {
        Some(last) => last.name.as_slice().cmp(name) == Ordering::Less,
        None => true,
    }
}

// Whether a label may have so many covering names.
fn may_hold(version: Version, label: &LabelRow) -> bool
    ensures { IsTrue result ↔ MayHold version label.now }
{
    match version {
        Version::One => label.by.as_slice().len() <= 1,
        Version::Two => true,
    }
}

// Whether an id is above those of the labels.
fn is_above_labels(labels: &[LabelRow], id: u32) -> bool
    requires { IsStrictlySortedBy nat_cmp (label_ids labels.now) }
    ensures { IsTrue result ↔ All (IsBelowId id) (label_ids labels.now) }
{
    match labels.last() {
        Some(last) => last.id < id,
        None => true,
    }
}

// Whether an id is above those of the hyperlabels.
fn is_above_hypers(hypers: &[HyperRow], id: u32) -> bool
    requires { IsStrictlySortedBy nat_cmp (hyper_ids hypers.now) }
    ensures { IsTrue result ↔ All (IsBelowId id) (hyper_ids hypers.now) }
{
    match hypers.last() {
        Some(last) => last.id < id,
        None => true,
    }
}

impl Draft {
    /// The table of no rows.
    pub fn new(alloc: Global, version: Version) -> Draft
        ensures version { result.version ≡ version }
        ensures table { table_of result ≡ (record { tests = []; labels = []; hypers = [] }) }
    {
        Draft {
            version,
            tests: Vec::new(alloc),
            labels: Vec::new(alloc),
            hypers: Vec::new(alloc),
        }
    }

    fn test_may_follow(&self, test: &TestRow) -> bool
        requires { IsOrdered (table_of self.now) }
        ensures { IsTrue result ↔ TestMayFollow (table_of self.now) test.now }
    {
        if !self.labels.as_slice().is_empty() {
            return false;
        }
        if !self.hypers.as_slice().is_empty() {
            return false;
        }
        is_above_tests(self.tests.as_slice(), test.name.as_slice())
    }

    fn label_may_follow(&self, label: &LabelRow) -> bool
        requires { IsOrdered (table_of self.now) }
        ensures { IsTrue result ↔ LabelMayFollow self.now.version (table_of self.now) label.now }
    {
        if !self.hypers.as_slice().is_empty() {
            return false;
        }
        if !is_above_labels(self.labels.as_slice(), label.id) {
            return false;
        }
        if !may_hold(self.version, label) {
            return false;
        }
        are_tests(self.tests.as_slice(), label.by.as_slice())
    }

    // Whether a row may come next.
    fn may_follow(&self, row: &Row) -> bool
        requires { IsOrdered (table_of self.now) }
        ensures { IsTrue result ↔ MayFollow self.now.version (table_of self.now) row.now }
    {
        match row {
            Row::Test(test) => self.test_may_follow(test),
            Row::Label(label) => self.label_may_follow(label),
            Row::Hyper(hyper) => is_above_hypers(self.hypers.as_slice(), hyper.id),
        }
    }

    fn push(&mut self, row: Row) -> Result<(), AllocError>
        ensures version { self.new.version ≡ self.old.version }
        ensures table { OnOk result (table_of self.new ≡ added (table_of self.old) row) }
    {
        match row {
            Row::Test(test) => self.tests.push(test)?,
            Row::Label(label) => self.labels.push(label)?,
            Row::Hyper(hyper) => self.hypers.push(hyper)?,
        }
        Ok(())
    }

    /// Takes the row with these fields, if there is one and it may come next; whether it is so.
    pub fn take(&mut self, alloc: Global, fields: &[Sequence<u8>]) -> Result<bool, AllocError>
        requires { IsOrdered (table_of self.old) }
        ensures version { self.new.version ≡ self.old.version }
        ensures row { IfOk result (λ taken. Takes self.old.version (table_of self.old) fields.now taken (table_of self.new)) }
    {
        let Some(row) = row_of(alloc, fields)? else {
            return Ok(false);
        };
        if !self.may_follow(&row) {
            return Ok(false);
        }
        self.push(row)?;
        Ok(true)
    }

    /// The table.
    pub fn into_coverage(self) -> Coverage
        requires { IsOrdered (table_of self) }
        ensures { result ≡ table_of self }
    {
        Coverage::new(self.tests, self.labels, self.hypers)
    }
}
