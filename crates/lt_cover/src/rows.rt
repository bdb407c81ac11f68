// The table of a coverage file of either version, and its rows.
ghost use Rattle.std.specs.Prelude.{◌≡◌};
ghost use Rattle.lt_cover.specs.Coverage.Table.{Table, IsOrdered};

use lt_model::{End, Name, Sequence};
use std::marker::Model;

/// How a test is over: by the end of its run, or not run, since it is outside of the entry's specification.
#[derive(Drop)]
pub enum TestEnd {
    Ran(End),
    Outside,
}

/// A test and how it is over.
#[derive(Drop)]
pub struct TestRow {
    pub name: Name,
    pub end: TestEnd,
}

/// A label with the names of the tests that cover it, in byte order.
#[derive(Drop)]
pub struct LabelRow {
    pub id: u32,
    pub tag: Name,
    pub by: Sequence<Name>,
}

/// What is known of a hyperlabel.
#[derive(Clone, Copy)]
pub enum HyperState {
    Uncovered,
    /// A part of it has too many environments to tell.
    TooWide,
    Covered,
}

/// A hyperlabel and its state.
#[derive(Drop)]
pub struct HyperRow {
    pub id: u32,
    pub tag: Name,
    pub state: HyperState,
}

/// A row behind the first.
#[derive(Drop)]
pub enum Row {
    Test(TestRow),
    Label(LabelRow),
    Hyper(HyperRow),
}

/// The version of a coverage file, which its first row tells.
#[derive(Clone, Copy)]
pub enum Version {
    /// A covered label has one name, the least of the tests that cover it.
    One,
    /// It has the names of all of them.
    Two,
}

/// What a suite covers. `specs/Coverage/Table.antt` says what always holds of it: the tests stand in byte order of their names, the
/// labels and hyperlabels in the order of their ids, and labels are covered by tests of the table. That names, tags and ids have
/// their forms holds of what `read_cover` gives.
#[derive(Drop)]
pub struct Coverage {
    tests: Vec<TestRow>,
    labels: Vec<LabelRow>,
    hypers: Vec<HyperRow>,
}

impl Model for Coverage {
    ghost use Rattle.lt_cover.specs.Coverage.Table.{Table, IsOrdered};

    ghost Value = { Table };

    ghost view = { λ c. record { tests = c.tests.items; labels = c.labels.items; hypers = c.hypers.items } };

    ghost invariant = { λ c. IsOrdered (record { tests = c.tests.items; labels = c.labels.items; hypers = c.hypers.items }) };
}

impl Coverage {
    /// The table of these rows. It takes no memory.
    pub fn new(tests: Vec<TestRow>, labels: Vec<LabelRow>, hypers: Vec<HyperRow>) -> Coverage
        requires { IsOrdered (record { tests = tests.items; labels = labels.items; hypers = hypers.items }) }
        ensures { result ≡ (record { tests = tests.items; labels = labels.items; hypers = hypers.items }) }
    {
        Coverage {
            tests,
            labels,
            hypers,
        }
    }

    /// How each test is over, in byte order of the names.
    pub fn tests(&self) -> &[TestRow]
        ensures rows { result.now ≡ self.now.tests }
        ensures ordered { IsOrdered self.now }
    {
        self.tests.as_slice()
    }

    /// The labels, in the order of their ids.
    pub fn labels(&self) -> &[LabelRow]
        ensures rows { result.now ≡ self.now.labels }
        ensures ordered { IsOrdered self.now }
    {
        self.labels.as_slice()
    }

    /// The hyperlabels, in the order of their ids.
    pub fn hypers(&self) -> &[HyperRow]
        ensures rows { result.now ≡ self.now.hypers }
        ensures ordered { IsOrdered self.now }
    {
        self.hypers.as_slice()
    }
}
