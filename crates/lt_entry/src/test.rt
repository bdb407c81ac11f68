use lt_model::{CellSet, Name, Sequence, StubSet};

/// A test: its name, the cells that it sets, and the values that it has for functions without a body, each in the order of the text.
#[derive(Debug, Drop)]
pub struct Test {
    pub name: Name,
    pub cells: Sequence<CellSet>,
    pub stubs: Sequence<StubSet>,
}

/// The tests of a file, in their order.
#[derive(Debug, Drop)]
pub struct Suite {
    pub tests: Sequence<Test>,
}
