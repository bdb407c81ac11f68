// What typed programs do, as definitions: expressions, statements, calls and runs, in `specs/` in this order; and where nothing can clash.
#![tactic(auto)]

mod laws;

pub use laws::footprints_are_needed_for_clashes_alone;
