//! Reads suites of tests, on the specification of an entry of a typed program; `lt_entry` says which suite a text says, and
//! `specs/Drafts.antt` what is kept of the lines so far.
#![tactic(auto)]

mod begun;
mod draft;
mod laws;
mod numbers;
mod parts;
mod reading;
mod stops;

pub use laws::tests_of_a_suite_differ;
pub use reading::read_suite;
pub use stops::NoSuite;
