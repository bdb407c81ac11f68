//! Hyperlabels, after Marcozzi, Delahaye, Bardin, Kosmatov and Prevosto (ICST 2017): what a test suite as a whole has to do with labels.
#![tactic(auto)]

mod term;

pub use term::{Atom, Cond, Hyper, Member, Term};
