//! Tests of systems of rows: what is decided of them, and that lines refute them.
#![tactic(auto)]

#[cfg(test)]
mod differences;
#[cfg(test)]
mod systems;
