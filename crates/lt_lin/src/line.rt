use crate::terms::Terms;
use std::vec::Vec;

/// A step of a refutation.
#[derive(Debug, Drop)]
pub enum Line {
    /// Gives the sum of rows, each times its multiplier: pairs of a row's number and a multiplier.
    Combine(Vec<(u32, i128)>),
    /// Gives a row divided by a number that divides its factors, the constant rounded down.
    Divide(u32, i128),
    /// The sum of the terms is at most the bound, which the first lines refute, or more, which the second refute.
    Split(Terms, i128, Vec<Line>, Vec<Line>),
}
