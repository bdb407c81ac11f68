use lt_lin::Line;
use std::vec::Vec;

/// What a system is decided to be.
#[derive(Debug, Drop)]
pub enum Decision {
    /// Lines that refute the rows.
    Refuted(Vec<Line>),
    /// Numerators and positive denominators, in lowest terms, of values that make every row true, a variable's each.
    Point(Vec<i128>, Vec<i128>),
    /// More than 20,000 rows would be kept as this variable is eliminated.
    Rows(u32),
    /// A number passes 2^120 as this variable is eliminated or gets its value.
    Coeff(u32),
}
