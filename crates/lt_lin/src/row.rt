use crate::terms::Terms;
use std::vec::Vec;

/// The sum of the terms and the constant is at least 0.
#[derive(Debug, Drop)]
pub struct Row {
    pub terms: Terms,
    pub constant: i128,
}

/// Rows that hold together; they are numbered from 0.
#[derive(Debug, Drop)]
pub struct System {
    pub rows: Vec<Row>,
}
