use lt_lin::Row;

/// A row with its number among the rows that are known: those of the system, then those that lines give.
#[derive(Drop)]
pub(crate) struct Numbered {
    pub(crate) row: Row,
    pub(crate) number: u32,
}
