/// What ends an elimination before it is complete; the number is that of the variable that is being eliminated.
#[derive(Clone, Copy)]
pub(crate) enum Event {
    /// A number passes the limit.
    Coeff(u32),
    /// A row is a negative constant.
    Refuted,
    /// Too many rows are kept.
    Rows(u32),
}
