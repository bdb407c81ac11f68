/// What an expression is as a constant, C11 6.6.
#[derive(Clone, Copy, PartialEq, Eq, Debug)]
pub enum Constancy {
    /// Of no constant form.
    Varying,
    /// Of constant form, with a fault where it is evaluated.
    Faulty,
    /// An integer constant expression with this value.
    Number(i128),
    /// `(void *)0`, a null pointer constant.
    NullConstant,
    /// Any other constant null pointer.
    NullAddress,
    /// So many bytes from the start of an object that is there from the start of the run.
    Address { object: u32, offset: u64 },
}
