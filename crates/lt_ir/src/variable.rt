/// An object as the code of a function names it.
#[derive(Clone, Copy)]
pub enum Variable {
    /// A parameter, by its place among them.
    Parameter(u32),
    /// A local object, by its number within the function.
    Local(u32),
    /// An object that is there from the start, by its place among those.
    Static(u32),
}
