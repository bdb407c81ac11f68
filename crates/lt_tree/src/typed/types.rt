use lt_model::{Quals, Scalar};

/// A type by its place in the table of a program's types, in which each type stands once.
#[derive(Clone, Copy, PartialEq, Eq, Hash, Debug)]
pub struct TypeId {
    pub place: u32,
}

/// A row of the table: a type of C11 6.2.5, made of types that stand before it. Its hash leaves out integer types and
/// qualifiers, of which there are few.
#[derive(PartialEq, Eq, Debug, Drop)]
#[derive_where(Hash)]
pub enum TypeRow {
    Void,
    Num(#[derive_where(skip(Hash))] Scalar),
    Pointer(TypeId),
    /// The elements' type, and how many there are.
    Array(TypeId, u32),
    /// By its place in the list of structs.
    Struct(u32),
    Function(FunctionType),
    /// A floating type, which only prototypes and typedefs name.
    Floating,
    /// A type with qualifiers.
    Qualified(#[derive_where(skip(Hash))] Quals, TypeId),
}

/// What a function takes and gives. Dots stand for further arguments.
#[derive(PartialEq, Eq, Hash, Debug, Drop)]
pub struct FunctionType {
    pub result: TypeId,
    pub parameters: Vec<TypeId>,
    pub dots: bool,
}
