use crate::name::Name;
use crate::scalar::Scalar;
use crate::sequence::Sequence;

/// A type of C11 6.2.5. A struct is named by its place in the list of structs.
#[cycle(ctype)]
#[derive(Debug, Drop)]
pub enum CType {
    Void,
    Num(Scalar),
    Pointer(Box<CType>),
    /// The element's type and the number of elements.
    Array(Box<CType>, u32),
    Struct(u32),
    Function(Box<Signature>),
    /// A floating type, which only prototypes and typedefs name.
    Floating,
    /// A type with qualifiers.
    Quoted(Quals, Box<CType>),
}

/// Type qualifiers, C11 6.7.3.
#[derive(Clone, Copy, PartialEq, Eq, Debug)]
pub struct Quals {
    pub constant: bool,
    pub volatile: bool,
}

/// What a function takes and gives. Dots stand for further arguments.
#[cycle(ctype)]
#[derive(Debug, Drop)]
pub struct Signature {
    pub result: CType,
    pub params: Vec<CType>,
    pub dots: bool,
}

/// A member of a struct.
#[derive(Debug, Drop)]
pub struct MemberType {
    pub name: Name,
    pub ty: CType,
}

/// A struct; one without members is incomplete.
#[derive(Debug, Drop)]
pub struct StructType {
    pub members: Option<Sequence<MemberType>>,
}

/// The structs of a program. Each is named by its place in the list.
#[derive(Debug, Drop)]
pub struct Structs {
    pub list: Sequence<StructType>,
}
