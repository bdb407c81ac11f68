// What specifiers and declarators make.

use lt_env::{Faults, NameFrame};
use lt_model::Name;
use lt_tree::Storage;
use lt_tree::typed::TypeId;

/// Where type specifiers stand.
#[derive(Clone, Copy, PartialEq, Eq, Debug)]
pub enum Setting {
    /// In a declaration of nothing else.
    Alone,
    /// As the whole operand of `sizeof`.
    InSizeof,
    Elsewhere,
}

/// What one type specifier names, if it names a type, and the rules that it breaks.
#[derive(Drop)]
pub struct Naming {
    pub ty: Option<TypeId>,
    pub faults: Faults,
}

/// What the specifiers of a declaration say, C11 6.7.
#[derive(Drop)]
pub struct Specified {
    /// With its qualifiers.
    pub ty: TypeId,
    pub storage: Option<Storage>,
    pub faults: Faults,
}

/// What stands in the parentheses of a function's declarator, C11 6.7.6.3.
#[derive(Drop)]
pub struct Parameters {
    /// Adjusted, without qualifiers of their own.
    pub types: Vec<TypeId>,
    pub dots: bool,
    /// The numbers of their objects.
    pub objects: Vec<u32>,
    pub are_named: bool,
    /// The names that they declare.
    pub frame: NameFrame,
    /// What parameters without a declarator break.
    pub faults: Faults,
}

/// The type that parts of a declarator make, with the rules that they break, and the parameters of the part at the name.
#[derive(Drop)]
pub struct Built {
    pub ty: TypeId,
    pub faults: Faults,
    pub parameters: Option<Box<Parameters>>,
}

/// What a declarator declares.
#[derive(Drop)]
pub struct Declares {
    pub node: u32,
    pub name: Option<Name>,
    pub ty: TypeId,
    pub parameters: Option<Box<Parameters>>,
    /// The rules that are still to be judged, where it is no node.
    pub faults: Faults,
}

/// What is judged of what a declarator declares.
#[derive(Clone, Copy, PartialEq, Eq, Debug)]
pub enum Judging {
    TypeName,
    /// Of a definition, or of another declaration.
    Parameter {
        is_definition: bool,
    },
    /// Whether its name is declared in the struct, and whether it has a width.
    Member {
        is_declared: bool,
        has_width: bool,
    },
    Declaration {
        class: Option<Storage>,
        has_initialiser: bool,
    },
    /// Of a function with a body.
    Definition {
        class: Option<Storage>,
    },
}

/// A struct whose members are being declared, and the rules that its tag breaks.
#[derive(Drop)]
pub struct OpenStruct {
    pub number: u32,
    pub faults: Faults,
}
