use crate::declarator::Declarator;
use crate::expression::Expr;
use lt_model::{Name, Quals};

/// The words of C11 6.7.1.
#[derive(Clone, Copy, PartialEq, Eq, Debug)]
pub enum Storage {
    Typedef,
    Extern,
    Static,
    Auto,
    Register,
}

/// The types that words name, C11 6.7.2.
#[derive(Clone, Copy, PartialEq, Eq, Debug)]
pub enum BasicType {
    Void,
    Char,
    SignedChar,
    UnsignedChar,
    Short,
    UnsignedShort,
    Int,
    Unsigned,
    Long,
    UnsignedLong,
    LongLong,
    UnsignedLongLong,
    Bool,
    Float,
    Double,
    LongDouble,
}

/// One word of a type.
#[derive(Clone, Copy, PartialEq, Eq, Debug)]
pub enum TypeWord {
    Void,
    Char,
    Short,
    Int,
    Long,
    Float,
    Double,
    Signed,
    Unsigned,
    Bool,
}

/// What names a type among specifiers.
#[derive(Drop)]
#[cycle(tree)]
pub enum TypeSpecifier {
    /// All type words together, where they name a type and nothing else does.
    Basic(BasicType),
    /// One type word of those that name no type together.
    Word(TypeWord),
    /// A struct by its tag alone.
    StructTag(Name),
    /// A struct with its members, and with its tag if it has one.
    Struct(Option<Name>, Vec<Member>),
    /// An enum by its tag alone.
    EnumTag(Name),
    /// An enum with its enumerators, and with its tag if it has one.
    Enum(Option<Name>, Vec<Enumerator>),
    /// A typedef name.
    Named(Name),
}

/// The specifiers of a declaration, C11 6.7.
#[derive(Drop)]
#[cycle(tree)]
pub struct Specifiers {
    /// In the order of the source.
    pub storage: Vec<Storage>,
    pub inline: bool,
    pub noreturn: bool,
    pub quals: Quals,
    /// In the order of the source.
    pub types: Vec<TypeSpecifier>,
}

/// A declaration among the members of a struct, C11 6.7.2.1.
#[derive(Drop)]
#[cycle(tree)]
pub struct Member {
    pub specifiers: Specifiers,
    pub declarators: Vec<MemberDeclarator>,
}

/// A member, with its width if it is a bit-field.
#[derive(Drop)]
#[cycle(tree)]
pub struct MemberDeclarator {
    pub declarator: Declarator,
    pub width: Option<Box<Expr>>,
}

/// An enumeration constant, C11 6.7.2.2.
#[derive(Drop)]
#[cycle(tree)]
pub struct Enumerator {
    pub name: Name,
    pub value: Option<Box<Expr>>,
}

/// The name of a type, C11 6.7.7.
#[derive(Drop)]
#[cycle(tree)]
pub struct TypeName {
    pub specifiers: Specifiers,
    pub declarator: Declarator,
}
