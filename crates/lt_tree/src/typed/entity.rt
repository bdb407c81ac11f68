use crate::typed::constancy::Constancy;
use crate::typed::statement::{Item, Start};
use crate::typed::types::TypeId;
use lt_model::Name;

/// A member of a struct.
#[derive(Drop)]
pub struct Member {
    pub name: Name,
    pub ty: TypeId,
}

/// A struct; one without members is incomplete.
#[derive(Drop)]
pub struct StructType {
    pub members: Option<Vec<Member>>,
}

/// How long an object lives, and who knows its name, C11 6.2.4.
#[derive(Clone, Copy, PartialEq, Eq, Debug)]
pub enum Life {
    /// Of file scope, or declared `extern`: one object for all its declarations.
    Linked,
    /// `static` in a block.
    LocalStatic,
    /// A string literal.
    Literal,
    Automatic,
    /// Of a function with a body.
    Parameter,
    /// Never made: a parameter of another declaration, or a string literal in `sizeof`.
    Unmade,
}

/// An object, with its declared type. One that is there from the start has what it holds then; where that is left out it is
/// zero.
#[derive(Drop)]
pub struct Object {
    /// Its first declarator, or the string literal.
    pub node: u32,
    pub name: Name,
    pub ty: TypeId,
    pub life: Life,
    pub start: Option<Start>,
}

/// A function that is declared, whether it has a body or not.
#[derive(Drop)]
pub struct Declared {
    pub name: Name,
    pub ty: TypeId,
}

/// A function with its body. Its parameters are objects, by their numbers.
#[derive(Drop)]
pub struct Function {
    /// The definition.
    pub node: u32,
    pub name: Name,
    pub ty: TypeId,
    pub parameters: Vec<u32>,
    pub body: Vec<Item>,
}

/// What a name stands for.
#[derive(Clone, Copy, PartialEq, Eq, Debug)]
pub enum Entity {
    Object { number: u32, is_register: bool },
    Function,
    Typedef(TypeId),
    /// An enumerator, by its value.
    Enumerator(i128),
}

/// A name in scope.
#[derive(Drop)]
pub struct Bound {
    pub name: Name,
    pub entity: Entity,
}

/// What a tag stands for.
#[derive(Clone, Copy, PartialEq, Eq, Debug)]
pub enum Tagged {
    /// A struct, by its place in the list of structs.
    Struct(u32),
    /// Whether it is complete: it is so behind its list.
    Enum(bool),
}

/// A tag in scope.
#[derive(Drop)]
pub struct Tag {
    pub name: Name,
    pub tagged: Tagged,
}

/// What one block, file or list of parameters declares, the latest first.
#[derive(Drop)]
pub struct Frame {
    pub names: Vec<Bound>,
    pub tags: Vec<Tag>,
}

/// A label of the unit: its id, its tag and the names that it binds.
#[derive(Drop)]
pub struct LabelInfo {
    pub id: u32,
    pub tag: Name,
    pub bound: Vec<Name>,
}

/// What is known of an expression: its node, its type, with qualifiers where it is a place, what its erasure is as a
/// constant, and, of a name, its object.
#[derive(Clone, Copy, PartialEq, Eq, Debug)]
pub struct Fact {
    pub node: u32,
    pub ty: TypeId,
    pub is_place: bool,
    pub constancy: Constancy,
    pub object: Option<u32>,
}
