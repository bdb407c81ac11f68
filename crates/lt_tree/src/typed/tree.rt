use crate::expression::LogicalOp;
use crate::typed::types::TypeId;
use lt_model::{Name, Op, Scalar};

/// What becomes of a value of one type as a value of another, C11 6.3.
#[derive(Clone, Copy, PartialEq, Eq, Debug)]
pub enum Conversion {
    /// Between integer types.
    ToInteger,
    /// A pointer to `_Bool`: whether it isn't null.
    ToTruth,
    /// A null pointer constant to a pointer.
    ToNull,
    /// A pointer to another pointer type; the address stays.
    ToPointer,
    /// The value is dropped.
    ToVoid,
}

/// Which operand is the pointer.
#[derive(Clone, Copy, PartialEq, Eq, Debug)]
pub enum Side {
    OnLeft,
    OnRight,
}

/// Whether `++` and `--` give the value before or after.
#[derive(Clone, Copy, PartialEq, Eq, Debug)]
pub enum When {
    Before,
    After,
}

/// An expression with its type first, which has no qualifiers.
#[derive(Drop)]
#[cycle(typed_tree)]
pub enum Value {
    Constant(TypeId, i128),
    /// A scalar, read.
    Load(TypeId, Box<Place>),
    /// A struct, whose cells are read where they are copied.
    Whole(TypeId, Box<Place>),
    /// The address of an array's first element.
    Decay(TypeId, Box<Place>),
    /// `&`; nothing is read.
    AddressOf(TypeId, Box<Place>),
    Convert(TypeId, Conversion, Box<Value>),
    Minus(TypeId, Box<Value>),
    Complement(TypeId, Box<Value>),
    /// Of a scalar, as the tests of `&&`, `||`, `?:` and statements.
    Not(TypeId, Box<Value>),
    /// An operator on two integers in the type `operands`, to which they are converted; the right operand of a shift has a
    /// type of its own.
    Arithmetic {
        ty: TypeId,
        op: Op,
        operands: Scalar,
        left: Box<Value>,
        right: Box<Value>,
    },
    /// A pointer moved by a number of elements of this size.
    Move {
        ty: TypeId,
        op: Op,
        size: u64,
        pointer: Side,
        left: Box<Value>,
        right: Box<Value>,
    },
    /// The number of elements of this size between two pointers.
    Distance {
        ty: TypeId,
        size: u64,
        left: Box<Value>,
        right: Box<Value>,
    },
    /// Two pointers compared.
    Compare(TypeId, Op, Box<Value>, Box<Value>),
    Logical(TypeId, LogicalOp, Box<Value>, Box<Value>),
    Conditional(TypeId, Box<Value>, Box<Value>, Box<Value>),
    /// The value, converted to the type of the place, is stored; a struct is copied.
    Assign(TypeId, Box<Place>, Box<Value>),
    /// `op=` on integers: the place's value is converted to the type `operands`, and the result back.
    Update {
        ty: TypeId,
        op: Op,
        operands: Scalar,
        place: Box<Place>,
        value: Box<Value>,
    },
    /// `+=` and `-=` on a pointer to elements of this size.
    UpdatePointer {
        ty: TypeId,
        op: Op,
        size: u64,
        place: Box<Place>,
        value: Box<Value>,
    },
    /// `++` and `--` on an integer, in its promoted type `operands`.
    Step {
        ty: TypeId,
        gives: When,
        op: Op,
        operands: Scalar,
        place: Box<Place>,
    },
    /// `++` and `--` on a pointer to elements of this size.
    StepPointer {
        ty: TypeId,
        gives: When,
        op: Op,
        size: u64,
        place: Box<Place>,
    },
    /// Of the function of this name, whether it has a body or not.
    Call(TypeId, Name, Vec<Value>),
    Comma(TypeId, Vec<Value>),
    Marked(TypeId, Vec<Mark>, Box<Value>),
    /// `pc_decide`, with the ids of its two labels.
    Decide {
        ty: TypeId,
        operand: Box<Value>,
        when_true: u32,
        when_false: u32,
    },
    /// `pc_after`, with the id of its label.
    After(TypeId, Box<Value>, u32),
}

/// Where a value lies, with its type first, which has its qualifiers. Nothing is read but the pointers that lead there.
#[derive(Drop)]
#[cycle(typed_tree)]
pub enum Place {
    /// An object, by its number.
    Object(TypeId, u32),
    /// `*p`.
    Pointed(TypeId, Box<Value>),
    /// `a[i]` of elements of this size.
    Element {
        ty: TypeId,
        size: u64,
        pointer: Side,
        left: Box<Value>,
        right: Box<Value>,
    },
    /// `s.m`, where the offset is that of `m`; `p->m` is `(*p).m`.
    Part {
        ty: TypeId,
        offset: u64,
        whole: Box<Place>,
    },
    /// Where a struct lies that is the value of an expression; it is no lvalue.
    Held(TypeId, Box<Value>),
}

/// A label of `pc_label` or `pc_label_bind`.
#[derive(Drop)]
#[cycle(typed_tree)]
pub struct Mark {
    pub predicate: Box<Value>,
    pub id: u32,
    pub bound: Vec<Binding>,
}

/// A name that a mark binds, and the expression whose value it gets.
#[derive(Drop)]
#[cycle(typed_tree)]
pub struct Binding {
    pub name: Name,
    pub value: Box<Value>,
}
