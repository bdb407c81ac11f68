// Typed expressions made of their parts, each in a box, as those around them hold it.

ghost use Rattle.std.specs.Prelude.{◌≡◌, IfOk, List};
ghost use Rattle.lt_tree.specs.Typing.Types.{CType};
ghost use Rattle.lt_tree.specs.Typing.TypeRows.{type_in};
ghost use Rattle.lt_tree.specs.Typing.TypedTree as e;
ghost use Rattle.lt_tree.specs.Typing.ValueView.{conversion_of, side_of, when_of, value_of, place_of, values_in, marks_in};

use crate::expression::LogicalOp;
use crate::typed::tree::{Conversion, Mark, Place, Side, Value, When};
use crate::typed::types::TypeId;
use lt_model::{Name, Op, Scalar};
use std::alloc::{AllocError, Global};

/// A constant of an integer type.
pub fn constant(alloc: Global, ty: TypeId, value: i128) -> Result<Box<Value>, AllocError>
    ensures { IfOk result (λ all. (types : List CType) → value_of types all.value ≡ e.Constant (type_in types ty) value) }
{
    Ok(Box::new(alloc, Value::Constant(ty, value))?)
}

/// A scalar, read.
pub fn load(alloc: Global, ty: TypeId, place: Box<Place>) -> Result<Box<Value>, AllocError>
    ensures { IfOk result (λ all. (types : List CType) → value_of types all.value ≡ e.Load (type_in types ty) (place_of types place.value)) }
{
    Ok(Box::new(alloc, Value::Load(ty, place))?)
}

/// A struct, whose cells are read where they are copied.
pub fn whole(alloc: Global, ty: TypeId, place: Box<Place>) -> Result<Box<Value>, AllocError>
    ensures { IfOk result (λ all. (types : List CType) → value_of types all.value ≡ e.Whole (type_in types ty) (place_of types place.value)) }
{
    Ok(Box::new(alloc, Value::Whole(ty, place))?)
}

/// The address of an array's first element.
pub fn decay(alloc: Global, ty: TypeId, place: Box<Place>) -> Result<Box<Value>, AllocError>
    ensures { IfOk result (λ all. (types : List CType) → value_of types all.value ≡ e.Decay (type_in types ty) (place_of types place.value)) }
{
    Ok(Box::new(alloc, Value::Decay(ty, place))?)
}

/// `&`.
pub fn address_of(alloc: Global, ty: TypeId, place: Box<Place>) -> Result<Box<Value>, AllocError>
    ensures { IfOk result (λ all. (types : List CType) → value_of types all.value ≡ e.AddressOf (type_in types ty) (place_of types place.value)) }
{
    Ok(Box::new(alloc, Value::AddressOf(ty, place))?)
}

/// A conversion.
pub fn convert(
    alloc: Global,
    ty: TypeId,
    how: Conversion,
    operand: Box<Value>,
) -> Result<Box<Value>, AllocError>
    ensures { IfOk result (λ all. (types : List CType) → value_of types all.value ≡ e.Convert (conversion_of how) (type_in types ty) (value_of types operand.value)) }
{
    Ok(Box::new(alloc, Value::Convert(ty, how, operand))?)
}

/// `-a`.
pub fn minus(alloc: Global, ty: TypeId, operand: Box<Value>) -> Result<Box<Value>, AllocError>
    ensures { IfOk result (λ all. (types : List CType) → value_of types all.value ≡ e.Minus (type_in types ty) (value_of types operand.value)) }
{
    Ok(Box::new(alloc, Value::Minus(ty, operand))?)
}

/// `~a`.
pub fn complement(alloc: Global, ty: TypeId, operand: Box<Value>) -> Result<Box<Value>, AllocError>
    ensures { IfOk result (λ all. (types : List CType) → value_of types all.value ≡ e.Complement (type_in types ty) (value_of types operand.value)) }
{
    Ok(Box::new(alloc, Value::Complement(ty, operand))?)
}

/// `!a`.
pub fn not(alloc: Global, ty: TypeId, operand: Box<Value>) -> Result<Box<Value>, AllocError>
    ensures { IfOk result (λ all. (types : List CType) → value_of types all.value ≡ e.Not (type_in types ty) (value_of types operand.value)) }
{
    Ok(Box::new(alloc, Value::Not(ty, operand))?)
}

/// An operator on two integers in the type `operands`.
pub fn arithmetic(
    alloc: Global,
    ty: TypeId,
    op: Op,
    operands: Scalar,
    left: Box<Value>,
    right: Box<Value>,
) -> Result<Box<Value>, AllocError>
    ensures { IfOk result (λ all. (types : List CType) → value_of types all.value ≡ e.Arithmetic (type_in types ty) op operands (value_of types left.value) (value_of types right.value)) }
{
    Ok(Box::new(
        alloc,
        Value::Arithmetic {
            ty,
            op,
            operands,
            left,
            right,
        },
    )?)
}

/// A pointer moved by a number of elements of this size.
pub fn move_by(
    alloc: Global,
    ty: TypeId,
    op: Op,
    size: u64,
    pointer: Side,
    left: Box<Value>,
    right: Box<Value>,
) -> Result<Box<Value>, AllocError>
    ensures { IfOk result (λ all. (types : List CType) → value_of types all.value ≡ e.Move (type_in types ty) op size (side_of pointer) (value_of types left.value) (value_of types right.value)) }
{
    Ok(Box::new(
        alloc,
        Value::Move {
            ty,
            op,
            size,
            pointer,
            left,
            right,
        },
    )?)
}

/// The number of elements of this size between two pointers.
pub fn distance(
    alloc: Global,
    ty: TypeId,
    size: u64,
    left: Box<Value>,
    right: Box<Value>,
) -> Result<Box<Value>, AllocError>
    ensures { IfOk result (λ all. (types : List CType) → value_of types all.value ≡ e.Distance (type_in types ty) size (value_of types left.value) (value_of types right.value)) }
{
    Ok(Box::new(
        alloc,
        Value::Distance {
            ty,
            size,
            left,
            right,
        },
    )?)
}

/// Two pointers compared.
pub fn compare(
    alloc: Global,
    ty: TypeId,
    op: Op,
    left: Box<Value>,
    right: Box<Value>,
) -> Result<Box<Value>, AllocError>
    ensures { IfOk result (λ all. (types : List CType) → value_of types all.value ≡ e.Compare (type_in types ty) op (value_of types left.value) (value_of types right.value)) }
{
    Ok(Box::new(alloc, Value::Compare(ty, op, left, right))?)
}

/// `left && right` or `left || right`.
pub fn logical(
    alloc: Global,
    ty: TypeId,
    op: LogicalOp,
    left: Box<Value>,
    right: Box<Value>,
) -> Result<Box<Value>, AllocError>
    ensures { IfOk result (λ all. (types : List CType) → value_of types all.value ≡ e.Logical (type_in types ty) op (value_of types left.value) (value_of types right.value)) }
{
    Ok(Box::new(alloc, Value::Logical(ty, op, left, right))?)
}

/// `test ? left : right`.
pub fn conditional(
    alloc: Global,
    ty: TypeId,
    test: Box<Value>,
    left: Box<Value>,
    right: Box<Value>,
) -> Result<Box<Value>, AllocError>
    ensures { IfOk result (λ all. (types : List CType) → value_of types all.value ≡ e.Conditional (type_in types ty) (value_of types test.value) (value_of types left.value) (value_of types right.value)) }
{
    Ok(Box::new(alloc, Value::Conditional(ty, test, left, right))?)
}

/// A simple assignment.
pub fn assign(
    alloc: Global,
    ty: TypeId,
    place: Box<Place>,
    value: Box<Value>,
) -> Result<Box<Value>, AllocError>
    ensures { IfOk result (λ all. (types : List CType) → value_of types all.value ≡ e.Assign (type_in types ty) (place_of types place.value) (value_of types value.value)) }
{
    Ok(Box::new(alloc, Value::Assign(ty, place, value))?)
}

/// `op=` on integers in the type `operands`.
pub fn update(
    alloc: Global,
    ty: TypeId,
    op: Op,
    operands: Scalar,
    place: Box<Place>,
    value: Box<Value>,
) -> Result<Box<Value>, AllocError>
    ensures { IfOk result (λ all. (types : List CType) → value_of types all.value ≡ e.Update (type_in types ty) op operands (place_of types place.value) (value_of types value.value)) }
{
    Ok(Box::new(
        alloc,
        Value::Update {
            ty,
            op,
            operands,
            place,
            value,
        },
    )?)
}

/// `+=` and `-=` on a pointer to elements of this size.
pub fn update_pointer(
    alloc: Global,
    ty: TypeId,
    op: Op,
    size: u64,
    place: Box<Place>,
    value: Box<Value>,
) -> Result<Box<Value>, AllocError>
    ensures { IfOk result (λ all. (types : List CType) → value_of types all.value ≡ e.UpdatePointer (type_in types ty) op size (place_of types place.value) (value_of types value.value)) }
{
    Ok(Box::new(
        alloc,
        Value::UpdatePointer {
            ty,
            op,
            size,
            place,
            value,
        },
    )?)
}

/// `++` and `--` on an integer.
pub fn step(
    alloc: Global,
    ty: TypeId,
    gives: When,
    op: Op,
    operands: Scalar,
    place: Box<Place>,
) -> Result<Box<Value>, AllocError>
    ensures { IfOk result (λ all. (types : List CType) → value_of types all.value ≡ e.Step (type_in types ty) (when_of gives) op operands (place_of types place.value)) }
{
    Ok(Box::new(
        alloc,
        Value::Step {
            ty,
            gives,
            op,
            operands,
            place,
        },
    )?)
}

/// `++` and `--` on a pointer to elements of this size.
pub fn step_pointer(
    alloc: Global,
    ty: TypeId,
    gives: When,
    op: Op,
    size: u64,
    place: Box<Place>,
) -> Result<Box<Value>, AllocError>
    ensures { IfOk result (λ all. (types : List CType) → value_of types all.value ≡ e.StepPointer (type_in types ty) (when_of gives) op size (place_of types place.value)) }
{
    Ok(Box::new(
        alloc,
        Value::StepPointer {
            ty,
            gives,
            op,
            size,
            place,
        },
    )?)
}

/// A call of the function of this name.
pub fn call(
    alloc: Global,
    ty: TypeId,
    function: Name,
    arguments: Vec<Value>,
) -> Result<Box<Value>, AllocError>
    ensures { IfOk result (λ all. (types : List CType) → value_of types all.value ≡ e.Call (type_in types ty) function (values_in types arguments.items)) }
{
    Ok(Box::new(alloc, Value::Call(ty, function, arguments))?)
}

/// A comma expression of these parts.
pub fn comma(alloc: Global, ty: TypeId, parts: Vec<Value>) -> Result<Box<Value>, AllocError>
    ensures { IfOk result (λ all. (types : List CType) → value_of types all.value ≡ e.Comma (type_in types ty) (values_in types parts.items)) }
{
    Ok(Box::new(alloc, Value::Comma(ty, parts))?)
}

/// A value behind marks.
pub fn marked(
    alloc: Global,
    ty: TypeId,
    marks: Vec<Mark>,
    value: Box<Value>,
) -> Result<Box<Value>, AllocError>
    ensures { IfOk result (λ all. (types : List CType) → value_of types all.value ≡ e.Marked (type_in types ty) (marks_in types marks.items) (value_of types value.value)) }
{
    Ok(Box::new(alloc, Value::Marked(ty, marks, value))?)
}

/// `pc_decide`, with the ids of its two labels.
pub fn decide(
    alloc: Global,
    ty: TypeId,
    operand: Box<Value>,
    when_true: u32,
    when_false: u32,
) -> Result<Box<Value>, AllocError>
    ensures { IfOk result (λ all. (types : List CType) → value_of types all.value ≡ e.Decide (type_in types ty) (value_of types operand.value) when_true when_false) }
{
    Ok(Box::new(
        alloc,
        Value::Decide {
            ty,
            operand,
            when_true,
            when_false,
        },
    )?)
}

/// `pc_after`, with the id of its label.
pub fn after(
    alloc: Global,
    ty: TypeId,
    operand: Box<Value>,
    id: u32,
) -> Result<Box<Value>, AllocError>
    ensures { IfOk result (λ all. (types : List CType) → value_of types all.value ≡ e.After (type_in types ty) (value_of types operand.value) id) }
{
    Ok(Box::new(alloc, Value::After(ty, operand, id))?)
}
