// Constant addresses and null pointers, C11 6.6p9.

ghost use Rattle.std.specs.Prelude.{◌≡◌, ◌<◌, ◌^◌, ◌+ℤ◌, ◌*ℤ◌, pos, ℕ};
ghost use Rattle.lt_model.specs.declared.operator.Op.TheVariants as ops;
ghost use Rattle.lt_tree.specs.Typing.Types.{CType, Void, Pointer, same};
ghost use Rattle.lt_tree.specs.Typing.Constants as typing;
ghost use Rattle.lt_tree.specs.Typing.ConstancyView.{constancy_of};
ghost use Rattle.lt_tree.specs.Typing.BinaryOperations.{towards};
ghost use Rattle.lt_tree.specs.Typing.Expressions as expressions;
ghost use Rattle.lt_table.specs.ConstantViews.{IsExtent};

use crate::constants::numbers::is_zero;
use lt_model::{checked_product, checked_sum};
use lt_tree::typed::Constancy;

/// A place so many bytes from the start of an object of this size, if it lies within it or one past its end.
pub fn moved_to(object: u32, extent: u64, at: i128) -> Constancy
    ensures { constancy_of result ≡ typing.moved_to object extent at }
{
    if 0 <= at && at <= i128::from(extent) {
        Constancy::Address {
            object,
            offset: at as u64,
        }
    } else {
        Constancy::Varying
    }
}

// A place moved by a number of steps. A sum past 128 bits lies outside of any object.
fn stepped(object: u32, extent: u64, offset: u64, count: i128, step: i128) -> Constancy
    ensures { constancy_of result ≡ typing.moved_to object extent (pos offset +ℤ (count *ℤ step)) }
{
    match checked_product(count, step) {
        None => Constancy::Varying,
        Some(bytes) => match checked_sum(i128::from(offset), bytes) {
            None => Constancy::Varying,
            Some(at) => moved_to(object, extent, at),
        },
    }
}

/// An address, moved by a constant number of elements of this size. The extent is the size of its object; where it isn't an address, it may be any.
pub fn moved_by(extent: u64, size: u64, at: Constancy, count: Constancy) -> Constancy
    ensures { (sizes : ℕ → ℕ) → IsExtent sizes extent (constancy_of at) → constancy_of result ≡ typing.moved_by sizes size (constancy_of at) (constancy_of count) }
{
    match at {
        Constancy::Address { object, offset } => match count {
            Constancy::Number(z) => stepped(object, extent, offset, z, i128::from(size)),
            _ => Constancy::Varying,
        },
        _ => Constancy::Varying,
    }
}

/// An address, moved back by a constant number of elements.
pub fn moved_back(extent: u64, size: u64, at: Constancy, count: Constancy) -> Constancy
    ensures { (sizes : ℕ → ℕ) → IsExtent sizes extent (constancy_of at) → constancy_of result ≡ typing.moved_by sizes size (constancy_of at) (towards ops.Sub (constancy_of count)) }
{
    match at {
        Constancy::Address { object, offset } => match count {
            Constancy::Number(z) => stepped(object, extent, offset, z, -i128::from(size)),
            _ => Constancy::Varying,
        },
        _ => Constancy::Varying,
    }
}

/// Zero as a pointer, of type `void *` or of another pointer type.
pub fn null_of(is_void_pointer: bool) -> Constancy
    ensures { (t : CType) → same t (Pointer Void) ≡ is_void_pointer → constancy_of result ≡ expressions.null_of t }
{
    if is_void_pointer {
        Constancy::NullConstant
    } else {
        Constancy::NullAddress
    }
}

/// What it is once it is converted to `void *` or to another pointer type.
pub fn constancy_as_pointer(is_void_pointer: bool, c: Constancy) -> Constancy
    ensures { (t : CType) → same t (Pointer Void) ≡ is_void_pointer → constancy_of result ≡ expressions.constancy_as_pointer t (constancy_of c) }
{
    match c {
        Constancy::Number(_) => {
            if is_zero(c) {
                null_of(is_void_pointer)
            } else {
                Constancy::Varying
            }
        }
        Constancy::NullConstant | Constancy::NullAddress => Constancy::NullAddress,
        Constancy::Address { object, offset } => Constancy::Address { object, offset },
        Constancy::Varying | Constancy::Faulty => Constancy::Varying,
    }
}
