ghost use Rattle.std.specs.Prelude.{◌≡◌, pos, ◌-ℤ◌, ◌^◌, ◌≤◌, FitsSigned, ℤ};
ghost use Rattle.std.specs.Int.{int_rem_euclid, w128};
ghost use Rattle.lt_model.specs.Scalar.{least_of, wrapped, convert_of, IsValue};
ghost use Rattle.lt_model.specs.Conversions.{rank_of, represents, promoted, unsigned_of, mixed, higher, common, usual_of};

use crate::scalar::{DataModel, Scalar, greatest, is_signed, least, width};

// The remainder of a division by 2 ^ width that isn't negative.
pub fn residue(z: i128, width: u32) -> i128
    requires { width ≤ 64 }
    ensures { result ≡ int_rem_euclid z (pos (2 ^ width)) }
{
    z.rem_euclid(1 << width)
}

// The number, reduced modulo 2 ^ width into the type's range.
pub fn wrap(model: DataModel, ty: Scalar, z: i128) -> i128
    requires { FitsSigned w128 (z -ℤ least_of model ty) }
    ensures { result ≡ wrapped model ty z }
{
    let low = least(model, ty);
    low + residue(z - low, width(model, ty))
}

/// A value of one type as a value of another, C11 6.3.1.2 and 6.3.1.3. One that a signed type can't hold wraps in two's
/// complement.
pub fn convert(model: DataModel, from: Scalar, to: Scalar, v: i128) -> i128
    requires { IsValue model from v }
    ensures is { result ≡ convert_of model to v }
    ensures fits { IsValue model to result }
{
    match to {
        Scalar::Bool => { if v == 0 { 0 } else { 1 } }
        _ => wrap(model, to, v),
    }
}

// The conversion rank of a type.
fn rank(ty: Scalar) -> u32
    ensures { result ≡ rank_of ty }
{
    match ty {
        Scalar::Bool => 0,
        Scalar::Char | Scalar::SChar | Scalar::UChar => 1,
        Scalar::Short | Scalar::UShort => 2,
        Scalar::Int | Scalar::UInt => 3,
        Scalar::Long | Scalar::ULong => 4,
        Scalar::LLong | Scalar::ULLong => 5,
    }
}

// Whether the first type can represent all values of the second.
fn represents(model: DataModel, wide: Scalar, narrow: Scalar) -> bool
    ensures { result ≡ represents model wide narrow }
{
    least(model, wide) <= least(model, narrow) && greatest(model, narrow) <= greatest(model, wide)
}

/// The type that a type is promoted to, C11 6.3.1.1.
pub fn promote(model: DataModel, s: Scalar) -> Scalar
    ensures is { result ≡ promoted model s }
    ensures keeps { (z : ℤ) → IsValue model s z → IsValue model result z }
{
    match s {
        Scalar::UInt | Scalar::Long | Scalar::ULong | Scalar::LLong | Scalar::ULLong => s,
        _ => Scalar::Int,
    }
}

// The unsigned type that corresponds to a signed one.
fn unsigned(ty: Scalar) -> Scalar
    ensures { result ≡ unsigned_of ty }
{
    match ty {
        Scalar::Char | Scalar::SChar => Scalar::UChar,
        Scalar::Short => Scalar::UShort,
        Scalar::Int => Scalar::UInt,
        Scalar::Long => Scalar::ULong,
        Scalar::LLong => Scalar::ULLong,
        _ => ty,
    }
}

// The common type of a signed and an unsigned one.
fn mixed(model: DataModel, signed: Scalar, other: Scalar) -> Scalar
    ensures { result ≡ mixed model signed other }
{
    if rank(signed) <= rank(other) {
        other
    } else if represents(model, signed, other) {
        signed
    } else {
        unsigned(signed)
    }
}

// The type of greater rank.
fn higher(a: Scalar, b: Scalar) -> Scalar
    ensures { result ≡ higher a b }
{
    if rank(a) < rank(b) { b } else { a }
}

// The common type of two promoted types.
fn common(model: DataModel, a: Scalar, b: Scalar) -> Scalar
    ensures { result ≡ common model a b }
{
    match (is_signed(model, a), is_signed(model, b)) {
        (true, false) => mixed(model, a, b),
        (false, true) => mixed(model, b, a),
        _ => higher(a, b),
    }
}

/// The type of an operation whose operands have these types, C11 6.3.1.8.
pub fn usual(model: DataModel, a: Scalar, b: Scalar) -> Scalar
    ensures { result ≡ usual_of model a b }
{
    common(model, promote(model, a), promote(model, b))
}
