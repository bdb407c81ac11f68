ghost use Rattle.std.specs.Prelude.{◌≡◌, ◌≢◌, ◌+ℤ◌, ◌-ℤ◌, ◌*ℤ◌, ◌≤ℤ◌, ◌<ℤ◌, ◌*◌, ◌%◌, ◌^◌, ◌<◌, ◌≤◌, ℕ, pos, true, false, int_div, int_rem, unsigned_abs, bit_and, bit_or, bit_xor, IfOk, FitsSigned};
ghost use Rattle.std.specs.Int.{int_shr, w128};
ghost use Rattle.lt_model.specs.Scalar.{is_signed, width_of, least_of, wrapped, IsValue};
ghost use Rattle.lt_model.specs.Operators.{exact_or, settled, after_division, is_count, shifted_left, bits_of, bitwise, truth, value_of, IsRightOperand};
ghost use Rattle.lt_model.specs.declared.operator.Op.TheVariants.{Shl, Shr};

use crate::conversion::{residue, wrap};
use crate::operator::{Op, Ub};
use crate::scalar::{DataModel, Scalar, is_signed, is_value, width};

// An exact result, unless it is no value of the type.
fn exact(kind: Ub, model: DataModel, ty: Scalar, z: i128) -> Result<i128, Ub>
    ensures { result ≡ exact_or kind model ty z }
{
    if is_value(model, ty, z) {
        Ok(z)
    } else {
        Err(kind)
    }
}

// A result of arithmetic: a signed one is exact, and an unsigned one is reduced.
fn settled(model: DataModel, ty: Scalar, z: i128) -> Result<i128, Ub>
    requires { FitsSigned w128 (z -ℤ least_of model ty) }
    ensures { result ≡ settled model ty z }
{
    if is_signed(model, ty) {
        exact(Ub::Overflow, model, ty, z)
    } else {
        Ok(wrap(model, ty, z))
    }
}

// A sum of two values.
fn sum(model: DataModel, ty: Scalar, a: i128, b: i128) -> Result<i128, Ub>
    requires left { IsValue model ty a }
    requires right { IsValue model ty b }
    ensures { result ≡ settled model ty (a +ℤ b) }
{
    settled(model, ty, a + b)
}

// A difference of two values.
fn difference(model: DataModel, ty: Scalar, a: i128, b: i128) -> Result<i128, Ub>
    requires left { IsValue model ty a }
    requires right { IsValue model ty b }
    ensures { result ≡ settled model ty (a -ℤ b) }
{
    settled(model, ty, a - b)
}

// A product of numbers that aren't negative, reduced modulo 2 ^ width.
fn reduced_product(width: u32, a: u128, b: u128) -> u128
    requires left { a < 2 ^ 64 }
    requires right { b < 2 ^ 64 }
    requires width { width ≤ 64 }
    ensures is { result ≡ a * b % 2 ^ width }
{
    a * b % (1 << width)
}

// A product of an unsigned type.
fn unsigned_product(model: DataModel, ty: Scalar, a: i128, b: i128) -> i128
    requires unsigned { is_signed model ty ≡ false }
    requires left { (pos 0 ≤ℤ a) × (a <ℤ pos (2 ^ 64)) }
    requires right { (pos 0 ≤ℤ b) × (b <ℤ pos (2 ^ 64)) }
    ensures { result ≡ wrapped model ty (a *ℤ b) }
{
    reduced_product(width(model, ty), a as u128, b as u128) as i128
}

// A product of numbers of at most 64 bits.
#[tactic(auto, using(crate::proofs::Ranges::product_fits))]
fn exact_product(a: i128, b: i128) -> i128
    requires left { unsigned_abs a ≤ 2 ^ 63 }
    requires right { unsigned_abs b ≤ 2 ^ 63 }
    ensures { result ≡ a *ℤ b }
{
    a * b
}

// A product of two values.
#[tactic(auto, using(crate::proofs::Ranges::signed_abs))]
fn product(model: DataModel, ty: Scalar, a: i128, b: i128) -> Result<i128, Ub>
    requires left { IsValue model ty a }
    requires right { IsValue model ty b }
    ensures { result ≡ settled model ty (a *ℤ b) }
{
    if is_signed(model, ty) {
        exact(Ub::Overflow, model, ty, exact_product(a, b))
    } else {
        Ok(unsigned_product(model, ty, a, b))
    }
}

// A quotient of values, cut towards zero.
fn quotient(model: DataModel, ty: Scalar, a: i128, b: i128) -> i128
    requires left { IsValue model ty a }
    requires divisor { b ≢ pos 0 }
    ensures { result ≡ int_div a b }
{
    a / b
}

// The remainder that goes with it.
fn remainder(model: DataModel, ty: Scalar, a: i128, b: i128) -> i128
    requires left { IsValue model ty a }
    requires divisor { b ≢ pos 0 }
    ensures { result ≡ int_rem a b }
{
    a % b
}

// What a division gives where b may divide a.
fn divided(model: DataModel, ty: Scalar, a: i128, b: i128) -> Result<i128, Ub>
    requires left { IsValue model ty a }
    ensures { result ≡ after_division model ty a b (int_div a b) }
{
    if b == 0 {
        return Err(Ub::ZeroDivisor);
    }
    exact(Ub::Quotient, model, ty, quotient(model, ty, a, b))
}

// What is left over by a division where b may divide a.
fn left_over(model: DataModel, ty: Scalar, a: i128, b: i128) -> Result<i128, Ub>
    requires left { IsValue model ty a }
    ensures { result ≡ after_division model ty a b (int_rem a b) }
{
    if b == 0 {
        return Err(Ub::ZeroDivisor);
    }
    if is_value(model, ty, quotient(model, ty, a, b)) {
        Ok(remainder(model, ty, a, b))
    } else {
        Err(Ub::Quotient)
    }
}

// Whether a shift count is in range.
fn is_count(model: DataModel, ty: Scalar, b: i128) -> bool
    ensures { result ≡ is_count model ty b }
{
    0 <= b && b < i128::from(width(model, ty))
}

// A power of two.
fn power(exponent: u32) -> i128
    requires { exponent < 64 }
    ensures is { result ≡ pos (2 ^ exponent) }
    ensures small { unsigned_abs result ≤ 2 ^ 63 }
{
    1 << exponent
}

// A left shift by a count in range.
#[tactic(auto, using(crate::proofs::Ranges::signed_abs))]
fn shifted_left(model: DataModel, ty: Scalar, a: i128, count: u32) -> Result<i128, Ub>
    requires left { IsValue model ty a }
    requires count { count < width_of model ty }
    ensures { result ≡ shifted_left model ty a count }
{
    if !is_signed(model, ty) {
        Ok(unsigned_product(model, ty, a, power(count)))
    } else if a < 0 {
        Err(Ub::Shift)
    } else {
        exact(Ub::Shift, model, ty, exact_product(a, power(count)))
    }
}

// A right shift by a count in range, rounded down.
fn shifted_right(a: i128, count: u32) -> i128
    requires { count < 64 }
    ensures { result ≡ int_shr a count }
{
    a >> count
}

// A left shift.
fn left_shift(model: DataModel, ty: Scalar, a: i128, b: i128) -> Result<i128, Ub>
    requires { IsValue model ty a }
    ensures { result ≡ value_of model Shl ty a b }
{
    if is_count(model, ty, b) {
        shifted_left(model, ty, a, b as u32)
    } else {
        Err(Ub::Shift)
    }
}

// A right shift.
fn right_shift(model: DataModel, ty: Scalar, a: i128, b: i128) -> Result<i128, Ub>
    ensures { result ≡ value_of model Shr ty a b }
{
    if is_count(model, ty, b) {
        Ok(shifted_right(a, b as u32))
    } else {
        Err(Ub::Shift)
    }
}

// The two's complement of a number in the bits of a type.
fn bits_of(model: DataModel, ty: Scalar, z: i128) -> u128
    ensures is { result ≡ bits_of model ty z }
    ensures below { result < 2 ^ width_of model ty }
{
    residue(z, width(model, ty)) as u128
}

// The value that has these bits.
fn from_bits(model: DataModel, ty: Scalar, bits: u128) -> i128
    requires { bits < 2 ^ width_of model ty }
    ensures { result ≡ wrapped model ty (pos bits) }
{
    wrap(model, ty, bits as i128)
}

// The bits that both values have.
fn common_bits(model: DataModel, ty: Scalar, a: i128, b: i128) -> i128
    ensures { result ≡ bitwise bit_and model ty a b }
{
    from_bits(model, ty, bits_of(model, ty, a) & bits_of(model, ty, b))
}

// The bits that one of the values has.
#[tactic(auto, using(std::proofs::lemmas::Nat::or_lt))]
fn joined_bits(model: DataModel, ty: Scalar, a: i128, b: i128) -> i128
    ensures { result ≡ bitwise bit_or model ty a b }
{
    from_bits(model, ty, bits_of(model, ty, a) | bits_of(model, ty, b))
}

// The bits that exactly one of the values has.
#[tactic(auto, using(std::proofs::lemmas::Nat::xor_lt))]
fn differing_bits(model: DataModel, ty: Scalar, a: i128, b: i128) -> i128
    ensures { result ≡ bitwise bit_xor model ty a b }
{
    from_bits(model, ty, bits_of(model, ty, a) ^ bits_of(model, ty, b))
}

// A truth as C has it.
fn truth(b: bool) -> i128
    ensures { result ≡ truth b }
{
    if b { 1 } else { 0 }
}

// What an operator gives on two values of a type.
fn operated(model: DataModel, op: Op, ty: Scalar, a: i128, b: i128) -> Result<i128, Ub>
    requires left { IsValue model ty a }
    requires right { IsRightOperand model op ty b }
    ensures { result ≡ value_of model op ty a b }
{
    match op {
        Op::Add => sum(model, ty, a, b),
        Op::Sub => difference(model, ty, a, b),
        Op::Mul => product(model, ty, a, b),
        Op::Div => divided(model, ty, a, b),
        Op::Rem => left_over(model, ty, a, b),
        Op::Shl => left_shift(model, ty, a, b),
        Op::Shr => right_shift(model, ty, a, b),
        Op::And => Ok(common_bits(model, ty, a, b)),
        Op::Or => Ok(joined_bits(model, ty, a, b)),
        Op::Xor => Ok(differing_bits(model, ty, a, b)),
        Op::Lt => Ok(truth(a < b)),
        Op::Le => Ok(truth(a <= b)),
        Op::Gt => Ok(truth(a > b)),
        Op::Ge => Ok(truth(a >= b)),
        Op::Eq => Ok(truth(a == b)),
        Op::Ne => Ok(truth(a != b)),
    }
}

/// What an operator gives on two values of a type, C11 6.5.5 to 6.5.12, or the kind of its undefined behaviour: one of the
/// first four. The right operand of a shift may be a value of any type.
pub fn apply(model: DataModel, op: Op, ty: Scalar, a: i128, b: i128) -> Result<i128, Ub>
    requires left { IsValue model ty a }
    requires right { IsRightOperand model op ty b }
    ensures is { result ≡ value_of model op ty a b }
    ensures fits { IfOk result (IsValue model ty) }
{
    operated(model, op, ty, a, b)
}
