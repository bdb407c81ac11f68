ghost use Rattle.std.specs.Prelude.{◌≡◌, ℤ, unsigned_abs, ◌≤◌, ◌^◌};
ghost use Rattle.lt_model.specs.declared.scalar.Scalar.TheVariants.{Bool as BoolType};
ghost use Rattle.lt_value.specs.Num.{Holds, IsBelow, IsExactly};
ghost use Rattle.lt_value.specs.Entry.{written, is_within, IsReduced};
ghost use Rattle.lt_value.specs.Conversion.{IsConverted, IsConversion};

use crate::num::Num;
use crate::operators::settle::reduced;
use crate::order::is_member;
use crate::progression::{between, single};
use lt_model::{DataModel, Scalar, greatest, least};

/// What the members become as values of `_Bool`: 0, 1 or both.
fn truths(model: DataModel, n: &Num) -> Num
    ensures { IsExactly (IsConverted model BoolType n.now) result }
{
    if !is_member(n, 0) {
        single(1)
    } else if n.lo == n.hi {
        single(0)
    } else {
        between(0, 1)
    }
}

/// The values of a type that are congruent to the rest modulo the common divisor of a step and 2^w; there are some.
fn residues(model: DataModel, ty: Scalar, step: u128, rest: i128) -> Num
    requires { unsigned_abs rest ≤ 2 ^ 126 }
    ensures { IsExactly (IsReduced model ty step rest) result }
{
    match reduced(model, ty, step, rest) {
        Some(n) => n,
        None => unreachable!(),
    }
}

/// Whether all members are values of a type.
fn fits(model: DataModel, ty: Scalar, n: &Num) -> bool
    ensures { result ≡ is_within model ty (written n.now) }
{
    least(model, ty) <= n.lo && n.hi <= greatest(model, ty)
}

/// What the conversion to an integer type gives, by `specs/Conversion.antt`: what each member becomes is among it, and a
/// greater set gives a greater one (`convert_sound_law`, `convert_monotone_law`).
pub fn convert(model: DataModel, to: Scalar, n: &Num) -> Num
    ensures { IsExactly (IsConversion model to n.now) result }
{
    match to {
        Scalar::Bool => truths(model, n),
        _ => {
            if fits(model, to, n) {
                *n
            } else {
                residues(model, to, n.step, n.lo)
            }
        }
    }
}

/// A law: what each member becomes is among what the conversion gives. It does nothing.
pub fn convert_sound_law(model: DataModel, to: Scalar, n: &Num)
    ensures { (z : ℤ) → IsConverted model to n.now z → IsConversion model to n.now z }
{}

/// A law: a greater set gives a greater one. It does nothing.
pub fn convert_monotone_law(model: DataModel, to: Scalar, a: &Num, b: &Num)
    requires { IsBelow a.now b.now }
    ensures { (z : ℤ) → IsConversion model to a.now z → IsConversion model to b.now z }
{}
