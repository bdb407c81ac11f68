ghost use Rattle.std.specs.Prelude.{◌≡◌, ◌↔◌, IsTrue};
ghost use Rattle.lt_model.specs.Scalar as spec;
ghost use Rattle.lt_model.specs.Scalar.{width_of, is_signed, least_of, greatest_of, IsValue};
ghost use Rattle.lt_model.specs.Operators.{is_value};

/// The sizes of `long` and of pointers, 4 and 4 bytes, 8 and 8, or 4 and 8, and whether plain `char` is signed: it isn't in those whose name
/// ends in `U`.
#[derive(Clone, Copy, PartialEq, Eq, Debug)]
pub enum DataModel {
    Ilp32,
    Lp64,
    Llp64,
    Ilp32U,
    Lp64U,
    Llp64U,
}

/// The integer types of C11 6.2.5.
#[derive(Clone, Copy, PartialEq, Eq, Debug)]
pub enum Scalar {
    Bool,
    Char,
    SChar,
    UChar,
    Short,
    UShort,
    Int,
    UInt,
    Long,
    ULong,
    LLong,
    ULLong,
}

/// The bits of `long`.
pub fn long_width(model: DataModel) -> u32
    ensures { result ≡ spec.long_width model }
{
    match model {
        DataModel::Lp64 | DataModel::Lp64U => 64,
        DataModel::Ilp32 | DataModel::Llp64 | DataModel::Ilp32U | DataModel::Llp64U => 32,
    }
}

/// The bits of a pointer.
pub fn pointer_width(model: DataModel) -> u32
    ensures { result ≡ spec.pointer_width model }
{
    match model {
        DataModel::Ilp32 | DataModel::Ilp32U => 32,
        DataModel::Lp64 | DataModel::Llp64 | DataModel::Lp64U | DataModel::Llp64U => 64,
    }
}

/// Whether plain `char` is signed, C11 6.2.5p15.
pub fn char_is_signed(model: DataModel) -> bool
    ensures { result ≡ spec.char_is_signed model }
{
    matches!(model, DataModel::Ilp32 | DataModel::Lp64 | DataModel::Llp64)
}

/// The type of `sizeof`, C11 6.5.3.4.
pub fn size_type(model: DataModel) -> Scalar
    ensures { result ≡ spec.size_type model }
{
    match model {
        DataModel::Ilp32 | DataModel::Ilp32U => Scalar::UInt,
        DataModel::Lp64 | DataModel::Lp64U => Scalar::ULong,
        DataModel::Llp64 | DataModel::Llp64U => Scalar::ULLong,
    }
}

/// The type of a difference of pointers, C11 6.5.6.
pub fn difference_type(model: DataModel) -> Scalar
    ensures { result ≡ spec.difference_type model }
{
    match model {
        DataModel::Ilp32 | DataModel::Ilp32U => Scalar::Int,
        DataModel::Lp64 | DataModel::Lp64U => Scalar::Long,
        DataModel::Llp64 | DataModel::Llp64U => Scalar::LLong,
    }
}

/// The bits of a type, 1 for `_Bool`.
pub fn width(model: DataModel, ty: Scalar) -> u32
    ensures { result ≡ width_of model ty }
{
    match ty {
        Scalar::Bool => 1,
        Scalar::Char | Scalar::SChar | Scalar::UChar => 8,
        Scalar::Short | Scalar::UShort => 16,
        Scalar::Int | Scalar::UInt => 32,
        Scalar::Long | Scalar::ULong => long_width(model),
        Scalar::LLong | Scalar::ULLong => 64,
    }
}

/// Whether a type has negative values.
pub fn is_signed(model: DataModel, ty: Scalar) -> bool
    ensures { result ≡ is_signed model ty }
{
    match ty {
        Scalar::Char => char_is_signed(model),
        Scalar::SChar | Scalar::Short | Scalar::Int | Scalar::Long | Scalar::LLong => true,
        Scalar::Bool
        | Scalar::UChar
        | Scalar::UShort
        | Scalar::UInt
        | Scalar::ULong
        | Scalar::ULLong => false,
    }
}

/// The least value of a type.
pub fn least(model: DataModel, ty: Scalar) -> i128
    ensures { result ≡ least_of model ty }
{
    if is_signed(model, ty) {
        -(1 << (width(model, ty) - 1))
    } else {
        0
    }
}

/// The greatest value of a type.
pub fn greatest(model: DataModel, ty: Scalar) -> i128
    ensures { result ≡ greatest_of model ty }
{
    if is_signed(model, ty) {
        (1 << (width(model, ty) - 1)) - 1
    } else {
        (1 << width(model, ty)) - 1
    }
}

/// Whether a number is a value of a type.
#[tactic(auto, using(crate::proofs::Values::value_test))]
pub fn is_value(model: DataModel, ty: Scalar, z: i128) -> bool
    ensures is { result ≡ is_value model ty z }
    ensures means { IsTrue result ↔ IsValue model ty z }
{
    least(model, ty) <= z && z <= greatest(model, ty)
}
