ghost use Rattle.std.specs.Prelude.{◌≡◌};
ghost use Rattle.lt_table.specs.TableKinds.{kind_scalar, kind_target, kind_struct, kind_is_void, kind_is_integer, kind_is_pointer, kind_is_struct, kind_is_array, kind_is_function, kind_is_floating};

use lt_model::{Quals, Scalar};
use lt_tree::typed::TypeId;

/// What a type is, its qualifiers aside, with what a pointer points to and an array has as elements.
#[derive(Clone, Copy, PartialEq, Eq, Debug)]
pub enum Kind {
    Void,
    Num(Scalar),
    Pointer(TypeId),
    Array(TypeId, u32),
    Struct(u32),
    Function,
    Floating,
}

/// What a table knows of a row.
#[derive(Clone, Copy, PartialEq, Eq, Debug)]
pub struct RowFacts {
    pub kind: Kind,
    /// The type of an array's elements, and of theirs; of no array the type itself.
    pub element: TypeId,
    /// Its qualifiers; for an array those of its elements.
    pub quals: Quals,
    /// How many elements an array has, counting theirs; of no array 1. Numbers from 2^64 count as that.
    pub count: u128,
    /// The kind of an array's elements, and of theirs; of no array its own.
    pub inner: Kind,
}

impl Kind {
    /// The integer type that it is.
    pub fn scalar(self) -> Option<Scalar>
        ensures { result ≡ kind_scalar self }
    {
        match self {
            Kind::Num(scalar) => Some(scalar),
            _ => None,
        }
    }

    /// What a pointer points to.
    pub fn target(self) -> Option<TypeId>
        ensures { result ≡ kind_target self }
    {
        match self {
            Kind::Pointer(target) => Some(target),
            _ => None,
        }
    }

    /// The number of the struct that it is.
    pub fn struct_number(self) -> Option<u32>
        ensures { result ≡ kind_struct self }
    {
        match self {
            Kind::Struct(number) => Some(number),
            _ => None,
        }
    }

    /// Whether it is `void`.
    pub fn is_void(self) -> bool
        ensures { result ≡ kind_is_void self }
    {
        matches!(self, Kind::Void)
    }

    /// Whether it is an integer type.
    pub fn is_integer(self) -> bool
        ensures { result ≡ kind_is_integer self }
    {
        matches!(self, Kind::Num(_))
    }

    /// Whether it is a pointer.
    pub fn is_pointer(self) -> bool
        ensures { result ≡ kind_is_pointer self }
    {
        matches!(self, Kind::Pointer(_))
    }

    /// Whether it is a struct.
    pub fn is_struct(self) -> bool
        ensures { result ≡ kind_is_struct self }
    {
        matches!(self, Kind::Struct(_))
    }

    /// Whether it is an array.
    pub fn is_array(self) -> bool
        ensures { result ≡ kind_is_array self }
    {
        matches!(self, Kind::Array(..))
    }

    /// Whether it is a function.
    pub fn is_function(self) -> bool
        ensures { result ≡ kind_is_function self }
    {
        matches!(self, Kind::Function)
    }

    /// Whether it is a floating type.
    pub fn is_floating(self) -> bool
        ensures { result ≡ kind_is_floating self }
    {
        matches!(self, Kind::Floating)
    }
}
