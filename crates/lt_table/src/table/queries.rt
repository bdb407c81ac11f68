ghost use Rattle.std.specs.Prelude.{◌≡◌, ◌<◌, ◌↔◌, length, IsSome, IfSome, option_map, if◌then◌else◌};
ghost use Rattle.lt_tree.specs.Typing.Types.{unqualified, element, qualifiers_of, own_qualifiers, no_qualifiers, target_of, scalar_of, struct_of, is_void, is_integer, is_pointer, is_struct, is_array, is_function, is_floating, is_scalar, is_pointer_to_function};
ghost use Rattle.lt_tree.specs.Typing.TypeRows.{type_in};
ghost use Rattle.lt_table.specs.TableKinds.{kind_part, IsOfKind};
ghost use Rattle.lt_table.specs.TableRows.{Stays, IsArrayOf, IsFunctionOf};
ghost use Rattle.lt_tree.specs.View as view;

use super::TypeTable;
use super::kind::Kind;
use lt_model::{Quals, Scalar};
use lt_tree::typed::{FunctionType, TypeId, TypeRow};

/// What a type is, in constant time. None for an id of no row.
impl TypeTable {
    /// The kind of a type.
    pub fn kind(&self, t: TypeId) -> Option<Kind>
        ensures row { IsSome result ↔ (t.place < length self.now) }
        ensures part_within { IfSome result (λ k. IfSome (kind_part k) (λ u. u.place < length self.now)) }
        ensures part_before { IfSome result (λ k. IfSome (kind_part k) (λ u. u.place < t.place)) }
        ensures kind { IfSome result (λ k. Stays self.now (λ types. IsOfKind types k (type_in types t))) }
    {
        Some(self.facts(t)?.kind)
    }

    /// The type without its own qualifiers.
    pub fn unqualified(&self, t: TypeId) -> Option<TypeId>
        ensures row { IsSome result ↔ (t.place < length self.now) }
        ensures within { IfSome result (λ u. u.place < length self.now) }
        ensures value { IfSome result (λ u. Stays self.now (λ types. type_in types u ≡ unqualified (type_in types t))) }
    {
        match self.row(t)? {
            TypeRow::Qualified(_, u) => Some(*u),
            _ => Some(t),
        }
    }

    /// An array's elements and how many there are.
    pub fn array_of(&self, t: TypeId) -> Option<Option<(TypeId, u32)>>
        ensures row { IsSome result ↔ (t.place < length self.now) }
        ensures array { IfSome result (IsArrayOf self.now t) }
    {
        match self.kind(t)? {
            Kind::Array(element, length) => Some(Some((element, length))),
            _ => Some(None),
        }
    }

    /// The type of an array's elements, and of theirs; of no array the type itself.
    pub fn element(&self, t: TypeId) -> Option<TypeId>
        ensures row { IsSome result ↔ (t.place < length self.now) }
        ensures within { IfSome result (λ e. e.place < length self.now) }
        ensures value { IfSome result (λ e. Stays self.now (λ types. type_in types e ≡ element (type_in types t))) }
    {
        let facts = self.facts(t)?;
        Some(facts.element)
    }

    /// Its qualifiers; for an array those of its elements.
    pub fn qualifiers_of(&self, t: TypeId) -> Option<Quals>
        ensures row { IsSome result ↔ (t.place < length self.now) }
        ensures value { IfSome result (λ q. Stays self.now (λ types. view.qualifiers_of q ≡ qualifiers_of (type_in types t))) }
    {
        let facts = self.facts(t)?;
        Some(facts.quals)
    }

    /// Its own qualifiers: an array has none.
    pub fn own_qualifiers(&self, t: TypeId) -> Option<Quals>
        ensures row { IsSome result ↔ (t.place < length self.now) }
        ensures value { IfSome result (λ q. Stays self.now (λ types. view.qualifiers_of q ≡ own_qualifiers (type_in types t))) }
    {
        let is_array = self.is_array(t)?;
        let quals = self.qualifiers_of(t)?;
        Some(own(is_array, quals))
    }

    /// What a function takes and gives.
    pub fn function_of(&self, t: TypeId) -> Option<Option<&FunctionType>>
        ensures row { IsSome result ↔ (t.place < length self.now) }
        ensures function { IfSome result (λ f. IsFunctionOf self.now t (option_map (λ g. g.now) f)) }
    {
        match self.row(t)? {
            TypeRow::Function(function) => Some(Some(function)),
            _ => Some(None),
        }
    }

    /// What a pointer points to.
    pub fn target_of(&self, t: TypeId) -> Option<Option<TypeId>>
        ensures row { IsSome result ↔ (t.place < length self.now) }
        ensures within { IfSome result (λ target. IfSome target (λ u. u.place < length self.now)) }
        ensures value { IfSome result (λ target. Stays self.now (λ types. option_map (type_in types) target ≡ target_of (type_in types t))) }
    {
        let kind = self.kind(t)?;
        Some(kind.target())
    }

    /// The integer type that it is.
    pub fn scalar_of(&self, t: TypeId) -> Option<Option<Scalar>>
        ensures row { IsSome result ↔ (t.place < length self.now) }
        ensures value { IfSome result (λ a. Stays self.now (λ types. a ≡ scalar_of (type_in types t))) }
    {
        let kind = self.kind(t)?;
        Some(kind.scalar())
    }

    /// The number of the struct that it is.
    pub fn struct_of(&self, t: TypeId) -> Option<Option<u32>>
        ensures row { IsSome result ↔ (t.place < length self.now) }
        ensures value { IfSome result (λ a. Stays self.now (λ types. a ≡ struct_of (type_in types t))) }
    {
        let kind = self.kind(t)?;
        Some(kind.struct_number())
    }

    /// Whether it is `void`.
    pub fn is_void(&self, t: TypeId) -> Option<bool>
        ensures row { IsSome result ↔ (t.place < length self.now) }
        ensures value { IfSome result (λ a. Stays self.now (λ types. a ≡ is_void (type_in types t))) }
    {
        let kind = self.kind(t)?;
        Some(kind.is_void())
    }

    /// Whether it is an integer type.
    pub fn is_integer(&self, t: TypeId) -> Option<bool>
        ensures row { IsSome result ↔ (t.place < length self.now) }
        ensures value { IfSome result (λ a. Stays self.now (λ types. a ≡ is_integer (type_in types t))) }
    {
        let kind = self.kind(t)?;
        Some(kind.is_integer())
    }

    /// Whether it is a pointer.
    pub fn is_pointer(&self, t: TypeId) -> Option<bool>
        ensures row { IsSome result ↔ (t.place < length self.now) }
        ensures value { IfSome result (λ a. Stays self.now (λ types. a ≡ is_pointer (type_in types t))) }
    {
        let kind = self.kind(t)?;
        Some(kind.is_pointer())
    }

    /// Whether it is a struct.
    pub fn is_struct(&self, t: TypeId) -> Option<bool>
        ensures row { IsSome result ↔ (t.place < length self.now) }
        ensures value { IfSome result (λ a. Stays self.now (λ types. a ≡ is_struct (type_in types t))) }
    {
        let kind = self.kind(t)?;
        Some(kind.is_struct())
    }

    /// Whether it is an array.
    pub fn is_array(&self, t: TypeId) -> Option<bool>
        ensures row { IsSome result ↔ (t.place < length self.now) }
        ensures value { IfSome result (λ a. Stays self.now (λ types. a ≡ is_array (type_in types t))) }
    {
        let kind = self.kind(t)?;
        Some(kind.is_array())
    }

    /// Whether it is a function.
    pub fn is_function(&self, t: TypeId) -> Option<bool>
        ensures row { IsSome result ↔ (t.place < length self.now) }
        ensures value { IfSome result (λ a. Stays self.now (λ types. a ≡ is_function (type_in types t))) }
    {
        let kind = self.kind(t)?;
        Some(kind.is_function())
    }

    /// Whether it is a floating type.
    pub fn is_floating(&self, t: TypeId) -> Option<bool>
        ensures row { IsSome result ↔ (t.place < length self.now) }
        ensures value { IfSome result (λ a. Stays self.now (λ types. a ≡ is_floating (type_in types t))) }
    {
        let kind = self.kind(t)?;
        Some(kind.is_floating())
    }

    /// An integer or a pointer.
    pub fn is_scalar(&self, t: TypeId) -> Option<bool>
        ensures row { IsSome result ↔ (t.place < length self.now) }
        ensures value { IfSome result (λ a. Stays self.now (λ types. a ≡ is_scalar (type_in types t))) }
    {
        let kind = self.kind(t)?;
        Some(kind.is_integer() || kind.is_pointer())
    }

    /// Whether it is a pointer to a function.
    pub fn is_pointer_to_function(&self, t: TypeId) -> Option<bool>
        ensures row { IsSome result ↔ (t.place < length self.now) }
        ensures value { IfSome result (λ a. Stays self.now (λ types. a ≡ is_pointer_to_function (type_in types t))) }
    {
        match self.target_of(t)? {
            Some(target) => self.is_function(target),
            None => Some(false),
        }
    }
}

// The own qualifiers of a type whose elements have these, if it is an array.
fn own(is_array: bool, quals: Quals) -> Quals
    ensures { view.qualifiers_of result ≡ (if is_array then no_qualifiers else view.qualifiers_of quals) }
{
    if is_array {
        Quals {
            constant: false,
            volatile: false,
        }
    } else {
        quals
    }
}
