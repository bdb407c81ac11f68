ghost use Rattle.std.specs.Prelude.{◌≡◌, ◌&&◌, ◌<◌, ◌↔◌, length, IsSome, IfSome};
ghost use Rattle.lt_tree.specs.View as view;
ghost use Rattle.lt_tree.specs.Typing.Types.{same, alike};
ghost use Rattle.lt_tree.specs.Typing.TypeRows.{type_in};
ghost use Rattle.lt_tree.specs.Typing.Constants.{is_zero, is_null_constant};
ghost use Rattle.lt_tree.specs.Typing.ConstancyView.{constancy_of};
ghost use Rattle.lt_tree.specs.Typing.Types.{include};
ghost use Rattle.lt_tree.specs.Typing.Operands.{are_integers, point_alike, is_pointer_to_void, is_pointer_to_object, can_be_ordered, goes_with_any_pointer, can_be_compared, are_structs_alike, can_be_chosen_from, keeps_qualifiers, are_pointers_assignable, is_truth_type, is_assignable, can_be_cast};
ghost use Rattle.lt_table.specs.TableRows.{Stays};
ghost use Rattle.lt_table.specs.TablePointers.{BothPointTo};

use super::TypeTable;
use lt_model::{Quals, Scalar};
use lt_tree::typed::{Constancy, TypeId};

/// What operators ask of the types of their operands, in constant time. None where an id is of no row.
impl TypeTable {
    /// Whether they are compatible: each type stands once, so they are where their ids are equal.
    pub fn same(&self, t: TypeId, u: TypeId) -> Option<bool>
        ensures rows { IsSome result ↔ ((t.place < length self.now) × (u.place < length self.now)) }
        ensures value { IfSome result (λ b. Stays self.now (λ types. b ≡ same (type_in types t) (type_in types u))) }
    {
        let len = self.rows.len();
        if len <= t.place as usize {
            return None;
        }
        if len <= u.place as usize {
            return None;
        }
        Some(t == u)
    }

    /// Whether two types are the same, each without its own qualifiers.
    pub fn alike(&self, t: TypeId, u: TypeId) -> Option<bool>
        ensures rows { IsSome result ↔ ((t.place < length self.now) × (u.place < length self.now)) }
        ensures value { IfSome result (λ b. Stays self.now (λ types. b ≡ alike (type_in types t) (type_in types u))) }
    {
        let a = self.unqualified(t)?;
        let b = self.unqualified(u)?;
        self.same(a, b)
    }

    /// Whether both are integers.
    pub fn are_integers(&self, t: TypeId, u: TypeId) -> Option<bool>
        ensures rows { IsSome result ↔ ((t.place < length self.now) × (u.place < length self.now)) }
        ensures value { IfSome result (λ b. Stays self.now (λ types. b ≡ are_integers (type_in types t) (type_in types u))) }
    {
        let a = self.is_integer(t)?;
        let b = self.is_integer(u)?;
        Some(a && b)
    }

    /// Whether it is a pointer to void.
    pub fn is_pointer_to_void(&self, t: TypeId) -> Option<bool>
        ensures row { IsSome result ↔ (t.place < length self.now) }
        ensures value { IfSome result (λ b. Stays self.now (λ types. b ≡ is_pointer_to_void (type_in types t))) }
    {
        match self.target_of(t)? {
            Some(target) => self.is_void(target),
            None => Some(false),
        }
    }

    /// Whether it is a pointer to an object, of a complete type or not.
    pub fn is_pointer_to_object(&self, t: TypeId) -> Option<bool>
        ensures row { IsSome result ↔ (t.place < length self.now) }
        ensures value { IfSome result (λ b. Stays self.now (λ types. b ≡ is_pointer_to_object (type_in types t))) }
    {
        match self.target_of(t)? {
            Some(target) => {
                let function = self.is_function(target)?;
                Some(!function)
            }
            None => Some(false),
        }
    }

    // What both point to.
    fn both_targets(&self, t: TypeId, u: TypeId) -> Option<Option<(TypeId, TypeId)>>
        ensures rows { IsSome result ↔ ((t.place < length self.now) × (u.place < length self.now)) }
        ensures targets { IfSome result (BothPointTo self.now t u) }
    {
        let a = self.target_of(t)?;
        let b = self.target_of(u)?;
        let Some(a) = a else {
            return Some(None);
        };
        let Some(b) = b else {
            return Some(None);
        };
        Some(Some((a, b)))
    }

    /// Whether both are pointers to one type, its own qualifiers aside.
    pub fn point_alike(&self, t: TypeId, u: TypeId) -> Option<bool>
        ensures rows { IsSome result ↔ ((t.place < length self.now) × (u.place < length self.now)) }
        ensures value { IfSome result (λ b. Stays self.now (λ types. b ≡ point_alike (type_in types t) (type_in types u))) }
    {
        match self.both_targets(t, u)? {
            Some((a, b)) => self.alike(a, b),
            None => Some(false),
        }
    }

    /// Whether these can be the operands of `a < b`, C11 6.5.8.
    pub fn can_be_ordered(&self, t: TypeId, u: TypeId) -> Option<bool>
        ensures rows { IsSome result ↔ ((t.place < length self.now) × (u.place < length self.now)) }
        ensures value { IfSome result (λ b. Stays self.now (λ types. b ≡ can_be_ordered (type_in types t) (type_in types u))) }
    {
        let integers = self.are_integers(t, u)?;
        let alike = self.point_alike(t, u)?;
        Some(integers || alike)
    }

    /// Whether the second is a pointer, and the first a null pointer constant or a pointer to void.
    pub fn goes_with_any_pointer(&self, t: TypeId, c: Constancy, u: TypeId) -> Option<bool>
        ensures rows { IsSome result ↔ ((t.place < length self.now) × (u.place < length self.now)) }
        ensures value { IfSome result (λ b. Stays self.now (λ types. b ≡ goes_with_any_pointer (type_in types t) (constancy_of c) (type_in types u))) }
    {
        let pointer = self.is_pointer(u)?;
        let void = self.is_pointer_to_void(t)?;
        Some(pointer && (is_null_constant(c) || void))
    }

    /// Whether these can be the operands of `a == b`, C11 6.5.9.
    pub fn can_be_compared(&self, t: TypeId, c: Constancy, u: TypeId, d: Constancy) -> Option<bool>
        ensures rows { IsSome result ↔ ((t.place < length self.now) × (u.place < length self.now)) }
        ensures value { IfSome result (λ b. Stays self.now (λ types. b ≡ can_be_compared (type_in types t) (constancy_of c) (type_in types u) (constancy_of d))) }
    {
        let ordered = self.can_be_ordered(t, u)?;
        let left = self.goes_with_any_pointer(t, c, u)?;
        let right = self.goes_with_any_pointer(u, d, t)?;
        Some(ordered || left || right)
    }

    /// Whether both are one struct.
    pub fn are_structs_alike(&self, t: TypeId, u: TypeId) -> Option<bool>
        ensures rows { IsSome result ↔ ((t.place < length self.now) × (u.place < length self.now)) }
        ensures value { IfSome result (λ b. Stays self.now (λ types. b ≡ are_structs_alike (type_in types t) (type_in types u))) }
    {
        let structs = self.is_struct(t)?;
        let alike = self.alike(t, u)?;
        Some(structs && alike)
    }

    /// Whether these can be the last operands of `a ? b : c`, C11 6.5.15.
    pub fn can_be_chosen_from(
        &self,
        t: TypeId,
        c: Constancy,
        u: TypeId,
        d: Constancy,
    ) -> Option<bool>
        ensures rows { IsSome result ↔ ((t.place < length self.now) × (u.place < length self.now)) }
        ensures value { IfSome result (λ b. Stays self.now (λ types. b ≡ can_be_chosen_from (type_in types t) (constancy_of c) (type_in types u) (constancy_of d))) }
    {
        let ordered = self.can_be_ordered(t, u)?;
        let first = self.is_void(t)?;
        let second = self.is_void(u)?;
        let structs = self.are_structs_alike(t, u)?;
        let left = self.goes_with_any_pointer(t, c, u)?;
        let right = self.goes_with_any_pointer(u, d, t)?;
        Some(ordered || (first && second) || structs || left || right)
    }

    /// Whether what the first points to has all the qualifiers of what the second points to.
    pub fn keeps_qualifiers(&self, t: TypeId, u: TypeId) -> Option<bool>
        ensures rows { IsSome result ↔ ((t.place < length self.now) × (u.place < length self.now)) }
        ensures value { IfSome result (λ b. Stays self.now (λ types. b ≡ keeps_qualifiers (type_in types t) (type_in types u))) }
    {
        match self.both_targets(t, u)? {
            Some((a, b)) => {
                let p = self.own_qualifiers(a)?;
                let q = self.own_qualifiers(b)?;
                Some(include(p, q))
            }
            None => Some(false),
        }
    }

    /// Whether the second pointer can be assigned to the first, C11 6.5.16.1.
    pub fn are_pointers_assignable(&self, t: TypeId, u: TypeId) -> Option<bool>
        ensures rows { IsSome result ↔ ((t.place < length self.now) × (u.place < length self.now)) }
        ensures value { IfSome result (λ b. Stays self.now (λ types. b ≡ are_pointers_assignable (type_in types t) (type_in types u))) }
    {
        let keeps = self.keeps_qualifiers(t, u)?;
        let alike = self.point_alike(t, u)?;
        let from_object = self.void_and_object(t, u)?;
        let to_object = self.object_and_void(t, u)?;
        Some(keeps && (alike || from_object || to_object))
    }

    // A pointer to void, and one to an object.
    fn void_and_object(&self, t: TypeId, u: TypeId) -> Option<bool>
        ensures rows { IsSome result ↔ ((t.place < length self.now) × (u.place < length self.now)) }
        ensures value { IfSome result (λ b. Stays self.now (λ types. b ≡ (is_pointer_to_void (type_in types t) && is_pointer_to_object (type_in types u)))) }
    {
        let void = self.is_pointer_to_void(t)?;
        let object = self.is_pointer_to_object(u)?;
        Some(void && object)
    }

    // A pointer to an object, and one to void.
    fn object_and_void(&self, t: TypeId, u: TypeId) -> Option<bool>
        ensures rows { IsSome result ↔ ((t.place < length self.now) × (u.place < length self.now)) }
        ensures value { IfSome result (λ b. Stays self.now (λ types. b ≡ (is_pointer_to_object (type_in types t) && is_pointer_to_void (type_in types u)))) }
    {
        let object = self.is_pointer_to_object(t)?;
        let void = self.is_pointer_to_void(u)?;
        Some(object && void)
    }

    /// Whether it is `_Bool`.
    pub fn is_truth_type(&self, t: TypeId) -> Option<bool>
        ensures row { IsSome result ↔ (t.place < length self.now) }
        ensures value { IfSome result (λ b. Stays self.now (λ types. b ≡ is_truth_type (type_in types t))) }
    {
        match self.scalar_of(t)? {
            Some(scalar) => Some(Scalar::Bool == scalar),
            None => Some(false),
        }
    }

    /// Whether a value of the second type can be assigned to the first. `null` says whether it counts as a null pointer constant.
    pub fn is_assignable(&self, t: TypeId, u: TypeId, null: bool) -> Option<bool>
        ensures rows { IsSome result ↔ ((t.place < length self.now) × (u.place < length self.now)) }
        ensures value { IfSome result (λ b. Stays self.now (λ types. b ≡ is_assignable (type_in types t) (type_in types u) null)) }
    {
        let integers = self.are_integers(t, u)?;
        let structs = self.are_structs_alike(t, u)?;
        let pointers = self.are_pointers_assignable(t, u)?;
        let pointer = self.is_pointer(t)?;
        let truth = self.is_truth_type(t)?;
        let from_pointer = self.is_pointer(u)?;
        Some(integers || structs || pointers || (pointer && null) || (truth && from_pointer))
    }

    /// Whether the second type can be cast to the first, C11 6.5.4.
    pub fn can_be_cast(&self, t: TypeId, u: TypeId, c: Constancy) -> Option<bool>
        ensures rows { IsSome result ↔ ((t.place < length self.now) × (u.place < length self.now)) }
        ensures value { IfSome result (λ b. Stays self.now (λ types. b ≡ can_be_cast (type_in types t) (type_in types u) (constancy_of c))) }
    {
        let void = self.is_void(t)?;
        let integers = self.are_integers(t, u)?;
        let pointer = self.is_pointer(t)?;
        let from_pointer = self.is_pointer(u)?;
        let from_integer = self.is_integer(u)?;
        Some(
            void || integers
                || (pointer && from_pointer)
                || (pointer && from_integer && is_zero(c)),
        )
    }
}

fn include(p: Quals, q: Quals) -> bool
    ensures { result ≡ include (view.qualifiers_of p) (view.qualifiers_of q) }
{
    (p.constant || !q.constant) && (p.volatile || !q.volatile)
}

fn is_zero(c: Constancy) -> bool
    ensures { result ≡ is_zero (constancy_of c) }
{
    match c {
        Constancy::Number(value) => value == 0,
        _ => false,
    }
}

fn is_null_constant(c: Constancy) -> bool
    ensures { result ≡ is_null_constant (constancy_of c) }
{
    match c {
        Constancy::NullConstant => true,
        _ => is_zero(c),
    }
}
