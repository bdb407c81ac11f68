ghost use Rattle.std.specs.Prelude.{◌≡◌, ◌<◌, ◌↔◌, ◌||◌, ◌&&◌, List, length, is_some, IsSome, IfSome, IfOk};
ghost use Rattle.lt_tree.specs.Typing.Types.{CType};
ghost use Rattle.lt_tree.specs.Typing.TypeRows.{type_in};
ghost use Rattle.lt_tree.specs.Typing.Extents.{is_complete, has_size, has_too_many_cells, size_of, has_constant_part, member_of, placed_members};
ghost use Rattle.lt_tree.specs.Typing.Declarators.{is_incomplete};
ghost use Rattle.lt_tree.specs.Typing.Specifying.{is_complete_struct};
ghost use Rattle.lt_tree.specs.Typing.Operands.{is_movable, is_pointer_and_integer, can_be_added, can_be_subtracted, can_be_changed_by, can_be_subscripted, is_modifiable};
ghost use Rattle.lt_table.specs.TableRows.{Stays};
ghost use Rattle.lt_table.specs.StructTables.{shared_in, pairs_in, IsMember};
ghost use Rattle.lt_table.specs.TypesValue.{structs_at};

use super::Types;
use crate::structs::PlacedMember;
use lt_tree::typed::TypeId;
use std::alloc::AllocError;
use std::rc::Rc;

/// What a type is, its structs included. None for an id of no row.
impl Types {
    /// Whether an object of the type can be made.
    pub fn is_complete(&self, t: TypeId) -> Option<bool>
        ensures row { IsSome result ↔ (t.place < length self.now.rows) }
        ensures value { IfSome result (λ a. Stays self.now.rows (λ types. a ≡ is_complete (structs_at types self.now) (type_in types t))) }
    {
        self.structs.is_complete(&self.table, t)
    }

    /// Void, a struct that isn't complete, or an array of these.
    pub fn is_incomplete(&self, t: TypeId) -> Option<bool>
        ensures row { IsSome result ↔ (t.place < length self.now.rows) }
        ensures value { IfSome result (λ a. Stays self.now.rows (λ types. a ≡ is_incomplete (structs_at types self.now) (type_in types t))) }
    {
        self.structs.is_incomplete(&self.table, t)
    }

    /// Whether the type has a size here: floating types have none.
    pub fn has_size(&self, t: TypeId) -> Option<bool>
        ensures row { IsSome result ↔ (t.place < length self.now.rows) }
        ensures value { IfSome result (λ a. Stays self.now.rows (λ types. a ≡ has_size (structs_at types self.now) (type_in types t))) }
    {
        self.structs.has_size(&self.table, t)
    }

    /// Whether an object of the type has more cells than an object may have.
    pub fn has_too_many_cells(&self, t: TypeId) -> Option<bool>
        ensures row { IsSome result ↔ (t.place < length self.now.rows) }
        ensures value { IfSome result (λ a. Stays self.now.rows (λ types. a ≡ has_too_many_cells (structs_at types self.now) (type_in types t))) }
    {
        self.structs.has_too_many_cells(&self.table, t)
    }

    /// The size of a type in bytes; 0 where it has none, and where a number of bytes passes 64 bits.
    pub fn size_of(&self, t: TypeId) -> Option<u64>
        ensures row { IsSome result ↔ (t.place < length self.now.rows) }
        ensures value { IfSome result (λ a. Stays self.now.rows (λ types. a ≡ size_of self.now.model (structs_at types self.now) (type_in types t))) }
    {
        self.structs.size_of(&self.table, t)
    }

    /// Whether the type or a part of it is `const`.
    pub fn has_constant_part(&self, t: TypeId) -> Option<bool>
        ensures row { IsSome result ↔ (t.place < length self.now.rows) }
        ensures value { IfSome result (λ a. Stays self.now.rows (λ types. a ≡ has_constant_part (structs_at types self.now) (type_in types t))) }
    {
        self.structs.has_constant_part(&self.table, t)
    }

    /// Whether the struct of this number has its members.
    pub fn is_struct_complete(&self, number: u32) -> bool
        ensures { (types : List CType) → result ≡ is_complete_struct (structs_at types self.now) number }
    {
        self.structs.is_struct_complete(number)
    }

    /// The type and the offset of the member of a struct that has this name. None where there is none, and behind a member that has no size.
    pub fn member_of(&self, number: u32, name: &[u8]) -> Option<(TypeId, u64)>
        ensures { Stays self.now.rows (λ types. IsMember types result (member_of self.now.model (structs_at types self.now) number name.now)) }
    {
        self.structs.member_of(number, name)
    }

    /// The types and the offsets of the members of a struct, up to the first that has no size. None of a struct that is incomplete.
    pub fn placed_members(&self, number: u32) -> Result<Option<Rc<Vec<PlacedMember>>>, AllocError>
        ensures { IfOk result (λ them. Stays self.now.rows (λ types. shared_in types them ≡ pairs_in (placed_members self.now.model (structs_at types self.now) number))) }
    {
        self.structs.placed_members(number)
    }

    /// How many structs there are.
    pub fn struct_count(&self) -> usize
        ensures { result ≡ length self.now.structs }
    {
        self.structs.len()
    }

    /// Whether it is a pointer that can be moved by elements.
    pub fn is_movable(&self, t: TypeId) -> Option<bool>
        ensures row { IsSome result ↔ (t.place < length self.now.rows) }
        ensures value { IfSome result (λ a. Stays self.now.rows (λ types. a ≡ is_movable (structs_at types self.now) (type_in types t))) }
    {
        match self.table.target_of(t)? {
            Some(target) => self.has_size(target),
            None => Some(false),
        }
    }

    /// Whether the first is such a pointer and the second an integer.
    pub fn is_pointer_and_integer(&self, t: TypeId, u: TypeId) -> Option<bool>
        ensures rows { IsSome result ↔ ((t.place < length self.now.rows) × (u.place < length self.now.rows)) }
        ensures value { IfSome result (λ a. Stays self.now.rows (λ types. a ≡ is_pointer_and_integer (structs_at types self.now) (type_in types t) (type_in types u))) }
    {
        let movable = self.is_movable(t)?;
        let integer = self.table.is_integer(u)?;
        Some(movable && integer)
    }

    /// Whether these can be the operands of `a + b`, C11 6.5.6.
    pub fn can_be_added(&self, t: TypeId, u: TypeId) -> Option<bool>
        ensures rows { IsSome result ↔ ((t.place < length self.now.rows) × (u.place < length self.now.rows)) }
        ensures value { IfSome result (λ a. Stays self.now.rows (λ types. a ≡ can_be_added (structs_at types self.now) (type_in types t) (type_in types u))) }
    {
        let integers = self.table.are_integers(t, u)?;
        let left = self.is_pointer_and_integer(t, u)?;
        let right = self.is_pointer_and_integer(u, t)?;
        Some(integers || left || right)
    }

    /// Whether these can be the operands of `a - b`, C11 6.5.6.
    pub fn can_be_subtracted(&self, t: TypeId, u: TypeId) -> Option<bool>
        ensures rows { IsSome result ↔ ((t.place < length self.now.rows) × (u.place < length self.now.rows)) }
        ensures value { IfSome result (λ a. Stays self.now.rows (λ types. a ≡ can_be_subtracted (structs_at types self.now) (type_in types t) (type_in types u))) }
    {
        let integers = self.table.are_integers(t, u)?;
        let moved = self.is_pointer_and_integer(t, u)?;
        let left = self.is_movable(t)?;
        let right = self.is_movable(u)?;
        let alike = self.table.point_alike(t, u)?;
        Some(integers || moved || (left && right && alike))
    }

    /// Whether these can be the operands of `a += b` and `a -= b`, and with `int` of `++` and `--`.
    pub fn can_be_changed_by(&self, t: TypeId, u: TypeId) -> Option<bool>
        ensures rows { IsSome result ↔ ((t.place < length self.now.rows) × (u.place < length self.now.rows)) }
        ensures value { IfSome result (λ a. Stays self.now.rows (λ types. a ≡ can_be_changed_by (structs_at types self.now) (type_in types t) (type_in types u))) }
    {
        let integers = self.table.are_integers(t, u)?;
        let moved = self.is_pointer_and_integer(t, u)?;
        Some(integers || moved)
    }

    /// Whether these can be the operands of `a[b]`, C11 6.5.2.1.
    pub fn can_be_subscripted(&self, t: TypeId, u: TypeId) -> Option<bool>
        ensures rows { IsSome result ↔ ((t.place < length self.now.rows) × (u.place < length self.now.rows)) }
        ensures value { IfSome result (λ a. Stays self.now.rows (λ types. a ≡ can_be_subscripted (structs_at types self.now) (type_in types t) (type_in types u))) }
    {
        let left = self.is_pointer_and_integer(t, u)?;
        let right = self.is_pointer_and_integer(u, t)?;
        Some(left || right)
    }

    /// Whether an lvalue of the type may be changed: it is neither an array nor incomplete nor `const`, also in its parts, C11 6.3.2.1.
    pub fn is_modifiable(&self, t: TypeId) -> Option<bool>
        ensures row { IsSome result ↔ (t.place < length self.now.rows) }
        ensures value { IfSome result (λ a. Stays self.now.rows (λ types. a ≡ is_modifiable (structs_at types self.now) (type_in types t))) }
    {
        let array = self.table.is_array(t)?;
        let complete = self.is_complete(t)?;
        let constant = self.has_constant_part(t)?;
        Some(!array && complete && !constant)
    }
}
