// Which types are the same, qualifiers aside.

ghost use Rattle.std.specs.Prelude.{◌≡◌, option_map};
ghost use Rattle.lt_tree.specs.Typing.Types.{Array, target_of, is_void, is_floating};
ghost use Rattle.lt_tree.specs.Typing.TypeRows.{type_in};
ghost use Rattle.lt_entry.specs.Naming.{is_pointed};
ghost use Rattle.lt_input_names.specs.Kinds.{bare_array_of, elements_in};
ghost use Rattle.lt_input_names.specs.Blocks.{base_of, element_of, pointers};
ghost use Rattle.lt_input_names.specs.Parts.{has_scalar, has_number, base_part};
ghost use Rattle.lt_input_names.specs.Views.{AreNames, types_at, type_at};

use super::Names;
use super::sizes::row_element;
use crate::block::{Base, ElementType};
use crate::facts::Elements;
use crate::part::PartType;
use lt_model::Scalar;
use lt_tree::typed::TypeId;

impl<'p> Names<'p> {
    /// Whether a type is that to which a pointer points.
    pub(super) fn is_pointed(&self, pointed: PartType, ty: PartType) -> bool
        requires { AreNames self.now }
        ensures { result ≡ is_pointed (type_at self.now pointed) (type_at self.now ty) }
    {
        match pointed.count {
            None => match ty.count {
                None => self.are_same(pointed.element, ty.element),
                Some(count) => self.is_array(pointed.element, ty.element, count),
            },
            Some(count) => match ty.count {
                None => self.is_array(ty.element, pointed.element, count),
                Some(other) => count == other && self.are_same(pointed.element, ty.element),
            },
        }
    }

    // Whether a type is an array of so many of these elements.
    fn is_array(&self, ty: ElementType, element: ElementType, count: u32) -> bool
        requires { AreNames self.now }
        ensures { result ≡ is_pointed (element_of (types_at self.now) ty) (Array (element_of (types_at self.now) element) count) }
    {
        match self.bare_array(ty) {
            None => false,
            Some(array) => { array.count == count && self.are_same(row_element(array.ty), element) }
        }
    }

    // What the elements of an array are.
    fn bare_array(&self, ty: ElementType) -> Option<Elements>
        requires { AreNames self.now }
        ensures { option_map (elements_in (types_at self.now)) result ≡ bare_array_of (element_of (types_at self.now) ty) }
    {
        if ty.pointers > 0 {
            return None;
        }
        match ty.base {
            Base::Row(t) => self.kinds.bare_array(t),
            Base::Num(_) | Base::Void | Base::Floating | Base::Struct(_) => None,
        }
    }

    // Whether these are the same.
    fn are_same(&self, a: ElementType, b: ElementType) -> bool
        requires { AreNames self.now }
        ensures { result ≡ is_pointed (element_of (types_at self.now) a) (element_of (types_at self.now) b) }
    {
        if a.pointers <= b.pointers {
            return self.is_behind(a.base, b.base, b.pointers - a.pointers);
        }
        self.is_behind(b.base, a.base, a.pointers - b.pointers)
    }

    // Whether a type is another behind so many pointers.
    fn is_behind(&self, it: Base, base: Base, depth: u32) -> bool
        requires { AreNames self.now }
        ensures { result ≡ is_pointed (base_of (types_at self.now) it) (pointers depth (base_of (types_at self.now) base)) }
    {
        let mut inner = it;
        'turns: for _turn in 0..depth {
            match self.pointed_base(inner) {
                None => return false,
                Some(t) => inner = Base::Row(t),
            }
        }
        self.is_base(inner, base)
    }

    // What a type points to.
    fn pointed_base(&self, it: Base) -> Option<TypeId>
        requires { AreNames self.now }
        ensures { option_map (type_in (types_at self.now)) result ≡ target_of (base_of (types_at self.now) it) }
    {
        match it {
            Base::Row(t) => self.kinds.target(t),
            Base::Num(_) | Base::Void | Base::Floating | Base::Struct(_) => None,
        }
    }

    // Whether these are the same.
    fn is_base(&self, it: Base, base: Base) -> bool
        requires { AreNames self.now }
        ensures { result ≡ is_pointed (base_of (types_at self.now) it) (base_of (types_at self.now) base) }
    {
        match it {
            Base::Row(t) => self.is_row(t, base),
            Base::Num(scalar) => has_scalar(self.scalar(base_part(base)), scalar),
            Base::Void => self.is_void(base),
            Base::Floating => self.is_floating(base),
            Base::Struct(number) => has_number(self.struct_number(base_part(base)), number),
        }
    }

    // Whether the type of a row is another.
    fn is_row(&self, t: TypeId, base: Base) -> bool
        requires { AreNames self.now }
        ensures { result ≡ is_pointed (type_in (types_at self.now) t) (base_of (types_at self.now) base) }
    {
        match base {
            Base::Row(u) => self.bare.same(t, u),
            Base::Num(scalar) => has_scalar(self.kinds.scalar(t), scalar),
            Base::Void => self.kinds.is_void(t),
            Base::Floating => self.kinds.is_floating(t),
            Base::Struct(number) => has_number(self.kinds.struct_number(t), number),
        }
    }

    fn is_void(&self, base: Base) -> bool
        requires { AreNames self.now }
        ensures { result ≡ is_void (base_of (types_at self.now) base) }
    {
        match base {
            Base::Row(t) => self.kinds.is_void(t),
            Base::Void => true,
            Base::Num(_) | Base::Floating | Base::Struct(_) => false,
        }
    }

    fn is_floating(&self, base: Base) -> bool
        requires { AreNames self.now }
        ensures { result ≡ is_floating (base_of (types_at self.now) base) }
    {
        match base {
            Base::Row(t) => self.kinds.is_floating(t),
            Base::Floating => true,
            Base::Num(_) | Base::Void | Base::Struct(_) => false,
        }
    }
}

// The type itself, as that of a part.
fn base_part(base: Base) -> PartType
    ensures { result ≡ base_part base }
{
    PartType {
        element: ElementType { base, pointers: 0 },
        count: None,
    }
}

fn has_scalar(found: Option<Scalar>, scalar: Scalar) -> bool
    ensures { result ≡ has_scalar scalar found }
{
    match found {
        None => false,
        Some(it) => it == scalar,
    }
}

fn has_number(found: Option<u32>, number: u32) -> bool
    ensures { result ≡ has_number number found }
{
    match found {
        None => false,
        Some(it) => it == number,
    }
}
