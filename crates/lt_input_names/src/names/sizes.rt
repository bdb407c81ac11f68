// What the types of parts are made of, and their sizes.

ghost use Rattle.std.specs.Prelude.{◌≡◌, option_map};
ghost use Rattle.lt_tree.specs.Typing.Types.{struct_of};
ghost use Rattle.lt_tree.specs.Typing.Extents.{size_of};
ghost use Rattle.lt_input_names.specs.Kinds.{array_of};
ghost use Rattle.lt_input_names.specs.Parts.{array_at, element_part, row_element};
ghost use Rattle.lt_input_names.specs.Blocks.{element_of};
ghost use Rattle.lt_input_names.specs.Views.{AreNames, program_at, types_at, type_at};

use super::Names;
use crate::block::{Base, ElementType};
use crate::facts::Elements;
use crate::part::{ArrayType, PartType};
use lt_table::{pointer_extent, scalar_extent};
use lt_tree::typed::TypeId;

impl<'p> Names<'p> {
    /// What the elements of an array are.
    pub(super) fn array(&self, ty: PartType) -> Option<ArrayType>
        requires { AreNames self.now }
        ensures { option_map (array_at (types_at self.now)) result ≡ array_of (type_at self.now ty) }
    {
        let element = ty.element;
        match ty.count {
            None => self.array_element(element),
            Some(count) => Some(ArrayType { element, count }),
        }
    }

    // What the elements of an array are.
    fn array_element(&self, ty: ElementType) -> Option<ArrayType>
        requires { AreNames self.now }
        ensures { option_map (array_at (types_at self.now)) result ≡ array_of (element_of (types_at self.now) ty) }
    {
        if ty.pointers > 0 {
            return None;
        }
        match ty.base {
            Base::Row(t) => self.kinds.array(t).map(array_of_elements),
            Base::Num(_) | Base::Void | Base::Floating | Base::Struct(_) => None,
        }
    }

    /// The number of the struct that a part is.
    pub(super) fn struct_number(&self, ty: PartType) -> Option<u32>
        requires { AreNames self.now }
        ensures { result ≡ struct_of (type_at self.now ty) }
    {
        if ty.count.is_some() {
            return None;
        }
        if ty.element.pointers > 0 {
            return None;
        }
        match ty.element.base {
            Base::Row(t) => self.kinds.struct_number(t),
            Base::Struct(number) => Some(number),
            Base::Num(_) | Base::Void | Base::Floating => None,
        }
    }

    /// The size of an element; 0 of one that has none.
    pub(super) fn element_size(&self, element: ElementType) -> u64
        requires { AreNames self.now }
        ensures { result ≡ size_of (program_at self.now).model (program_at self.now).structs (element_of (types_at self.now) element) }
    {
        if element.pointers > 0 {
            return pointer_extent(self.model()).size;
        }
        match element.base {
            Base::Row(t) => self.layouts.size(t),
            Base::Num(scalar) => scalar_extent(self.model(), scalar).size,
            Base::Struct(number) => self.layouts.struct_size(number),
            Base::Void | Base::Floating => 0,
        }
    }
}

/// The type of a row, as that of elements.
pub(super) fn row_element(t: TypeId) -> ElementType
    ensures { result ≡ row_element t }
{
    ElementType {
        base: Base::Row(t),
        pointers: 0,
    }
}

// An array whose elements are of the type of a row.
fn array_of_elements(elements: Elements) -> ArrayType
    ensures { result ≡ record { element = row_element elements.ty; count = elements.count } }
{
    ArrayType {
        element: row_element(elements.ty),
        count: elements.count,
    }
}

/// The type of an element, as that of a part.
pub(super) fn element_part(element: ElementType) -> PartType
    ensures { result ≡ element_part element }
{
    PartType {
        element,
        count: None,
    }
}
