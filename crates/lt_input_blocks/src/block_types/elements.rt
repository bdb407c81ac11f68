// The types of elements, and whether a block of them may be made.

ghost use Rattle.std.specs.Prelude.{◌≡◌, List, IfOk, map, is_some, false};
ghost use Rattle.lt_tree.specs.Typing.Types.{CType, Struct, is_function};
ghost use Rattle.lt_tree.specs.Typing.TypeRows.{type_in};
ghost use Rattle.lt_tree.specs.Typing.EntityView.{structs_of};
ghost use Rattle.lt_tree.specs.Typing.Extents.{members_of};
ghost use Rattle.lt_tree.specs.Typing.ProgramView.{program_of};
ghost use Rattle.lt_entry.specs.Views.{numeral_view};
ghost use Rattle.lt_input_names.specs.Blocks.{base_of, element_of, program_types};
ghost use Rattle.lt_input_blocks.specs.Elements.{AreBlockTypes, IsAsked, IsElementOf, IsSmallCount};

use super::BlockTypes;
use crate::asked::{Asked, is_block};
use crate::cells::{cells_by, cells_of_structs, struct_at};
use crate::facts::{facts_at, facts_of_rows};
use crate::names::FileNames;
use lt_entry::Numeral;
use lt_input_names::{Base, ElementType, Kinds};
use lt_tables::{BareTypes, Tables};
use lt_tree::typed::{Program, StructType, TypeId};
use std::alloc::{AllocError, Global};

impl<'p> BlockTypes<'p> {
    /// The types that `block` lines name in a program.
    pub fn new(alloc: Global, program: &'p Program<'p>) -> Result<BlockTypes<'p>, AllocError>
        ensures program { IfOk result (λ it. it.program ≡ program.entry) }
        ensures types { IfOk result AreBlockTypes }
    {
        let kinds = Kinds::new(alloc, program)?;
        let names = FileNames::new(alloc, program)?;
        let facts = facts_of_rows(alloc, &program.table)?;
        let cells = cells_of_structs(alloc, &facts, &program.structs)?;
        let tables = Tables::new(alloc, program)?;
        let bare = BareTypes::new(alloc, program)?;
        Ok(BlockTypes {
            program,
            kinds,
            names,
            facts,
            cells,
            tables,
            bare,
        })
    }

    /// The type of the elements of a block that a line makes, if such a block may be made. More than 2^32 elements without cells end as want of memory
    /// does.
    pub fn element(
        &self,
        alloc: Global,
        ty: &[&[u8]],
        count: Numeral,
    ) -> Result<Option<ElementType>, AllocError>
        requires { AreBlockTypes self.now }
        ensures element { IfOk result (IsElementOf self.now.program.now (map (λ word. word.now) ty.now) (numeral_view count)) }
        ensures small { IfOk result (IsSmallCount (numeral_view count)) }
    {
        let Some(element) = self.names.type_named(alloc, ty)? else {
            return Ok(None);
        };
        if !is_block(self.asked(element), count) {
            return Ok(None);
        }
        if count.size >= 1 << 32 {
            return Err(AllocError);
        }
        Ok(Some(element))
    }

    // What is asked of a type.
    fn asked(&self, element: ElementType) -> Asked
        requires { AreBlockTypes self.now }
        ensures { IsAsked (program_of self.now.program.now).structs (element_of (program_types self.now.program.now) element) result }
    {
        if element.pointers == 0 {
            return self.asked_of_base(element.base);
        }
        Asked {
            has_size: true,
            is_pointer_to_function: element.pointers == 1 && self.is_function(element.base),
            cells: 1,
        }
    }

    fn asked_of_base(&self, base: Base) -> Asked
        requires { AreBlockTypes self.now }
        ensures { IsAsked (program_of self.now.program.now).structs (base_of (program_types self.now.program.now) base) result }
    {
        match base {
            Base::Row(t) => self.asked_of_row(t),
            Base::Num(_) => asked_of_plain(true, 1),
            Base::Void => asked_of_plain(false, 0),
            Base::Floating => asked_of_plain(false, 1),
            Base::Struct(number) => self.asked_of_struct(number),
        }
    }

    fn asked_of_row(&self, t: TypeId) -> Asked
        requires { AreBlockTypes self.now }
        ensures { IsAsked (program_of self.now.program.now).structs (type_in (program_types self.now.program.now) t) result }
    {
        let facts = facts_at(&self.facts, t);
        Asked {
            has_size: self.kinds.has_size(t),
            is_pointer_to_function: facts.are_elements_pointers_to_function,
            cells: cells_by(&self.cells, facts),
        }
    }

    fn asked_of_struct(&self, number: u32) -> Asked
        requires { AreBlockTypes self.now }
        ensures { IsAsked (program_of self.now.program.now).structs (Struct number) result }
    {
        asked_of_plain(
            is_complete(&self.program.structs, number),
            struct_at(&self.cells, number),
        )
    }

    fn is_function(&self, base: Base) -> bool
        requires { AreBlockTypes self.now }
        ensures { result ≡ is_function (base_of (program_types self.now.program.now) base) }
    {
        match base {
            Base::Row(t) => facts_at(&self.facts, t).is_function,
            Base::Num(_) | Base::Void | Base::Floating | Base::Struct(_) => false,
        }
    }
}

// Of a type that is no pointer.
fn asked_of_plain(has_size: bool, cells: u32) -> Asked
    ensures { result ≡ record { has_size = has_size; is_pointer_to_function = false; cells = cells } }
{
    Asked {
        has_size,
        is_pointer_to_function: false,
        cells,
    }
}

// Whether the struct of this number has members.
fn is_complete(structs: &[StructType], number: u32) -> bool
    ensures { (types : List CType) → result ≡ is_some (members_of (structs_of types structs.now) number) }
{
    match structs.get(number as usize) {
        None => false,
        Some(it) => it.members.is_some(),
    }
}
