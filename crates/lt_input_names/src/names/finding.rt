// What is found by names.

ghost use Rattle.std.specs.Prelude.{◌≡◌, ◌<◌, ◌-◌, None, IfOk, OnOk, is_some, option_map};
ghost use Rattle.lt_tree.specs.Typing.Types.{scalar_of, target_of};
ghost use Rattle.lt_entry.specs.Conditions.{stubs_of, stub_among};
ghost use Rattle.lt_entry.specs.Naming.{roots, root_among};
ghost use Rattle.lt_input_names.specs.Blocks.{scope_with};
ghost use Rattle.lt_input_names.specs.Roots.{root_at};
ghost use Rattle.lt_input_names.specs.Views.{AreNames, AreNew, HasAdded, scope_of, program_at, types_at, type_at};

use super::Names;
use crate::block::{Base, Block, ElementType, LineBlock};
use crate::kinds::Kinds;
use crate::part::{PartType, Root};
use crate::roots::{put_line_block, roots_of, row_type};
use crate::stubs::types_of_stubs;
use lt_model::{DataModel, Scalar};
use lt_tables::{BareTypes, Layouts};
use lt_tree::typed::Program;
use std::alloc::{AllocError, Global};

impl<'p> Names<'p> {
    /// What names stand for where the function of this number among those with bodies is the entry, and these are the blocks.
    pub fn new(
        alloc: Global,
        program: &'p Program<'p>,
        entry: u32,
        blocks: &'p [Block],
    ) -> Result<Names<'p>, AllocError>
        ensures scope { IfOk result (λ names. scope_of names ≡ scope_with program.now entry blocks.now) }
        ensures names { IfOk result AreNames }
        ensures fresh { IfOk result (AreNew program.now) }
    {
        let kinds = Kinds::new(alloc, program)?;
        let roots = roots_of(alloc, program, entry, blocks)?;
        let stubs = types_of_stubs(alloc, &kinds)?;
        let layouts = Layouts::new(alloc, program)?;
        let bare = BareTypes::new(alloc, program)?;
        Ok(Names {
            kinds,
            layouts,
            bare,
            entry,
            added: Vec::new(alloc),
            blocks,
            roots,
            stubs,
        })
    }

    /// The data model of the program.
    pub fn model(&self) -> DataModel
        ensures { result ≡ (program_at self.now).model }
    {
        self.kinds.program.model
    }

    /// The integer type that a part has.
    pub fn scalar(&self, ty: PartType) -> Option<Scalar>
        requires { AreNames self.now }
        ensures { result ≡ scalar_of (type_at self.now ty) }
    {
        if ty.count.is_some() {
            return None;
        }
        if ty.element.pointers > 0 {
            return None;
        }
        match ty.element.base {
            Base::Row(t) => self.kinds.scalar(t),
            Base::Num(scalar) => Some(scalar),
            Base::Void | Base::Floating | Base::Struct(_) => None,
        }
    }

    /// What a part points to, if it is a pointer.
    pub fn target(&self, ty: PartType) -> Option<PartType>
        requires { AreNames self.now }
        ensures { option_map (type_at self.now) result ≡ target_of (type_at self.now ty) }
    {
        if ty.count.is_some() {
            return None;
        }
        if ty.element.pointers > 0 {
            return Some(pointed_to(ty.element));
        }
        match ty.element.base {
            Base::Row(t) => self.kinds.target(t).map(row_type),
            Base::Num(_) | Base::Void | Base::Floating | Base::Struct(_) => None,
        }
    }

    /// The integer type that a function without a body gives, if there is one of this name.
    pub fn stub(&self, name: &[u8]) -> Option<Scalar>
        requires { AreNames self.now }
        ensures { result ≡ stub_among name.now (stubs_of (program_at self.now)) }
    {
        self.stubs.get(name).copied()
    }

    /// Whether an object has this name.
    pub fn has(&self, name: &[u8]) -> bool
        requires { AreNames self.now }
        ensures { result ≡ is_some (root_among (roots (scope_of self.now)) name.now) }
    {
        self.root(name).is_some()
    }

    /// A further block, behind those that lines made before, where no object has its name.
    pub fn add(&mut self, block: LineBlock<'p>) -> Result<(), AllocError>
        requires names { AreNames self.old }
        requires new { root_among (roots (scope_of self.old)) block.name.now ≡ None }
        ensures names { OnOk result (AreNames self.new) }
        ensures added { OnOk result (HasAdded self.old self.new block.entry) }
    {
        self.added.push(block)?;
        put_line_block(&mut self.roots, block)?;
        Ok(())
    }

    // The object of this name.
    pub(super) fn root(&self, name: &[u8]) -> Option<Root>
        requires { AreNames self.now }
        ensures { option_map (root_at (types_at self.now) name.now) result ≡ root_among (roots (scope_of self.now)) name.now }
    {
        self.roots.get(name).copied()
    }
}

// That to which a pointer points.
fn pointed_to(element: ElementType) -> PartType
    requires { 0 < element.pointers }
    ensures { result ≡ record { element = record element { pointers = element.pointers - 1 }; count = None } }
{
    PartType {
        element: ElementType {
            base: element.base,
            pointers: element.pointers - 1,
        },
        count: None,
    }
}
