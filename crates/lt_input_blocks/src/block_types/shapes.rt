// The cells and the sizes of blocks.

ghost use Rattle.std.specs.Prelude.{◌≡◌, ◌*◌, ◌∷◌, ◌≤◌, [], IfOk};
ghost use Rattle.lt_tree.specs.Typing.Types.{Array};
ghost use Rattle.lt_tree.specs.Typing.TypeRows.{types_of_rows};
ghost use Rattle.lt_tree.specs.Typing.ProgramView.{program_of};
ghost use Rattle.lt_tree.specs.Typing.Shapes.{repeated};
ghost use Rattle.lt_meaning.specs.Expressions.{shape};
ghost use Rattle.lt_tables.specs.Interned.{IsIdOf, Keeps, number_among};
ghost use Rattle.lt_input_names.specs.Blocks.{base_of, element_of, program_types};
ghost use Rattle.lt_input_blocks.specs.Elements.{AreBlockTypes};

use super::BlockTypes;
use lt_input_names::{Base, ElementType};
use lt_model::{CellType, Sequence, Shape, ShapeCell};
use lt_table::{pointer_extent, scalar_extent};
use lt_tables::BareTypes;
use lt_tree::typed::TypeId;
use std::alloc::{AllocError, Global};

impl<'p> BlockTypes<'p> {
    /// The cells and the size of a block.
    pub fn shape(
        &mut self,
        alloc: Global,
        element: ElementType,
        count: u32,
    ) -> Result<Shape, AllocError>
        requires { AreBlockTypes self.old }
        ensures types { AreBlockTypes self.new }
        ensures program { self.new.program ≡ self.old.program }
        ensures shape { IfOk result (λ it. it ≡ shape (program_of self.old.program.now) (Array (element_of (program_types self.old.program.now) element) count)) }
    {
        if element.pointers == 0 {
            return self.base_shape(alloc, element.base, count);
        }
        let size = pointer_extent(self.program.model).size;
        let number = number_of(&mut self.bare, element)?;
        plain_shape(alloc, CellType::Pointer(number), size, count)
    }

    // Of an array of so many of a base.
    fn base_shape(&self, alloc: Global, base: Base, count: u32) -> Result<Shape, AllocError>
        requires { AreBlockTypes self.now }
        ensures { IfOk result (λ it. it ≡ shape (program_of self.now.program.now) (Array (base_of (program_types self.now.program.now) base) count)) }
    {
        match base {
            Base::Row(t) => self.tables.array_shape(alloc, t, count),
            Base::Struct(number) => self.tables.struct_shape(alloc, number, count),
            Base::Num(scalar) => {
                let size = scalar_extent(self.program.model, scalar).size;
                plain_shape(alloc, CellType::Num(scalar), size, count)
            }
            Base::Void => Ok(no_shape(alloc)),
            Base::Floating => Ok(no_shape(alloc)),
        }
    }
}

// Of what has no cells.
fn no_shape(alloc: Global) -> Shape
    ensures { result ≡ record { cells = []; size = 0 } }
{
    Shape {
        cells: Sequence::new(Vec::new(alloc)),
        size: 0,
    }
}

// Of so many cells of a type of this size.
#[tactic(auto, using(crate::proofs::ShapeLaws::plain_end))]
fn plain_shape(alloc: Global, ty: CellType, size: u64, count: u32) -> Result<Shape, AllocError>
    requires { size ≤ 8 }
    ensures { IfOk result (λ it. it ≡ record { cells = repeated count size (λ offset. record { offset = offset; ty = ty } ∷ []) 0; size = size * count }) }
{
    let mut cells = Vec::new(alloc);
    for place in 0..count {
        let offset = size * u64::from(place);
        cells.push(ShapeCell { offset, ty })?;
    }
    Ok(Shape {
        cells: Sequence::new(cells),
        size: size * u64::from(count),
    })
}

// The number by which memory names pointers of a type.
fn number_of(bare: &mut BareTypes<'_>, element: ElementType) -> Result<u32, AllocError>
    ensures keeps { Keeps bare.old bare.new }
    ensures number { IfOk result (λ n. n ≡ number_among (program_of bare.old.program.now).types (element_of (types_of_rows bare.old.program.now.table.items) element)) }
{
    let mut id = base_id(bare, element.base)?;
    for _pointer in 0..element.pointers {
        id = bare.pointer(id)?;
    }
    Ok(bare.number(id))
}

fn base_id(bare: &mut BareTypes<'_>, base: Base) -> Result<TypeId, AllocError>
    ensures keeps { Keeps bare.old bare.new }
    ensures id { IfOk result (IsIdOf bare.new (base_of (types_of_rows bare.old.program.now.table.items) base)) }
{
    match base {
        Base::Row(t) => Ok(bare.of_row(t)),
        Base::Void => Ok(bare.void()),
        Base::Num(scalar) => bare.num(scalar),
        Base::Floating => bare.floating(),
        Base::Struct(number) => bare.structure(number),
    }
}
