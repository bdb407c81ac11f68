// The objects that are there from the start, and what they hold first.

ghost use Rattle.std.specs.Prelude.{◌≡◌, true, IfOk, map};
ghost use Rattle.lt_model.specs.Memory.{new_cell};
ghost use Rattle.lt_meaning.specs.Statements.{parts_in};
ghost use Rattle.lt_tree.specs.Typing.Entities.{is_sealed};
ghost use Rattle.lt_tree.specs.Typing.EntityView.{object_of};
ghost use Rattle.lt_tree.specs.Typing.ConstancyView.{constancy_of};
ghost use Rattle.lt_tree.specs.Typing.StatementView.{start_part_of};
ghost use Rattle.lt_meaning.specs.Runs.{fixed_content, part_in, initial, initials, all_parts_in};
ghost use Rattle.lt_tables.specs.Objects.{AreBlocksOf};
ghost use Rattle.lt_tables.specs.Filling.{AreOffsets};
ghost use Rattle.lt_tables.specs.Views.{types_at, program_at};

use crate::filling::{contents_of, name_in_files, new_cells, offsets_of, put, put_letters};
use crate::objects::{Blocks, blocks_of, is_made_first};
use crate::places::places_of_offsets;
use crate::tables::Tables;
use lt_ir::Static;
use lt_model::{Address, BlockIn, Content, Sequence, ShapeCell, StoredCell};
use lt_tree::typed::{Constancy, Life, Object, StartPart};
use std::alloc::{AllocError, Global};
use std::collections::BTreeMap;

impl<'p> Tables<'p> {
    /// The objects that are there from the start.
    pub fn statics(&self, alloc: Global) -> Result<Vec<Static>, AllocError>
        ensures { IfOk result (λ all. all.items ≡ initials (program_at self.now) (program_at self.now).objects) }
    {
        let blocks = blocks_of(alloc, &self.program.objects)?;
        let mut all = Vec::new(alloc);
        for object in &self.program.objects {
            if is_made_first(object.life) {
                all.push(self.initial(alloc, &blocks, object)?)?;
            }
        }
        Ok(all)
    }

    // An object that is there from the start.
    fn initial(&self, alloc: Global, blocks: &Blocks, object: &Object) -> Result<Static, AllocError>
        requires { AreBlocksOf self.now.program.now.objects.items blocks.now }
        ensures { IfOk result (λ it. it ≡ initial (program_at self.now) (object_of (types_at self.now) object.now)) }
    {
        let shape = self.shape(alloc, object.ty)?;
        let cells = self.started_cells(alloc, blocks, object, shape.cells.as_slice())?;
        let name = name_in_files(alloc, object)?;
        Ok(Static {
            block: BlockIn { name, shape },
            cells: Sequence::new(contents_of(alloc, &cells)?),
            writable: !self.is_object_sealed(object),
        })
    }

    // Whether an object can't be written once it has its first value.
    pub(super) fn is_object_sealed(&self, object: &Object) -> bool
        ensures { result ≡ is_sealed (object_of (types_at self.now) object.now) }
    {
        object.life == Life::Literal || self.facts(object.ty).is_constant
    }

    // The cells of an object, which has these, with what they hold first.
    fn started_cells(
        &self,
        alloc: Global,
        blocks: &Blocks,
        object: &Object,
        shape: &[ShapeCell],
    ) -> Result<Vec<StoredCell>, AllocError>
        requires { AreBlocksOf self.now.program.now.objects.items blocks.now }
        ensures { IfOk result (λ cells. cells.items ≡ all_parts_in (program_at self.now) (parts_in (object_of (types_at self.now) object.now).start) (map (new_cell true) shape.now)) }
    {
        let cells = new_cells(alloc, shape)?;
        match &object.start {
            None => Ok(cells),
            Some(start) => self.with_parts(alloc, blocks, cells, &start.parts),
        }
    }

    // Cells with what these parts hold first.
    fn with_parts(
        &self,
        alloc: Global,
        blocks: &Blocks,
        cells: Vec<StoredCell>,
        parts: &[StartPart],
    ) -> Result<Vec<StoredCell>, AllocError>
        requires { AreBlocksOf self.now.program.now.objects.items blocks.now }
        ensures { IfOk result (λ all. all.items ≡ all_parts_in (program_at self.now) (map (start_part_of (types_at self.now)) parts.now) cells.items) }
    {
        let mut all = cells;
        let places = places_of_offsets(alloc, &offsets_of(alloc, &all)?)?;
        self.put_parts(blocks, &places, &mut all, parts);
        Ok(all)
    }

    // What these parts hold first goes into the cells, whose offsets stand at these places.
    fn put_parts(
        &self,
        blocks: &Blocks,
        places: &BTreeMap<u128, usize>,
        cells: &mut [StoredCell],
        parts: &[StartPart],
    )
        requires blocks { AreBlocksOf self.now.program.now.objects.items blocks.now }
        requires places { AreOffsets places.now cells.old }
        ensures { cells.new ≡ all_parts_in (program_at self.now) (map (start_part_of (types_at self.now)) parts.now) cells.old }
    {
        for part in parts {
            self.put_part(blocks, places, cells, part);
        }
    }

    // What a part of an object holds first goes into its cells, whose offsets stand at these places.
    fn put_part(
        &self,
        blocks: &Blocks,
        places: &BTreeMap<u128, usize>,
        cells: &mut [StoredCell],
        part: &StartPart,
    )
        requires blocks { AreBlocksOf self.now.program.now.objects.items blocks.now }
        requires places { AreOffsets places.now cells.old }
        ensures { cells.new ≡ part_in (program_at self.now) (start_part_of (types_at self.now) part.now) cells.old }
    {
        let model = self.program.model;
        match part {
            StartPart::Stored { .. } => {}
            StartPart::Fixed {
                offset,
                content,
                ..
            } => put(
                model,
                places,
                cells,
                u128::from(*offset),
                self.fixed_content(blocks, *content),
            ),
            StartPart::Letters { offset, bytes, .. } => {
                put_letters(model, places, cells, *offset, bytes.as_slice())
            }
        }
    }

    // What a scalar holds first that starts as a constant.
    fn fixed_content(&self, blocks: &Blocks, constancy: Constancy) -> Content
        requires { AreBlocksOf self.now.program.now.objects.items blocks.now }
        ensures { result ≡ fixed_content (program_at self.now) (constancy_of constancy) }
    {
        match constancy {
            Constancy::Number(z) => Content::Number(z),
            Constancy::Address { object, offset } => Content::Address(Some(Address {
                block: blocks.block(object),
                offset,
            })),
            _ => Content::Address(None),
        }
    }
}
