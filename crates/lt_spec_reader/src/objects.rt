//! The cells of the program's objects that lines free.

ghost use Rattle.std.specs.Prelude.{◌≡◌, ◌++◌, IfOk, OnOk, List, map, flat_map, option_map, option_to_list};
ghost use Rattle.std.specs.List.{filter, zip};
ghost use Rattle.lt_tree.specs.Typing.ProgramView.{program_of};
ghost use Rattle.lt_entry.specs.Naming.{Scope};
ghost use Rattle.lt_entry.specs.SpecificationLines.{Line};
ghost use Rattle.lt_entry.specs.Meaning.{freed_unless_hidden};
ghost use Rattle.lt_input_specs.specs.Defaults.{root_of};
ghost use Rattle.lt_spec_reader.specs.Said.{HasSaid};
ghost use Rattle.lt_spec_reader.specs.Objects as freed;

use crate::cells::copied;
use crate::own::own_names;
use lt_input_wants::Wants;
use lt_ir::Static;
use lt_model::{Address, Content, FreeCell, Name, Place, ShapeCell, StartValue};
use lt_tables::Tables;
use lt_tree::typed::{Life, Object};
use std::alloc::{AllocError, Global};
use std::collections::HashSet;

/// What is looked up of objects of a program.
#[derive(Drop)]
pub struct Lookups<'h, 'p, 'v, 'w> {
    /// The names of the parameters.
    pub hidden: HashSet<&'h [u8]>,
    /// The objects that are there from the start, in the order of their blocks.
    pub firsts: Vec<&'p Object>,
    pub wants: &'v Wants<'w>,
}

impl Lookups<'_, '_, '_, '_> {
    // Whether files can name an object: it has linkage, and no parameter has its name.
    fn is_nameable(&self, object: &Object) -> bool
        ensures { result ≡ freed.is_nameable self.now object.now }
    {
        object.life == Life::Linked && !self.hidden.contains(object.name.as_slice())
    }

    // What an address names.
    fn target(&self, alloc: Global, at: Address) -> Result<StartValue, AllocError>
        ensures { IfOk result (λ it. it ≡ freed.target_by self.now at) }
    {
        let Some(object) = self.firsts.get(at.block as usize) else {
            return Ok(StartValue::Other);
        };
        if !self.is_nameable(object) {
            return Ok(StartValue::Other);
        }
        Ok(StartValue::Point(Some(Place {
            root: Name::new(alloc, object.name.as_slice())?,
            offset: at.offset,
        })))
    }

    // What an object holds first, as files name it.
    fn start(&self, alloc: Global, holds: Content) -> Result<StartValue, AllocError>
        ensures { IfOk result (λ it. it ≡ freed.start_by self.now holds) }
    {
        match holds {
            Content::Number(z) => Ok(StartValue::Number(z)),
            Content::Address(None) => Ok(StartValue::Point(None)),
            Content::Address(Some(at)) => self.target(alloc, at),
            Content::Unset => Ok(StartValue::Other),
        }
    }

    // A cell of the object of this name, if something is said of it.
    fn cell(
        &self,
        alloc: Global,
        name: &[u8],
        it: ShapeCell,
        holds: Content,
    ) -> Result<Option<FreeCell>, AllocError>
        ensures { IfOk result (λ cell. cell ≡ freed.cell_by self.now name.now it holds) }
    {
        match self.wants.get(&(name, it.offset)) {
            None => Ok(None),
            Some(want) => Ok(Some(FreeCell {
                at: Place {
                    root: Name::new(alloc, name)?,
                    offset: it.offset,
                },
                ty: it.ty,
                want: copied(alloc, want)?,
                start: self.start(alloc, holds)?,
            })),
        }
    }

    // Behind these, a cell of the object of this name, if something is said of it.
    fn put_cell(
        &self,
        alloc: Global,
        cells: &mut Vec<FreeCell>,
        name: &[u8],
        it: ShapeCell,
        holds: Content,
    ) -> Result<(), AllocError>
        ensures { OnOk result (cells.new.items ≡ cells.old.items ++ option_to_list (freed.cell_by self.now name.now it holds)) }
    {
        if let Some(cell) = self.cell(alloc, name, it, holds)? {
            cells.push(cell)?;
        }
        Ok(())
    }

    // Behind these, the cells of the object of this name of which something is said.
    fn put_cells(
        &self,
        alloc: Global,
        cells: &mut Vec<FreeCell>,
        name: &[u8],
        shape: &[ShapeCell],
        contents: &[Content],
    ) -> Result<(), AllocError>
        ensures { OnOk result (cells.new.items ≡ cells.old.items ++ freed.cells_by self.now name.now shape.now contents.now) }
    {
        'cell: for (it, holds) in shape.iter().zip(contents.iter()) {
            self.put_cell(alloc, cells, name, *it, *holds)?;
        }
        Ok(())
    }

    // Behind these, the cells of an object that lines free.
    fn put_object(
        &self,
        alloc: Global,
        cells: &mut Vec<FreeCell>,
        object: &Object,
        made: &Static,
    ) -> Result<(), AllocError>
        ensures { OnOk result (cells.new.items ≡ cells.old.items ++ freed.freed_by self.now object.now made.now) }
    {
        if !self.is_nameable(object) {
            return Ok(());
        }
        let shape = made.block.shape.cells.as_slice();
        let name = object.name.as_slice();
        self.put_cells(alloc, cells, name, shape, made.cells.as_slice())
    }

    // Behind these, the cells of all objects that lines free.
    fn put_objects(
        &self,
        alloc: Global,
        cells: &mut Vec<FreeCell>,
        all: &[Static],
    ) -> Result<(), AllocError>
        ensures { OnOk result (cells.new.items ≡ cells.old.items ++ freed.all_freed_by self.now all.now) }
    {
        'object: for (object, made) in self.firsts.iter().zip(all.iter()) {
            self.put_object(alloc, cells, object, made)?;
        }
        Ok(())
    }
}

// Whether an object is there from the start.
fn is_made_first(life: Life) -> bool
    ensures { result ≡ freed.is_first_life life }
{
    match life {
        Life::Linked | Life::LocalStatic | Life::Literal => true,
        Life::Automatic | Life::Parameter | Life::Unmade => false,
    }
}

// Those of the objects that are there from the start.
fn firsts_of<'p>(alloc: Global, objects: &'p [Object]) -> Result<Vec<&'p Object>, AllocError>
    ensures { IfOk result (λ firsts. map (λ it. it.now) firsts.items ≡ filter (λ it. freed.is_first_life it.life) objects.now) }
{
    let mut firsts = Vec::new(alloc);
    for object in objects {
        if is_made_first(object.life) {
            firsts.push(object)?;
        }
    }
    Ok(firsts)
}

/// Behind these, the cells of the program's objects that lines free.
pub fn put_freed_cells(
    alloc: Global,
    cells: &mut Vec<FreeCell>,
    tables: &Tables<'_>,
    parameters: &[&Object],
    wants: &Wants<'_>,
) -> Result<(), AllocError>
    ensures { (scope : Scope) (lines : List Line) → scope.program ≡ program_of tables.now.program.now → scope.parameters ≡ map (λ object. root_of tables.now.program.now object.now) parameters.now → HasSaid scope lines wants.now → OnOk result (cells.new.items ≡ cells.old.items ++ flat_map (freed_unless_hidden scope lines) scope.program.objects) }
{
    let lookups = Lookups {
        hidden: own_names(alloc, parameters, &[], &[])?,
        firsts: firsts_of(alloc, &tables.program.objects)?,
        wants,
    };
    let all = tables.statics(alloc)?;
    lookups.put_objects(alloc, cells, &all)
}
