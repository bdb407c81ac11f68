//! The names of an input's files: of each the block that it names, and the cells there.

ghost use Rattle.std.specs.Prelude.{◌≡◌, ◌↔◌, ◌++◌, ◌+◌, ◌∷◌, [], IsTrue, List, IfOk, IfSome, OnOk, option_copied};
ghost use Rattle.lt_ir.specs.declared.variable.Variable.TheVariants.{Parameter};
ghost use Rattle.lt_ir.specs.Running.{block_among};
ghost use Rattle.lt_ir.specs.Starting.{Root as Named, named, parameter_roots, static_roots, type_at};
ghost use Rattle.lt_ir.specs.Graph.{names_in, shapes_in};
ghost use Rattle.lt_mach.specs.Blocks.{roots_from};
ghost use Rattle.lt_mach.specs.Roots.{AreFound, IsAscending, IsAt, found, root_of};

use lt_ir::{Static, Variable};
use lt_mach_parts::Scope;
use lt_model::{BlockIn, CellType, ShapeCell};
use std::alloc::{AllocError, Global};
use std::collections::BTreeMap;
use std::marker::Model;

/// What a name of an input's files names. Contracts see the name, the block and its cells.
#[derive(Drop)]
pub struct Root<'a> {
    name: &'a [u8],
    block: u32,
    cells: &'a [ShapeCell],
    // Whether the offsets ascend.
    ascends: bool,
}

impl<'a> Model for Root<'a> {
    ghost use Rattle.std.specs.Prelude.{◌≡◌, true};
    ghost use Rattle.lt_ir.specs.Starting.{Root as Named};
    ghost use Rattle.lt_mach.specs.Roots.{IsAscending};

    ghost Value = { Named };

    ghost view = { λ r. record { name = r.name.now; block = r.block; cells = r.cells.now } };

    ghost invariant = { λ r. r.ascends ≡ true → IsAscending r.cells.now };
}

/// What each name names, by the name.
pub type Roots<'a> = BTreeMap<&'a [u8], Root<'a>>;

// Whether each offset is greater than the one before.
fn ascends(cells: &[ShapeCell]) -> bool
    ensures { IsTrue result ↔ IsAscending cells.now }
{
    cells.is_sorted_by(|a, b| a.offset < b.offset)
}

// The place of the cell at an offset, by halving.
fn halve(cells: &[ShapeCell], offset: u64) -> Option<usize>
    requires { IsAscending cells.now }
    ensures { IsAt cells.now offset result }
{
    let found = cells.binary_search_by_key(&offset, |cell| cell.offset);
    found.ok()
}

// The type of the first cell at an offset, where the offsets ascend.
fn find(cells: &[ShapeCell], offset: u64) -> Option<CellType>
    requires { IsAscending cells.now }
    ensures { result ≡ type_at offset cells.now }
{
    match halve(cells, offset) {
        Some(place) => Some(cells[place].ty),
        None => None,
    }
}

// The type of the first cell at an offset.
fn walk(cells: &[ShapeCell], offset: u64) -> Option<CellType>
    ensures { result ≡ type_at offset cells.now }
{
    for cell in cells {
        if cell.offset == offset {
            return Some(cell.ty);
        }
    }
    None
}

impl<'a> Root<'a> {
    fn new(it: &'a BlockIn, block: u32) -> Root<'a>
        ensures { result ≡ root_of it.now block }
    {
        let cells = it.shape.cells.as_slice();
        Root {
            name: it.name.as_slice(),
            block,
            cells,
            ascends: ascends(cells),
        }
    }

    pub fn block(&self) -> u32
        ensures { result ≡ self.now.block }
    {
        self.block
    }

    /// The type of the cell at an offset, if there is one.
    pub fn type_at(&self, offset: u64) -> Option<CellType>
        ensures { result ≡ type_at offset self.now.cells }
    {
        if self.ascends {
            find(self.cells, offset)
        } else {
            walk(self.cells, offset)
        }
    }
}

/// What a name names, if it names something.
pub fn root_at<'b, 'a>(roots: &'b Roots<'a>, name: &[u8]) -> Option<&'b Root<'a>>
    ensures { option_copied result ≡ found roots.now name.now }
{
    roots.get(name)
}

// The name of an object with this number counts before the others.
fn put<'a>(roots: &mut Roots<'a>, it: &'a BlockIn, block: u32) -> Result<(), AllocError>
    ensures { OnOk result ((rest : List Named) → AreFound rest roots.old → AreFound (root_of it.now block ∷ rest) roots.new) }
{
    roots.insert(it.name.as_slice(), Root::new(it, block))?;
    Ok(())
}

// The names of the objects that are there from the start.
fn add_statics<'a>(roots: &mut Roots<'a>, statics: &'a [Static]) -> Result<(), AllocError>
    requires { AreFound [] roots.old }
    ensures { OnOk result (AreFound (static_roots 0 statics.now) roots.new) }
{
    let mut place = statics.len();
    while place > 0 {
        place -= 1;
        let Ok(number) = u32::try_from(place) else {
            return Err(AllocError);
        };
        put(roots, &statics[place].block, number)?;
    }
    Ok(())
}

// The number of the object at a place, where the first has this number.
fn number_of(first: u32, place: usize) -> Option<u32>
    ensures { IfSome result (λ number. number ≡ first + place) }
{
    first.checked_add(u32::try_from(place).ok()?)
}

// The names of an input's objects, of which the first has this number, count before the others.
fn add_blocks<'a>(
    roots: &mut Roots<'a>,
    first: u32,
    blocks: &'a [BlockIn],
) -> Result<(), AllocError>
    ensures { OnOk result ((rest : List Named) → AreFound rest roots.old → AreFound (roots_from first blocks.now ++ rest) roots.new) }
{
    let mut place = blocks.len();
    while place > 0 {
        place -= 1;
        let Some(number) = number_of(first, place) else {
            return Err(AllocError);
        };
        put(roots, &blocks[place], number)?;
    }
    Ok(())
}

// The name of the parameter of a number counts before the others.
fn put_parameter<'a>(
    roots: &mut Roots<'a>,
    scope: &Scope,
    number: u32,
    it: &'a BlockIn,
) -> Result<(), AllocError>
    ensures { OnOk result ((rest : List Named) → AreFound rest roots.old → AreFound (named it.now.name it.now.shape.cells (block_among scope.now (Parameter number)) rest) roots.new) }
{
    match scope.block(Variable::Parameter(number)) {
        Some(block) => put(roots, it, block),
        None => Ok(()),
    }
}

// The names of the parameters count before the others.
fn add_parameters<'a>(
    roots: &mut Roots<'a>,
    scope: &Scope,
    params: &'a [BlockIn],
) -> Result<(), AllocError>
    ensures { OnOk result ((rest : List Named) → AreFound rest roots.old → AreFound (parameter_roots scope.now 0 (names_in params.now) (shapes_in params.now) rest) roots.new) }
{
    let mut place = params.len();
    while place > 0 {
        place -= 1;
        let Ok(number) = u32::try_from(place) else {
            return Err(AllocError);
        };
        put_parameter(roots, scope, number, &params[place])?;
    }
    Ok(())
}

/// The names of the parameters, of an input's objects, of which the first has this number, and of the objects that are there from the
/// start. Of the objects of one name the first counts.
pub fn roots_of<'a>(
    alloc: Global,
    scope: &Scope,
    params: &'a [BlockIn],
    first: u32,
    blocks: &'a [BlockIn],
    statics: &'a [Static],
) -> Result<Roots<'a>, AllocError>
    ensures { IfOk result (AreFound (parameter_roots scope.now 0 (names_in params.now) (shapes_in params.now) (roots_from first blocks.now ++ static_roots 0 statics.now))) }
{
    let mut roots = BTreeMap::new(alloc);
    add_statics(&mut roots, statics)?;
    add_blocks(&mut roots, first, blocks)?;
    add_parameters(&mut roots, scope, params)?;
    Ok(roots)
}
