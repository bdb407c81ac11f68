//! Cells that an input sets.

ghost use Rattle.std.specs.Prelude.{◌≡◌, List, Some};
ghost use Rattle.lt_model.specs.declared.cell.Content.TheVariants.{Number};
ghost use Rattle.lt_ir.specs.Starting.{Root as Named, root_among, address_named, point_named, put_in, set_one, set_all};
ghost use Rattle.lt_mach.specs.Parameters.{Stores};
ghost use Rattle.lt_mach.specs.Roots.{AreFound};

use crate::parameters::put;
use crate::roots::{Root, Roots, root_at};
use lt_acts::Stop;
use lt_mem::Memory;
use lt_model::{Address, CellSet, Content, Place};

// A number, as a cell holds it.
fn number(z: &i128) -> Content
    ensures { result ≡ Number z.now }
{
    Content::Number(*z)
}

// The address that a place names.
fn address_named(roots: &Roots<'_>, place: &Place) -> Option<Address>
    ensures { (list : List Named) → AreFound list roots.now → result ≡ address_named list place.now }
{
    match root_at(roots, place.root.as_slice()) {
        Some(root) => Some(Address {
            block: root.block(),
            offset: place.offset,
        }),
        None => None,
    }
}

// The address that a place names, if there is one; or null.
fn point_named(roots: &Roots<'_>, target: &Option<Place>) -> Option<Address>
    ensures { (list : List Named) → AreFound list roots.now → result ≡ point_named list target.now }
{
    match target {
        Some(place) => address_named(roots, place),
        None => None,
    }
}

// The cell at an offset gets a content, if there is one.
fn put_at(memory: &mut Memory, root: &Root<'_>, offset: u64, content: Content) -> Result<(), Stop>
    ensures puts { Stores (put_in memory.old.model (Some root.now) offset content) memory.old.blocks result memory.new.blocks }
    ensures model { memory.new.model ≡ memory.old.model }
{
    let Some(ty) = root.type_at(offset) else {
        return Ok(());
    };
    let block = root.block();
    put(memory, Some(Address { block, offset }), ty, content)
}

// The cell that a place names gets a content, if there is one.
fn put_in(
    memory: &mut Memory,
    roots: &Roots<'_>,
    place: &Place,
    content: Content,
) -> Result<(), Stop>
    ensures puts { (list : List Named) → AreFound list roots.now → Stores (put_in memory.old.model (root_among list place.now.root) place.now.offset content) memory.old.blocks result memory.new.blocks }
    ensures model { memory.new.model ≡ memory.old.model }
{
    match root_at(roots, place.root.as_slice()) {
        Some(root) => put_at(memory, root, place.offset, content),
        None => Ok(()),
    }
}

// One cell is set.
fn set_one(memory: &mut Memory, roots: &Roots<'_>, it: &CellSet) -> Result<(), Stop>
    ensures sets { (list : List Named) → AreFound list roots.now → Stores (set_one memory.old.model list it.now) memory.old.blocks result memory.new.blocks }
    ensures model { memory.new.model ≡ memory.old.model }
{
    match it {
        CellSet::Number(place, z) => put_in(memory, roots, place, number(z)),
        CellSet::Point(place, target) => {
            let address = point_named(roots, target);
            put_in(memory, roots, place, Content::Address(address))
        }
    }
}

/// The cells that an input sets, in order.
pub fn set_all(memory: &mut Memory, roots: &Roots<'_>, cells: &[CellSet]) -> Result<(), Stop>
    ensures sets { (list : List Named) → AreFound list roots.now → Stores (set_all memory.old.model list cells.now) memory.old.blocks result memory.new.blocks }
    ensures model { memory.new.model ≡ memory.old.model }
{
    for it in cells {
        set_one(memory, roots, it)?;
    }
    Ok(())
}
