//! The objects that names stand for, as a map.

ghost use Rattle.std.specs.Prelude.{◌≡◌, ℕ, List, [], ◌∷◌, true, false, None, Some, IfOk, OnOk, map, filter_map, option_map, option_to_list, slice_get, if◌then◌else◌};
ghost use Rattle.lt_tree.specs.Typing.Entities.{is_linked};
ghost use Rattle.lt_tree.specs.Typing.Types.{CType};
ghost use Rattle.lt_tree.specs.Typing.EntityView.{object_of, life_of};
ghost use Rattle.lt_tree.specs.Typing.ProgramView.{program_of};
ghost use Rattle.lt_entry.specs.Naming.{roots, root_among, parameters_of, object_root, block_root};
ghost use Rattle.lt_input_names.specs.Blocks.{program_types, block_of, line_block_of, scope_with};
ghost use Rattle.lt_input_names.specs.Roots.{root_in, row_part, Puts};

use crate::block::{Base, Block, ElementType, LineBlock};
use crate::first::put_first;
use crate::part::{PartType, Root};
use lt_tree::typed::{Function, Life, Object, Program, TypeId};
use std::alloc::{AllocError, Global};
use std::collections::HashMap;

/// The first object of each name.
pub fn roots_of<'p>(
    alloc: Global,
    program: &'p Program<'p>,
    entry: u32,
    blocks: &'p [Block],
) -> Result<HashMap<&'p [u8], Root>, AllocError>
    ensures { IfOk result (λ map. (name : List ℕ) → root_in (program_types program.now) map name ≡ root_among (roots (scope_with program.now entry blocks.now)) name) }
{
    let mut roots = HashMap::new(alloc);
    put_entry(&mut roots, program, entry)?;
    put_blocks(&mut roots, blocks)?;
    put_objects(&mut roots, &program.objects)?;
    Ok(roots)
}

// The parameters of the function of this number.
fn put_entry<'p>(
    roots: &mut HashMap<&'p [u8], Root>,
    program: &'p Program<'p>,
    entry: u32,
) -> Result<(), AllocError>
    ensures { OnOk result (Puts (program_types program.now) roots.old roots.new (parameters_of (program_of program.now) entry)) }
{
    match function_at(program, entry) {
        None => Ok(()),
        Some(function) => {
            put_parameters(roots, program, &function.parameters)?;
            Ok(())
        }
    }
}

fn function_at<'p>(program: &'p Program<'p>, number: u32) -> Option<&'p Function>
    ensures { option_map (λ f. f.now) result ≡ slice_get program.now.functions.items number }
{
    program.functions.get(number as usize)
}

fn object_at<'p>(program: &'p Program<'p>, number: u32) -> Option<&'p Object>
    ensures { option_map (λ o. o.now) result ≡ slice_get program.now.objects.items number }
{
    program.objects.get(number as usize)
}

// The objects with these numbers.
fn put_parameters<'p>(
    roots: &mut HashMap<&'p [u8], Root>,
    program: &'p Program<'p>,
    numbers: &[u32],
) -> Result<(), AllocError>
    ensures { OnOk result ((types : List CType) → Puts types roots.old roots.new (filter_map (λ n. option_map (λ o. object_root (object_of types o)) (slice_get program.now.objects.items n)) numbers.now)) }
{
    for number in numbers {
        put_numbered(roots, program, *number)?;
    }
    Ok(())
}

// The object with this number, if there is one.
fn put_numbered<'p>(
    roots: &mut HashMap<&'p [u8], Root>,
    program: &'p Program<'p>,
    number: u32,
) -> Result<(), AllocError>
    ensures { OnOk result ((types : List CType) → Puts types roots.old roots.new (option_to_list (option_map (λ o. object_root (object_of types o)) (slice_get program.now.objects.items number)))) }
{
    match object_at(program, number) {
        None => Ok(()),
        Some(object) => {
            put_object(roots, object)?;
            Ok(())
        }
    }
}

// Blocks.
fn put_blocks<'p>(
    roots: &mut HashMap<&'p [u8], Root>,
    blocks: &'p [Block],
) -> Result<(), AllocError>
    ensures { OnOk result ((types : List CType) → Puts types roots.old roots.new (map (λ block. block_root (block_of types block)) blocks.now)) }
{
    for block in blocks {
        put_block(roots, block)?;
    }
    Ok(())
}

/// A block that a line makes.
pub fn put_line_block<'p>(
    roots: &mut HashMap<&'p [u8], Root>,
    block: LineBlock<'p>,
) -> Result<(), AllocError>
    ensures { OnOk result ((types : List CType) → Puts types roots.old roots.new (block_root (line_block_of types block.entry) ∷ [])) }
{
    put_first(roots, block.name, root_of_block(block.element, block.count))?;
    Ok(())
}

// A block.
fn put_block<'p>(roots: &mut HashMap<&'p [u8], Root>, block: &'p Block) -> Result<(), AllocError>
    ensures { OnOk result ((types : List CType) → Puts types roots.old roots.new (block_root (block_of types block.now) ∷ [])) }
{
    let root = root_of_block(block.element, block.count);
    put_first(roots, block.name.as_slice(), root)?;
    Ok(())
}

fn root_of_block(element: ElementType, count: u32) -> Root
    ensures { result ≡ record { ty = record { element = element; count = Some count }; is_block = true } }
{
    Root {
        ty: PartType {
            element,
            count: Some(count),
        },
        is_block: true,
    }
}

// The objects with linkage.
fn put_objects<'p>(
    roots: &mut HashMap<&'p [u8], Root>,
    objects: &'p [Object],
) -> Result<(), AllocError>
    ensures { OnOk result ((types : List CType) → Puts types roots.old roots.new (filter_map (λ o. if is_linked (object_of types o).life then Some (object_root (object_of types o)) else None) objects.now)) }
{
    for object in objects {
        put_linked(roots, object)?;
    }
    Ok(())
}

// An object, if it has linkage.
fn put_linked<'p>(roots: &mut HashMap<&'p [u8], Root>, object: &'p Object) -> Result<(), AllocError>
    ensures { OnOk result ((types : List CType) → Puts types roots.old roots.new (option_to_list (if is_linked (object_of types object.now).life then Some (object_root (object_of types object.now)) else None))) }
{
    if is_linked(object.life) {
        put_object(roots, object)?;
        return Ok(());
    }
    Ok(())
}

fn is_linked(life: Life) -> bool
    ensures { result ≡ is_linked (life_of life) }
{
    match life {
        Life::Linked => true,
        Life::LocalStatic | Life::Literal | Life::Automatic | Life::Parameter | Life::Unmade =>
            false,
    }
}

/// The type of a row.
pub fn row_type(t: TypeId) -> PartType
    ensures { result ≡ row_part t }
{
    PartType {
        element: ElementType {
            base: Base::Row(t),
            pointers: 0,
        },
        count: None,
    }
}

// An object of the program.
fn put_object<'p>(roots: &mut HashMap<&'p [u8], Root>, object: &'p Object) -> Result<(), AllocError>
    ensures { OnOk result ((types : List CType) → Puts types roots.old roots.new (object_root (object_of types object.now) ∷ [])) }
{
    put_first(roots, object.name.as_slice(), root_of_object(object))?;
    Ok(())
}

fn root_of_object(object: &Object) -> Root
    ensures { result ≡ record { ty = row_part object.now.ty; is_block = false } }
{
    Root {
        ty: row_type(object.ty),
        is_block: false,
    }
}
