//! The parameters of an entry, and their default blocks.

ghost use Rattle.std.specs.Prelude.{◌≡◌, ◌++◌, [], ◌∷◌, IfOk, OnOk, map, filter_map, option_map, option_to_list, slice_get};
ghost use Rattle.lt_tree.specs.Typing.TypeRows.{type_in};
ghost use Rattle.lt_tree.specs.Typing.EntityView.{object_of};
ghost use Rattle.lt_tree.specs.Typing.ProgramView.{program_of};
ghost use Rattle.lt_entry.specs.Written.{default_name};
ghost use Rattle.lt_entry.specs.Naming.{parameters_of, default_block};
ghost use Rattle.lt_input_names.specs.Blocks.{program_types, block_of};
ghost use Rattle.lt_input_names.specs.Kinds.{AreKinds};
ghost use Rattle.lt_input_specs.specs.Defaults.{root_of, roots_at, block_to};

use lt_input_names::{Base, Block, ElementType, Kinds};
use lt_model::Name;
use lt_tree::typed::{Function, Object, Program, TypeId};
use std::alloc::{AllocError, Global};

/// The numbers of the parameters of the function of this number, if there is one with a body.
pub fn numbers_of<'p>(program: &'p Program<'p>, number: usize) -> &'p [u32]
    ensures { roots_at program.now result.now ≡ parameters_of (program_of program.now) number }
{
    match function_at(program, number) {
        None => &[],
        Some(function) => function.parameters.as_slice(),
    }
}

fn function_at<'p>(program: &'p Program<'p>, number: usize) -> Option<&'p Function>
    ensures { option_map (λ f. f.now) result ≡ slice_get program.now.functions.items number }
{
    program.functions.get(number)
}

/// The object with this number, if there is one.
pub fn object_at<'p>(program: &'p Program<'p>, number: u32) -> Option<&'p Object>
    ensures { option_map (λ object. object.now) result ≡ slice_get program.now.objects.items number }
{
    program.objects.get(number as usize)
}

/// The parameters of the function of this number, as far as there are objects with their numbers.
pub fn parameters_of<'p>(
    alloc: Global,
    kinds: &Kinds<'p>,
    number: usize,
) -> Result<Vec<&'p Object>, AllocError>
    ensures { IfOk result (λ objects. map (λ object. root_of kinds.now.program.now object.now) objects.items ≡ parameters_of (program_of kinds.now.program.now) number) }
{
    objects_at(alloc, kinds, numbers_of(kinds.program, number))
}

// The objects with these numbers, as far as there are.
fn objects_at<'p>(
    alloc: Global,
    kinds: &Kinds<'p>,
    numbers: &[u32],
) -> Result<Vec<&'p Object>, AllocError>
    ensures { IfOk result (λ objects. map (λ object. root_of kinds.now.program.now object.now) objects.items ≡ roots_at kinds.now.program.now numbers.now) }
{
    let mut objects = Vec::new(alloc);
    for number in numbers {
        put_object(&mut objects, kinds, *number)?;
    }
    Ok(objects)
}

// Behind these, the object with this number, if there is one.
fn put_object<'p>(
    objects: &mut Vec<&'p Object>,
    kinds: &Kinds<'p>,
    number: u32,
) -> Result<(), AllocError>
    ensures { OnOk result (map (λ object. root_of kinds.now.program.now object.now) objects.new.items ≡ map (λ object. root_of kinds.now.program.now object.now) objects.old.items ++ roots_at kinds.now.program.now (number ∷ [])) }
{
    match object_at(kinds.program, number) {
        None => Ok(()),
        Some(object) => Ok(objects.push(object)?),
    }
}

/// What an object points to, if that has a size: then it has a default block of this type.
pub fn target_of(kinds: &Kinds<'_>, object: &Object) -> Option<TypeId>
    requires { AreKinds kinds.now }
    ensures { option_map (block_to kinds.now.program.now object.now) result ≡ default_block (program_of kinds.now.program.now) (root_of kinds.now.program.now object.now) }
{
    let target = kinds.target(object.ty)?;
    if kinds.has_size(target) {
        Some(target)
    } else {
        None
    }
}

/// The name of the default block to which a parameter points.
pub fn default_name(alloc: Global, name: &[u8]) -> Result<Name, AllocError>
    ensures { IfOk result (λ it. it ≡ default_name name.now) }
{
    let mut bytes = Vec::new(alloc);
    bytes.push(b'@')?;
    bytes.extend_from_slice(name)?;
    Name::new(alloc, &bytes)
}

/// The default blocks of these parameters.
pub fn default_blocks(
    alloc: Global,
    kinds: &Kinds<'_>,
    parameters: &[&Object],
) -> Result<Vec<Block>, AllocError>
    requires { AreKinds kinds.now }
    ensures { IfOk result (λ blocks. map (block_of (program_types kinds.now.program.now)) blocks.items ≡ filter_map (λ object. default_block (program_of kinds.now.program.now) (root_of kinds.now.program.now object.now)) parameters.now) }
{
    let mut blocks = Vec::new(alloc);
    for object in parameters {
        put_default(alloc, &mut blocks, kinds, object)?;
    }
    Ok(blocks)
}

// Behind these, the default block of a parameter, if it has one.
fn put_default(
    alloc: Global,
    blocks: &mut Vec<Block>,
    kinds: &Kinds<'_>,
    object: &Object,
) -> Result<(), AllocError>
    requires { AreKinds kinds.now }
    ensures { OnOk result (map (block_of (program_types kinds.now.program.now)) blocks.new.items ≡ map (block_of (program_types kinds.now.program.now)) blocks.old.items ++ option_to_list (default_block (program_of kinds.now.program.now) (root_of kinds.now.program.now object.now))) }
{
    match target_of(kinds, object) {
        None => Ok(()),
        Some(target) => Ok(blocks.push(Block {
            name: default_name(alloc, object.name.as_slice())?,
            element: ElementType {
                base: Base::Row(target),
                pointers: 0,
            },
            count: 1,
        })?),
    }
}
