//! The functions without a body that give an integer.

ghost use Rattle.std.specs.Prelude.{◌≡◌, ◌++◌, ℕ, List, Some, None, if◌then◌else◌, IfOk, OnOk, map, filter_map, option_map, option_to_list, slice_get};
ghost use Rattle.std.specs.Str.{bytes_eq};
ghost use Rattle.lt_tree.specs.Typing.Entities.{or_else};
ghost use Rattle.lt_tree.specs.Typing.TypeRows.{type_in, type_of_row};
ghost use Rattle.lt_tree.specs.Typing.EntityView.{declared_of};
ghost use Rattle.lt_tree.specs.Typing.ProgramView.{program_of};
ghost use Rattle.lt_meaning.specs.Runs.{stops};
ghost use Rattle.lt_entry.specs.Conditions.{integer_result, stub_of, stub_among};
ghost use Rattle.lt_entry.specs.Conditions as conditions;
ghost use Rattle.lt_input_names.specs.Blocks.{program_types};
ghost use Rattle.lt_input_names.specs.Found.{found_in};
ghost use Rattle.lt_input_names.specs.Kinds.{AreKinds};
ghost use Rattle.lt_input_names.specs.Stubs.{HasNames, has_name, stub_view};

use crate::first::put_first;
use crate::kinds::Kinds;
use lt_model::{Name, Scalar};
use lt_tree::typed::{Declared, Function, TypeId, TypeRow};
use std::alloc::{AllocError, Global};
use std::collections::{HashMap, HashSet};

/// A function without a body that gives an integer.
#[derive(Clone, Copy)]
pub struct Stub<'p> {
    pub name: &'p [u8],
    pub ty: Scalar,
}

/// The functions without a body that give integers, in the order of their declarations.
pub fn stubs_of<'p>(alloc: Global, kinds: &Kinds<'p>) -> Result<Vec<Stub<'p>>, AllocError>
    requires { AreKinds kinds.now }
    ensures { IfOk result (λ stubs. map stub_view stubs.items ≡ conditions.stubs_of (program_of kinds.now.program.now)) }
{
    let program = kinds.program;
    let bodies = names_of(alloc, &program.functions)?;
    stubs_among(alloc, kinds, &bodies, &program.declared)
}

/// What each function without a body gives, if it is an integer.
pub fn types_of_stubs<'p>(
    alloc: Global,
    kinds: &Kinds<'p>,
) -> Result<HashMap<&'p [u8], Scalar>, AllocError>
    requires { AreKinds kinds.now }
    ensures { IfOk result (λ types. (name : List ℕ) → found_in types name ≡ stub_among name (conditions.stubs_of (program_of kinds.now.program.now))) }
{
    let stubs = stubs_of(alloc, kinds)?;
    first_types(alloc, stubs.as_slice())
}

// What the first function of each name gives.
fn first_types<'p>(
    alloc: Global,
    stubs: &[Stub<'p>],
) -> Result<HashMap<&'p [u8], Scalar>, AllocError>
    ensures { IfOk result (λ types. (name : List ℕ) → found_in types name ≡ stub_among name (map stub_view stubs.now)) }
{
    let mut types = HashMap::new(alloc);
    for stub in stubs {
        put_stub(&mut types, stub)?;
    }
    Ok(types)
}

// What a function gives, unless another of its name stands before it.
fn put_stub<'p>(types: &mut HashMap<&'p [u8], Scalar>, stub: &Stub<'p>) -> Result<(), AllocError>
    ensures { OnOk result ((w : List ℕ) → found_in types.new w ≡ or_else (found_in types.old w) (if bytes_eq stub.now.name.now w then Some stub.now.ty else None)) }
{
    put_first(types, stub.name, stub.ty)
}

// Those among these.
fn stubs_among<'p>(
    alloc: Global,
    kinds: &Kinds<'p>,
    bodies: &HashSet<&[u8]>,
    declared: &'p [Declared],
) -> Result<Vec<Stub<'p>>, AllocError>
    requires kinds { AreKinds kinds.now }
    requires names { HasNames kinds.now.program.now.functions.items bodies.now }
    ensures { IfOk result (λ stubs. map stub_view stubs.items ≡ filter_map (λ it. stub_of (program_of kinds.now.program.now) (declared_of (program_types kinds.now.program.now) it)) declared.now) }
{
    let mut stubs = Vec::new(alloc);
    for it in declared {
        put(&mut stubs, stub_of(kinds, bodies, it))?;
    }
    Ok(stubs)
}

// Behind these, another, if there is one.
fn put<'p>(stubs: &mut Vec<Stub<'p>>, it: Option<Stub<'p>>) -> Result<(), AllocError>
    ensures { OnOk result (map stub_view stubs.new.items ≡ map stub_view stubs.old.items ++ option_to_list (option_map stub_view it.entry)) }
{
    match it {
        None => Ok(()),
        Some(stub) => Ok(stubs.push(stub)?),
    }
}

// The names of functions.
fn names_of<'p>(alloc: Global, functions: &'p [Function]) -> Result<HashSet<&'p [u8]>, AllocError>
    ensures { IfOk result (HasNames functions.now) }
{
    let mut names = HashSet::new(alloc);
    for function in functions {
        names.insert(function.name.as_slice())?;
    }
    Ok(names)
}

// A function that is declared, if it has no body, doesn't stop and gives an integer.
fn stub_of<'p>(kinds: &Kinds<'p>, bodies: &HashSet<&[u8]>, it: &'p Declared) -> Option<Stub<'p>>
    requires kinds { AreKinds kinds.now }
    requires names { HasNames kinds.now.program.now.functions.items bodies.now }
    ensures { option_map stub_view result ≡ stub_of (program_of kinds.now.program.now) (declared_of (program_types kinds.now.program.now) it.now) }
{
    let name = it.name.as_slice();
    let is_none = has_name(bodies, name) | stops(name);
    if is_none {
        return None;
    }
    match integer_result(kinds, it.ty) {
        None => None,
        Some(ty) => Some(Stub { name, ty }),
    }
}

fn has_name(names: &HashSet<&[u8]>, name: &[u8]) -> bool
    ensures { result ≡ has_name names.now name.now }
{
    names.contains(name)
}

fn row_at(rows: &[TypeRow], t: TypeId) -> Option<&TypeRow>
    ensures { option_map (λ row. row.now) result ≡ slice_get rows.now t.place }
{
    rows.get(t.place as usize)
}

// The integer type that a function gives.
fn integer_result(kinds: &Kinds<'_>, t: TypeId) -> Option<Scalar>
    requires { AreKinds kinds.now }
    ensures { result ≡ integer_result (type_in (program_types kinds.now.program.now) t) }
{
    match row_at(&kinds.program.table, t) {
        None => None,
        Some(row) => result_of(kinds, row),
    }
}

// The integer type that a function of a row gives.
fn result_of(kinds: &Kinds<'_>, row: &TypeRow) -> Option<Scalar>
    requires { AreKinds kinds.now }
    ensures { result ≡ integer_result (type_of_row (program_types kinds.now.program.now) row.now) }
{
    match row {
        TypeRow::Function(function) => kinds.scalar(function.result),
        TypeRow::Void
        | TypeRow::Num(_)
        | TypeRow::Pointer(_)
        | TypeRow::Array(_, _)
        | TypeRow::Struct(_)
        | TypeRow::Floating
        | TypeRow::Qualified(_, _) => None,
    }
}

/// Whether a function of this name ends the run where it has no body.
fn stops(name: &[u8]) -> bool
    ensures { result ≡ stops name.now }
{
    name == b"abort".as_slice()
        || name == b"exit".as_slice()
        || name == b"_Exit".as_slice()
        || name == b"__assert_fail".as_slice()
}
