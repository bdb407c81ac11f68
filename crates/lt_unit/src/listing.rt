// The types of a program without qualifiers, each once, behind those of which it is made.

ghost use Rattle.std.specs.Prelude.{◌≡◌, ◌++◌, ◌∷◌, [], Some, true, map, reverse, slice_get, slice_set, IfOk, OnOk};
ghost use Rattle.std.specs.Option.{option_copied};
ghost use Rattle.lt_tree.specs.Typing.TypeRows.{type_in};
ghost use Rattle.lt_tree.specs.Typing.Programs.{made_of, with_new};
ghost use Rattle.lt_unit.specs.declared.listing.Task.TheVariants as task;
ghost use Rattle.lt_unit.specs.Listing.{AreByPlace, AreMarked, IsListing, ListsMore, types_at, listed_in};
ghost use Rattle.lt_unit.specs.Tasks.{GoesOn, parts_in};

use lt_tree::typed::{FunctionType, TypeId, TypeRow};
use std::alloc::{AllocError, Global};

/// The types of a program by their places.
#[derive(Drop)]
pub struct TypesByPlace {
    pub rows: Vec<TypeRow>,
    /// Of each type the id without qualifiers.
    pub bare: Vec<TypeId>,
}

/// Types that are listed.
#[derive(Drop)]
pub struct Listed {
    pub alloc: Global,
    pub ids: Vec<TypeId>,
    /// Whether the type of a place is listed.
    pub is_listed: Vec<bool>,
}

/// What is still to be done.
#[derive(Clone, Copy)]
pub enum Task {
    /// To list the types of which a type is made, and then the type, unless it is listed.
    List(TypeId),
    /// To list a type whose parts are listed, unless it is.
    Add(TypeId),
}

// Whether a type is listed.
fn has(listed: &Listed, t: TypeId) -> Result<bool, AllocError>
    ensures { IfOk result (λ b. slice_get listed.now.is_listed.items t.place ≡ Some b) }
{
    match listed.is_listed.get(t.place as usize) {
        Some(b) => Ok(*b),
        None => Err(AllocError),
    }
}

// Lists a type, unless it is listed.
fn add(types: &TypesByPlace, listed: &mut Listed, t: TypeId) -> Result<(), AllocError>
    requires known { AreByPlace types.now }
    requires marked { AreMarked types.now listed.old }
    ensures marked { OnOk result (AreMarked types.now listed.new) }
    ensures added { OnOk result (listed_in (types_at types.now) listed.new ≡ with_new (listed_in (types_at types.now) listed.old) (type_in (types_at types.now) t ∷ [])) }
{
    if has(listed, t)? {
        return Ok(());
    }
    put(listed, t)
}

// Lists a type that isn't listed.
fn put(listed: &mut Listed, t: TypeId) -> Result<(), AllocError>
    ensures ids { OnOk result (listed.new.ids.items ≡ listed.old.ids.items ++ t ∷ []) }
    ensures marked { OnOk result (listed.new.is_listed.items ≡ slice_set listed.old.is_listed.items t.place true) }
{
    listed.ids.push(t)?;
    mark(&mut listed.is_listed, t);
    Ok(())
}

fn mark(is_listed: &mut Vec<bool>, t: TypeId)
    ensures { is_listed.new.items ≡ slice_set is_listed.old.items t.place true }
{
    if let Some(is_listed) = is_listed.get_mut(t.place as usize) {
        *is_listed = true;
    }
}

// The type without qualifiers.
fn bare(types: &TypesByPlace, t: TypeId) -> Result<TypeId, AllocError>
    ensures { IfOk result (λ u. slice_get types.now.bare.items t.place ≡ Some u) }
{
    match types.bare.get(t.place as usize) {
        Some(u) => Ok(*u),
        None => Err(AllocError),
    }
}

/// Lists the types of which a type is made, and then the type, unless it is listed: then they are too.
pub fn list(types: &TypesByPlace, listed: &mut Listed, t: TypeId) -> Result<(), AllocError>
    requires known { AreByPlace types.now }
    requires listing { IsListing types.now listed.old }
    ensures { OnOk result (ListsMore types.now listed.old listed.new (made_of (type_in (types_at types.now) t))) }
{
    // The next task is the last. Types nest as deep as typedefs make them, so this is no recursion.
    let mut tasks = Vec::new(listed.alloc);
    tasks.push(Task::List(t))?;
    'tasks: for _ in 0..u64::MAX {
        let Some(task) = tasks.pop() else {
            return Ok(());
        };
        step(types, listed, &mut tasks, task)?;
    }
    Err(AllocError)
}

// Does one task.
fn step(
    types: &TypesByPlace,
    listed: &mut Listed,
    tasks: &mut Vec<Task>,
    task: Task,
) -> Result<(), AllocError>
    requires known { AreByPlace types.now }
    requires marked { AreMarked types.now listed.old }
    ensures { OnOk result (GoesOn types.now listed.old (task ∷ reverse tasks.old.items) listed.new (reverse tasks.new.items)) }
{
    match task {
        Task::List(t) => open(types, listed, tasks, t),
        Task::Add(t) => add(types, listed, t),
    }
}

// Unless a type is listed, its parts are next, and then the type without qualifiers.
fn open(
    types: &TypesByPlace,
    listed: &Listed,
    tasks: &mut Vec<Task>,
    t: TypeId,
) -> Result<(), AllocError>
    requires { AreByPlace types.now }
    ensures { OnOk result (GoesOn types.now listed.now (task.List t ∷ reverse tasks.old.items) listed.now (reverse tasks.new.items)) }
{
    let bare = bare(types, t)?;
    if has(listed, bare)? {
        return Ok(());
    }
    let Some(row) = row(types, t) else {
        return Err(AllocError);
    };
    tasks.push(Task::Add(bare))?;
    open_row(tasks, row)
}

// The row of a type.
fn row(types: &TypesByPlace, t: TypeId) -> Option<&TypeRow>
    ensures { option_copied result ≡ slice_get types.now.rows.items t.place }
{
    types.rows.get(t.place as usize)
}

// The parts of a row are next.
fn open_row(tasks: &mut Vec<Task>, row: &TypeRow) -> Result<(), AllocError>
    ensures { OnOk result (reverse tasks.new.items ≡ map task.List (parts_in row.now) ++ reverse tasks.old.items) }
{
    match row {
        TypeRow::Pointer(t) => open_part(tasks, *t),
        TypeRow::Array(t, _) => open_part(tasks, *t),
        TypeRow::Function(f) => open_function(tasks, f),
        TypeRow::Qualified(_, t) => open_part(tasks, *t),
        _ => Ok(()),
    }
}

// This part is next.
fn open_part(tasks: &mut Vec<Task>, t: TypeId) -> Result<(), AllocError>
    ensures { OnOk result (reverse tasks.new.items ≡ task.List t ∷ reverse tasks.old.items) }
{
    tasks.push(Task::List(t))?;
    Ok(())
}

// The type of what a function returns is next, and then those of its parameters.
fn open_function(tasks: &mut Vec<Task>, f: &FunctionType) -> Result<(), AllocError>
    ensures { OnOk result (reverse tasks.new.items ≡ map task.List (f.now.result ∷ f.now.parameters.items) ++ reverse tasks.old.items) }
{
    open_all(tasks, f.parameters.as_slice())?;
    open_part(tasks, f.result)
}

fn open_all(tasks: &mut Vec<Task>, parts: &[TypeId]) -> Result<(), AllocError>
    ensures { OnOk result (reverse tasks.new.items ≡ map task.List parts.now ++ reverse tasks.old.items) }
{
    let mut left = parts.len();
    'parts: while 0 < left {
        left -= 1;
        open_part(tasks, parts[left])?;
    }
    Ok(())
}
