//! What is asked of the types of a program's table where blocks are made of them, in one walk over its rows.

ghost use Rattle.std.specs.Prelude.{◌≡◌, ◌*◌, ◌∷◌, false, List, IfOk};
ghost use Rattle.lt_tree.specs.Typing.Types.{CType};
ghost use Rattle.lt_tree.specs.Typing.TypeRows.{type_of_row, types_of_rows};
ghost use Rattle.lt_input_blocks.specs.Facts.{AreFacts, AreAllFacts, HaveFacts, capped, facts_at, plain_facts};

use lt_input_wants::MOST_CELLS;
use lt_tree::typed::{TypeId, TypeRow};
use std::alloc::{AllocError, Global};

/// What an object of a type is made of.
#[derive(Clone, Copy)]
pub enum Part {
    /// It has no cells.
    Nothing,
    Scalar,
    /// By its place in the list of structs.
    Struct(u32),
}

/// What is known of a type.
#[derive(Clone, Copy)]
pub struct Facts {
    pub part: Part,
    /// How many parts an object of the type has; more than an object may have cells count as one more than that.
    pub count: u32,
    pub is_function: bool,
    pub is_pointer_to_function: bool,
    /// Of the elements of an array, and of theirs; of no array the type itself.
    pub are_elements_pointers_to_function: bool,
}

/// What is known of the types of these rows.
pub fn facts_of_rows(alloc: Global, rows: &[TypeRow]) -> Result<Vec<Facts>, AllocError>
    ensures { IfOk result (λ facts. HaveFacts (types_of_rows rows.now) facts.items) }
{
    let mut facts = Vec::new(alloc);
    for row in rows {
        let it = facts_of_row(&facts, row);
        facts.push(it)?;
    }
    Ok(facts)
}

/// Of a type by its id; what has no row is void.
pub fn facts_at(known: &[Facts], id: TypeId) -> Facts
    ensures { result ≡ facts_at known.now id }
{
    match known.get(id.place as usize) {
        None => plain_facts(Part::Nothing),
        Some(facts) => *facts,
    }
}

// Of the type of a row behind these.
fn facts_of_row(known: &[Facts], row: &TypeRow) -> Facts
    ensures { (types : List CType) → AreAllFacts types known.now → AreFacts (type_of_row types row.now) result }
{
    match row {
        TypeRow::Num(_) | TypeRow::Floating => plain_facts(Part::Scalar),
        TypeRow::Struct(number) => plain_facts(Part::Struct(*number)),
        TypeRow::Void => plain_facts(Part::Nothing),
        TypeRow::Function(_) => Facts {
            is_function: true,
            ..plain_facts(Part::Nothing)
        },
        TypeRow::Pointer(t) => pointer_facts(facts_at(known, *t)),
        TypeRow::Array(t, count) => array_facts(facts_at(known, *t), *count),
        TypeRow::Qualified(_, t) => qualified_facts(facts_at(known, *t)),
    }
}

// Of a type that is one part.
fn plain_facts(part: Part) -> Facts
    ensures { result ≡ plain_facts part }
{
    Facts {
        part,
        count: 1,
        is_function: false,
        is_pointer_to_function: false,
        are_elements_pointers_to_function: false,
    }
}

// Of a pointer to this.
fn pointer_facts(target: Facts) -> Facts
    ensures { result ≡ record (plain_facts Part.Scalar) { is_pointer_to_function = target.is_function; are_elements_pointers_to_function = target.is_function } }
{
    Facts {
        is_pointer_to_function: target.is_function,
        are_elements_pointers_to_function: target.is_function,
        ..plain_facts(Part::Scalar)
    }
}

// Of an array of so many of these.
fn array_facts(element: Facts, count: u32) -> Facts
    ensures { result ≡ record element { count = capped (count * element.count); is_function = false; is_pointer_to_function = false } }
{
    Facts {
        count: times(count, element.count),
        is_function: false,
        is_pointer_to_function: false,
        ..element
    }
}

// Of this with qualifiers.
fn qualified_facts(it: Facts) -> Facts
    ensures { result ≡ record it { is_function = false; are_elements_pointers_to_function = it.is_pointer_to_function } }
{
    Facts {
        is_function: false,
        are_elements_pointers_to_function: it.is_pointer_to_function,
        ..it
    }
}

/// A product of numbers of cells.
pub fn times(a: u32, b: u32) -> u32
    ensures { result ≡ capped (a * b) }
{
    (u64::from(a) * u64::from(b)).min(u64::from(MOST_CELLS) + 1) as u32
}
