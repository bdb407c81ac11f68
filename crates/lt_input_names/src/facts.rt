//! What is known of a type.

ghost use Rattle.std.specs.Prelude.{◌≡◌, None, List, is_some, slice_index_or};
ghost use Rattle.std.specs.List.{AllByRecursion};
ghost use Rattle.lt_model.specs.Layout.{members_of};
ghost use Rattle.lt_tree.specs.Typing.Types.{CType};
ghost use Rattle.lt_tree.specs.Typing.TypeRows.{type_in, type_of_row};
ghost use Rattle.lt_tree.specs.Typing.TypeIds.{ids_in_row};
ghost use Rattle.lt_tree.specs.Typing.EntityView.{structs_of};
ghost use Rattle.lt_input_names.specs.Kinds.{AreFacts, no_facts, kind_facts, array_facts};

use lt_model::Scalar;
use lt_tree::typed::{StructType, TypeId, TypeRow};

/// What a type is, qualifiers aside: an integer, a pointer to the type with this id, or something else.
#[derive(Clone, Copy)]
pub enum Kind {
    Integer(Scalar),
    Pointer(TypeId),
    Other,
}

/// The type of the elements of an array, and how many there are.
#[derive(Clone, Copy)]
pub struct Elements {
    pub ty: TypeId,
    pub count: u32,
}

/// What is known of a type.
#[derive(Clone, Copy)]
pub(crate) struct Facts {
    pub kind: Kind,
    /// Of an array.
    pub array: Option<Elements>,
    /// Of an array, qualifiers aside.
    pub bare_array: Option<Elements>,
    /// Of a struct, qualifiers aside.
    pub number: Option<u32>,
    pub is_complete: bool,
    pub is_void: bool,
    pub is_floating: bool,
    /// Of the elements of an array, and of theirs; of no array the type itself.
    pub are_elements_floating: bool,
}

// Of a type of this kind that isn't floating, void or an array.
fn kind_facts(kind: Kind, is_complete: bool) -> Facts
    ensures { result ≡ kind_facts kind is_complete }
{
    Facts {
        kind,
        array: None,
        bare_array: None,
        number: None,
        is_complete,
        is_void: false,
        is_floating: false,
        are_elements_floating: false,
    }
}

// Of void.
fn void_facts() -> Facts
    ensures { result ≡ no_facts }
{
    Facts {
        is_void: true,
        ..kind_facts(Kind::Other, false)
    }
}

/// Of a type by its id; what has no row is void.
pub fn facts_at(known: &[Facts], t: TypeId) -> Facts
    ensures { result ≡ slice_index_or known.now t.place no_facts }
{
    match known.get(t.place as usize) {
        None => void_facts(),
        Some(facts) => *facts,
    }
}

/// Of the type of a row, where this is known of those of which it is made.
pub fn facts_of_row(known: &[Facts], structs: &[StructType], row: &TypeRow) -> Facts
    ensures { (types : List CType) → AllByRecursion (λ t. AreFacts (structs_of types structs.now) types (type_in types t) (slice_index_or known.now t.place no_facts)) (ids_in_row row.now) → AreFacts (structs_of types structs.now) types (type_of_row types row.now) result }
{
    match row {
        TypeRow::Num(scalar) => kind_facts(Kind::Integer(*scalar), true),
        TypeRow::Pointer(t) => kind_facts(Kind::Pointer(*t), true),
        TypeRow::Array(t, count) => array_facts(*t, facts_at(known, *t), *count),
        TypeRow::Struct(number) => Facts {
            number: Some(*number),
            ..kind_facts(Kind::Other, is_complete(structs, *number))
        },
        TypeRow::Floating => Facts {
            is_floating: true,
            are_elements_floating: true,
            ..kind_facts(Kind::Other, true)
        },
        TypeRow::Qualified(_, t) => qualified_facts(facts_at(known, *t)),
        TypeRow::Void => void_facts(),
        TypeRow::Function(_) => kind_facts(Kind::Other, false),
    }
}

// Of an array of so many of these elements.
fn array_facts(ty: TypeId, element: Facts, count: u32) -> Facts
    ensures { result ≡ array_facts ty element count }
{
    let elements = Elements { ty, count };
    Facts {
        array: Some(elements),
        bare_array: Some(elements),
        are_elements_floating: element.are_elements_floating,
        ..kind_facts(Kind::Other, count > 0 && element.is_complete)
    }
}

// Of a type with qualifiers.
fn qualified_facts(it: Facts) -> Facts
    ensures { result ≡ record it { array = None; are_elements_floating = it.is_floating } }
{
    Facts {
        array: None,
        are_elements_floating: it.is_floating,
        ..it
    }
}

// Whether the struct of this number has members.
fn is_complete(structs: &[StructType], number: u32) -> bool
    ensures { (types : List CType) → result ≡ is_some (members_of (structs_of types structs.now) number) }
{
    match structs.get(number as usize) {
        None => false,
        Some(it) => it.members.is_some(),
    }
}
