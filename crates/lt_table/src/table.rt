// The types of a program, each once.
mod bare;
mod kind;
mod makers;
mod operands;
mod queries;

ghost use Rattle.std.specs.Prelude.{◌≡◌, ◌<◌, ◌*◌, ◌^◌, ◌↔◌, min, false, [], length, IsSome, IfSome, IfOk};
ghost use Rattle.lt_tree.specs.Typing.TypeRows.{type_of_row, types_of_rows};
ghost use Rattle.lt_table.specs.TableRows.{CanFollow, AreFactsOf, AreFactsAt, IsRowAt, Grows, Makes};
ghost use Rattle.lt_table.specs.RowsOnce.{AreOnce};

use indexmap::IndexMap;
pub use kind::Kind;
pub(crate) use kind::RowFacts;
use lt_model::Quals;
use lt_tree::typed::{TypeId, TypeRow};
use std::alloc::{AllocError, Global};
use std::marker::Model;

/// The types of a program, each once, after those that it is made of. Contracts see them as the list of rows.
#[derive(Drop)]
pub struct TypeTable {
    alloc: Global,
    /// Each row with what is known of it.
    rows: IndexMap<TypeRow, RowFacts>,
}

impl Model for TypeTable {
    ghost use Rattle.std.specs.Prelude.{List, []};
    ghost use Rattle.lt_tree.specs.declared.typed.types.TypeRow.{TypeRow};

    ghost Value = { List TypeRow };

    ghost use Rattle.indexmap.specs.IndexMap.{keys};
    ghost use Rattle.lt_table.specs.TableRows.{AreRows};

    ghost view = { λ t. keys t.rows };

    ghost invariant = { λ t. AreRows [] t.rows.entries };
}

impl TypeTable {
    /// No types.
    pub fn new(alloc: Global) -> TypeTable
        ensures { result ≡ [] }
    {
        TypeTable {
            alloc,
            rows: IndexMap::new(alloc),
        }
    }

    /// How many types there are.
    pub fn len(&self) -> usize
        ensures { result ≡ length self.now }
    {
        self.rows.len()
    }

    /// The rows, of which each stands once, behind those that it is made of.
    pub fn into_rows(self) -> Result<Vec<TypeRow>, AllocError>
        ensures rows { IfOk result (λ rows. rows.items ≡ self) }
        ensures once { IfOk result (λ rows. AreOnce rows.items) }
    {
        let mut rows = Vec::new(self.alloc);
        for row in self.rows.into_keys() {
            rows.push(row)?;
        }
        Ok(rows)
    }

    // What is known of a type. None for an id of no row.
    pub(crate) fn facts(&self, t: TypeId) -> Option<RowFacts>
        ensures row { IsSome result ↔ (t.place < length self.now) }
        ensures facts { IfSome result (AreFactsAt self.now t) }
    {
        let (_, facts) = self.rows.get_index(t.place as usize)?;
        Some(*facts)
    }

    // The row of a type. None for an id of no row.
    fn row(&self, t: TypeId) -> Option<&TypeRow>
        ensures row { IsSome result ↔ (t.place < length self.now) }
        ensures is { IfSome result (λ r. IsRowAt self.now t r.now) }
    {
        let (row, _) = self.rows.get_index(t.place as usize)?;
        Some(row)
    }

    // What is known of a row that goes last with this id.
    fn facts_of_row(&self, row: &TypeRow, id: TypeId) -> RowFacts
        requires place { id.place ≡ length self.now }
        requires can_follow { CanFollow (types_of_rows self.now) row.now }
        ensures { AreFactsOf (types_of_rows self.now) row.now result }
    {
        match row {
            TypeRow::Void => own_facts(Kind::Void, id),
            TypeRow::Num(scalar) => own_facts(Kind::Num(*scalar), id),
            TypeRow::Pointer(target) => own_facts(Kind::Pointer(*target), id),
            TypeRow::Array(t, length) => match self.facts(*t) {
                Some(facts) => RowFacts {
                    kind: Kind::Array(*t, *length),
                    element: facts.element,
                    quals: facts.quals,
                    count: counted(facts.count, *length),
                    inner: facts.inner,
                },
                None => own_facts(Kind::Array(*t, *length), id),
            },
            TypeRow::Struct(number) => own_facts(Kind::Struct(*number), id),
            TypeRow::Function(_) => own_facts(Kind::Function, id),
            TypeRow::Floating => own_facts(Kind::Floating, id),
            TypeRow::Qualified(quals, t) => match self.facts(*t) {
                Some(facts) => RowFacts {
                    kind: facts.kind,
                    element: id,
                    quals: *quals,
                    count: 1,
                    inner: facts.inner,
                },
                None => own_facts(Kind::Void, id),
            },
        }
    }

    // The id of this row, which goes last where it isn't there yet.
    fn put(&mut self, row: TypeRow) -> Result<TypeId, AllocError>
        requires { CanFollow (types_of_rows self.old) row }
        ensures grows { Grows self.old self.new }
        ensures made { Makes self.new result (λ types. type_of_row types row) }
    {
        if let Some(place) = self.rows.get_index_of(&row) {
            return id_of(place);
        }
        let id = id_of(self.rows.len())?;
        let facts = self.facts_of_row(&row, id);
        self.rows.insert(row, facts)?;
        Ok(id)
    }
}

// What is known of a type without qualifiers that is no array.
fn own_facts(kind: Kind, id: TypeId) -> RowFacts
    ensures { result ≡ record { kind = kind; element = id; quals = record { constant = false; volatile = false }; count = 1; inner = kind } }
{
    RowFacts {
        kind,
        element: id,
        quals: Quals {
            constant: false,
            volatile: false,
        },
        count: 1,
        inner: kind,
    }
}

// A number of elements, times another; numbers from 2^64 count as that.
fn counted(count: u128, length: u32) -> u128
    ensures { result ≡ min (min count (2 ^ 64) * length) (2 ^ 64) }
{
    (count.min(1 << 64) * u128::from(length)).min(1 << 64)
}

// The id of a place; there are no more than 2^32 ids.
fn id_of(place: usize) -> Result<TypeId, AllocError>
    ensures { IfOk result (λ id. id.place ≡ place) }
{
    match u32::try_from(place) {
        Ok(place) => Ok(TypeId { place }),
        Err(_) => Err(AllocError),
    }
}
