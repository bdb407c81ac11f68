//! Rows of types without qualifiers, each once.

ghost use Rattle.std.specs.Prelude.{◌≡◌, ◌+◌, ◌<◌, ◌^◌, length, IfOk, OnOk};
ghost use Rattle.lt_tree.specs.Typing.TypeRows.{type_of_row};
ghost use Rattle.lt_table.specs.TableRows.{Grows, Makes};
ghost use Rattle.lt_table.specs.RowsOnce.{AreOnce};
ghost use Rattle.lt_tables.specs.SimpleRows.{IsSimple, CanBeFound};

use crate::places::place_of;
use indexmap::IndexSet;
use lt_tree::typed::{TypeId, TypeRow};
use std::alloc::{AllocError, Global};
use std::marker::Model;

/// Rows of types, each once, behind those of which it is made. Contracts see them as a list.
#[derive(Drop)]
pub struct InternedRows {
    rows: IndexSet<TypeRow>,
}

impl Model for InternedRows {
    ghost use Rattle.std.specs.Prelude.{List};
    ghost use Rattle.lt_tree.specs.declared.typed.types.TypeRow.{TypeRow};

    ghost Value = { List TypeRow };

    ghost use Rattle.lt_tables.specs.SimpleRows.{CanBeFound};

    ghost view = { λ t. t.rows.keys };

    ghost invariant = { λ t. CanBeFound t.rows.keys };
}

impl InternedRows {
    /// These rows.
    pub fn new(alloc: Global, list: Vec<TypeRow>) -> Result<InternedRows, AllocError>
        requires { AreOnce list.items }
        ensures { IfOk result (λ it. it ≡ list.items) }
    {
        room(list.len())?;
        let mut rows = IndexSet::new(alloc);
        for row in list {
            rows.insert(row)?;
        }
        Ok(InternedRows { rows })
    }

    /// How many rows there are.
    pub fn len(&self) -> usize
        ensures { result ≡ length self.now }
    {
        self.rows.len()
    }

    /// Each row stands once.
    pub fn stand_once(&self)
        ensures { CanBeFound self.now }
    {
        let _rows = &self.rows;
    }

    /// The id of this row, which goes last where it isn't there yet.
    pub fn put(&mut self, row: TypeRow) -> Result<TypeId, AllocError>
        requires { IsSimple (length self.old) row }
        ensures grows { Grows self.old self.new }
        ensures made { Makes self.new result (λ types. type_of_row types row) }
    {
        room(self.rows.len())?;
        let (place, _) = self.rows.insert_full(row)?;
        Ok(TypeId {
            place: place_of(place)?,
        })
    }
}

// Whether one more row has an id; a table that would have 2^32 rows has no memory.
fn room(len: usize) -> Result<(), AllocError>
    ensures { OnOk result (len + 1 < 2 ^ 32) }
{
    if len < u32::MAX as usize {
        Ok(())
    } else {
        Err(AllocError)
    }
}
