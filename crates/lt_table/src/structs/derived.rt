ghost use Rattle.std.specs.Prelude.{◌≡◌, ℕ, ◌+◌, min, false, List, Some, IfOk, OnOk, OnErr, length, option_map};
ghost use Rattle.lt_model.specs.Layout.{then_some, rounded, resized, no_members};
ghost use Rattle.lt_tree.specs.Typing.Extents.{most_cells};
ghost use Rattle.lt_table.specs.StructTables.{AreDerived, AreMemberRows, IsCompleteRow, row_placed, extent_value, known_at, cells_from, constant_from, extent_from, offsets_from, whole_extent, pairs_of, names_in, place_of, place_in};

use super::extent::{Extent, member_offset, no_members, whole, with_member};
use super::queries::MOST_CELLS;
use super::{PlacedMember, StructFacts, StructTable};
use crate::table::{RowFacts, TypeTable};
use indexmap::IndexMap;
use lt_tree::typed::{Member, TypeId};
use std::alloc::{AllocError, Global};
use std::rc::Rc;

impl StructTable {
    // What is known of a struct with these members, each of which is complete.
    pub(super) fn derived(
        &self,
        types: &TypeTable,
        members: &[Member],
    ) -> Result<StructFacts, AllocError>
        ensures { IfOk result (AreDerived types.now self.now members.now) }
    {
        let rows = self.member_rows(types, members)?;
        let offsets = self.offsets_of(&rows)?;
        let placed = placed_of(self.alloc, members, &offsets)?;
        let places = self.places_of(members)?;
        Ok(StructFacts {
            cells: self.cells_of(&rows),
            extent: whole_of(self.extent_of(&rows)),
            has_constant: self.constant_of(&rows),
            offsets,
            placed: Rc::new(self.alloc, placed)?,
            places,
        })
    }

    // What is known of the types of members, each of which is complete.
    fn member_rows(
        &self,
        types: &TypeTable,
        members: &[Member],
    ) -> Result<Vec<RowFacts>, AllocError>
        ensures { IfOk result (λ rows. AreMemberRows types.now self.now members.now rows.items) }
    {
        let mut rows = Vec::new(self.alloc);
        for member in members {
            let row = self.complete_row(types, member.ty)?;
            rows.push(row)?;
        }
        Ok(rows)
    }

    // What is known of a type that is complete.
    fn complete_row(&self, types: &TypeTable, t: TypeId) -> Result<RowFacts, AllocError>
        ensures { IfOk result (IsCompleteRow types.now self.now t) }
    {
        let is_complete = self.is_complete(types, t);
        match (types.facts(t), is_complete) {
            (Some(row), Some(true)) => Ok(row),
            _ => Err(AllocError),
        }
    }

    // The place of the first member of each name. The members are taken from the last on, so that the first of a name stays.
    fn places_of(&self, members: &[Member]) -> Result<IndexMap<Vec<u8>, usize>, AllocError>
        ensures { IfOk result (λ places. (name : List ℕ) → place_in places name ≡ place_of name (names_in members.now)) }
    {
        let mut places = IndexMap::new(self.alloc);
        let mut left = members.len();
        'members: while 0 < left {
            left -= 1;
            let key = Vec::from_slice(self.alloc, members[left].name.as_slice())?;
            places.insert(key, left)?;
        }
        Ok(places)
    }

    // The cells of members; more than an object may have count as one more than that.
    fn cells_of(&self, rows: &[RowFacts]) -> u32
        ensures { result ≡ cells_from self.now.known.items 0 rows.now }
    {
        let mut cells = 0;
        for row in rows {
            cells = added(cells, self.row_cells(row));
        }
        cells
    }

    // Whether one of the members, or a part of one, is `const`.
    fn constant_of(&self, rows: &[RowFacts]) -> bool
        ensures { result ≡ constant_from self.now.known.items false rows.now }
    {
        let mut constant = false;
        for row in rows {
            constant |= self.row_constant(row);
        }
        constant
    }

    // The end of members and their greatest alignment.
    fn extent_of(&self, rows: &[RowFacts]) -> Option<Extent>
        ensures { option_map extent_value result ≡ extent_from self.now.model self.now.known.items no_members rows.now }
    {
        let mut before = no_members();
        for row in rows {
            let extent = self.row_extent(row)?;
            before = with_member(before, extent)?;
        }
        Some(before)
    }

    // The offsets of members, up to the first that has none.
    fn offsets_of(&self, rows: &[RowFacts]) -> Result<Vec<u64>, AllocError>
        ensures { IfOk result (λ offsets. offsets.items ≡ offsets_from self.now.model self.now.known.items no_members rows.now) }
    {
        let mut offsets = Vec::new(self.alloc);
        let mut before = no_members();
        for row in rows {
            let Some((offset, after)) = self.row_placed(before, row) else {
                return Ok(offsets);
            };
            offsets.push(offset)?;
            before = after;
        }
        Ok(offsets)
    }

    // Where a member stands behind others, and with it the end of all.
    fn row_placed(&self, before: Extent, row: &RowFacts) -> Option<(u64, Extent)>
        ensures { option_map (λ placed. (placed.0, extent_value placed.1)) result ≡ row_placed self.now.model self.now.known.items (extent_value before) row.now }
    {
        let extent = self.row_extent(row)?;
        let offset = member_offset(before, extent)?;
        let after = with_member(before, extent)?;
        Some((offset, after))
    }
}

// The types and the offsets of members, as far as there are offsets.
fn placed_of(
    alloc: Global,
    members: &[Member],
    offsets: &[u64],
) -> Result<Vec<PlacedMember>, AllocError>
    ensures { IfOk result (λ placed. placed.items ≡ pairs_of members.now offsets.now) }
{
    let mut placed = Vec::new(alloc);
    for (member, offset) in members.iter().zip(offsets) {
        let ty = member.ty;
        let offset = *offset;
        placed.push(PlacedMember { ty, offset })?;
    }
    Ok(placed)
}

// The extent of a struct whose members have one.
fn whole_of(members: Option<Extent>) -> Option<Extent>
    ensures { option_map extent_value result ≡ whole_extent (option_map extent_value members) }
{
    whole(members?)
}

// A sum of cells; more than an object may have count as one more than that.
fn added(cells: u32, more: u32) -> u32
    ensures { result ≡ min (cells + more) (most_cells + 1) }
{
    (u64::from(cells) + u64::from(more)).min(u64::from(MOST_CELLS) + 1) as u32
}
