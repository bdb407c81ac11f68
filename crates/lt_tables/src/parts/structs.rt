// The extents of structs, each from those of the structs that it holds.

ghost use Rattle.std.specs.Prelude.{◌≡◌, ◌≤◌, ◌+◌, ℕ, false, None, Some, length, replicate, option_map, IfOk, IfSome, if◌then◌else◌};
ghost use Rattle.lt_model.specs.Layout.{no_members};
ghost use Rattle.lt_tree.specs.Typing.TypeRows.{type_in};
ghost use Rattle.lt_tree.specs.Typing.Extents.{members_extent, struct_extent};
ghost use Rattle.lt_table.specs.StructTables.{extent_value};
ghost use Rattle.lt_tables.specs.TypeParts.{extent_among, single_with, parts_extent, known_count};
ghost use Rattle.lt_tables.specs.PartTypes.{types_of, structs_with, members_with, type_extent_in, struct_extent_in, AreReachedIn, AreSettledIn};

use crate::parts::Parts;
use crate::type_parts::{Single, TypeParts, parts_at, parts_of_rows};
use lt_model::DataModel;
use lt_table::{Extent, no_members, repeated, whole, with_member};
use lt_tree::typed::{Member, StructType, TypeId, TypeRow};
use std::alloc::{AllocError, Global};

impl<'r> Parts<'r> {
    /// What the types of these rows are made of.
    pub fn new(
        alloc: Global,
        model: DataModel,
        rows: &'r [TypeRow],
    ) -> Result<Parts<'r>, AllocError>
        ensures model { IfOk result (λ parts. parts.model ≡ model) }
        ensures rows { IfOk result (λ parts. parts.rows.now ≡ rows.now) }
    {
        let list = parts_of_rows(alloc, model, rows)?;
        Ok(Parts { model, rows, list })
    }

    /// The extents of structs of these types. They follow one from the other: they are taken down in an order in which each
    /// struct stands behind those that it holds, and then in rounds until no more follows, which takes one round.
    pub fn extents(
        &self,
        alloc: Global,
        structs: &[StructType],
    ) -> Result<Vec<Option<Extent>>, AllocError>
        ensures { IfOk result (λ known. (k : ℕ) → extent_among known.items k ≡ struct_extent self.now.model (structs_with self.now structs.now) (length structs.now) k) }
    {
        let mut known = none_of(alloc, structs.len())?;
        self.learn_in(&self.order(alloc, structs)?, structs, &mut known);
        let mut is_changed = true;
        'rounds: while is_changed {
            is_changed = self.learn(structs, &mut known);
        }
        Ok(known)
    }

    // Takes down the extents that follow, in this order.
    fn learn_in(&self, order: &[usize], structs: &[StructType], known: &mut [Option<Extent>])
        requires { length known.old ≡ length structs.now }
        ensures { AreReachedIn self.now structs.now known.old → AreReachedIn self.now structs.now known.new }
    {
        for place in order {
            self.learn_at(*place, structs, known);
        }
    }

    // Takes down the extent of the struct at a place, if there is one and it follows.
    fn learn_at(&self, place: usize, structs: &[StructType], known: &mut [Option<Extent>])
        requires { length known.old ≡ length structs.now }
        ensures { AreReachedIn self.now structs.now known.old → AreReachedIn self.now structs.now known.new }
    {
        if place >= structs.len() {
            return;
        }
        match self.new_extent(known, place, &structs[place]) {
            None => {}
            Some(extent) => known[place] = Some(extent),
        }
    }

    // Takes down the extents that follow, in the order of the structs; whether there was one.
    fn learn(&self, structs: &[StructType], known: &mut [Option<Extent>]) -> bool
        requires { length known.old ≡ length structs.now }
        ensures more { known_count known.old + (if result then 1 else 0) ≤ known_count known.new }
        ensures reached { AreReachedIn self.now structs.now known.old → AreReachedIn self.now structs.now known.new }
        ensures settled { result ≡ false → AreSettledIn self.now structs.now known.new }
    {
        let mut is_changed = false;
        for (place, it) in structs.iter().enumerate() {
            if let Some(extent) = self.new_extent(known, place, it) {
                known[place] = Some(extent);
                is_changed = true;
            }
        }
        is_changed
    }

    // The extent of the struct at a place, where it isn't known and follows.
    fn new_extent(&self, known: &[Option<Extent>], place: usize, it: &StructType) -> Option<Extent>
        ensures new { IfSome result (λ extent. extent_among known.now place ≡ None) }
        ensures follows { IfSome result (λ extent. struct_extent_in self.now known.now it.now ≡ Some (extent_value extent)) }
        ensures none { result ≡ None → extent_among known.now place ≡ None → struct_extent_in self.now known.now it.now ≡ None }
    {
        match known_extent(known, place) {
            Some(_) => None,
            None => self.struct_extent(known, it),
        }
    }

    // The extent of a struct, as far as those that it holds are known.
    fn struct_extent(&self, known: &[Option<Extent>], it: &StructType) -> Option<Extent>
        ensures { option_map extent_value result ≡ struct_extent_in self.now known.now it.now }
    {
        match &it.members {
            None => None,
            Some(members) => whole(self.end_of(known, members)?),
        }
    }

    // The end of members and their greatest alignment.
    fn end_of(&self, known: &[Option<Extent>], members: &[Member]) -> Option<Extent>
        ensures { option_map extent_value result ≡ members_extent (type_extent_in self.now known.now) no_members (members_with self.now members.now) }
    {
        let mut before = no_members();
        for member in members {
            let extent = self.extent(known, member.ty)?;
            before = with_member(before, extent)?;
        }
        Some(before)
    }

    /// The extent of a type, where those of structs are known as far as they are.
    pub fn extent(&self, known: &[Option<Extent>], id: TypeId) -> Option<Extent>
        ensures { option_map extent_value result ≡ type_extent_in self.now known.now (type_in (types_of self.now) id) }
    {
        extent_by(known, parts_at(&self.list, id))
    }
}

// Nothing is known of so many structs.
fn none_of(alloc: Global, count: usize) -> Result<Vec<Option<Extent>>, AllocError>
    ensures { IfOk result (λ known. known.items ≡ replicate count None) }
{
    Ok(vec![in alloc; None; count]?)
}

/// The extent of a type that is made so.
pub fn extent_by(known: &[Option<Extent>], parts: TypeParts) -> Option<Extent>
    ensures { option_map extent_value result ≡ parts_extent (extent_among known.now) parts }
{
    let extent = single_extent(known, parts.element)?;
    repeated(extent, parts.count)
}

// The extent of a type that is no array.
fn single_extent(known: &[Option<Extent>], single: Single) -> Option<Extent>
    ensures { option_map extent_value result ≡ single_with (extent_among known.now) single }
{
    match single {
        Single::Scalar(extent) => Some(extent),
        Single::Struct(number) => known_extent(known, number as usize),
        Single::Other => None,
    }
}

// The extent of the struct of this number, as far as it is known.
fn known_extent(known: &[Option<Extent>], number: usize) -> Option<Extent>
    ensures { option_map extent_value result ≡ extent_among known.now number }
{
    match known.get(number) {
        None => None,
        Some(extent) => *extent,
    }
}
