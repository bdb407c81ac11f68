ghost use Rattle.std.specs.Prelude.{◌≡◌, ◌<◌, ◌↔◌, ◌&&◌, not, nat_lt, List, length, IsSome, IfSome, option_map, unwrap_or};
ghost use Rattle.std.specs.Option.{option_copied};
ghost use Rattle.lt_model.specs.Layout.{then_some};
ghost use Rattle.lt_tree.specs.Typing.Types.{CType};
ghost use Rattle.lt_tree.specs.Typing.TypeRows.{type_in};
ghost use Rattle.lt_tree.specs.Typing.Extents.{is_complete, has_size, has_too_many_cells, size_of, extent_of, has_constant_part};
ghost use Rattle.lt_tree.specs.Typing.Declarators.{is_incomplete};
ghost use Rattle.lt_table.specs.TableKinds.{kind_is_floating};
ghost use Rattle.lt_table.specs.TableElements.{kind_is_complete, kind_is_incomplete, kind_extent, kind_cells, kind_is_constant};
ghost use Rattle.lt_table.specs.TableRows.{Stays};
ghost use Rattle.lt_table.specs.StructTables.{structs_in, has_members, extent_value, known_at, facts_cells, facts_extent, facts_constant, row_cells, row_extent, row_constant, Suits};

use super::extent::{Extent, pointer_extent, repeated, scalar_extent};
use super::{StructFacts, StructTable};
use crate::table::{Kind, RowFacts, TypeTable};
use lt_tree::typed::TypeId;

// The most cells that an object may have.
pub const MOST_CELLS: u32 = 1048576;

/// What a type is, where its structs stand in this table, in constant time. None for an id of no row. The table of types is the one over which the
/// structs were completed, or has grown since.
impl StructTable {
    /// Whether an object of the type can be made.
    pub fn is_complete(&self, types: &TypeTable, t: TypeId) -> Option<bool>
        ensures row { IsSome result ↔ (t.place < length types.now) }
        ensures value { IfSome result (λ a. Stays types.now (λ longer. a ≡ is_complete (structs_in longer self.now) (type_in longer t))) }
    {
        let row = types.facts(t)?;
        Some(self.is_row_complete(&row))
    }

    /// Void, a struct that isn't complete, or an array of these.
    pub fn is_incomplete(&self, types: &TypeTable, t: TypeId) -> Option<bool>
        ensures row { IsSome result ↔ (t.place < length types.now) }
        ensures value { IfSome result (λ a. Stays types.now (λ longer. a ≡ is_incomplete (structs_in longer self.now) (type_in longer t))) }
    {
        let row = types.facts(t)?;
        Some(self.is_kind_incomplete(row.inner))
    }

    /// Whether the type has a size here: floating types have none.
    pub fn has_size(&self, types: &TypeTable, t: TypeId) -> Option<bool>
        ensures row { IsSome result ↔ (t.place < length types.now) }
        ensures value { IfSome result (λ a. Stays types.now (λ longer. a ≡ has_size (structs_in longer self.now) (type_in longer t))) }
    {
        let row = types.facts(t)?;
        Some(self.has_row_size(&row))
    }

    /// Whether an object of the type has more cells than an object may have.
    pub fn has_too_many_cells(&self, types: &TypeTable, t: TypeId) -> Option<bool>
        requires { Suits types.now self.now }
        ensures row { IsSome result ↔ (t.place < length types.now) }
        ensures value { IfSome result (λ a. Stays types.now (λ longer. a ≡ has_too_many_cells (structs_in longer self.now) (type_in longer t))) }
    {
        let row = types.facts(t)?;
        Some(self.row_cells(&row) > MOST_CELLS)
    }

    /// The size of a type in bytes; 0 where it has none, and where a number of bytes passes 64 bits.
    pub fn size_of(&self, types: &TypeTable, t: TypeId) -> Option<u64>
        requires { Suits types.now self.now }
        ensures row { IsSome result ↔ (t.place < length types.now) }
        ensures value { IfSome result (λ a. Stays types.now (λ longer. a ≡ size_of self.now.model (structs_in longer self.now) (type_in longer t))) }
    {
        let row = types.facts(t)?;
        Some(size(self.row_extent(&row)))
    }

    /// Whether the type or a part of it is `const`.
    pub fn has_constant_part(&self, types: &TypeTable, t: TypeId) -> Option<bool>
        requires { Suits types.now self.now }
        ensures row { IsSome result ↔ (t.place < length types.now) }
        ensures value { IfSome result (λ a. Stays types.now (λ longer. a ≡ has_constant_part (structs_in longer self.now) (type_in longer t))) }
    {
        let row = types.facts(t)?;
        Some(self.row_constant(&row))
    }

    // Whether the struct of this number is complete.
    pub(crate) fn is_struct_complete(&self, number: u32) -> bool
        ensures { result ≡ has_members self.now.structs.items number }
    {
        match self.structs.get(number as usize) {
            Some(it) => it.members.is_some(),
            None => false,
        }
    }

    fn is_kind_complete(&self, kind: Kind) -> bool
        ensures { (types : List CType) → result ≡ kind_is_complete (structs_in types self.now) kind }
    {
        match kind {
            Kind::Struct(number) => self.is_struct_complete(number),
            Kind::Num(_) | Kind::Pointer(_) | Kind::Floating => true,
            Kind::Void | Kind::Array(..) | Kind::Function => false,
        }
    }

    fn is_kind_incomplete(&self, kind: Kind) -> bool
        ensures { (types : List CType) → result ≡ kind_is_incomplete (structs_in types self.now) kind }
    {
        match kind {
            Kind::Void => true,
            Kind::Struct(number) => !self.is_struct_complete(number),
            _ => false,
        }
    }

    fn is_row_complete(&self, row: &RowFacts) -> bool
        ensures { (types : List CType) → result ≡ (nat_lt 0 row.now.count && kind_is_complete (structs_in types self.now) row.now.inner) }
    {
        row.count > 0 && self.is_kind_complete(row.inner)
    }

    fn has_row_size(&self, row: &RowFacts) -> bool
        ensures { (types : List CType) → result ≡ ((nat_lt 0 row.now.count && kind_is_complete (structs_in types self.now) row.now.inner) && not (kind_is_floating row.now.inner)) }
    {
        self.is_row_complete(row) && !row.inner.is_floating()
    }

    // What is known of the struct of this number, if it is complete.
    pub(super) fn known(&self, number: u32) -> Option<&StructFacts>
        ensures { option_copied result ≡ known_at self.now.known.items number }
    {
        match self.known.get(number as usize) {
            Some(Some(facts)) => Some(facts),
            _ => None,
        }
    }

    fn kind_cells(&self, kind: Kind) -> u32
        ensures { result ≡ kind_cells (λ k. facts_cells (known_at self.now.known.items k)) kind }
    {
        match kind {
            Kind::Num(_) | Kind::Pointer(_) | Kind::Floating => 1,
            Kind::Struct(number) => match self.known(number) {
                Some(facts) => facts.cells,
                None => 0,
            },
            Kind::Void | Kind::Array(..) | Kind::Function => 0,
        }
    }

    fn kind_extent(&self, kind: Kind) -> Option<Extent>
        ensures { option_map extent_value result ≡ kind_extent self.now.model (λ k. facts_extent (known_at self.now.known.items k)) kind }
    {
        match kind {
            Kind::Num(scalar) => Some(scalar_extent(self.model, scalar)),
            Kind::Pointer(_) => Some(pointer_extent(self.model)),
            Kind::Struct(number) => match self.known(number) {
                Some(facts) => facts.extent,
                None => None,
            },
            Kind::Void | Kind::Array(..) | Kind::Function | Kind::Floating => None,
        }
    }

    fn is_kind_constant(&self, kind: Kind) -> bool
        ensures { result ≡ kind_is_constant (λ k. facts_constant (known_at self.now.known.items k)) kind }
    {
        match kind {
            Kind::Struct(number) => match self.known(number) {
                Some(facts) => facts.has_constant,
                None => false,
            },
            _ => false,
        }
    }

    // The cells of a type; more than an object may have count as one more than that.
    pub(super) fn row_cells(&self, row: &RowFacts) -> u32
        ensures { result ≡ row_cells self.now.known.items row.now }
    {
        let cells = row.count.min(1 << 64) * u128::from(self.kind_cells(row.inner));
        cells.min(u128::from(MOST_CELLS) + 1) as u32
    }

    // The extent of a type that has one.
    pub(super) fn row_extent(&self, row: &RowFacts) -> Option<Extent>
        ensures { option_map extent_value result ≡ row_extent self.now.model self.now.known.items row.now }
    {
        let extent = self.kind_extent(row.inner)?;
        repeated(extent, row.count)
    }

    // Whether a type or a part of it is `const`.
    pub(super) fn row_constant(&self, row: &RowFacts) -> bool
        ensures { result ≡ row_constant self.now.known.items row.now }
    {
        row.quals.constant || self.is_kind_constant(row.inner)
    }
}

// Of a type that has an extent; else 0.
fn size(extent: Option<Extent>) -> u64
    ensures { result ≡ unwrap_or (then_some (option_map extent_value extent) (λ e. Some e.size)) 0 }
{
    match extent {
        Some(extent) => extent.size,
        None => 0,
    }
}
