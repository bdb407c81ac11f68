//! Blocks, as lines make them.

ghost use Rattle.std.specs.Prelude.{◌≡◌, ◌*◌, not, nat_lt};
ghost use Rattle.lt_model.specs.Layout.{most_cells};

/// The most cells that an object may have.
pub const MOST_CELLS: u32 = 1_048_576;

/// Whether an object may have so many elements with so many cells.
pub fn is_object(cells: u32, count: u64) -> bool
    ensures { result ≡ not (nat_lt most_cells (count * cells)) }
{
    u128::from(count) * u128::from(cells) <= u128::from(MOST_CELLS)
}
