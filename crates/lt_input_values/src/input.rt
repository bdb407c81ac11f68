//! The inputs of tests.

ghost use Rattle.std.specs.Prelude.{◌≡◌, IfOk};
ghost use Rattle.lt_entry.specs.Inputs.{IsInOrder, built};

use crate::cell_order::cells_in_order;
use crate::copies::blocks_of;
use crate::stub_order::stubs_in_order;
use lt_entry::Test;
use lt_model::{Input, Sequence, Spec};
use std::alloc::{AllocError, Global};

/// The input of a test, in the order of the specification.
pub fn build(alloc: Global, test: &Test, spec: &Spec) -> Result<Input, AllocError>
    ensures input { IfOk result (λ input. input ≡ built test.now spec.now) }
    ensures ordered { IfOk result (IsInOrder spec.now) }
{
    let blocks = blocks_of(alloc, spec.blocks.as_slice())?;
    let cells = cells_in_order(alloc, spec, test.cells.as_slice())?;
    let stubs = stubs_in_order(alloc, spec, test.stubs.as_slice())?;
    Ok(Input {
        blocks: Sequence::new(blocks),
        cells: Sequence::new(cells),
        stubs: Sequence::new(stubs),
    })
}
