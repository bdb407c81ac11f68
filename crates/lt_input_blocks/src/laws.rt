//! Laws of the definitions; the functions do nothing.

ghost use Rattle.lt_input_blocks.specs.Elements.{CountsAreSmall};

/// A block of elements that have cells has no more elements than an object may have cells.
pub fn counts_of_blocks_are_small()
    ensures { CountsAreSmall }
{}
