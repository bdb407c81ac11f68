//! What is asked of the type of a block's elements.

ghost use Rattle.std.specs.Prelude.{◌≡◌, Some, true, false};
ghost use Rattle.lt_tree.specs.Typing.Types.{CType};
ghost use Rattle.lt_tree.specs.Typing.Programs.{Program};
ghost use Rattle.lt_entry.specs.Conditions.{is_block};
ghost use Rattle.lt_entry.specs.Views.{numeral_view};
ghost use Rattle.lt_input_blocks.specs.Elements.{IsAsked};

use lt_entry::Numeral;
use lt_input_wants::is_object;

/// What is asked of the type of a block's elements.
#[derive(Clone, Copy)]
pub struct Asked {
    pub has_size: bool,
    /// Of the elements of an array, and of theirs; of no array the type itself.
    pub is_pointer_to_function: bool,
    /// More than an object may have count as one more than that.
    pub cells: u32,
}

/// Whether a block of so many elements may be made, of whose type this is known.
pub fn is_block(asked: Asked, count: Numeral) -> bool
    ensures positive { result ≡ true → count.is_negative ≡ false }
    ensures block { (program : Program) (t : CType) → IsAsked program.structs t asked → result ≡ is_block program (numeral_view count) (Some t) }
{
    !count.is_negative
        && count.size > 0
        && asked.has_size
        && !asked.is_pointer_to_function
        && is_object(asked.cells, count.size)
}
