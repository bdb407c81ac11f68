//! The greatest nest of a text.

ghost use Rattle.std.specs.Prelude.{IfOk};
ghost use Rattle.lt_nest.specs.Greatest.{IsGreatestNest};

use crate::front::front_cut;
use crate::walk::Walk;
use lt_lex::fresh_after;
use std::alloc::{AllocError, Global};

/// The greatest nest of the tokens of a text: 0 where it has none, and `None` where the text isn't
/// tokens. (Takes memory for the open brackets alone, and time in proportion to the text.)
pub fn greatest_nest(alloc: Global, text: &[u8]) -> Result<Option<u64>, AllocError>
    ensures { IfOk result (IsGreatestNest text.now) }
{
    let mut walk = Walk::new(alloc);
    let mut rest = text;
    let mut fresh = true;
    while !rest.is_empty() {
        let (sort, len) = front_cut(fresh, rest);
        let (piece, after) = rest.split_at(len);
        if !walk.take(sort, piece)? {
            return Ok(None);
        }
        fresh = fresh_after(fresh, piece);
        rest = after;
    }
    walk.end()
}
