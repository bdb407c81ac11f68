// The ids of marks, and their labels.

ghost use Rattle.std.specs.Prelude.{◌≡◌, List, IfOk};
ghost use Rattle.lt_tree.specs.Typing.Types.{CType};
ghost use Rattle.lt_tree.specs.Typing.EntityView as view;
ghost use Rattle.lt_tree.specs.Typing.MarkRules as marks;
ghost use Rattle.lt_env.specs.Going.{known_of};

use lt_env::Walker;
use lt_model::Name;
use lt_table::id_of;
use lt_tree::typed::LabelInfo;
use std::alloc::{AllocError, Global};

/// The greatest id that a text may have; those that are added later go on from there.
const GREATEST_WRITTEN_ID: u32 = 1_000_000_000;

/// An id as a number; 0 where it is none.
pub(super) fn number_of_id(text: &[u8]) -> u32
    ensures { result ≡ marks.number_of_id text.now }
{
    id_of(text).unwrap_or(0)
}

/// Whether it is an id that no mark before has, at most the greatest.
pub(super) fn is_good_id(walker: &Walker, text: &[u8]) -> bool
    ensures { (types : List CType) → result ≡ marks.is_good_id (known_of types walker.now) text.now }
{
    match id_of(text) {
        Some(id) => id <= GREATEST_WRITTEN_ID && !walker.labels.has_id(id),
        None => false,
    }
}

/// A label with these names.
pub(super) fn label(
    alloc: Global,
    id: &[u8],
    tag: &[u8],
    names: Vec<Name>,
) -> Result<LabelInfo, AllocError>
    ensures { IfOk result (λ label. view.label_of label ≡ marks.label_of id.now tag.now names.items) }
{
    let tag = Name::new(alloc, tag)?;
    Ok(LabelInfo {
        id: number_of_id(id),
        tag,
        bound: names,
    })
}
