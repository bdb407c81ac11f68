//! Where two tables don't agree on their labels or hyperlabels.

ghost use Rattle.std.specs.Prelude.{◌≡◌, ◌↔◌, IsTrue, IfOk, MatchOption, map};
ghost use Rattle.lt_cover.specs.Coverage.Merge.{IsLeastMixed, hyper_keys, label_keys};
ghost use Rattle.lt_merge.specs.Keys.{KeysRise, key_of};

use lt_cover::{HyperRow, LabelRow};
use std::alloc::{AllocError, Global};

/// An id with its tag.
#[derive(Clone, Copy)]
pub struct Key<'a> {
    pub id: u32,
    pub tag: &'a [u8],
}

/// The ids of labels with their tags.
pub fn keys_of_labels<'a>(alloc: Global, labels: &'a [LabelRow]) -> Result<Vec<Key<'a>>, AllocError>
    ensures { IfOk result (λ v. map key_of v.items ≡ label_keys labels.now) }
{
    let mut keys = Vec::new(alloc);
    for label in labels {
        keys.push(Key {
            id: label.id,
            tag: label.tag.as_slice(),
        })?;
    }
    Ok(keys)
}

/// The ids of hyperlabels with their tags.
pub fn keys_of_hypers<'a>(alloc: Global, hypers: &'a [HyperRow]) -> Result<Vec<Key<'a>>, AllocError>
    ensures { IfOk result (λ v. map key_of v.items ≡ hyper_keys hypers.now) }
{
    let mut keys = Vec::new(alloc);
    for hyper in hypers {
        keys.push(Key {
            id: hyper.id,
            tag: hyper.tag.as_slice(),
        })?;
    }
    Ok(keys)
}

fn is_same(a: Key<'_>, b: Key<'_>) -> bool
    ensures { IsTrue result ↔ (key_of a.entry ≡ key_of b.entry) }
{
    a.id == b.id && a.tag == b.tag
}

/// The least id on which the keys don't agree.
pub fn first_mixed(a: &[Key<'_>], b: &[Key<'_>]) -> Option<u32>
    requires first { KeysRise (map key_of a.now) }
    requires second { KeysRise (map key_of b.now) }
    ensures { MatchOption result (map key_of a.now ≡ map key_of b.now) (IsLeastMixed (map key_of a.now) (map key_of b.now)) }
{
    for i in 0..a.len() {
        if i >= b.len() {
            return Some(a[i].id);
        }
        if !is_same(a[i], b[i]) {
            return Some(a[i].id.min(b[i].id));
        }
    }
    if a.len() < b.len() {
        return Some(b[a.len()].id);
    }
    None
}
