//! The cells that requirements may name.

use std::collections::HashSet;

/// The cells that requirements may name: those of objects with these names, and those at these places.
#[derive(Drop)]
pub struct Free<'p> {
    pub own: HashSet<&'p [u8]>,
    pub ranged: HashSet<(&'p [u8], u64)>,
}
