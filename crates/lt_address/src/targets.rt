ghost use Rattle.lt_address.specs.Targets.{IsAscending, IsAscending-prop};

use crate::target::Target;
use std::vec::Vec;

/// Targets in ascending order of block, each block once.
#[derive(Debug, Drop)]
pub struct Targets {
    pub list: Vec<Target>,
    ghost ascending: { IsAscending list.items } by { IsAscending-prop list.items },
}
