//! What names and tags of file scope stand for, in maps that are made once.
mod lookups;

use lt_tree::typed::{Entity, Program, Tagged};
use std::collections::HashMap;

/// What the names and the tags of a program's file scope stand for, the latest of each.
#[derive(Drop)]
pub struct FileNames<'p> {
    pub program: &'p Program<'p>,
    names: HashMap<&'p [u8], Entity>,
    tags: HashMap<&'p [u8], Tagged>,
}
