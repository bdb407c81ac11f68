//! What a replay works on.

use lt_model::DataModel;

/// What a replay works on: the bytes of its files, and what its options say.
#[derive(Drop)]
pub struct Sources {
    pub file: Vec<u8>,
    pub suite: Vec<u8>,
    pub entry: Option<Vec<u8>>,
    pub cover: Option<Vec<u8>>,
    pub model: DataModel,
    pub steps: u64,
}
