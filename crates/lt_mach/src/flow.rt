//! What an act of a node comes to.

use lt_model::End;

/// What an act of a node comes to: the run goes on, or it is over.
#[derive(Drop)]
pub enum Flow {
    Goes,
    Over(End),
}
