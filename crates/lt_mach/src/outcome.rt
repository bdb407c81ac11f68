//! What comes of a run.

use lt_mem::Memory;
use lt_model::{End, Run};

/// How a run is over, without its marks: its end, the ticks that it spent, and memory as it was then.
#[derive(Drop)]
pub struct Brief {
    pub end: End,
    pub ticks: u64,
    pub memory: Memory,
}

/// A run, and memory as it was at its end.
#[derive(Drop)]
pub struct Outcome {
    pub run: Run,
    pub memory: Memory,
}
