// Replays suites on typed programs; `Replayed` of `lt_replayed` says which table of coverage that gives.
#![tactic(auto)]

mod draft;
mod marks;
mod order;
mod replaying;
mod seen;

pub use replaying::replay;
