//! Elimination of variables from linear rows; specs/Decision.antt says what is decided.
#![tactic(auto)]

mod arithmetic;
mod combination;
mod comparison;
mod condition;
mod deciding;
mod decision;
mod divisor;
mod eliminate;
mod event;
mod factor;
mod fraction;
mod keep;
mod kept;
mod law;
mod log;
mod normal;
mod numbered;
mod pair;
mod point;
mod stage;
mod stages;
mod system;

pub use condition::can_decide;
pub use deciding::decide;
pub use decision::Decision;
pub use law::{
    difference_points_stay_small, differences_are_whole, differences_stay_small, points_satisfy,
    refutations_have_lines,
};
