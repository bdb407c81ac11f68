// Sets of whole numbers, each an interval with a congruence: `specs/Num.antt` says which numbers a `Num` holds, and `specs/Table.antt` what operators give.
#![tactic(auto)]

mod conversion;
mod cut;
mod lattice;
mod law;
mod modular;
mod num;
mod operators;
mod order;
mod progression;
mod relation;
mod rounding;

pub use conversion::{convert, convert_monotone_law, convert_sound_law};
pub use lattice::{join, meet};
pub use law::{
    common_divisor_law, forward_monotone_law, forward_sound_law, one_form_law, relation_law,
};
pub use num::Num;
pub use operators::forward;
pub use order::{is_below, is_member};
pub use progression::{between, single};
pub use relation::refine;
pub use rounding::{round, round_again_law, round_height_law, round_monotone_law};
