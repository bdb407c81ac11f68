mod expression;
mod unit;

pub use unit::max_id;
