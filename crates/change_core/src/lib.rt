//! Change rules: which items of a result change after boxes of the arguments changed.
#![tactic(auto)]

mod announced;
mod count;
mod meter;
mod reach;
mod rule;

pub use announced::Announced;
pub use count::Count;
pub use meter::Meter;
pub use reach::{Reach, Reached, growth_extends, last_place, reach_covers};
pub use rule::Rule;
