//! Computes the change of a result from the changes of its arguments.
#![tactic(auto)]

mod arguments;
mod evaluation;
mod node;
mod patch;

pub use change_core::{Meter, Reach, Rule, growth_extends, reach_covers};
pub use index_region::{Delta, Patch, Seen, Tail};
pub use node::{change_of, refresh};
