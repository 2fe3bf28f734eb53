//! Formulas: the value of an expression, and an expression with the last result of each node.
#![tactic(auto)]

mod application;
mod constant;
mod evaluation;
mod formula;
mod index_change;
mod input;
mod kept;
mod lent_fault;
mod literals;
mod operation_change;
mod plan;
mod positions;
mod refreshing;
mod stage;
mod sums;
mod table;

pub use evaluation::{Shows, evaluate, evaluate_counted};
pub use formula::Formula;
pub use input::Input;
pub use lent_fault::{LentFault, unknown};
pub use literals::array_of;
pub use plan::Plan;
