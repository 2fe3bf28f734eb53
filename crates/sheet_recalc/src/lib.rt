//! The sheet: names bound to data or formulas. The result of each formula is always current.
#![tactic(auto)]

mod ahead;
mod budget;
mod cell;
mod change;
mod commit;
mod cycle;
mod entry;
mod evaluation;
mod growth;
mod laws;
mod pending;
mod planning;
mod plans;
mod proposal;
mod proposed_sheet;
mod refusal;
mod row;
mod sheet;

pub use laws::{errors_arise_where_reached, unreached_names_stay, unreached_nodes_cost_nothing};
pub use pending::Pending;
pub use refusal::Refusal;
pub use sheet::{MOST_NAMES, Sheet};
