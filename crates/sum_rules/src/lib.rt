//! Updates totals of lines from trees of the lines.
#![tactic(auto)]

mod joined_patch;
mod line_sums;
mod line_totals;
mod new_lines;
mod summed;
mod totals;

pub use joined_patch::JoinedPatch;
pub use line_sums::{LineSums, keeps_sums};
pub use line_totals::{JoinedTrees, LineTotals};
pub use new_lines::NewLines;
pub use summed::read_totals_with_cost;
pub use totals::{fold_totals_with_cost, refresh_sums, refresh_totals_with_cost};
