//! Reduction, and the parts that scans and products share with it: lines of numbers, their folds, arrays of numbers.
#![tactic(auto)]

mod axis_lines;
mod bounds;
mod columns;
mod later_axis;
mod limits;
mod number_function;
mod reduce;
mod right_fold;
mod row_over_row;

pub use axis_lines::AxisLines;
pub use bounds::are_within;
pub use columns::put_over;
pub use later_axis::is_along_a_later_axis;
pub use limits::MOST_ITEMS;
pub use number_function::{NumberFunction, collect_numbers};
pub use reduce::Reduce;
pub use right_fold::{fold_line, identity_item, line_numbers, stride};
pub use row_over_row::put_row_over;
