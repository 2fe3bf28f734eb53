//! Outer and inner products of scalar functions. Re-exports reduction, scan and sum trees.
#![tactic(auto)]

mod bit_rows;
mod grid;
mod inner_product;
mod outer_product;
mod row_by_column;
mod row_folds;
mod small_products;
mod unions;

pub use fold_trees::SumTree;
pub use inner_product::Inner;
pub use outer_product::Outer;
pub use reduce_fns::Reduce;
pub use scan_fns::Scan;
