//! Scan: the folds of each line up to each of its places.
#![tactic(auto)]

mod box_lines;
mod differences;
mod linear_scan;
mod near_totals;
mod number_scan;
mod outcomes;
mod prefix;
mod products;
mod recalled_scan;
mod residue_scan;
mod scan;
mod unit_products;

pub use scan::Scan;
