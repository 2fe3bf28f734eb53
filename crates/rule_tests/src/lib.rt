//! Tests of change rules: the places that they reach, the change of a node, and the change of totals by trees of sums.
#![tactic(auto)]

#[cfg(test)]
mod box_tests;
#[cfg(test)]
mod fixtures;
#[cfg(test)]
mod fold_tree_tests;
#[cfg(test)]
mod refresh_tests;
#[cfg(test)]
mod row_sums_tests;
#[cfg(test)]
mod sum_tree_tests;
