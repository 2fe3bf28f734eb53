//! Folds of lines in which single numbers are replaced, as trees of parts.
#![tactic(auto)]

mod extremes;
mod fold_trees;
mod joined;
mod line;
mod line_block;
mod line_tree;
mod neighbours;
mod part;
mod part_trees;
mod product;
mod sum_tree;
mod summary;
mod truths;

pub use fold_trees::{FoldTrees, NewFolds, NextFolds, has_trees};
pub use joined::Joined;
pub use sum_tree::SumTree;
