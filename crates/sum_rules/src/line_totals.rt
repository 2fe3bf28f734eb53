//! Trees that compute the total of a line with another number at a place, or one more at its end.

ghost use Rattle.std.specs.Prelude.{◌≡◌, true, ◌<◌, ◌-◌, ◌/◌, ◌%◌, ◌++◌, ◌∷◌, [], length};
ghost use Rattle.fold_trees.specs.FoldTrees.{IsWithinDigitsOf, IsReductionBy, has_trees};
ghost use Rattle.fold_trees.specs.Joined.{IsJoinedFor};
ghost use Rattle.fold_trees.specs.ArrayLines.{TreesValue, line_count, numbers_of_line, numbers_through, with_number};
ghost use Rattle.function_names.specs.declared.scalar.Scalar2.{Scalar2 as Function};
ghost use Rattle.function_names.specs.declared.scalar.Scalar2.TheVariants.{Plus as Sum};
ghost use Rattle.sum_rules.specs.Totals.{AreAllAsLong, all_trees};

use arrays_core::Kind;
use fold_trees::{FoldTrees, Joined, SumTree};
use item_fns::Scalar2;
use std::marker::Model;

/// Trees of the lines of an array along an axis, for one function.
pub trait LineTotals {
    ghost use Rattle.std.specs.Prelude.{◌≡◌, true, ◌<◌, ◌-◌, ◌++◌, ◌∷◌, [], length};
    ghost use Rattle.fold_trees.specs.FoldTrees.{IsWithinDigitsOf, IsReductionBy, has_trees};
    ghost use Rattle.fold_trees.specs.ArrayLines.{TreesValue, line_count, numbers_of_line, numbers_through, with_number};
    ghost use Rattle.function_names.specs.declared.scalar.Scalar2.{Scalar2 as Function};

    // The function that folds the lines.
    ghost function: { Self → Function };

    // The numbers of all lines.
    ghost trees: { Self → TreesValue };

    /// Returns the function that folds the lines.
    fn folds_by(&self) -> Scalar2
        ensures is { result ≡ function self.now }
        ensures one { has_trees result ≡ true };

    /// Returns the total of the line through a place with another number there, and the number of parts joined for it. Places count from 0. Fails
    /// with the error of the right fold.
    fn total_with(&self, place: usize, number: i64) -> (Result<i64, Kind>, u32)
        requires { place < length (trees self.now).numbers }
        ensures total { IsReductionBy (function self.now) (numbers_through (with_number (trees self.now) place number) place) result.0 }
        ensures joins { IsWithinDigitsOf ((trees self.now).count - 1) result.1 }
        ensures some { 1 < (trees self.now).count → 0 < result.1 };

    /// Returns the total of a line without a join; lines count from 0. Fails with the error of the right fold.
    fn total(&self, line: usize) -> Result<i64, Kind>
        requires { line < line_count (trees self.now) }
        ensures { IsReductionBy (function self.now) (numbers_of_line (trees self.now) line) result };

    /// Returns the line that was remembered last, counted from 0. The line is a hint that no contract mentions.
    fn failing_line(&self) -> usize {
        0
    }

    /// Remembers a line whose total is an error.
    fn remember_failing(&self, _line: usize) {}

    /// Returns the total of a line with one more number at its end, in one join; lines count from 0. Fails with the error of the right fold.
    fn total_behind(&self, line: usize, number: i64) -> Result<i64, Kind>
        requires { line < line_count (trees self.now) }
        ensures { IsReductionBy (function self.now) (numbers_of_line (trees self.now) line ++ number ∷ []) result };
}

/// Trees, with the parts joined for another number at one place, if any.
#[derive(Drop)]
pub struct JoinedTrees<'a> {
    trees: &'a FoldTrees,
    joined: Option<&'a Joined>,
}

impl<'a> Model for JoinedTrees<'a> {
    ghost use Rattle.std.specs.Prelude.{IfSome};
    ghost use Rattle.fold_trees.specs.FoldTrees.{FoldsValue};
    ghost use Rattle.fold_trees.specs.Joined.{IsJoinedFor};

    ghost Value = { FoldsValue };

    ghost view = { λ t. t.trees.now };

    ghost invariant = { λ t. IfSome t.joined (λ j. IsJoinedFor t.trees.now j.now) };
}

impl<'a> JoinedTrees<'a> {
    /// Combines trees with the parts joined for another number at a place.
    pub(crate) fn of(trees: &'a FoldTrees, joined: &'a Joined) -> JoinedTrees<'a>
        requires { IsJoinedFor trees.now joined.now }
        ensures { result ≡ trees.now }
    {
        JoinedTrees {
            trees,
            joined: Some(joined),
        }
    }

    /// Wraps trees without joined parts.
    pub fn alone(trees: &'a FoldTrees) -> JoinedTrees<'a>
        ensures { result ≡ trees.now }
    {
        JoinedTrees {
            trees,
            joined: None,
        }
    }
}

impl<'a> LineTotals for JoinedTrees<'a> {
    ghost function = { λ t. t.function };

    ghost trees = { λ t. t.lines };

    fn folds_by(&self) -> Scalar2 {
        self.trees.function()
    }

    fn total_with(&self, place: usize, number: i64) -> (Result<i64, Kind>, u32) {
        if let Some(joined) = self.joined {
            if joined.is_for(place, number) {
                return joined.result();
            }
        }
        self.trees.result_with(place, number)
    }

    fn total(&self, line: usize) -> Result<i64, Kind> {
        self.trees.result(line)
    }

    fn failing_line(&self) -> usize {
        self.trees.failing_line()
    }

    fn remember_failing(&self, line: usize) {
        self.trees.remember_failing(line);
    }

    fn total_behind(&self, line: usize, number: i64) -> Result<i64, Kind> {
        self.trees.result_behind(line, number)
    }
}

/// One tree for each line of `count` contiguous numbers.
#[derive(Clone, Copy)]
pub(crate) struct TreeALine<'a> {
    pub(crate) count: usize,
    pub(crate) trees: &'a [SumTree],
    ghost some: { 0 < count },
    ghost each: { AreAllAsLong count trees.now },
}

impl<'a> LineTotals for TreeALine<'a> {
    ghost function = { λ t. Sum };

    ghost trees = { λ t. all_trees t.count t.trees.now };

    fn folds_by(&self) -> Scalar2 {
        Scalar2::Plus
    }

    fn total_with(&self, place: usize, number: i64) -> (Result<i64, Kind>, u32) {
        self.trees[place / self.count].result_with(place % self.count, number)
    }

    fn total(&self, line: usize) -> Result<i64, Kind> {
        self.trees[line].result()
    }

    fn total_behind(&self, line: usize, number: i64) -> Result<i64, Kind> {
        self.trees[line].result_behind(number)
    }
}
