//! The sum of a list in which single numbers are replaced.

ghost use Rattle.std.specs.Prelude.{◌≡◌, ◌-◌, ◌<◌, ◌==◌, ◌++◌, ◌∷◌, [], length, IfOk, slice_set};
ghost use Rattle.function_names.specs.declared.scalar.Scalar2.TheVariants.{Plus};
ghost use Rattle.fold_trees.specs.FoldTrees.{IsReductionBy, IsWithinDigitsOf};

use crate::part_trees::PartTrees;
use crate::summary::Summary;
use arrays_core::Kind;
use std::alloc::{AllocError, Global};
use std::marker::Model;

/// The sum of a list of numbers, as a tree of parts. Replacing one of n numbers takes at most ⌈log2 n⌉ joins. A number
/// takes 32 bytes: 8 for itself, and 24 for a part of two numbers or more.
#[derive(Drop)]
pub struct SumTree {
    trees: PartTrees<Summary>,
}

impl Model for SumTree {
    ghost use Rattle.std.specs.Prelude.{ℤ, List};
    ghost use Rattle.fold_trees.specs.PartTrees.{IsOneLine};

    ghost Value = { List ℤ };

    ghost view = { λ t. t.trees.numbers };

    ghost invariant = { λ t. IsOneLine t.trees };
}

impl SumTree {
    /// Builds the tree of a list of numbers. AllocError if an allocation fails.
    pub fn build(alloc: Global, numbers: &[i64]) -> Result<SumTree, AllocError>
        ensures { IfOk result (λ t. t ≡ numbers.now) }
    {
        let trees = PartTrees::build(alloc, numbers, numbers.len().max(1), 1)?;
        Ok(SumTree { trees })
    }

    /// Returns the length of the list.
    pub fn len(&self) -> usize
        ensures { result ≡ length self.now }
    {
        self.trees.places()
    }

    /// Returns whether there are no numbers.
    pub fn is_empty(&self) -> bool
        ensures { result ≡ (length self.now == 0) }
    {
        self.len() == 0
    }

    /// Returns the reduction of the numbers by `+`, from the last to the first; 0 where there are none. LIMIT where a
    /// partial sum leaves 64 bits.
    pub fn result(&self) -> Result<i64, Kind>
        ensures { IsReductionBy Plus self.now result }
    {
        if self.is_empty() {
            return Ok(0);
        }
        self.trees.result(0)
    }

    /// Returns the reduction by `+` of the numbers and one more at the end. Takes at most one join.
    pub fn result_behind(&self, number: i64) -> Result<i64, Kind>
        ensures { IsReductionBy Plus (self.now ++ number ∷ []) result }
    {
        if self.is_empty() {
            return Ok(number);
        }
        self.trees.result_behind(0, number)
    }

    /// Returns the reduction by `+` with another number at a place, counted from 0, and the number of joins. For n
    /// numbers that is at most ⌈log2 n⌉, and at least 1 if n is 2 or more.
    pub fn result_with(&self, place: usize, number: i64) -> (Result<i64, Kind>, u32)
        requires { place < length self.now }
        ensures result { IsReductionBy Plus (slice_set self.now place number) result.0 }
        ensures joins { IsWithinDigitsOf (length self.now - 1) result.1 }
        ensures some { 1 < length self.now → 0 < result.1 }
    {
        self.trees.result_with(place, number)
    }

    /// Replaces the number at a place, counted from 0. Allocates nothing.
    pub fn set(&mut self, place: usize, number: i64)
        requires { place < length self.old }
        ensures { self.new ≡ slice_set self.old place number }
    {
        self.trees.set(place, number, None);
    }
}
