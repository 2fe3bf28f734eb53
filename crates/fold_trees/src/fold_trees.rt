//! The trees of the lines of an array, for each function that has trees.

ghost use Rattle.std.specs.Prelude.{◌≡◌, ◌+◌, ◌-◌, ◌*◌, ◌%◌, ◌^◌, ◌<◌, ◌==◌, ◌++◌, ◌∷◌, [], true, length, IfOk, OnOk};
ghost use Rattle.fold_trees.specs.FoldTrees.{IsWithinDigitsOf, has_trees, AreFoldedBehind, AreFoldedNext, IsReductionBy};
ghost use Rattle.fold_trees.specs.ArrayLines.{line_count, numbers_of_line, with_lines, with_number, with_places, numbers_through};
ghost use Rattle.fold_trees.specs.Joined.{ArePartsFor, IsJoinedFor};

use crate::extremes::{Greatest, Least};
use crate::joined::{Joined, JoinedParts};
use crate::part_trees::{NewParts, NextParts, PartTrees};
use crate::product::Product;
use crate::summary::Summary;
use crate::truths::{AllTrue, AnyTrue};
use arrays_core::Kind;
use item_fns::Scalar2;
use std::alloc::{AllocError, Global};
use std::cell::Cell;
use std::marker::Model;

/// Returns whether folds by a function can be stored as trees: the parts of two adjacent lists join into the part of both.
pub fn has_trees(function: Scalar2) -> bool
    ensures { result ≡ has_trees function }
{
    match function {
        Scalar2::Plus
        | Scalar2::Times
        | Scalar2::Maximum
        | Scalar2::Minimum
        | Scalar2::And
        | Scalar2::Or => true,
        _ => false,
    }
}

/// The trees, by function.
#[derive(Drop)]
enum Trees {
    Sum(PartTrees<Summary>),
    Product(PartTrees<Product>),
    Greatest(PartTrees<Greatest>),
    Least(PartTrees<Least>),
    AllTrue(PartTrees<AllTrue>),
    AnyTrue(PartTrees<AnyTrue>),
}

/// The trees of further lines, by function.
#[derive(Drop)]
enum Lines {
    Sum(NewParts<Summary>),
    Product(NewParts<Product>),
    Greatest(NewParts<Greatest>),
    Least(NewParts<Least>),
    AllTrue(NewParts<AllTrue>),
    AnyTrue(NewParts<AnyTrue>),
}

/// One more place of each line, by function.
#[derive(Drop)]
enum Places {
    Sum(NextParts<Summary>),
    Product(NextParts<Product>),
    Greatest(NextParts<Greatest>),
    Least(NextParts<Least>),
    AllTrue(NextParts<AllTrue>),
    AnyTrue(NextParts<AnyTrue>),
}

/// The lines of an array along one axis, each as a tree of the parts of its fold by a function. With one number
/// replaced, the fold of a line of n numbers takes at most ⌈log2 n⌉ joins.
#[derive(Drop)]
pub struct FoldTrees {
    trees: Trees,
    /// The last argument of `remember_failing`.
    failing: Cell<usize>,
}

impl Model for FoldTrees {
    ghost use Rattle.fold_trees.specs.FoldTrees.{FoldsValue};

    ghost Value = { FoldsValue };

    ghost use Rattle.fold_trees.specs.FoldKinds.{folds_of};

    ghost view = { λ t. folds_of t.trees };
}

impl FoldTrees {
    /// Builds the trees of lines of `count` numbers; neighbours on a line are `step` places apart. AllocError if an allocation fails.
    pub fn build(
        alloc: Global,
        function: Scalar2,
        numbers: &[i64],
        count: usize,
        step: usize,
    ) -> Result<FoldTrees, AllocError>
        requires function { has_trees function ≡ true }
        requires some { 0 < count }
        requires apart { 0 < step }
        requires whole { length numbers.now % (count * step) ≡ 0 }
        ensures { IfOk result (λ t. t ≡ record { function = function; lines = record { count = count; step = step; numbers = numbers.now } }) }
    {
        let trees = match function {
            Scalar2::Plus => Trees::Sum(PartTrees::build(alloc, numbers, count, step)?),
            Scalar2::Times => Trees::Product(PartTrees::build(alloc, numbers, count, step)?),
            Scalar2::Maximum => Trees::Greatest(PartTrees::build(alloc, numbers, count, step)?),
            Scalar2::Minimum => Trees::Least(PartTrees::build(alloc, numbers, count, step)?),
            Scalar2::And => Trees::AllTrue(PartTrees::build(alloc, numbers, count, step)?),
            Scalar2::Or => Trees::AnyTrue(PartTrees::build(alloc, numbers, count, step)?),
            _ => unreachable!(),
        };
        Ok(FoldTrees {
            trees,
            failing: Cell::new(0),
        })
    }

    /// Returns the function that folds the lines.
    pub fn function(&self) -> Scalar2
        ensures is { result ≡ self.now.function }
        ensures one { has_trees result ≡ true }
    {
        match &self.trees {
            Trees::Sum(_) => Scalar2::Plus,
            Trees::Product(_) => Scalar2::Times,
            Trees::Greatest(_) => Scalar2::Maximum,
            Trees::Least(_) => Scalar2::Minimum,
            Trees::AllTrue(_) => Scalar2::And,
            Trees::AnyTrue(_) => Scalar2::Or,
        }
    }

    /// Returns the number of lines.
    pub fn len(&self) -> usize
        ensures { result ≡ line_count self.now.lines }
    {
        match &self.trees {
            Trees::Sum(trees) => trees.len(),
            Trees::Product(trees) => trees.len(),
            Trees::Greatest(trees) => trees.len(),
            Trees::Least(trees) => trees.len(),
            Trees::AllTrue(trees) => trees.len(),
            Trees::AnyTrue(trees) => trees.len(),
        }
    }

    /// Returns whether there are no lines.
    pub fn is_empty(&self) -> bool
        ensures { result ≡ (line_count self.now.lines == 0) }
    {
        self.len() == 0
    }

    /// Returns the fold of a line from the last number to the first, or its error. Lines are counted from 0.
    pub fn result(&self, line: usize) -> Result<i64, Kind>
        requires { line < line_count self.now.lines }
        ensures { IsReductionBy self.now.function (numbers_of_line self.now.lines line) result }
    {
        match &self.trees {
            Trees::Sum(trees) => trees.result(line),
            Trees::Product(trees) => trees.result(line),
            Trees::Greatest(trees) => trees.result(line),
            Trees::Least(trees) => trees.result(line),
            Trees::AllTrue(trees) => trees.result(line),
            Trees::AnyTrue(trees) => trees.result(line),
        }
    }

    /// Returns the last argument of `remember_failing`, or 0 if it was not called. No contract covers it: that line may
    /// no longer fail, or no longer exist.
    pub fn failing_line(&self) -> usize {
        self.failing.get()
    }

    /// Remembers a line whose fold fails, as the first one to check.
    pub fn remember_failing(&self, line: usize) {
        self.failing.set(line);
    }

    /// Returns the fold of a line with one more number at its end, from the last number to the first, or its error.
    /// Takes one join. Lines are counted from 0.
    pub fn result_behind(&self, line: usize, number: i64) -> Result<i64, Kind>
        requires { line < line_count self.now.lines }
        ensures { IsReductionBy self.now.function (numbers_of_line self.now.lines line ++ number ∷ []) result }
    {
        match &self.trees {
            Trees::Sum(trees) => trees.result_behind(line, number),
            Trees::Product(trees) => trees.result_behind(line, number),
            Trees::Greatest(trees) => trees.result_behind(line, number),
            Trees::Least(trees) => trees.result_behind(line, number),
            Trees::AllTrue(trees) => trees.result_behind(line, number),
            Trees::AnyTrue(trees) => trees.result_behind(line, number),
        }
    }

    /// Returns the fold of the line of a place with another number there, or its error, and the number of joins. A line
    /// of n numbers takes at most ⌈log2 n⌉ joins. Places are counted from 0.
    pub fn result_with(&self, place: usize, number: i64) -> (Result<i64, Kind>, u32)
        requires { place < length self.now.lines.numbers }
        ensures result { IsReductionBy self.now.function (numbers_through (with_number self.now.lines place number) place) result.0 }
        ensures most { IsWithinDigitsOf (self.now.lines.count - 1) result.1 }
        ensures least { 1 < self.now.lines.count → 0 < result.1 }
    {
        match &self.trees {
            Trees::Sum(trees) => trees.result_with(place, number),
            Trees::Product(trees) => trees.result_with(place, number),
            Trees::Greatest(trees) => trees.result_with(place, number),
            Trees::Least(trees) => trees.result_with(place, number),
            Trees::AllTrue(trees) => trees.result_with(place, number),
            Trees::AnyTrue(trees) => trees.result_with(place, number),
        }
    }

    /// Computes the same as `result_with`, and stores the fold and the joined parts for `set_joined`. Reuses the memory
    /// of `joined`, and allocates only beyond its capacity. AllocError if that fails.
    pub fn join(&self, place: usize, number: i64, joined: &mut Joined) -> Result<(), AllocError>
        requires { place < length self.now.lines.numbers }
        ensures joined { OnOk result (IsJoinedFor self.now joined.new) }
        ensures place { OnOk result (joined.new.place ≡ place) }
        ensures number { OnOk result (joined.new.number ≡ number) }
    {
        let (total, joins) = self.join_parts(place, number, &mut joined.parts)?;
        joined.place = place;
        joined.number = number;
        joined.total = total;
        joined.joins = joins;
        Ok(())
    }

    /// Computes the same as `result_with`, and stores the joined parts in the list of the function. AllocError if an
    /// allocation fails.
    fn join_parts(
        &self,
        place: usize,
        number: i64,
        parts: &mut JoinedParts,
    ) -> Result<(Result<i64, Kind>, u32), AllocError>
        requires { place < length self.now.lines.numbers }
        ensures parts { IfOk result (λ r. ArePartsFor self.now.function self.now.lines place number parts.new) }
        ensures result { IfOk result (λ r. IsReductionBy self.now.function (numbers_through (with_number self.now.lines place number) place) r.0) }
        ensures most { IfOk result (λ r. IsWithinDigitsOf (self.now.lines.count - 1) r.1) }
        ensures least { IfOk result (λ r. 1 < self.now.lines.count → 0 < r.1) }
    {
        match &self.trees {
            Trees::Sum(trees) => trees.join(place, number, &mut parts.sums),
            Trees::Product(trees) => trees.join(place, number, &mut parts.products),
            Trees::Greatest(trees) => trees.join(place, number, &mut parts.greatest),
            Trees::Least(trees) => trees.join(place, number, &mut parts.least),
            Trees::AllTrue(trees) => trees.join(place, number, &mut parts.all_true),
            Trees::AnyTrue(trees) => trees.join(place, number, &mut parts.any_true),
        }
    }

    /// Replaces the number that was joined, and writes its parts as nodes. Joins and allocates nothing.
    pub fn set_joined(&mut self, joined: &Joined)
        requires { IsJoinedFor self.old joined.now }
        ensures { self.new ≡ record { function = self.old.function; lines = with_number self.old.lines joined.now.place joined.now.number } }
    {
        let place = joined.place;
        let number = joined.number;
        let parts = &joined.parts;
        match &mut self.trees {
            Trees::Sum(trees) => trees.set(place, number, Some(parts.sums.as_slice())),
            Trees::Product(trees) => trees.set(place, number, Some(parts.products.as_slice())),
            Trees::Greatest(trees) => trees.set(place, number, Some(parts.greatest.as_slice())),
            Trees::Least(trees) => trees.set(place, number, Some(parts.least.as_slice())),
            Trees::AllTrue(trees) => trees.set(place, number, Some(parts.all_true.as_slice())),
            Trees::AnyTrue(trees) => trees.set(place, number, Some(parts.any_true.as_slice())),
        }
    }

    /// Replaces the number at a place, counted from 0. Allocates nothing.
    pub fn set(&mut self, place: usize, number: i64)
        requires { place < length self.old.lines.numbers }
        ensures { self.new ≡ record { function = self.old.function; lines = with_number self.old.lines place number } }
    {
        match &mut self.trees {
            Trees::Sum(trees) => trees.set(place, number, None),
            Trees::Product(trees) => trees.set(place, number, None),
            Trees::Greatest(trees) => trees.set(place, number, None),
            Trees::Least(trees) => trees.set(place, number, None),
            Trees::AllTrue(trees) => trees.set(place, number, None),
            Trees::AnyTrue(trees) => trees.set(place, number, None),
        }
    }

    /// Appends one number to each line. Allocates nothing.
    pub fn lengthen(&mut self, more: NextFolds)
        requires { AreFoldedNext self.old more }
        ensures { self.new ≡ record { function = self.old.function; lines = with_places self.old.lines more.places.numbers } }
    {
        match (&mut self.trees, more.places) {
            (Trees::Sum(trees), Places::Sum(more)) => trees.lengthen(more),
            (Trees::Product(trees), Places::Product(more)) => trees.lengthen(more),
            (Trees::Greatest(trees), Places::Greatest(more)) => trees.lengthen(more),
            (Trees::Least(trees), Places::Least(more)) => trees.lengthen(more),
            (Trees::AllTrue(trees), Places::AllTrue(more)) => trees.lengthen(more),
            (Trees::AnyTrue(trees), Places::AnyTrue(more)) => trees.lengthen(more),
            _ => unreachable!(),
        }
    }

    /// Appends further lines. Allocates nothing.
    pub fn grow(&mut self, more: NewFolds)
        requires { AreFoldedBehind self.old more }
        ensures { self.new ≡ record { function = self.old.function; lines = with_lines self.old.lines more.lines.numbers } }
    {
        match (&mut self.trees, more.lines) {
            (Trees::Sum(trees), Lines::Sum(more)) => trees.grow(more),
            (Trees::Product(trees), Lines::Product(more)) => trees.grow(more),
            (Trees::Greatest(trees), Lines::Greatest(more)) => trees.grow(more),
            (Trees::Least(trees), Lines::Least(more)) => trees.grow(more),
            (Trees::AllTrue(trees), Lines::AllTrue(more)) => trees.grow(more),
            (Trees::AnyTrue(trees), Lines::AnyTrue(more)) => trees.grow(more),
            _ => unreachable!(),
        }
    }
}

/// The trees of the lines that an array grows by, with the memory that all lines may need. `FoldTrees::grow` then
/// allocates nothing.
#[derive(Drop)]
pub struct NewFolds {
    lines: Lines,
}

impl Model for NewFolds {
    ghost use Rattle.fold_trees.specs.FoldTrees.{NewFoldsValue};

    ghost Value = { NewFoldsValue };

    ghost use Rattle.fold_trees.specs.FoldKinds.{new_folds_of};

    ghost view = { λ n. new_folds_of n.lines };
}

impl NewFolds {
    /// Builds the trees of lines of `count` numbers, `step` places apart, to follow `old` lines. AllocError if an
    /// allocation fails.
    pub fn build(
        alloc: Global,
        function: Scalar2,
        numbers: &[i64],
        count: usize,
        step: usize,
        old: usize,
    ) -> Result<NewFolds, AllocError>
        requires function { has_trees function ≡ true }
        requires some { 0 < count }
        requires apart { 0 < step }
        requires whole { length numbers.now % (count * step) ≡ 0 }
        requires few { old * count + length numbers.now < 2 ^ 63 }
        ensures { IfOk result (λ n. n ≡ record { function = function; lines = record { count = count; step = step; old_lines = old; numbers = numbers.now } }) }
    {
        let lines = match function {
            Scalar2::Plus => Lines::Sum(NewParts::build(alloc, numbers, count, step, old)?),
            Scalar2::Times => Lines::Product(NewParts::build(alloc, numbers, count, step, old)?),
            Scalar2::Maximum => {
                Lines::Greatest(NewParts::build(alloc, numbers, count, step, old)?)
            }
            Scalar2::Minimum => Lines::Least(NewParts::build(alloc, numbers, count, step, old)?),
            Scalar2::And => Lines::AllTrue(NewParts::build(alloc, numbers, count, step, old)?),
            Scalar2::Or => Lines::AnyTrue(NewParts::build(alloc, numbers, count, step, old)?),
            _ => unreachable!(),
        };
        Ok(NewFolds { lines })
    }
}

/// One more number for each of several interleaved lines, with the memory that the longer lines may need.
/// `FoldTrees::lengthen` then allocates nothing.
#[derive(Drop)]
pub struct NextFolds {
    places: Places,
}

impl Model for NextFolds {
    ghost use Rattle.fold_trees.specs.FoldTrees.{NextFoldsValue};

    ghost Value = { NextFoldsValue };

    ghost use Rattle.fold_trees.specs.FoldKinds.{next_folds_of};

    ghost view = { λ n. next_folds_of n.places };
}

impl NextFolds {
    /// Builds one more place of interleaved lines of `count` numbers, with one number for each line. AllocError if an
    /// allocation fails.
    pub fn build(
        alloc: Global,
        function: Scalar2,
        numbers: &[i64],
        count: usize,
    ) -> Result<NextFolds, AllocError>
        requires function { has_trees function ≡ true }
        requires some { 0 < count }
        requires few { (count + 1) * length numbers.now < 2 ^ 63 }
        ensures { IfOk result (λ n. n ≡ record { function = function; places = record { count = count; numbers = numbers.now } }) }
    {
        let places = match function {
            Scalar2::Plus => Places::Sum(NextParts::build(alloc, numbers, count)?),
            Scalar2::Times => Places::Product(NextParts::build(alloc, numbers, count)?),
            Scalar2::Maximum => Places::Greatest(NextParts::build(alloc, numbers, count)?),
            Scalar2::Minimum => Places::Least(NextParts::build(alloc, numbers, count)?),
            Scalar2::And => Places::AllTrue(NextParts::build(alloc, numbers, count)?),
            Scalar2::Or => Places::AnyTrue(NextParts::build(alloc, numbers, count)?),
            _ => unreachable!(),
        };
        Ok(NextFolds { places })
    }
}
