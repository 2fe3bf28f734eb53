//! Rows of truth values as bits, 64 columns a word, and their unions.

ghost use Rattle.std.specs.Prelude.{◌≡◌, ◌<◌, ◌≤◌, ℕ, ◌+◌, ◌*◌, ◌/◌, ◌%◌, ◌^◌, ℤ, List, Ok, pos, length, get_or, take, All, IfOk, OnOk, vec_len};
ghost use Rattle.std.specs.Int.{bit_at};
ghost use Rattle.std.specs.Int.RustNames.{bit_or};
ghost use Rattle.function_names.specs.declared.scalar.Scalar2.TheVariants.{And, Or};
ghost use Rattle.item_fns.specs.Numbers.{dyadic_on_numbers};
ghost use Rattle.operator_fns.specs.RowFolds.{column_fold, AreFolds, EndsInFolds};
ghost use Rattle.operator_fns.specs.RowByColumn.{cell, IsGridOf, IsPlain};
ghost use Rattle.operator_fns.specs.Unions.{IsTruth, HoldBits, HoldBitsOf, EndsInBits, bit_of};

use crate::grid::Grid;
use arrays_core::room_of;
use std::alloc::{AllocError, Global};

/// Sets the bit of each column at which a row of truth values has a 1.
fn set_bits(words: &mut [u64], row: &[i64])
    requires wide { length row.now ≤ length words.old * 64 }
    requires none { (column : ℕ) → bit_of words.old column ≡ pos 0 }
    requires truths { All IsTruth row.now }
    ensures long { length words.new ≡ length words.old }
    ensures bits { HoldBitsOf row.now words.new }
{
    for column in 0..row.len() {
        if row[column] == 1 {
            words[column / 64] |= 1 << (column % 64);
        }
    }
}

/// Appends the bits of a row of truth values, in `width` words.
fn push_bits(words: &mut Vec<u64>, width: usize, row: &[i64]) -> Result<(), AllocError>
    requires room { vec_len words.old + width < 2 ^ 64 }
    requires wide { length row.now ≤ width * 64 }
    requires truths { All IsTruth row.now }
    ensures { OnOk result (EndsInBits row.now width words.old.items words.new.items) }
{
    let before = words.len();
    words.resize(before + width, 0)?;
    set_bits(&mut words[before..], row);
    Ok(())
}

/// Replaces each word by its union with a word of a row.
fn join_words(union: &mut [u64], row: &[u64])
    requires { length row.now ≡ length union.old }
    ensures long { length union.new ≡ length union.old }
    ensures joined { (word : ℕ) → word < length row.now → get_or union.new word 0 ≡ bit_or (get_or union.old word 0) (get_or row.now word 0) }
{
    for word in 0..row.len() {
        union[word] |= row[word];
    }
}

/// Replaces each number by the bit of its column.
fn spread(union: &[u64], numbers: &mut [i64])
    requires wide { length numbers.old ≤ length union.now * 64 }
    ensures long { length numbers.new ≡ length numbers.old }
    ensures bits { (column : ℕ) → column < length numbers.old → get_or numbers.new column (pos 0) ≡ bit_of union.now column }
{
    for column in 0..numbers.len() {
        let bit = union[column / 64] >> (column % 64) & 1;
        numbers[column] = bit as i64;
    }
}

/// Consecutive rows of truth values, also as bits: 64 columns a word.
#[derive(Drop)]
pub(crate) struct BitRows<'a> {
    pub(crate) rows: &'a [i64],
    pub(crate) columns: usize,
    pub(crate) count: usize,
    width: usize,
    words: Vec<u64>,
    ghost whole: { length rows.now ≡ count * columns },
    ghost wide: { columns ≤ width * 64 },
    ghost long: { vec_len words ≡ count * width },
    ghost truths: { All IsTruth rows.now },
    ghost bits: { HoldBits rows.now columns width count words.items },
}

impl<'a> BitRows<'a> {
    /// Reads consecutive rows of truth values.
    pub(crate) fn of(
        alloc: Global,
        rows: &'a [i64],
        count: usize,
        columns: usize,
    ) -> Result<BitRows<'a>, AllocError>
        requires whole { length rows.now ≡ count * columns }
        requires truths { All IsTruth rows.now }
        ensures rows { IfOk result (λ b. b.rows.now ≡ rows.now) }
        ensures columns { IfOk result (λ b. b.columns ≡ columns) }
        ensures count { IfOk result (λ b. b.count ≡ count) }
    {
        let width = columns.div_ceil(64);
        let mut words = Vec::new(alloc);
        for row in 0..count {
            let first = row * columns;
            push_bits(&mut words, width, &rows[first..first + columns])?;
        }
        Ok(BitRows {
            rows,
            columns,
            count,
            width,
            words,
        })
    }

    /// Joins the rows at which `chosen` has a 1 to a union that starts empty.
    #[tactic(auto, using(crate::proofs::ProductSums::row_high))]
    fn join_rows(&self, union: &mut [u64], chosen: &[i64])
        requires some { 1 ≤ length chosen.now }
        requires count { length chosen.now ≡ self.now.count }
        requires wide { length union.old ≡ self.now.width }
        requires none { (column : ℕ) → bit_of union.old column ≡ pos 0 }
        requires truths { All IsTruth chosen.now }
        ensures long { length union.new ≡ length union.old }
        ensures is { (column : ℕ) → column < self.now.columns → column_fold (dyadic_on_numbers Or) (dyadic_on_numbers And) chosen.now self.now.rows.now self.now.columns column ≡ Ok (bit_of union.new column) }
    {
        for place in (0..chosen.len()).rev() {
            if chosen[place] != 1 {
                continue;
            }
            let first = place * self.width;
            join_words(union, &self.words[first..first + self.width]);
        }
    }

    /// Replaces folds by the union of the rows at which `chosen` has a 1, as truth values. Uses the memory of `union`.
    fn write_union(
        &self,
        folds: &mut [i64],
        chosen: &[i64],
        union: &mut Vec<u64>,
    ) -> Result<(), AllocError>
        requires some { 1 ≤ length chosen.now }
        requires count { length chosen.now ≡ self.now.count }
        requires long { length folds.old ≡ self.now.columns }
        requires truths { All IsTruth chosen.now }
        ensures long { length folds.new ≡ length folds.old }
        ensures is { OnOk result (AreFolds (dyadic_on_numbers Or) (dyadic_on_numbers And) chosen.now self.now.rows.now self.now.columns folds.new) }
    {
        union.clear();
        union.resize(self.width, 0)?;
        self.join_rows(union.as_mut_slice(), chosen);
        spread(union.as_slice(), folds);
        Ok(())
    }

    /// Appends the union of the rows at which `chosen` has a 1, as truth values. Uses the memory of `union`.
    pub(crate) fn push_union(
        &self,
        made: &mut Vec<i64>,
        chosen: &[i64],
        union: &mut Vec<u64>,
    ) -> Result<(), AllocError>
        requires room { vec_len made.old + self.now.columns < 2 ^ 64 }
        requires some { 1 ≤ length chosen.now }
        requires count { length chosen.now ≡ self.now.count }
        requires truths { All IsTruth chosen.now }
        ensures { OnOk result (EndsInFolds (dyadic_on_numbers Or) (dyadic_on_numbers And) chosen.now self.now.rows.now self.now.columns made.old.items made.new.items) }
    {
        let before = made.len();
        made.resize(before + self.columns, 0)?;
        self.write_union(&mut made[before..], chosen, union)
    }

    /// Returns the inner product `∨.∧` of a matrix of truth values and these rows.
    pub(crate) fn join_matrices(
        &self,
        alloc: Global,
        left: &[i64],
        grid: Grid,
        places: usize,
    ) -> Result<Vec<i64>, AllocError>
        requires plain { IsPlain grid places }
        requires some { 1 ≤ grid.count }
        requires rows { places / grid.columns * grid.count ≤ length left.now }
        requires columns { self.now.columns ≡ grid.columns }
        requires count { self.now.count ≡ grid.count }
        requires truths { All IsTruth left.now }
        ensures long { IfOk result (λ v. vec_len v ≡ places) }
        ensures is { IfOk result (λ v. (right : List ℤ) → self.now.rows.now ≡ take (grid.count * grid.columns) right → IsGridOf grid places (length left.now) (length right)
            → (place : ℕ) → place < places → cell (dyadic_on_numbers Or) (dyadic_on_numbers And) left.now right grid place ≡ Ok (get_or v.items place (pos 0))) }
    {
        let mut made = Vec::with_capacity(alloc, room_of(places))?;
        let mut union = Vec::new(alloc);
        for place in 0..places / grid.columns {
            let first = place * grid.count;
            let row = &left[first..first + grid.count];
            self.push_union(&mut made, row, &mut union)?;
        }
        Ok(made)
    }
}
