//! Sums of products of small numbers, which fit 64 bits in any order of addition.

ghost use Rattle.std.specs.Prelude.{◌≡◌, ◌<◌, ◌≤◌, ℕ, ℤ, ◌+◌, ◌*◌, ◌^◌, ◌+ℤ◌, ◌*ℤ◌, FitsSigned, true, false, pos, length, get_or, All, IfOk, IfSome, OnOk, vec_len};
ghost use Rattle.std.specs.Int.{w64};
ghost use Rattle.function_names.specs.declared.scalar.Scalar2.TheVariants.{Plus, Times};
ghost use Rattle.operator_fns.specs.SmallProducts.{sum_of_products, IsNoFurther, AddUp, BoundsFactors, RowFits, AreSums, EndsInSums};

use item_fns::Scalar2;
use reduce_fns::are_within;
use std::alloc::AllocError;

/// Returns the greatest magnitude in a list.
fn farthest(numbers: &[i64]) -> u64
    ensures { All (IsNoFurther result) numbers.now }
{
    let mut least: i64 = 0;
    let mut greatest: i64 = 0;
    for number in numbers {
        least = least.min(*number);
        greatest = greatest.max(*number);
    }
    least.unsigned_abs().max(greatest.unsigned_abs())
}

/// A product of two numbers that fits 64 bits.
trait Product {
    ghost takes: { Self → ℤ → Type 0 };

    /// Multiplies two numbers.
    fn of(&self, a: i64, b: i64) -> i64
        requires left { takes self.now a }
        requires right { takes self.now b }
        requires within { FitsSigned w64 (a *ℤ b) }
        ensures { result ≡ a *ℤ b };
}

/// A product of numbers of any length.
struct Long;

impl Product for Long {
    ghost takes = { λ _ _. Unit {0} };

    fn of(&self, a: i64, b: i64) -> i64 {
        a * b
    }
}

/// The greatest magnitude of a short number.
const SHORT: u64 = 1_073_741_824;

/// A product of short numbers. Processors multiply several pairs of such numbers at once.
struct Short;

impl Product for Short {
    ghost takes = { λ _. IsNoFurther 1073741824 };

    fn of(&self, a: i64, b: i64) -> i64 {
        i64::from(a as i32) * i64::from(b as i32)
    }
}

/// Sums the products of two lists, number by number.
fn sum_of_pairs<P: Product>(product: &P, left: &[i64], right: &[i64]) -> i64
    requires long { length left.now ≡ length right.now }
    requires left { All (P.takes product.now) left.now }
    requires right { All (P.takes product.now) right.now }
    requires small { AddUp (length left.now) left.now right.now }
    ensures { result ≡ sum_of_products (λ k. get_or left.now k (pos 0)) (λ k. get_or right.now k (pos 0)) (length left.now) }
{
    let mut sum = 0;
    for place in 0..left.len() {
        sum += product.of(left[place], right[place]);
    }
    sum
}

/// Adds `factor` times each number of a row to the sums.
fn add_row<P: Product>(product: &P, sums: &mut [i64], factor: i64, row: &[i64])
    requires long { length row.now ≡ length sums.old }
    requires factor { P.takes product.now factor }
    requires row { All (P.takes product.now) row.now }
    requires fits { (j : ℕ) → j < length row.now → RowFits factor (get_or row.now j (pos 0)) (get_or sums.old j (pos 0)) }
    ensures long { length sums.new ≡ length sums.old }
    ensures is { (j : ℕ) → j < length row.now → get_or sums.new j (pos 0) ≡ get_or sums.old j (pos 0) +ℤ factor *ℤ get_or row.now j (pos 0) }
{
    for column in 0..row.len() {
        sums[column] += product.of(factor, row[column]);
    }
}

/// Adds each row times its factor to sums that start at 0.
fn sum_rows<P: Product>(product: &P, sums: &mut [i64], factors: &[i64], rows: &[i64])
    requires none { (j : ℕ) → j < length sums.old → get_or sums.old j (pos 0) ≡ pos 0 }
    requires whole { length rows.now ≡ length factors.now * length sums.old }
    requires factors { All (P.takes product.now) factors.now }
    requires rows { All (P.takes product.now) rows.now }
    requires small { AddUp (length factors.now) factors.now rows.now }
    ensures long { length sums.new ≡ length sums.old }
    ensures is { AreSums factors.now rows.now (length sums.old) sums.new }
{
    let columns = sums.len();
    for place in 0..factors.len() {
        let first = place * columns;
        add_row(product, sums, factors[place], &rows[first..first + columns]);
    }
}

/// Appends the sums of the products of the factors with each column of the rows.
fn push_products<P: Product>(
    product: &P,
    sums: &mut Vec<i64>,
    factors: &[i64],
    rows: &[i64],
    columns: usize,
) -> Result<(), AllocError>
    requires room { vec_len sums.old + columns < 2 ^ 64 }
    requires whole { length rows.now ≡ length factors.now * columns }
    requires factors { All (P.takes product.now) factors.now }
    requires rows { All (P.takes product.now) rows.now }
    requires small { AddUp (length factors.now) factors.now rows.now }
    ensures { OnOk result (EndsInSums factors.now rows.now columns sums.old.items sums.new.items) }
{
    if columns == 1 {
        sums.push(sum_of_pairs(product, factors, rows))?;
        return Ok(());
    }
    let before = sums.len();
    sums.resize(before + columns, 0)?;
    sum_rows(product, &mut sums[before..], factors, rows);
    Ok(())
}

/// Returns a bound: `count` products of a factor within it and a number within `most` have a sum within 64 bits, in any order.
fn bound_beside(most: u64, count: usize) -> u64
    ensures { result * most * count < 2 ^ 63 }
{
    let Some(sum) = most.checked_mul(count as u64) else {
        return 0;
    };
    let bound = 1u64 << sum.leading_zeros().saturating_sub(1).min(60);
    match bound.checked_mul(sum) {
        Some(total) if total <= i64::MAX as u64 => bound,
        _ => 0,
    }
}

/// A bound on the factors of a row: the sums of their products with the numbers of consecutive rows fit 64 bits, in any order of addition.
#[derive(Clone, Copy)]
pub(crate) struct FactorBound {
    /// The greatest magnitude of a factor.
    pub(crate) most: u64,
    /// True if the rows have short numbers alone.
    pub(crate) are_short: bool,
}

impl FactorBound {
    /// Returns the bound for rows of `count` factors. None unless f.g is `+.×`.
    pub(crate) fn of(
        fold: Scalar2,
        each: Scalar2,
        rows: &[i64],
        count: usize,
    ) -> Option<FactorBound>
        ensures fold { IfSome result (λ b. fold ≡ Plus) }
        ensures each { IfSome result (λ b. each ≡ Times) }
        ensures bound { IfSome result (λ b. BoundsFactors count rows.now b.most b.are_short) }
    {
        if fold != Scalar2::Plus || each != Scalar2::Times {
            return None;
        }
        let greatest = farthest(rows);
        Some(FactorBound {
            most: bound_beside(greatest, count),
            are_short: greatest <= SHORT,
        })
    }

    /// Appends the sums of the products of the factors with each column of the rows. Returns false, and appends nothing, if a factor exceeds the
    /// bound.
    pub(crate) fn push_sums(
        self,
        sums: &mut Vec<i64>,
        factors: &[i64],
        rows: &[i64],
        columns: usize,
    ) -> Result<bool, AllocError>
        requires room { vec_len sums.old + columns < 2 ^ 64 }
        requires whole { length rows.now ≡ length factors.now * columns }
        requires bound { BoundsFactors (length factors.now) rows.now self.most self.are_short }
        ensures small { IfOk result (λ done. done ≡ true → AddUp (length factors.now) factors.now rows.now) }
        ensures sums { IfOk result (λ done. done ≡ true → EndsInSums factors.now rows.now columns sums.old.items sums.new.items) }
        ensures none { IfOk result (λ done. done ≡ false → sums.new.items ≡ sums.old.items) }
    {
        if self.are_short && are_within(factors, self.most.min(SHORT)) {
            push_products(&Short, sums, factors, rows, columns)?;
            return Ok(true);
        }
        if are_within(factors, self.most) {
            push_products(&Long, sums, factors, rows, columns)?;
            return Ok(true);
        }
        Ok(false)
    }
}
