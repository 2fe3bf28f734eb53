//! Right folds of lists in one pass, from the first number on and without a check at each step.

ghost use Rattle.std.specs.Prelude.{◌≡◌, ◌<◌, ◌≤◌, ◌*◌, ◌/◌, ◌+ℤ◌, ◌-ℤ◌, ℕ, ℤ, Result, Ok, IfSome, length, drop, get_or, pos};
ghost use Rattle.std.specs.List.{fold};
ghost use Rattle.std.specs.Int.{int_bit_and, int_bit_or, int_bit_xor, int_max, int_min, int_wrapping_add, w64};
ghost use Rattle.arrays_core.specs.Limits.{most_places};
ghost use Rattle.arrays_core.specs.declared.item.Kind.{Kind};
ghost use Rattle.function_names.specs.declared.scalar.Scalar2.TheVariants as two;
ghost use Rattle.item_fns.specs.Numbers.{dyadic_on_numbers};
ghost use Rattle.item_fns.specs.Folds.{folded};
ghost use Rattle.item_fns.specs.AtOnce.{IsAtOnce, IsNear, IsTruth, IsSum, IsAny, int_bit_same, in_turn};
ghost use Rattle.item_fns.specs.Laws.AtOnce.{sums, both_true, any_true, differ, agree, greatest, least};

use crate::kernels::{And, Equal, Maximum, Minimum, NotEqual, Or, Plus};
use arrays_core::MOST_PLACES;

/// A bound on numbers: 2^20 of them, the most that an array holds, have sums and differences within 64 bits.
pub const NEAR: u64 = 4_398_046_511_104;

/// Returns a word below `2 * bound` only if the number is at least `-bound` and at most `bound`.
#[inline]
fn above_least(number: i64, bound: u64) -> u64
    requires some { 0 < bound }
    requires within { bound < 4611686018427387905 }
    ensures { result < 2 * bound → IsNear bound number }
{
    number.cast_unsigned().wrapping_add(bound)
}

/// Returns 0 only if the number is at least `-bound` and at most `bound`.
#[inline]
pub fn beyond(number: i64, bound: u64) -> u64
    requires some { 0 < bound }
    requires within { bound < 4611686018427387905 }
    ensures { result ≡ 0 → IsNear bound number }
{
    number.cast_unsigned().wrapping_add(bound) / (2 * bound)
}

/// Returns a word below 2 only if the number is 0 or 1.
#[inline]
fn truth_word(number: i64) -> u64
    ensures { result < 2 → IsTruth number }
{
    number.cast_unsigned()
}

/// Returns 0 only if the number is 0 or 1.
#[inline]
pub(crate) fn untrue(number: i64) -> u64
    ensures { result ≡ 0 → IsTruth number }
{
    truth_word(number) / 2
}

/// A function whose right fold of near numbers is their left fold, without an error.
pub(crate) trait AtOnce {
    ghost gives: { Self → ℤ → ℤ → Result ℤ Kind };

    ghost plain: { Self → ℤ → ℤ → ℤ };

    ghost near: { Self → ℕ → ℤ → Type 0 };

    /// Applies the function without a check.
    fn plain(&self, a: i64, b: i64) -> i64
        ensures { result ≡ plain self.now a b };

    /// The limit of the words of near numbers.
    const LIMIT: u64;

    ghost LIMIT: { ℕ };

    /// Returns a word, which is below the limit only if the number is near. So one test of the OR of the words of many numbers serves all.
    fn word(&self, number: i64) -> u64
        ensures { result < LIMIT → near self.now 1 number };

    ghost law: { (s : Self) → IsAtOnce (gives s) (plain s) (near s) };
}

impl AtOnce for Plus {
    ghost gives = { λ s. dyadic_on_numbers two.Plus };

    ghost plain = { λ s. int_wrapping_add w64 };

    ghost near = { λ s. IsSum };

    fn plain(&self, a: i64, b: i64) -> i64 {
        a.wrapping_add(b)
    }

    const LIMIT: u64 = 2 * NEAR;

    ghost LIMIT = { 8796093022208 };

    fn word(&self, number: i64) -> u64 {
        above_least(number, NEAR)
    }

    ghost law = { λ s. sums };
}

impl AtOnce for And {
    ghost gives = { λ s. dyadic_on_numbers two.And };

    ghost plain = { λ s. int_bit_and w64 };

    ghost near = { λ s n. IsTruth };

    fn plain(&self, a: i64, b: i64) -> i64 {
        a & b
    }

    const LIMIT: u64 = 2;

    ghost LIMIT = { 2 };

    fn word(&self, number: i64) -> u64 {
        truth_word(number)
    }

    ghost law = { λ s. both_true };
}

impl AtOnce for Or {
    ghost gives = { λ s. dyadic_on_numbers two.Or };

    ghost plain = { λ s. int_bit_or w64 };

    ghost near = { λ s n. IsTruth };

    fn plain(&self, a: i64, b: i64) -> i64 {
        a | b
    }

    const LIMIT: u64 = 2;

    ghost LIMIT = { 2 };

    fn word(&self, number: i64) -> u64 {
        truth_word(number)
    }

    ghost law = { λ s. any_true };
}

impl AtOnce for NotEqual {
    ghost gives = { λ s. dyadic_on_numbers two.NotEqual };

    ghost plain = { λ s. int_bit_xor w64 };

    ghost near = { λ s n. IsTruth };

    fn plain(&self, a: i64, b: i64) -> i64 {
        a ^ b
    }

    const LIMIT: u64 = 2;

    ghost LIMIT = { 2 };

    fn word(&self, number: i64) -> u64 {
        truth_word(number)
    }

    ghost law = { λ s. differ };
}

impl AtOnce for Equal {
    ghost gives = { λ s. dyadic_on_numbers two.Equal };

    ghost plain = { λ s. int_bit_same };

    ghost near = { λ s n. IsTruth };

    fn plain(&self, a: i64, b: i64) -> i64 {
        a ^ b ^ 1
    }

    const LIMIT: u64 = 2;

    ghost LIMIT = { 2 };

    fn word(&self, number: i64) -> u64 {
        truth_word(number)
    }

    ghost law = { λ s. agree };
}

impl AtOnce for Maximum {
    ghost gives = { λ s. dyadic_on_numbers two.Maximum };

    ghost plain = { λ s. int_max };

    ghost near = { λ s. IsAny };

    fn plain(&self, a: i64, b: i64) -> i64 {
        a.max(b)
    }

    const LIMIT: u64 = 1;

    ghost LIMIT = { 1 };

    fn word(&self, _number: i64) -> u64 {
        0
    }

    ghost law = { λ s. greatest };
}

impl AtOnce for Minimum {
    ghost gives = { λ s. dyadic_on_numbers two.Minimum };

    ghost plain = { λ s. int_min };

    ghost near = { λ s. IsAny };

    fn plain(&self, a: i64, b: i64) -> i64 {
        a.min(b)
    }

    const LIMIT: u64 = 1;

    ghost LIMIT = { 1 };

    fn word(&self, _number: i64) -> u64 {
        0
    }

    ghost law = { λ s. least };
}

/// Folds two lists side by side, so that the steps of one need not wait for those of the other; the second list as far as the first goes.
/// Returns both folds, and a word below the limit only if all these numbers are near.
#[inline]
fn fold_beside<S: AtOnce>(step: &S, first: &[i64], second: &[i64]) -> (i64, i64, u64)
    requires some { 0 < length first.now }
    requires long { length first.now ≤ length second.now }
    ensures first { result.0 ≡ fold (S.plain step.now) (get_or first.now 0 (pos 0)) (drop 1 first.now) }
    ensures second { fold (S.plain step.now) result.1 (drop (length first.now) second.now) ≡ fold (S.plain step.now) (get_or second.now 0 (pos 0)) (drop 1 second.now) }
    ensures near { result.2 < S.LIMIT → (k : ℕ) → k < length first.now → S.near step.now 1 (get_or first.now k (pos 0)) × S.near step.now 1 (get_or second.now k (pos 0)) }
{
    let mut left = first[0];
    let mut right = second[0];
    let mut doubt = step.word(left) | step.word(right);
    for place in 1..first.len() {
        left = step.plain(left, first[place]);
        right = step.plain(right, second[place]);
        doubt |= step.word(first[place]) | step.word(second[place]);
    }
    (left, right, doubt)
}

/// Folds a list from the first number on, both halves side by side. None if a number is not near, or there is one number only.
pub(crate) fn fold_forwards<S: AtOnce>(step: &S, numbers: &[i64]) -> Option<i64>
    requires { 0 < length numbers.now }
    ensures { IfSome result (λ z. folded (S.gives step.now) numbers.now ≡ Ok z) }
{
    let (first, second) = numbers.split_at(numbers.len() / 2);
    if first.is_empty() || numbers.len() > MOST_PLACES as usize {
        return None;
    }
    let (left, mut right, mut doubt) = fold_beside(step, first, second);
    if first.len() < second.len() {
        let last = second[first.len()];
        right = step.plain(right, last);
        doubt |= step.word(last);
    }
    let limit = S::LIMIT;
    if doubt < limit {
        Some(step.plain(left, right))
    } else {
        None
    }
}

/// Adds a - b to a total without a check.
#[inline]
fn with_difference(total: i64, a: i64, b: i64) -> i64
    ensures { (n : ℕ) → n ≤ most_places → IsSum n total → IsSum 1 a → IsSum 1 b → result ≡ total +ℤ (a -ℤ b) }
{
    total.wrapping_add(a.wrapping_sub(b))
}

/// Returns the last number of a list of odd length, 0 of a list of even length.
fn odd_end(numbers: &[i64]) -> i64
    ensures { result ≡ in_turn (drop (2 * (length numbers.now / 2)) numbers.now) }
{
    if numbers.len() % 2 == 1 {
        numbers[numbers.len() - 1]
    } else {
        0
    }
}

/// Folds a list by `-`, two numbers at a time. None if a number is not near.
pub(crate) fn fold_by_pairs(numbers: &[i64]) -> Option<i64>
    requires { 0 < length numbers.now }
    ensures { IfSome result (λ z. folded (dyadic_on_numbers two.Minus) numbers.now ≡ Ok z) }
{
    if numbers.len() > MOST_PLACES as usize {
        return None;
    }
    let end = odd_end(numbers);
    let mut total = end;
    let mut doubt = above_least(end, NEAR);
    for pair in 0..numbers.len() / 2 {
        let a = numbers[2 * pair];
        let b = numbers[2 * pair + 1];
        total = with_difference(total, a, b);
        doubt |= above_least(a, NEAR) | above_least(b, NEAR);
    }
    if doubt < 2 * NEAR { Some(total) } else { None }
}
