//! The parts of folds by `+`.

ghost use Rattle.std.specs.Prelude.{◌≡◌, ◌^◌, ◌<◌, true, unsigned_abs, pos, ◌≤ℤ◌, neg_ℤ, ◌∷◌, []};
ghost use Rattle.function_names.specs.declared.scalar.Scalar2.TheVariants.{Plus};
ghost use Rattle.fold_trees.specs.Sums.{Sums, IsOrdered, IsSummaryOf, IsSumKept, told_sums, sums_of, join, sum_told};

use crate::part::Part;
use arrays_core::Kind;

/// The width of a range from which on it fits no 64-bit number.
const ALL: i128 = 1 << 64;

/// Sums of smaller magnitude are added within 64 bits.
const NEAR: u64 = 1 << 61;

/// The range of the suffix sums of a list, as magnitudes below and above 0, and the distance of the total above the
/// least. The empty suffix has sum 0. Later numbers shift all suffix sums alike, so the width of the range stays. At a
/// width of 2 to the power 64 every longer list leaves 64 bits. Such a range is far: its stored width is at least 2 to
/// the power 64, and the fields mean nothing else.
#[derive(Clone, Copy)]
pub(crate) struct Summary {
    below: u64,
    above: u64,
    total: u64,
}

impl Summary {
    /// Returns the part of one number.
    fn single(number: i64) -> Summary
        ensures { IsSummaryOf result (sums_of (number ∷ [])) }
    {
        let size = number.unsigned_abs();
        if number < 0 {
            Summary {
                below: size,
                above: 0,
                total: 0,
            }
        } else {
            Summary {
                below: 0,
                above: size,
                total: size,
            }
        }
    }

    /// Returns the part of two numbers.
    fn pair(left: i64, right: i64) -> Summary
        ensures { IsSummaryOf result (sums_of (left ∷ right ∷ [])) }
    {
        if left.unsigned_abs() < NEAR && right.unsigned_abs() < NEAR {
            return Summary::near_pair(left, right);
        }
        // Copied by fields, so that the frequent near case can stay in registers.
        let Summary {
            below,
            above,
            total,
        } = Summary::far_pair(left, right);
        Summary {
            below,
            above,
            total,
        }
    }

    /// Returns the part of two numbers near 0.
    fn near_pair(left: i64, right: i64) -> Summary
        requires left { unsigned_abs left < 2 ^ 61 }
        requires right { unsigned_abs right < 2 ^ 61 }
        ensures { IsSummaryOf result (sums_of (left ∷ right ∷ [])) }
    {
        let total = left + right;
        Summary::of_narrow(total, total.min(right).min(0), total.max(right).max(0))
    }

    /// Returns the part of any two numbers.
    #[cold]
    #[inline(never)]
    fn far_pair(left: i64, right: i64) -> Summary
        ensures { IsSummaryOf result (sums_of (left ∷ right ∷ [])) }
    {
        Summary::single(left).followed_by(&Summary::single(right))
    }

    /// Returns the part of a list with this total and this range of suffix sums, all within 64 bits.
    fn of_narrow(total: i64, least: i64, greatest: i64) -> Summary
        requires { IsOrdered (record { total = total; least = least; greatest = greatest }) }
        ensures { IsSummaryOf result (record { total = total; least = least; greatest = greatest }) }
    {
        Summary {
            below: least.unsigned_abs(),
            above: greatest.unsigned_abs(),
            total: (i128::from(total) - i128::from(least)) as u64,
        }
    }

    /// Returns the part of a list with this total and this range of suffix sums.
    fn of_sums(total: i128, least: i128, greatest: i128) -> Summary
        requires ordered { IsOrdered (record { total = total; least = least; greatest = greatest }) }
        requires low { neg_ℤ (pos 73786976294838206464) ≤ℤ least }
        requires high { greatest ≤ℤ pos 73786976294838206464 }
        ensures { IsSummaryOf result (record { total = total; least = least; greatest = greatest }) }
    {
        if greatest - least >= ALL {
            return Summary {
                below: u64::MAX,
                above: u64::MAX,
                total: 0,
            };
        }
        Summary {
            below: (-least) as u64,
            above: greatest as u64,
            total: (total - least) as u64,
        }
    }

    /// Returns the total of the list.
    fn total(&self) -> i128
        ensures is { result ≡ (told_sums self.now).total }
        ensures low { neg_ℤ (pos 18446744073709551616) ≤ℤ result }
        ensures high { result ≤ℤ pos 18446744073709551616 }
    {
        i128::from(self.total) - i128::from(self.below)
    }

    /// Returns the least suffix sum.
    fn least(&self) -> i128
        ensures is { result ≡ (told_sums self.now).least }
        ensures low { neg_ℤ (pos 18446744073709551616) ≤ℤ result }
        ensures high { result ≤ℤ pos 0 }
    {
        -i128::from(self.below)
    }

    /// Returns the greatest suffix sum.
    fn greatest(&self) -> i128
        ensures is { result ≡ (told_sums self.now).greatest }
        ensures low { pos 0 ≤ℤ result }
        ensures high { result ≤ℤ pos 18446744073709551616 }
    {
        i128::from(self.above)
    }

    /// Returns the part of this list and a later one. If either is far, so is the result.
    fn followed_by(&self, later: &Summary) -> Summary
        requires here { (sums : Sums) × IsSummaryOf self.now sums }
        requires later { (sums : Sums) × IsSummaryOf later.now sums }
        ensures { (earlier : Sums) → (rest : Sums) → IsSummaryOf self.now earlier → IsSummaryOf later.now rest → IsSummaryOf result (join earlier rest) }
    {
        if self.is_near() && later.is_near() {
            return self.join_near(later);
        }
        // Copied by fields, so that the frequent near case can stay in registers.
        let Summary {
            below,
            above,
            total,
        } = self.join_far(later);
        Summary {
            below,
            above,
            total,
        }
    }

    /// Returns the part of this list and any later one. Computes in 128 bits.
    #[cold]
    #[inline(never)]
    fn join_far(&self, later: &Summary) -> Summary
        requires here { (sums : Sums) × IsSummaryOf self.now sums }
        requires later { (sums : Sums) × IsSummaryOf later.now sums }
        ensures { (earlier : Sums) → (rest : Sums) → IsSummaryOf self.now earlier → IsSummaryOf later.now rest → IsSummaryOf result (join earlier rest) }
    {
        let shift = later.total();
        let least = (self.least() + shift).min(later.least());
        let greatest = (self.greatest() + shift).max(later.greatest());
        Summary::of_sums(self.total() + shift, least, greatest)
    }

    /// Returns whether the whole range is near 0.
    fn is_near(&self) -> bool
        ensures { result ≡ true → (self.now.below < 2 ^ 61) × (self.now.above < 2 ^ 61) }
    {
        self.below < NEAR && self.above < NEAR
    }

    /// Returns the part of this list and a later one, both near 0. Computes in 64 bits.
    fn join_near(&self, later: &Summary) -> Summary
        requires sound { IsOrdered (told_sums self.now) }
        requires near { (self.now.below < 2 ^ 61) × (self.now.above < 2 ^ 61) }
        requires later_sound { IsOrdered (told_sums later.now) }
        requires later_near { (later.now.below < 2 ^ 61) × (later.now.above < 2 ^ 61) }
        ensures { told_sums result ≡ join (told_sums self.now) (told_sums later.now) }
    {
        let below = later.below + self.below.saturating_sub(later.total);
        let up = self.above + later.total;
        let above = later.above.max(up.saturating_sub(later.below));
        let total = self.total + later.total + below;
        Summary {
            below,
            above,
            total: total - (self.below + later.below),
        }
    }

    /// Returns the sum from the last number to the first. LIMIT where a suffix sum leaves 64 bits.
    fn sum(&self) -> Result<i64, Kind>
        requires { (sums : Sums) × IsSummaryOf self.now sums }
        ensures { (sums : Sums) → IsSummaryOf self.now sums → result ≡ sum_told sums }
    {
        if self.below > 1 << 63 || self.above >= 1 << 63 {
            return Err(Kind::Limit);
        }
        Ok(self.total() as i64)
    }
}

impl Part for Summary {
    ghost function = { Plus };

    ghost tells = { λ s xs. IsSumKept xs s };

    ghost blank = { record { below = 0; above = 0; total = 0 } };

    fn of(number: i64) -> Summary {
        Summary::single(number)
    }

    fn two(left: i64, right: i64) -> Summary {
        Summary::pair(left, right)
    }

    fn join(&self, later: &Summary) -> Summary {
        self.followed_by(later)
    }

    fn fold(&self) -> Result<i64, Kind> {
        self.sum()
    }
}
