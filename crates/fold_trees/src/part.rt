//! The stored part of a fold.

ghost use Rattle.std.specs.Prelude.{◌≡◌, ◌<◌, ◌++◌, ◌∷◌, [], ℤ, List, length};
ghost use Rattle.function_names.specs.declared.scalar.Scalar2.{Scalar2 as Function};
ghost use Rattle.item_fns.specs.Numbers.{dyadic_on_numbers};
ghost use Rattle.item_fns.specs.Folds.{folded};

use arrays_core::Kind;

/// A summary of fixed size of a list of numbers that a function folds from the right. The parts of adjacent lists join
/// without the numbers.
pub(crate) trait Part: Copy + Drop {
    // The function.
    ghost function: { Function };

    // The part stands for these numbers.
    ghost tells: { Self → List ℤ → Type 0 };

    // The placeholder where no part is stored.
    ghost blank: { Self };

    /// Returns the part of one number.
    fn of(number: i64) -> Self
        ensures { tells result (number ∷ []) };

    /// Returns the part of two numbers. Override it where that costs less than a join.
    fn two(left: i64, right: i64) -> Self
        ensures { tells result (left ∷ right ∷ []) }
    {
        Self::of(left).join(&Self::of(right))
    }

    /// Returns the part of this list and a later list after it.
    fn join(&self, later: &Self) -> Self
        requires here { (xs : List ℤ) × tells self.now xs }
        requires later { (ys : List ℤ) × tells later.now ys }
        ensures { (xs ys : List ℤ) → tells self.now xs → tells later.now ys → tells result (xs ++ ys) };

    /// Returns the fold of two or more numbers from the last to the first, or its error.
    fn fold(&self) -> Result<i64, Kind>
        requires { (xs : List ℤ) × tells self.now xs }
        ensures { (xs : List ℤ) → tells self.now xs → 1 < length xs → result ≡ folded (dyadic_on_numbers function) xs };
}
