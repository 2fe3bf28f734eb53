//! A bound check for lists of numbers.

ghost use Rattle.std.specs.Prelude.{◌≡◌, All, true};
ghost use Rattle.reduce_fns.specs.Sum.{IsWithinBound};

/// Returns true only if each number is at least `-bound` and less than `bound`. One pass without branches: it compares the OR of all `number + bound`
/// with twice the bound. If the bound is a power of two, the answer is exact.
pub fn are_within(numbers: &[i64], bound: u64) -> bool
    ensures { result ≡ true → All (IsWithinBound bound) numbers.now }
{
    let mut bits = 0;
    for number in numbers {
        bits |= number.cast_unsigned().wrapping_add(bound);
    }
    bits / 2 < bound
}
