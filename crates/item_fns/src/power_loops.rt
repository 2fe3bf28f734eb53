//! Powers of lists: a table for a single base, and a product for squares.

ghost use Rattle.std.specs.Prelude.{◌≡◌, ◌≢◌, ◌<◌, ◌≤◌, ℕ, pos, length, get_or, Ok, IfOk, vec_len};
ghost use Rattle.arrays_core.specs.Items.{all_or_first_error};
ghost use Rattle.function_names.specs.declared.scalar.Scalar2.TheVariants as two;
ghost use Rattle.item_fns.specs.Numbers.{dyadic_on_numbers, power};
ghost use Rattle.item_fns.specs.NumberLists.{dyadic_results, paired_length, IsListAnswerTo};

use crate::kernels::{OneNumber, Power, Times, TwoNumbers};
use crate::loops::{on_each, on_lists};
use crate::numbers::{in_range, power};
use arrays_core::{ApplyFault, Kind};
use std::alloc::Global;

/// The size of a table. For a base ≥ 2 or ≤ ¯2, no power from 64 on fits into 64 bits. The table pays from 64 exponents on.
const KEPT: usize = 64;

/// The powers of one base, the first of them in a table.
#[derive(Drop)]
struct PowersOf {
    base: i64,
    powers: [i64; KEPT],
    count: usize,
    ghost few: { count ≤ 64 },
    ghost is: { (k : ℕ) → k < count → power base (pos k) ≡ Ok (get_or powers k (pos 0)) },
}

impl PowersOf {
    /// Makes the table of a base: its powers from 0 on that fit into 64 bits.
    fn new(base: i64) -> PowersOf
        ensures { result.base ≡ base }
    {
        let mut powers = [0; KEPT];
        let mut count = 0;
        for exponent in 0..KEPT {
            match power(base, exponent as i64) {
                Ok(number) => {
                    powers[exponent] = number;
                    count = exponent + 1;
                }
                Err(_) => break,
            }
        }
        PowersOf {
            base,
            powers,
            count,
        }
    }
}

impl OneNumber for PowersOf {
    ghost gives = { λ s b. dyadic_on_numbers two.Power s.base b };

    fn at(&self, b: i64) -> Result<i64, Kind> {
        match usize::try_from(b) {
            Ok(exponent) if exponent < self.count => Ok(self.powers[exponent]),
            _ => power(self.base, b),
        }
    }
}

/// The square.
#[derive(Clone, Copy)]
struct Square;

impl OneNumber for Square {
    ghost gives = { λ s a. dyadic_on_numbers two.Power a (pos 2) };

    fn at(&self, a: i64) -> Result<i64, Kind> {
        in_range(a.checked_mul(a))
    }

    fn has_step(&self) -> bool {
        true
    }

    fn step(&self, a: i64) -> (i64, u64) {
        Times.step(a, a)
    }
}

/// Raises a list to a list of powers, place by place. A list of one number is extended to the length of the other.
pub(crate) fn on_powers(alloc: Global, left: &[i64], right: &[i64]) -> Result<Vec<i64>, ApplyFault>
    requires { length left.now ≢ 1 → length right.now ≢ 1 → length left.now ≡ length right.now }
    ensures is { IsListAnswerTo (all_or_first_error (dyadic_results two.Power left.now right.now)) result }
    ensures long { IfOk result (λ v. vec_len v ≡ paired_length left.now right.now) }
{
    if left.len() == 1 && right.len() >= KEPT {
        return on_each(alloc, &PowersOf::new(left[0]), right);
    }
    if left.len() != 1 && right.len() == 1 && right[0] == 2 {
        return on_each(alloc, &Square, left);
    }
    on_lists(alloc, Power, left, right)
}
