//! A prefix of a line under `×`.

ghost use Rattle.std.specs.Prelude.{◌≡◌, ◌<◌, ◌≤◌, ◌/◌, ◌^◌, ◌*ℤ◌, true, ℤ, FitsSigned};
ghost use Rattle.std.specs.Int.{w64};
ghost use Rattle.function_names.specs.declared.scalar.Scalar2.TheVariants.{Times as Product};
ghost use Rattle.item_fns.specs.Numbers.{dyadic_on_numbers};
ghost use Rattle.scan_fns.specs.Prefixes.{IsFresh, product, lies_within};

use crate::prefix::Prefix;
use arrays_core::Kind;
use item_fns::kernels::{Times, TwoNumbers};

/// The largest distances below and above 0 that are allowed.
#[derive(Clone, Copy)]
struct Margin {
    below: u64,
    above: u64,
    ghost low: { below ≤ 2 ^ 63 },
    ghost high: { above < 2 ^ 63 },
}

/// Divides, rounding toward zero; skips the division by 1, the most frequent divisor.
fn quotient(number: u64, divisor: u64) -> u64
    requires { 0 < divisor }
    ensures { result ≡ number / divisor }
{
    if divisor == 1 {
        number
    } else {
        number / divisor
    }
}

impl Margin {
    /// Returns the margin of all 64-bit numbers.
    fn whole() -> Margin
        ensures { (v : ℤ) → FitsSigned w64 v → lies_within result.below result.above v ≡ true }
    {
        Margin {
            below: i64::MIN.unsigned_abs(),
            above: i64::MAX.unsigned_abs(),
        }
    }

    /// Tells if a number is within the margin.
    fn has(&self, number: i64) -> bool
        ensures { result ≡ lies_within self.now.below self.now.above number }
    {
        let size = number.unsigned_abs();
        if number < 0 {
            size <= self.below
        } else {
            size <= self.above
        }
    }

    /// Returns the margin of the numbers whose products with `number` are within this one.
    fn divided(&self, number: i64) -> Margin
        ensures { (v : ℤ) → FitsSigned w64 v → lies_within result.below result.above v ≡ lies_within self.now.below self.now.above (number *ℤ v) }
    {
        let size = number.unsigned_abs();
        if size == 0 {
            return Margin::whole();
        }
        let below = quotient(self.below, size);
        let above = quotient(self.above, size);
        if number < 0 {
            return Margin {
                below: above,
                above: below.min(i64::MAX.unsigned_abs()),
            };
        }
        Margin { below, above }
    }
}

/// `x1 × (x2 × (.. (xk × v)))` of v: `total × v`. Intermediate products fit 64 bits exactly if v is within the margin. The margin always admits 0.
#[derive(Clone, Copy)]
pub(crate) struct Products {
    total: i64,
    margin: Margin,
}

impl Products {
    /// Returns the empty prefix.
    pub(crate) fn none() -> Products
        ensures { IsFresh (product result.total result.margin.below result.margin.above) }
    {
        Products {
            total: 1,
            margin: Margin::whole(),
        }
    }
}

impl Prefix for Products {
    ghost step = { λ s. dyadic_on_numbers Product };

    ghost gives = { λ s. product s.total s.margin.below s.margin.above };

    fn push(&mut self, number: i64) -> Result<i64, Kind> {
        if !self.margin.has(number) {
            return Err(Kind::Limit);
        }
        let total = Times.at(self.total, number)?;
        *self = Products {
            total,
            margin: self.margin.divided(number),
        };
        Ok(total)
    }
}
