//! Scans by residue of numbers of which none is below 0, or none above.

ghost use Rattle.std.specs.Prelude.{◌≡◌, ◌<◌, ◌≤◌, ◌+◌, length, Ok, IsTrue, IfSome, Some, IfOk, vec_len};
ghost use Rattle.std.specs.List.{list_all};
ghost use Rattle.function_names.specs.declared.scalar.Scalar2.TheVariants.{Residue as ByResidue};
ghost use Rattle.item_fns.specs.Numbers.{dyadic_on_numbers};
ghost use Rattle.item_fns.specs.Folds.{folded};
ghost use Rattle.scan_fns.specs.LinearScan.{scans_of};
ghost use Rattle.scan_fns.specs.LinearScan.{scanned};
ghost use Rattle.scan_fns.specs.ResidueScan.{extent_of, extent_at, place_before, are_one_sided, is_low, is_high, IsBeside, AreDivisors, IsDivisor, AreTheSame, LeadsTo, from, rank};

use arrays_core::room_of;
use item_fns::residue;
use reduce_fns::AxisLines;
use std::alloc::{AllocError, Global};

/// A number of a line as a divisor, with links to the divisors before it.
#[derive(Clone, Copy)]
pub(crate) struct Divisor {
    /// The magnitude of the number, and the greatest `u64` for 0. A value of smaller magnitude is its own residue by this number.
    pub(crate) extent: u64,
    /// The last place before this one on its line whose extent is less.
    pub(crate) below: Option<usize>,
    /// A skip link: a place further back along the chain of `below`, so that a search takes few steps.
    pub(crate) far: Option<usize>,
    /// The number of `below` links from this place to `far`.
    pub(crate) steps: usize,
}

/// Returns the extent of a number as a divisor.
fn extent_of(number: i64) -> u64
    ensures is { result ≡ extent_of number }
    ensures some { 0 < result }
{
    if number == 0 {
        u64::MAX
    } else {
        number.unsigned_abs()
    }
}

/// Tells if no number is above 0.
fn are_low(numbers: &[i64]) -> bool
    ensures { result ≡ list_all is_low numbers.now }
{
    numbers.iter().all(|number| *number <= 0)
}

/// Tells if no number is below 0.
fn are_high(numbers: &[i64]) -> bool
    ensures { result ≡ list_all is_high numbers.now }
{
    numbers.iter().all(|number| *number >= 0)
}

/// Tells if no number is below 0, or none above.
pub(crate) fn are_one_sided(numbers: &[i64]) -> bool
    ensures { result ≡ are_one_sided numbers.now }
{
    are_high(numbers) || are_low(numbers)
}

/// Lines of `count` numbers a stride apart, none of them below 0, or none above.
#[derive(Clone, Copy)]
struct SidedLines<'a> {
    numbers: &'a [i64],
    stride: usize,
    count: usize,
    ghost some: { 1 ≤ count },
    ghost apart: { 0 < stride },
    ghost sided: { IsTrue (are_one_sided numbers.now) },
}

impl<'a> SidedLines<'a> {
    /// Returns the place before one on its line; None at its start.
    fn place_before(&self, place: usize) -> Option<usize>
        ensures is { result ≡ place_before self.now.stride self.now.count place }
        ensures before { rank result ≤ place }
    {
        if place / self.stride % self.count == 0 {
            None
        } else {
            Some(place - self.stride)
        }
    }

    /// Follows one link back from a place whose extent is above `extent`. Passes no place whose extent is at most `extent`.
    fn next_place(&self, divisors: &[Divisor], place: usize, extent: u64) -> Option<usize>
        requires place { place < length divisors.now }
        requires divisors { AreDivisors self.now.numbers.now self.now.stride self.now.count divisors.now }
        requires more { extent < extent_at self.now.numbers.now place }
        ensures same { AreTheSame self.now.numbers.now self.now.stride self.now.count (extent + 1) (Some place) result }
        ensures before { rank result ≤ place }
    {
        let divisor = divisors[place];
        match divisor.far {
            Some(far) if divisors[far].extent > extent => Some(far),
            _ => divisor.below,
        }
    }

    /// Returns the nearest place, from `start` back, whose extent is at most `extent`.
    fn nearest(&self, divisors: &[Divisor], start: Option<usize>, extent: u64) -> Option<usize>
        requires start { rank start ≤ length divisors.now }
        requires divisors { AreDivisors self.now.numbers.now self.now.stride self.now.count divisors.now }
        ensures same { AreTheSame self.now.numbers.now self.now.stride self.now.count (extent + 1) start result }
        ensures before { rank result ≤ rank start }
        ensures within { IfSome result (λ place. extent_at self.now.numbers.now place ≤ extent) }
    {
        let mut found = start;
        while let Some(place) = found {
            if divisors[place].extent <= extent {
                return found;
            }
            found = self.next_place(divisors, place, extent);
        }
        None
    }

    /// Reduces a number by the divisors from `start` back to the first of the line.
    fn residue_from(&self, divisors: &[Divisor], start: Option<usize>, number: i64) -> i64
        requires start { rank start ≤ length divisors.now }
        requires long { length divisors.now ≤ length self.now.numbers.now }
        requires divisors { AreDivisors self.now.numbers.now self.now.stride self.now.count divisors.now }
        requires beside { IsBeside self.now.numbers.now number }
        ensures { from self.now.numbers.now self.now.stride self.now.count start number ≡ Ok result }
    {
        let mut rest = number;
        let mut found = self.nearest(divisors, start, rest.unsigned_abs());
        while let Some(place) = found {
            rest = residue(self.numbers[place], rest);
            found = self.nearest(divisors, divisors[place].below, rest.unsigned_abs());
        }
        rest
    }

    /// Returns the skip link of a place with this `below` link, and the number of `below` links that it spans.
    fn far_from(&self, divisors: &[Divisor], below: Option<usize>) -> (Option<usize>, usize)
        requires start { rank below ≤ length divisors.now }
        requires divisors { AreDivisors self.now.numbers.now self.now.stride self.now.count divisors.now }
        ensures { LeadsTo self.now.numbers.now self.now.stride self.now.count below result.0 }
    {
        let Some(place) = below else {
            return (None, 0);
        };
        let divisor = divisors[place];
        let Some(far) = divisor.far else {
            return (below, 1);
        };
        let further = divisors[far];
        if further.steps == divisor.steps && further.far.is_some() {
            (
                further.far,
                divisor.steps.saturating_mul(2).saturating_add(1),
            )
        } else {
            (below, 1)
        }
    }

    /// Returns the divisor of the next place.
    fn next_divisor(&self, divisors: &[Divisor]) -> Divisor
        requires more { length divisors.now < length self.now.numbers.now }
        requires divisors { AreDivisors self.now.numbers.now self.now.stride self.now.count divisors.now }
        ensures { IsDivisor self.now.numbers.now self.now.stride self.now.count (length divisors.now) result }
    {
        let place = divisors.len();
        let extent = extent_of(self.numbers[place]);
        let below = self.nearest(divisors, self.place_before(place), extent - 1);
        let (far, steps) = self.far_from(divisors, below);
        Divisor {
            extent,
            below,
            far,
            steps,
        }
    }

    /// Returns the residue scan of all lines.
    fn residues(&self, alloc: Global) -> Result<Vec<i64>, AllocError>
        ensures is { IfOk result (λ v. scanned (folded (dyadic_on_numbers ByResidue)) self.now.numbers.now self.now.stride self.now.count ≡ Ok v.items) }
        ensures long { IfOk result (λ v. vec_len v ≡ length self.now.numbers.now) }
    {
        let mut results = Vec::with_capacity(alloc, room_of(self.numbers.len()))?;
        let mut divisors = Vec::with_capacity(alloc, self.numbers.len())?;
        for place in 0..self.numbers.len() {
            let start = self.place_before(place);
            let result = self.residue_from(&divisors, start, self.numbers[place]);
            results.push_reserved(result);
            let divisor = self.next_divisor(&divisors);
            divisors.push_reserved(divisor);
        }
        Ok(results)
    }
}

/// Scans each line by residue. Visits only divisors of at most the magnitude of the current value; each of them reduces it to less than half.
pub(crate) fn running_residues(alloc: Global, lines: &AxisLines) -> Result<Vec<i64>, AllocError>
    requires sided { IsTrue (are_one_sided lines.now.numbers.now) }
    ensures is { IfOk result (λ v. scans_of (dyadic_on_numbers ByResidue) lines.now ≡ Ok v.items) }
    ensures long { IfOk result (λ v. vec_len v ≡ length lines.now.numbers.now) }
{
    let sided = SidedLines {
        numbers: lines.numbers,
        stride: lines.stride,
        count: lines.count,
    };
    sided.residues(alloc)
}
