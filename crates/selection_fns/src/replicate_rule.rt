//! The change rule of replicate.

ghost use Rattle.std.specs.Prelude.{◌≡◌, ◌≢◌, ◌≤◌, ◌*◌, IsTrue, Some, length, map, sum, take, replicate, unsigned_abs};
ghost use Rattle.std.proofs.Common.{rules};
ghost use Rattle.arrays_core.specs.Limits.{longest_axis};
ghost use Rattle.index_region.specs.Arguments.{numbers};
ghost use Rattle.index_region.specs.Boxes.{fits};
ghost use Rattle.change_core.specs.RuleModels.{HasShape};
ghost use Rattle.selection_fns.specs.Replicate.{times, replicate_form, replicate_rule, replicate_box, copies_before, copied_interval};
ghost use Rattle.change_core.proofs.Growing.{never_grows};
ghost use Rattle.selection_fns.specs.Laws.Replicate.{replicate_tight};

use crate::replicate::Replicate;
use crate::whole_box::{is_small, items_of_whole};
use arrays_core::{ApplyFault, Array, ItemType};
use change_core::Announced;
use index_region::{Along, IndexBox, Intervals, Seen};
use std::alloc::Global;

/// Returns the number of copies of the first places of an axis, where all places have one count.
fn copies_of_one_count(count: u64, places: u32, first: u32) -> u32
    requires within { first ≤ places }
    requires few { places * count ≤ longest_axis }
    ensures { result ≡ sum (take first (replicate places count)) }
{
    (u64::from(first) * count) as u32
}

/// Returns the number of copies of the first places of an axis, where each place has its own count.
fn copies_of_counts(counts: &Seen, first: u32) -> u32
    requires within { first ≤ length counts.now.items }
    requires few { sum (map unsigned_abs (numbers counts.now)) ≤ longest_axis }
    ensures { result ≡ sum (take first (map unsigned_abs (numbers counts.now))) }
{
    let mut copies = 0;
    for place in 0..first {
        copies += counts.number(place + 1).unsigned_abs() as u32;
    }
    copies
}

/// Returns the number of copies of the first places of an axis.
fn copies_before(counts: &Seen, places: u32, first: u32) -> u32
    requires within { first ≤ places }
    requires one_a_place { length counts.now.items ≢ 1 → length counts.now.items ≡ places }
    requires few { sum (times counts.now places) ≤ longest_axis }
    ensures { result ≡ copies_before counts.now places first }
{
    if counts.places() == 1 {
        copies_of_one_count(counts.number(1).unsigned_abs(), places, first)
    } else {
        copies_of_counts(counts, first)
    }
}

/// Returns the interval of the copies of the places of an interval; on an axis of length 1, all copies.
fn copied_interval(counts: &Seen, places: u32, copies: u32, interval: (u32, u32)) -> (u32, u32)
    requires low { 1 ≤ interval.0 }
    requires order { interval.0 ≤ interval.1 }
    requires high { interval.1 ≤ places }
    requires one_a_place { places ≢ 1 → length counts.now.items ≢ 1 → length counts.now.items ≡ places }
    requires few { sum (times counts.now places) ≤ longest_axis }
    ensures { result ≡ copied_interval counts.now places copies interval }
{
    if places == 1 {
        return (1, copies);
    }
    let (first, last) = interval;
    (
        copies_before(counts, places, first - 1) + 1,
        copies_before(counts, places, last),
    )
}

/// Returns the box of the copies of the places of a box.
fn copied_box(
    along: Along,
    counts: &Seen,
    array: &Seen,
    shape: &[u32],
    region: &IndexBox,
) -> Intervals
    requires checked { HasShape (replicate_form along counts.now array.now) shape.now }
    requires fit { IsTrue (fits region.now array.now.shape) }
    ensures { Some result ≡ replicate_box along shape.now counts.now array.now region.now }
{
    let axes = array.shape().as_slice();
    if axes.is_empty() {
        return Intervals::whole(shape);
    }
    let axis = along.axis_at(axes.len() as u32);
    let (first, last) = copied_interval(counts, axes[axis], shape[axis], region.as_slice()[axis]);
    region.intervals().copy().with(axis, first, last)
}

impl Announced for Replicate {
    ghost selectors = { λ r. (replicate_rule r.along).selectors };

    ghost uses = { λ r shape args. (replicate_rule r.along).uses shape args };

    fn grows(&self, _args: &[Seen], _grown: &[bool]) -> bool {
        false
    }

    fn selects(&self, which: usize) -> bool {
        which == 0
    }

    fn box_of(
        &self,
        args: &[Seen],
        shape: &[u32],
        which: usize,
        region: &IndexBox,
    ) -> Option<Intervals> {
        if which == 0 {
            return None;
        }
        Some(copied_box(self.along, &args[0], &args[1], shape, region))
    }

    fn whole(&self, alloc: Global, args: &[Seen]) -> Result<Array, ApplyFault> {
        self.apply(alloc, args)
    }

    fn items_at_once(
        &self,
        alloc: Global,
        args: &[Seen],
        shape: &[u32],
        item_type: ItemType,
        region: &IndexBox,
    ) -> Option<Result<Array, ApplyFault>> {
        if is_small(region) {
            return None;
        }
        let answer = self.whole(alloc, args);
        items_of_whole(self, alloc, args, answer, shape, item_type, region)
    }

    ghost counted = { λ _. Prim.search rules };

    ghost tight = { λ r. replicate_tight r.along };

    ghost growing = { λ _. never_grows _ };
}
