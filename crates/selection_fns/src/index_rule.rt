//! The change rule of indexed reference.

ghost use Rattle.std.specs.Prelude.{◌≡◌, ◌≤◌, ◌<◌, IfSome, Some, length, false, not, unsigned_abs};
ghost use Rattle.std.specs.List.{list_all};
ghost use Rattle.arrays_core.specs.Limits.{most_axes};
ghost use Rattle.index_region.specs.Boxes.{join_boxes};
ghost use Rattle.change_core.specs.Places.{lies_in};
ghost use Rattle.change_core.specs.RuleModels.{FitsAt, box_at};
ghost use Rattle.selection_fns.specs.Index.{count_written, written_positions, index_rule, position_box, position_uses, indexed_box};
ghost use Rattle.selection_fns.specs.Growth.{first_alone, first_empty, index_grows};
ghost use Rattle.selection_fns.specs.Laws.IndexGrowth.{index_growing};
ghost use Rattle.selection_fns.specs.PositionAxes.{count_axes, axes_before};
ghost use Rattle.selection_fns.specs.Laws.Index.{index_tight, length-selectors};

use crate::index::Index;
use arrays_core::{ApplyFault, Array};
use change_core::Announced;
use index_region::{IndexBox, Intervals, Seen};
use std::alloc::Global;

/// Returns the least box that holds a box, if there is one, and one more place.
fn with_place(found: Option<IndexBox>, place: IndexBox) -> IndexBox
    requires { IfSome found (λ b. length b ≡ length place) }
    ensures is { Some result ≡ join_boxes (Some place) found }
    ensures long { length result ≡ length place }
{
    match found {
        None => place,
        Some(found) => place.hull(&found),
    }
}

/// Returns whether an index names a place of an interval.
fn names_place_of(interval: (u32, u32), index: i64) -> bool
    ensures { result ≡ lies_in interval (unsigned_abs index) }
{
    let (first, last) = interval;
    let place = index.unsigned_abs();
    u64::from(first) <= place && place <= u64::from(last)
}

/// Returns the least box of the places of a position whose indices name a place of an interval; None where there are none.
fn places_naming(position: &Seen, interval: (u32, u32)) -> Option<IndexBox>
    ensures is { result ≡ position_box position.now interval }
    ensures long { IfSome result (λ b. length b ≡ length position.now.shape) }
{
    let shape = position.shape();
    let mut found = None;
    for before in 0..position.places() {
        if names_place_of(interval, position.number(before + 1)) {
            let point = IndexBox::cover(shape, before + 1, before + 1);
            found = Some(with_place(found, point));
        }
    }
    found
}

/// Returns the box of the result that a box of the indexed array may change. An empty position contributes its
/// interval, a written one the least box of its places that name a changed one.
fn indexed_box(written: &[bool], positions: &[Seen], intervals: &[(u32, u32)]) -> Option<Intervals>
    requires long { length positions.now ≡ count_written written.now }
    requires one_an_axis { length intervals.now ≡ length written.now }
    requires few { count_axes (written_positions written.now positions.now) ≤ most_axes }
    ensures is { result ≡ indexed_box (written_positions written.now positions.now) intervals.now }
    ensures axes { IfSome result (λ b. length b ≡ count_axes (written_positions written.now positions.now)) }
{
    if written.is_empty() {
        return Some(Intervals::none());
    }
    let (first, last) = intervals[0];
    if !written[0] {
        let others = indexed_box(&written[1..], positions, &intervals[1..])?;
        return Some(Intervals::one(first, last).and_all(others.as_slice()));
    }
    let own = places_naming(&positions[0], (first, last))?;
    let others = indexed_box(&written[1..], &positions[1..], &intervals[1..])?;
    Some(own.intervals().copy().and_all(others.as_slice()))
}

/// Returns the number of axes of the result before those of a written position.
fn axes_before(written: &[bool], positions: &[Seen], which: usize) -> usize
    requires long { length positions.now ≡ count_written written.now }
    requires few { count_axes (written_positions written.now positions.now) ≤ most_axes }
    ensures is { result ≡ axes_before (written_positions written.now positions.now) which }
    ensures within { result ≤ count_axes (written_positions written.now positions.now) }
{
    if written.is_empty() {
        return 0;
    }
    if !written[0] {
        return 1 + axes_before(&written[1..], positions, which);
    }
    if which == 0 {
        return 0;
    }
    positions[0].shape().len() + axes_before(&written[1..], &positions[1..], which - 1)
}

/// Returns the box of the result that a box of a written position may change. It is `region` on the axes of that
/// position; all other axes are whole.
fn position_box(
    written: &[bool],
    positions: &[Seen],
    which: usize,
    shape: &[u32],
    region: &IndexBox,
) -> Intervals
    requires long { length positions.now ≡ count_written written.now }
    requires below { which < length positions.now }
    requires fit { FitsAt positions.now which region.now }
    requires axes { count_axes (written_positions written.now positions.now) ≡ length shape.now }
    requires few { length shape.now ≤ most_axes }
    ensures { Some result ≡ box_at (position_uses shape.now 0 (written_positions written.now positions.now)) which region.now }
{
    let before = axes_before(written, positions, which);
    let after = before + positions[which].shape().len();
    prove!(after <= shape.len());
    Intervals::whole(&shape[..before])
        .and_all(region.as_slice())
        .and_whole(&shape[after..])
}

/// Returns whether no mark is set.
fn none_marked(marks: &[bool]) -> bool
    ensures { result ≡ list_all (λ m. not m) marks.now }
{
    marks.iter().all(|mark| !*mark)
}

/// Returns whether the first argument alone is marked.
fn first_alone(marks: &[bool]) -> bool
    ensures { result ≡ first_alone marks.now }
{
    match marks {
        [true, others @ ..] => none_marked(others),
        _ => false,
    }
}

/// Returns whether the first position is empty.
fn first_empty(written: &[bool]) -> bool
    ensures { result ≡ first_empty written.now }
{
    matches!(written, [false, ..])
}

impl<'w> Announced for Index<'w> {
    ghost selectors = { λ r. (index_rule r.written.now).selectors };

    ghost uses = { λ r shape args. (index_rule r.written.now).uses shape args };

    ghost growth = { λ r. index_grows r.written.now };

    fn grows(&self, args: &[Seen], grown: &[bool]) -> bool {
        first_alone(grown) && first_empty(self.written) && args[0].shape().len() >= 2
    }

    fn reads_many_items(&self) -> bool {
        false
    }

    fn selects(&self, _which: usize) -> bool {
        false
    }

    fn box_of(
        &self,
        args: &[Seen],
        shape: &[u32],
        which: usize,
        region: &IndexBox,
    ) -> Option<Intervals> {
        let written = self.written;
        let positions = &args[1..];
        if which == 0 {
            return indexed_box(written, positions, region.as_slice());
        }
        Some(position_box(written, positions, which - 1, shape, region))
    }

    fn whole(&self, alloc: Global, args: &[Seen]) -> Result<Array, ApplyFault> {
        self.apply(alloc, args)
    }

    ghost counted = { λ r. length-selectors r.written.now };

    ghost tight = { λ r. index_tight r.written.now };

    ghost growing = { λ r. index_growing r.written.now };
}
