//! The part of a result that may change.

ghost use Rattle.std.specs.Prelude.{◌≡◌, ◌≤◌, ℕ, List, length, Some};
ghost use Rattle.arrays_core.specs.Limits.{most_axes};
ghost use Rattle.index_region.specs.Boxes.{join_boxes};
ghost use Rattle.change_core.specs.Reaches.{bounded, as_reach};
ghost use Rattle.change_core.specs.Growth.{last_place, IsGrowing};
ghost use Rattle.change_core.specs.Tightness.{ReachCovers, ReachLies};

use crate::rule::Rule;
use index_region::{IndexBox, Intervals};

/// The part of a result that may change.
#[derive(Drop)]
pub enum Reach {
    /// Nothing.
    Unmoved,
    /// The places of a box.
    Inside(IndexBox),
    /// The whole result, including its shape.
    Anew,
}

/// The answer of a rule to changed boxes of its arguments.
#[derive(Drop)]
pub struct Reached {
    /// The places of the result that may change.
    pub reach: Reach,
    /// A single item reads few items of the arguments, so it is computed from views without copying a patched argument. Only the choice of
    /// the way depends on it; no contract does.
    pub reads_few: bool,
}

/// Returns the hull of two boxes, either of which may be missing.
pub(crate) fn join_boxes(left: Option<IndexBox>, right: Option<IndexBox>) -> Option<IndexBox>
    requires { (a b : List (ℕ × ℕ)) → left ≡ Some a → right ≡ Some b → length a ≡ length b }
    ensures { result ≡ join_boxes left right }
{
    match (left, right) {
        (None, right) => right,
        (Some(left), None) => Some(left),
        (Some(left), Some(right)) => Some(left.hull(&right)),
    }
}

/// Returns the part of the intervals that lies in a shape; None if it is empty.
pub(crate) fn bounded(shape: &[u32], region: Option<Intervals>) -> Option<IndexBox>
    requires { length shape.now ≤ most_axes }
    ensures { result ≡ bounded shape.now region }
{
    IndexBox::inside(shape, &region?)
}

/// Returns the box of the last place of the first axis of a shape; None if the shape has no items.
pub fn last_place(shape: &[u32]) -> Option<IndexBox>
    requires { length shape.now ≤ most_axes }
    ensures { result ≡ last_place shape.now }
{
    let last = match shape.first() {
        None => Intervals::none(),
        Some(length) => Intervals::one(*length, *length),
    };
    IndexBox::inside(shape, &last)
}

/// Converts an optional box to a reach.
pub(crate) fn as_reach(region: Option<IndexBox>) -> Reach
    ensures { result ≡ as_reach region }
{
    match region {
        None => Reach::Unmoved,
        Some(region) => Reach::Inside(region),
    }
}

/// States the law of change of a rule: if arguments agree outside their changed boxes, results agree outside the reach. The reach lies in
/// the result.
pub fn reach_covers<R: Rule>(rule: &R)
    ensures covers { ReachCovers (R.model rule.now) }
    ensures lies { ReachLies (R.model rule.now) }
{
    let _rule = rule;
}

/// States the law of growth of a rule: if its marked arguments grew by one place of their first axis and `grows` holds, the result grows by
/// one place and keeps its old items.
pub fn growth_extends<R: Rule>(rule: &R)
    ensures { IsGrowing (R.model rule.now) (R.model rule.now).grows }
{
    let _rule = rule;
}
