//! Changed places of arguments.

ghost use Rattle.std.specs.Prelude.{◌≡◌, ℕ, List, Option, Some, None, MatchOption};
ghost use Rattle.index_region.specs.Moves.{Tells, changed_box};

use crate::delta::Delta;
use crate::index_box::IndexBox;

/// The changed places of an argument. The `Seen` of the argument has the new items.
#[derive(Clone, Copy, Drop)]
pub enum Moved<'a> {
    /// No place.
    Not,
    /// The places of a box.
    Inside(&'a IndexBox),
    /// One more place of the first axis.
    Longer,
    /// Everything: another array, or an error.
    Anew,
}

impl<'a> Moved<'a> {
    /// Returns the places that a change has changed.
    pub fn of(delta: &'a Delta) -> Moved<'a>
        ensures { Tells result delta.now }
    {
        match delta {
            Delta::Same => Moved::Not,
            Delta::Patch(patch) => Moved::Inside(patch.region()),
            Delta::Grown(_) => Moved::Longer,
            Delta::Whole(_) => Moved::Anew,
        }
    }
}

/// A change of an argument that may have a box of changed places.
pub trait ChangedBox {
    /// The box of changed places, if there is one.
    ghost changed: { Self → Option (List (ℕ × ℕ)) };

    /// Returns the box of changed places; None if nothing changed, or more than a box.
    fn changed_box(&self) -> Option<&IndexBox>
        ensures { MatchOption result (changed self.now ≡ None) (λ region. changed self.now ≡ Some region.now) };
}

impl<'a> ChangedBox for Moved<'a> {
    ghost changed = { changed_box };

    fn changed_box(&self) -> Option<&IndexBox> {
        match self {
            Moved::Inside(region) => Some(*region),
            _ => None,
        }
    }
}

impl ChangedBox for Option<IndexBox> {
    ghost changed = { λ region. region };

    fn changed_box(&self) -> Option<&IndexBox> {
        self.as_ref()
    }
}
