//! Consequences of the definitions alone.
ghost use Rattle.sheet_desk.specs.Histories.{EachEventHasOneAnswer, NamesAreOfChangesCommitted, OpenedIsAsPlain, ShowsAreOfChangesCommitted, StaleWhereChanged};

/// After any events the names are the result of the accepted changes, plain or committed, in their order.
pub fn names_are_of_changes_committed()
    ensures { NamesAreOfChangesCommitted }
{}

/// An expression's shown value is its value under the names that these changes make. Open changes do not matter.
pub fn shows_are_of_changes_committed()
    ensures { ShowsAreOfChangesCommitted }
{}

/// An open change is stale if and only if another change was made after it was opened.
pub fn stale_where_changed()
    ensures { StaleWhereChanged }
{}

/// Unless memory is refused, an event has one answer, except for the choice of a cycle, and leads to one desk, except for the count of items.
pub fn each_event_has_one_answer()
    ensures { EachEventHasOneAnswer }
{}

/// A change that is opened and committed without another change between makes the names and the cost of the plain change. It makes the same ticks,
/// unless an item of a formula fails.
pub fn opened_is_as_plain()
    ensures { OpenedIsAsPlain }
{}
