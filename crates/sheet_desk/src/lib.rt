//! The desk: a sheet, and open changes that are computed step by step.
#![tactic(auto)]

mod desk;
mod event;
mod laws;
mod slot;

pub use desk::{Desk, SLOTS};
pub use event::{Answer, Event};
pub use laws::{
    each_event_has_one_answer, names_are_of_changes_committed, opened_is_as_plain,
    shows_are_of_changes_committed, stale_where_changed,
};
