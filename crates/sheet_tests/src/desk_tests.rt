//! Events of a desk, and calls that are repeated after an allocation failed.

use crate::fixtures::{MOST_TRIES, change_of, is_made, shows};
use sheet_desk::{Answer, Desk, Event};
use sheet_recalc::{Refusal, Sheet};
use std::alloc::Global;
use std::collections::VecDeque;
use std::process::Abort;

/// The number of steps left, 0 for answers without one, or the cause of a refusal.
type Outcome = Result<u32, u8>;

const NO_MEMORY: u8 = 1;

const STALE: u8 = 2;

const NO_SLOT: u8 = 3;

/// Returns the cause of a refusal, 0 for those that no test expects.
fn cause(refusal: &Refusal) -> u8 {
    match refusal {
        Refusal::NoMemory => NO_MEMORY,
        Refusal::Stale => STALE,
        Refusal::NoSlot => NO_SLOT,
        _ => 0,
    }
}

/// Returns the outcome of an answer.
fn outcome_of(answer: &Answer) -> Outcome {
    match answer {
        Answer::Left(left) => Ok(*left),
        Answer::Refused(refusal) => Err(cause(refusal)),
        _ => Ok(0),
    }
}

/// Makes an event of one of four kinds: it opens the change of a line in slot 1, does a step there, commits it, or makes the change.
fn event_of(rt: &impl Abort, alloc: Global, kind: u8, text: &str) -> Event {
    match kind {
        0 => Event::Open(1, change_of(alloc, text).expect(rt, "a change")),
        1 => Event::Step(1),
        2 => Event::Commit(1),
        _ => Event::Plain(change_of(alloc, text).expect(rt, "a change")),
    }
}

/// Returns whether these are the answers to a change at once, an opening of one step, that step, and a commit.
fn are_done(answers: &[Answer]) -> bool {
    let outcomes = [Ok(0), Ok(1), Ok(0), Ok(0)];
    answers.len() == 4
        && answers
            .iter()
            .zip(outcomes)
            .all(|(answer, it)| outcome_of(answer) == it)
}

/// Makes a list of events: a change at once, an opening, a step and a commit.
fn four_events(rt: &impl Abort, alloc: Global) -> VecDeque<Event> {
    let mut events = VecDeque::new(alloc);
    for (kind, text) in [(3, "D←1 2 3"), (0, "T←D×2"), (1, ""), (2, "")] {
        let event = event_of(rt, alloc, kind, text);
        events.push_back(event).expect(rt, "room");
    }
    events
}

/// Applies the events to a desk, and returns whether all succeed.
fn are_answered(rt: &impl Abort, desk: &mut Desk, events: VecDeque<Event>) -> bool {
    let answers = desk.apply_all(events).expect(rt, "answers");
    are_done(answers.as_slice())
}

#[test]
fn events_in_a_list(rt: HostRuntime) {
    let events = four_events(&rt, rt.alloc());
    let mut desk = Desk::new(Sheet::new(rt.alloc()));
    assert!(rt; are_answered(&rt, &mut desk, events) && shows(desk.sheet(), "T", &[2, 4, 6]));
}

/// Returns the outcome of a call that counts steps.
fn counted(outcome: Result<u32, Refusal>) -> Outcome {
    match outcome {
        Ok(left) => Ok(left),
        Err(refusal) => Err(cause(&refusal)),
    }
}

/// Returns the outcome of a call that counts nothing.
fn done(outcome: Result<(), Refusal>) -> Outcome {
    match outcome {
        Ok(()) => Ok(0),
        Err(refusal) => Err(cause(&refusal)),
    }
}

/// Makes a change at once, repeated if an allocation fails.
fn is_made_at_once(alloc: Global, desk: &mut Desk, text: &str) -> bool {
    for _ in 0..MOST_TRIES {
        if let Some(change) = change_of(alloc, text) {
            if desk.plain(change).is_ok() {
                return true;
            }
        }
    }
    false
}

/// Opens a change, and returns the number of its steps. The slot stays empty if an allocation fails.
fn opened(alloc: Global, desk: &mut Desk, number: i64, text: &str) -> Option<u32> {
    for _ in 0..MOST_TRIES {
        if let Some(change) = change_of(alloc, text) {
            match counted(desk.open(number, change)) {
                Ok(left) => return Some(left),
                Err(NO_MEMORY) if counted(desk.step(number)) == Err(NO_SLOT) => {}
                Err(_) => return None,
            }
        }
    }
    None
}

/// Does a step, repeated if an allocation fails, and returns the number of steps left.
fn stepped(desk: &mut Desk, number: i64) -> Option<u32> {
    match counted(desk.step(number)) {
        Ok(left) => Some(left),
        Err(NO_MEMORY) => counted(desk.step(number)).ok(),
        Err(_) => None,
    }
}

/// Opens a change in a slot, does two steps, and returns the counts.
fn readied(alloc: Global, desk: &mut Desk, number: i64, text: &str) -> Option<[u32; 3]> {
    let first = opened(alloc, desk, number, text)?;
    let second = stepped(desk, number)?;
    let third = stepped(desk, number)?;
    Some([first, second, third])
}

/// Makes a change of two steps by a slot, and returns whether it is accepted.
fn is_made_by_slot(alloc: Global, desk: &mut Desk, number: i64, text: &str) -> bool {
    readied(alloc, desk, number, text) == Some([2, 1, 0]) && done(desk.commit(number)) == Ok(0)
}

/// Returns whether the change in a slot is stale, and drops it.
fn is_stale(desk: &mut Desk, number: i64) -> bool {
    done(desk.commit(number)) == Err(STALE) && done(desk.drop_slot(number)) == Ok(0)
}

/// Returns whether the last change of a sheet has this cost, and `T` shows this number.
fn has_total(sheet: &Sheet, cost: u64, number: i64) -> bool {
    sheet.last_cost() == cost && shows(sheet, "T", &[number])
}

/// Makes three changes by slots, the second one stale after the first, and returns whether each has its outcome.
fn have_outcomes(alloc: Global, desk: &mut Desk) -> bool {
    is_made_at_once(alloc, desk, ")DATA D←1 2 3")
        && readied(alloc, desk, 8, "U←-+/D") == Some([2, 1, 0])
        && is_made_by_slot(alloc, desk, 1, "T←+/D×2")
        && has_total(desk.sheet(), 4, 12)
        && is_stale(desk, 8)
        && is_made_by_slot(alloc, desk, 8, "D[2]←10")
        && has_total(desk.sheet(), 2, 28)
}

#[test]
fn what_is_refused_memory_is_asked_again(rt: HostRuntime) {
    let mut desk = Desk::new(Sheet::new(rt.alloc()));
    assert!(rt; have_outcomes(rt.alloc(), &mut desk));
}
