//! The desk.

ghost use Rattle.std.specs.Prelude.{◌≡◌, replicate, length, map, None, IfOk, OnErr};
ghost use Rattle.apl_expr.specs.Trees.{tree_of};
ghost use Rattle.formula_core.specs.Meaning.{eval};
ghost use Rattle.sheet_recalc.specs.Meaning.{val};
ghost use Rattle.sheet_recalc.specs.History.{change_of};
ghost use Rattle.sheet_desk.specs.Slots.{slot_count};
ghost use Rattle.sheet_desk.specs.Desk.{IsEvent, AreEvents, Open, Step, Commit, Drop, Plain};
ghost use Rattle.sheet_desk.specs.Asked.{event_of, answer_of, count_answer, done_answer};

use crate::event::{Answer, Event};
use crate::slot::{Slot, mark_stale, place_in, take_ready};
use apl_expr::{Change, Expr};
use arrays_core::{Array, Fault};
use sheet_recalc::{Refusal, Sheet};
use std::alloc::AllocError;
use std::collections::VecDeque;
use std::marker::Model;

/// The number of slots, and so of changes that can be open at once.
pub const SLOTS: usize = 8;

/// A sheet with eight slots, each for one open change. An open change is computed step by step, and then made at once and without allocation. Open
/// changes do not affect the sheet.
#[derive(Drop)]
pub struct Desk {
    sheet: Sheet,
    slots: [Option<Slot>; SLOTS],
}

impl Model for Desk {
    ghost use Rattle.sheet_desk.specs.Desk.{DeskValue};

    ghost Value = { DeskValue };

    ghost use Rattle.std.specs.Coded.{codes};
    ghost use Rattle.apl_expr.specs.Laws.Codes.{coded_tree};
    ghost use Rattle.sheet_recalc.specs.Laws.Codes.{coded_binding};

    ghost coded = { Prim.hlevel (codes, coded_tree, coded_binding) };

    ghost use Rattle.sheet_desk.specs.Held.{slot_values_of, AreOpenOn};

    ghost view = { λ d. record { names = d.sheet.names; cost = d.sheet.cost; ticks = d.sheet.ticks; slots = slot_values_of d.slots } };

    ghost invariant = { λ d. AreOpenOn d.sheet d.slots };
}

impl Desk {
    /// Makes the desk of a sheet; all slots are empty.
    pub fn new(sheet: Sheet) -> Desk
        ensures names { result.names ≡ sheet.names }
        ensures cost { result.cost ≡ sheet.cost }
        ensures ticks { result.ticks ≡ sheet.ticks }
        ensures slots { result.slots ≡ replicate slot_count None }
    {
        Desk {
            sheet,
            slots: [None, None, None, None, None, None, None, None],
        }
    }

    /// Returns the sheet without the open changes. A desk always has `SLOTS` slots.
    pub fn sheet(&self) -> &Sheet
        ensures names { result.now.names ≡ self.now.names }
        ensures cost { result.now.cost ≡ self.now.cost }
        ensures ticks { result.now.ticks ≡ self.now.ticks }
        ensures slots { length self.now.slots ≡ slot_count }
    {
        let _slots = &self.slots;
        &self.sheet
    }

    /// Evaluates an expression on the sheet.
    pub fn show(&self, tree: &Expr) -> Result<Result<Array, Fault>, AllocError>
        ensures { IfOk result (λ outcome. outcome ≡ eval (tree_of tree.now) (val self.now.names)) }
    {
        self.sheet.show(tree)
    }

    /// Opens a change in an empty slot and returns the number of its steps. Every refusal by the sheet, except want of memory, comes here.
    pub fn open(&mut self, number: i64, change: Change) -> Result<u32, Refusal>
        ensures { IsEvent self.old (Open number (change_of change)) (count_answer result) self.new }
    {
        let Some(place) = place_in(&self.slots, number) else {
            return Err(Refusal::NoSlot);
        };
        if self.slots[place].is_some() {
            return Err(Refusal::SlotInUse);
        }
        let pending = self.sheet.begin_lent(&change)?;
        let left = pending.left();
        self.slots[place] = Some(Slot {
            change,
            pending,
            is_stale: false,
        });
        Ok(left)
    }

    /// Does one step of the change in a slot and returns the number left; with none left it does nothing.
    pub fn step(&mut self, number: i64) -> Result<u32, Refusal>
        ensures { IsEvent self.old (Step number) (count_answer result) self.new }
    {
        let Some(place) = place_in(&self.slots, number) else {
            return Err(Refusal::NoSlot);
        };
        let Some(slot) = &mut self.slots[place] else {
            return Err(Refusal::NoSlot);
        };
        if slot.is_stale {
            return Err(Refusal::Stale);
        }
        if slot.pending.left() == 0 {
            return Ok(0);
        }
        Ok(self.sheet.advance(&mut slot.pending)?)
    }

    /// Makes the change in a slot, which has no step left, and empties the slot. All other open changes become stale. Allocates nothing.
    pub fn commit(&mut self, number: i64) -> Result<(), Refusal>
        ensures { IsEvent self.old (Commit number) (done_answer result) self.new }
    {
        let slot = take_ready(&mut self.slots, number)?;
        self.sheet.adopt(slot.pending);
        mark_stale(&mut self.slots);
        Ok(())
    }

    /// Drops the change in a slot and empties the slot. Allocates nothing.
    pub fn drop_slot(&mut self, number: i64) -> Result<(), Refusal>
        ensures { IsEvent self.old (Drop number) (done_answer result) self.new }
    {
        let Some(place) = place_in(&self.slots, number) else {
            return Err(Refusal::NoSlot);
        };
        if self.slots[place].is_none() {
            return Err(Refusal::NoSlot);
        }
        self.slots[place] = None;
        Ok(())
    }

    /// Makes a change at once. All open changes become stale.
    pub fn plain(&mut self, change: Change) -> Result<(), Refusal>
        ensures { IsEvent self.old (Plain (change_of change)) (done_answer result) self.new }
    {
        self.plain_lent(&change)
    }

    /// Makes a borrowed change at once. All open changes become stale.
    #[inline(always)]
    pub fn plain_lent(&mut self, change: &Change) -> Result<(), Refusal>
        ensures { IsEvent self.old (Plain (change_of change.now)) (done_answer result) self.new }
    {
        self.sheet.apply_lent(change)?;
        mark_stale(&mut self.slots);
        Ok(())
    }

    /// Handles an event and returns the answer.
    pub fn apply(&mut self, event: Event) -> Answer
        ensures { IsEvent self.old (event_of event) (answer_of result) self.new }
    {
        match event {
            Event::Open(number, change) => Answer::counted(self.open(number, change)),
            Event::Step(number) => Answer::counted(self.step(number)),
            Event::Commit(number) => Answer::done(self.commit(number)),
            Event::Drop(number) => Answer::done(self.drop_slot(number)),
            Event::Plain(change) => Answer::done(self.plain(change)),
            Event::Show(tree) => Answer::shown(self.show(&tree)),
        }
    }

    /// Handles events in order and returns their answers. If memory for the answers is refused, it does nothing.
    pub fn apply_all(&mut self, mut events: VecDeque<Event>) -> Result<Vec<Answer>, AllocError>
        ensures run { IfOk result (λ answers. AreEvents self.old (map event_of events.items) (map answer_of answers.items) self.new) }
        ensures err { OnErr result (self.new ≡ self.old) }
    {
        let mut answers = Vec::with_capacity(*events.allocator(), events.len())?;
        while let Some(event) = events.pop_front() {
            let answer = self.apply(event);
            answers.push(answer).unwrap();
        }
        Ok(answers)
    }
}
