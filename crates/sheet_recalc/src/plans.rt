//! The plans of a change.

ghost use Rattle.std.specs.Prelude.{◌≡◌, ◌+◌, ◌-◌, ◌<◌, ◌≤◌, ◌∷◌, ◌++◌, ℕ, [], List, true, None, IsSome, IsTrue, MatchOption, length, min, take, get_or, if◌then◌else◌};
ghost use Rattle.std.specs.Str.{bytes_eq};
ghost use Rattle.std.specs.Map.{keys_of};
ghost use Rattle.dep_order.specs.Users.{EndsWith};
ghost use Rattle.sheet_recalc.specs.Live.{plan_in};
ghost use Rattle.sheet_recalc.specs.Planning.{waiting_names, coming_cost};

use formula_core::Plan;
use indexmap::IndexMap;
use names::Name;
use std::alloc::Global;

/// The names that a change reaches, each after all that refer to it, with the plans that are whole.
pub(crate) type Found = IndexMap<Name, Option<Plan>>;

/// The plans of a change, whole or under way.
#[derive(Drop)]
pub(crate) struct Plans {
    /// The names that the change reaches.
    pub(crate) found: Found,
    /// The number of names, from the first, that wait for their plans.
    pub(crate) waiting: usize,
    /// The plan of the last name that waits, if it is begun.
    pub(crate) current: Option<Plan>,
    /// The cost of the whole plans, with the cost before them; at most the greatest number of 64 bits.
    pub(crate) cost: u64,
    /// For each name, its place in the sheet at the last lookup. A hint: a lookup tries it first, and nothing depends on it.
    pub(crate) places: Vec<usize>,
}

impl Plans {
    /// Makes plans of no name.
    pub(crate) fn none(alloc: Global) -> Plans {
        Plans {
            found: IndexMap::new(alloc),
            waiting: 0,
            current: None,
            cost: 0,
            places: Vec::new(alloc),
        }
    }

    /// Returns true if these plans have the names that an edit of this name reaches: they were made for an edit of their last name.
    #[inline(always)]
    pub(crate) fn keep_reach(&self, of_edit: bool, name: &Name) -> bool
        ensures { IsTrue result → (of_edit ≡ true) × EndsWith (keys_of self.now.found.entries) name.now }
    {
        match self.found.keys().as_slice().last() {
            Some(last) => of_edit && *last == *name,
            None => false,
        }
    }

    /// Returns the last name that waits for its plan.
    #[inline(always)]
    pub(crate) fn next_name(&self) -> Option<&Name>
        requires { self.now.waiting ≤ length self.now.found.entries }
        ensures { MatchOption result (self.now.waiting ≡ 0)
            (λ name. (0 < self.now.waiting) × (waiting_names self.now ≡ take (self.now.waiting - 1) (keys_of self.now.found.entries) ++ name.now ∷ [])
            × (get_or (keys_of self.now.found.entries) (self.now.waiting - 1) [] ≡ name.now)) }
    {
        if self.waiting == 0 {
            return None;
        }
        match self.found.get_index(self.waiting - 1) {
            Some((name, _)) => Some(name),
            None => None,
        }
    }

    /// Returns the hint of the last name that waits: its likely place in the sheet.
    #[inline(always)]
    pub(crate) fn hint(&self) -> usize {
        let place = self.waiting.saturating_sub(1);
        self.places.get(place).copied().unwrap_or(0)
    }

    /// Stores the plan under way as the plan of the last name that waits, and the name's place in the sheet as a hint.
    #[inline(always)]
    pub(crate) fn keep(&mut self, place: usize)
        requires waits { 0 < self.old.waiting }
        requires few { self.old.waiting ≤ length self.old.found.entries }
        requires some { IsSome self.old.current }
        ensures waiting { self.new.waiting ≡ self.old.waiting - 1 }
        ensures keys { keys_of self.new.found.entries ≡ keys_of self.old.found.entries }
        ensures plans { (q : List ℕ) → plan_in self.new.found.entries q ≡ (if bytes_eq (get_or (keys_of self.old.found.entries) (self.old.waiting - 1) []) q then self.old.current else plan_in self.old.found.entries q) }
        ensures cost { self.new.cost ≡ min (self.old.cost + coming_cost self.old.current) 18446744073709551615 }
        ensures current { self.new.current ≡ None }
    {
        let Some(plan) = self.current.take() else {
            return;
        };
        self.cost = self.cost.saturating_add(plan.cost());
        self.waiting -= 1;
        note_at(&mut self.places, self.waiting, place);
        if let Some(lies) = self.found.get_index_mut(self.waiting) {
            *lies = Some(plan);
        }
    }
}

/// Stores a hint.
#[inline(always)]
fn note_at(places: &mut Vec<usize>, which: usize, place: usize) {
    if let Some(there) = places.get_mut(which) {
        *there = place;
    }
}
