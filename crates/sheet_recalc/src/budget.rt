//! The budget of the planner.

ghost use Rattle.std.specs.Prelude.{◌≡◌, MatchBool};
ghost use Rattle.sheet_recalc.specs.Planning.{paid};
ghost use Rattle.sheet_recalc.specs.declared.budget.Budget.TheVariants.{Spent};

/// The number of functions that the planner may apply.
#[derive(Drop)]
pub(crate) enum Budget {
    /// All functions that are left: an edit at once.
    All,
    /// One function: a step.
    One,
    /// No function: a change is begun, or the function of the step is applied.
    Spent,
}

impl Budget {
    /// Returns true if no function may be applied.
    pub(crate) fn is_spent(&self) -> bool
        ensures { MatchBool result (self.now ≡ Spent) (self.now ≡ Spent → ⊥) }
    {
        matches!(self, Budget::Spent)
    }

    /// Pays for one function.
    pub(crate) fn pay(&mut self)
        ensures { self.new ≡ paid self.old }
    {
        if let Budget::One = self {
            *self = Budget::Spent;
        }
    }
}
