//! A sheet after a change, without a copy of it.

ghost use Rattle.std.specs.Prelude.{◌≡◌, MatchOption, Some};
ghost use Rattle.formula_core.specs.Formulas.{FormulaValue};
ghost use Rattle.sheet_recalc.specs.Names.{referred_by};
ghost use Rattle.sheet_recalc.specs.ProposedSheet.{outline_of, proposed_names, entry_of};
ghost use Rattle.sheet_recalc.specs.declared.entry.Entry.TheVariants.{Formula as FormulaEntry};

use crate::entry::Entry;
use crate::proposal::Proposal;
use formula_core::Formula;
use indexmap::IndexMap;
use names::Name;

/// The names of a sheet with one rebound or removed. A rebound name keeps its index, a new one comes last. The names after a removed one move up.
#[derive(Drop)]
pub(crate) struct ProposedSheet<'a> {
    pub(crate) entries: &'a IndexMap<Name, Entry>,
    pub(crate) name: Name,
    /// The next binding of the name.
    pub(crate) proposal: &'a Proposal,
}

impl<'a> ProposedSheet<'a> {
    /// Returns the names in the formula of a name; none for data or an absent name.
    pub(crate) fn references_of(&self, name: Name) -> &'a [Name]
        ensures { result.now ≡ referred_by (proposed_names (outline_of self.now)) name }
    {
        if name == self.name {
            return self.proposal.references();
        }
        match self.entries.get(&name) {
            Some(entry) => entry.references(),
            None => &[],
        }
    }

    /// Returns the formula of a name with the name's index in the sheet. Tries the index `hint` first, then looks up the name. For the rebound name
    /// the index is the one that a new name gets.
    #[inline(always)]
    pub(crate) fn placed_formula(&self, name: &Name, hint: usize) -> Option<(&'a Formula, usize)>
        ensures { MatchOption result ((f : FormulaValue) → entry_of (outline_of self.now) name.now ≡ Some (FormulaEntry f) → ⊥) (λ p. entry_of (outline_of self.now) name.now ≡ Some (FormulaEntry p.0.now)) }
    {
        if *name != self.name {
            if let Some((there, Entry::Formula(formula))) = self.entries.get_index(hint) {
                if *there == *name {
                    return Some((formula, hint));
                }
            }
            return match self.entries.get_full(name) {
                Some((place, _, Entry::Formula(formula))) => Some((formula, place)),
                _ => None,
            };
        }
        match self.proposal {
            Proposal::Formula(formula) => Some((formula, self.entries.len())),
            Proposal::Data(_) | Proposal::Removed => None,
        }
    }

    /// Returns the formula of a name.
    #[inline(always)]
    pub(crate) fn formula_of(&self, name: Name) -> Option<&'a Formula>
        ensures { MatchOption result ((f : FormulaValue) → entry_of (outline_of self.now) name ≡ Some (FormulaEntry f) → ⊥) (λ f. entry_of (outline_of self.now) name ≡ Some (FormulaEntry f.now)) }
    {
        if name == self.name {
            return match self.proposal {
                Proposal::Formula(formula) => Some(formula),
                Proposal::Data(_) | Proposal::Removed => None,
            };
        }
        match self.entries.get(&name) {
            Some(Entry::Formula(formula)) => Some(formula),
            _ => None,
        }
    }
}
