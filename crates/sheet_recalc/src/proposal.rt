//! The next binding of a name.

ghost use Rattle.std.specs.Prelude.{◌≡◌};
ghost use Rattle.sheet_recalc.specs.ProposedSheet.{is_data, is_edit, proposed_references};

use formula_core::Formula;
use index_region::Delta;
use names::Name;

/// The next binding of a name.
#[derive(Drop)]
pub(crate) enum Proposal {
    /// A new formula.
    Formula(Formula),
    /// Data, as the change of the name's result: a new array, a patch or a tail.
    Data(Delta),
    /// The name is removed.
    Removed,
}

impl Proposal {
    /// Returns whether the name will be bound to data.
    pub(crate) fn is_data(&self) -> bool
        ensures { result ≡ is_data self.now }
    {
        matches!(self, Proposal::Data(_))
    }

    /// Returns whether data gets new items in place or one more row; then no references change.
    pub(crate) fn is_edit(&self) -> bool
        ensures { result ≡ is_edit self.now }
    {
        matches!(self, Proposal::Data(Delta::Patch(_) | Delta::Grown(_)))
    }

    /// Returns the names in the formula; none otherwise.
    pub(crate) fn references(&self) -> &[Name]
        ensures { result.now ≡ proposed_references self.now }
    {
        match self {
            Proposal::Formula(formula) => formula.references(),
            Proposal::Data(_) | Proposal::Removed => &[],
        }
    }
}
