//! The entry of a name.

ghost use Rattle.std.specs.Prelude.{◌≡◌, Result, Err, IfOk, IfErr};
ghost use Rattle.arrays_core.specs.Arrays.{ArrayValue};
ghost use Rattle.formula_core.specs.Outcomes.{read};
ghost use Rattle.sheet_recalc.specs.Cells.{on_data, IsDataAnswer};
ghost use Rattle.sheet_recalc.specs.Entries.{binding_of, entry_outcome, adopting, patched_entry, grown_entry, names_of, HasData, FitsEntry, FitsBehind};
ghost use Rattle.sheet_recalc.specs.Names.{binding, referred};
ghost use Rattle.sheet_recalc.specs.Live.{CanAdopt};
ghost use Rattle.sheet_recalc.specs.declared.refusal.Refusal.{Refusal as AnyRefusal};

use crate::refusal::Refusal;
use arrays_core::{Array, Fault};
use formula_core::{Formula, LentFault, Plan};
use index_region::{Patch, Tail};
use indexmap::IndexMap;
use names::Name;

/// Data, or a formula with its results.
#[derive(Drop)]
pub enum Entry {
    /// The array of the name.
    Data(Array),
    /// The formula of the name.
    Formula(Formula),
}

impl Entry {
    /// Returns the names in the formula; none for data.
    pub(crate) fn references(&self) -> &[Name]
        ensures { result.now ≡ referred (binding_of self.now) }
    {
        match self {
            Entry::Data(_) => &[],
            Entry::Formula(formula) => formula.references(),
        }
    }

    /// Returns the data or the formula's result. An error that arose in the formula gets this name as its origin.
    pub(crate) fn result(&self, name: Name) -> Result<&Array, Fault>
        ensures { read result ≡ entry_outcome name self.now }
    {
        match self {
            Entry::Data(array) => Ok(array),
            Entry::Formula(formula) => match formula.lent() {
                Ok(array) => Ok(array),
                Err(fault) => Err(fault.arisen_in(&name).fault()),
            },
        }
    }

    /// Returns the data or the formula's result, as `result` does; its error is borrowed.
    pub(crate) fn lent<'a>(&'a self, name: &'a Name) -> Result<&'a Array, LentFault<'a>>
        ensures { read result ≡ entry_outcome name.now self.now }
    {
        match self {
            Entry::Data(array) => Ok(array),
            Entry::Formula(formula) => match formula.lent() {
                Ok(array) => Ok(array),
                Err(fault) => Err(fault.arisen_in(name)),
            },
        }
    }

    /// Applies a plan to a formula.
    pub(crate) fn adopt(&mut self, plan: Plan)
        requires { CanAdopt self.old plan }
        ensures { self.new ≡ adopting self.old plan }
    {
        match self {
            Entry::Data(_) => drop(plan),
            Entry::Formula(formula) => formula.adopt(plan),
        }
    }

    /// Writes a patch into data in place. A formula stays.
    pub(crate) fn write(&mut self, patch: &Patch)
        requires { FitsEntry self.old patch.now }
        ensures { self.new ≡ patched_entry self.old patch.now }
    {
        match self {
            Entry::Data(array) => patch.write_into(array),
            Entry::Formula(_) => {}
        }
    }

    /// Appends a tail to data in place. A formula stays.
    pub(crate) fn grow(&mut self, tail: Tail)
        requires { FitsBehind self.old tail }
        ensures { self.new ≡ grown_entry self.old tail }
    {
        match self {
            Entry::Data(array) => tail.write_behind(array),
            Entry::Formula(_) => drop(tail),
        }
    }
}

/// Returns the array of a name that is bound to data. Refuses an absent name, and one that is bound to a formula.
#[inline(always)]
pub(crate) fn data_of<'a>(
    entries: &'a IndexMap<Name, Entry>,
    name: &Name,
) -> Result<&'a Array, Refusal>
    ensures bound { IfOk result (λ array. HasData entries.now.entries name.now array.now) }
    ensures refused { IfErr result (λ cause. (edit : ArrayValue → Result ArrayValue AnyRefusal) → IsDataAnswer (on_data edit (binding (names_of entries.now.entries) name.now)) (Err cause)) }
{
    match entries.get(name) {
        None => Err(Refusal::NotFound),
        Some(Entry::Formula(_)) => Err(Refusal::NotData),
        Some(Entry::Data(array)) => Ok(array),
    }
}
