//! The results of names.

ghost use Rattle.std.specs.Prelude.{◌≡◌};
ghost use Rattle.formula_core.specs.Outcomes.{read};
ghost use Rattle.sheet_recalc.specs.Entries.{names_of};
ghost use Rattle.sheet_recalc.specs.Live.{IsCurrent};
ghost use Rattle.sheet_recalc.specs.Meaning.{val};

use crate::entry::Entry;
use arrays_core::Array;
use formula_core::{Input, LentFault};
use indexmap::IndexMap;
use names::Name;
use smallvec::SmallVec;

/// The inputs of a formula: up to four are stored inline.
pub(crate) type Inputs<'a> = SmallVec<Input<'a>, 4>;

/// Returns the result of a name, with its error borrowed; VALUE ERROR if the name is absent.
#[inline(always)]
pub(crate) fn lent<'a>(
    entries: &'a IndexMap<Name, Entry>,
    name: &'a Name,
) -> Result<&'a Array, LentFault<'a>>
    requires { IsCurrent entries.now.entries }
    ensures { read result ≡ val (names_of entries.now.entries) name.now }
{
    match entries.get(name) {
        Some(entry) => entry.lent(name),
        None => Err(LentFault::unknown()),
    }
}
