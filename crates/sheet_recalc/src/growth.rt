//! Memory for one more entry, which a change allocates in advance.

ghost use Rattle.std.specs.Prelude.{IfOk};
ghost use Rattle.sheet_recalc.specs.Pending.{IsBrought, HasPlace};

use crate::entry::Entry;
use crate::proposal::Proposal;
use dep_order::{Users, has_room_for, larger_map, lists_for};
use index_region::Delta;
use indexmap::IndexMap;
use names::Name;
use std::alloc::{AllocError, Global};

/// The missing memory for one more entry: larger tables if the sheet's are full, and lists of users.
#[derive(Drop)]
pub(crate) struct Growth {
    pub(crate) entries: Option<IndexMap<Name, Entry>>,
    pub(crate) users: Option<Users<Name>>,
    pub(crate) lists: Users<Name>,
}

/// Allocates the memory that the sheet lacks for a proposal; `None` if it lacks none. Copies no entries. The result is boxed, so that a change is
/// small.
pub(crate) fn growth_for(
    alloc: Global,
    entries: &IndexMap<Name, Entry>,
    users: &Users<Name>,
    proposal: &Proposal,
) -> Result<Option<Box<Growth>>, AllocError>
    ensures { IfOk result (λ growth. HasPlace (record { entries = entries.now; users = users.now }) growth proposal.now) }
{
    match proposal {
        Proposal::Formula(formula) => growth_with(alloc, entries, users, formula.references()),
        Proposal::Data(Delta::Whole(_)) => growth_with(alloc, entries, users, &[]),
        Proposal::Data(Delta::Same | Delta::Patch(_) | Delta::Grown(_)) | Proposal::Removed => {
            Ok(None)
        }
    }
}

/// Allocates the missing memory for one more entry with these references. Usually none is missing, and nothing is allocated.
fn growth_with(
    alloc: Global,
    entries: &IndexMap<Name, Entry>,
    users: &Users<Name>,
    references: &[Name],
) -> Result<Option<Box<Growth>>, AllocError>
    ensures { IfOk result (IsBrought (record { entries = entries.now; users = users.now }) references.now) }
{
    if entries.len() < entries.capacity() && has_room_for(users, references) {
        return Ok(None);
    }
    let lists = lists_for(alloc, users, references)?;
    let growth = Growth {
        entries: larger_map(alloc, entries, 1)?,
        users: larger_map(alloc, users, lists.len())?,
        lists,
    };
    Ok(Some(Box::new(alloc, growth)?))
}
