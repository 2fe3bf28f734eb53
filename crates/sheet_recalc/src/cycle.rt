//! The cycle that a refused definition would close.

ghost use Rattle.std.specs.Prelude.{◌≡◌, ◌<◌, IfOk};
ghost use Rattle.std.specs.Str.{bytes_eq};
ghost use Rattle.std.specs.List.{Contains, position_or_len};
ghost use Rattle.std.specs.Map.{keys_of};
ghost use Rattle.sheet_recalc.specs.Names.{Refers};
ghost use Rattle.sheet_recalc.specs.ProposedSheet.{outline_of, proposed_names, IsReaching};
ghost use Rattle.sheet_recalc.specs.Changes.{IsCycleFrom};

use crate::plans::Found;
use crate::proposed_sheet::ProposedSheet;
use dep_order::first_found;
use names::Name;
use std::alloc::{AllocError, Global};

/// Returns the cycle that the name would close by a reference to a name that reaches it. The name comes first, then the reference. Each next entry
/// is the first reference of its predecessor that reaches the name.
pub(crate) fn cycle_through(
    alloc: Global,
    proposed: &ProposedSheet<'_>,
    found: &Found,
    reference: Name,
) -> Result<Vec<Name>, AllocError>
    requires reaching { IsReaching (proposed_names (outline_of proposed.now)) proposed.now.name (keys_of found.now.entries) }
    requires refers { Refers (proposed_names (outline_of proposed.now)) proposed.now.name reference }
    requires hit { Contains (keys_of found.now.entries) reference }
    ensures { IfOk result (λ cycle. IsCycleFrom (Refers (proposed_names (outline_of proposed.now))) proposed.now.name cycle.items) }
{
    let mut cycle = Vec::new(alloc);
    cycle.push(proposed.name)?;
    let mut next = reference;
    while next != proposed.name {
        cycle.push(next)?;
        next = step_from(proposed, found, next);
    }
    Ok(cycle)
}

/// Returns the first reference of a name that reaches the rebound name.
fn step_from(proposed: &ProposedSheet<'_>, found: &Found, from: Name) -> Name
    requires reaching { IsReaching (proposed_names (outline_of proposed.now)) proposed.now.name (keys_of found.now.entries) }
    requires hit { Contains (keys_of found.now.entries) from }
    requires apart { from ≡ proposed.now.name → ⊥ }
    ensures refers { Refers (proposed_names (outline_of proposed.now)) from result }
    ensures hit { Contains (keys_of found.now.entries) result }
    ensures later { position_or_len (bytes_eq from) (keys_of found.now.entries) < position_or_len (bytes_eq result) (keys_of found.now.entries) }
{
    match first_found(found, proposed.references_of(from)) {
        Some(next) => next,
        None => unreachable!(),
    }
}
