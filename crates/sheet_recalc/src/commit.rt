//! The part of a change that takes no memory.

ghost use Rattle.std.specs.Prelude.{◌≡◌, ◌<◌, ℕ, List, [], Some, None, length, get_or, slice_get, true, IsTrue, if◌then◌else◌};
ghost use Rattle.std.specs.Str.{bytes_eq};
ghost use Rattle.std.specs.Map.{lookup, keys_of, set_value};
ghost use Rattle.indexmap.specs.IndexMap.{spare};
ghost use Rattle.arrays_core.specs.Arrays.{ArrayValue};
ghost use Rattle.arrays_core.specs.Growth.{grown_by};
ghost use Rattle.index_region.specs.Patches.{patched, FitsPatch};
ghost use Rattle.index_region.specs.Tails.{FitsTail};
ghost use Rattle.sheet_recalc.specs.Names.{Names, Data, put, without, referred, referred_by};
ghost use Rattle.sheet_recalc.specs.Entries.{names_of, binding_of, adopting, HasData};
ghost use Rattle.sheet_recalc.specs.declared.entry.Entry.{Entry as EntryValue};
ghost use Rattle.sheet_recalc.specs.declared.entry.Entry.TheVariants.{Data as DataEntry};
ghost use Rattle.dep_order.specs.Users.{HasRoomFor, HasNoEmptyBut};
ghost use Rattle.sheet_recalc.specs.Live.{TellsUsers, IsCurrent, AreRightOnceTaken, AreEmptied, IsAdopting, CanAdopt, plan_in};
ghost use Rattle.sheet_recalc.specs.Pending.{outline_at, Brings, IsBrought, IsReadyToMake};
ghost use Rattle.sheet_recalc.specs.ProposedSheet.{is_edit, proposed_names};

use crate::entry::Entry;
use crate::growth::Growth;
use crate::plans::Found;
use crate::proposal::Proposal;
use dep_order::{Users, give_lists, refer, take_larger};
use formula_core::Plan;
use index_region::{Delta, Patch, Tail};
use indexmap::IndexMap;
use names::Name;

/// Makes a planned change: binds the name to its proposal and gives each formula its new results. It takes no memory, and empties the map `found`
/// but keeps its memory.
#[inline(always)]
pub(crate) fn make(
    entries: &mut IndexMap<Name, Entry>,
    users: &mut Users<Name>,
    name: Name,
    proposal: Proposal,
    found: &mut Found,
    places: &[usize],
    growth: Option<Box<Growth>>,
)
    requires ready { IsReadyToMake (record { entries = entries.old; users = users.old }) name proposal found.old.entries growth }
    requires tells { TellsUsers (names_of entries.old.entries) users.old.entries }
    requires used { HasNoEmptyBut bytes_eq users.old.entries [] }
    ensures names { names_of entries.new.entries ≡ proposed_names (outline_at (record { entries = entries.old; users = users.old }) name proposal) }
    ensures current { IsCurrent entries.new.entries }
    ensures tells { TellsUsers (proposed_names (outline_at (record { entries = entries.old; users = users.old }) name proposal)) users.new.entries }
    ensures used { HasNoEmptyBut bytes_eq users.new.entries [] }
    ensures edit { is_edit proposal ≡ true → (users.new.entries ≡ users.old.entries) × AreEmptied found.old.entries found.new.entries }
{
    match proposal {
        Proposal::Formula(formula) => {
            let entry = Entry::Formula(formula);
            commit_with(entries, users, name, entry, found, places, growth);
        }
        Proposal::Data(Delta::Whole(Ok(array))) => {
            let entry = Entry::Data(array);
            commit_with(entries, users, name, entry, found, places, growth);
        }
        Proposal::Data(Delta::Patch(patch)) => commit_patch(entries, name, &patch, found, places),
        Proposal::Data(Delta::Grown(tail)) => commit_row(entries, name, tail, found, places),
        Proposal::Data(Delta::Same) => {}
        Proposal::Data(Delta::Whole(Err(_))) => {}
        Proposal::Removed => commit_removal(entries, users, name, found, places),
    }
}

/// Binds a name to an entry, in the memory that the sheet has or that `growth` brings.
fn commit_with(
    entries: &mut IndexMap<Name, Entry>,
    users: &mut Users<Name>,
    name: Name,
    entry: Entry,
    found: &mut Found,
    places: &[usize],
    growth: Option<Box<Growth>>,
)
    requires planned { AreRightOnceTaken entries.old.entries name (Some entry) (put (names_of entries.old.entries) name (binding_of entry)) (plan_in found.old.entries) }
    requires brings { IsBrought (record { entries = entries.old; users = users.old }) (referred (binding_of entry)) growth }
    requires tells { TellsUsers (names_of entries.old.entries) users.old.entries }
    requires used { HasNoEmptyBut bytes_eq users.old.entries [] }
    ensures names { names_of entries.new.entries ≡ put (names_of entries.old.entries) name (binding_of entry) }
    ensures current { IsCurrent entries.new.entries }
    ensures tells { TellsUsers (put (names_of entries.old.entries) name (binding_of entry)) users.new.entries }
    ensures used { HasNoEmptyBut bytes_eq users.new.entries [] }
{
    match growth {
        Some(growth) => commit_brought(
            entries,
            users,
            name,
            entry,
            found,
            places,
            Box::into_inner(growth),
        ),
        None => commit(entries, users, name, entry, found, places),
    }
}

/// Binds a name to an entry, in the memory that `growth` brings.
fn commit_brought(
    entries: &mut IndexMap<Name, Entry>,
    users: &mut Users<Name>,
    name: Name,
    entry: Entry,
    found: &mut Found,
    places: &[usize],
    growth: Growth,
)
    requires planned { AreRightOnceTaken entries.old.entries name (Some entry) (put (names_of entries.old.entries) name (binding_of entry)) (plan_in found.old.entries) }
    requires brings { Brings (record { entries = entries.old; users = users.old }) (referred (binding_of entry)) growth }
    requires tells { TellsUsers (names_of entries.old.entries) users.old.entries }
    requires used { HasNoEmptyBut bytes_eq users.old.entries [] }
    ensures names { names_of entries.new.entries ≡ put (names_of entries.old.entries) name (binding_of entry) }
    ensures current { IsCurrent entries.new.entries }
    ensures tells { TellsUsers (put (names_of entries.old.entries) name (binding_of entry)) users.new.entries }
    ensures used { HasNoEmptyBut bytes_eq users.new.entries [] }
{
    take_larger(entries, growth.entries, 1);
    take_larger(users, growth.users, growth.lists.len());
    give_lists(users, growth.lists);
    commit(entries, users, name, entry, found, places);
}

/// Binds a name to an entry, in memory that is there, and gives each formula its new results.
fn commit(
    entries: &mut IndexMap<Name, Entry>,
    users: &mut Users<Name>,
    name: Name,
    entry: Entry,
    found: &mut Found,
    places: &[usize],
)
    requires room { 0 < spare entries.old }
    requires planned { AreRightOnceTaken entries.old.entries name (Some entry) (put (names_of entries.old.entries) name (binding_of entry)) (plan_in found.old.entries) }
    requires tells { TellsUsers (names_of entries.old.entries) users.old.entries }
    requires lists { HasRoomFor bytes_eq users.old.entries (referred (binding_of entry)) }
    requires used { HasNoEmptyBut bytes_eq users.old.entries (referred (binding_of entry)) }
    ensures names { names_of entries.new.entries ≡ put (names_of entries.old.entries) name (binding_of entry) }
    ensures current { IsCurrent entries.new.entries }
    ensures tells { TellsUsers (put (names_of entries.old.entries) name (binding_of entry)) users.new.entries }
    ensures used { HasNoEmptyBut bytes_eq users.new.entries [] }
{
    refer_anew(entries, users, name, &entry);
    let _before = entries.insert(name, entry).unwrap();
    adopt_all(entries, found, places);
}

/// Updates the table of users for a name with a new entry. The table stays the same where the references do.
fn refer_anew(entries: &IndexMap<Name, Entry>, users: &mut Users<Name>, name: Name, entry: &Entry)
    requires tells { TellsUsers (names_of entries.now.entries) users.old.entries }
    requires lists { HasRoomFor bytes_eq users.old.entries (referred (binding_of entry.now)) }
    requires used { HasNoEmptyBut bytes_eq users.old.entries (referred (binding_of entry.now)) }
    ensures tells { TellsUsers (put (names_of entries.now.entries) name (binding_of entry.now)) users.new.entries }
    ensures used { HasNoEmptyBut bytes_eq users.new.entries [] }
{
    let before = references_of(entries, name);
    let references = entry.references();
    if before == references {
        return;
    }
    refer(users, name, before, references);
}

/// Removes a name, and gives each formula its new results.
fn commit_removal(
    entries: &mut IndexMap<Name, Entry>,
    users: &mut Users<Name>,
    name: Name,
    found: &mut Found,
    places: &[usize],
)
    requires planned { AreRightOnceTaken entries.old.entries name None (without (names_of entries.old.entries) name) (plan_in found.old.entries) }
    requires tells { TellsUsers (names_of entries.old.entries) users.old.entries }
    requires used { HasNoEmptyBut bytes_eq users.old.entries [] }
    ensures names { names_of entries.new.entries ≡ without (names_of entries.old.entries) name }
    ensures current { IsCurrent entries.new.entries }
    ensures tells { TellsUsers (without (names_of entries.old.entries) name) users.new.entries }
    ensures used { HasNoEmptyBut bytes_eq users.new.entries [] }
{
    refer(users, name, references_of(entries, name), &[]);
    // The length brings the fact that no two names are equal, so one entry goes.
    let _unique = entries.len();
    let _removed = entries.shift_remove(&name);
    adopt_all(entries, found, places);
}

/// Writes new items into the data of a name in place, and gives each formula its new results.
fn commit_patch(
    entries: &mut IndexMap<Name, Entry>,
    name: Name,
    patch: &Patch,
    found: &mut Found,
    places: &[usize],
)
    requires data { (a : ArrayValue) × HasData entries.old.entries name a × FitsPatch a patch.now }
    requires planned { (a : ArrayValue) → HasData entries.old.entries name a
        → AreRightOnceTaken entries.old.entries name (Some (DataEntry (patched a patch.now))) (put (names_of entries.old.entries) name (Data (patched a patch.now))) (plan_in found.old.entries) }
    ensures names { (a : ArrayValue) → HasData entries.old.entries name a → names_of entries.new.entries ≡ put (names_of entries.old.entries) name (Data (patched a patch.now)) }
    ensures current { IsCurrent entries.new.entries }
    ensures found { AreEmptied found.old.entries found.new.entries }
{
    if let Some(entry) = entries.get_mut(&name) {
        entry.write(patch);
        return adopt_all(entries, found, places);
    }
    unreachable!()
}

/// Appends a row to the data of a name in place, and gives each formula its new results.
fn commit_row(
    entries: &mut IndexMap<Name, Entry>,
    name: Name,
    tail: Tail,
    found: &mut Found,
    places: &[usize],
)
    requires data { (a : ArrayValue) × HasData entries.old.entries name a × FitsTail a tail }
    requires planned { (a : ArrayValue) → HasData entries.old.entries name a
        → AreRightOnceTaken entries.old.entries name (Some (DataEntry (grown_by a tail.items))) (put (names_of entries.old.entries) name (Data (grown_by a tail.items))) (plan_in found.old.entries) }
    ensures names { (a : ArrayValue) → HasData entries.old.entries name a → names_of entries.new.entries ≡ put (names_of entries.old.entries) name (Data (grown_by a tail.items)) }
    ensures current { IsCurrent entries.new.entries }
    ensures found { AreEmptied found.old.entries found.new.entries }
{
    if let Some(entry) = entries.get_mut(&name) {
        entry.grow(tail);
        return adopt_all(entries, found, places);
    }
    unreachable!()
}

/// Returns the references of the entry of a name.
fn references_of(entries: &IndexMap<Name, Entry>, name: Name) -> &[Name]
    ensures { result.now ≡ referred_by (names_of entries.now.entries) name }
{
    match entries.get(&name) {
        Some(entry) => entry.references(),
        None => &[],
    }
}

/// Gives each formula its new results, and takes the plans out of the map, which keeps its names.
fn adopt_all(entries: &mut IndexMap<Name, Entry>, found: &mut Found, places: &[usize])
    requires { IsAdopting (names_of entries.old.entries) entries.old.entries (plan_in found.old.entries) }
    ensures names { names_of entries.new.entries ≡ names_of entries.old.entries }
    ensures current { IsCurrent entries.new.entries }
    ensures found { AreEmptied found.old.entries found.new.entries }
{
    let mut place = found.len();
    while place > 0 {
        place -= 1;
        adopt_at(entries, found, place, places);
    }
}

/// Takes the plan at a place out of the map, and gives its formula the new results.
#[inline(always)]
fn adopt_at(entries: &mut IndexMap<Name, Entry>, found: &mut Found, place: usize, places: &[usize])
    requires place { place < length found.old.entries }
    requires adopting { (names : Names) × IsAdopting names entries.old.entries (plan_in found.old.entries) }
    ensures keys { keys_of found.new.entries ≡ keys_of found.old.entries }
    ensures taken { (q : List ℕ) → plan_in found.new.entries q ≡ (if bytes_eq (get_or (keys_of found.old.entries) place []) q then None else plan_in found.old.entries q) }
    ensures adopting { (names : Names) → IsAdopting names entries.old.entries (plan_in found.old.entries) → IsAdopting names entries.new.entries (plan_in found.new.entries) }
{
    let Some((name, _)) = found.get_index(place) else {
        return;
    };
    let name = *name;
    let Some(lies) = found.get_index_mut(place) else {
        return;
    };
    if let Some(plan) = lies.take() {
        let hint = places.get(place).copied().unwrap_or(0);
        adopt_one(entries, &name, hint, plan);
    }
}

/// Gives the formula of a name its new results. Tries the place `hint` before a lookup.
#[inline(always)]
fn adopt_one(entries: &mut IndexMap<Name, Entry>, name: &Name, hint: usize, plan: Plan)
    requires { (e : EntryValue) → lookup (bytes_eq name.now) entries.old.entries ≡ Some e → CanAdopt e plan }
    ensures present { (e : EntryValue) → lookup (bytes_eq name.now) entries.old.entries ≡ Some e → (names_of entries.new.entries ≡ names_of entries.old.entries)
        × ((q : List ℕ) → lookup (bytes_eq q) entries.new.entries ≡ (if bytes_eq name.now q then Some (adopting e plan) else lookup (bytes_eq q) entries.old.entries)) }
    ensures absent { lookup (bytes_eq name.now) entries.old.entries ≡ None → entries.new.entries ≡ entries.old.entries }
{
    if let Some((there, _)) = entries.get_index(hint) {
        if *there == *name {
            return match entries.get_index_mut(hint) {
                Some(entry) => entry.adopt(plan),
                None => drop(plan),
            };
        }
    }
    match entries.get_mut(name) {
        Some(entry) => entry.adopt(plan),
        None => drop(plan),
    }
}
