//! Memory for a change of the tables. It is allocated ahead, so that the change itself allocates nothing.

ghost use Rattle.std.specs.Prelude.{◌≡◌, ◌+◌, ◌^◌, ◌≤◌, ◌<◌, ◌↔◌, ◌++◌, List, [], ◌∷◌, IsTrue, IfOk, OnOk, MatchOption, length};
ghost use Rattle.std.specs.List.{Contains};
ghost use Rattle.indexmap.specs.IndexMap.{spare};
ghost use Rattle.dep_order.specs.Users.{Uses, users_of, IsExact, HasRoomFor, HasNoEmptyBut, TakesOneMore};
ghost use Rattle.dep_order.specs.Room.{FindRoom, IsLarger, AreListsFor, HasRoomAt};

use crate::users::Users;
use indexmap::IndexMap;
use std::alloc::{AllocError, Global};
use std::hash::Hash;

// Returns twice the length, and at least the length plus `more`.
fn grown_to(len: usize, more: usize) -> usize
    requires { len + more < 2 ^ 64 }
    ensures { len + more ≤ result }
{
    len.saturating_add(len).max(len + more)
}

/// The least capacity of a map.
const FEWEST_ENTRIES: usize = 8;

/// Allocates a larger, empty map if this one lacks room for `more` further entries. A new map gets more capacity than asked for; the
/// surplus is given back.
pub fn larger_map<K: Eq + Hash, V>(
    alloc: Global,
    map: &IndexMap<K, V>,
    more: usize,
) -> Result<Option<IndexMap<K, V>>, AllocError>
    requires { more < 2 ^ 63 }
    ensures { IfOk result (FindRoom more (length map.now.entries) (spare map.now)) }
{
    let len = map.len();
    if more <= map.capacity() - len {
        return Ok(None);
    }
    let room = grown_to(len, more).max(FEWEST_ENTRIES);
    let mut larger = IndexMap::with_capacity(alloc, room)?;
    larger.shrink_to(room);
    Ok(Some(larger))
}

/// Moves the map into the larger one, if there is one. Allocates nothing.
pub fn take_larger<K: Eq + Hash + Drop, V: Drop>(
    map: &mut IndexMap<K, V>,
    larger: Option<IndexMap<K, V>>,
    more: usize,
)
    requires exact { IsExact K.eq }
    requires finds { FindRoom more (length map.old.entries) (spare map.old) larger }
    ensures entries { map.new.entries ≡ map.old.entries }
    ensures room { more ≤ spare map.new }
{
    if let Some(mut larger) = larger {
        // The contract of `len` states that no two keys are equal.
        let _unique = map.len();
        larger.append(map).unwrap();
        *map = larger;
    }
}

/// Allocates the lists that the table lacks for one more user of each of these nodes. Each is empty, with capacity for the users it will
/// hold.
pub fn lists_for<N: Eq + Hash + Copy>(
    alloc: Global,
    users: &Users<N>,
    references: &[N],
) -> Result<Users<N>, AllocError>
    requires exact { IsExact N.eq }
    ensures { IfOk result (λ lists. AreListsFor N.eq users.now.entries references.now lists.entries) }
{
    let mut lists = IndexMap::new(alloc);
    for reference in references {
        add_list(alloc, users, &mut lists, *reference)?;
    }
    Ok(lists)
}

// Adds a list for the node, unless the table has room there.
fn add_list<N: Eq + Hash + Copy>(
    alloc: Global,
    users: &Users<N>,
    lists: &mut Users<N>,
    reference: N,
) -> Result<(), AllocError>
    requires exact { IsExact N.eq }
    ensures { OnOk result ((references : List N) → AreListsFor N.eq users.now.entries references lists.old.entries → AreListsFor N.eq users.now.entries (references ++ reference ∷ []) lists.new.entries) }
{
    if lists.contains_key(&reference) {
        return Ok(());
    }
    let Some(count) = users_without_room(users, reference) else {
        return Ok(());
    };
    let list = Vec::with_capacity(alloc, grown_to(count, 1))?;
    lists.insert(reference, list)?;
    Ok(())
}

/// Tests whether each of these nodes has a list in the table with room for one more user. If so, the edit needs no new lists.
pub fn has_room_for<N: Eq + Hash + Copy>(users: &Users<N>, references: &[N]) -> bool
    ensures { IsTrue result → HasRoomFor N.eq users.now.entries references.now }
{
    for reference in references {
        if !has_room_at(users, *reference) {
            return false;
        }
    }
    true
}

// Tests whether the node has a list with room for one more user.
fn has_room_at<N: Eq + Hash + Copy>(users: &Users<N>, node: N) -> bool
    ensures { IsTrue result → (references : List N) → HasRoomFor N.eq users.now.entries references → HasRoomFor N.eq users.now.entries (references ++ node ∷ []) }
{
    match users_without_room(users, node) {
        Some(_) => false,
        None => true,
    }
}

// Returns the number of users of a node if there is no room for one more.
fn users_without_room<N: Eq + Hash + Copy>(users: &Users<N>, node: N) -> Option<usize>
    ensures { MatchOption result (HasRoomAt N.eq users.now.entries node) (λ count. (count ≡ length (users_of N.eq users.now.entries node)) × (count < 2 ^ 63)) }
{
    match users.get(&node) {
        Some(those) => {
            let count = those.len();
            if count < those.capacity() {
                return None;
            }
            Some(count)
        }
        None => Some(0),
    }
}

/// Replaces each list that is full by its larger one and moves its nodes there. Allocates nothing.
pub fn give_lists<N: Eq + Hash + Copy>(users: &mut Users<N>, mut lists: Users<N>)
    requires exact { IsExact N.eq }
    requires lists { (references : List N) × AreListsFor N.eq users.old.entries references lists.entries }
    requires room { length lists.entries ≤ spare users.old }
    ensures room { (references : List N) → AreListsFor N.eq users.old.entries references lists.entries → HasRoomFor N.eq users.new.entries references }
    ensures same { (a b : N) → Uses N.eq users.new.entries a b ↔ Uses N.eq users.old.entries a b }
    ensures used { (references : List N) → AreListsFor N.eq users.old.entries references lists.entries → HasNoEmptyBut N.eq users.old.entries references → HasNoEmptyBut N.eq users.new.entries references }
{
    while let Some(given) = lists.pop() {
        give_list(users, given.0, given.1);
    }
}

// Replaces the list of a node by a larger one and moves its nodes there.
fn give_list<N: Eq + Hash + Copy>(users: &mut Users<N>, node: N, list: Vec<N>)
    requires exact { IsExact N.eq }
    requires larger { IsLarger list (users_of N.eq users.old.entries node) }
    requires room { 0 < spare users.old }
    ensures own { HasRoomFor N.eq users.new.entries (node ∷ []) }
    ensures kept { (references : List N) → HasRoomFor N.eq users.old.entries references → HasRoomFor N.eq users.new.entries references }
    ensures stay { (b : N) → users_of N.eq users.new.entries b ≡ users_of N.eq users.old.entries b }
    ensures used { (references : List N) → Contains references node → HasNoEmptyBut N.eq users.old.entries references → HasNoEmptyBut N.eq users.new.entries references }
    ensures spare { spare users.old ≤ spare users.new + 1 }
{
    match users.get_mut(&node) {
        Some(those) => take_place(those, list),
        None => {
            let _none = users.insert(node, list).unwrap();
        }
    }
}

// Replaces a list by a larger, empty one and moves its nodes there.
fn take_place<N: Drop>(those: &mut Vec<N>, mut larger: Vec<N>)
    requires { IsLarger larger those.old.items }
    ensures nodes { those.new.items ≡ those.old.items }
    ensures room { TakesOneMore those.new }
{
    larger.append(those).unwrap();
    *those = larger;
}
