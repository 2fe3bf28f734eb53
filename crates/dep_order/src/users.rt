//! The table of users, updated on every edit. It finds the nodes that depend on a node without visiting any other node.
ghost use Rattle.std.specs.Prelude.{◌≡◌, ◌≤◌, ◌⊎◌, ◌↔◌, List, [], ◌∷◌, OnOk, MatchBool, MatchOption, filter, length, not, vec_capacity};
ghost use Rattle.std.specs.List.{Contains, IsDistinct};
ghost use Rattle.std.specs.Map.{keys_of};
ghost use Rattle.dep_order.specs.Reachability.{Reaches};
ghost use Rattle.dep_order.specs.Users.{Uses, users_of, IsExact, IsWithin, EachFollowsUsers, HasRoomFor, IsReadyFor, HasNoEmptyBut, HasNothing, EndsWith, IsReady};

use indexmap::IndexMap;
use std::alloc::AllocError;
use std::hash::Hash;

/// For each node that is referred to, the list of the nodes that refer to it. Most lists are short.
pub type Users<N> = IndexMap<N, Vec<N>>;

/// Fills `found` with a node and all nodes that reach it by chains of references. Each key occurs once, after all its users, with value
/// `None`. No chain of references to the node may have more than `height` references. Clears the map first and reuses its memory; allocates
/// only if that is too small.
pub fn affected<N: Eq + Hash + Copy, V: Drop>(
    users: &Users<N>,
    node: N,
    height: usize,
    found: &mut IndexMap<N, Option<V>>,
) -> Result<(), AllocError>
    requires exact { IsExact N.eq }
    requires within { IsWithin N.eq users.now.entries height node }
    ensures distinct { OnOk result (IsDistinct N.eq (keys_of found.new.entries)) }
    ensures closed { OnOk result (EachFollowsUsers N.eq users.now.entries (keys_of found.new.entries)) }
    ensures named { OnOk result (Contains (keys_of found.new.entries) node) }
    ensures sound { OnOk result ((a : N) → Contains (keys_of found.new.entries) a → (a ≡ node) ⊎ Reaches (Uses N.eq users.now.entries) a node) }
    ensures none { OnOk result (HasNothing N.eq found.new.entries) }
{
    found.truncate(0);
    climb(users, &node, height, found)?;
    // The contract of `len` states that no key occurs twice.
    let _distinct = found.len();
    Ok(())
}

// Adds a node after all nodes that reach it, except those already found.
fn climb<N: Eq + Hash + Copy, V: Drop>(
    users: &Users<N>,
    node: &N,
    height: usize,
    found: &mut IndexMap<N, Option<V>>,
) -> Result<(), AllocError>
    requires exact { IsExact N.eq }
    requires within { IsWithin N.eq users.now.entries height node.now }
    requires closed { EachFollowsUsers N.eq users.now.entries (keys_of found.old.entries) }
    ensures closed { OnOk result (EachFollowsUsers N.eq users.now.entries (keys_of found.new.entries)) }
    ensures named { OnOk result (Contains (keys_of found.new.entries) node.now) }
    ensures kept { OnOk result ((a : N) → Contains (keys_of found.old.entries) a → Contains (keys_of found.new.entries) a) }
    ensures sound { OnOk result ((a : N) → Contains (keys_of found.new.entries) a → Contains (keys_of found.old.entries) a ⊎ ((a ≡ node.now) ⊎ Reaches (Uses N.eq users.now.entries) a node.now)) }
    ensures none { OnOk result (HasNothing N.eq found.old.entries → HasNothing N.eq found.new.entries) }
{
    if is_found(found, node) {
        return Ok(());
    }
    for user in users_of(users, node) {
        climb(users, user, height - 1, found)?;
    }
    found.insert(*node, None)?;
    Ok(())
}

// Tests whether a node is among those found. With fewer than two keys it computes no hash.
fn is_found<N: Eq + Hash + Copy, V>(found: &IndexMap<N, V>, node: &N) -> bool
    requires { IsExact N.eq }
    ensures { MatchBool result (Contains (keys_of found.now.entries) node.now) (Contains (keys_of found.now.entries) node.now → ⊥) }
{
    match found.keys().as_slice() {
        [] => false,
        [only] => only == node,
        _ => found.contains_key(node),
    }
}

// Returns the nodes that refer to a node.
fn users_of<'a, N: Eq + Hash + Copy>(users: &'a Users<N>, node: &N) -> &'a [N]
    ensures { result.now ≡ users_of N.eq users.now.entries node.now }
{
    match users.get(node) {
        Some(those) => those.as_slice(),
        None => &[],
    }
}

/// Returns the first of these references that is among the found nodes.
pub fn first_found<N: Eq + Hash + Copy, V>(found: &IndexMap<N, V>, references: &[N]) -> Option<N>
    requires { IsExact N.eq }
    ensures { MatchOption result ((b : N) → Contains references.now b → Contains (keys_of found.now.entries) b → ⊥) (λ b. Contains references.now b × Contains (keys_of found.now.entries) b) }
{
    for reference in references {
        if is_found(found, reference) {
            return Some(*reference);
        }
    }
    None
}

/// Replaces the references of a node, `before`, by `references`. Removes the lists that become empty. Allocates nothing.
pub fn refer<N: Eq + Hash + Copy>(users: &mut Users<N>, node: N, before: &[N], references: &[N])
    requires exact { IsExact N.eq }
    requires room { HasRoomFor N.eq users.old.entries references.now }
    requires used { HasNoEmptyBut N.eq users.old.entries references.now }
    ensures used { HasNoEmptyBut N.eq users.new.entries [] }
    ensures uses { (a b : N) → Uses N.eq users.new.entries a b ↔ ((Uses N.eq users.old.entries a b × ((a ≡ node) → Contains before.now b → ⊥)) ⊎ ((a ≡ node) × Contains references.now b)) }
{
    for reference in before {
        forget(users, node, *reference);
    }
    for reference in references {
        note(users, node, *reference);
    }
    drop_unused(users, before);
}

// Removes the node from the users of one reference.
fn forget<N: Eq + Hash + Copy>(users: &mut Users<N>, node: N, reference: N)
    requires { IsExact N.eq }
    ensures uses { (a b : N) → Uses N.eq users.new.entries a b ↔ (Uses N.eq users.old.entries a b × ((a ≡ node) → (b ≡ reference) → ⊥)) }
    ensures room { (references : List N) → HasRoomFor N.eq users.old.entries references → HasRoomFor N.eq users.new.entries references }
    ensures used { (references : List N) → Contains references reference → HasNoEmptyBut N.eq users.old.entries references → HasNoEmptyBut N.eq users.new.entries references }
{
    if let Some(those) = users.get_mut(&reference) {
        take_out(those, node);
    }
}

// Removes a node from a list.
fn take_out<N: Eq + Hash + Copy>(those: &mut Vec<N>, node: N)
    ensures nodes { those.new.items ≡ filter (λ other. not (N.eq other node)) those.old.items }
    ensures room { vec_capacity those.new ≡ vec_capacity those.old }
    ensures fewer { length those.new.items ≤ length those.old.items }
{
    those.retain(|other| *other != node);
}

// Adds the node to the users of one reference, in reserved room. On a repeated reference the node is already last in the list.
fn note<N: Eq + Hash + Copy>(users: &mut Users<N>, node: N, reference: N)
    requires exact { IsExact N.eq }
    requires ready { IsReadyFor N.eq users.old.entries node (reference ∷ []) }
    ensures uses { (a b : N) → Uses N.eq users.new.entries a b ↔ (Uses N.eq users.old.entries a b ⊎ ((a ≡ node) × (b ≡ reference))) }
    ensures room { (references : List N) → IsReadyFor N.eq users.old.entries node references → IsReadyFor N.eq users.new.entries node references }
    ensures used { (references : List N) → HasNoEmptyBut N.eq users.old.entries references → HasNoEmptyBut N.eq users.new.entries references }
{
    if let Some(those) = users.get_mut(&reference) {
        put_last(those, node);
    }
}

// Appends a node to a list in reserved room, unless it is already last.
fn put_last<N: Eq + Hash + Copy>(those: &mut Vec<N>, node: N)
    requires exact { IsExact N.eq }
    requires ready { IsReady those.old node }
    ensures last { EndsWith those.new.items node }
    ensures nodes { (a : N) → Contains those.new.items a ↔ (Contains those.old.items a ⊎ (a ≡ node)) }
{
    if let Some(last) = those.last() {
        if *last == node {
            return;
        }
    }
    those.push_reserved(node);
}

// Removes the lists of these nodes from the table if they are empty.
fn drop_unused<N: Eq + Hash + Copy>(users: &mut Users<N>, references: &[N])
    requires { IsExact N.eq }
    ensures same { (a b : N) → Uses N.eq users.new.entries a b ↔ Uses N.eq users.old.entries a b }
    ensures used { HasNoEmptyBut N.eq users.old.entries references.now → HasNoEmptyBut N.eq users.new.entries [] }
{
    for reference in references {
        drop_if_unused(users, *reference);
    }
}

// Removes the list of a node from the table if it is empty.
fn drop_if_unused<N: Eq + Hash + Copy>(users: &mut Users<N>, reference: N)
    requires { IsExact N.eq }
    ensures same { (a b : N) → Uses N.eq users.new.entries a b ↔ Uses N.eq users.old.entries a b }
    ensures used { (rest : List N) → HasNoEmptyBut N.eq users.old.entries (reference ∷ rest) → HasNoEmptyBut N.eq users.new.entries rest }
{
    if !users_of(users, &reference).is_empty() {
        return;
    }
    let _empty = users.swap_remove(&reference);
}
