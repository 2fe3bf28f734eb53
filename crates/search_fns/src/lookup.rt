//! Lookups of items in a list. For few sought items the list is read. Otherwise a table or a map keeps the first place of each item, so the time of
//! a lookup does not grow with the list.

ghost use Rattle.std.specs.Prelude.{◌≡◌, ◌≤◌, ◌<◌, ◌+◌, ◌*◌, ℕ, ℤ, pos, IfOk, IfSome, length, map, replicate, vec_len};
ghost use Rattle.std.specs.Ordering.{int_eq};
ghost use Rattle.std.specs.List.{list_any, position_from, position_or_len};
ghost use Rattle.std.specs.HashMap.{get};
ghost use Rattle.arrays_core.specs.Limits.{most_places};
ghost use Rattle.search_fns.specs.Lookup.{IsWithinSpan, HasFirsts, Finds};

use arrays_core::{repeated, room_of};
use std::alloc::{AllocError, Global};
use std::collections::HashMap;

/// The most sought items for which the list is read.
const FEW: usize = 4;

/// The number of items that are compared at once.
const BLOCK: usize = 256;

/// An item with a key. Items with equal keys are equal.
pub(crate) trait Key: Copy + Drop {
    ghost code: { Self → ℤ };

    /// Returns the key.
    fn key(self) -> i64
        ensures { result ≡ code self };
}

impl Key for i64 {
    ghost code = { λ z. z };

    fn key(self) -> i64 {
        self
    }
}

impl Key for char {
    ghost code = { λ c. pos c };

    fn key(self) -> i64 {
        i64::from(u32::from(self))
    }
}

/// The index of a list, made for its lookups.
#[derive(Drop)]
enum Lookup {
    /// No index: each lookup reads the list.
    Plain,
    /// For each key from the least, its first place, or the length of the list.
    Table(i64, Vec<u32>),
    /// The first place of each key.
    Map(HashMap<i64, usize>),
}

/// Returns true if two items are equal.
#[inline]
fn is_one<T: Key>(left: T, right: T) -> bool
    ensures { result ≡ int_eq (T.code left) (T.code right) }
{
    left.key() == right.key()
}

/// Returns true if the list has the item. The loop has no exit, so LLVM compares many items at once.
fn has_item<T: Key>(items: &[T], sought: T) -> bool
    ensures { result ≡ list_any (int_eq (T.code sought)) (map T.code items.now) }
{
    let mut is_found = false;
    for item in items {
        is_found |= is_one(sought, *item);
    }
    is_found
}

/// Returns the number of items before the first equal one, or of all.
fn before_item<T: Key>(items: &[T], sought: T) -> usize
    ensures { result ≡ position_or_len (int_eq (T.code sought)) (map T.code items.now) }
{
    for place in 0..items.len() {
        if is_one(sought, items[place]) {
            return place;
        }
    }
    items.len()
}

/// Does the same, a block at a time while the block does not have the item.
#[inline(never)]
fn before_by_blocks<T: Key>(items: &[T], sought: T) -> usize
    ensures { result ≡ position_or_len (int_eq (T.code sought)) (map T.code items.now) }
{
    let mut passed = 0;
    while BLOCK <= items.len() - passed && !has_item(&items[passed..passed + BLOCK], sought) {
        passed += BLOCK;
    }
    passed + before_item(&items[passed..], sought)
}

/// Returns the least key and the number of keys from it to the greatest, if these are few.
fn span_of<T: Key>(items: &[T]) -> Option<(i64, usize)>
    requires { length items.now ≤ most_places }
    ensures { IfSome result (λ r. IsWithinSpan r.0 r.1 (map T.code items.now)) }
{
    let (mut least, mut greatest) = (i64::MAX, i64::MIN);
    for item in items {
        least = least.min(item.key());
        greatest = greatest.max(item.key());
    }
    let span = greatest.abs_diff(least) as usize;
    if span < 4 * items.len() + 1_024 {
        return Some((least, span + 1));
    }
    None
}

/// Returns for each key of a span its first place, or the length of the list.
fn first_place_table<T: Key>(
    alloc: Global,
    items: &[T],
    least: i64,
    span: usize,
) -> Result<Vec<u32>, AllocError>
    requires few { length items.now ≤ most_places }
    requires within { IsWithinSpan least span (map T.code items.now) }
    ensures { IfOk result (λ v. (vec_len v ≡ span) × HasFirsts least v.items (map T.code items.now)) }
{
    let mut firsts = Vec::from_elem(alloc, items.len() as u32, span)?;
    for place in (0..items.len()).rev() {
        let offset = items[place].key().abs_diff(least) as usize;
        firsts[offset] = place as u32;
    }
    Ok(firsts)
}

/// Returns the number of items before the first equal one, or of all, by the table of a span.
#[inline]
fn before_in_table<T: Key>(items: &[T], least: i64, firsts: &[u32], sought: T) -> usize
    requires within { IsWithinSpan least (length firsts.now) (map T.code items.now) }
    requires firsts { HasFirsts least firsts.now (map T.code items.now) }
    ensures { result ≡ position_or_len (int_eq (T.code sought)) (map T.code items.now) }
{
    let offset = sought.key().abs_diff(least) as usize;
    if sought.key() < least || firsts.len() <= offset {
        return items.len();
    }
    firsts[offset] as usize
}

/// Returns the first place of each key, counted from 0.
fn first_place_map<T: Key>(alloc: Global, items: &[T]) -> Result<HashMap<i64, usize>, AllocError>
    ensures { IfOk result (λ m. (q : ℤ) → get int_eq m q ≡ position_from (int_eq q) 0 (map T.code items.now)) }
{
    let mut places = HashMap::with_capacity(alloc, items.len())?;
    for before in (0..items.len()).rev() {
        places.insert(items[before].key(), before)?;
    }
    Ok(places)
}

/// Returns the number of items before the first equal one, or of all, by the map. Not inlined, so the loop over a table stays small.
#[inline(never)]
fn before_in_map<T: Key>(items: &[T], places: &HashMap<i64, usize>, sought: T) -> usize
    requires { (q : ℤ) → get int_eq places.now q ≡ position_from (int_eq q) 0 (map T.code items.now) }
    ensures { result ≡ position_or_len (int_eq (T.code sought)) (map T.code items.now) }
{
    match places.get(&sought.key()) {
        Some(place) => *place,
        None => items.len(),
    }
}

impl Lookup {
    /// Makes the index of a list for a number of lookups.
    fn of<T: Key>(alloc: Global, items: &[T], lookups: usize) -> Result<Lookup, AllocError>
        requires { length items.now ≤ most_places }
        ensures { IfOk result (λ l. Finds (map T.code items.now) l) }
    {
        if lookups <= FEW {
            return Ok(Lookup::Plain);
        }
        if let Some((least, span)) = span_of(items) {
            return Ok(Lookup::Table(least, first_place_table(alloc, items, least, span)?));
        }
        Ok(Lookup::Map(first_place_map(alloc, items)?))
    }

    /// Returns the number of items before the first equal one, or of all.
    #[inline]
    fn before<T: Key>(&self, items: &[T], sought: T) -> usize
        requires { Finds (map T.code items.now) self.now }
        ensures is { result ≡ position_or_len (int_eq (T.code sought)) (map T.code items.now) }
        ensures within { result ≤ length items.now }
    {
        match self {
            Lookup::Plain => before_by_blocks(items, sought),
            Lookup::Table(least, firsts) => before_in_table(items, *least, firsts, sought),
            Lookup::Map(places) => before_in_map(items, places, sought),
        }
    }
}

/// A function of items that depends on the number of places before the first equal one.
pub(crate) trait Answer {
    ghost gives: { ℕ → ℕ → ℤ };

    /// Returns the answer, from the number of places before the item and of all places.
    fn answer(before: u32, places: u32) -> i64
        requires low { before ≤ places }
        requires few { places ≤ most_places }
        ensures { result ≡ gives before places };
}

/// Returns the answer for each sought item.
pub(crate) fn answers<A: Answer, T: Key>(
    alloc: Global,
    items: &[T],
    sought: &[T],
) -> Result<Vec<i64>, AllocError>
    requires { length items.now ≤ most_places }
    ensures { IfOk result (λ v. v.items ≡ map (λ x. A.gives (position_or_len (int_eq (T.code x)) (map T.code items.now)) (length items.now)) sought.now) }
{
    let lookup = Lookup::of(alloc, items, sought.len())?;
    let mut found = Vec::with_capacity(alloc, room_of(sought.len()))?;
    for item in sought {
        let before = lookup.before(items, *item) as u32;
        found.push(A::answer(before, items.len() as u32))?;
    }
    Ok(found)
}

/// Returns a list of one number, `count` times.
pub(crate) fn all_of(alloc: Global, number: i64, count: u32) -> Result<Vec<i64>, AllocError>
    ensures { IfOk result (λ v. v.items ≡ replicate count number) }
{
    repeated(alloc, number, count as usize)
}
