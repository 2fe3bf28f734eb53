//! The memory of the items of an array, and its capacity for more.

ghost use Rattle.std.specs.Prelude.{◌≡◌, ◌+◌, ◌≤◌, ◌<◌, ◌^◌, ◌++◌, ◌↔◌, [], IfOk, IsOk, IsTrue, length, replicate, vec_len, vec_capacity};
ghost use Rattle.std.specs.Int.{IsNextPowerOfTwo};
ghost use Rattle.arrays_core.specs.Growth.{IsRoomy, IsSameRoom, HasRoom};

use crate::item::ItemType;
use crate::item_list::ItemList;
use std::alloc::{AllocError, Global};
use std::marker::Model;
use std::mem;

/// The greatest power of two in a `usize`.
const GREATEST_POWER: usize = 1 << 63;

/// Returns the capacity for this number of items: the next power of two, so that most arrays grow in place; 0 for no items.
pub fn room_of(places: usize) -> usize
    ensures low { places ≤ result }
    ensures next { 0 < places → places ≤ 2 ^ 63 → IsNextPowerOfTwo places result }
    ensures roomy { places ≤ 2 ^ 63 → IsRoomy places result }
    ensures none { places ≡ 0 → result ≡ 0 }
{
    if places == 0 || places > GREATEST_POWER {
        return places;
    }
    places.next_power_of_two()
}

/// Returns the items with at least the capacity of `room_of`. Allocates only if they have less.
pub fn roomy<T: Drop>(items: Vec<T>) -> Result<Vec<T>, AllocError>
    ensures items { IfOk result (λ v. v.items ≡ items.items) }
    ensures roomy { IfOk result (λ v. IsRoomy (length v.items) (vec_capacity v)) }
{
    let mut items = items;
    let room = room_of(items.len());
    if items.capacity() < room {
        items.reserve_exact(room - items.len())?;
    }
    Ok(items)
}

/// Returns a copy of the items with the capacity of `room_of`.
pub fn copied<T: Copy + Drop>(alloc: Global, items: &[T]) -> Result<Vec<T>, AllocError>
    ensures { IfOk result (λ v. v.items ≡ items.now) }
{
    let mut copy = Vec::with_capacity(alloc, room_of(items.len()))?;
    copy.extend_from_slice(items)?;
    Ok(copy)
}

/// Returns `places` copies of an item with the capacity of `room_of`.
pub fn repeated<T: Copy + Drop>(alloc: Global, item: T, places: usize) -> Result<Vec<T>, AllocError>
    ensures { IfOk result (λ v. v.items ≡ replicate places item) }
{
    let mut items = Vec::with_capacity(alloc, room_of(places))?;
    items.resize(places, item)?;
    Ok(items)
}

/// Returns true if `places` items fit in the memory of `held` items: their next power of two is not greater.
pub fn is_same_room(held: usize, places: usize) -> bool
    requires { places ≤ 2 ^ 63 }
    ensures { IsTrue result ↔ IsSameRoom held places }
{
    room_of(places) / 2 < held
}

/// Allocates an empty list with room for `places` items, of which `held` are stored elsewhere. Allocates nothing if all fit in the memory of
/// those.
pub fn room_between<T: Drop>(
    alloc: Global,
    held: usize,
    places: usize,
) -> Result<Vec<T>, AllocError>
    requires { places ≤ 2 ^ 63 }
    ensures empty { IfOk result (λ v. v.items ≡ []) }
    ensures room { IfOk result (λ v. HasRoom held places (vec_capacity v)) }
    ensures taken { IsSameRoom held places → IsOk result }
    ensures same { IsSameRoom held places → IfOk result (λ v. vec_capacity v ≡ 0) }
{
    if is_same_room(held, places) {
        return Ok(Vec::new(alloc));
    }
    Vec::with_capacity(alloc, room_of(places))
}

/// Appends items within the capacity. Does not allocate.
fn move_behind<T: Drop>(items: &mut Vec<T>, mut more: Vec<T>)
    requires { vec_len items.old + vec_len more ≤ vec_capacity items.old }
    ensures items { items.new.items ≡ items.old.items ++ more.items }
    ensures room { vec_capacity items.old ≤ vec_capacity items.new }
{
    match items.append(&mut more) {
        Ok(()) => (),
        Err(_) => unreachable!(),
    }
}

/// Appends items: in place if the capacity is enough, or else into `room`, to which the others are moved. Does not allocate.
pub fn put_behind<T: Drop>(items: &mut Vec<T>, more: Vec<T>, room: Vec<T>)
    requires few { length items.old.items + length more.items ≤ 2 ^ 63 }
    requires held { IsRoomy (length items.old.items) (vec_capacity items.old) }
    requires empty { room.items ≡ [] }
    requires room { HasRoom (length items.old.items) (length items.old.items + length more.items) (vec_capacity room) }
    ensures items { items.new.items ≡ items.old.items ++ more.items }
    ensures room { IsRoomy (length items.new.items) (vec_capacity items.new) }
{
    let all = items.len() + more.len();
    if items.capacity() < room_of(all) {
        let held = mem::replace(items, room);
        move_behind(items, held);
    }
    move_behind(items, more);
}

/// Memory for the items of an array and more, which `Array::grow` uses; empty if the array has enough capacity. Contracts see the type and the
/// capacity.
#[derive(Drop)]
pub struct Room {
    pub(crate) list: ItemList,
}

impl Model for Room {
    ghost use Rattle.std.specs.Prelude.{◌≡◌, []};
    ghost use Rattle.arrays_core.specs.Growth.{RoomValue};
    ghost use Rattle.arrays_core.specs.Ravels.{list_items, list_type, list_capacity};

    ghost Value = { RoomValue };

    ghost view = { λ r. record { item_type = list_type r.list; places = list_capacity r.list } };

    ghost invariant = { λ r. list_items r.list ≡ [] };
}

impl Room {
    /// Returns no room. Does not allocate.
    pub fn none(alloc: Global, item_type: ItemType) -> Room
        ensures { result ≡ record { item_type = item_type; places = 0 } }
    {
        let list = match item_type {
            ItemType::Nums => ItemList::Nums(Vec::new(alloc)),
            ItemType::Chars => ItemList::Chars(Vec::new(alloc)),
        };
        Room { list }
    }

    /// Allocates room for `places` items of a type, of which an array holds `held`, or returns AllocError. Allocates nothing if all fit in the
    /// memory of the array.
    pub fn between(
        alloc: Global,
        item_type: ItemType,
        held: usize,
        places: usize,
    ) -> Result<Room, AllocError>
        requires { places ≤ 2 ^ 63 }
        ensures typed { IfOk result (λ r. r.item_type ≡ item_type) }
        ensures room { IfOk result (λ r. HasRoom held places r.places) }
        ensures taken { IsSameRoom held places → IsOk result }
        ensures same { IsSameRoom held places → IfOk result (λ r. r.places ≡ 0) }
    {
        let list = match item_type {
            ItemType::Nums => ItemList::Nums(room_between(alloc, held, places)?),
            ItemType::Chars => ItemList::Chars(room_between(alloc, held, places)?),
        };
        Ok(Room { list })
    }
}
