//! The items of an array in memory.

ghost use Rattle.std.specs.Prelude.{◌≡◌, ◌≤◌, ◌<◌, ◌+◌, ◌^◌, ◌∷◌, ◌++◌, [], All, IfOk, map, vec_len, vec_capacity, length, take, drop, set, get_or};
ghost use Rattle.arrays_core.specs.Limits.{most_places};
ghost use Rattle.arrays_core.specs.Items.{fill, type_of};
ghost use Rattle.arrays_core.specs.declared.item.Item.TheVariants.{Num};
ghost use Rattle.arrays_core.specs.declared.item.ItemType.TheVariants.{Nums};
ghost use Rattle.arrays_core.specs.Ravels.{list_items, list_type, list_capacity, lent_items, lent_type, ravel_items, ravel_type, ravel_capacity};
ghost use Rattle.arrays_core.specs.Growth.{IsRoomy, HasRoom};

use crate::item::{Item, ItemType};
use crate::item_list::ItemList;
use crate::room::{Room, copied, room_of, roomy};
use std::alloc::{AllocError, Global};
use std::slice;

/// The items in row-major order: one number inline, several numbers of eight bytes each, or characters of four.
#[derive(Drop)]
pub(crate) enum Ravel {
    One(i64),
    Nums(Vec<i64>),
    Chars(Vec<char>),
}

/// The items, borrowed.
#[derive(Clone, Copy)]
pub(crate) enum Lent<'a> {
    Nums(&'a [i64]),
    Chars(&'a [char]),
}

/// Returns the items at these places, counted from 0, or fill for a place that does not exist.
fn picked<T: Copy + Drop>(
    alloc: Global,
    items: &[T],
    before: &[u32],
    fill: T,
) -> Result<Vec<T>, AllocError>
    ensures { IfOk result (λ v. v.items ≡ map (λ k. get_or items.now k fill) before.now) }
{
    let mut picked = Vec::with_capacity(alloc, room_of(before.len()))?;
    for k in before {
        let place = *k as usize;
        picked.push(if place < items.len() {
            items[place]
        } else {
            fill
        })?;
    }
    Ok(picked)
}

/// Appends items within the capacity. Does not allocate.
fn append<T: Copy>(items: &mut Vec<T>, more: &[T])
    requires { vec_len items.old + length more.now ≤ vec_capacity items.old }
    ensures items { items.new.items ≡ items.old.items ++ more.now }
    ensures room { vec_capacity items.old ≤ vec_capacity items.new }
{
    match items.extend_from_slice(more) {
        Ok(()) => (),
        Err(_) => unreachable!(),
    }
}

impl Ravel {
    /// Returns a ravel of one item. Does not allocate for a number.
    pub(crate) fn one(alloc: Global, item: Item) -> Result<Ravel, AllocError>
        ensures items { IfOk result (λ r. ravel_items r ≡ item ∷ []) }
        ensures typed { IfOk result (λ r. ravel_type r ≡ type_of item) }
    {
        match item {
            Item::Num(number) => Ok(Ravel::One(number)),
            Item::Char(character) => Ok(Ravel::Chars(vec![in alloc; character]?)),
        }
    }

    /// Returns the items of a list, and keeps their memory.
    pub(crate) fn of_list(list: ItemList) -> Ravel
        ensures items { ravel_items result ≡ list_items list }
        ensures typed { ravel_type result ≡ list_type list }
        ensures room { ravel_capacity result ≡ list_capacity list }
    {
        match list {
            ItemList::Nums(numbers) => Ravel::Nums(numbers),
            ItemList::Chars(characters) => Ravel::Chars(characters),
        }
    }

    /// Returns a copy of numbers.
    fn of_numbers(alloc: Global, numbers: &[i64]) -> Result<Ravel, AllocError>
        ensures items { IfOk result (λ r. ravel_items r ≡ map (λ z. Num z) numbers.now) }
        ensures typed { IfOk result (λ r. ravel_type r ≡ Nums) }
    {
        match numbers {
            [number] => Ok(Ravel::One(*number)),
            _ => Ok(Ravel::Nums(copied(alloc, numbers)?)),
        }
    }

    /// Returns the items with at least the capacity of `room_of`, or a single number inline.
    pub(crate) fn roomy(self) -> Result<Ravel, AllocError>
        ensures items { IfOk result (λ r. ravel_items r ≡ ravel_items self) }
        ensures typed { IfOk result (λ r. ravel_type r ≡ ravel_type self) }
        ensures roomy { IfOk result (λ r. IsRoomy (length (ravel_items r)) (ravel_capacity r)) }
    {
        match self {
            Ravel::One(number) => Ok(Ravel::One(number)),
            Ravel::Nums(numbers) => {
                if let [number] = numbers.as_slice() {
                    return Ok(Ravel::One(*number));
                }
                Ok(Ravel::Nums(roomy(numbers)?))
            }
            Ravel::Chars(characters) => Ok(Ravel::Chars(roomy(characters)?)),
        }
    }

    /// Borrows the items.
    pub(crate) fn lent(&self) -> Lent<'_>
        ensures items { lent_items result ≡ ravel_items self.now }
        ensures typed { lent_type result ≡ ravel_type self.now }
    {
        match self {
            Ravel::One(number) => Lent::Nums(slice::from_ref(number)),
            Ravel::Nums(numbers) => Lent::Nums(numbers.as_slice()),
            Ravel::Chars(characters) => Lent::Chars(characters.as_slice()),
        }
    }

    /// Returns the type of the items.
    pub(crate) fn item_type(&self) -> ItemType
        ensures { result ≡ ravel_type self.now }
    {
        match self {
            Ravel::One(_) | Ravel::Nums(_) => ItemType::Nums,
            Ravel::Chars(_) => ItemType::Chars,
        }
    }

    /// Returns the item at a place, counted from 0.
    pub(crate) fn item(&self, place: usize) -> Item
        requires { place < length (ravel_items self.now) }
        ensures is { result ≡ get_or (ravel_items self.now) place (fill (ravel_type self.now)) }
        ensures typed { type_of result ≡ ravel_type self.now }
    {
        match self {
            Ravel::One(number) => Item::Num(*number),
            Ravel::Nums(numbers) => Item::Num(numbers[place]),
            Ravel::Chars(characters) => Item::Char(characters[place]),
        }
    }

    /// Returns a copy of `places` items, after the first `skipped`.
    pub(crate) fn part(
        &self,
        alloc: Global,
        skipped: usize,
        places: usize,
    ) -> Result<Ravel, AllocError>
        requires { skipped + places ≤ length (ravel_items self.now) }
        ensures items { IfOk result (λ r. ravel_items r ≡ take places (drop skipped (ravel_items self.now))) }
        ensures typed { IfOk result (λ r. ravel_type r ≡ ravel_type self.now) }
    {
        let end = skipped + places;
        match self.lent() {
            Lent::Nums(numbers) => Ravel::of_numbers(alloc, &numbers[skipped..end]),
            Lent::Chars(characters) => Ok(Ravel::Chars(copied(alloc, &characters[skipped..end])?)),
        }
    }

    /// Returns the items at these places, counted from 0, or fill for a place that does not exist.
    pub(crate) fn picked(&self, alloc: Global, before: &[u32]) -> Result<Ravel, AllocError>
        ensures items { IfOk result (λ r. ravel_items r ≡ map (λ k. get_or (ravel_items self.now) k (fill (ravel_type self.now))) before.now) }
        ensures typed { IfOk result (λ r. ravel_type r ≡ ravel_type self.now) }
    {
        match self.lent() {
            Lent::Nums(numbers) => Ok(Ravel::Nums(picked(alloc, numbers, before, 0)?)),
            Lent::Chars(characters) => Ok(Ravel::Chars(picked(alloc, characters, before, ' ')?)),
        }
    }

    /// Returns the items followed by the items of another ravel of the same type.
    pub(crate) fn joined(&self, alloc: Global, other: &Ravel) -> Result<Ravel, AllocError>
        requires room { length (ravel_items self.now) + length (ravel_items other.now) ≤ most_places }
        requires typed { ravel_type self.now ≡ ravel_type other.now }
        ensures items { IfOk result (λ r. ravel_items r ≡ ravel_items self.now ++ ravel_items other.now) }
        ensures typed { IfOk result (λ r. ravel_type r ≡ ravel_type self.now) }
    {
        match (self.lent(), other.lent()) {
            (Lent::Nums(first), Lent::Nums(more)) => {
                let mut numbers = Vec::with_capacity(alloc, room_of(first.len() + more.len()))?;
                numbers.extend_from_slice(first)?;
                numbers.extend_from_slice(more)?;
                Ok(Ravel::Nums(numbers))
            }
            (Lent::Chars(first), Lent::Chars(more)) => {
                let mut characters = Vec::with_capacity(alloc, room_of(first.len() + more.len()))?;
                characters.extend_from_slice(first)?;
                characters.extend_from_slice(more)?;
                Ok(Ravel::Chars(characters))
            }
            _ => unreachable!(),
        }
    }

    /// Returns the capacity.
    pub(crate) fn capacity(&self) -> usize
        ensures { result ≡ ravel_capacity self.now }
    {
        match self {
            Ravel::One(_) => 1,
            Ravel::Nums(numbers) => numbers.capacity(),
            Ravel::Chars(characters) => characters.capacity(),
        }
    }

    /// Appends items of the same type within the capacity. Does not allocate.
    pub(crate) fn append(&mut self, more: &Ravel)
        requires room { length (ravel_items self.old) + length (ravel_items more.now) ≤ ravel_capacity self.old }
        requires typed { All (λ x. type_of x ≡ ravel_type self.old) (ravel_items more.now) }
        ensures items { ravel_items self.new ≡ ravel_items self.old ++ ravel_items more.now }
        ensures typed { ravel_type self.new ≡ ravel_type self.old }
        ensures room { ravel_capacity self.old ≤ ravel_capacity self.new }
    {
        match self {
            Ravel::One(_) => {}
            Ravel::Nums(numbers) => {
                if let Lent::Nums(more) = more.lent() {
                    append(numbers, more);
                }
            }
            Ravel::Chars(characters) => {
                if let Lent::Chars(more) = more.lent() {
                    append(characters, more);
                }
            }
        }
    }

    /// Moves the items into `room`, unless `places` items fit in place. Does not allocate.
    #[tactic(auto, using(crate::proofs::Sound::one_type))]
    pub(crate) fn move_into(&mut self, room: Room, places: usize)
        requires few { places ≤ 2 ^ 63 }
        requires typed { room.item_type ≡ ravel_type self.old }
        requires more { length (ravel_items self.old) ≤ places }
        requires held { IsRoomy (length (ravel_items self.old)) (ravel_capacity self.old) }
        requires room { HasRoom (length (ravel_items self.old)) places room.places }
        ensures items { ravel_items self.new ≡ ravel_items self.old }
        ensures typed { ravel_type self.new ≡ ravel_type self.old }
        ensures room { places ≤ ravel_capacity self.new }
        ensures roomy { IsRoomy places (ravel_capacity self.new) }
    {
        if self.capacity() < room_of(places) {
            let mut ravel = Ravel::of_list(room.list);
            ravel.append(self);
            *self = ravel;
        }
    }

    /// Appends an item of the same type within the capacity. Does not allocate.
    pub(crate) fn put(&mut self, item: Item)
        requires room { length (ravel_items self.old) < ravel_capacity self.old }
        requires typed { type_of item ≡ ravel_type self.old }
        ensures items { ravel_items self.new ≡ ravel_items self.old ++ item ∷ [] }
        ensures typed { ravel_type self.new ≡ ravel_type self.old }
        ensures room { ravel_capacity self.old ≤ ravel_capacity self.new }
    {
        match self {
            Ravel::One(_) => unreachable!(),
            Ravel::Nums(numbers) => {
                if let Item::Num(number) = item {
                    append(numbers, &[number]);
                }
            }
            Ravel::Chars(characters) => {
                if let Item::Char(character) = item {
                    append(characters, &[character]);
                }
            }
        }
    }

    /// Replaces the item at a place, counted from 0, by an item of the same type.
    pub(crate) fn write(&mut self, place: usize, item: Item)
        requires inside { place < length (ravel_items self.old) }
        requires typed { type_of item ≡ ravel_type self.old }
        ensures items { ravel_items self.new ≡ set (ravel_items self.old) place item }
        ensures typed { ravel_type self.new ≡ ravel_type self.old }
        ensures room { ravel_capacity self.new ≡ ravel_capacity self.old }
    {
        match self {
            Ravel::One(held) => {
                if let Item::Num(number) = item {
                    *held = number;
                }
            }
            Ravel::Nums(numbers) => {
                if let Item::Num(number) = item {
                    numbers[place] = number;
                }
            }
            Ravel::Chars(characters) => {
                if let Item::Char(character) = item {
                    characters[place] = character;
                }
            }
        }
    }
}
