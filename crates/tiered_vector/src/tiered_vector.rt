// A list in tiers.
ghost use Rattle.std.specs.Prelude.{◌≡◌, ◌+◌, ◌*◌, ◌-◌, ◌<◌, ◌≤◌, ◌++◌, ◌∷◌, [], length, take};
ghost use Rattle.std.specs.Prelude.{replicate, slice_index_or, slice_set, vec_capacity};
ghost use Rattle.std.specs.Prelude.{OnOk};
ghost use Rattle.std.specs.List.{insert, remove};
ghost use Rattle.tiered_vector.specs.Tiers.{AreTurns, tiered};
ghost use Rattle.tiered_vector.specs.Inside.Slots.{slot_of};

use crate::rings::{RING, put_in, straighten, take_out};
use std::alloc::{AllocError, Global};
use std::marker::Model;
use std::mem;

/// A list. Where an item comes or goes, others of its ring move, and one of each later ring. There
/// are at most 64 rings, of 1,023 items each; what stands behind them moves as in a vector.
#[derive(Drop)]
pub struct TieredVector<T> {
    // the rings, and behind them what is left
    items: Vec<T>,
    // where each ring begins in its part
    turns: [u16; 64],
    // how many rings there are
    rings: usize,
}

impl<T> Model for TieredVector<T> {
    ghost use Rattle.std.specs.Prelude.{◌≤◌, ◌*◌, length, take, vec_capacity};
    ghost use Rattle.tiered_vector.specs.Tiers.{AreTurns, Tiered, tiered};

    ghost Value = { Tiered T };

    ghost view = { λ list. record {
      items = tiered (take list.rings list.turns) list.items.items;
      room = vec_capacity list.items;
    } };

    ghost invariant = { λ list. (list.rings ≤ 64) × (1023 * list.rings ≤ length list.items.items)
        × AreTurns (take list.rings list.turns) };
}

// Makes rings of so many items, as far as they and the turns go, where there are some already.
fn add_rings(turns: &mut [u16], rings: usize, items: usize) -> usize
    requires turns { rings ≤ length turns.old }
    requires items { 1023 * rings ≤ items }
    ensures more { rings ≤ result }
    ensures turns { result ≤ length turns.old }
    ensures items { 1023 * result ≤ items }
    ensures straight { take result turns.new
        ≡ take rings turns.old ++ replicate (result - rings) 0 }
{
    let more = (items / RING).min(turns.len());
    turns[rings..more].fill(0);
    more
}

// Where the item at a place stands.
fn slot(turns: &[u16], place: usize) -> usize
    requires rings { length turns.now ≤ 64 }
    requires turns { AreTurns turns.now }
    ensures { result ≡ slot_of turns.now place }
{
    let ring = place / RING;
    if ring >= turns.len() {
        return place;
    }
    ring * RING + (turns[ring] as usize + place % RING) % RING
}

// The item at a place goes. Where it stands in a ring, there are others behind the rings.
fn remove_from<T>(items: &mut Vec<T>, turns: &mut [u16], place: usize) -> T
    requires turns { AreTurns turns.old }
    requires items { 1023 * length turns.old < length items.old.items }
    requires place { place < length items.old.items }
    ensures gone { result ≡ slice_index_or (tiered turns.old items.old.items) place result }
    ensures items { tiered turns.new items.new.items
        ≡ remove (tiered turns.old items.old.items) place }
    ensures turns { AreTurns turns.new }
    ensures length { length items.new.items + 1 ≡ length items.old.items }
    ensures room { vec_capacity items.new ≡ vec_capacity items.old }
{
    let most = turns.len() * RING;
    if place >= most {
        return items.remove(place);
    }
    let last = items.remove(most);
    let (rings, _) = items.split_at_mut(most);
    take_out(rings, turns, place, last)
}

// An item comes to a place. There is room for it.
fn insert_into<T>(items: &mut Vec<T>, turns: &mut [u16], place: usize, item: T)
    requires turns { AreTurns turns.old }
    requires items { 1023 * length turns.old ≤ length items.old.items }
    requires place { place ≤ length items.old.items }
    requires room { length items.old.items < vec_capacity items.old }
    ensures items { tiered turns.new items.new.items
        ≡ insert (tiered turns.old items.old.items) place item }
    ensures turns { AreTurns turns.new }
    ensures length { length items.new.items ≡ length items.old.items + 1 }
    ensures room { vec_capacity items.new ≡ vec_capacity items.old }
{
    let most = turns.len() * RING;
    if place >= most {
        items.insert(place, item).unwrap();
        return;
    }
    let (rings, _) = items.split_at_mut(most);
    let last = put_in(rings, turns, place, item);
    items.insert(most, last).unwrap();
}

// Gives how many rings there are then: where nothing stands behind the rings, the last becomes what
// stands behind the others.
fn leave_some<T>(items: &mut [T], turns: &mut [u16]) -> usize
    requires turns { AreTurns turns.old }
    requires items { 1023 * length turns.old ≤ length items.old }
    requires some { 0 < length items.old }
    ensures fewer { result ≤ length turns.old }
    ensures some { 1023 * result < length items.old }
    ensures turns { AreTurns (take result turns.new) }
    ensures items { tiered (take result turns.new) items.new ≡ tiered turns.old items.old }
{
    let rings = turns.len();
    if rings * RING < items.len() {
        return rings;
    }
    let last = rings - 1;
    let (_, ring) = items.split_at_mut(last * RING);
    let (_, turn) = turns.split_at_mut(last);
    straighten(ring, &mut turn[0]);
    last
}

// Takes out the item at a place, of so many rings, and says how many there are then.
fn remove_item<T>(items: &mut Vec<T>, turns: &mut [u16], rings: &mut usize, place: usize) -> T
    requires rings { rings.old ≤ length turns.old }
    requires turns { AreTurns (take rings.old turns.old) }
    requires items { 1023 * rings.old ≤ length items.old.items }
    requires place { place < length items.old.items }
    ensures gone { result
        ≡ slice_index_or (tiered (take rings.old turns.old) items.old.items) place result }
    ensures rings { rings.new ≤ rings.old }
    ensures turns { AreTurns (take rings.new turns.new) }
    ensures within { 1023 * rings.new ≤ length items.new.items }
    ensures items { tiered (take rings.new turns.new) items.new.items
        ≡ remove (tiered (take rings.old turns.old) items.old.items) place }
    ensures length { length items.new.items + 1 ≡ length items.old.items }
    ensures room { vec_capacity items.new ≡ vec_capacity items.old }
{
    let (turned, _) = turns.split_at_mut(*rings);
    *rings = leave_some(items, turned);
    let (turned, _) = turns.split_at_mut(*rings);
    remove_from(items, turned, place)
}

// Puts an item in at a place, of so many rings, and gives how many there are then. There is room
// for it.
fn insert_item<T>(
    items: &mut Vec<T>,
    turns: &mut [u16],
    rings: usize,
    place: usize,
    item: T,
) -> usize
    requires rings { rings ≤ length turns.old }
    requires turns { AreTurns (take rings turns.old) }
    requires items { 1023 * rings ≤ length items.old.items }
    requires place { place ≤ length items.old.items }
    requires room { length items.old.items < vec_capacity items.old }
    ensures rings { result ≤ length turns.old }
    ensures turns { AreTurns (take result turns.new) }
    ensures within { 1023 * result ≤ length items.new.items }
    ensures items { tiered (take result turns.new) items.new.items
        ≡ insert (tiered (take rings turns.old) items.old.items) place item }
    ensures room { vec_capacity items.new ≡ vec_capacity items.old }
{
    let (turned, _) = turns.split_at_mut(rings);
    insert_into(items, turned, place, item);
    add_rings(turns, rings, items.len())
}

// The items come behind those of a vector, in order.
fn copy_rings<T: Copy>(items: &[T], turns: &[u16], to: &mut Vec<T>) -> Result<(), AllocError>
    requires turns { AreTurns turns.now }
    requires items { 1023 * length turns.now ≤ length items.now }
    ensures { OnOk result (to.new.items ≡ to.old.items ++ tiered turns.now items.now) }
{
    if turns.is_empty() {
        return to.extend_from_slice(items);
    }
    let (ring, others) = items.split_at(RING);
    let (back, front) = ring.split_at(turns[0] as usize);
    to.extend_from_slice(front)?;
    to.extend_from_slice(back)?;
    copy_rings(others, &turns[1..], to)
}

impl<T> TieredVector<T> {
    /// A list without an item. It takes no memory.
    pub fn new(alloc: Global) -> TieredVector<T>
        ensures { result.items ≡ [] }
    {
        TieredVector::from(Vec::new(alloc))
    }

    /// A list of the items of a vector, in its memory.
    pub fn from(items: Vec<T>) -> TieredVector<T>
        ensures items { result.items ≡ items.items }
        ensures room { result.room ≡ vec_capacity items }
    {
        let mut turns = [0; 64];
        let rings = add_rings(&mut turns, 0, items.len());
        TieredVector {
            items,
            turns,
            rings,
        }
    }

    /// Its memory, with the items in some order.
    pub fn into_memory(self) -> Vec<T>
        ensures { vec_capacity result ≡ self.room }
    {
        self.items
    }

    /// How many items there are.
    pub fn len(&self) -> usize
        ensures { result ≡ length self.now.items }
    {
        self.items.len()
    }

    /// For how many items there is memory.
    pub fn capacity(&self) -> usize
        ensures room { result ≡ self.now.room }
        ensures within { length self.now.items ≤ result }
    {
        self.items.capacity()
    }

    /// The item at a place.
    pub fn get(&self, place: usize) -> &T
        requires { place < length self.now.items }
        ensures { result.now ≡ slice_index_or self.now.items place result.now }
    {
        &self.items[slot(&self.turns[..self.rings], place)]
    }

    /// Puts an item in the place of another, which it gives.
    pub fn replace(&mut self, place: usize, item: T) -> T
        requires { place < length self.old.items }
        ensures gone { result ≡ slice_index_or self.old.items place result }
        ensures items { self.new.items ≡ slice_set self.old.items place item }
        ensures room { self.new.room ≡ self.old.room }
    {
        let slot = slot(&self.turns[..self.rings], place);
        mem::replace(&mut self.items[slot], item)
    }

    /// Takes the item at a place out, and gives it. There is room for another then.
    pub fn remove(&mut self, place: usize) -> T
        requires { place < length self.old.items }
        ensures gone { result ≡ slice_index_or self.old.items place result }
        ensures items { self.new.items ≡ remove self.old.items place }
        ensures room { self.new.room ≡ self.old.room }
        ensures spare { length self.new.items < self.new.room }
    {
        remove_item(&mut self.items, &mut self.turns, &mut self.rings, place)
    }

    /// Puts an item in at a place, for which there is room. It takes no memory.
    pub fn insert(&mut self, place: usize, item: T)
        requires place { place ≤ length self.old.items }
        requires room { length self.old.items < self.old.room }
        ensures items { self.new.items ≡ insert self.old.items place item }
        ensures room { self.new.room ≡ self.old.room }
    {
        self.rings = insert_item(&mut self.items, &mut self.turns, self.rings, place, item);
    }

    /// Puts an item behind the others, for which there is room. It takes no memory.
    pub fn push(&mut self, item: T)
        requires { length self.old.items < self.old.room }
        ensures items { self.new.items ≡ self.old.items ++ item ∷ [] }
        ensures room { self.old.room ≤ self.new.room }
    {
        self.items.push(item).unwrap();
        self.rings = add_rings(&mut self.turns, self.rings, self.items.len());
    }

    /// Makes room for so many more items.
    ///
    /// # Errors
    ///
    /// `AllocError` where there was no memory for them.
    pub fn reserve(&mut self, more: usize) -> Result<(), AllocError>
        ensures items { self.new.items ≡ self.old.items }
        ensures room { OnOk result (length self.new.items + more ≤ self.new.room) }
    {
        self.items.reserve(more)
    }
}

impl<T: Copy> TieredVector<T> {
    /// The item at a place.
    pub fn at(&self, place: usize) -> T
        requires { place < length self.now.items }
        ensures { result ≡ slice_index_or self.now.items place result }
    {
        *self.get(place)
    }

    /// Puts an item in the place of another.
    pub fn put(&mut self, place: usize, item: T)
        requires { place < length self.old.items }
        ensures items { self.new.items ≡ slice_set self.old.items place item }
        ensures room { self.new.room ≡ self.old.room }
    {
        self.replace(place, item);
    }

    /// Puts items behind the others. There is room for them. It takes no memory.
    pub fn append(&mut self, more: &[T])
        requires { length self.old.items + length more.now ≤ self.old.room }
        ensures items { self.new.items ≡ self.old.items ++ more.now }
    {
        self.items.extend_from_slice(more).unwrap();
        self.rings = add_rings(&mut self.turns, self.rings, self.items.len());
    }

    /// Puts all items behind those of a vector.
    ///
    /// # Errors
    ///
    /// `AllocError` where there was no memory for them.
    pub fn copy_to(&self, to: &mut Vec<T>) -> Result<(), AllocError>
        ensures { OnOk result (to.new.items ≡ to.old.items ++ self.now.items) }
    {
        copy_rings(&self.items, &self.turns[..self.rings], to)
    }
}
