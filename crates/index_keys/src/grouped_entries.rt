// Entries in order, each key kept once.
ghost use Rattle.std.specs.Prelude.{◌≡◌, ◌+◌, ◌<◌, ◌^◌, ◌++◌, [], ◌∷◌, true, false, length};
ghost use Rattle.std.specs.Prelude.{slice_index, IfOk};
ghost use Rattle.index_keys.specs.Entries.{IsRising};
ghost use Rattle.index_keys.specs.Groups.{grouped_entries, nth_entry};

use crate::entry_lists::EntryList;
use crate::index_key::IndexKey;
use std::alloc::{AllocError, Global};
use std::marker::Model;

/// Entries in rising order, which keep each key once for all the values at it, so that many
/// entries of few keys take little memory. Clauses see the keys, and for each entry which of them
/// it has, with its value; what entries these are says `grouped_entries`.
#[derive(Drop)]
pub struct GroupedEntries<const W: usize> {
    keys: Vec<IndexKey<W>>,
    // For each entry the number of its key among the keys, and its value.
    places: Vec<(u32, u32)>,
}

impl<const W: usize> Model for GroupedEntries<W> {
    ghost use Rattle.index_keys.specs.Groups.{Grouped, IsGrouped};

    ghost Value = { Grouped };

    ghost view = { λ grouped. record { keys = grouped.keys.items; places = grouped.places.items } };

    ghost invariant = { λ grouped. IsGrouped grouped.keys.items grouped.places.items };
}

impl<const W: usize> EntryList<W> for GroupedEntries<W> {
    ghost entries = { λ grouped. grouped_entries grouped };

    fn with_room(alloc: Global, count: usize) -> Result<Self, AllocError> {
        let keys = Vec::with_capacity(alloc, count)?;
        let places = Vec::with_capacity(alloc, count)?;
        Ok(GroupedEntries { keys, places })
    }

    fn len(&self) -> usize
        ensures entries { result ≡ length (grouped_entries self.now) }
        ensures places { result ≡ length self.now.places }
    {
        self.places.len()
    }

    #[inline(always)]
    fn put_behind(&mut self, key: IndexKey<W>, value: u32) -> Result<bool, AllocError>
        requires room { length (grouped_entries self.old) < 2 ^ 32 }
        requires rising { IsRising (grouped_entries self.old) }
        ensures yes { IfOk result (λ put. put ≡ true
            → (grouped_entries self.new ≡ grouped_entries self.old ++ (key.entry, value) ∷ [])
            × IsRising (grouped_entries self.new)) }
        ensures no { IfOk result (λ put. put ≡ false
            → IsRising (grouped_entries self.old ++ (key.entry, value) ∷ []) → ⊥) }
        ensures same { IfOk result (λ put. put ≡ false
            → grouped_entries self.new ≡ grouped_entries self.old) }
    {
        let count = self.places.len();
        if count > 0 {
            let (id, last) = self.places[count - 1];
            // Most entries have the key of the one before them.
            if last < value && self.keys[id as usize].is_same(&key) {
                self.places.push((id, value))?;
                return Ok(true);
            }
        }
        self.put_other(key, value)
    }
}

impl<const W: usize> GroupedEntries<W> {
    // Puts an entry with a key of its own behind the others, where all then rise; otherwise false.
    // Apart, so that the way of most entries is short.
    #[inline(never)]
    fn put_other(&mut self, key: IndexKey<W>, value: u32) -> Result<bool, AllocError>
        requires room { length (grouped_entries self.old) < 2 ^ 32 }
        requires rising { IsRising (grouped_entries self.old) }
        ensures yes { IfOk result (λ put. put ≡ true
            → (grouped_entries self.new ≡ grouped_entries self.old ++ (key.entry, value) ∷ [])
            × IsRising (grouped_entries self.new)) }
        ensures no { IfOk result (λ put. put ≡ false
            → IsRising (grouped_entries self.old ++ (key.entry, value) ∷ []) → ⊥) }
        ensures same { IfOk result (λ put. put ≡ false
            → grouped_entries self.new ≡ grouped_entries self.old) }
    {
        let count = self.places.len();
        if count > 0 {
            let (id, last) = self.places[count - 1];
            if !self.keys[id as usize].is_before(last, &key, value) {
                return Ok(false);
            }
        }
        let id = self.keys.len() as u32;
        self.places.reserve(1)?;
        self.keys.push(key)?;
        self.places.push((id, value)).unwrap();
        Ok(true)
    }

    /// The number of the key of the entry at a place, among the keys, from 0 on.
    #[inline(always)]
    pub fn id_at(&self, place: usize) -> u32
        requires { place < length self.now.places }
        ensures within { result < length self.now.keys }
        ensures place { result ≡ (nth_entry self.now.places place).0 }
        ensures key { slice_index self.now.keys result
            ≡ (nth_entry (grouped_entries self.now) place).0 }
    {
        self.places[place].0
    }

    /// The value of the entry at a place.
    #[inline(always)]
    pub fn value_at(&self, place: usize) -> u32
        requires { place < length self.now.places }
        ensures place { result ≡ (nth_entry self.now.places place).1 }
        ensures entry { result ≡ (nth_entry (grouped_entries self.now) place).1 }
    {
        self.places[place].1
    }

    /// The key of that number among the keys.
    #[inline(always)]
    pub fn key_of(&self, id: u32) -> &IndexKey<W>
        requires { id < length self.now.keys }
        ensures { result.now ≡ slice_index self.now.keys id }
    {
        &self.keys[id as usize]
    }
}
