// Entries of incipits as an opening holds them.
ghost use Rattle.std.specs.Prelude.{◌≡◌, ◌↔◌, ◌^◌, ◌<◌, ◌≤◌, ◌++◌, [], ◌∷◌, true, false, length};
ghost use Rattle.std.specs.Prelude.{ℕ, List, IfOk, IsTrue, OnErr};
ghost use Rattle.index_keys.specs.Entries.{IsRising};
ghost use Rattle.tune_search.specs.HeldShapes.{IsKeptKey, held_entries, whole_key};

use crate::held_keys::HeldKey;
use index_keys::{EntryList, IndexKey};
use std::alloc::{AllocError, Global};
use std::marker::Model;
use tune_incipit::SmallSteps;

/// Entries of incipits in rising order, whose keys take little room where their steps are small.
/// Clauses see the keys as they are held, with values, and those that are kept whole; what entries
/// these are says `held_entries`.
#[derive(Drop)]
pub struct HeldIncipits<const W: usize> {
    entries: Vec<(HeldKey, u32)>,
    // the keys that are kept whole
    others: Vec<IndexKey<W>>,
    // the last entry, whole: the next one has to stand behind it
    last: (IndexKey<W>, u32),
}

impl<const W: usize> Model for HeldIncipits<W> {
    ghost use Rattle.tune_search.specs.HeldShapes.{AreHeldEntries, HeldShape};

    ghost Value = { HeldShape };

    ghost view = { λ held. record { entries = held.entries.items; others = held.others.items } };

    ghost invariant = { λ held. AreHeldEntries W held.entries.items held.others.items held.last };
}

impl<const W: usize> EntryList<W> for HeldIncipits<W> {
    ghost entries = { λ held. held_entries W held };

    fn with_room(alloc: Global, count: usize) -> Result<Self, AllocError> {
        Ok(HeldIncipits {
            entries: Vec::with_capacity(alloc, count)?,
            others: Vec::new(alloc),
            last: (IndexKey::new([0; W]), 0),
        })
    }

    fn len(&self) -> usize
        ensures { result ≡ length (held_entries W self.now) }
    {
        self.entries.len()
    }

    #[inline(always)]
    fn put_behind(&mut self, key: IndexKey<W>, value: u32) -> Result<bool, AllocError>
        requires room { length (held_entries W self.old) < 2 ^ 32 }
        requires rising { IsRising (held_entries W self.old) }
        ensures yes { IfOk result (λ put. put ≡ true
            → (held_entries W self.new ≡ held_entries W self.old ++ (key.entry, value) ∷ [])
            × IsRising (held_entries W self.new)) }
        ensures no { IfOk result (λ put. put ≡ false
            → IsRising (held_entries W self.old ++ (key.entry, value) ∷ []) → ⊥) }
        ensures same { IfOk result (λ put. put ≡ false
            → held_entries W self.new ≡ held_entries W self.old) }
    {
        if !self.follows(&key, value) {
            return Ok(false);
        }
        self.entries.reserve(1)?;
        let held = hold(&mut self.others, &key)?;
        self.entries.push((held, value)).unwrap();
        self.last = (key, value);
        Ok(true)
    }
}

impl<const W: usize> HeldIncipits<W> {
    // Whether an entry may come behind these.
    #[inline(always)]
    fn follows(&self, key: &IndexKey<W>, value: u32) -> bool
        ensures { IsRising (held_entries W self.now) → (IsTrue result
            ↔ IsRising (held_entries W self.now ++ (key.now, value) ∷ [])) }
    {
        self.entries.is_empty() || self.last.0.is_before(self.last.1, key, value)
    }

    // The keys as they are held, with values.
    pub(crate) fn as_slice(&self) -> &[(HeldKey, u32)]
        ensures { result.now ≡ self.now.entries }
    {
        &self.entries
    }

    // A key as it was given.
    pub(crate) fn whole(&self, key: &HeldKey) -> IndexKey<W>
        ensures { result ≡ whole_key W self.now.others key.now }
    {
        match key {
            HeldKey::Steps(steps) => steps.key(),
            HeldKey::Other(place) => match self.others.get(*place as usize) {
                Some(key) => *key,
                None => IndexKey::cut(&[], 0),
            },
        }
    }
}

// A key as it is held. It is put behind those that are kept whole where its steps are not small.
#[inline(always)]
fn hold<const W: usize>(
    others: &mut Vec<IndexKey<W>>,
    key: &IndexKey<W>,
) -> Result<HeldKey, AllocError>
    requires { length others.old.items < 2 ^ 32 }
    ensures key { IfOk result (λ held. whole_key W others.new.items held ≡ key.now) }
    ensures kept { IfOk result (λ held. IsKeptKey (length others.new.items) held) }
    ensures more { IfOk result (λ _. (more : List ℕ)
        × (others.new.items ≡ others.old.items ++ more) × (length more ≤ 1)) }
    ensures same { OnErr result (others.new.items ≡ others.old.items) }
{
    if let Some(steps) = SmallSteps::of_key(key) {
        return Ok(HeldKey::Steps(steps));
    }
    let place = others.len() as u32;
    others.push(*key)?;
    Ok(HeldKey::Other(place))
}
