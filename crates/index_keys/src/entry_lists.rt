// Lists of entries that grow at their end.
ghost use Rattle.std.specs.Prelude.{◌≡◌, ◌+◌, ◌<◌, ◌^◌, ◌++◌, [], ◌∷◌, List, true, false, length};
ghost use Rattle.std.specs.Prelude.{IfOk, IsTrue, ◌↔◌};
ghost use Rattle.index_keys.specs.Entries.{Entry, IsRising};

use crate::index_key::IndexKey;
use std::alloc::{AllocError, Global};

/// A list of entries in rising order, keys of `W` bytes with values, to which others are put
/// behind.
pub trait EntryList<const W: usize>: Drop {
    /// The entries, in order.
    ghost entries: { Self → List Entry };

    /// No entry, and room for so many.
    fn with_room(alloc: Global, count: usize) -> Result<Self, AllocError>
        ensures { IfOk result (λ made. entries made ≡ []) };

    /// How many entries there are.
    fn len(&self) -> usize
        ensures { result ≡ length (entries self.now) };

    /// Puts an entry behind the others, where all then rise; otherwise false.
    fn put_behind(&mut self, key: IndexKey<W>, value: u32) -> Result<bool, AllocError>
        requires room { length (entries self.old) < 2 ^ 32 }
        requires rising { IsRising (entries self.old) }
        ensures yes { IfOk result (λ put. put ≡ true
            → (entries self.new ≡ entries self.old ++ (key.entry, value) ∷ [])
            × IsRising (entries self.new)) }
        ensures no { IfOk result (λ put. put ≡ false
            → IsRising (entries self.old ++ (key.entry, value) ∷ []) → ⊥) }
        ensures same { IfOk result (λ put. put ≡ false → entries self.new ≡ entries self.old) };
}

impl<const W: usize> EntryList<W> for Vec<(IndexKey<W>, u32)> {
    ghost entries = { λ list. list.items };

    fn with_room(alloc: Global, count: usize) -> Result<Self, AllocError> {
        Vec::with_capacity(alloc, count)
    }

    fn len(&self) -> usize {
        self.as_slice().len()
    }

    #[inline(always)]
    fn put_behind(&mut self, key: IndexKey<W>, value: u32) -> Result<bool, AllocError>
        requires room { length self.old.items < 2 ^ 32 }
        requires rising { IsRising self.old.items }
        ensures yes { IfOk result (λ put. put ≡ true
            → (self.new.items ≡ self.old.items ++ (key.entry, value) ∷ [])
            × IsRising self.new.items) }
        ensures no { IfOk result (λ put. put ≡ false
            → IsRising (self.old.items ++ (key.entry, value) ∷ []) → ⊥) }
        ensures same { IfOk result (λ put. put ≡ false → self.new.items ≡ self.old.items) }
    {
        if !follows(self, &key, value) {
            return Ok(false);
        }
        self.push((key, value))?;
        Ok(true)
    }
}

// Whether an entry may come behind these.
#[inline(always)]
fn follows<const W: usize>(entries: &[(IndexKey<W>, u32)], key: &IndexKey<W>, value: u32) -> bool
    ensures { IsRising entries.now
        → (IsTrue result ↔ IsRising (entries.now ++ (key.now, value) ∷ [])) }
{
    let count = entries.len();
    if count == 0 {
        return true;
    }
    let last = &entries[count - 1];
    last.0.is_before(last.1, key, value)
}
