// Entries that the indexes are made of.
ghost use Rattle.std.specs.Prelude.{◌↔◌, ◌++◌, [], ◌∷◌, IsTrue};
ghost use Rattle.index_keys.specs.Entries.{IsRising};

use std::alloc::{AllocError, Global};
use std::marker::Model;
use tune_index::IndexKey;

/// Entries that rise.
#[derive(Drop)]
pub(crate) struct Run {
    entries: Vec<(IndexKey<32>, u32)>,
}

impl Model for Run {
    ghost use Rattle.std.specs.Prelude.{List};
    ghost use Rattle.index_keys.specs.Entries.{Entry, IsRising};

    ghost Value = { List Entry };

    ghost view = { λ run. run.entries.items };

    ghost invariant = { λ run. IsRising run.entries.items };
}

impl Run {
    /// So many entries, whose keys are spread over all that there may be.
    pub(crate) fn spread(alloc: Global, count: u32) -> Result<Run, AllocError> {
        let mut run = Run {
            entries: Vec::with_capacity(alloc, count as usize)?,
        };
        let step = u32::MAX / count.max(1);
        for value in 0..count {
            run.push(key(value.wrapping_mul(step)), value)?;
        }
        Ok(run)
    }

    // The entry comes to the end, where it stands behind all others.
    fn push(&mut self, key: IndexKey<32>, value: u32) -> Result<(), AllocError> {
        let entry = (key, value);
        if follows(&self.entries, &entry) {
            self.entries.push(entry)?;
        }
        Ok(())
    }

    /// The entries.
    pub(crate) fn entries(&self) -> &[(IndexKey<32>, u32)]
        ensures { IsRising result.now }
    {
        &self.entries
    }
}

// Whether an entry may come behind these.
fn follows<const W: usize>(entries: &[(IndexKey<W>, u32)], entry: &(IndexKey<W>, u32)) -> bool
    ensures { IsRising entries.now
        → (IsTrue result ↔ IsRising (entries.now ++ entry.now ∷ [])) }
{
    let count = entries.len();
    if count == 0 {
        return true;
    }
    let last = &entries[count - 1];
    last.0.is_before(last.1, &entry.0, entry.1)
}

/// A key that begins with the bytes of a number.
pub(crate) fn key(number: u32) -> IndexKey<32> {
    IndexKey::cut(&number.to_be_bytes(), 0x61)
}

/// The number behind another one in a row that comes to no order.
pub(crate) fn next_number(number: u32) -> u32 {
    number.wrapping_mul(1_664_525).wrapping_add(1_013_904_223)
}
