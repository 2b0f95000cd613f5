// A disk in memory that says nothing of itself.
ghost use Rattle.std.specs.Prelude.{◌≡◌};

use std::alloc::Global;
use tune_disk::{DeviceFault, Disk, MemoryDisk, OneFault};

/// A disk in memory that no clause calls honest: so a condition that stands on an honest disk alone
/// needs no proof, and what comes of a call is shown by the run.
#[derive(Drop)]
pub(crate) struct InMemory {
    disk: OneFault<MemoryDisk>,
    // so many calls are answered as they should be
    true_calls: u64,
    // a read behind them gives this byte alone
    lie: u8,
}

impl InMemory {
    // A file without a byte.
    pub(crate) fn empty(alloc: Global) -> InMemory {
        InMemory {
            disk: OneFault::new(MemoryDisk::new(alloc), u64::MAX),
            true_calls: u64::MAX,
            lie: 0,
        }
    }

    // The file, on a disk of which this call fails.
    pub(crate) fn failing(self, call: u64) -> InMemory {
        InMemory {
            disk: OneFault::new(self.into_memory(), call),
            true_calls: u64::MAX,
            lie: 0,
        }
    }

    // The file, on a disk whose reads give this byte alone, from this call on.
    pub(crate) fn lying(self, call: u64, lie: u8) -> InMemory {
        InMemory {
            disk: OneFault::new(self.into_memory(), u64::MAX),
            true_calls: call,
            lie,
        }
    }

    // The file within.
    fn into_memory(self) -> MemoryDisk {
        let InMemory {
            disk,
            true_calls: _,
            lie: _,
        } = self;
        disk.into_inner()
    }

    // Counts one call: whether it is to be answered as it should be.
    fn is_true_call(&mut self) -> bool
        ensures { self.new.disk ≡ self.old.disk }
    {
        if self.true_calls == 0 {
            return false;
        }
        self.true_calls -= 1;
        true
    }
}

impl Disk for InMemory {
    ghost state = { λ it. ⟦<OneFault<MemoryDisk> as Disk>⟧.state it.disk };

    ghost failures = { λ it. ⟦<OneFault<MemoryDisk> as Disk>⟧.failures it.disk };

    ghost honest = { λ _. ⊥ };

    ghost seen_may_stay = { λ _ never. absurd never };

    fn len(&mut self) -> Result<u64, DeviceFault> {
        let _ = self.is_true_call();
        self.disk.len()
    }

    fn read(&mut self, at: u64, into: &mut [u8]) -> Result<(), DeviceFault> {
        let is_true = self.is_true_call();
        self.disk.read(at, into)?;
        if !is_true {
            into.fill(self.lie);
        }
        Ok(())
    }

    fn write_at(&mut self, at: u64, bytes: &[u8]) -> Result<(), DeviceFault> {
        let _ = self.is_true_call();
        self.disk.write_at(at, bytes)
    }

    fn sync(&mut self) -> Result<(), DeviceFault> {
        let _ = self.is_true_call();
        self.disk.sync()
    }
}
