// A disk in memory that says nothing of itself.
use std::alloc::Global;
use tune_disk::{DeviceFault, Disk, MemoryDisk};

/// A disk as the tests see it, which are proved over any such disk and run over one. No clause
/// calls it honest: so a condition that stands on an honest disk alone needs no proof, and what
/// comes of a call is shown by the run.
pub(crate) trait TestDisk: Disk {
    /// A file without a byte.
    fn empty(alloc: Global) -> Self;

    ghost never: { (disk : Self) → Self.honest disk → ⊥ };
}

/// A disk in memory.
#[derive(Drop)]
pub(crate) struct InMemory {
    disk: MemoryDisk,
}

impl Disk for InMemory {
    ghost state = { λ it. ⟦<MemoryDisk as Disk>⟧.state it.disk };

    ghost failures = { λ it. ⟦<MemoryDisk as Disk>⟧.failures it.disk };

    ghost honest = { λ _. ⊥ };

    ghost seen_may_stay = { λ _ never. absurd never };

    fn len(&mut self) -> Result<u64, DeviceFault> {
        self.disk.len()
    }

    fn read(&mut self, at: u64, into: &mut [u8]) -> Result<(), DeviceFault> {
        self.disk.read(at, into)
    }

    fn write_at(&mut self, at: u64, bytes: &[u8]) -> Result<(), DeviceFault> {
        self.disk.write_at(at, bytes)
    }

    fn sync(&mut self) -> Result<(), DeviceFault> {
        self.disk.sync()
    }
}

impl TestDisk for InMemory {
    fn empty(alloc: Global) -> InMemory {
        InMemory {
            disk: MemoryDisk::new(alloc),
        }
    }

    ghost never = { λ _ never. never };
}
