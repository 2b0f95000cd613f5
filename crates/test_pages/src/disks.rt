// A disk in memory that says nothing of itself.
use std::alloc::Global;
use tune_disk::{DeviceFault, Disk, FuseDisk, MemoryDisk, OneFault};

/// A disk in memory that no clause calls honest: so a condition that stands on an honest disk alone
/// needs no proof, and what comes of a call is shown by the run.
#[derive(Drop)]
pub(crate) struct InMemory {
    disk: OneFault<FuseDisk<MemoryDisk>>,
}

// A disk over a file in memory that passes so many calls, and of which one fails.
fn over(memory: MemoryDisk, calls: u64, call: u64) -> InMemory {
    InMemory {
        disk: OneFault::new(FuseDisk::new(memory, calls), call),
    }
}

impl InMemory {
    // A file without a byte.
    pub(crate) fn empty(alloc: Global) -> InMemory {
        InMemory::over(MemoryDisk::new(alloc))
    }

    // A file, on a disk that fails no call.
    pub(crate) fn over(memory: MemoryDisk) -> InMemory {
        over(memory, u64::MAX, u64::MAX)
    }

    // The file, on a disk that passes so many calls and then fails all.
    pub(crate) fn passing(self, calls: u64) -> InMemory {
        over(self.into_memory(), calls, u64::MAX)
    }

    // The file, on a disk of which this call fails.
    pub(crate) fn failing(self, call: u64) -> InMemory {
        over(self.into_memory(), u64::MAX, call)
    }

    // The file within.
    pub(crate) fn into_memory(self) -> MemoryDisk {
        let InMemory { disk } = self;
        disk.into_inner().into_inner()
    }
}

impl Disk for InMemory {
    ghost state = { λ it. ⟦<OneFault<FuseDisk<MemoryDisk>> as Disk>⟧.state it.disk };

    ghost failures = { λ it. ⟦<OneFault<FuseDisk<MemoryDisk>> as Disk>⟧.failures it.disk };

    ghost honest = { λ _. ⊥ };

    ghost seen_may_stay = { λ _ never. absurd never };

    fn len(&mut self) -> Result<u64, DeviceFault> {
        self.disk.len()
    }

    fn read(&mut self, at: u64, into: &mut [u8]) -> Result<(), DeviceFault> {
        self.disk.read(at, into)
    }

    fn write_at(&mut self, at: u64, bytes: &[u8]) -> Result<(), DeviceFault> {
        self.disk.write_at(at, bytes)
    }

    fn sync(&mut self) -> Result<(), DeviceFault> {
        self.disk.sync()
    }
}
