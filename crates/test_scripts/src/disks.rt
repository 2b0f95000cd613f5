// A disk in memory that counts its calls.
use tune_disk::{DeviceFault, Disk, FuseDisk, MemoryDisk};

/// How many calls of each kind there were.
#[derive(Clone, Copy, Debug, PartialEq, Eq)]
pub(crate) struct Calls {
    pub(crate) reads: u64,
    pub(crate) writes: u64,
    /// For the length, and syncs.
    pub(crate) others: u64,
}

impl Calls {
    // How many there were.
    pub(crate) fn all(self) -> u64 {
        self.reads
            .saturating_add(self.writes)
            .saturating_add(self.others)
    }
}

/// A disk in memory that counts its calls, and fails from some call on. No clause calls it honest:
/// what comes of a call is shown by the run.
#[derive(Drop)]
pub(crate) struct CountingDisk {
    disk: FuseDisk<MemoryDisk>,
    calls: Calls,
}

impl CountingDisk {
    // A disk without a call yet, of which so many calls pass.
    pub(crate) fn over(disk: MemoryDisk, most: u64) -> CountingDisk {
        CountingDisk {
            disk: FuseDisk::new(disk, most),
            calls: Calls {
                reads: 0,
                writes: 0,
                others: 0,
            },
        }
    }

    // The calls so far.
    pub(crate) fn calls(&self) -> Calls {
        self.calls
    }

    // The disk within.
    pub(crate) fn into_memory(self) -> MemoryDisk {
        let CountingDisk { disk, calls: _ } = self;
        disk.into_inner()
    }
}

impl Disk for CountingDisk {
    ghost state = { λ it. ⟦<FuseDisk<MemoryDisk> as Disk>⟧.state it.disk };

    ghost failures = { λ it. ⟦<FuseDisk<MemoryDisk> as Disk>⟧.failures it.disk };

    ghost honest = { λ _. ⊥ };

    ghost seen_may_stay = { λ _ never. absurd never };

    fn len(&mut self) -> Result<u64, DeviceFault> {
        self.calls.others = self.calls.others.saturating_add(1);
        self.disk.len()
    }

    fn read(&mut self, at: u64, into: &mut [u8]) -> Result<(), DeviceFault> {
        self.calls.reads = self.calls.reads.saturating_add(1);
        self.disk.read(at, into)
    }

    fn write_at(&mut self, at: u64, bytes: &[u8]) -> Result<(), DeviceFault> {
        self.calls.writes = self.calls.writes.saturating_add(1);
        self.disk.write_at(at, bytes)
    }

    fn sync(&mut self) -> Result<(), DeviceFault> {
        self.calls.others = self.calls.others.saturating_add(1);
        self.disk.sync()
    }
}
