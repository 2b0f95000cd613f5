// A disk that says nothing of itself, and keeps a list of its calls where it is asked to.
ghost use Rattle.std.specs.Prelude.{◌≡◌};

use std::alloc::Global;
use std::mem;
use tune_disk::{DeviceFault, Disk};

/// A call of a disk.
#[derive(Clone, Copy)]
pub(crate) enum DiskCall {
    Length,
    Read(u64, usize),
    Write(u64, usize),
    Sync,
}

/// A disk that no clause calls honest: so a condition that stands on an honest disk alone needs no
/// proof.
#[derive(Drop)]
pub(crate) struct Noted<D: Disk> {
    disk: D,
    is_noting: bool,
    calls: Vec<DiskCall>,
}

impl<D: Disk> Noted<D> {
    /// The disk, of which the calls are noted or not.
    pub(crate) fn new(alloc: Global, disk: D, is_noting: bool) -> Noted<D> {
        Noted {
            disk,
            is_noting,
            calls: Vec::new(alloc),
        }
    }

    /// The calls since, and no more of them.
    pub(crate) fn take_calls(&mut self, alloc: Global) -> Vec<DiskCall> {
        mem::replace(&mut self.calls, Vec::new(alloc))
    }

    // Notes a call; one for which there is no memory is left out.
    fn note(&mut self, call: DiskCall)
        ensures { self.new.disk ≡ self.old.disk }
    {
        if self.is_noting {
            let _ = self.calls.push(call);
        }
    }
}

impl<D: Disk> Disk for Noted<D> {
    ghost state = { λ it. D.Disk.state it.disk };

    ghost failures = { λ it. D.Disk.failures it.disk };

    ghost honest = { λ _. ⊥ };

    ghost seen_may_stay = { λ _ never. absurd never };

    fn len(&mut self) -> Result<u64, DeviceFault> {
        self.note(DiskCall::Length);
        self.disk.len()
    }

    fn read(&mut self, at: u64, into: &mut [u8]) -> Result<(), DeviceFault> {
        self.note(DiskCall::Read(at, into.len()));
        self.disk.read(at, into)
    }

    fn write_at(&mut self, at: u64, bytes: &[u8]) -> Result<(), DeviceFault> {
        self.note(DiskCall::Write(at, bytes.len()));
        self.disk.write_at(at, bytes)
    }

    fn sync(&mut self) -> Result<(), DeviceFault> {
        self.note(DiskCall::Sync);
        self.disk.sync()
    }
}
