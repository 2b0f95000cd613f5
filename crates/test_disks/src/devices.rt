// The disk that calls are made of.
use crate::disk_calls::{DiskCall, call_disk};
use test_cases::Answer;
use tune_disk::{FileDisk, FuseDisk, MemoryDisk, OneFault, UnknownHistory};

/// A disk of one of the kinds that there are.
#[derive(Drop)]
pub(crate) enum Device {
    None,
    Memory(MemoryDisk),
    Fuse(FuseDisk<MemoryDisk>),
    OneFault(OneFault<MemoryDisk>),
    FaultWithinFuse(FuseDisk<OneFault<MemoryDisk>>),
    File(FileDisk<UnknownHistory>),
}

impl Device {
    /// With a fuse round it.
    pub(crate) fn fused(self, calls: u64) -> Device {
        match self {
            Device::Memory(disk) => Device::Fuse(FuseDisk::new(disk, calls)),
            Device::OneFault(disk) => Device::FaultWithinFuse(FuseDisk::new(disk, calls)),
            _ => Device::None,
        }
    }

    /// With one fault.
    pub(crate) fn faulted(self, call: u64) -> Device {
        match self {
            Device::Memory(disk) => Device::OneFault(OneFault::new(disk, call)),
            _ => Device::None,
        }
    }

    /// The disk in memory within it.
    pub(crate) fn inner(self) -> Device {
        match self {
            Device::Fuse(disk) => Device::Memory(disk.into_inner()),
            Device::OneFault(disk) => Device::Memory(disk.into_inner()),
            Device::FaultWithinFuse(disk) => Device::Memory(disk.into_inner().into_inner()),
            _ => Device::None,
        }
    }

    /// Makes a call, and answers it.
    pub(crate) fn call(&mut self, call: DiskCall, bytes: &mut [u8], answer: &mut Answer) {
        match self {
            Device::None => answer.say("no disk"),
            Device::Memory(disk) => call_disk(disk, call, bytes, answer),
            Device::Fuse(disk) => call_disk(disk, call, bytes, answer),
            Device::OneFault(disk) => call_disk(disk, call, bytes, answer),
            Device::FaultWithinFuse(disk) => call_disk(disk, call, bytes, answer),
            Device::File(disk) => call_disk(disk, call, bytes, answer),
        }
    }
}
