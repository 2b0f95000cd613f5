// A disk whose calls fail from some call on.
ghost use Rattle.std.specs.Prelude.{◌≡◌, ◌+◌, ◌-◌, ◌≤◌, ◌^◌, ◌↔◌, IsErr, IfOk, OnOk, length};
ghost use Rattle.tune_disk.specs.Disk.{CountsFailure, Calls, Looks, Shows, Writes, Syncs};
ghost use Rattle.tune_disk.specs.Wrapped.{Burns, fused_state, fused_honest, fused_failures};

use crate::{DeviceFault, Disk};
use std::marker::Model;

/// A disk that passes so many calls on to the disk within it, and then fails each one, without a
/// call of that disk. It is honest as that disk is. A clause sees the disk within, how many calls
/// pass yet, and how often the fuse itself has failed.
#[derive(Drop)]
pub struct FuseDisk<D: Disk> {
    disk: D,
    calls_left: u64,
    failed: u64,
}

impl<D: Disk> Model for FuseDisk<D> {
    ghost use Rattle.tune_disk.specs.Inside.WrappedCodes.{fused_code};
    ghost use Rattle.tune_disk.specs.Wrapped.{Fused};

    ghost Value = { Fused D };

    ghost coded = { fused_code D.code };

    ghost view = { λ fuse.
        record { disk = fuse.disk; calls_left = fuse.calls_left; failed = fuse.failed } };
}

impl<D: Disk> FuseDisk<D> {
    /// A fuse that passes `calls` calls.
    pub fn new(disk: D, calls: u64) -> FuseDisk<D>
        ensures disk { result.disk ≡ disk }
        ensures calls { result.calls_left ≡ calls }
        ensures failed { result.failed ≡ 0 }
    {
        FuseDisk {
            disk,
            calls_left: calls,
            failed: 0,
        }
    }

    /// The disk within.
    pub fn into_inner(self) -> D
        ensures { result ≡ self.disk }
    {
        let FuseDisk {
            disk,
            calls_left: _,
            failed: _,
        } = self;
        disk
    }
}

// Counts one call, which fails where no call is left.
fn spend(calls_left: &mut u64, failed: &mut u64) -> Result<(), DeviceFault>
    ensures counted { CountsFailure result failed.old failed.new }
    ensures blown { IsErr result ↔ (calls_left.old ≡ 0) }
    ensures left { calls_left.new ≡ calls_left.old - 1 }
{
    if *calls_left == 0 {
        *failed = failed.saturating_add(1);
        return Err(DeviceFault);
    }
    *calls_left -= 1;
    Ok(())
}

impl<D: Disk> Disk for FuseDisk<D> {
    ghost state = { fused_state D.Disk.state };

    ghost failures = { fused_failures D.Disk.failures };

    ghost honest = { fused_honest D.Disk.honest };

    ghost seen_may_stay = { λ fuse. D.Disk.seen_may_stay fuse.disk };

    fn len(&mut self) -> Result<u64, DeviceFault>
        ensures len { IfOk result (λ n. D.honest self.new.disk
            → n ≡ length (D.state self.old.disk).seen) }
        ensures looks { Looks
            (fused_honest D.honest) (fused_failures D.failures) (fused_state D.state)
            result self.old self.new }
        ensures burns { Burns D.failures result self.old self.new }
    {
        spend(&mut self.calls_left, &mut self.failed)?;
        self.disk.len()
    }

    fn read(&mut self, at: u64, into: &mut [u8]) -> Result<(), DeviceFault>
        requires { at + length into.old ≤ 2 ^ 40 }
        ensures read { OnOk result (D.honest self.new.disk
            → Shows (D.state self.old.disk).seen at into.new) }
        ensures looks { Looks
            (fused_honest D.honest) (fused_failures D.failures) (fused_state D.state)
            result self.old self.new }
        ensures burns { Burns D.failures result self.old self.new }
    {
        spend(&mut self.calls_left, &mut self.failed)?;
        self.disk.read(at, into)
    }

    fn write_at(&mut self, at: u64, bytes: &[u8]) -> Result<(), DeviceFault>
        requires { at + length bytes.now ≤ 2 ^ 40 }
        ensures write { D.honest self.new.disk
            → Writes at bytes.now result (D.state self.old.disk) (D.state self.new.disk) }
        ensures calls { Calls
            (fused_honest D.honest) (fused_failures D.failures) result self.old self.new }
        ensures burns { Burns D.failures result self.old self.new }
    {
        // A blown fuse writes nothing.
        spend(&mut self.calls_left, &mut self.failed)?;
        self.disk.write_at(at, bytes)
    }

    fn sync(&mut self) -> Result<(), DeviceFault>
        ensures sync { D.honest self.new.disk
            → Syncs result (D.state self.old.disk) (D.state self.new.disk) }
        ensures calls { Calls
            (fused_honest D.honest) (fused_failures D.failures) result self.old self.new }
        ensures burns { Burns D.failures result self.old self.new }
    {
        spend(&mut self.calls_left, &mut self.failed)?;
        self.disk.sync()
    }
}
