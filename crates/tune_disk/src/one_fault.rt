// A disk of which one call fails.
ghost use Rattle.std.specs.Prelude.{◌≡◌, ◌+◌, ◌≤◌, ◌^◌, ◌↔◌, Some, IsErr, IfOk, OnOk, length};
ghost use Rattle.tune_disk.specs.Disk.{CountsFailure, Calls, Looks, Shows, Writes, Syncs};
ghost use Rattle.tune_disk.specs.Wrapped.{FailsOnce, faults_past, one_call_on, faulted_state};
ghost use Rattle.tune_disk.specs.Wrapped.{faulted_honest, faulted_failures};

use crate::{DeviceFault, Disk};
use std::marker::Model;

/// A disk of which one call fails, without a call of the disk within it; all others are passed on.
/// It is honest as that disk is. A clause sees the disk within, and how many calls pass before the
/// fault, or that it is past.
#[derive(Drop)]
pub struct OneFault<D: Disk> {
    disk: D,
    calls_before: Option<u64>,
}

impl<D: Disk> Model for OneFault<D> {
    ghost use Rattle.tune_disk.specs.Inside.WrappedCodes.{faulted_code};
    ghost use Rattle.tune_disk.specs.Wrapped.{Faulted};

    ghost Value = { Faulted D };

    ghost coded = { faulted_code D.code };

    ghost view = { λ fault. record { disk = fault.disk; calls_before = fault.calls_before } };
}

impl<D: Disk> OneFault<D> {
    /// A disk whose call number `call` fails, counted from 0.
    pub fn new(disk: D, call: u64) -> OneFault<D>
        ensures disk { result.disk ≡ disk }
        ensures call { result.calls_before ≡ Some call }
    {
        OneFault {
            disk,
            calls_before: Some(call),
        }
    }

    /// The disk within.
    pub fn into_inner(self) -> D
        ensures { result ≡ self.disk }
    {
        let OneFault {
            disk,
            calls_before: _,
        } = self;
        disk
    }
}

// Counts one call, which fails where its turn has come.
fn count_down(calls_before: &mut Option<u64>) -> Result<(), DeviceFault>
    ensures counted { CountsFailure
        result (faults_past calls_before.old) (faults_past calls_before.new) }
    ensures due { IsErr result ↔ (calls_before.old ≡ Some 0) }
    ensures before { calls_before.new ≡ one_call_on calls_before.old }
{
    match *calls_before {
        None => Ok(()),
        Some(0) => {
            *calls_before = None;
            Err(DeviceFault)
        }
        Some(calls) => {
            *calls_before = Some(calls - 1);
            Ok(())
        }
    }
}

impl<D: Disk> Disk for OneFault<D> {
    ghost state = { faulted_state D.Disk.state };

    ghost failures = { faulted_failures D.Disk.failures };

    ghost honest = { faulted_honest D.Disk.honest };

    ghost seen_may_stay = { λ fault. D.Disk.seen_may_stay fault.disk };

    fn len(&mut self) -> Result<u64, DeviceFault>
        ensures len { IfOk result (λ n. D.honest self.new.disk
            → n ≡ length (D.state self.old.disk).seen) }
        ensures looks { Looks
            (faulted_honest D.honest) (faulted_failures D.failures) (faulted_state D.state)
            result self.old self.new }
        ensures once { FailsOnce D.failures result self.old self.new }
    {
        count_down(&mut self.calls_before)?;
        self.disk.len()
    }

    fn read(&mut self, at: u64, into: &mut [u8]) -> Result<(), DeviceFault>
        requires { at + length into.old ≤ 2 ^ 40 }
        ensures read { OnOk result (D.honest self.new.disk
            → Shows (D.state self.old.disk).seen at into.new) }
        ensures looks { Looks
            (faulted_honest D.honest) (faulted_failures D.failures) (faulted_state D.state)
            result self.old self.new }
        ensures once { FailsOnce D.failures result self.old self.new }
    {
        count_down(&mut self.calls_before)?;
        self.disk.read(at, into)
    }

    fn write_at(&mut self, at: u64, bytes: &[u8]) -> Result<(), DeviceFault>
        requires { at + length bytes.now ≤ 2 ^ 40 }
        ensures write { D.honest self.new.disk
            → Writes at bytes.now result (D.state self.old.disk) (D.state self.new.disk) }
        ensures calls { Calls
            (faulted_honest D.honest) (faulted_failures D.failures) result self.old self.new }
        ensures once { FailsOnce D.failures result self.old self.new }
    {
        // The call that fails writes nothing.
        count_down(&mut self.calls_before)?;
        self.disk.write_at(at, bytes)
    }

    fn sync(&mut self) -> Result<(), DeviceFault>
        ensures sync { D.honest self.new.disk
            → Syncs result (D.state self.old.disk) (D.state self.new.disk) }
        ensures calls { Calls
            (faulted_honest D.honest) (faulted_failures D.failures) result self.old self.new }
        ensures once { FailsOnce D.failures result self.old self.new }
    {
        count_down(&mut self.calls_before)?;
        self.disk.sync()
    }
}
