// What a disk promises.
ghost use Rattle.std.specs.Prelude.{◌≡◌, ◌+◌, ◌^◌, ◌≤◌, ℕ, length, IfOk, OnOk};
ghost use Rattle.tune_disk.specs.Disk.{DiskState, MayLeave, Writes, Syncs, Shows, Calls, Looks};

use thiserror::Error;

/// A call of a disk that failed.
#[derive(Clone, Copy, Debug, PartialEq, Eq, Error)]
#[error("the device failed")]
pub struct DeviceFault;

/// A file on a disk: bytes that are read and written at their offsets, and a sync, after which a
/// stop (a crash or power loss) leaves what was written (this archive's own).
///
/// Between two syncs a stop may leave any bytes where something was written. No call shortens the
/// file. Each call that fails is counted.
pub trait Disk: Drop {
    /// What a read gives, what a stop may leave now, and what it might have left before.
    ghost state: { Self → DiskState };

    /// How often a call has failed.
    ghost failures: { Self → ℕ };

    /// The disk has answered as a disk does, in every call so far. It is known only after the
    /// answers, so it is kept backwards.
    ghost honest: { Self → Type 0 };

    /// The number of bytes of the file.
    fn len(&mut self) -> Result<u64, DeviceFault>
        ensures len { IfOk result (λ n. honest self.new → n ≡ length (state self.old).seen) }
        ensures looks { Looks honest failures state result self.old self.new };

    /// Fills a buffer with the bytes from an offset on, and with zeros past the end of the file. It
    /// ends at or before 2^40. After a fault the buffer holds any bytes.
    fn read(&mut self, at: u64, into: &mut [u8]) -> Result<(), DeviceFault>
        requires { at + length into.old ≤ 2 ^ 40 }
        ensures read { OnOk result (honest self.new → Shows (state self.old).seen at into.new) }
        ensures looks { Looks honest failures state result self.old self.new };

    /// Writes bytes at an offset; a gap between the end of the file and that offset is zeros. It
    /// ends at or before 2^40. After a fault nothing was written, or any bytes stand where these
    /// were to stand.
    fn write_at(&mut self, at: u64, bytes: &[u8]) -> Result<(), DeviceFault>
        requires { at + length bytes.now ≤ 2 ^ 40 }
        ensures write { honest self.new
            → Writes at bytes.now result (state self.old) (state self.new) }
        ensures calls { Calls honest failures result self.old self.new };

    /// Makes what was written stable: a stop then leaves just that. After a fault nothing is more
    /// stable than before.
    fn sync(&mut self) -> Result<(), DeviceFault>
        ensures sync { honest self.new → Syncs result (state self.old) (state self.new) }
        ensures calls { Calls honest failures result self.old self.new };

    /// What a read gives is one of the files that a stop may leave.
    ghost seen_may_stay: { (disk : Self) → honest disk
        → MayLeave (state disk).now (state disk).seen };
}
