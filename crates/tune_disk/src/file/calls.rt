// The calls of the operating system that a disk over a file makes. Each function makes one call,
// over interruptions and parts, and keeps what it told.
ghost use Rattle.std.specs.Prelude.{◌≡◌, ◌+◌, ◌<◌, ◌≤◌, ◌^◌, ◌∷◌, ◌++◌, [], length, IfOk, OnOk};
ghost use Rattle.std.specs.Prelude.{OnErr, take};
ghost use Rattle.tune_disk.specs.Inside.ToldMore.{IsToldMore, IsToldRead, IsToldTaken};
ghost use Rattle.tune_disk.specs.declared.file.told.Told.TheVariants.{Length, Synced};

use super::told::{Told, tell_read, tell_taken};
use crate::buffers::clear_from;
use http_server::Log;
use std::fs::File;
use std::io;
use std::os::unix::fs::FileExt;

pub(super) fn measure(file: &File, log: &mut Log<u64, Told>) -> io::Result<u64>
    ensures ok { IfOk result (λ n. log.new.items ≡ log.old.items ++ (0, Length n) ∷ []) }
    ensures err { OnErr result (log.new.items ≡ log.old.items) }
{
    let size = file.metadata()?.len();
    *log = log.and(&0, &Told::Length(size));
    Ok(size)
}

/// Reads once, and where the file has ended gives zeros: how many bytes are now there.
pub(super) fn read_part(
    file: &File,
    log: &mut Log<u64, Told>,
    at: u64,
    into: &mut [u8],
) -> io::Result<usize>
    requires some { 0 < length into.old }
    requires fits { at + length into.old ≤ 2 ^ 40 }
    ensures count { IfOk result (λ n. (0 < n) × (n ≤ length into.new)) }
    ensures ok { IfOk result (λ n. IsToldRead at n into.new log.old.items log.new.items) }
    ensures err { OnErr result (log.new.items ≡ log.old.items) }
{
    for _ in 0..u64::MAX {
        match file.read_at(into, at) {
            Ok(0) => {
                *log = log.and(&at, &Told::Ended);
                clear_from(into, 0);
                return Ok(into.len());
            }
            Ok(count) => {
                tell_read(log, at, &into[..count]);
                return Ok(count);
            }
            Err(error) if error.kind() == io::ErrorKind::Interrupted => {}
            Err(error) => return Err(error),
        }
    }
    Err(io::ErrorKind::Interrupted.into())
}

/// Writes once: how many of these bytes the system took.
pub(super) fn write_part(
    file: &File,
    log: &mut Log<u64, Told>,
    at: u64,
    bytes: &[u8],
) -> io::Result<usize>
    requires { 0 < length bytes.now }
    ensures count { IfOk result (λ n. (0 < n) × (n ≤ length bytes.now)) }
    ensures ok { IfOk result (λ n. IsToldTaken (take n bytes.now) log.old.items log.new.items) }
    ensures err { OnErr result (IsToldMore log.old.items log.new.items) }
{
    for _ in 0..u64::MAX {
        match tell_taken(log, at, bytes, file.write_at(bytes, at)) {
            Ok(0) => return Err(io::ErrorKind::WriteZero.into()),
            Ok(count) => return Ok(count),
            Err(error) if error.kind() == io::ErrorKind::Interrupted => {}
            Err(error) => return Err(error),
        }
    }
    Err(io::ErrorKind::Interrupted.into())
}

/// Makes the bytes that were written stable, and with them the length: `fdatasync` leaves out only
/// what reading them back does not need.
pub(super) fn make_stable(file: &File, log: &mut Log<u64, Told>) -> io::Result<()>
    ensures ok { OnOk result (log.new.items ≡ log.old.items ++ (0, Synced) ∷ []) }
    ensures err { OnErr result (log.new.items ≡ log.old.items) }
{
    file.sync_data()?;
    *log = log.and(&0, &Told::Synced);
    Ok(())
}
