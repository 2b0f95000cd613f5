// Disks that are copied, and the sums of what they show.
ghost use Rattle.std.specs.Prelude.{◌≡◌, ◌+◌, ◌^◌, ◌≤◌, [], List, ℕ, ◌++◌, length, take};
ghost use Rattle.std.specs.Prelude.{IfOk, OnOk};
ghost use Rattle.sha2.specs.Hashers.{Holds256};
ghost use Rattle.sha2.specs.Sha256.{sha256};
ghost use Rattle.tune_disk.specs.Disk.{Shows, Written};
ghost use Rattle.desk_copies.specs.Copies.{IsCopied, IsLookedAt};

use crate::told_bytes::{ByteWork, tell_bytes};
use desk_scenes::Progress;
use sha2::{Digest, Sha256};
use std::alloc::{AllocError, Global};
use tune_disk::{DeviceFault, Disk};

/// How many bytes are copied at once.
const PART: u64 = 65_536;

/// How many bytes a disk has at most.
const LONGEST: u64 = 1_099_511_627_776;

// A part of what a disk shows: `size` bytes from the place `at` on.
#[derive(Clone, Copy)]
struct DiskPart {
    at: u64,
    size: usize,
}

/// Why a disk was not copied, or not summed.
#[derive(Clone, Copy)]
pub enum CopyFault {
    /// The disk that is read failed, or is too long.
    Source,
    /// The disk that is written failed, or had a byte before.
    Target,
    /// There was no memory.
    OutOfMemory,
}

impl From<AllocError> for CopyFault {
    fn from(_error: AllocError) -> CopyFault {
        CopyFault::OutOfMemory
    }
}

/// Copies all that one disk shows to another, on which nothing stands, and syncs that. Gives the
/// SHA-256 of it.
pub fn copy_disk<D: Disk, E: Progress>(
    alloc: Global,
    from: &mut D,
    to: &mut D,
    teller: &mut E,
) -> Result<[u8; 32], CopyFault>
    ensures copied { IfOk result (λ sum. D.honest from.new → D.honest to.new
        → IsCopied (D.state from.old) (D.state to.new) sum) }
    ensures from { IsLookedAt D.honest D.state from.old from.new }
    ensures to { D.honest to.new → D.honest to.old }
{
    let size = size_of(from)?;
    begins_empty(to)?;
    let sum = copy_parts(alloc, from, to, size, teller)?;
    match to.sync() {
        Ok(()) => Ok(sum),
        Err(DeviceFault) => Err(CopyFault::Target),
    }
}

/// The SHA-256 of all that a disk shows.
pub fn sum_of_disk<D: Disk, E: Progress>(
    alloc: Global,
    disk: &mut D,
    teller: &mut E,
) -> Result<[u8; 32], CopyFault>
    ensures summed { IfOk result (λ sum. D.honest disk.new
        → sum ≡ sha256 (D.state disk.old).seen) }
    ensures disk { IsLookedAt D.honest D.state disk.old disk.new }
{
    let size = size_of(disk)?;
    match sum_parts(alloc, disk, size, teller) {
        Ok(sum) => Ok(sum),
        Err(fault) => Err(fault),
    }
}

// How many bytes a disk shows.
fn size_of<D: Disk>(disk: &mut D) -> Result<u64, CopyFault>
    ensures size { IfOk result (λ n. D.honest disk.new → n ≡ length (D.state disk.old).seen) }
    ensures most { IfOk result (λ n. n ≤ 2 ^ 40) }
    ensures disk { IsLookedAt D.honest D.state disk.old disk.new }
{
    match disk.len() {
        Ok(size) if size <= LONGEST => Ok(size),
        _ => Err(CopyFault::Source),
    }
}

// That nothing stands on a disk.
fn begins_empty<D: Disk>(disk: &mut D) -> Result<(), CopyFault>
    ensures empty { OnOk result (D.honest disk.new → (D.state disk.old).seen ≡ []) }
    ensures disk { IsLookedAt D.honest D.state disk.old disk.new }
{
    match disk.len() {
        Ok(0) => Ok(()),
        _ => Err(CopyFault::Target),
    }
}

// Copies so many bytes, part by part, and tells how far it is.
fn copy_parts<D: Disk, E: Progress>(
    alloc: Global,
    from: &mut D,
    to: &mut D,
    size: u64,
    teller: &mut E,
) -> Result<[u8; 32], CopyFault>
    requires { size ≤ 2 ^ 40 }
    ensures copied { IfOk result (λ sum. D.honest from.new → D.honest to.new
        → size ≡ length (D.state from.old).seen → (D.state to.old).seen ≡ []
        → ((D.state to.new).seen ≡ (D.state from.old).seen)
        × (sum ≡ sha256 (D.state from.old).seen)) }
    ensures from { IsLookedAt D.honest D.state from.old from.new }
    ensures to { D.honest to.new → D.honest to.old }
{
    let mut sum = Sha256::new();
    let mut at = 0u64;
    while at < size {
        let some = (size - at).min(PART);
        let part = DiskPart {
            at,
            size: some as usize,
        };
        copy_part(alloc, from, to, &mut sum, part)?;
        at += some;
        tell_bytes(teller, ByteWork::Copy, at, size);
    }
    Ok(sum.finalize())
}

// Copies this part behind what is copied.
fn copy_part<D: Disk>(
    alloc: Global,
    from: &mut D,
    to: &mut D,
    sum: &mut Sha256,
    part: DiskPart,
) -> Result<(), CopyFault>
    requires { part.at + part.size ≤ 2 ^ 40 }
    ensures copied { OnOk result (D.honest from.new → D.honest to.new
        → part.at + part.size ≤ length (D.state from.old).seen
        → (D.state to.old).seen ≡ take part.at (D.state from.old).seen
        → (D.state to.new).seen ≡ take (part.at + part.size) (D.state from.old).seen) }
    ensures summed { OnOk result (D.honest from.new
        → part.at + part.size ≤ length (D.state from.old).seen
        → Holds256 sum.old (take part.at (D.state from.old).seen)
        → Holds256 sum.new (take (part.at + part.size) (D.state from.old).seen)) }
    ensures from { IsLookedAt D.honest D.state from.old from.new }
    ensures to { D.honest to.new → D.honest to.old }
{
    let mut room = vec![in alloc; 0u8; part.size]?;
    match copy_by(from, to, sum, part.at, room.as_mut_slice()) {
        Ok(()) => Ok(()),
        Err(fault) => Err(fault),
    }
}

// Copies as many bytes as there is room for.
fn copy_by<D: Disk>(
    from: &mut D,
    to: &mut D,
    sum: &mut Sha256,
    at: u64,
    room: &mut [u8],
) -> Result<(), CopyFault>
    requires { at + length room.old ≤ 2 ^ 40 }
    ensures size { length room.new ≡ length room.old }
    ensures shown { OnOk result (D.honest from.new → Shows (D.state from.old).seen at room.new) }
    ensures put { OnOk result (D.honest to.new
        → Written at room.new (D.state to.old).seen (D.state to.new).seen) }
    ensures summed { OnOk result ((bytes : List ℕ) → Holds256 sum.old bytes
        → Holds256 sum.new (bytes ++ room.new)) }
    ensures from { IsLookedAt D.honest D.state from.old from.new }
    ensures to { D.honest to.new → D.honest to.old }
{
    let Ok(()) = from.read(at, room) else {
        return Err(CopyFault::Source);
    };
    let Ok(()) = to.write_at(at, room) else {
        return Err(CopyFault::Target);
    };
    sum.update(&*room);
    Ok(())
}

// Sums so many bytes, part by part, and tells how far it is.
fn sum_parts<D: Disk, E: Progress>(
    alloc: Global,
    disk: &mut D,
    size: u64,
    teller: &mut E,
) -> Result<[u8; 32], CopyFault>
    requires { size ≤ 2 ^ 40 }
    ensures summed { IfOk result (λ sum. D.honest disk.new
        → size ≡ length (D.state disk.old).seen → sum ≡ sha256 (D.state disk.old).seen) }
    ensures disk { IsLookedAt D.honest D.state disk.old disk.new }
{
    let mut sum = Sha256::new();
    let mut at = 0u64;
    while at < size {
        let some = (size - at).min(PART);
        let part = DiskPart {
            at,
            size: some as usize,
        };
        sum_part(alloc, disk, &mut sum, part)?;
        at += some;
        tell_bytes(teller, ByteWork::Read, at, size);
    }
    Ok(sum.finalize())
}

// Feeds a sum this part behind what it has.
fn sum_part<D: Disk>(
    alloc: Global,
    disk: &mut D,
    sum: &mut Sha256,
    part: DiskPart,
) -> Result<(), CopyFault>
    requires { part.at + part.size ≤ 2 ^ 40 }
    ensures summed { OnOk result (D.honest disk.new
        → part.at + part.size ≤ length (D.state disk.old).seen
        → Holds256 sum.old (take part.at (D.state disk.old).seen)
        → Holds256 sum.new (take (part.at + part.size) (D.state disk.old).seen)) }
    ensures disk { IsLookedAt D.honest D.state disk.old disk.new }
{
    let mut room = vec![in alloc; 0u8; part.size]?;
    match sum_by(disk, sum, part.at, room.as_mut_slice()) {
        Ok(()) => Ok(()),
        Err(fault) => Err(fault),
    }
}

fn sum_by<D: Disk>(
    disk: &mut D,
    sum: &mut Sha256,
    at: u64,
    room: &mut [u8],
) -> Result<(), CopyFault>
    requires { at + length room.old ≤ 2 ^ 40 }
    ensures size { length room.new ≡ length room.old }
    ensures shown { OnOk result (D.honest disk.new → Shows (D.state disk.old).seen at room.new) }
    ensures summed { OnOk result ((bytes : List ℕ) → Holds256 sum.old bytes
        → Holds256 sum.new (bytes ++ room.new)) }
    ensures disk { IsLookedAt D.honest D.state disk.old disk.new }
{
    let Ok(()) = disk.read(at, room) else {
        return Err(CopyFault::Source);
    };
    sum.update(&*room);
    Ok(())
}
