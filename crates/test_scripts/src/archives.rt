// Archives on disks that count their calls. One function holds an archive, and what it gives is
// plain: bytes, how a run ended, and numbers of calls.
use crate::disks::{Calls, CountingDisk};
use std::alloc::{AllocError, Global};
use std::io;
use test_cases::no_data;
use tune_archive::{Archive, TuneStore};
use tune_disk::MemoryDisk;
use tune_journal::Refused;
use tune_scripts::{RunEnd, StreamConsole, run};
use tune_store::ListArchive;

/// As many calls of a disk as there can be.
pub(crate) const ALL_CALLS: u64 = u64::MAX;

/// The reply to a script by which the tunes come in.
const TAKEN: &[u8] = b"ok import 1 2000\n";

/// An archive that was opened or made, or not.
type Opened = Result<Archive<CountingDisk>, Refused<CountingDisk>>;

/// How a run ended, and the calls of the disk by then.
#[derive(Clone, Copy)]
pub(crate) struct Ran {
    pub(crate) end: RunEnd,
    pub(crate) calls: Calls,
}

// Opens the archive of a file on a disk of which so many calls pass, runs a script over it, and
// puts the replies behind others; nothing where the archive is not opened.
pub(crate) fn run_over_file(
    alloc: Global,
    file: &[u8],
    most: u64,
    script: &[u8],
    replies: &mut Vec<u8>,
) -> Result<Option<Ran>, AllocError> {
    let disk = CountingDisk::over(MemoryDisk::from_bytes(alloc, file)?, most);
    Ok(run_over_opened(alloc, Archive::open(alloc, disk), script, replies))
}

// The same over the archive of a disk.
pub(crate) fn run_over_disk(
    alloc: Global,
    disk: MemoryDisk,
    script: &[u8],
    replies: &mut Vec<u8>,
) -> Option<Ran> {
    let disk = CountingDisk::over(disk, ALL_CALLS);
    run_over_opened(alloc, Archive::open(alloc, disk), script, replies)
}

// The same over an archive that is made.
pub(crate) fn run_over_made(alloc: Global, script: &[u8], replies: &mut Vec<u8>) -> Option<Ran> {
    let disk = CountingDisk::over(MemoryDisk::new(alloc), ALL_CALLS);
    run_over_opened(alloc, Archive::make(alloc, disk), script, replies)
}

fn run_over_opened(
    alloc: Global,
    opened: Opened,
    script: &[u8],
    replies: &mut Vec<u8>,
) -> Option<Ran> {
    match opened {
        Ok(archive) => Some(run_over_archive(alloc, archive, script, replies)),
        Err(_refused) => None,
    }
}

fn run_over_archive(
    alloc: Global,
    mut archive: Archive<CountingDisk>,
    script: &[u8],
    replies: &mut Vec<u8>,
) -> Ran {
    let end = run_over(alloc, &mut archive, script, replies);
    let disk = archive.into_disk();
    Ran {
        end,
        calls: disk.calls(),
    }
}

// The same over an archive in memory.
pub(crate) fn run_over_list(alloc: Global, script: &[u8], replies: &mut Vec<u8>) -> RunEnd {
    let mut archive = ListArchive::new(alloc);
    run_over(alloc, &mut archive, script, replies)
}

// Runs a script over an archive in memory into which tunes come by another, puts the replies to it
// behind others, and says whether the tunes came in.
pub(crate) fn run_in_memory(
    alloc: Global,
    import: &[u8],
    script: &[u8],
    replies: &mut Vec<u8>,
) -> bool {
    let mut archive = ListArchive::new(alloc);
    let is_taken = takes(alloc, &mut archive, import);
    let _ = run_over(alloc, &mut archive, script, replies);
    is_taken
}

// Runs a script over a store, and puts the replies behind others.
fn run_over<S: TuneStore>(
    alloc: Global,
    store: &mut S,
    script: &[u8],
    replies: &mut Vec<u8>,
) -> RunEnd {
    run(alloc, &mut StreamConsole::new(script, replies), store)
}

// Whether the tunes come into a store by this script.
fn takes<S: TuneStore>(alloc: Global, store: &mut S, import: &[u8]) -> bool {
    let mut replies = Vec::new(alloc);
    let _ = run_over(alloc, store, import, &mut replies);
    replies.as_slice() == TAKEN
}

// The file of a made archive into which tunes come by a script.
pub(crate) fn made_file(alloc: Global, import: &[u8]) -> io::Result<Vec<u8>> {
    let disk = CountingDisk::over(MemoryDisk::new(alloc), ALL_CALLS);
    file_with(alloc, Archive::make(alloc, disk), import)
}

// The file of the archive of a disk into which tunes come by a script.
pub(crate) fn file_of_disk(alloc: Global, disk: MemoryDisk, import: &[u8]) -> io::Result<Vec<u8>> {
    let disk = CountingDisk::over(disk, ALL_CALLS);
    file_with(alloc, Archive::open(alloc, disk), import)
}

fn file_with(alloc: Global, opened: Opened, import: &[u8]) -> io::Result<Vec<u8>> {
    match opened {
        Ok(archive) => file_of_archive(alloc, archive, import),
        Err(_refused) => Err(no_data()),
    }
}

fn file_of_archive(
    alloc: Global,
    mut archive: Archive<CountingDisk>,
    import: &[u8],
) -> io::Result<Vec<u8>> {
    let is_taken = takes(alloc, &mut archive, import);
    let bytes = bytes_of(alloc, archive.into_disk())?;
    if is_taken { Ok(bytes) } else { Err(no_data()) }
}

// The bytes of a disk.
fn bytes_of(alloc: Global, disk: CountingDisk) -> Result<Vec<u8>, AllocError> {
    let disk = disk.into_memory();
    disk.bytes().to_vec(alloc)
}

/// The calls of the disk that opening the archive of a file and running a script make. The replies
/// have to be these.
pub(crate) fn calls_of(
    alloc: Global,
    file: &[u8],
    script: &[u8],
    wanted: &[u8],
) -> io::Result<Calls> {
    let mut replies = Vec::new(alloc);
    match run_over_file(alloc, file, ALL_CALLS, script, &mut replies)? {
        Some(ran) if replies.as_slice() == wanted => Ok(ran.calls),
        _ => Err(no_data()),
    }
}
