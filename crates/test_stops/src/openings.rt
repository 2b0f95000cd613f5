// Openings of what stops leave, which are stopped in their turn.
use crate::files::number_at;
use crate::left_files::{LeftFile, LeftFiles};
use std::alloc::Global;
use std::io;
use tune_archive::Archive;
use tune_disk::{FuseDisk, MemoryDisk};
use tune_journal::OpenFault;

/// How many calls of an opening are tried at most.
const MOST_CALLS_OF_OPENING: u64 = 1_000;

/// The first calls of an opening, over which its faults are spread from one call of the steps to
/// the next. It has no factor in common with the numbers of calls of a commit.
const SPREAD: u64 = 31;

/// An opening of many calls is stopped at each of the first so many, and then at each of so many.
const FIRST_CALLS: u64 = 64;

const CALLS_APART: u64 = 61;

/// How many files that stops of one command leave are opened at most.
const MOST_FILES: usize = 100_000;

/// Where the number of entries of the log stands.
const ENTRIES_OFFSET: usize = 8_196;

/// How a course is tried.
#[derive(Clone, Copy)]
pub(crate) struct Way {
    /// Whether a stop of a step fills, too, and one of an opening.
    pub(crate) fills: bool,
    fills_again: bool,
    /// So many openings are stopped in a row.
    openings: usize,
    /// Where a log has no more entries, they are stopped until nothing new is left.
    few_entries: usize,
    /// Whether an opening is stopped at each of its calls, and not only at its first ones, and some
    /// far apart.
    at_each: bool,
}

impl Way {
    pub(crate) const ONCE: Way = Way {
        fills: false,
        fills_again: false,
        openings: 1,
        few_entries: 0,
        at_each: true,
    };

    pub(crate) const TO_THE_END: Way = Way {
        fills: true,
        fills_again: false,
        openings: usize::MAX,
        few_entries: 0,
        at_each: true,
    };

    pub(crate) const AGAIN: Way = Way {
        fills: true,
        fills_again: true,
        openings: 2,
        few_entries: 3,
        at_each: true,
    };

    pub(crate) const APART: Way = Way {
        fills: true,
        fills_again: false,
        openings: 1,
        few_entries: 0,
        at_each: false,
    };

    // Whether the opening of a file is stopped.
    fn stops(&self, file: &LeftFile) -> bool {
        let entries = number_at(&file.bytes, ENTRIES_OFFSET, 4);
        file.openings < self.openings || entries <= self.few_entries
    }

    // Whether an opening is stopped at this call.
    fn stops_at(&self, call: u64) -> bool {
        self.at_each || call < FIRST_CALLS || call % CALLS_APART == 0
    }
}

// Opens each file of a list, which has to hold one of these states, and puts on the list what is
// left where the opening is stopped, until nothing new comes.
pub(crate) fn reopen_all(
    alloc: Global,
    way: &Way,
    left: &mut LeftFiles,
    states: &[Vec<u8>],
) -> io::Result<bool> {
    for number in 0..MOST_FILES {
        let Some(file) = left.file(number)? else {
            return Ok(true);
        };
        if !file.holds(alloc, states, false)? {
            return Ok(false);
        }
        if way.stops(&file) && !stop_opening(alloc, way, left, &file)? {
            return Ok(false);
        }
    }
    Ok(false)
}

// Stops the opening of a file at one call after another, each time on the disk that the one before
// left; lists what is left, and says whether it is opened in the end.
fn stop_opening(
    alloc: Global,
    way: &Way,
    left: &mut LeftFiles,
    file: &LeftFile,
) -> io::Result<bool> {
    let openings = file.openings.saturating_add(1);
    let mut disk = MemoryDisk::from_bytes(alloc, &file.bytes)?;
    for calls in 0..MOST_CALLS_OF_OPENING {
        if way.stops_at(calls) {
            let Some((back, is_opened)) = open_until(alloc, disk, calls) else {
                return Ok(false);
            };
            disk = back;
            left.add_left(&disk, way.fills_again, openings)?;
            if is_opened {
                return Ok(true);
            }
        }
    }
    Ok(false)
}

// Lists what is left where a program has ended, and the system runs on: the disk shows what was
// written, and not all of it is stable. It is opened until a call fails, and then whole.
pub(crate) fn add_ended(
    alloc: Global,
    way: &Way,
    left: &mut LeftFiles,
    disk: MemoryDisk,
    at: u64,
) -> io::Result<bool> {
    let Some((disk, _)) = open_until(alloc, disk, at % SPREAD) else {
        return Ok(false);
    };
    left.add_left(&disk, way.fills_again, 1)?;
    let Some((disk, is_opened)) = open_until(alloc, disk, MOST_CALLS_OF_OPENING) else {
        return Ok(false);
    };
    left.add_left(&disk, way.fills_again, 1)?;
    Ok(is_opened)
}

// Opens a disk that fails after so many calls, and hands it back, with whether the archive was
// opened; nothing where it was refused otherwise.
fn open_until(alloc: Global, disk: MemoryDisk, calls: u64) -> Option<(MemoryDisk, bool)> {
    match Archive::open(alloc, FuseDisk::new(disk, calls)) {
        Ok(archive) => Some((archive.into_disk().into_inner(), true)),
        Err(refused) if refused.why == OpenFault::Device => {
            Some((refused.disk.into_inner(), false))
        }
        Err(_) => None,
    }
}
