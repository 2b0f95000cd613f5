// Archives of whose disk one call fails, and works again.
use crate::courses::{CLOSED, Course};
use crate::left_files::LeftFiles;
use crate::scripts::{held, replies_of};
use std::alloc::Global;
use std::io;
use tune_archive::{Archive, TuneStore};
use tune_disk::{Disk, FuseDisk, MemoryDisk, OneFault};
use tune_journal::OpenFault;
use tune_scripts::{RunEnd, StreamConsole, run};

/// How many calls of the disk are tried at most.
const MOST_CALLS: u64 = 5_000;

/// How many files that stops leave are opened at most.
const MOST_FILES: usize = 100_000;

/// Fewer calls than these are no steps of an archive.
const FEWEST_CALLS: u64 = 30;

const DEVICE: &[u8] = b"refused 22 Device\n";

const BAD_LINE: &[u8] = b"refused 30 BadLine\n";

/// A disk of which one call fails, over one that is called once more at most than before that.
type Faulty = OneFault<FuseDisk<MemoryDisk>>;

/// What came of one run, or one opening.
#[derive(Clone, Copy)]
enum Fault {
    /// It came to its end before the call that would have failed.
    DidNotCome,
    AsTold,
    Otherwise,
}

/// What came of a run of all steps.
#[derive(Clone, Copy)]
enum Ran {
    /// Each was answered as told.
    Whole,
    /// So many were, the next one that the device failed, and all others as by a closed archive.
    Until(usize),
    Otherwise,
}

// The call, if there is one, whose fault is not told, or leaves another state than that before the
// step or after it: each call of the disk fails once under a run of all steps, those of the opening
// too.
pub(crate) fn fault_steps(alloc: Global, course: &Course) -> io::Result<Option<u64>> {
    for call in 0..MOST_CALLS {
        match fault_at(alloc, course, call)? {
            Fault::AsTold => {}
            Fault::DidNotCome if call >= FEWEST_CALLS => return Ok(None),
            _ => return Ok(Some(call)),
        }
    }
    Ok(Some(MOST_CALLS))
}

// Runs all steps on a disk of which this call fails.
fn fault_at(alloc: Global, course: &Course, call: u64) -> io::Result<Fault> {
    match Archive::open(
        alloc,
        with_fault(MemoryDisk::from_bytes(alloc, &course.start)?, call),
    ) {
        Ok(mut archive) => {
            let ran = run_steps(alloc, course, &mut archive)?;
            let disk = archive.into_disk();
            match ran {
                Ran::Whole => Ok(judge_whole(disk)),
                Ran::Until(step) => judge_disk(alloc, disk, course.in_progress(step)),
                Ran::Otherwise => Ok(Fault::Otherwise),
            }
        }
        Err(refused) if refused.why == OpenFault::Device => {
            judge_disk(alloc, refused.disk, course.at_start())
        }
        Err(_) => Ok(Fault::Otherwise),
    }
}

// Runs all steps as one script, and those behind a fault once more, each by itself.
fn run_steps<S: TuneStore>(alloc: Global, course: &Course, archive: &mut S) -> io::Result<Ran> {
    let script = course.steps.concat(alloc)?;
    let mut reader = script.as_slice();
    let mut replies = Vec::new(alloc);
    let end = run(
        alloc,
        &mut StreamConsole::new(&mut reader, &mut replies),
        archive,
    );
    let (answered, rest) = answered_of(course, &replies);
    if end == RunEnd::Ended && answered == course.steps.len() && rest.is_empty() {
        return Ok(Ran::Whole);
    }
    let behind = answered.saturating_add(1).min(course.steps.len());
    let unread = course.steps[behind..].concat(alloc)?;
    let as_told = end == RunEnd::DeviceFault && rest == DEVICE && reader == unread.as_slice();
    if as_told && is_closed_behind(alloc, course, behind, archive)? {
        Ok(Ran::Until(answered))
    } else {
        Ok(Ran::Otherwise)
    }
}

// How many steps these replies answer, and what else there is of them.
fn answered_of<'a>(course: &Course, mut replies: &'a [u8]) -> (usize, &'a [u8]) {
    let mut answered: usize = 0;
    for reply in &course.replies {
        let Some(others) = replies.strip_prefix(reply.as_slice()) else {
            break;
        };
        replies = others;
        answered = answered.saturating_add(1);
    }
    (answered, replies)
}

// Whether each step from this one on is answered by an archive as where its disk has failed: a bad
// line never reaches the archive, and every other one does.
fn is_closed_behind<S: TuneStore>(
    alloc: Global,
    course: &Course,
    step: usize,
    archive: &mut S,
) -> io::Result<bool> {
    for (step, told) in course.steps.iter().zip(&course.replies).skip(step) {
        let replies = replies_of(alloc, step, archive)?;
        let wanted = if told.as_slice() == BAD_LINE {
            BAD_LINE
        } else {
            CLOSED
        };
        if replies.as_slice() != wanted {
            return Ok(false);
        }
    }
    Ok(true)
}

// A disk of which this call fails. It has room for one call more than come before.
fn with_fault(disk: MemoryDisk, call: u64) -> Faulty {
    OneFault::new(FuseDisk::new(disk, call.saturating_add(1)), call)
}

// What came of a run in which nothing failed: the next call of its disk does.
fn judge_whole(mut disk: Faulty) -> Fault {
    if disk.len().is_err() {
        Fault::DidNotCome
    } else {
        Fault::Otherwise
    }
}

// Whether a disk of which a call failed was not called since, and opens as one of these states, as
// it is and as a stop leaves it.
fn judge_disk(alloc: Global, disk: Faulty, states: &[Vec<u8>]) -> io::Result<Fault> {
    let mut left = LeftFiles::new(alloc);
    if add_uncalled(&mut left, disk)? && left.all_hold(alloc, states, false)? {
        Ok(Fault::AsTold)
    } else {
        Ok(Fault::Otherwise)
    }
}

// Lists what a stop leaves of a disk of which a call failed, and says whether it was not called
// since.
fn add_uncalled(left: &mut LeftFiles, disk: Faulty) -> io::Result<bool> {
    let mut within = disk.into_inner();
    if within.len().is_err() || within.len().is_ok() {
        return Ok(false);
    }
    left.add_left(&within.into_inner(), false, 0)?;
    Ok(true)
}

// The number of the file, if there is one, of which an opening with a fault is not as told. Each
// call fails once of the openings of all files that a stop leaves at any call of the steps; so many
// of these openings at least have to write something.
pub(crate) fn fault_openings(
    alloc: Global,
    course: &Course,
    fewest: u32,
) -> io::Result<Option<u64>> {
    let left = stopped_steps(alloc, course)?;
    let mut recoveries: u32 = 0;
    for number in 0..MOST_FILES {
        let Some(file) = left.file(number)? else {
            return Ok(if recoveries < fewest {
                Some(number as u64)
            } else {
                None
            });
        };
        match fault_opening(alloc, &file.bytes)? {
            None => return Ok(Some(number as u64)),
            Some(false) => {}
            Some(true) => recoveries = recoveries.saturating_add(1),
        }
    }
    Ok(Some(MOST_CALLS))
}

// The files that a stop leaves at any call of the steps.
fn stopped_steps(alloc: Global, course: &Course) -> io::Result<LeftFiles> {
    let mut left = LeftFiles::new(alloc);
    for calls in 0..MOST_CALLS {
        let stopped = course.carry_out(alloc, course.steps.len(), calls)?;
        left.add_left(&stopped.disk, false, 0)?;
        if stopped.answered >= course.steps.len() {
            break;
        }
    }
    Ok(left)
}

// Opens a file again and again, with one call failing each time, then another. Each time the disk
// is handed back, and then opens as it does where none fails. Says whether an opening writes, which
// it does where a stop came within a commit; nothing where it is not as told.
fn fault_opening(alloc: Global, file: &[u8]) -> io::Result<Option<bool>> {
    let Some(state) = held(alloc, MemoryDisk::from_bytes(alloc, file)?)? else {
        return Ok(None);
    };
    let mut states = Vec::new(alloc);
    states.push(state)?;
    let mut left = LeftFiles::new(alloc);
    for call in 0..MOST_CALLS {
        match fault_in_opening(alloc, file, &mut left, call)? {
            Fault::AsTold => {}
            Fault::DidNotCome => {
                let all = left.all_hold(alloc, &states, false)?;
                return Ok(if all { Some(left.has_several()) } else { None });
            }
            Fault::Otherwise => return Ok(None),
        }
    }
    Ok(None)
}

// Opens a file on a disk of which this call fails, and lists what is left.
fn fault_in_opening(
    alloc: Global,
    file: &[u8],
    left: &mut LeftFiles,
    call: u64,
) -> io::Result<Fault> {
    match Archive::open(
        alloc,
        with_fault(MemoryDisk::from_bytes(alloc, file)?, call),
    ) {
        Ok(archive) => Ok(judge_whole(archive.into_disk())),
        Err(refused) if refused.why == OpenFault::Device => {
            if add_uncalled(left, refused.disk)? {
                Ok(Fault::AsTold)
            } else {
                Ok(Fault::Otherwise)
            }
        }
        Err(_) => Ok(Fault::Otherwise),
    }
}
