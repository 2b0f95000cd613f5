// Archives that are stopped, and what they leave.
use crate::courses::Course;
use crate::left_files::LeftFiles;
use crate::openings::{Way, add_ended, reopen_all};
use std::alloc::Global;
use std::io;
use tune_archive::Archive;
use tune_disk::{FuseDisk, MemoryDisk};

/// How many calls of the disk are tried at most.
const MOST_CALLS: u64 = 5_000;

/// More calls of the disk than all steps make.
const ENOUGH_CALLS: u64 = 1_000_000;

/// Fewer calls than these are no archive at work.
const FEWEST_CALLS: u64 = 3;

// The call, if there is one, at which a stop while an archive is made leaves one that is opened and
// is not as at the start of a course.
pub(crate) fn stop_making(alloc: Global, course: &Course) -> io::Result<Option<u64>> {
    for calls in 0..MOST_CALLS {
        let Err(refused) = Archive::make(alloc, FuseDisk::new(MemoryDisk::new(alloc), calls)) else {
            return Ok(unless_few(calls));
        };
        let mut left = LeftFiles::new(alloc);
        left.add_left(&refused.disk.into_inner(), true, 0)?;
        if !left.all_hold(alloc, course.at_start(), true)? {
            return Ok(Some(calls));
        }
    }
    Ok(Some(MOST_CALLS))
}

// The call, if there is one, at which a stop while the steps are carried out leaves what is neither
// the state before a step nor that after it.
pub(crate) fn stop_steps(alloc: Global, course: &Course, way: &Way) -> io::Result<Option<u64>> {
    let mut step: usize = 0;
    let mut left = LeftFiles::new(alloc);
    for calls in 0..MOST_CALLS {
        let Some(answered) = stop_at(alloc, course, way, &mut left, calls)? else {
            return Ok(Some(calls));
        };
        if answered != step {
            if !reopen_all(alloc, way, &mut left, course.in_progress(step))? {
                return Ok(Some(calls));
            }
            step = answered;
            left = LeftFiles::new(alloc);
        }
        if step >= course.steps.len() {
            return Ok(unless_few(calls));
        }
    }
    Ok(Some(MOST_CALLS))
}

// Stops the steps at a call, lists what is left, and says how many steps were answered; nothing
// where the archive is open behind a fault, or what is left is not opened.
fn stop_at(
    alloc: Global,
    course: &Course,
    way: &Way,
    left: &mut LeftFiles,
    calls: u64,
) -> io::Result<Option<usize>> {
    let stopped = course.carry_out(alloc, course.steps.len(), calls)?;
    left.add_left(&stopped.disk, way.fills, 0)?;
    let answered = stopped.answered;
    if stopped.is_open_after_fault || !add_ended(alloc, way, left, stopped.disk, calls)? {
        return Ok(None);
    }
    Ok(Some(answered))
}

// The end of a sweep after so many calls, which may be too few.
fn unless_few(calls: u64) -> Option<u64> {
    if calls < FEWEST_CALLS {
        Some(calls)
    } else {
        None
    }
}

// The number of steps, if there is one, after which a stop leaves another state than theirs.
pub(crate) fn stop_between(alloc: Global, course: &Course) -> io::Result<Option<u64>> {
    for count in 0..course.states.len() {
        let stopped = course.carry_out(alloc, count, ENOUGH_CALLS)?;
        let mut left = LeftFiles::new(alloc);
        left.add_left(&stopped.disk, true, 0)?;
        if !left.all_hold(alloc, &course.states[count..count + 1], false)? {
            return Ok(Some(count as u64));
        }
    }
    Ok(None)
}
