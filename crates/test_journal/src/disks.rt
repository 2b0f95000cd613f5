// The disk that journals are tried on, and what stands on it.
use crate::images::{image, show_image};
use std::alloc::{AllocError, Global};
use test_cases::Answer;
use tune_disk::{FuseDisk, MemoryDisk, OneFault, StopChoice};
use tune_journal::{Journal, OpenFault};

/// A disk in memory of which calls may fail.
pub(crate) type FaultyDisk = FuseDisk<OneFault<MemoryDisk>>;

/// The number of a call that is never made.
pub(crate) const NEVER: u64 = u64::MAX;

/// More calls than it takes to make a journal of a page, or to open one of a few.
const ENOUGH: u64 = 100;

/// A disk that passes so many calls, but for the one with this number.
pub(crate) fn faulty(disk: MemoryDisk, calls: u64, fault: u64) -> FaultyDisk {
    FuseDisk::new(OneFault::new(disk, fault), calls)
}

/// The disk in memory, without its faults.
pub(crate) fn memory_of(disk: FaultyDisk) -> MemoryDisk {
    disk.into_inner().into_inner()
}

/// How many calls it takes to make a journal, if they are few.
pub(crate) fn calls_of_making(alloc: Global) -> Option<u64> {
    for calls in 0..ENOUGH {
        let disk = faulty(MemoryDisk::new(alloc), calls, NEVER);
        if Journal::make(disk, &image(0)).is_ok() {
            return Some(calls);
        }
    }
    None
}

/// How many calls it takes to open a file, if they are few.
pub(crate) fn calls_of_opening(alloc: Global, file: &[u8]) -> Option<u64> {
    for calls in 0..ENOUGH {
        if is_opened(alloc, file, calls).unwrap_or(false) {
            return Some(calls);
        }
    }
    None
}

// Whether a file is opened on a disk that passes so many calls.
fn is_opened(alloc: Global, file: &[u8], calls: u64) -> Result<bool, AllocError> {
    let disk = MemoryDisk::from_bytes(alloc, file)?;
    Ok(Journal::open(faulty(disk, calls, NEVER)).is_ok())
}

/// Shows the pages of a journal.
pub(crate) fn show_pages(journal: &mut Journal<FaultyDisk>, answer: &mut Answer) {
    for page in 0..journal.count() {
        if page > 0 {
            answer.say(" ");
        }
        show_page(journal, page, answer);
    }
}

/// Shows a page of a journal.
pub(crate) fn show_page(journal: &mut Journal<FaultyDisk>, page: u32, answer: &mut Answer) {
    let mut into = image(0);
    if page >= journal.count() {
        answer.say("no page");
    } else if journal.read(page, &mut into).is_ok() {
        show_image(&into, answer);
    } else {
        answer.say("fault");
    }
}

/// Shows the pages of a journal, each read with those behind it.
pub(crate) fn show_runs(alloc: Global, journal: &mut Journal<FaultyDisk>, answer: &mut Answer) {
    for page in 0..journal.count() {
        if page > 0 {
            answer.say(" ");
        }
        show_run(alloc, journal, page, answer);
    }
}

/// Shows a page of a journal, read with those behind it.
pub(crate) fn show_run(
    alloc: Global,
    journal: &mut Journal<FaultyDisk>,
    page: u32,
    answer: &mut Answer,
) {
    let mut into = image(0);
    if page >= journal.count() {
        answer.say("no page");
    } else if journal.read_in_runs(alloc, page, &mut into).is_ok() {
        show_image(&into, answer);
    } else {
        answer.say("fault");
    }
}

/// Shows a page that was read with another one.
pub(crate) fn show_ahead(journal: &Journal<FaultyDisk>, page: u32, answer: &mut Answer) {
    match journal.ahead(page) {
        Some(held) => {
            let mut into = image(0);
            into.bytes.copy_from_slice(held);
            show_image(&into, answer);
        }
        None => answer.say("none"),
    }
}

/// Shows the pages that a stop leaves, or why what it leaves is not opened.
pub(crate) fn show_left(disk: &MemoryDisk, choice: StopChoice, answer: &mut Answer) {
    match disk.stopped(choice) {
        Ok(left) => show_opened(left, answer),
        Err(_) => answer.name(OpenFault::OutOfMemory),
    }
}

fn show_opened(left: MemoryDisk, answer: &mut Answer) {
    match Journal::open(faulty(left, NEVER, NEVER)) {
        Ok(mut journal) => show_pages(&mut journal, answer),
        Err(refused) => answer.name(refused.why),
    }
}
