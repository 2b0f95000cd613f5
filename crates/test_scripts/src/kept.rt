// What an archive reads again, where pages that it read are kept in memory.
use crate::archives::{ALL_CALLS, calls_of, run_in_memory, run_over_file};
use crate::tunes::{file_of_reels, import_of_tunes};
use std::alloc::Global;
use std::io;
use test_cases::no_data;

/// How many calls a find may make behind an opening: fewer than an export makes, which reads at
/// most 32 pages by each.
const CALLS_OF_FIND: u64 = 50;

/// The replies to a find, and to an export that the disk does not carry to its end.
const FOUND_AND_REFUSED: &[u8] = b"ok find 1\n1777 Reel 1777\nrefused 22 Device\n";

// Whether an archive over this file, of the tunes of the book, is exported twice as the archive in
// memory is.
pub(crate) fn exports_as_in_memory(alloc: Global, file: &[u8]) -> io::Result<bool> {
    let script = b"export\nexport\n";
    let wanted = replies_in_memory(alloc, script)?;
    is_answered(alloc, file, ALL_CALLS, script, &wanted)
}

// The replies of the archive in memory, of the tunes of the book, to a script.
fn replies_in_memory(alloc: Global, script: &[u8]) -> io::Result<Vec<u8>> {
    let import = import_of_tunes(alloc)?;
    let mut replies = Vec::new(alloc);
    if run_in_memory(alloc, import.as_bytes(), script, &mut replies) {
        Ok(replies)
    } else {
        Err(no_data())
    }
}

// Whether an archive of 2,000 reels finds one of them with 50 calls of the disk more than its
// opening takes, which are too few for an export behind it.
pub(crate) fn finds_without_reading_all(alloc: Global) -> io::Result<bool> {
    let file = file_of_reels(alloc)?;
    finds_within(alloc, &file)
}

fn finds_within(alloc: Global, file: &[u8]) -> io::Result<bool> {
    let opening = calls_of(alloc, file, b"", b"")?.all();
    if is_opened_within(alloc, file, opening.saturating_sub(1))? {
        return Ok(false);
    }
    let enough = opening.saturating_add(CALLS_OF_FIND);
    let script = b"find title reel 1777\nexport\n";
    is_answered(alloc, file, enough, script, FOUND_AND_REFUSED)
}

// Whether the archive of a file is opened on a disk of which so many calls pass.
fn is_opened_within(alloc: Global, file: &[u8], most: u64) -> io::Result<bool> {
    let mut replies = Vec::new(alloc);
    let ran = run_over_file(alloc, file, most, b"", &mut replies)?;
    Ok(ran.is_some())
}

// Whether the archive of a file, on a disk of which so many calls pass, answers a script so.
fn is_answered(
    alloc: Global,
    file: &[u8],
    most: u64,
    script: &[u8],
    wanted: &[u8],
) -> io::Result<bool> {
    let mut replies = Vec::new(alloc);
    match run_over_file(alloc, file, most, script, &mut replies)? {
        Some(_) => Ok(replies.as_slice() == wanted),
        None => Err(no_data()),
    }
}
