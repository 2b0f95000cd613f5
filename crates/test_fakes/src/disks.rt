// Calls over a store whose disk fails.
use crate::calls::show_end;
use std::alloc::Global;
use std::fs::Files;
use std::io;
use test_cases::{Answer, Words, no_data, read_bytes};
use test_stores::DiskStore;
use tune_disk::{FuseDisk, MemoryDisk};
use tune_store::{Command, TuneStore};

/// Runs a script over a store whose disk fails after so many calls, and another one after it.
pub(crate) fn show_disk<R: Files + AllocGlobal>(
    rt: &R,
    mut words: Words<'_>,
    answer: &mut Answer,
) -> io::Result<()> {
    let calls = words.long().ok_or(no_data())?;
    let count = words.size().ok_or(no_data())?;
    let next = words.word();
    let script = read_bytes(rt, "disk", "script")?;
    let wanted = wanted_replies(rt, count, next)?;
    let wanted_next = read_bytes(rt, next, "replies")?;
    run_over_disk(rt.alloc(), calls, &script, &wanted, &wanted_next, answer);
    Ok(())
}

// The first replies, and where the store is closed then, that the device failed.
fn wanted_replies<R: Files + AllocGlobal>(rt: &R, count: usize, next: &str) -> io::Result<Vec<u8>> {
    let mut wanted = read_bytes(rt, "disk", "replies")?;
    wanted.truncate(count);
    if next == "closed" {
        wanted.extend_from_slice(b"refused 22 Device\n")?;
    }
    Ok(wanted)
}

// The next run ends, of a store that is closed, at its first line.
fn run_over_disk(
    alloc: Global,
    calls: u64,
    script: &[u8],
    wanted: &[u8],
    wanted_next: &[u8],
    answer: &mut Answer,
) {
    let disk = FuseDisk::new(MemoryDisk::new(alloc), calls);
    let mut store = DiskStore::new(alloc, disk);
    show_end(alloc, &mut store, script, wanted, answer);
    answer.say("; ");
    show_end(alloc, &mut store, b"show 2\nshow 2\n", wanted_next, answer);
    answer.say("; ");
    let refusal = store.apply(&Command::Show(2)).err();
    answer.name(refusal);
}
