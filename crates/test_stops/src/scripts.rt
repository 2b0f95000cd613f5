// Scripts that are run, and what an archive holds.
use std::alloc::Global;
use std::io;
use tune_archive::{Archive, TuneStore};
use tune_disk::MemoryDisk;
use tune_scripts::{StreamConsole, run};

// They ask for all that an archive holds. The notes are found by eight of them in layout 1, and by
// nine in layout 2.
const QUESTIONS: &[u8] = b"export\ntitles\nsets\nset-show friday\nset-show Saturday_night\n\
export-set friday\nshow 1\nshow 2\nshow 3\nshow 4\nshow 5\nshow 6\nshow 40\nshow 41\nshow 999999\n\
find notes CDEFGABcd\n";

/// Runs a script over a store, and gives its replies.
pub(crate) fn replies_of<S: TuneStore>(
    alloc: Global,
    script: &[u8],
    store: &mut S,
) -> io::Result<Vec<u8>> {
    let mut replies = Vec::new(alloc);
    let _ = run(alloc, &mut StreamConsole::new(script, &mut replies), store);
    Ok(replies)
}

/// What a store answers that is asked for all that it holds.
pub(crate) fn state_of<S: TuneStore>(alloc: Global, store: &mut S) -> io::Result<Vec<u8>> {
    replies_of(alloc, QUESTIONS, store)
}

/// What the archive of a disk answers that is asked for all that it holds, if it is opened.
pub(crate) fn held(alloc: Global, disk: MemoryDisk) -> io::Result<Option<Vec<u8>>> {
    match Archive::open(alloc, disk) {
        Ok(mut archive) => Ok(Some(state_of(alloc, &mut archive)?)),
        Err(_) => Ok(None),
    }
}

/// The file of an archive that began as this one, and carried out a script.
pub(crate) fn file_after(alloc: Global, start: &[u8], script: &[u8]) -> io::Result<Vec<u8>> {
    let Ok(mut archive) = Archive::open(alloc, MemoryDisk::from_bytes(alloc, start)?) else {
        return Err(io::ErrorKind::InvalidData.into());
    };
    let _ = replies_of(alloc, script, &mut archive)?;
    let disk = archive.into_disk();
    Ok(disk.bytes().to_vec(alloc)?)
}
