// Scripts that are carried out where memory may be refused.
use std::alloc::Global;
use std::io;
use std::io::Write;
use tune_archive::Archive;
use tune_disk::{Disk, FuseDisk, MemoryDisk, StopChoice};
use tune_journal::Refused;
use tune_scripts::{StreamConsole, run};
use tune_store::{ListArchive, TuneStore};

/// The end of each piece.
const MARK: &str = "--\n";

/// What stands between the pieces in front and those that ask.
const BETWEEN: &str = "==\n";

/// The pieces of a script: those in front, and those that ask what came of them.
#[derive(Clone, Copy)]
pub(crate) struct Script<'a> {
    front: &'a str,
    questions: &'a str,
}

impl<'a> Script<'a> {
    // The script of an input.
    pub(crate) fn of(input: &'a str) -> Script<'a> {
        let (front, questions) = input.split_once(BETWEEN).unwrap_or((input, ""));
        Script { front, questions }
    }
}

/// Where a disk stops.
#[derive(Clone, Copy)]
pub(crate) struct Stop {
    /// Behind so many calls.
    pub(crate) calls: u64,
    /// What is left of that which was not synced.
    pub(crate) choice: StopChoice,
}

// Carries a script out over an archive in memory.
pub(crate) fn over_list(alloc: Global, script: Script<'_>, told: &mut Vec<u8>) -> io::Result<()> {
    let mut archive = ListArchive::new(alloc);
    carry_out(alloc, script.front, &mut archive, told)?;
    carry_out(alloc, script.questions, &mut archive, told)
}

// Carries a script out over an archive that is made in a file.
pub(crate) fn over_made(alloc: Global, script: Script<'_>, told: &mut Vec<u8>) -> io::Result<()> {
    let left = match Archive::make(alloc, MemoryDisk::new(alloc)) {
        Ok(archive) => left_by(alloc, script.front, archive, told)?,
        Err(refused) => handed_back(refused, told)?,
    };
    ask(alloc, left, script.questions, told)
}

// Carries a script out over the archive of a file, up to a stop.
pub(crate) fn over_file(
    alloc: Global,
    script: Script<'_>,
    file: &[u8],
    stop: Stop,
    told: &mut Vec<u8>,
) -> io::Result<()> {
    let disk = FuseDisk::new(MemoryDisk::from_bytes(alloc, file)?, stop.calls);
    let left = match Archive::open(alloc, disk) {
        Ok(archive) => left_by(alloc, script.front, archive, told)?,
        Err(refused) => handed_back(refused, told)?,
    };
    let left = left.into_inner().stopped(stop.choice)?;
    ask(alloc, left, script.questions, told)
}

// Carries pieces out, and tells what they are answered.
fn carry_out<S: TuneStore>(
    alloc: Global,
    pieces: &str,
    store: &mut S,
    told: &mut Vec<u8>,
) -> io::Result<()> {
    for piece in pieces.split_inclusive(MARK) {
        let mut reader = piece.as_bytes();
        let end = run(
            alloc,
            &mut StreamConsole::new(&mut reader, &mut *told),
            store,
        );
        let left = reader.len();
        write!(told, "== {end:?} {left}\n")?;
    }
    Ok(())
}

// Carries pieces out, and gives the disk that they leave.
fn left_by<D: Disk>(
    alloc: Global,
    pieces: &str,
    mut archive: Archive<D>,
    told: &mut Vec<u8>,
) -> io::Result<D> {
    let carried_out = carry_out(alloc, pieces, &mut archive, told);
    let disk = archive.into_disk();
    match carried_out {
        Ok(()) => Ok(disk),
        Err(error) => Err(error),
    }
}

// Tells why a disk was handed back, and gives it.
fn handed_back<D: Disk>(refused: Refused<D>, told: &mut Vec<u8>) -> io::Result<D> {
    let Refused { disk, why } = refused;
    match write!(told, "== refused {why:?}\n") {
        Ok(()) => Ok(disk),
        Err(error) => Err(error),
    }
}

// Opens a disk, once more where that is refused, and asks.
fn ask(alloc: Global, disk: MemoryDisk, questions: &str, told: &mut Vec<u8>) -> io::Result<()> {
    if let Some(disk) = ask_once(alloc, disk, questions, told)? {
        ask_once(alloc, disk, questions, told)?;
    }
    Ok(())
}

// Opens a disk and asks, or tells why it was handed back, and gives it.
fn ask_once(
    alloc: Global,
    disk: MemoryDisk,
    questions: &str,
    told: &mut Vec<u8>,
) -> io::Result<Option<MemoryDisk>> {
    match Archive::open(alloc, disk) {
        Ok(mut archive) => match ask_archive(alloc, &mut archive, questions, told) {
            Ok(()) => Ok(None),
            Err(error) => Err(error),
        },
        Err(Refused { disk, why }) => {
            let len = disk.bytes().len();
            write!(told, "== refused {why:?} {len}\n")?;
            Ok(Some(disk))
        }
    }
}

// Tells the layout of an archive, and what it is answered who asks.
fn ask_archive(
    alloc: Global,
    archive: &mut Archive<MemoryDisk>,
    questions: &str,
    told: &mut Vec<u8>,
) -> io::Result<()> {
    if let Ok(counts) = archive.counts() {
        write!(told, "== layout {}\n", counts.layout)?;
    }
    carry_out(alloc, questions, archive, told)
}
