// What the program does with an archive in a file.
ghost use Rattle.std.specs.Prelude.{◌≡◌, ◌++◌, ◌∷◌, [], codes, false, true, ℕ, string_bytes};
ghost use Rattle.std.specs.Prelude.{IfOk, OnOk};
ghost use Rattle.std.specs.Io.KnownBytes.{Appends};
ghost use Rattle.tune_pages.specs.Kept.{HonestAt};
ghost use Rattle.tune_archive.specs.Shelf.{state_of};
ghost use Rattle.tune_cli.specs.Acts.{OnFile, deeds_in};
ghost use Rattle.tune_cli.specs.Inside.FileDoings.{Does, asking_to};
ghost use Rattle.tune_scripts.specs.Replies.{answer_bytes, line_of};
ghost use Rattle.tune_scripts.specs.Streams.{IsWrite, streams_in};
ghost use Rattle.tune_cli.specs.FileActs.{Makes, Checks, RunsOn, UpgradesOrNot};
ghost use Rattle.tune_cli.specs.ProgramLines.{WritesLine, reason_bytes, status_of_opening};
ghost use Rattle.tune_cli.specs.ProgramLines.{counts_bytes, status_of_answer};

use crate::actions::status;
use std::alloc::Global;
use std::io;
use tune_archive::{Archive, Counts, TuneStore};
use tune_disk::{DeviceFault, Disk, Drive};
use tune_journal::OpenFault;
use tune_scripts::{Console, run, write_answer, write_counts};
use tune_store::{Command, Refusal, Reply};

const DONE: u8 = 0;

const FAILED: u8 = 1;

const NO_ARCHIVE: u8 = 3;

// What the program may do with an archive in a file.
#[derive(Clone, Copy)]
pub(crate) enum FileAction {
    Make,
    Run,
    Check,
    Upgrade,
}

/// What became of an action on a disk.
#[derive(Drop)]
pub struct Done<D: Disk> {
    /// The status of the program.
    pub status: u8,
    /// The disk, handed back.
    pub disk: D,
}

/// Makes an archive in which nothing is yet, on a disk without a byte, and writes `made`; or writes
/// why it was not made. The status is 0; 3 where the disk has a byte; and else 1.
///
/// Where each file that a stop may leave at the start has no byte, a stop at any moment leaves no
/// archive or an empty one.
pub fn make_on<C: Console, D: Disk>(alloc: Global, console: &mut C, disk: D) -> Done<D>
    ensures honest { D.honest result.disk → D.honest disk }
    ensures makes { Makes D.Disk
        (streams_in C.Console console.old console.new) disk result }
{
    match Archive::make(alloc, disk) {
        Ok(archive) => {
            let status = say_made(console);
            let disk = archive.into_disk();
            Done { status, disk }
        }
        Err(refused) => Done {
            status: say_reason(console, refused.why),
            disk: refused.disk,
        },
    }
}

/// Opens the archive of a disk, and writes how much it holds; or writes why it was not opened. The
/// status is 0; 3 where no archive stands there; and else 1.
pub fn check_on<C: Console, D: Disk>(alloc: Global, console: &mut C, disk: D) -> Done<D>
    ensures honest { D.honest result.disk → D.honest disk }
    ensures checks { Checks D.Disk
        (streams_in C.Console console.old console.new) disk result }
{
    match Archive::open(alloc, disk) {
        Ok(archive) => {
            let status = say_held(console, &archive);
            let disk = archive.into_disk();
            Done { status, disk }
        }
        Err(refused) => Done {
            status: say_reason(console, refused.why),
            disk: refused.disk,
        },
    }
}

/// Runs a script on the archive of a disk; or writes why it was not opened. The status is 0 where
/// the script was run to its end; 3 where no archive stands there; and else 1.
///
/// This is what the archive is for: each reply is that of a plain list of tunes and set lists, and
/// a stop (a crash or power loss) at any moment of the call leaves the state after a prefix of the
/// commands, which holds every command that was answered by then.
///
/// The clause `runs` speaks of disks by what these tell (`D.Disk`), of what the reader and the
/// writer tell before and after the call, of the disk that was given, and of the result.
pub fn run_on<C: Console, D: Disk>(alloc: Global, console: &mut C, disk: D) -> Done<D>
    ensures honest { D.honest result.disk → D.honest disk }
    ensures runs { RunsOn D.Disk
        (streams_in C.Console console.old console.new) disk result }
{
    match Archive::open(alloc, disk) {
        Ok(mut archive) => {
            let end = run(alloc, console, &mut archive);
            Done {
                status: status(end),
                disk: archive.into_disk(),
            }
        }
        Err(refused) => Done {
            status: say_reason(console, refused.why),
            disk: refused.disk,
        },
    }
}

/// Brings the archive of a disk to layout 2, by the one command `Upgrade`, and writes its answer;
/// or writes why the archive was not opened. The status is 0 where it is of layout 2 then; 3 where
/// no archive stands there; and else 1.
///
/// A stop at any moment of the call leaves the archive as it was, or the same tunes and set lists
/// in layout 2. An archive of layout 2 is not written to.
pub fn upgrade_on<C: Console, D: Disk>(alloc: Global, console: &mut C, disk: D) -> Done<D>
    ensures honest { D.honest result.disk → D.honest disk }
    ensures upgrades { UpgradesOrNot D.Disk
        (streams_in C.Console console.old console.new) disk result }
{
    match Archive::open(alloc, disk) {
        Ok(mut opened) => {
            let answer = opened.apply(&Command::Upgrade);
            let status = say_answer(console, &answer);
            let disk = opened.into_disk();
            Done { status, disk }
        }
        Err(refused) => Done {
            status: say_reason(console, refused.why),
            disk: refused.disk,
        },
    }
}

// Does it with the archive in the file at a path.
pub(crate) fn on_file<C: Console, D: Disk, T: AllocGlobal + Drive<Disk = D>>(
    drive: &mut T,
    path: &String,
    what: FileAction,
    console: &mut C,
) -> u8
    ensures { let streams = streams_in C.Console console.old console.new in
        OnFile (asking_to what) (string_bytes path.now) (Does D.Disk what streams) streams
        (deeds_in T.Drive drive.old drive.new) result }
{
    match disk_for(drive, path, what) {
        Ok(disk) => {
            let Done { status, disk } = do_on(drive.alloc(), what, console, disk);
            drive.close(path, disk);
            status
        }
        Err(DeviceFault) => say_reason(console, OpenFault::Device),
    }
}

// The disk of the file at a path, which an archive is made on, or stands on.
fn disk_for<D: Disk, T: Drive<Disk = D>>(
    drive: &mut T,
    path: &String,
    what: FileAction,
) -> Result<D, DeviceFault>
    ensures deed { T.Drive.deeds drive.new
        ≡ T.Drive.deeds drive.old ++ asking_to what (string_bytes path.now) result ∷ [] }
    ensures is_new { IfOk result T.Drive.is_new }
{
    match what {
        FileAction::Make => drive.create(path),
        _ => drive.open(path),
    }
}

fn do_on<C: Console, D: Disk>(alloc: Global, what: FileAction, console: &mut C, disk: D) -> Done<D>
    ensures { Does D.Disk what (streams_in C.Console console.old console.new) disk result }
{
    match what {
        FileAction::Make => make_on(alloc, console, disk),
        FileAction::Run => run_on(alloc, console, disk),
        FileAction::Check => check_on(alloc, console, disk),
        FileAction::Upgrade => upgrade_on(alloc, console, disk),
    }
}

// Writes that an archive was made.
fn say_made<C: Console>(console: &mut C) -> u8
    ensures { WritesLine (streams_in C.Console console.old console.new) (codes "made\n") 0 result }
{
    match write_out(console, b"made\n") {
        Ok(()) => DONE,
        Err(_) => FAILED,
    }
}

// Writes the answer to a command.
fn say_answer<C: Console>(console: &mut C, answer: &Result<Reply, Refusal>) -> u8
    ensures { WritesLine (streams_in C.Console console.old console.new) (answer_bytes answer.now)
        (status_of_answer answer.now) result }
{
    let status = match answer {
        Ok(_) => DONE,
        Err(_) => FAILED,
    };
    match write_answer(console, answer) {
        Ok(()) => status,
        Err(_) => FAILED,
    }
}

// Writes how much an archive holds, which is open.
fn say_held<C: Console, D: Disk>(console: &mut C, archive: &Archive<D>) -> u8
    ensures said { archive.now.closed ≡ false → (layout tunes sets : ℕ)
        × WritesLine (streams_in C.Console console.old console.new)
        (line_of layout tunes sets) 0 result }
    ensures held { archive.now.closed ≡ false → HonestAt D.honest archive.now.pages.disk
        → WritesLine (streams_in C.Console console.old console.new)
        (counts_bytes (state_of D.state archive.now)) 0 result }
{
    match archive.counts() {
        Ok(counts) => say_counts(console, counts),
        Err(_) => FAILED,
    }
}

// Writes these numbers.
fn say_counts<C: Console>(console: &mut C, counts: Counts) -> u8
    ensures { WritesLine (streams_in C.Console console.old console.new)
        (line_of counts.layout counts.tunes counts.sets) 0 result }
{
    let Counts {
        layout,
        tunes,
        sets,
    } = counts;
    match write_counts(console, u64::from(layout), tunes as u64, sets as u64) {
        Ok(()) => DONE,
        Err(_) => FAILED,
    }
}

// Writes why an archive was not made, or not opened.
fn say_reason<C: Console>(console: &mut C, why: OpenFault) -> u8
    ensures { WritesLine (streams_in C.Console console.old console.new) (reason_bytes why)
        (status_of_opening why) result }
{
    let (line, status): (&[u8], u8) = match why {
        OpenFault::OutOfMemory => (b"refused 21 OutOfMemory\n", FAILED),
        OpenFault::Device => (b"refused 22 Device\n", FAILED),
        OpenFault::NotArchive => (b"refused 40 NotArchive\n", NO_ARCHIVE),
        OpenFault::Damaged => (b"refused 41 Damaged\n", NO_ARCHIVE),
        OpenFault::NotEmpty => (b"refused 42 NotEmpty\n", NO_ARCHIVE),
    };
    match write_out(console, line) {
        Ok(()) => status,
        Err(_) => FAILED,
    }
}

// Writes a line, and flushes it.
fn write_out<C: Console>(console: &mut C, line: &[u8]) -> io::Result<()>
    ensures bytes { OnOk result
        (Appends (C.output console.old).bytes (C.output console.new).bytes line.now) }
    ensures flushed { OnOk result ((C.output console.new).flushed ≡ true) }
    ensures rest { IsWrite (streams_in C.Console console.old console.new) result }
{
    console.write(line)?;
    console.flush()
}
