// A new archive on a disk, filled by a script.
ghost use Rattle.std.specs.Prelude.{◌≡◌, true, false, Ok, IfOk};
ghost use Rattle.tune_store.specs.State.{empty_of};
ghost use Rattle.tune_store.specs.declared.layout.Layout.TheVariants.{Two};
ghost use Rattle.tune_pages.specs.Kept.{HonestAt};
ghost use Rattle.tune_archive.specs.Shelf.{state_of};
ghost use Rattle.desk_loads.specs.Inside.Fillings.{ShowsArchive};
ghost use Rattle.desk_loads.specs.Inside.ScriptConsoles.{HasNoRefusal};
ghost use Rattle.desk_loads.specs.LoadedScripts.{HoldsScript};

use crate::script_console::ScriptConsole;
use memchr::memmem;
use std::alloc::Global;
use tune_archive::{Archive, Closed, Counts};
use tune_changes::loaded_parts;
use tune_disk::Disk;
use tune_journal::OpenFault;
use tune_scripts::{RunEnd, run};
use tune_store::Refusal;
use tune_undo::Part;

/// Why no archive was made of a script.
#[derive(Drop)]
pub(crate) enum Unfilled {
    /// The archive was not made on its disk.
    Archive(OpenFault),
    /// A command was refused.
    Refused(RefusedCommand),
    /// The script was not run to its end.
    Ended(RunEnd),
    /// It was, but what the archive holds then was not told.
    Untold(Refusal),
}

/// A command that was refused.
#[derive(Drop)]
pub(crate) struct RefusedCommand {
    /// On which line of the script it stands.
    pub(crate) line: u64,
    /// The replies to the script so far.
    pub(crate) replies: Vec<u8>,
    /// Where the last of them begins.
    pub(crate) begins: usize,
}

/// What an archive holds that was filled.
#[derive(Drop)]
pub(crate) struct Filled {
    /// How much that is.
    pub(crate) counts: Counts,
    /// The parts of the entry of its load.
    pub(crate) parts: Vec<Part>,
}

/// What came of a script, with the disk.
#[derive(Drop)]
pub(crate) struct Filling<D: Disk> {
    /// The disk that was written.
    pub(crate) disk: D,
    /// What the archive on it holds.
    pub(crate) outcome: Result<Filled, Unfilled>,
}

/// Makes an archive on a disk on which nothing stands, and carries out the commands of a script on
/// it, up to the first that is refused.
pub(crate) fn fill_disk<D: Disk>(alloc: Global, disk: D, script: &[u8]) -> Filling<D>
    ensures { IfOk result.outcome (λ filled. D.honest result.disk → HoldsScript script.now
        (D.state result.disk).now filled.counts filled.parts.items) }
{
    match Archive::make(alloc, disk) {
        Ok(archive) => fill_archive(alloc, archive, script),
        Err(refused) => Filling {
            disk: refused.disk,
            outcome: Err(Unfilled::Archive(refused.why)),
        },
    }
}

fn fill_archive<D: Disk>(alloc: Global, archive: Archive<D>, script: &[u8]) -> Filling<D>
    ensures { archive.closed ≡ false → (HonestAt D.honest archive.pages.disk
        → state_of D.state archive ≡ empty_of Two)
        → IfOk result.outcome (λ filled. D.honest result.disk → HoldsScript script.now
        (D.state result.disk).now filled.counts filled.parts.items) }
{
    let mut archive = archive;
    let mut console = ScriptConsole::new(alloc, script);
    let end = run(alloc, &mut console, &mut archive);
    match whole_run(end, console) {
        Ok(()) => look_over(alloc, archive),
        Err(why) => Filling {
            disk: archive.into_disk(),
            outcome: Err(why),
        },
    }
}

// That a run came to the end of its script, and no command was refused.
fn whole_run(end: RunEnd, console: ScriptConsole<'_>) -> Result<(), Unfilled>
    ensures { IfOk result (λ _. (end ≡ RunEnd.Ended)
        × HasNoRefusal console.entry.replies.bytes.items) }
{
    match end {
        RunEnd::Ended if has_no_refusal(console.replies.bytes.as_slice()) => Ok(()),
        _ => Err(why_unfilled(end, console)),
    }
}

// What an archive holds that was filled, by questions alone; and its disk.
fn look_over<D: Disk>(alloc: Global, archive: Archive<D>) -> Filling<D>
    ensures { IfOk result.outcome (λ filled. ShowsArchive D.Disk archive result.disk filled) }
{
    // For the proof.
    archive.law_of_labels();
    archive.law_of_sets();
    let mut archive = archive;
    let parts = loaded_parts(alloc, &mut archive);
    let counts = archive.counts();
    Filling {
        disk: archive.into_disk(),
        outcome: filled_of(counts, parts),
    }
}

fn filled_of(
    counts: Result<Counts, Closed>,
    parts: Result<Vec<Part>, Refusal>,
) -> Result<Filled, Unfilled>
    ensures { IfOk result (λ filled. (counts ≡ Ok filled.counts) × (parts ≡ Ok filled.parts)) }
{
    match (counts, parts) {
        (Ok(counts), Ok(parts)) => Ok(Filled { counts, parts }),
        (_, Err(refusal)) => Err(Unfilled::Untold(refusal)),
        (Err(_), _) => Err(Unfilled::Untold(Refusal::Closed)),
    }
}

fn why_unfilled(end: RunEnd, console: ScriptConsole<'_>) -> Unfilled {
    let line = console.line();
    if console.replies.is_refused || end == RunEnd::Ended {
        Unfilled::Refused(RefusedCommand {
            line,
            begins: console.replies.begins,
            replies: console.replies.bytes,
        })
    } else {
        Unfilled::Ended(end)
    }
}

// Whether no reply says that a command is refused.
fn has_no_refusal(replies: &[u8]) -> bool
    ensures { result ≡ true → HasNoRefusal replies.now }
{
    memmem::find(replies, b"refused ").is_none()
}
