// Opening a file that a stop may have left.
ghost use Rattle.std.specs.Prelude.{◌≡◌, ◌≢◌, ◌≤◌, ℕ, List, length, IfOk, IfErr, MatchResult};
ghost use Rattle.tune_disk.specs.Stops.{SinceThen};
ghost use Rattle.tune_journal.specs.Held.{disk_of, disk_of_opening};
ghost use Rattle.tune_journal.specs.Image.{StandsFor, gate_of};
ghost use Rattle.tune_journal.specs.Inside.Phases.{CallsIf};
ghost use Rattle.tune_journal.specs.FileOffsets.{gate_open};
ghost use Rattle.tune_journal.specs.Moments.{KeepsEither, LeftOrSame, LeavesPages};
ghost use Rattle.tune_journal.specs.Refusal.{IsRefusedFor, IsOpenReason, CountsFailureWhere};
ghost use Rattle.tune_journal.specs.Refusal.{IsSynced, IsUnwritten};

use crate::ahead::PagesAhead;
use crate::journal::Journal;
use crate::look::{Found, look};
use crate::open_fault::{Broken, OpenFault, Refused, hand_back};
use crate::recover::copy_log;
use crate::states::{Applied, Opened};
use tune_disk::{DeviceFault, Disk};

impl<D: Disk> Opened<D> {
    // As `apply`, with the images that stand in the log.
    pub(crate) fn recover(self, entries: u32) -> Result<Applied<D>, Broken<D>>
        requires few { entries ≤ length self.pages }
        requires entries { D.honest self.disk → length self.changes ≡ entries }
        ensures moments { D.honest (disk_of result)
            → SinceThen (D.state self.disk) (D.state (disk_of result)) (StandsFor self.pages) }
        ensures pages { IfOk result (λ applied. D.honest applied.disk
            → applied.pages ≡ self.pages) }
        ensures calls { CallsIf D.honest D.failures result self.disk (disk_of result) (Unit {0}) }
    {
        let Opened {
            mut disk,
            new_count,
            ahead,
        } = self;
        match copy_log(&mut disk, new_count, entries) {
            Ok(()) => Ok(Applied {
                disk,
                new_count,
                ahead,
            }),
            Err(DeviceFault) => Err(Broken { disk }),
        }
    }

    // Ends a commit that was stopped behind its open gate.
    pub(crate) fn finish(self, entries: u32) -> Result<Journal<D>, Broken<D>>
        requires few { entries ≤ length self.pages }
        requires entries { D.honest self.disk → length self.changes ≡ entries }
        ensures moments { D.honest (disk_of result)
            → SinceThen (D.state self.disk) (D.state (disk_of result)) (StandsFor self.pages) }
        ensures pages { IfOk result (λ journal. D.honest journal.disk
            → journal.pages ≡ self.pages) }
        ensures rest { IfOk result (λ journal.
            LeavesPages D.honest D.state journal.disk journal.pages) }
        ensures calls { CallsIf D.honest D.failures result self.disk (disk_of result) (Unit {0}) }
    {
        self.recover(entries)?.close()
    }
}

impl<D: Disk> Journal<D> {
    /// Opens a file that a stop may have left, and ends the commit that was stopped behind an open
    /// gate.
    ///
    /// # Errors
    ///
    /// `NotArchive` where the file does not begin with the magic and `Damaged` where it does and
    /// stands for no list of pages: nothing was written then. `Device` where the disk failed; on a
    /// disk that answers a second read otherwise than the first, without a failure too.
    pub fn open(disk: D) -> Result<Journal<D>, Refused<D>>
        ensures honest { D.honest (disk_of_opening result) → D.honest disk }
        // A stop at any moment of the call leaves a file that it might have left at the start, or
        // one for the pages of the disk's content,
        ensures leaves { let old = D.state disk in let new = D.state (disk_of_opening result) in
            D.honest (disk_of_opening result) → SinceThen old new (LeftOrSame old) }
        // and so one for the pages before or after, where all that it might have left stood for
        // these.
        ensures moments { let new = D.state (disk_of_opening result) in
            D.honest (disk_of_opening result) → KeepsEither (D.state disk) new }
        ensures pages { IfOk result (λ journal. D.honest journal.disk
            → StandsFor journal.pages (D.state disk).seen) }
        ensures only { IfOk result (λ journal. D.honest journal.disk
            → (pages : List (List ℕ)) → StandsFor pages (D.state disk).seen
            → pages ≡ journal.pages) }
        ensures rest { IfOk result (λ journal.
            LeavesPages D.honest D.state journal.disk journal.pages) }
        // Behind a closed gate the disk was synced, and nothing else.
        ensures synced { IfOk result (λ journal. D.honest journal.disk
            → gate_of (D.state disk).seen ≢ gate_open
            → IsSynced (D.state disk) (D.state journal.disk)) }
        // So nothing is written there, and nothing either where the opening is refused.
        ensures untouched { let old = D.state disk in let new = D.state (disk_of_opening result) in
            D.honest (disk_of_opening result) → gate_of old.seen ≢ gate_open
            → IsUnwritten old new }
        ensures refused { IfErr result (λ refused. D.honest refused.disk
            → IsRefusedFor refused.why (D.state disk) (D.state refused.disk)) }
        ensures reason { IfErr result (λ refused. IsOpenReason refused.why) }
        ensures failures { MatchResult result
            (λ journal. D.failures journal.disk ≡ D.failures disk)
            (λ refused. let honest = D.honest refused.disk in
            CountsFailureWhere honest refused.why (D.failures disk) (D.failures refused.disk)) }
    {
        let mut disk = disk;
        match look(&mut disk) {
            Ok(Found::Closed(count)) => Ok(Journal {
                disk,
                count,
                ahead: PagesAhead::new(),
            }),
            Ok(Found::Open(new_count, entries)) => {
                let opened = Opened {
                    disk,
                    new_count,
                    ahead: PagesAhead::new(),
                };
                match opened.finish(entries) {
                    Ok(journal) => Ok(journal),
                    Err(Broken { disk }) => Err(hand_back(disk, OpenFault::Device)),
                }
            }
            Ok(Found::NotArchive) => Err(hand_back(disk, OpenFault::NotArchive)),
            Ok(Found::Damaged) => Err(hand_back(disk, OpenFault::Damaged)),
            Err(DeviceFault) => Err(hand_back(disk, OpenFault::Device)),
        }
    }
}
