// The states of a commit, one after another. Each owns the disk, so nothing else is written between
// two of them.
ghost use Rattle.std.specs.Prelude.{◌≡◌, ◌<◌, All, length, IfOk};
ghost use Rattle.tune_disk.specs.Disk.{Calls};
ghost use Rattle.tune_disk.specs.Stops.{SinceThen};
ghost use Rattle.tune_journal.specs.Held.{disk_of, disk_of_gate};
ghost use Rattle.tune_journal.specs.Image.{StandsFor, StandsForEither, gate_of};
ghost use Rattle.tune_journal.specs.FileOffsets.{gate_closed};
ghost use Rattle.tune_journal.specs.Moments.{LeavesPages};

use crate::ahead::PagesAhead;
use crate::changes::Changes;
use crate::commit::{write_pages, write_synced};
use crate::file_offsets::{GATE_CLOSED, GATE_OFFSET, GATE_OPEN};
use crate::journal::Journal;
use crate::open_fault::Broken;
use std::marker::Model;
use tune_disk::{DeviceFault, Disk};

/// A commit whose log is on the disk, behind a closed gate: a stop leaves the pages from before it.
#[derive(Drop)]
pub struct Logged<D: Disk> {
    pub(crate) disk: D,
    pub(crate) count: u32,
    pub(crate) new_count: u32,
    // pages that were read ahead before the commit; `close` keeps their memory alone
    pub(crate) ahead: PagesAhead,
}

impl<D: Disk> Model for Logged<D> {
    ghost use Rattle.tune_journal.specs.Held.{Staged};
    ghost use Rattle.tune_journal.specs.Inside.Seen.{staged_code, staged, IsSoundLogged};

    ghost Value = { Staged D };

    ghost coded = { staged_code D.code };

    ghost view = { λ s. staged D.state s.disk s.count s.new_count };

    ghost invariant = { λ s. IsSoundLogged D.honest D.state s.disk s.count s.new_count };
}

/// A commit whose gate is open: a stop leaves the pages from after it.
#[derive(Drop)]
pub struct Opened<D: Disk> {
    pub(crate) disk: D,
    pub(crate) new_count: u32,
    // pages that were read ahead before the commit; `close` keeps their memory alone
    pub(crate) ahead: PagesAhead,
}

impl<D: Disk> Model for Opened<D> {
    ghost use Rattle.tune_journal.specs.Held.{Decided};
    ghost use Rattle.tune_journal.specs.Inside.Seen.{decided_code, decided, IsSoundOpened};

    ghost Value = { Decided D };

    ghost coded = { decided_code D.code };

    ghost view = { λ s. decided D.state s.disk s.new_count };

    ghost invariant = { λ s. IsSoundOpened D.honest D.state s.disk s.new_count };
}

/// A commit whose images are in their pages: a stop leaves the pages from after it.
#[derive(Drop)]
pub struct Applied<D: Disk> {
    pub(crate) disk: D,
    pub(crate) new_count: u32,
    // pages that were read ahead before the commit; `close` keeps their memory alone
    pub(crate) ahead: PagesAhead,
}

impl<D: Disk> Model for Applied<D> {
    ghost use Rattle.tune_journal.specs.Held.{Held};
    ghost use Rattle.tune_journal.specs.Inside.Seen.{held_code, held, IsSoundApplied};

    ghost Value = { Held D };

    ghost coded = { held_code D.code };

    ghost view = { λ s. held D.state s.disk s.new_count };

    ghost invariant = { λ s. IsSoundApplied D.honest D.state s.disk s.new_count };
}

impl<D: Disk> Logged<D> {
    /// The second part of a commit: opens the gate.
    ///
    /// # Errors
    ///
    /// `Broken` where the disk failed: its disk stands for the list before or after.
    pub fn open_gate(self) -> Result<Opened<D>, Broken<D>>
        // A stop at any moment of the call leaves the pages from before or from after.
        ensures moments { let old = D.state self.disk in let new = D.state (disk_of_gate result) in
            D.honest (disk_of_gate result)
            → SinceThen old new (StandsForEither self.pages self.next) }
        ensures rest { IfOk result (λ opened.
            LeavesPages D.honest D.state opened.disk opened.pages) }
        ensures pages { IfOk result (λ opened. D.honest opened.disk → opened.pages ≡ self.next) }
        ensures changes { IfOk result (λ opened. D.honest opened.disk
            → opened.changes ≡ self.changes) }
        ensures count { IfOk result (λ opened. length opened.pages ≡ length self.next) }
        ensures calls { Calls D.honest D.failures result self.disk (disk_of_gate result) }
    {
        let Logged {
            mut disk,
            count: _,
            new_count,
            ahead,
        } = self;
        match write_synced(&mut disk, GATE_OFFSET, &[GATE_OPEN]) {
            Ok(()) => Ok(Opened {
                disk,
                new_count,
                ahead,
            }),
            Err(DeviceFault) => Err(Broken { disk }),
        }
    }
}

impl<D: Disk> Opened<D> {
    /// The third part of a commit: writes the images of the log, which holds these changes, to
    /// their pages, and the count.
    ///
    /// # Errors
    ///
    /// `Broken` where the disk failed: its disk stands for the list after.
    pub fn apply(self, changes: &Changes) -> Result<Applied<D>, Broken<D>>
        requires below { All (λ e. e.0 < length self.pages) changes.now }
        requires log { D.honest self.disk → changes.now ≡ self.changes }
        ensures moments { D.honest (disk_of result)
            → SinceThen (D.state self.disk) (D.state (disk_of result)) (StandsFor self.pages) }
        ensures rest { IfOk result (λ applied.
            LeavesPages D.honest D.state applied.disk applied.pages) }
        ensures pages { IfOk result (λ applied. D.honest applied.disk
            → applied.pages ≡ self.pages) }
        ensures count { IfOk result (λ applied. length applied.pages ≡ length self.pages) }
        ensures calls { Calls D.honest D.failures result self.disk (disk_of result) }
    {
        let Opened {
            mut disk,
            new_count,
            ahead,
        } = self;
        match write_pages(&mut disk, new_count, changes) {
            Ok(()) => Ok(Applied {
                disk,
                new_count,
                ahead,
            }),
            Err(DeviceFault) => Err(Broken { disk }),
        }
    }
}

impl<D: Disk> Applied<D> {
    /// The last part of a commit: closes the gate.
    ///
    /// # Errors
    ///
    /// `Broken` where the disk failed: its disk stands for the list after.
    pub fn close(self) -> Result<Journal<D>, Broken<D>>
        ensures moments { D.honest (disk_of result)
            → SinceThen (D.state self.disk) (D.state (disk_of result)) (StandsFor self.pages) }
        ensures rest { IfOk result (λ journal.
            LeavesPages D.honest D.state journal.disk journal.pages) }
        ensures gate { IfOk result (λ journal. D.honest journal.disk
            → gate_of (D.state journal.disk).seen ≡ gate_closed) }
        ensures pages { IfOk result (λ journal. D.honest journal.disk
            → journal.pages ≡ self.pages) }
        ensures count { IfOk result (λ journal. length journal.pages ≡ length self.pages) }
        ensures calls { Calls D.honest D.failures result self.disk (disk_of result) }
    {
        let Applied {
            mut disk,
            new_count,
            ahead,
        } = self;
        match write_synced(&mut disk, GATE_OFFSET, &[GATE_CLOSED]) {
            Ok(()) => Ok(Journal {
                disk,
                count: new_count,
                ahead: ahead.emptied(),
            }),
            Err(DeviceFault) => Err(Broken { disk }),
        }
    }
}
