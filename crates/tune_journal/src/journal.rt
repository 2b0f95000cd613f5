// A journal, and the commit that changes it.
ghost use Rattle.std.specs.Prelude.{◌≡◌, ◌<◌, ◌≤◌, All, length, IfOk, IfSome, OnOk};
ghost use Rattle.tune_disk.specs.Disk.{Calls, Looks};
ghost use Rattle.tune_disk.specs.Stops.{SinceThen};
ghost use Rattle.tune_journal.specs.Held.{disk_of, disk_of_log};
ghost use Rattle.tune_journal.specs.Image.{StandsFor, StandsForEither, gate_of};
ghost use Rattle.tune_journal.specs.FileOffsets.{block_bytes, gate_closed, most_pages};
ghost use Rattle.tune_journal.specs.Moments.{LeavesPages};
ghost use Rattle.tune_journal.specs.Pages.{NamesAll, page_at, pages_after};

use crate::ahead::PagesAhead;
use crate::changes::{Changes, PageImage};
use crate::commit::write_log;
use crate::file_offsets::page_offset;
use crate::open_fault::Broken;
use crate::states::Logged;
use std::alloc::Global;
use std::marker::Model;
use tune_disk::{DeviceFault, Disk};

/// A list of pages of 4,096 bytes on a disk, in this archive's file format, changed as a whole or
/// not at all.
#[derive(Drop)]
pub struct Journal<D: Disk> {
    pub(crate) disk: D,
    pub(crate) count: u32,
    // what the disk has of some of the pages now
    pub(crate) ahead: PagesAhead,
}

impl<D: Disk> Model for Journal<D> {
    ghost use Rattle.tune_journal.specs.Held.{Held};
    ghost use Rattle.tune_journal.specs.Inside.Seen.{held_code, held, IsSound};

    ghost Value = { Held D };

    ghost coded = { held_code D.code };

    ghost view = { λ j. held D.state j.disk j.count };

    ghost invariant = { λ j. IsSound D.honest D.state j.disk j.count j.ahead };
}

impl<D: Disk> Journal<D> {
    /// The number of pages, from 1 to 4,000,000.
    pub fn count(&self) -> u32
        ensures count { result ≡ length self.now.pages }
        ensures bounds { (1 ≤ result) × (result ≤ most_pages) }
        ensures sized { D.honest self.now.disk
            → All (λ page. length page ≡ block_bytes) self.now.pages }
        // A journal is at rest: a stop leaves its pages alone.
        ensures rest { LeavesPages D.honest D.state self.now.disk self.now.pages }
    {
        self.count
    }

    /// Reads a page of the list.
    ///
    /// # Errors
    ///
    /// `DeviceFault` where the disk failed: `into` then has any bytes, and the journal is as
    /// before.
    pub fn read(&mut self, page: u32, into: &mut PageImage) -> Result<(), DeviceFault>
        requires { page < length self.old.pages }
        ensures page { OnOk result (D.honest self.new.disk
            → into.new.bytes ≡ page_at self.old.pages page) }
        ensures pages { D.honest self.new.disk → self.new.pages ≡ self.old.pages }
        ensures count { length self.new.pages ≡ length self.old.pages }
        ensures looks { Looks D.honest D.failures D.state result self.old.disk self.new.disk }
    {
        self.disk.read(page_offset(page), &mut into.bytes)
    }

    /// Reads a page of the list. After a few pages that stood side by side, up to 31 behind it are
    /// read by the same call of the disk, and stay at hand until the next commit: who reads one
    /// page after another has fewer calls this way. Memory for 32 pages is taken for it once; where
    /// there is none, the page is read alone.
    ///
    /// # Errors
    ///
    /// Those of [`Journal::read`].
    pub fn read_in_runs(
        &mut self,
        alloc: Global,
        page: u32,
        into: &mut PageImage,
    ) -> Result<(), DeviceFault>
        requires { page < length self.old.pages }
        ensures page { OnOk result (D.honest self.new.disk
            → into.new.bytes ≡ page_at self.old.pages page) }
        ensures pages { D.honest self.new.disk → self.new.pages ≡ self.old.pages }
        ensures count { length self.new.pages ≡ length self.old.pages }
        ensures looks { Looks D.honest D.failures D.state result self.old.disk self.new.disk }
    {
        if let Some(held) = self.ahead.page(page) {
            into.bytes.copy_from_slice(held);
            return Ok(());
        }
        let count = self.ahead.next_run(page, self.count);
        if count == 1 {
            return self.read(page, into);
        }
        if self.ahead.fill(alloc, &mut self.disk, page, count)? {
            into.bytes.copy_from_slice(self.ahead.front());
            return Ok(());
        }
        self.disk.read(page_offset(page), &mut into.bytes)
    }

    /// The bytes of a page of the list, where [`Journal::read_in_runs`] read it with another one
    /// since the last commit: as the disk has them, without a call of it. `None` says nothing of
    /// the page.
    pub fn ahead(&self, page: u32) -> Option<&[u8]>
        ensures page { IfSome result (λ bytes. D.honest self.now.disk
            → bytes.now ≡ page_at self.now.pages page) }
        ensures size { IfSome result (λ bytes. length bytes.now ≡ block_bytes) }
        ensures within { IfSome result (λ _. page < length self.now.pages) }
    {
        self.ahead.page(page)
    }

    /// The disk, which stands for the pages.
    pub fn into_disk(self) -> D
        ensures disk { result ≡ self.disk }
        ensures rest { LeavesPages D.honest D.state result self.pages }
    {
        let Journal {
            disk,
            count: _,
            ahead: _,
        } = self;
        disk
    }

    /// Replaces the list of pages by the next, whole or not at all: `new_count` pages, those that
    /// change with their new images.
    ///
    /// # Errors
    ///
    /// `Broken` where the disk failed: its disk stands for the list before or after, and is to be
    /// opened again.
    pub fn commit(self, new_count: u32, changes: &Changes) -> Result<Journal<D>, Broken<D>>
        requires grows { length self.pages ≤ new_count }
        requires most { new_count ≤ most_pages }
        requires some { 0 < length changes.now }
        requires below { All (λ e. e.0 < new_count) changes.now }
        requires names { NamesAll (length self.pages) new_count changes.now }
        // A stop at any moment of the call leaves the pages from before it or those from after it.
        ensures moments { let next = pages_after self.pages new_count changes.now in
            let old = D.state self.disk in let new = D.state (disk_of result) in
            D.honest (disk_of result) → SinceThen old new (StandsForEither self.pages next) }
        // At `Ok` it leaves those from after it alone.
        ensures rest { let next = pages_after self.pages new_count changes.now in
            IfOk result (λ journal. LeavesPages D.honest D.state journal.disk next) }
        ensures pages { IfOk result (λ journal. D.honest journal.disk
            → journal.pages ≡ pages_after self.pages new_count changes.now) }
        ensures count { IfOk result (λ journal. length journal.pages ≡ new_count) }
        // 00 closes the gate.
        ensures gate { IfOk result (λ journal. D.honest journal.disk
            → gate_of (D.state journal.disk).seen ≡ gate_closed) }
        ensures calls { Calls D.honest D.failures result self.disk (disk_of result) }
    {
        self.log(new_count, changes)?
            .open_gate()?
            .apply(changes)?
            .close()
    }

    /// The first part of a commit: writes the changes as a log behind the pages, old and new.
    ///
    /// # Errors
    ///
    /// `Broken` where the disk failed: its disk stands for the list before.
    pub fn log(self, new_count: u32, changes: &Changes) -> Result<Logged<D>, Broken<D>>
        requires grows { length self.pages ≤ new_count }
        requires most { new_count ≤ most_pages }
        requires some { 0 < length changes.now }
        requires below { All (λ e. e.0 < new_count) changes.now }
        requires names { NamesAll (length self.pages) new_count changes.now }
        ensures moments { D.honest (disk_of_log result)
            → SinceThen (D.state self.disk) (D.state (disk_of_log result)) (StandsFor self.pages) }
        ensures rest { IfOk result (λ logged.
            LeavesPages D.honest D.state logged.disk logged.pages) }
        ensures pages { IfOk result (λ logged. D.honest logged.disk → logged.pages ≡ self.pages) }
        ensures changes { IfOk result (λ logged. D.honest logged.disk
            → logged.changes ≡ changes.now) }
        ensures next { IfOk result (λ logged. D.honest logged.disk
            → logged.next ≡ pages_after self.pages new_count changes.now) }
        ensures count { IfOk result (λ logged. length logged.next ≡ new_count) }
        ensures calls { Calls D.honest D.failures result self.disk (disk_of_log result) }
    {
        let Journal {
            mut disk,
            count,
            ahead,
        } = self;
        match write_log(&mut disk, new_count, changes) {
            Ok(()) => Ok(Logged {
                disk,
                count,
                new_count,
                ahead,
            }),
            Err(DeviceFault) => Err(Broken { disk }),
        }
    }
}
