// The end of a work.
ghost use Rattle.std.specs.Prelude.{◌≡◌, ◌≢◌, ◌<◌, ◌≤◌, true, false, length, map, max, All, OnOk};
ghost use Rattle.std.specs.Prelude.{MatchResult};
ghost use Rattle.std.specs.List.Sorted.{IsStrictlyIncreasing};
ghost use Rattle.tune_disk.specs.Stops.{SinceThen, LeavesOnly};
ghost use Rattle.tune_journal.specs.Image.{StandsFor, StandsForEither};
ghost use Rattle.tune_journal.specs.Pages.{NamesAll, pages_after};
ghost use Rattle.tune_pages.specs.Faults.{AnswersFinish, CallsDisk};
ghost use Rattle.tune_pages.specs.Kept.{HonestAt, state_at};
ghost use Rattle.tune_pages.specs.Stand.{AllUsed};
ghost use Rattle.tune_pages.specs.Work.{stand, Fits, Falls, page_count_in, used_in, front_in_use};
ghost use Rattle.tune_pages.specs.Work.{IsIdle};
ghost use Rattle.tune_pages.specs.declared.fault.Fault.TheVariants.{Device};

use crate::fault::Fault;
use crate::pages::{Held, Pages};
use crate::work::Work;
use std::mem;
use tune_disk::Disk;
use tune_journal::Changes;

impl<D: Disk> Pages<D> {
    /// Makes the work's changes, all of them or none. A work without a change asks nothing of the
    /// disk. It takes no memory.
    ///
    /// # Errors
    ///
    /// `Device` where the disk failed: it stands for the pages before or after, is to be opened
    /// again, and these pages are closed. `Closed` exactly where they were.
    #[tactic(auto, unfolding(crate::specs::Work::stand_on))]
    pub fn finish(&mut self, work: Work) -> Result<(), Fault>
        requires { Fits self.old work }
        ensures calls { CallsDisk D.honest D.failures result self.old.disk self.new.disk }
        // A stop at any moment of the call leaves the pages from before it or those of the work.
        ensures moments { let old = state_at D.state self.old.disk in
            let new = state_at D.state self.new.disk in
            HonestAt D.honest self.new.disk → self.old.closed ≡ false
            → SinceThen old new (StandsForEither self.old.pages (stand self.old work).pages) }
        // At `Ok` it leaves those of the work alone.
        ensures rest { OnOk result (HonestAt D.honest self.new.disk
            → LeavesOnly (state_at D.state self.new.disk).now
            (StandsFor (stand self.old work).pages)) }
        ensures pages { OnOk result (HonestAt D.honest self.new.disk
            → self.new.pages ≡ (stand self.old work).pages) }
        ensures used { OnOk result (self.new.used ≡ (stand self.old work).used) }
        ensures limit { self.new.limit ≡ self.old.limit }
        ensures idle { IsIdle work → self.new.disk ≡ self.old.disk }
        ensures answer { AnswersFinish result self.old self.new }
    {
        if self.closed {
            return Err(Fault::Closed);
        }
        self.write(&work)?;
        self.mark(&work);
        Ok(())
    }

    // Writes the changes, if there are any.
    fn write(&mut self, work: &Work) -> Result<(), Fault>
        requires open { self.old.closed ≡ false }
        requires fits { Fits self.old work.now }
        ensures calls { CallsDisk D.honest D.failures result self.old.disk self.new.disk }
        ensures moments { let old = state_at D.state self.old.disk in
            let new = state_at D.state self.new.disk in
            let count = page_count_in self.old.pages work.now in
            let next = pages_after self.old.pages count work.now.changes in
            HonestAt D.honest self.new.disk
            → SinceThen old new (StandsForEither self.old.pages next) }
        ensures pages { OnOk result (HonestAt D.honest self.new.disk → self.new.pages
            ≡ pages_after self.old.pages (page_count_in self.old.pages work.now) work.now.changes) }
        ensures rest { OnOk result (HonestAt D.honest self.new.disk
            → LeavesOnly (state_at D.state self.new.disk).now (StandsFor self.new.pages)) }
        ensures count { OnOk result
            (length self.new.pages ≡ page_count_in self.old.pages work.now) }
        ensures used { (self.new.used ≡ self.old.used) × (self.new.limit ≡ self.old.limit) }
        ensures idle { IsIdle work.now → self.new.disk ≡ self.old.disk }
        ensures closed { MatchResult result (λ _. self.new.closed ≡ false)
            (λ fault. (fault ≡ Device) × (self.new.closed ≡ true)) }
    {
        if work.changes.is_empty() {
            match &self.held {
                Held::Open(journal) => {
                    // For the proof.
                    let _ = journal.count();
                }
                _ => unreachable!(),
            }
            return Ok(());
        }
        self.commit(work.frontier, &work.changes)
    }

    // Marks what the work took and freed. The pages below both are not looked at.
    fn mark(&mut self, work: &Work)
        requires falls { Falls work.now.freed.items }
        requires within { work.now.frontier ≤ length self.old.used }
        requires count { work.now.frontier ≤ length self.old.pages }
        requires freed { AllUsed work.now.freed.items
            (front_in_use work.now.frontier self.old.used) }
        requires root { All (λ p. p ≢ 0) work.now.freed.items }
        ensures used { self.new.used ≡ used_in self.old.used work.now }
        ensures disk { (self.new.disk ≡ self.old.disk) × (self.new.pages ≡ self.old.pages) }
        ensures others { (self.new.limit ≡ self.old.limit) × (self.new.closed ≡ self.old.closed) }
    {
        let low = self.low.min(work.frontier);
        self.used.take_front(low, work.frontier);
        self.used.give_back(&work.freed);
        self.low = work.lowest(work.frontier.max(self.low));
    }

    // Commits the changes: at most as many pages as are below the frontier, or as there are.
    fn commit(&mut self, frontier: u32, changes: &Changes) -> Result<(), Fault>
        requires open { self.old.closed ≡ false }
        requires frontier { frontier ≤ length self.old.used }
        requires some { 0 < length changes.now }
        requires below { All (λ c. c.0 < max (length self.old.pages) frontier) changes.now }
        requires names { NamesAll (length self.old.pages) (max (length self.old.pages) frontier)
            changes.now }
        requires rising { IsStrictlyIncreasing (map (λ c. c.0) changes.now) }
        ensures calls { CallsDisk D.honest D.failures result self.old.disk self.new.disk }
        ensures moments { let old = state_at D.state self.old.disk in
            let new = state_at D.state self.new.disk in
            let count = max (length self.old.pages) frontier in
            let next = pages_after self.old.pages count changes.now in
            HonestAt D.honest self.new.disk
            → SinceThen old new (StandsForEither self.old.pages next) }
        ensures pages { let count = max (length self.old.pages) frontier in
            OnOk result (HonestAt D.honest self.new.disk
            → self.new.pages ≡ pages_after self.old.pages count changes.now) }
        ensures rest { OnOk result (HonestAt D.honest self.new.disk
            → LeavesOnly (state_at D.state self.new.disk).now (StandsFor self.new.pages)) }
        ensures count { OnOk result
            (length self.new.pages ≡ max (length self.old.pages) frontier) }
        ensures used { (self.new.used ≡ self.old.used) × (self.new.limit ≡ self.old.limit) }
        ensures closed { MatchResult result (λ _. self.new.closed ≡ false)
            (λ fault. (fault ≡ Device) × (self.new.closed ≡ true)) }
    {
        match mem::replace(&mut self.held, Held::Gone) {
            Held::Open(journal) => {
                let count = journal.count().max(frontier);
                match journal.commit(count, changes) {
                    Ok(journal) => {
                        self.held = Held::Open(journal);
                        self.cached.replace_all(changes);
                        Ok(())
                    }
                    Err(broken) => {
                        self.held = Held::Broken(broken.into_disk());
                        self.closed = true;
                        Err(Fault::Device)
                    }
                }
            }
            _ => unreachable!(),
        }
    }
}
