// The pages of an open archive.
ghost use Rattle.std.specs.Prelude.{◌≡◌, ℕ, ◌<◌, ◌≤◌, false, Some, length, IfOk};
ghost use Rattle.std.specs.Prelude.{true, All, Err, ◌-◌, ◌++◌, replicate, take};
ghost use Rattle.tune_journal.specs.FileOffsets.{block_bytes, most_pages};
ghost use Rattle.tune_journal.specs.Moments.{LeavesPages};
ghost use Rattle.tune_pages.specs.Faults.{AnswersBegin, IsReadFault};
ghost use Rattle.tune_pages.specs.Kept.{HonestAt};
ghost use Rattle.tune_pages.specs.PageLooks.{LooksAt};
ghost use Rattle.tune_pages.specs.Stand.{IsUsed};
ghost use Rattle.tune_pages.specs.Work.{stand, Fits, IsIdle};
ghost use Rattle.tune_pages.specs.declared.fault.Fault.TheVariants.{Device};

use crate::cached::CachedImages;
use crate::fault::Fault;
use crate::page_marks::PageMarks;
use crate::work::Work;
use std::alloc::Global;
use std::collections::VecDeque;
use std::marker::Model;
use tune_disk::Disk;
use tune_journal::{Changes, Journal};

// A journal; its disk alone, once a call of it failed; nothing while a call has it.
#[derive(Drop)]
pub(crate) enum Held<D: Disk> {
    Open(Journal<D>),
    Broken(D),
    Gone,
}

/// The pages of an open archive, of which page 0 is the root. It keeps which of them are in use;
/// the others are free. Once the device failed in a call it is closed, and every call that can be
/// refused answers `Closed`.
#[derive(Drop)]
pub struct Pages<D: Disk> {
    pub(crate) alloc: Global,
    pub(crate) held: Held<D>,
    // of pages as the disk has them
    pub(crate) cached: CachedImages,
    // a mark for each page up to the limit
    pub(crate) used: PageMarks,
    // no page below it is free
    pub(crate) low: u32,
    pub(crate) limit: u32,
    pub(crate) closed: bool,
}

impl<D: Disk> Model for Pages<D> {
    ghost use Rattle.std.specs.Prelude.{◌≡◌, false};
    ghost use Rattle.tune_pages.specs.Inside.Codes.{kept_code};
    ghost use Rattle.tune_pages.specs.Inside.HeldPages.{held_disk, held_pages, IsKept, IsOpen};
    ghost use Rattle.tune_pages.specs.Inside.HeldPages.{AllUsedBelow};
    ghost use Rattle.tune_pages.specs.Inside.Cached.{AreKept};
    ghost use Rattle.tune_pages.specs.Kept.{HonestAt};
    ghost use Rattle.tune_pages.specs.Kept.{Kept};

    ghost Value = { Kept D };

    ghost coded = { kept_code D.code };

    ghost view = { λ p. record {
      disk = held_disk p.held;
      pages = held_pages p.held;
      used = p.used;
      limit = p.limit;
      closed = p.closed;
    } };

    ghost invariant = { λ p.
        IsKept (held_disk p.held) (held_pages p.held) p.used p.limit p.closed
        × (p.closed ≡ false → IsOpen p.held) × AllUsedBelow p.low p.used
        × (p.closed ≡ false → HonestAt D.honest (held_disk p.held)
        → AreKept (held_pages p.held) p.cached) };
}

impl<D: Disk> Pages<D> {
    // The pages of a journal, with these marks.
    pub(crate) fn over(alloc: Global, journal: Journal<D>, used: PageMarks, limit: u32) -> Pages<D>
        requires limit { (1 ≤ limit) × (limit ≤ most_pages) × (length used ≡ limit) }
        requires root { IsUsed used 0 }
        requires below { (p : ℕ) → IsUsed used p → p < length journal.pages }
        requires few { length journal.pages ≤ limit }
        ensures disk { result.disk ≡ Some journal.disk }
        ensures pages { (result.pages ≡ journal.pages) × (result.used ≡ used) }
        ensures limit { (result.limit ≡ limit) × (result.closed ≡ false) }
    {
        let low = used.first_free(0, limit);
        Pages {
            alloc,
            held: Held::Open(journal),
            cached: CachedImages::new(alloc),
            used,
            low,
            limit,
            closed: false,
        }
    }

    /// A work that changes nothing yet. It takes no memory.
    ///
    /// # Errors
    ///
    /// `Closed` exactly where the pages are closed.
    #[tactic(auto, unfolding(crate::specs::Work::stand_on))]
    pub fn begin(&self) -> Result<Work, Fault>
        ensures fits { IfOk result (λ work. Fits self.now work) }
        ensures stand { IfOk result (λ work. stand self.now work
            ≡ record { pages = self.now.pages; used = self.now.used }) }
        ensures idle { IfOk result IsIdle }
        ensures answer { AnswersBegin result self.now.closed }
    {
        if self.closed {
            return Err(Fault::Closed);
        }
        Ok(Work {
            changes: Changes::new(self.alloc),
            frontier: self.low,
            freed: VecDeque::new(self.alloc),
        })
    }

    /// How many pages there may be, the root among them, from 1 to 4,000,000.
    pub fn limit(&self) -> u32
        ensures limit { result ≡ self.now.limit }
        ensures bounds { (1 ≤ result) × (result ≤ most_pages) }
        // There is a mark for each of them.
        ensures marks { length self.now.used ≡ result }
        ensures root { IsUsed self.now.used 0 }
        // Pages in use are there, and there are no more pages than there may be.
        ensures below { self.now.closed ≡ false
            → (p : ℕ) → IsUsed self.now.used p → p < length self.now.pages }
        ensures few { self.now.closed ≡ false → length self.now.pages ≤ result }
        ensures sized { self.now.closed ≡ false → HonestAt D.honest self.now.disk
            → All (λ page. length page ≡ block_bytes) self.now.pages }
    {
        // The journal's count says that each of its pages has the bytes of a block.
        if let Held::Open(journal) = &self.held {
            // For the proof.
            let _ = journal.count();
        }
        self.limit
    }

    /// Changes how many pages there may be, and nothing else: from as many as there are to
    /// 4,000,000. It takes no memory. No work that was begun before is to be changed or finished
    /// after it.
    pub fn set_limit(&mut self, limit: u32)
        requires some { (1 ≤ limit) × (limit ≤ most_pages) }
        requires few { length self.old.pages ≤ limit }
        ensures limit { self.new.limit ≡ limit }
        ensures marks { self.new.used
            ≡ take limit (self.old.used ++ replicate (limit - self.old.limit) false) }
        ensures disk { self.new.disk ≡ self.old.disk }
        ensures pages { (self.new.pages ≡ self.old.pages) × (self.new.closed ≡ self.old.closed) }
    {
        self.used.resize(limit);
        self.low = self.low.min(limit);
        self.limit = limit;
    }

    /// Closes the pages, where the disk showed what cannot be, as a page that has not the form of
    /// what is kept there: an honest disk shows no such page. Gives the fault `Device`, for the
    /// caller to answer.
    pub fn close(&mut self) -> Fault
        requires { HonestAt D.honest self.old.disk → ⊥ }
        ensures fault { result ≡ Device }
        ensures closed { self.new.closed ≡ true }
        ensures disk { self.new.disk ≡ self.old.disk }
        ensures pages { (self.new.pages ≡ self.old.pages) × (self.new.used ≡ self.old.used)
            × (self.new.limit ≡ self.old.limit) }
        ensures looks { LooksAt {T = Unit {0}} D.honest D.failures D.state (Err result)
            self.old self.new }
        ensures answer { self.old.closed ≡ false
            → IsReadFault result self.old.closed self.new.closed }
    {
        self.closed = true;
        Fault::Device
    }

    /// The disk, which stands for the pages where these are not closed.
    pub fn into_disk(self) -> D
        ensures disk { self.disk ≡ Some result }
        // Pages that are not closed are at rest: a stop leaves them alone.
        ensures rest { self.closed ≡ false → LeavesPages D.honest D.state result self.pages }
    {
        let Pages {
            alloc: _,
            held,
            cached: _,
            used: _,
            low: _,
            limit: _,
            closed: _,
        } = self;
        match held {
            Held::Open(journal) => journal.into_disk(),
            Held::Broken(disk) => disk,
            Held::Gone => unreachable!(),
        }
    }
}
