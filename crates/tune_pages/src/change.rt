// What a work changes.
ghost use Rattle.std.specs.Prelude.{◌≡◌, ◌<◌, ◌≤◌, ◌+◌, ◌++◌, ℕ, List, [], false, Err, length};
ghost use Rattle.std.specs.Prelude.{IfOk, OnOk, IfSome, IfNone};
ghost use Rattle.tune_journal.specs.ChangeList.{padded_image};
ghost use Rattle.tune_journal.specs.FileOffsets.{block_bytes, most_pages};
ghost use Rattle.tune_pages.specs.Faults.{AnswersWork, free_pages, pages_for};
ghost use Rattle.tune_pages.specs.Inside.NextFree.{IsNextFree};
ghost use Rattle.tune_pages.specs.Stand.{IsUsed, IsFull, IsLeastFree, PutsChain};
ghost use Rattle.tune_pages.specs.Stand.{with_page, without_page, taken, taken_with};
ghost use Rattle.tune_pages.specs.declared.fault.Fault.TheVariants.{FileFull};
ghost use Rattle.tune_pages.specs.Work.{stand, Fits, IsIdle, used_in};

use crate::fault::Fault;
use crate::link::{HEAD, ROOM, head_of, link};
use crate::pages::Pages;
use crate::work::Work;
use tune_disk::Disk;
use tune_journal::PageImage;

impl<D: Disk> Pages<D> {
    /// Takes the least free page, those that this work freed included. It holds zeros.
    ///
    /// # Errors
    ///
    /// `FileFull` exactly where all pages up to the limit are in use; `OutOfMemory` where there is
    /// no memory; `Closed` exactly where the pages are closed. The work is then to be dropped.
    pub fn allocate(&self, work: &mut Work) -> Result<u32, Fault>
        requires { Fits self.now work.old }
        ensures fits { OnOk result (Fits self.now work.new) }
        ensures least { IfOk result (λ page. IsLeastFree (stand self.now work.old).used page) }
        ensures within { IfOk result (λ page. (0 < page) × (page < most_pages)
            × (page ≤ length (stand self.now work.old).pages)) }
        ensures stand { IfOk result (λ page.
            stand self.now work.new ≡ taken page (stand self.now work.old)) }
        ensures answer { AnswersWork result self.now.closed
            (IsFull (stand self.now work.old).used) }
        // There it is `FileFull`, also where there is no memory.
        ensures full { IsFull (stand self.now work.old).used → self.now.closed ≡ false
            → result ≡ Err FileFull }
    {
        self.take_least(work, &[], &[])
    }

    // Takes the least free page, with the bytes of `head` on it, those of `rest` behind them, and
    // zeros behind both.
    fn take_least(&self, work: &mut Work, head: &[u8], rest: &[u8]) -> Result<u32, Fault>
        requires fits { Fits self.now work.old }
        requires size { length head.now + length rest.now ≤ block_bytes }
        ensures fits { OnOk result (Fits self.now work.new) }
        ensures least { IfOk result (λ page. IsLeastFree (stand self.now work.old).used page) }
        ensures within { IfOk result (λ page. (0 < page) × (page < most_pages)
            × (page ≤ length (stand self.now work.old).pages)) }
        ensures stand { IfOk result (λ page. stand self.now work.new
            ≡ taken_with page (padded_image (head.now ++ rest.now)) (stand self.now work.old)) }
        ensures answer { AnswersWork result self.now.closed
            (IsFull (stand self.now work.old).used) }
        ensures full { IsFull (stand self.now work.old).used → self.now.closed ≡ false
            → result ≡ Err FileFull }
    {
        if self.closed {
            return Err(Fault::Closed);
        }
        let page = match self.least_free(work) {
            Some(page) => page,
            None => return Err(Fault::FileFull),
        };
        match work.take(page, head, rest) {
            Ok(()) => Ok(page),
            Err(_) => Err(Fault::OutOfMemory),
        }
    }

    // The least free page, as the work stands; none where all up to the limit are in use.
    fn least_free(&self, work: &Work) -> Option<u32>
        requires { Fits self.now work.now }
        ensures some { IfSome result (λ page. IsNextFree self.now.used work.now page) }
        ensures none { IfNone result (IsFull (used_in self.now.used work.now)) }
    {
        let end = work.end(self.limit);
        let page = self.used.first_free(work.frontier.min(end), end);
        if page < self.limit { Some(page) } else { None }
    }

    /// Frees a page that is in use and not the root.
    ///
    /// # Errors
    ///
    /// `OutOfMemory` where there is no memory; `Closed` exactly where the pages are closed. The
    /// work is then to be dropped.
    pub fn free(&self, work: &mut Work, page: u32) -> Result<(), Fault>
        requires fits { Fits self.now work.old }
        requires used { IsUsed (stand self.now work.old).used page }
        requires root { 0 < page }
        ensures fits { OnOk result (Fits self.now work.new) }
        ensures stand { OnOk result
            (stand self.now work.new ≡ without_page page (stand self.now work.old)) }
        ensures idle { IsIdle work.old → IsIdle work.new }
        ensures answer { AnswersWork result self.now.closed ⊥ }
    {
        if self.closed {
            return Err(Fault::Closed);
        }
        match work.give(page) {
            Ok(()) => Ok(()),
            Err(_) => Err(Fault::OutOfMemory),
        }
    }

    /// Puts an image on a page that is in use.
    ///
    /// # Errors
    ///
    /// `OutOfMemory` where there is no memory; `Closed` exactly where the pages are closed. The
    /// work is then to be dropped.
    pub fn put_page(&self, work: &mut Work, page: u32, image: &PageImage) -> Result<(), Fault>
        requires fits { Fits self.now work.old }
        requires used { IsUsed (stand self.now work.old).used page }
        ensures fits { OnOk result (Fits self.now work.new) }
        ensures stand { OnOk result (stand self.now work.new
            ≡ with_page page image.now.bytes (stand self.now work.old)) }
        ensures answer { AnswersWork result self.now.closed ⊥ }
    {
        if self.closed {
            return Err(Fault::Closed);
        }
        match work.changes.put(page, image) {
            Ok(()) => Ok(()),
            Err(_) => Err(Fault::OutOfMemory),
        }
    }

    /// Takes memory for the images of so many more pages, and for so many bytes of chains of one
    /// page each. The work stays as it is.
    ///
    /// # Errors
    ///
    /// `OutOfMemory` where there is no such memory; `Closed` exactly where the pages are closed.
    pub fn reserve(&self, work: &mut Work, pages: usize, bytes: usize) -> Result<(), Fault>
        requires { Fits self.now work.old }
        ensures work { work.new ≡ work.old }
        ensures answer { AnswersWork result self.now.closed ⊥ }
    {
        if self.closed {
            return Err(Fault::Closed);
        }
        let bytes = bytes.saturating_add(pages.saturating_mul(HEAD));
        match work.changes.reserve(pages, bytes) {
            Ok(()) => Ok(()),
            Err(_) => Err(Fault::OutOfMemory),
        }
    }

    /// Puts bytes on a chain of the least free pages, and gives its first page: 0 for no bytes.
    ///
    /// # Errors
    ///
    /// `FileFull` exactly where fewer pages are free than the chain wants; `OutOfMemory` where
    /// there is no memory; `Closed` exactly where the pages are closed. The work is then to be
    /// dropped.
    pub fn put_chain(&self, work: &mut Work, bytes: &[u8]) -> Result<u32, Fault>
        requires { Fits self.now work.old }
        ensures fits { OnOk result (Fits self.now work.new) }
        ensures chain { IfOk result (λ first. (trail : List ℕ)
            × PutsChain (stand self.now work.old) (stand self.now work.new) first trail bytes.now) }
        ensures none { bytes.now ≡ []
            → IfOk result (λ first. (first ≡ 0) × (work.new ≡ work.old)) }
        ensures answer { AnswersWork result self.now.closed
            (free_pages (stand self.now work.old).used < pages_for (length bytes.now)) }
    {
        if self.closed {
            return Err(Fault::Closed);
        }
        if bytes.is_empty() {
            return Ok(0);
        }
        if bytes.len() <= ROOM {
            return self.take_least(work, &head_of(0, bytes.len() as u16), bytes);
        }
        // Room for its images at once, and for that of a page that names it.
        if work.changes.reserve(bytes.len() / ROOM + 2, 0).is_err() {
            return Err(Fault::OutOfMemory);
        }
        self.put_links(work, bytes)
    }

    // Puts bytes on a chain, a page at a time.
    fn put_links(&self, work: &mut Work, bytes: &[u8]) -> Result<u32, Fault>
        requires open { self.now.closed ≡ false }
        requires fits { Fits self.now work.old }
        requires some { 0 < length bytes.now }
        ensures fits { OnOk result (Fits self.now work.new) }
        ensures chain { IfOk result (λ first. (trail : List ℕ)
            × PutsChain (stand self.now work.old) (stand self.now work.new) first trail bytes.now) }
        ensures answer { AnswersWork result self.now.closed
            (free_pages (stand self.now work.old).used < pages_for (length bytes.now)) }
    {
        let first = self.allocate(work)?;
        let mut page = first;
        let mut at = 0;
        while bytes.len() - at > ROOM {
            let next = self.allocate(work)?;
            self.put_page(work, page, &link(next, &bytes[at..at + ROOM]))?;
            page = next;
            at += ROOM;
        }
        self.put_page(work, page, &link(0, &bytes[at..]))?;
        Ok(first)
    }
}
