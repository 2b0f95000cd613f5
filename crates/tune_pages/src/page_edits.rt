// A change of pages in progress.
ghost use Rattle.std.specs.Prelude.{◌≡◌, ◌↔◌, ◌<◌, ◌≤◌, ◌+◌, ◌-◌, ◌++◌, ℕ, List, [], All, length};
ghost use Rattle.std.specs.Prelude.{true, false, replicate, take, Err, IfOk, OnOk, IsTrue};
ghost use Rattle.std.specs.Prelude.{MatchResult};
ghost use Rattle.tune_disk.specs.Stops.{SinceThen, LeavesOnly};
ghost use Rattle.tune_journal.specs.FileOffsets.{block_bytes, most_pages};
ghost use Rattle.tune_journal.specs.Image.{StandsFor, StandsForEither};
ghost use Rattle.tune_journal.specs.Pages.{page_at};
ghost use Rattle.tune_pages.specs.Edited.{Edited, IsGoing, stand_of};
ghost use Rattle.tune_pages.specs.Editing.{AltersEdit, Consults, Edits};
ghost use Rattle.tune_pages.specs.Faults.{AnswersBegin, AnswersFinish, CallsDisk};
ghost use Rattle.tune_pages.specs.Faults.{free_pages, pages_for};
ghost use Rattle.tune_pages.specs.Kept.{HonestAt, state_at};
ghost use Rattle.tune_pages.specs.Stand.{IsUsed, IsFull, IsLeastFree, HasChain, HasSomeChain};
ghost use Rattle.tune_pages.specs.Stand.{PutsChain, taken, with_page, without_page, without_pages};
ghost use Rattle.tune_pages.specs.declared.fault.Fault.TheVariants.{Closed, Device, OutOfMemory};

use crate::fault::Fault;
use crate::laws::law_of_works;
use crate::pages::Pages;
use crate::work::Work;
use std::alloc::Global;
use std::marker::Model;
use std::mem;
use tune_disk::Disk;
use tune_journal::PageImage;

/// A change of pages in progress: pages, and a [`Work`] on them that fits them. It is begun,
/// altered and finished. A call that is refused ends it, and so does `finish`; one that has ended
/// answers `Closed` to every call, until it is begun again. Dropped, it changes nothing.
#[derive(Drop)]
pub struct Edit<D: Disk> {
    pages: Pages<D>,
    work: Work,
    live: bool,
}

impl<D: Disk> Model for Edit<D> {
    ghost use Rattle.std.specs.Prelude.{◌≡◌, true};
    ghost use Rattle.tune_pages.specs.Edited.{Edited};
    ghost use Rattle.tune_pages.specs.Inside.Codes.{edited_code};
    ghost use Rattle.tune_pages.specs.Progress.{IsInProgress};
    ghost use Rattle.tune_pages.specs.Work.{stand};

    ghost Value = { Edited D };

    ghost coded = { edited_code D.code };

    ghost view = { λ e. record { base = e.pages; next = stand e.pages e.work; live = e.live } };

    ghost invariant = { λ e. e.live ≡ true → IsInProgress e.pages e.work };
}

impl<D: Disk> Edit<D> {
    /// These pages, with no change begun on them.
    pub fn over(pages: Pages<D>) -> Edit<D>
        ensures base { result.base ≡ pages }
        ensures ended { result.live ≡ false }
    {
        let work = Work::none(pages.alloc);
        Edit {
            pages,
            work,
            live: false,
        }
    }

    /// Begins a change that changes nothing yet, in the place of the one there, which is dropped.
    /// It takes no memory.
    ///
    /// # Errors
    ///
    /// `Closed` exactly where the pages are closed.
    pub fn begin(&mut self) -> Result<(), Fault>
        ensures base { self.new.base ≡ self.old.base }
        ensures next { OnOk result (self.new.next ≡ stand_of self.old.base) }
        ensures live { MatchResult result (λ _. self.new.live ≡ true)
            (λ _. self.new.live ≡ false) }
        ensures answer { AnswersBegin result self.old.base.closed }
    {
        self.live = false;
        self.work = self.pages.begin()?;
        self.live = true;
        Ok(())
    }

    /// Drops the change: nothing was changed.
    pub fn end(&mut self)
        ensures base { self.new.base ≡ self.old.base }
        ensures ended { self.new.live ≡ false }
    {
        self.live = false;
        self.work = Work::none(self.pages.alloc);
    }

    /// Makes the change, whole or not at all, and ends it. One that changes no page asks nothing of
    /// the disk. It takes no memory.
    ///
    /// # Errors
    ///
    /// `Device` where the disk failed: it stands for the pages before or after, is to be opened
    /// again, and the pages are closed. `Closed` exactly where the change had ended.
    pub fn finish(&mut self) -> Result<(), Fault>
        ensures calls { CallsDisk D.honest D.failures result
            self.old.base.disk self.new.base.disk }
        // A stop at any moment of the call leaves the pages from before it or those of the change.
        ensures moments { let old = state_at D.state self.old.base.disk in
            let new = state_at D.state self.new.base.disk in
            HonestAt D.honest self.new.base.disk → self.old.live ≡ true
            → SinceThen old new (StandsForEither self.old.base.pages self.old.next.pages) }
        // At `Ok` it leaves those of the change alone.
        ensures rest { OnOk result (HonestAt D.honest self.new.base.disk
            → LeavesOnly (state_at D.state self.new.base.disk).now
            (StandsFor self.old.next.pages)) }
        ensures pages { OnOk result (HonestAt D.honest self.new.base.disk
            → self.new.base.pages ≡ self.old.next.pages) }
        ensures used { OnOk result (self.new.base.used ≡ self.old.next.used) }
        ensures limit { self.new.base.limit ≡ self.old.base.limit }
        ensures ended { self.new.live ≡ false }
        ensures shut { self.old.live ≡ false → (result ≡ Err Closed)
            × (self.new.base ≡ self.old.base) }
        ensures answer { self.old.live ≡ true
            → AnswersFinish result self.old.base self.new.base }
    {
        if !self.live {
            return Err(Fault::Closed);
        }
        self.live = false;
        let work = mem::replace(&mut self.work, Work::none(self.pages.alloc));
        self.pages.finish(work)
    }

    /// The pages. A change that is in progress is dropped.
    pub fn into_pages(self) -> Pages<D>
        ensures { result ≡ self.base }
    {
        let Edit {
            pages,
            work: _,
            live: _,
        } = self;
        pages
    }

    /// What takes memory for the pages.
    pub fn alloc(&self) -> Global {
        self.pages.alloc
    }

    /// What always holds of a change that goes on. It does nothing.
    pub fn law_of_pages(&self)
        ensures { self.now.live ≡ true → IsGoing self.now }
    {
        // For the proof.
        law_of_works();
        let _live = self.live;
    }

    /// Whether the change goes on, for a caller that may have nothing else to ask of it.
    ///
    /// # Errors
    ///
    /// `Closed` exactly where it has ended.
    pub fn check(&self) -> Result<(), Fault>
        ensures { AltersEdit result ⊥ self.now self.now }
    {
        if self.live {
            Ok(())
        } else {
            Err(Fault::Closed)
        }
    }

    /// Ends a change for which its caller has no memory, and gives the fault to answer.
    pub fn refuse(&mut self) -> Fault
        ensures alters { AltersEdit {T = Unit {0}} (Err result) ⊥ self.old self.new }
        ensures fault { self.old.live ≡ true → result ≡ OutOfMemory }
    {
        if !self.live {
            return Fault::Closed;
        }
        self.live = false;
        Fault::OutOfMemory
    }

    /// Closes the pages, where the disk showed what cannot be, as a page that has not the form of
    /// what is kept there: an honest disk shows no such page. Gives the fault to answer, `Device`
    /// where the change goes on.
    pub fn close(&mut self) -> Fault
        requires { HonestAt D.honest self.old.base.disk → ⊥ }
        ensures consults { Consults {T = Unit {0}} D.Disk (Err result) self.old self.new }
        ensures disk { self.new.base.disk ≡ self.old.base.disk }
        ensures fault { self.old.live ≡ true → result ≡ Device }
    {
        if !self.live {
            return Fault::Closed;
        }
        self.live = false;
        self.pages.close()
    }

    /// How many pages there may be, the root among them, from 1 to 4,000,000.
    pub fn limit(&self) -> u32
        ensures limit { result ≡ self.now.base.limit }
        ensures bounds { (1 ≤ result) × (result ≤ most_pages) }
        // There is a mark for each of them.
        ensures marks { length self.now.base.used ≡ result }
        ensures root { IsUsed self.now.base.used 0 }
        // Pages in use are there, and there are no more pages than there may be.
        ensures below { self.now.base.closed ≡ false
            → (p : ℕ) → IsUsed self.now.base.used p → p < length self.now.base.pages }
        ensures few { self.now.base.closed ≡ false → length self.now.base.pages ≤ result }
        ensures sized { self.now.base.closed ≡ false → HonestAt D.honest self.now.base.disk
            → All (λ page. length page ≡ block_bytes) self.now.base.pages }
    {
        self.pages.limit()
    }

    /// Changes how many pages there may be, and nothing else: from as many as there are to
    /// 4,000,000. A change in progress is dropped. It takes no memory.
    pub fn set_limit(&mut self, limit: u32)
        requires some { (1 ≤ limit) × (limit ≤ most_pages) }
        requires few { length self.old.base.pages ≤ limit }
        ensures limit { self.new.base.limit ≡ limit }
        ensures marks { self.new.base.used
            ≡ take limit (self.old.base.used ++ replicate (limit - self.old.base.limit) false) }
        ensures disk { self.new.base.disk ≡ self.old.base.disk }
        ensures pages { (self.new.base.pages ≡ self.old.base.pages)
            × (self.new.base.closed ≡ self.old.base.closed) }
        ensures ended { self.new.live ≡ false }
    {
        self.live = false;
        self.pages.set_limit(limit);
    }

    /// Takes the least free page, those that this change freed included. It holds zeros.
    ///
    /// # Errors
    ///
    /// `FileFull` only where all pages up to the limit are in use; `OutOfMemory`; `Closed`.
    pub fn allocate(&mut self) -> Result<u32, Fault>
        ensures least { IfOk result (λ page. IsLeastFree self.old.next.used page) }
        ensures within { IfOk result (λ page. (0 < page) × (page < most_pages)
            × (page ≤ length self.old.next.pages)) }
        ensures next { IfOk result (λ page. self.new.next ≡ taken page self.old.next) }
        ensures alters { AltersEdit result (IsFull self.old.next.used) self.old self.new }
    {
        if !self.live {
            return Err(Fault::Closed);
        }
        self.live = false;
        let page = self.pages.allocate(&mut self.work)?;
        self.live = true;
        Ok(page)
    }

    /// Frees a page that is in use and not the root.
    ///
    /// # Errors
    ///
    /// `OutOfMemory`; `Closed`.
    pub fn free(&mut self, page: u32) -> Result<(), Fault>
        requires used { IsUsed self.old.next.used page }
        requires root { 0 < page }
        ensures next { OnOk result (self.new.next ≡ without_page page self.old.next) }
        ensures alters { AltersEdit result ⊥ self.old self.new }
    {
        if !self.live {
            return Err(Fault::Closed);
        }
        self.live = false;
        self.pages.free(&mut self.work, page)?;
        self.live = true;
        Ok(())
    }

    /// Puts an image on a page that is in use.
    ///
    /// # Errors
    ///
    /// `OutOfMemory`; `Closed`.
    pub fn put_page(&mut self, page: u32, image: &PageImage) -> Result<(), Fault>
        requires { IsUsed self.old.next.used page }
        ensures next { OnOk result
            (self.new.next ≡ with_page page image.now.bytes self.old.next) }
        ensures alters { AltersEdit result ⊥ self.old self.new }
    {
        if !self.live {
            return Err(Fault::Closed);
        }
        self.live = false;
        self.pages.put_page(&mut self.work, page, image)?;
        self.live = true;
        Ok(())
    }

    /// Takes memory for the images of so many more pages, and for so many bytes of chains of one
    /// page each. The change stays as it is.
    ///
    /// # Errors
    ///
    /// `OutOfMemory`; `Closed`.
    pub fn reserve(&mut self, pages: usize, bytes: usize) -> Result<(), Fault>
        ensures same { OnOk result (self.new ≡ self.old) }
        ensures alters { AltersEdit result ⊥ self.old self.new }
    {
        if !self.live {
            return Err(Fault::Closed);
        }
        self.live = false;
        self.pages.reserve(&mut self.work, pages, bytes)?;
        self.live = true;
        Ok(())
    }

    /// Puts bytes on a chain of the least free pages, and gives its first page: 0 for no bytes.
    ///
    /// # Errors
    ///
    /// `FileFull` only where fewer pages are free than the chain wants; `OutOfMemory`; `Closed`.
    pub fn put_chain(&mut self, bytes: &[u8]) -> Result<u32, Fault>
        ensures chain { IfOk result (λ first. (trail : List ℕ)
            × PutsChain self.old.next self.new.next first trail bytes.now) }
        ensures none { bytes.now ≡ []
            → IfOk result (λ first. (first ≡ 0) × (self.new ≡ self.old)) }
        ensures alters { AltersEdit result
            (free_pages self.old.next.used < pages_for (length bytes.now)) self.old self.new }
    {
        if !self.live {
            return Err(Fault::Closed);
        }
        self.live = false;
        let first = self.pages.put_chain(&mut self.work, bytes)?;
        self.live = true;
        Ok(first)
    }

    /// Whether a page is in use, as the change makes it. Of one that has ended none is.
    pub fn in_use(&self, page: u32) -> bool
        ensures { IsTrue result ↔ (self.now.live ≡ true) × IsUsed self.now.next.used page }
    {
        self.live && self.pages.in_use(&self.work, page)
    }

    /// Whether this was asked of the page before, as of one of the last. Who reads a chain that is
    /// seldom read again keeps its images where its first page is asked for again.
    pub fn is_asked_again(&mut self, page: u32) -> bool
        ensures { self.new ≡ self.old }
    {
        self.pages.is_asked_again(page)
    }

    /// Puts the image of a page that is in use, as the change makes it, in the place of `image`.
    ///
    /// # Errors
    ///
    /// `Device` where the disk failed: the pages are then closed. `Closed`. `image` is then any.
    pub fn read_page_into(&mut self, page: u32, image: &mut PageImage) -> Result<(), Fault>
        requires { IsUsed self.old.next.used page }
        ensures image { OnOk result (HonestAt D.honest self.new.base.disk
            → image.new.bytes ≡ page_at self.old.next.pages page) }
        ensures consults { Consults D.Disk result self.old self.new }
    {
        if !self.live {
            return Err(Fault::Closed);
        }
        self.live = false;
        self.pages.read_page_into(&self.work, page, image)?;
        self.live = true;
        Ok(())
    }

    /// The image of a page that is in use, as the change makes it.
    ///
    /// # Errors
    ///
    /// Those of [`Edit::read_page_into`].
    pub fn read_page(&mut self, page: u32) -> Result<PageImage, Fault>
        requires { IsUsed self.old.next.used page }
        ensures image { IfOk result (λ image. HonestAt D.honest self.new.base.disk
            → image.bytes ≡ page_at self.old.next.pages page) }
        ensures consults { Consults D.Disk result self.old self.new }
    {
        let mut image = PageImage::blank();
        match self.read_page_into(page, &mut image) {
            Ok(()) => Ok(image),
            Err(fault) => Err(fault),
        }
    }

    /// The bytes of the chain that begins at `first`, as the change makes it: what `put_chain`
    /// took. No bytes are no chain, at 0. Of pages that the disk shows images are kept only where
    /// `keeps` says so: who reads each of many chains once has no use for them.
    ///
    /// # Errors
    ///
    /// `OutOfMemory`; `Device` where the disk failed, and on a disk that is not honest where it
    /// shows pages that the chain does not have: the pages are then closed. `Closed`.
    pub fn walk_chain(&mut self, first: u32, keeps: bool) -> Result<Vec<u8>, Fault>
        requires { HonestAt D.honest self.old.base.disk → 0 < first
            → HasSomeChain self.old.next first }
        ensures bytes { IfOk result (λ bytes. HonestAt D.honest self.new.base.disk
            → (trail all : List ℕ) → HasChain self.old.next first trail all → bytes.items ≡ all) }
        ensures none { IfOk result (λ bytes. first ≡ 0 → bytes.items ≡ []) }
        ensures consults { Consults D.Disk result self.old self.new }
    {
        if !self.live {
            return Err(Fault::Closed);
        }
        self.live = false;
        let bytes = self.pages.walk_chain(&self.work, first, keeps)?;
        self.live = true;
        Ok(bytes)
    }

    /// Frees the pages of the chain that begins at `first`, and no others. No bytes are no chain,
    /// at 0.
    ///
    /// # Errors
    ///
    /// Those of [`Edit::walk_chain`].
    pub fn free_chain(&mut self, first: u32) -> Result<(), Fault>
        requires { HonestAt D.honest self.old.base.disk → 0 < first
            → HasSomeChain self.old.next first }
        ensures next { OnOk result (HonestAt D.honest self.new.base.disk → (trail all : List ℕ)
            → HasChain self.old.next first trail all
            → self.new.next ≡ without_pages trail self.old.next) }
        ensures still { first ≡ 0 → OnOk result (self.new ≡ self.old) }
        ensures edits { Edits D.Disk result ⊥ self.old self.new }
    {
        if !self.live {
            return Err(Fault::Closed);
        }
        self.live = false;
        self.pages.free_chain(&mut self.work, first)?;
        self.live = true;
        Ok(())
    }
}
