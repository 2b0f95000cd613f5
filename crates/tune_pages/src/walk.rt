// Chains as a work stands for them: their bytes, and their pages given back.
ghost use Rattle.std.specs.Prelude.{◌≡◌, ◌++◌, [], ◌<◌, ℕ, List, true, false, slice_set};
ghost use Rattle.std.specs.Prelude.{IfOk, IfErr, IfSome, IfNone, OnOk};
ghost use Rattle.tune_journal.specs.Pages.{page_at};
ghost use Rattle.tune_pages.specs.Chain.{next_page_of, piece_of, IsLink};
ghost use Rattle.tune_pages.specs.Faults.{AnswersRead};
ghost use Rattle.tune_pages.specs.Inside.Walking.{HasLink};
ghost use Rattle.tune_pages.specs.Kept.{HonestAt};
ghost use Rattle.tune_pages.specs.PageLooks.{LooksAt};
ghost use Rattle.tune_pages.specs.Stand.{IsUsed, HasChain, HasSomeChain};
ghost use Rattle.tune_pages.specs.Stand.{without_page, without_pages};
ghost use Rattle.tune_pages.specs.Work.{stand, Fits, IsIdle};
ghost use Rattle.tune_pages.specs.declared.fault.Fault.TheVariants.{OutOfMemory};
ghost use Rattle.tune_pages.specs.Progress.{Reads};

use crate::fault::Fault;
use crate::link::{add_piece, is_link, next_page, try_link};
use crate::pages::{Held, Pages};
use crate::work::Work;
use tune_disk::Disk;
use tune_journal::PageImage;

impl<D: Disk> Pages<D> {
    /// The bytes of the chain that begins at `first`, as the work stands: what `put_chain` took. No
    /// bytes are no chain, at 0.
    ///
    /// # Errors
    ///
    /// `OutOfMemory`; `Device` where the disk failed, and on a disk that is not honest where it
    /// shows pages that the chain does not have: the pages are then closed. `Closed` exactly where
    /// they were.
    pub fn read_chain(&mut self, work: &Work, first: u32) -> Result<Vec<u8>, Fault>
        requires fits { Fits self.old work.now }
        requires chain { HonestAt D.honest self.old.disk → 0 < first
            → HasSomeChain (stand self.old work.now) first }
        ensures bytes { IfOk result (λ bytes. HonestAt D.honest self.new.disk → (trail all : List ℕ)
            → HasChain (stand self.old work.now) first trail all → bytes.items ≡ all) }
        ensures none { IfOk result (λ bytes. first ≡ 0 → bytes.items ≡ []) }
        ensures still { first ≡ 0 → self.new ≡ self.old }
        ensures reads { Reads D.Disk result work.now self.old self.new }
    {
        self.walk_chain(work, first, true)
    }

    /// The same. Of pages that the disk shows images are kept only where `keeps` says so: who reads
    /// each of many chains once has no use for them.
    ///
    /// # Errors
    ///
    /// Those of [`Pages::read_chain`].
    pub fn walk_chain(&mut self, work: &Work, first: u32, keeps: bool) -> Result<Vec<u8>, Fault>
        requires fits { Fits self.old work.now }
        requires chain { HonestAt D.honest self.old.disk → 0 < first
            → HasSomeChain (stand self.old work.now) first }
        ensures bytes { IfOk result (λ bytes. HonestAt D.honest self.new.disk → (trail all : List ℕ)
            → HasChain (stand self.old work.now) first trail all → bytes.items ≡ all) }
        ensures none { IfOk result (λ bytes. first ≡ 0 → bytes.items ≡ []) }
        ensures still { first ≡ 0 → self.new ≡ self.old }
        ensures reads { Reads D.Disk result work.now self.old self.new }
    {
        if self.closed {
            return Err(Fault::Closed);
        }
        let mut bytes = Vec::new(self.alloc);
        let mut page = first;
        let mut left = self.used.len();
        while page != 0 {
            if left == 0 {
                return Err(self.close());
            }
            left -= 1;
            match self.read_piece(work, page, &mut bytes, keeps) {
                Ok(Some(next)) => page = next,
                Ok(None) => return Err(self.close()),
                Err(fault) => return Err(fault),
            }
        }
        Ok(bytes)
    }

    /// Whether this was asked of the page before, as of one of the last. Who reads a chain that is
    /// seldom read again keeps its images where its first page is asked for again.
    pub fn is_asked_again(&mut self, page: u32) -> bool
        ensures { self.new ≡ self.old }
    {
        self.cached.is_asked_again(page)
    }

    /// Frees the pages of the chain that begins at `first`, and no others. No bytes are no chain,
    /// at 0.
    ///
    /// # Errors
    ///
    /// `OutOfMemory`; `Device` where the disk failed, and on a disk that is not honest where it
    /// shows pages that the chain does not have: the pages are then closed. `Closed` exactly where
    /// they were. The work is then to be dropped.
    pub fn free_chain(&mut self, work: &mut Work, first: u32) -> Result<(), Fault>
        requires fits { Fits self.old work.old }
        requires chain { HonestAt D.honest self.old.disk → 0 < first
            → HasSomeChain (stand self.old work.old) first }
        ensures fits { OnOk result (Fits self.new work.new) }
        ensures stand { OnOk result (HonestAt D.honest self.new.disk → (trail all : List ℕ)
            → HasChain (stand self.old work.old) first trail all
            → stand self.new work.new ≡ without_pages trail (stand self.old work.old)) }
        ensures still { first ≡ 0 → (self.new ≡ self.old) × (work.new ≡ work.old) }
        ensures idle { IsIdle work.old → IsIdle work.new }
        ensures looks { LooksAt D.honest D.failures D.state result self.old self.new }
        ensures answer { AnswersRead result self.old.closed self.new.closed }
    {
        if self.closed {
            return Err(Fault::Closed);
        }
        let mut page = first;
        while page != 0 {
            match self.free_link(work, page) {
                Ok(Some(next)) => page = next,
                Ok(None) => return Err(self.close()),
                Err(fault) => return Err(fault),
            }
        }
        Ok(())
    }

    // Adds the bytes of a page of a chain, and gives the page behind it; none where the page can be
    // no page of a chain.
    fn read_piece(
        &mut self,
        work: &Work,
        page: u32,
        bytes: &mut Vec<u8>,
        keeps: bool,
    ) -> Result<Option<u32>, Fault>
        requires { Fits self.old work.now }
        ensures next { IfOk result (λ found. IfSome found (λ next. HonestAt D.honest self.new.disk
            → IsLink (page_at (stand self.old work.now).pages page)
            × (next ≡ next_page_of (page_at (stand self.old work.now).pages page)))) }
        ensures bytes { IfOk result (λ found. IfSome found (λ _. HonestAt D.honest self.new.disk
            → bytes.new.items
            ≡ bytes.old.items ++ piece_of (page_at (stand self.old work.now).pages page))) }
        ensures none { IfOk result (λ found. IfNone found (HonestAt D.honest self.new.disk
            → HasLink (stand self.old work.now) page → ⊥)) }
        ensures reads { Reads D.Disk result work.now self.old self.new }
    {
        if self.closed {
            return Err(Fault::Closed);
        }
        if !self.in_use(work, page) {
            return Ok(None);
        }
        if let Some(next) = self.add_kept_link(work, page, bytes) {
            return Ok(Some(next));
        }
        if let Some(next) = self.add_link_ahead(work, page, bytes, keeps)? {
            return Ok(Some(next));
        }
        let mut image = PageImage::blank();
        match self.read_link(work, page, &mut image, keeps) {
            Ok(true) => match add_piece(&image.bytes, bytes) {
                Ok(()) => Ok(Some(next_page(&image.bytes))),
                Err(_) => Err(Fault::OutOfMemory),
            },
            Ok(false) => Ok(None),
            Err(fault) => Err(fault),
        }
    }

    // Adds the bytes of a page of a chain of which an image is kept, and gives the page behind it.
    // None, with the bytes as they were, where the work changes pages, where no image is kept, or
    // one that can be of no page of a chain, and where there is no memory for more bytes.
    fn add_kept_link(&mut self, work: &Work, page: u32, bytes: &mut Vec<u8>) -> Option<u32>
        requires open { self.old.closed ≡ false }
        requires fits { Fits self.old work.now }
        requires used { IsUsed (stand self.old work.now).used page }
        ensures link { let image = page_at (stand self.old work.now).pages page in
            HonestAt D.honest self.new.disk → IfSome result (λ next. IsLink image
            × (next ≡ next_page_of image) × (bytes.new.items ≡ bytes.old.items ++ piece_of image)) }
        ensures none { IfNone result (bytes.new.items ≡ bytes.old.items) }
        ensures same { self.new ≡ self.old }
    {
        if !work.changes.is_empty() {
            return None;
        }
        self.cached.add_link(page, bytes)
    }

    // Adds the bytes of a page of a chain that was read with another one, where they stand, and
    // gives the page behind it. None, with the bytes as they were, where the work changes pages,
    // where the page was not read so, or can be no page of a chain, and where its image is to be
    // kept.
    fn add_link_ahead(
        &self,
        work: &Work,
        page: u32,
        bytes: &mut Vec<u8>,
        keeps: bool,
    ) -> Result<Option<u32>, Fault>
        requires fits { Fits self.now work.now }
        requires used { IsUsed (stand self.now work.now).used page }
        ensures link { let image = page_at (stand self.now work.now).pages page in
            IfOk result (λ found. IfSome found (λ next. HonestAt D.honest self.now.disk
            → IsLink image × (next ≡ next_page_of image)
            × (bytes.new.items ≡ bytes.old.items ++ piece_of image))) }
        ensures none { IfOk result (λ found. IfNone found (bytes.new.items ≡ bytes.old.items)) }
        ensures err { IfErr result (λ fault. fault ≡ OutOfMemory) }
    {
        if keeps {
            return Ok(None);
        }
        if !work.changes.is_empty() {
            return Ok(None);
        }
        match &self.held {
            Held::Open(journal) => match journal.ahead(page) {
                Some(held) => match try_link(held, bytes) {
                    Ok(found) => Ok(found),
                    Err(_) => Err(Fault::OutOfMemory),
                },
                None => Ok(None),
            },
            _ => Ok(None),
        }
    }

    // Frees a page of a chain, and gives the page behind it; none where the page can be no page of
    // a chain.
    fn free_link(&mut self, work: &mut Work, page: u32) -> Result<Option<u32>, Fault>
        requires fits { Fits self.old work.old }
        requires some { 0 < page }
        ensures next { IfOk result (λ found. IfSome found (λ next. HonestAt D.honest self.new.disk
            → IsLink (page_at (stand self.old work.old).pages page)
            × (next ≡ next_page_of (page_at (stand self.old work.old).pages page)))) }
        ensures stand { IfOk result (λ found. IfSome found (λ _. HonestAt D.honest self.new.disk
            → stand self.new work.new ≡ without_page page (stand self.old work.old))) }
        ensures used { IfOk result (λ found. IfSome found (λ _.
            IsUsed (stand self.old work.old).used page
            × ((stand self.new work.new).used
            ≡ slice_set (stand self.old work.old).used page false))) }
        ensures none { IfOk result (λ found. IfNone found (HonestAt D.honest self.new.disk
            → HasLink (stand self.old work.old) page → ⊥)) }
        ensures fits { OnOk result (Fits self.new work.new) }
        ensures idle { IsIdle work.old → IsIdle work.new }
        ensures looks { LooksAt D.honest D.failures D.state result self.old self.new }
        ensures answer { AnswersRead result self.old.closed self.new.closed }
    {
        let mut image = PageImage::blank();
        match self.read_link(work, page, &mut image, true) {
            Ok(true) => {
                let next = next_page(&image.bytes);
                match self.free(work, page) {
                    Ok(()) => Ok(Some(next)),
                    Err(_) => Err(Fault::OutOfMemory),
                }
            }
            Ok(false) => Ok(None),
            Err(fault) => Err(fault),
        }
    }

    // Puts the image of a page of a chain that is in use in the place of another one; false where
    // the page can be no such one.
    fn read_link(
        &mut self,
        work: &Work,
        page: u32,
        image: &mut PageImage,
        keeps: bool,
    ) -> Result<bool, Fault>
        requires { Fits self.old work.now }
        ensures link { IfOk result (λ found. found ≡ true → IsLink image.new.bytes
            × IsUsed (stand self.old work.now).used page) }
        ensures image { IfOk result (λ found. found ≡ true → HonestAt D.honest self.new.disk
            → image.new.bytes ≡ page_at (stand self.old work.now).pages page) }
        ensures none { IfOk result (λ found. found ≡ false → HonestAt D.honest self.new.disk
            → HasLink (stand self.old work.now) page → ⊥) }
        ensures reads { Reads D.Disk result work.now self.old self.new }
    {
        if self.closed {
            return Err(Fault::Closed);
        }
        if !self.in_use(work, page) {
            return Ok(false);
        }
        match self.read_image(work, page, image, keeps) {
            Ok(()) => Ok(is_link(&image.bytes)),
            Err(fault) => Err(fault),
        }
    }
}
