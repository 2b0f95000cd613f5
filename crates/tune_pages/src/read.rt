// Pages and chains as a work stands for them.
ghost use Rattle.std.specs.Prelude.{◌≡◌, ◌↔◌, ◌<◌, false, true, length};
ghost use Rattle.std.specs.Prelude.{IsTrue, MatchResult, IfOk, OnOk};
ghost use Rattle.tune_journal.specs.Pages.{page_at};
ghost use Rattle.tune_pages.specs.Kept.{HonestAt};
ghost use Rattle.tune_pages.specs.PageLooks.{LooksAt};
ghost use Rattle.tune_pages.specs.Stand.{IsUsed};
ghost use Rattle.tune_pages.specs.Work.{stand, Fits};
ghost use Rattle.tune_pages.specs.declared.fault.Fault.TheVariants.{Device};
ghost use Rattle.tune_pages.specs.Progress.{Reads};

use crate::fault::Fault;
use crate::pages::{Held, Pages};
use crate::work::Work;
use std::mem;
use tune_disk::{DeviceFault, Disk};
use tune_journal::PageImage;

impl<D: Disk> Pages<D> {
    /// Whether a page is in use, as the work stands.
    pub fn in_use(&self, work: &Work, page: u32) -> bool
        requires { Fits self.now work.now }
        ensures { IsTrue result ↔ IsUsed (stand self.now work.now).used page }
    {
        !work.has_freed(page) && (page < work.frontier || self.used.is_used(page))
    }

    /// The image of a page that is in use, as the work stands.
    ///
    /// # Errors
    ///
    /// `Device` where the disk failed: the pages are then closed. `Closed` exactly where they were.
    pub fn read_page(&mut self, work: &Work, page: u32) -> Result<PageImage, Fault>
        requires fits { Fits self.old work.now }
        requires used { IsUsed (stand self.old work.now).used page }
        ensures image { IfOk result (λ image. HonestAt D.honest self.new.disk
            → image.bytes ≡ page_at (stand self.old work.now).pages page) }
        ensures reads { Reads D.Disk result work.now self.old self.new }
    {
        let mut image = PageImage::blank();
        match self.read_page_into(work, page, &mut image) {
            Ok(()) => Ok(image),
            Err(fault) => Err(fault),
        }
    }

    /// Puts the image of a page that is in use, as the work stands, in the place of `image`.
    ///
    /// # Errors
    ///
    /// Those of [`Pages::read_page`]; `image` is then any.
    pub fn read_page_into(
        &mut self,
        work: &Work,
        page: u32,
        image: &mut PageImage,
    ) -> Result<(), Fault>
        requires fits { Fits self.old work.now }
        requires used { IsUsed (stand self.old work.now).used page }
        ensures image { OnOk result (HonestAt D.honest self.new.disk
            → image.new.bytes ≡ page_at (stand self.old work.now).pages page) }
        ensures reads { Reads D.Disk result work.now self.old self.new }
    {
        self.read_image(work, page, image, true)
    }

    // The same. An image that the disk shows is kept where `keeps` says so, and the work changes no
    // page yet: what is read to be changed is seldom read again before its image would have to go.
    pub(crate) fn read_image(
        &mut self,
        work: &Work,
        page: u32,
        image: &mut PageImage,
        keeps: bool,
    ) -> Result<(), Fault>
        requires fits { Fits self.old work.now }
        requires used { IsUsed (stand self.old work.now).used page }
        ensures image { OnOk result (HonestAt D.honest self.new.disk
            → image.new.bytes ≡ page_at (stand self.old work.now).pages page) }
        ensures reads { Reads D.Disk result work.now self.old self.new }
    {
        if self.closed {
            return Err(Fault::Closed);
        }
        if work.changes.read(page, image) {
            return Ok(());
        }
        self.fetch(page, image, keeps && work.changes.is_empty())
    }

    // Reads a page that no work changes.
    fn fetch(&mut self, page: u32, image: &mut PageImage, keeps: bool) -> Result<(), Fault>
        requires open { self.old.closed ≡ false }
        requires below { page < length self.old.pages }
        ensures image { OnOk result (HonestAt D.honest self.new.disk
            → image.new.bytes ≡ page_at self.old.pages page) }
        ensures looks { LooksAt D.honest D.failures D.state result self.old self.new }
        ensures closed { MatchResult result (λ _. self.new.closed ≡ false)
            (λ fault. (fault ≡ Device) × (self.new.closed ≡ true)) }
    {
        if self.cached.read(page, image) {
            return Ok(());
        }
        match mem::replace(&mut self.held, Held::Gone) {
            Held::Open(mut journal) => match journal.read_in_runs(self.alloc, page, image) {
                Ok(()) => {
                    self.held = Held::Open(journal);
                    self.cached.keep(page, image, keeps);
                    Ok(())
                }
                Err(DeviceFault) => {
                    self.held = Held::Broken(journal.into_disk());
                    self.closed = true;
                    Err(Fault::Device)
                }
            },
            _ => unreachable!(),
        }
    }
}
