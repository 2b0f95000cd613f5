// Pages that are made, and pages that are being opened, of which each is claimed once.
ghost use Rattle.std.specs.Prelude.{◌≡◌, ◌≢◌, ◌<◌, ◌≤◌, ◌-◌, ◌++◌, [], ◌∷◌, ℕ, true, false, List};
ghost use Rattle.std.specs.Prelude.{length, replicate, slice_set, MatchResult, IfOk, IfErr};
ghost use Rattle.std.specs.Prelude.{IfSome, OnOk, Some, All};
ghost use Rattle.std.specs.Vec.{vec_capacity};
ghost use Rattle.tune_disk.specs.Disk.{Looks};
ghost use Rattle.tune_disk.specs.Stops.{SinceThen, LeavesOnly};
ghost use Rattle.tune_journal.specs.Image.{StandsFor, gate_of};
ghost use Rattle.tune_journal.specs.FileOffsets.{block_bytes, most_pages, gate_open};
ghost use Rattle.tune_journal.specs.Making.{IsEmptyFile, StandsForNoneOr};
ghost use Rattle.tune_journal.specs.Moments.{KeepsEither, LeftOrSame, LeavesPages};
ghost use Rattle.tune_journal.specs.Pages.{page_at};
ghost use Rattle.tune_journal.specs.Refusal.{CountsFailureIf, CountsFailureWhere, IsSynced};
ghost use Rattle.tune_journal.specs.Refusal.{IsUnwritten};
ghost use Rattle.tune_pages.specs.Chain.{next_page_of, piece_of, IsLink};
ghost use Rattle.tune_pages.specs.Claim.{Claimable, IsClaimable, IsChainFault, IsPageFault};
ghost use Rattle.tune_pages.specs.Claim.{IsClaimableWithin, LooksOpening};
ghost use Rattle.tune_pages.specs.Inside.Claiming.{CanLink, IsLinkFault};
ghost use Rattle.tune_pages.specs.Kept.{HonestAt, state_at, failures_at};
ghost use Rattle.tune_pages.specs.OpenedPages.{only_root, disk_of_pages, disk_of_claims};
ghost use Rattle.tune_pages.specs.OpenedPages.{IsUnopenedFor, IsPagesOpenReason, IsUnmadePagesFor};
ghost use Rattle.tune_pages.specs.OpenedPages.{IsPagesMakeReason, IsUndoneFor};
ghost use Rattle.tune_pages.specs.Stand.{IsFree, marked};
ghost use Rattle.tune_pages.specs.declared.fault.ClaimFault.TheVariants.{Damaged, Device};

use crate::fault::ClaimFault;
use crate::link::try_link;
use crate::page_marks::PageMarks;
use crate::pages::Pages;
use std::alloc::Global;
use std::marker::Model;
use tune_disk::{DeviceFault, Disk};
use tune_journal::{Journal, OpenFault, PageImage, Refused};

/// Pages that are being opened: who uses a page claims it, and none is claimed twice. The root is
/// claimed from the start. After a refusal an opening is good for `into_disk` alone.
#[derive(Drop)]
pub struct Opening<D: Disk> {
    alloc: Global,
    journal: Journal<D>,
    claimed: Vec<bool>,
}

impl<D: Disk> Model for Opening<D> {
    ghost use Rattle.tune_pages.specs.Claims.{Claims};
    ghost use Rattle.tune_pages.specs.Inside.Claiming.{IsClaiming};
    ghost use Rattle.tune_pages.specs.Inside.Codes.{claims_code};

    ghost Value = { Claims D };

    ghost coded = { claims_code D.code };

    ghost view = { λ o. record {
      disk = o.journal.disk;
      pages = o.journal.pages;
      claimed = o.claimed.items;
    } };

    ghost invariant = { λ o. IsClaiming o.journal.pages o.claimed.items };
}

// Hands back the disk of a journal for want of memory.
fn out_of_memory<D: Disk>(journal: Journal<D>) -> Refused<D>
    ensures disk { result.disk ≡ journal.disk }
    ensures why { result.why ≡ OpenFault.OutOfMemory }
    ensures rest { LeavesPages D.honest D.state result.disk journal.pages }
{
    Refused {
        disk: journal.into_disk(),
        why: OpenFault::OutOfMemory,
    }
}

// Reads a page of a journal, and those behind it that are asked for next as it seems.
fn read_image<D: Disk>(
    journal: &mut Journal<D>,
    alloc: Global,
    page: u32,
    image: &mut PageImage,
) -> Result<(), ClaimFault>
    requires { page < length journal.old.pages }
    ensures image { OnOk result (D.honest journal.new.disk
        → image.new.bytes ≡ page_at journal.old.pages page) }
    ensures pages { D.honest journal.new.disk → journal.new.pages ≡ journal.old.pages }
    ensures count { length journal.new.pages ≡ length journal.old.pages }
    ensures looks { Looks D.honest D.failures D.state result journal.old.disk journal.new.disk }
    ensures err { IfErr result (λ fault. fault ≡ Device) }
{
    match journal.read_in_runs(alloc, page, image) {
        Ok(()) => Ok(()),
        Err(DeviceFault) => Err(ClaimFault::Device),
    }
}

// Adds the bytes of a page of a chain, and gives the page behind it.
fn take_link(image: &[u8], bytes: &mut Vec<u8>) -> Result<u32, ClaimFault>
    requires { length image.now ≡ block_bytes }
    ensures link { IfOk result (λ next. IsLink image.now × (next ≡ next_page_of image.now)) }
    ensures bytes { OnOk result (bytes.new.items ≡ bytes.old.items ++ piece_of image.now) }
    ensures fault { IfErr result (λ fault. IsLinkFault fault (IsLink image.now)) }
{
    match try_link(image, bytes) {
        Ok(Some(next)) => Ok(next),
        Ok(None) => Err(ClaimFault::Damaged),
        Err(_) => Err(ClaimFault::OutOfMemory),
    }
}

impl<D: Disk> Opening<D> {
    /// Claims a page, and reads it into the image: who claims many pages has one for all.
    ///
    /// # Errors
    ///
    /// Those of [`Opening::claim_page`].
    pub fn claim_page_into(&mut self, page: u32, image: &mut PageImage) -> Result<(), ClaimFault>
        ensures image { OnOk result (D.honest self.new.disk
            → image.new.bytes ≡ page_at self.old.pages page) }
        ensures free { OnOk result (IsFree self.old.claimed page
            × (self.new.claimed ≡ slice_set self.old.claimed page true)) }
        ensures within { OnOk result (page < length self.old.pages) }
        ensures damaged { IfErr result (λ fault.
            IsPageFault fault (IsFree self.old.claimed page)) }
        ensures looks { LooksOpening D.honest D.failures D.state result self.old self.new }
    {
        self.claim(page)?;
        read_image(&mut self.journal, self.alloc, page, image)
    }

    // Claims a page.
    fn claim(&mut self, page: u32) -> Result<(), ClaimFault>
        ensures free { OnOk result (IsFree self.old.claimed page
            × (self.new.claimed ≡ slice_set self.old.claimed page true)) }
        ensures within { OnOk result (page < length self.old.pages) }
        ensures damaged { IfErr result (λ fault.
            (fault ≡ Damaged) × (IsFree self.old.claimed page → ⊥)) }
        ensures disk { self.new.disk ≡ self.old.disk }
        ensures pages { self.new.pages ≡ self.old.pages }
    {
        let place = page as usize;
        if place >= self.claimed.len() || self.claimed[place] {
            return Err(ClaimFault::Damaged);
        }
        self.claimed[place] = true;
        Ok(())
    }

    // Claims a page of a chain, adds its bytes, and gives the page behind it. The image is where
    // the page is read, if it was not read with another one.
    fn claim_link(
        &mut self,
        page: u32,
        image: &mut PageImage,
        bytes: &mut Vec<u8>,
    ) -> Result<u32, ClaimFault>
        ensures free { OnOk result (IsFree self.old.claimed page
            × (self.new.claimed ≡ slice_set self.old.claimed page true)) }
        ensures link { IfOk result (λ next. D.honest self.new.disk
            → IsLink (page_at self.old.pages page)
            × (next ≡ next_page_of (page_at self.old.pages page))
            × (page < length self.old.pages)) }
        ensures bytes { OnOk result (D.honest self.new.disk
            → bytes.new.items ≡ bytes.old.items ++ piece_of (page_at self.old.pages page)) }
        ensures damaged { IfErr result (λ fault. D.honest self.new.disk
            → IsChainFault fault (CanLink self.old.pages self.old.claimed page)) }
        ensures looks { LooksOpening D.honest D.failures D.state result self.old self.new }
    {
        self.claim(page)?;
        if let Some(held) = self.journal.ahead(page) {
            return take_link(held, bytes);
        }
        read_image(&mut self.journal, self.alloc, page, image)?;
        take_link(&image.bytes, bytes)
    }

    /// Claims the pages of the chain that begins at `first`, and gives its bytes. No bytes are no
    /// chain, at 0.
    ///
    /// # Errors
    ///
    /// `Damaged` where no chain begins there whose pages are all still to be claimed;
    /// `OutOfMemory`; `Device` where the disk failed.
    pub fn claim_chain(&mut self, first: u32) -> Result<Vec<u8>, ClaimFault>
        ensures chain { IfOk result (λ bytes. D.honest self.new.disk → (trail : List ℕ)
            × Claimable self.old.pages self.old.claimed first trail bytes.items
            × (self.new.claimed ≡ marked true trail self.old.claimed)) }
        ensures damaged { IfErr result (λ fault. D.honest self.new.disk
            → IsChainFault fault (IsClaimable self.old.pages self.old.claimed first)) }
        ensures looks { LooksOpening D.honest D.failures D.state result self.old self.new }
    {
        let most = self.count() as usize;
        self.claim_chain_within(first, most)
    }

    /// Claims the pages of the chain that begins at `first`, of which there may be up to `most`,
    /// and gives its bytes. Past these no page is read, so that the bytes of a chain that is too
    /// long take no more memory than those of `most` pages.
    ///
    /// # Errors
    ///
    /// `Damaged` where no chain of at most `most` pages begins there whose pages are all still to
    /// be claimed; `OutOfMemory`; `Device` where the disk failed.
    pub fn claim_chain_within(&mut self, first: u32, most: usize) -> Result<Vec<u8>, ClaimFault>
        ensures chain { IfOk result (λ bytes. D.honest self.new.disk → (trail : List ℕ)
            × Claimable self.old.pages self.old.claimed first trail bytes.items
            × (self.new.claimed ≡ marked true trail self.old.claimed) × (length trail ≤ most)) }
        ensures damaged { IfErr result (λ fault. D.honest self.new.disk
            → IsChainFault fault (IsClaimableWithin most self.old.pages self.old.claimed first)) }
        ensures looks { LooksOpening D.honest D.failures D.state result self.old self.new }
    {
        let mut bytes = Vec::new(self.alloc);
        self.claim_chain_into(first, most, &mut PageImage::blank(), &mut bytes)?;
        Ok(bytes)
    }

    /// Claims the pages of the chain that begins at `first`, of which there may be up to `most`,
    /// and puts its bytes in the place of these, as [`Opening::claim_chain_within`] gives them. The
    /// image is where a page is read: who claims many chains has one for all.
    ///
    /// # Errors
    ///
    /// Those of [`Opening::claim_chain_within`].
    pub fn claim_chain_into(
        &mut self,
        first: u32,
        most: usize,
        image: &mut PageImage,
        bytes: &mut Vec<u8>,
    ) -> Result<(), ClaimFault>
        ensures chain { OnOk result (D.honest self.new.disk → (trail : List ℕ)
            × Claimable self.old.pages self.old.claimed first trail bytes.new.items
            × (self.new.claimed ≡ marked true trail self.old.claimed) × (length trail ≤ most)) }
        ensures damaged { IfErr result (λ fault. D.honest self.new.disk
            → IsChainFault fault (IsClaimableWithin most self.old.pages self.old.claimed first)) }
        ensures looks { LooksOpening D.honest D.failures D.state result self.old self.new }
    {
        bytes.clear();
        let mut page = first;
        let mut left = most;
        while page != 0 {
            if left == 0 {
                return Err(ClaimFault::Damaged);
            }
            page = self.claim_link(page, image, bytes)?;
            left -= 1;
        }
        Ok(())
    }

    /// How many pages there are, the root among them.
    pub fn count(&self) -> u32
        ensures count { result ≡ length self.now.pages }
        ensures marks { result ≡ length self.now.claimed }
        ensures sized { D.honest self.now.disk
            → All (λ page. length page ≡ block_bytes) self.now.pages }
    {
        self.journal.count()
    }

    /// The image of the root, which is claimed from the start.
    ///
    /// # Errors
    ///
    /// `Device` where the disk failed.
    pub fn read_root(&mut self) -> Result<PageImage, ClaimFault>
        ensures image { IfOk result (λ image. D.honest self.new.disk
            → image.bytes ≡ page_at self.old.pages 0) }
        ensures claimed { self.new.claimed ≡ self.old.claimed }
        ensures err { IfErr result (λ fault. fault ≡ Device) }
        ensures looks { LooksOpening D.honest D.failures D.state result self.old self.new }
    {
        let mut image = PageImage::blank();
        read_image(&mut self.journal, self.alloc, 0, &mut image)?;
        Ok(image)
    }

    /// Claims a page, and gives its image.
    ///
    /// # Errors
    ///
    /// `Damaged` where it was claimed before, or is past the last page; `Device` where the disk
    /// failed.
    pub fn claim_page(&mut self, page: u32) -> Result<PageImage, ClaimFault>
        ensures image { IfOk result (λ image. D.honest self.new.disk
            → image.bytes ≡ page_at self.old.pages page) }
        ensures free { OnOk result (IsFree self.old.claimed page
            × (self.new.claimed ≡ slice_set self.old.claimed page true)) }
        ensures damaged { IfErr result (λ fault.
            IsPageFault fault (IsFree self.old.claimed page)) }
        ensures looks { LooksOpening D.honest D.failures D.state result self.old self.new }
    {
        let mut image = PageImage::blank();
        self.claim_page_into(page, &mut image)?;
        Ok(image)
    }

    /// The disk, which stands for the pages.
    pub fn into_disk(self) -> D
        ensures disk { result ≡ self.disk }
        ensures rest { LeavesPages D.honest D.state result self.pages }
    {
        let Opening {
            alloc: _,
            journal,
            claimed: _,
        } = self;
        journal.into_disk()
    }

    /// The pages, of which there may be up to `limit`. Those that were not claimed are free.
    ///
    /// # Errors
    ///
    /// `Damaged` where there are more; `OutOfMemory`. The disk is handed back.
    pub fn done(self, limit: u32) -> Result<Pages<D>, Refused<D>>
        requires { (1 ≤ limit) × (limit ≤ most_pages) }
        ensures disk { disk_of_pages result ≡ Some self.disk }
        ensures rest { LeavesPages D.honest D.state self.disk self.pages }
        ensures pages { IfOk result (λ pages. pages.pages ≡ self.pages) }
        ensures used { IfOk result (λ pages.
            pages.used ≡ self.claimed ++ replicate (limit - length self.pages) false) }
        ensures limit { IfOk result (λ pages. (pages.limit ≡ limit) × (pages.closed ≡ false)) }
        ensures few { OnOk result (length self.pages ≤ limit) }
        ensures refused { IfErr result (λ refused.
            IsUndoneFor refused.why limit (length self.pages)) }
    {
        let Opening {
            alloc,
            journal,
            mut claimed,
        } = self;
        if journal.count() > limit {
            return Err(Refused {
                disk: journal.into_disk(),
                why: OpenFault::Damaged,
            });
        }
        let more = ROOM_FOR_MARKS.saturating_sub(claimed.len());
        if claimed.reserve(more).is_err() {
            return Err(out_of_memory(journal));
        }
        Ok(Pages::over(alloc, journal, PageMarks::over(claimed, limit), limit))
    }
}

// There is room for a mark of each page of a file, so that a limit is changed without memory.
const ROOM_FOR_MARKS: usize = 4_000_000;

// Marks of so many pages, of which the root alone is in use.
fn mark_root(alloc: Global, count: u32) -> Option<Vec<bool>>
    requires { 1 ≤ count }
    ensures marks { IfSome result (λ marks. marks.items ≡ only_root count) }
    ensures room { IfSome result (λ marks. most_pages ≤ vec_capacity marks) }
{
    let mut marks = Vec::new(alloc);
    if marks.reserve(ROOM_FOR_MARKS).is_err() {
        return None;
    }
    match marks.resize(count as usize, false) {
        Ok(()) => {
            marks[0] = true;
            Some(marks)
        }
        Err(_) => None,
    }
}

impl<D: Disk> Pages<D> {
    /// Opens the pages of a disk, to be claimed.
    ///
    /// # Errors
    ///
    /// As of a journal: `NotArchive`, `Damaged`, `Device`; and `OutOfMemory`, where the file stands
    /// for the pages that it stood for. The disk is handed back.
    pub fn open(alloc: Global, disk: D) -> Result<Opening<D>, Refused<D>>
        ensures honest { D.honest (disk_of_claims result) → D.honest disk }
        ensures leaves { let old = D.state disk in let new = D.state (disk_of_claims result) in
            D.honest (disk_of_claims result) → SinceThen old new (LeftOrSame old) }
        ensures moments { let new = D.state (disk_of_claims result) in
            D.honest (disk_of_claims result) → KeepsEither (D.state disk) new }
        ensures pages { IfOk result (λ opening. D.honest opening.disk
            → StandsFor opening.pages (D.state disk).seen) }
        ensures only { IfOk result (λ opening. D.honest opening.disk
            → (pages : List (List ℕ)) → StandsFor pages (D.state disk).seen
            → pages ≡ opening.pages) }
        ensures claimed { IfOk result (λ opening.
            opening.claimed ≡ only_root (length opening.pages)) }
        ensures rest { IfOk result (λ opening.
            LeavesPages D.honest D.state opening.disk opening.pages) }
        // Behind a closed gate the disk was synced, and nothing else.
        ensures synced { IfOk result (λ opening. D.honest opening.disk
            → gate_of (D.state disk).seen ≢ gate_open
            → IsSynced (D.state disk) (D.state opening.disk)) }
        // So nothing is written there, and nothing either where the opening is refused.
        ensures untouched { let old = D.state disk in let new = D.state (disk_of_claims result) in
            D.honest (disk_of_claims result) → gate_of old.seen ≢ gate_open
            → IsUnwritten old new }
        ensures refused { IfErr result (λ refused. D.honest refused.disk
            → IsUnopenedFor refused.why (D.state disk) (D.state refused.disk)) }
        ensures reason { IfErr result (λ refused. IsPagesOpenReason refused.why) }
        ensures failures { MatchResult result
            (λ opening. D.failures opening.disk ≡ D.failures disk)
            (λ refused. let honest = D.honest refused.disk in
            CountsFailureWhere honest refused.why (D.failures disk) (D.failures refused.disk)) }
    {
        let journal = Journal::open(disk)?;
        match mark_root(alloc, journal.count()) {
            Some(claimed) => Ok(Opening {
                alloc,
                journal,
                claimed,
            }),
            None => Err(out_of_memory(journal)),
        }
    }

    /// Makes pages on a disk without a byte: the root alone. There may be up to `limit`.
    ///
    /// # Errors
    ///
    /// `OutOfMemory` before anything is done; as of a journal `NotEmpty` where the disk has a byte,
    /// and `Device`. The disk is handed back.
    pub fn make(
        alloc: Global,
        disk: D,
        root: &PageImage,
        limit: u32,
    ) -> Result<Pages<D>, Refused<D>>
        requires { (1 ≤ limit) × (limit ≤ most_pages) }
        ensures honest { HonestAt D.honest (disk_of_pages result) → D.honest disk }
        // Where each file that a stop may leave at the start has no byte, a stop during the call
        // leaves no pages or these.
        ensures moments { let new = state_at D.state (disk_of_pages result) in
            HonestAt D.honest (disk_of_pages result) → LeavesOnly (D.state disk).now IsEmptyFile
            → SinceThen (D.state disk) new (StandsForNoneOr root.now.bytes) }
        // At `Ok` it leaves these, whatever it might have left at the start.
        ensures rest { IfOk result (λ pages. HonestAt D.honest pages.disk
            → LeavesOnly (state_at D.state pages.disk).now (StandsFor (root.now.bytes ∷ []))) }
        ensures pages { IfOk result (λ pages. HonestAt D.honest pages.disk
            → pages.pages ≡ root.now.bytes ∷ []) }
        ensures count { IfOk result (λ pages. length pages.pages ≡ 1) }
        ensures used { IfOk result (λ pages. pages.used ≡ only_root limit) }
        ensures limit { IfOk result (λ pages. (pages.limit ≡ limit) × (pages.closed ≡ false)) }
        ensures empty { IfOk result (λ pages. HonestAt D.honest pages.disk
            → (D.state disk).seen ≡ []) }
        ensures refused { IfErr result (λ refused. D.honest refused.disk
            → IsUnmadePagesFor refused.why (D.state disk) (D.state refused.disk)) }
        ensures reason { IfErr result (λ refused. IsPagesMakeReason refused.why) }
        ensures failures { MatchResult result
            (λ pages. failures_at D.failures pages.disk ≡ D.failures disk)
            (λ refused. CountsFailureIf refused.why (D.failures disk) (D.failures refused.disk)) }
    {
        let Some(marks) = mark_root(alloc, 1) else {
            return Err(Refused {
                disk,
                why: OpenFault::OutOfMemory,
            });
        };
        let journal = Journal::make(disk, root)?;
        Ok(Pages::over(alloc, journal, PageMarks::over(marks, limit), limit))
    }
}
