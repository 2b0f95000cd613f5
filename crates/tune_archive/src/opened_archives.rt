// Archives that are made, and opened.
ghost use Rattle.std.specs.Prelude.{◌≡◌, ◌≢◌, ◌<◌, false, [], Some, length};
ghost use Rattle.std.specs.Prelude.{IfOk, IfErr, MatchResult};
ghost use Rattle.tune_disk.specs.Stops.{LeavesOnly, SinceThen};
ghost use Rattle.tune_journal.specs.FileOffsets.{gate_open};
ghost use Rattle.tune_journal.specs.Image.{gate_of};
ghost use Rattle.tune_journal.specs.Making.{IsEmptyFile};
ghost use Rattle.tune_journal.specs.Moments.{LeftOrSame, LeavesPages};
ghost use Rattle.tune_journal.specs.Refusal.{CountsFailureIf, CountsFailureWhere, IsUnwritten};
ghost use Rattle.tune_pages.specs.Kept.{HonestAt, state_at, failures_at};
ghost use Rattle.tune_pages.specs.OpenedPages.{only_root, IsUnmadePagesFor, IsPagesMakeReason};
ghost use Rattle.tune_pages.specs.OpenedPages.{IsPagesOpenReason, IsUndoneFor};
ghost use Rattle.tune_store.specs.State.{empty_of};
ghost use Rattle.tune_store.specs.declared.layout.Layout.TheVariants.{Two};
ghost use Rattle.tune_format.specs.RootOffsets.{most_pages_of};
ghost use Rattle.tune_search.specs.Empty.{no_indexes, no_leaves};
ghost use Rattle.tune_format.specs.States.{IsStateOf, Holds};
ghost use Rattle.tune_format.specs.Written.{no_firsts};
ghost use Rattle.tune_contents.specs.Claimed.{AreRows, IsClaimed};
ghost use Rattle.tune_archive.specs.OpenedArchive.{disk_left_of, StandsForNoneOrEmpty, KeepsStates};
ghost use Rattle.tune_archive.specs.OpenedArchive.{IsUnopenedArchiveFor};
ghost use Rattle.tune_archive.specs.Inside.Opening.{reason_of, IsUnclaimedFor};
ghost use Rattle.tune_archive.specs.Shelf.{state_of, IsSound};

use crate::archive::Archive;
use std::alloc::Global;
use tiered_vector::TieredVector;
use tune_contents::{Contents, claim};
use tune_disk::Disk;
use tune_format::{Firsts, most_pages, write_root};
use tune_index::Index;
use tune_journal::{OpenFault, Refused};
use tune_pages::{ClaimFault, Opening, Pages};
use tune_search::{IncipitNotes, SearchFirsts, SearchIndexes};
use tune_sets::SetLists;
use tune_store::Layout;

// The contents of an archive in which nothing is yet.
fn nothing(alloc: Global) -> Contents
    ensures layout { result.layout ≡ Two }
    ensures rows { result.rows.items ≡ [] }
    ensures sets { result.sets ≡ [] }
    ensures numbers { result.numbers ≡ no_leaves }
    ensures searches { result.searches ≡ no_indexes 12 }
    ensures firsts { result.firsts ≡ no_firsts }
{
    Contents {
        layout: Layout::Two,
        rows: TieredVector::new(alloc),
        numbers: Index::new(alloc),
        searches: SearchIndexes::new(alloc, IncipitNotes::Twelve),
        sets: SetLists::new(alloc),
        firsts: no_firsts(),
    }
}

// Where the chains begin of an archive in which nothing is yet: nowhere.
fn no_firsts() -> Firsts
    ensures { result ≡ no_firsts }
{
    Firsts {
        numbers: 0,
        searches: SearchFirsts {
            titles: 0,
            rhythms: 0,
            scales: 0,
            incipits: 0,
        },
        sets: 0,
    }
}

// Why an archive is not opened whose contents could not be claimed.
fn reason_of(fault: ClaimFault) -> OpenFault
    ensures { result ≡ reason_of fault }
{
    match fault {
        ClaimFault::Damaged => OpenFault::Damaged,
        ClaimFault::OutOfMemory => OpenFault::OutOfMemory,
        ClaimFault::Device => OpenFault::Device,
    }
}

impl<D: Disk> Archive<D> {
    /// Makes an archive in which nothing is yet, in layout 2, on a disk without a byte.
    ///
    /// - `moments`: where each file that a stop may leave at the start has no byte, a stop during
    ///   the call leaves no archive or an empty one.
    ///
    /// # Errors
    ///
    /// `NotEmpty` where the disk has a byte; `OutOfMemory`, before anything is done; `Device` where
    /// the device failed. The disk is handed back.
    pub fn make(alloc: Global, disk: D) -> Result<Archive<D>, Refused<D>>
        ensures honest { HonestAt D.honest (disk_left_of result) → D.honest disk }
        ensures moments { let new = state_at D.state (disk_left_of result) in
            HonestAt D.honest (disk_left_of result) → LeavesOnly (D.state disk).now IsEmptyFile
            → SinceThen (D.state disk) new StandsForNoneOrEmpty }
        ensures state { IfOk result (λ archive. HonestAt D.honest archive.pages.disk
            → state_of D.state archive ≡ empty_of Two) }
        ensures sound { IfOk result (λ archive. IsSound D.honest D.state archive) }
        ensures is_open { IfOk result (λ archive. archive.closed ≡ false) }
        ensures empty { IfOk result (λ archive. HonestAt D.honest archive.pages.disk
            → (D.state disk).seen ≡ []) }
        ensures refused { IfErr result (λ refused. D.honest refused.disk
            → IsUnmadePagesFor refused.why (D.state disk) (D.state refused.disk)) }
        ensures reason { IfErr result (λ refused. IsPagesMakeReason refused.why) }
        ensures failures { MatchResult result
            (λ archive. failures_at D.failures archive.pages.disk ≡ D.failures disk)
            (λ refused. CountsFailureIf refused.why (D.failures disk) (D.failures refused.disk)) }
    {
        let root = write_root(Layout::Two, no_firsts());
        let limit = most_pages(Layout::Two);
        let pages = Pages::make(alloc, disk, &root, limit)?;
        Ok(Archive::over(alloc, pages, nothing(alloc)))
    }

    /// Opens the archive of a disk, with the state that the disk stands for.
    ///
    /// - `leaves`, `moments`: a stop during the call, too, leaves what it may have left before it,
    ///   or the same pages as the disk shows; so the call may be stopped and made again any number
    ///   of times.
    /// - `untouched`: behind a closed gate nothing is written, whatever is answered: the disk is
    ///   synced once, or not even that where the device failed.
    /// - `refused`: `Damaged` is answered only where the disk stands for no state.
    ///
    /// # Errors
    ///
    /// `NotArchive` where the file does not begin as an archive does; `Damaged` where it stands for
    /// no state; `OutOfMemory`; `Device` where the device failed. The disk is handed back.
    pub fn open(alloc: Global, disk: D) -> Result<Archive<D>, Refused<D>>
        ensures honest { HonestAt D.honest (disk_left_of result) → D.honest disk }
        ensures leaves { let old = D.state disk in let new = state_at D.state
            (disk_left_of result) in
            HonestAt D.honest (disk_left_of result) → SinceThen old new (LeftOrSame old) }
        ensures moments { HonestAt D.honest (disk_left_of result)
            → KeepsStates (D.state disk) (state_at D.state (disk_left_of result)) }
        ensures untouched { HonestAt D.honest (disk_left_of result)
            → gate_of (D.state disk).seen ≢ gate_open
            → IsUnwritten (D.state disk) (state_at D.state (disk_left_of result)) }
        ensures state { IfOk result (λ archive. HonestAt D.honest archive.pages.disk
            → Holds (D.state disk).seen (state_of D.state archive)) }
        ensures sound { IfOk result (λ archive. IsSound D.honest D.state archive) }
        ensures is_open { IfOk result (λ archive. archive.closed ≡ false) }
        ensures refused { IfErr result (λ refused. D.honest refused.disk
            → IsUnopenedArchiveFor refused.why (D.state disk) (D.state refused.disk)) }
        ensures reason { IfErr result (λ refused. IsPagesOpenReason refused.why) }
        ensures failures { MatchResult result
            (λ archive. failures_at D.failures archive.pages.disk ≡ D.failures disk)
            (λ refused. let honest = D.honest refused.disk in
            CountsFailureWhere honest refused.why (D.failures disk) (D.failures refused.disk)) }
    {
        let opening = Pages::open(alloc, disk)?;
        Archive::claimed(alloc, opening)
    }

    // Claims what stands on pages, and gives the archive of it.
    fn claimed(alloc: Global, mut opening: Opening<D>) -> Result<Archive<D>, Refused<D>>
        requires root { opening.claimed ≡ only_root (length opening.pages) }
        requires rest { LeavesPages D.honest D.state opening.disk opening.pages }
        ensures same { HonestAt D.honest (disk_left_of result) → D.honest opening.disk
            × (state_at D.state (disk_left_of result) ≡ D.state opening.disk) }
        ensures state { IfOk result (λ archive. HonestAt D.honest archive.pages.disk
            → IsStateOf opening.pages (state_of D.state archive)) }
        ensures sound { IfOk result (λ archive. IsSound D.honest D.state archive) }
        ensures is_open { IfOk result (λ archive. archive.closed ≡ false) }
        ensures refused { IfErr result (λ refused. D.honest refused.disk
            → IsUnclaimedFor refused.why opening.pages) }
        ensures reason { IfErr result (λ refused. IsPagesOpenReason refused.why) }
        ensures failures { MatchResult result
            (λ archive. failures_at D.failures archive.pages.disk ≡ D.failures opening.disk)
            (λ refused.
            CountsFailureIf refused.why (D.failures opening.disk) (D.failures refused.disk)) }
    {
        match claim(alloc, &mut opening) {
            Ok(contents) => Archive::with_claims(alloc, opening, contents),
            Err(fault) => Err(Refused {
                disk: opening.into_disk(),
                why: reason_of(fault),
            }),
        }
    }

    // The archive of pages, of which all that is in use was claimed.
    fn with_claims(
        alloc: Global,
        opening: Opening<D>,
        contents: Contents,
    ) -> Result<Archive<D>, Refused<D>>
        requires rest { LeavesPages D.honest D.state opening.disk opening.pages }
        requires claimed { D.honest opening.disk → 0 < length opening.pages
            → IsClaimed opening.pages contents opening.claimed }
        requires rows { AreRows contents.layout contents.rows.items }
        ensures disk { disk_left_of result ≡ Some opening.disk }
        ensures state { IfOk result (λ archive. D.honest opening.disk
            → IsStateOf opening.pages (state_of D.state archive)) }
        ensures sound { IfOk result (λ archive. IsSound D.honest D.state archive) }
        ensures is_open { IfOk result (λ archive. archive.closed ≡ false) }
        ensures refused { IfErr result (λ refused.
            IsUndoneFor refused.why (most_pages_of contents.layout) (length opening.pages)) }
    {
        let limit = most_pages(contents.layout);
        let pages = opening.done(limit)?;
        // For the proof: its contract says that there is a mark for each page up to the limit.
        let _marks = pages.limit();
        Ok(Archive::over(alloc, pages, contents))
    }
}
