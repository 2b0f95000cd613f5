// Making a journal of one page.
ghost use Rattle.std.specs.Prelude.{◌≡◌, ◌<◌, [], ◌∷◌, length, OnOk, IfOk, IfErr, MatchResult};
ghost use Rattle.tune_disk.specs.Disk.{Calls, settled};
ghost use Rattle.tune_disk.specs.Stops.{LeavesOnly, SinceThen};
ghost use Rattle.tune_journal.specs.Held.{disk_of_opening};
ghost use Rattle.tune_journal.specs.Image.{pages_of, StandsForNone};
ghost use Rattle.tune_journal.specs.Inside.LaidFile.{IsCleared, IsLaid};
ghost use Rattle.tune_journal.specs.Inside.Phases.{WritesAndSyncs};
ghost use Rattle.tune_journal.specs.Inside.Rest.{IsAtRest};
ghost use Rattle.tune_journal.specs.FileOffsets.{block_bytes};
ghost use Rattle.tune_journal.specs.Making.{IsEmptyFile, StandsForNoneOr};
ghost use Rattle.tune_journal.specs.Moments.{LeavesPages};
ghost use Rattle.tune_journal.specs.Refusal.{IsUnmadeFor, IsMakeReason, CountsFailureIf};

use crate::ahead::PagesAhead;
use crate::changes::PageImage;
use crate::commit::write_synced;
use crate::file_offsets::{
    BLOCK_BYTES, COUNT_OFFSET, DESCRIPTOR_OFFSET, GATE_OFFSET, MAGIC, MAGIC_OFFSET, PAGES_OFFSET,
    number_bytes,
};
use crate::journal::Journal;
use crate::look::settle;
use crate::open_fault::{OpenFault, Refused, hand_back};
use tune_disk::{DeviceFault, Disk};

// Writes a first block of zeros into an empty file.
fn clear<D: Disk>(disk: &mut D) -> Result<(), DeviceFault>
    ensures moments { let old = D.state disk.old in let new = D.state disk.new in
        D.honest disk.new → old.now ≡ settled [] → SinceThen old new StandsForNone }
    ensures cleared { OnOk result (D.honest disk.new
        → (D.state disk.old).seen ≡ [] → IsCleared (D.state disk.new)) }
    ensures calls { Calls D.honest D.failures result disk.old disk.new }
{
    let zeros = [0; BLOCK_BYTES];
    disk.write_at(MAGIC_OFFSET, &zeros)?;
    disk.sync()
}

// Writes a closed gate, an empty descriptor, a count of one and the page.
fn lay<D: Disk>(disk: &mut D, first: &PageImage) -> Result<(), DeviceFault>
    ensures writes { let old = D.state disk.old in let new = D.state disk.new in
        D.honest disk.new → WritesAndSyncs (λ i. i < block_bytes) result old new }
    ensures laid { let old = D.state disk.old in let new = D.state disk.new in
        OnOk result (D.honest disk.new
        → length old.seen ≡ block_bytes → IsLaid first.now.bytes new.seen) }
    ensures calls { Calls D.honest D.failures result disk.old disk.new }
{
    let zeros = [0; BLOCK_BYTES];
    disk.write_at(GATE_OFFSET, &zeros)?;
    disk.write_at(DESCRIPTOR_OFFSET, &zeros)?;
    disk.write_at(COUNT_OFFSET, &number_bytes(1))?;
    write_synced(disk, PAGES_OFFSET, &first.bytes)
}

// Lays out an empty file. The magic comes last.
pub(crate) fn lay_out<D: Disk>(disk: &mut D, first: &PageImage) -> Result<(), DeviceFault>
    ensures moments { let old = D.state disk.old in let new = D.state disk.new in
        D.honest disk.new → old.now ≡ settled [] → old.seen ≡ []
        → SinceThen old new (StandsForNoneOr first.now.bytes) }
    ensures rest { OnOk result (D.honest disk.new
        → (D.state disk.old).seen ≡ [] → IsAtRest 1 (D.state disk.new)) }
    ensures pages { let old = D.state disk.old in let new = D.state disk.new in
        OnOk result (D.honest disk.new
        → old.seen ≡ [] → pages_of 1 new.seen ≡ first.now.bytes ∷ []) }
    ensures calls { Calls D.honest D.failures result disk.old disk.new }
{
    clear(disk)?;
    lay(disk, first)?;
    write_synced(disk, MAGIC_OFFSET, &MAGIC)
}

impl<D: Disk> Journal<D> {
    /// Makes a journal of one page on a disk without a byte.
    ///
    /// # Errors
    ///
    /// `NotEmpty` where the disk has a byte: nothing was written then. `Device` where the disk
    /// failed: a stop then leaves no journal, or this one.
    pub fn make(disk: D, first: &PageImage) -> Result<Journal<D>, Refused<D>>
        ensures honest { D.honest (disk_of_opening result) → D.honest disk }
        // Where each file that a stop may leave at the start has no byte, a stop during the call
        // leaves no journal or this one.
        ensures moments { let old = D.state disk in let new = D.state (disk_of_opening result) in
            D.honest (disk_of_opening result) → LeavesOnly old.now IsEmptyFile
            → SinceThen old new (StandsForNoneOr first.now.bytes) }
        // At `Ok` it leaves this one, whatever it might have left at the start.
        ensures rest { IfOk result (λ journal.
            LeavesPages D.honest D.state journal.disk (first.now.bytes ∷ [])) }
        ensures pages { IfOk result (λ journal. D.honest journal.disk
            → journal.pages ≡ first.now.bytes ∷ []) }
        ensures count { IfOk result (λ journal. length journal.pages ≡ 1) }
        ensures empty { IfOk result (λ journal. D.honest journal.disk → (D.state disk).seen ≡ []) }
        ensures refused { IfErr result (λ refused. D.honest refused.disk
            → IsUnmadeFor refused.why (D.state disk) (D.state refused.disk)) }
        ensures reason { IfErr result (λ refused. IsMakeReason refused.why) }
        ensures failures { MatchResult result
            (λ journal. D.failures journal.disk ≡ D.failures disk)
            (λ refused. CountsFailureIf refused.why (D.failures disk) (D.failures refused.disk)) }
    {
        let mut disk = disk;
        match settle(&mut disk) {
            Ok(0) => match lay_out(&mut disk, first) {
                Ok(()) => Ok(Journal {
                    disk,
                    count: 1,
                    ahead: PagesAhead::new(),
                }),
                Err(DeviceFault) => Err(hand_back(disk, OpenFault::Device)),
            },
            Ok(_) => Err(hand_back(disk, OpenFault::NotEmpty)),
            Err(DeviceFault) => Err(hand_back(disk, OpenFault::Device)),
        }
    }
}
