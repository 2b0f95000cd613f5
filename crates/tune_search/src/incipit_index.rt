// An index of incipits, by eight notes or by twelve.
ghost use Rattle.std.specs.Prelude.{◌≡◌, ◌+◌, ◌*◌, ◌<◌, ℕ, true, length, List};
ghost use Rattle.std.specs.Prelude.{Contains, IfErr, IfOk, OnOk};
ghost use Rattle.tune_pages.specs.Claim.{IsChainFault, LooksOpening};
ghost use Rattle.tune_pages.specs.Editing.{Consults, Edits};
ghost use Rattle.tune_pages.specs.Faults.{free_pages, pages_for};
ghost use Rattle.tune_pages.specs.FreePages.{TakesAtMost};
ghost use Rattle.tune_pages.specs.Kept.{HonestAt};
ghost use Rattle.index_keys.specs.Entries.{Entry, IsRising, inserted_all, removed_all};
ghost use Rattle.index_keys.specs.Holdings.{HoldsEntries};
ghost use Rattle.tune_incipit.specs.Incipits.{finds_steps};
ghost use Rattle.tune_incipit.specs.ScaleAndIncipitKeys.{incipit_keys};
ghost use Rattle.tune_index.specs.Indexes.{KeepsBalance};
ghost use Rattle.tune_index.specs.ListedLeaves.{IsStored, LoadsIndex, index_with, pages_claimed};
ghost use Rattle.tune_parts.specs.Parts.{Part};
ghost use Rattle.tune_search.specs.Empty.{no_leaves};
ghost use Rattle.tune_search.specs.IncipitForms.{entries_of_incipits, note_count, notes_of_entries};
ghost use Rattle.tune_search.specs.IncipitForms.{entries_held, notes_held};
ghost use Rattle.tune_search.specs.IncipitForms.{notes_of_index, shape_of};
ghost use Rattle.tune_search.specs.IndexParts.{HoldsIndexAmong, HoldsSomeIndex, IndexParts};
ghost use Rattle.tune_search.specs.IndexParts.{LaysIndex};
ghost use Rattle.tune_search.specs.Searches.{incipit_bytes};

use crate::finding::values_for;
use crate::held_entries::HeldEntries;
use crate::incipit_entries::{IncipitEntries, IncipitNotes};
use crate::index_changes::{put_run, store_list, take_run};
use std::alloc::{AllocError, Global};
use tune_disk::Disk;
use tune_incipit::{EightNoteKeys, SomeSteps, TwelveNoteKeys};
use tune_index::{Index, Keyed};
use tune_pages::{ClaimFault, Edit, Fault, Opening};

// The index of incipits: its keys have four bytes for each note.
#[derive(Drop)]
pub(crate) enum IncipitIndex {
    Eight(Index<32>),
    Twelve(Index<48>),
}

impl IncipitIndex {
    // An index without an entry. It takes no memory.
    pub fn new(alloc: Global, notes: IncipitNotes) -> IncipitIndex
        ensures notes { notes_of_index result ≡ note_count notes }
        ensures none { shape_of result ≡ no_leaves }
    {
        match notes {
            IncipitNotes::Eight => IncipitIndex::Eight(Index::new(alloc)),
            IncipitNotes::Twelve => IncipitIndex::Twelve(Index::new(alloc)),
        }
    }

    // By how many notes it is.
    pub fn notes(&self) -> IncipitNotes
        ensures { note_count result ≡ notes_of_index self.now }
    {
        match self {
            IncipitIndex::Eight(_) => IncipitNotes::Eight,
            IncipitIndex::Twelve(_) => IncipitNotes::Twelve,
        }
    }

    // The same index again.
    pub fn copy(&self, alloc: Global) -> Result<IncipitIndex, AllocError>
        ensures { IfOk result (λ copy. copy ≡ self.now) }
    {
        match self {
            IncipitIndex::Eight(index) => Ok(IncipitIndex::Eight(index.copy(alloc)?)),
            IncipitIndex::Twelve(index) => Ok(IncipitIndex::Twelve(index.copy(alloc)?)),
        }
    }

    // Becomes the same index as the other, in the memory that it has where it is of the same form.
    pub fn copy_from(&mut self, alloc: Global, other: &IncipitIndex) -> Result<(), AllocError>
        ensures same { OnOk result (self.new ≡ other.now) }
    {
        match other {
            IncipitIndex::Eight(other) => match self {
                IncipitIndex::Eight(index) => index.copy_from(other)?,
                IncipitIndex::Twelve(_) => *self = IncipitIndex::Eight(other.copy(alloc)?),
            },
            IncipitIndex::Twelve(other) => match self {
                IncipitIndex::Twelve(index) => index.copy_from(other)?,
                IncipitIndex::Eight(_) => *self = IncipitIndex::Twelve(other.copy(alloc)?),
            },
        }
        Ok(())
    }

    // Claims the pages of an index, and gives it with its entries.
    pub fn load<D: Disk>(
        alloc: Global,
        opening: &mut Opening<D>,
        notes: IncipitNotes,
        first: u32,
        most: u32,
    ) -> Result<(IncipitIndex, HeldEntries), ClaimFault>
        ensures notes { IfOk result (λ loaded. notes_of_index loaded.0 ≡ note_count notes) }
        ensures same { IfOk result (λ loaded. notes_held loaded.1 ≡ note_count notes) }
        ensures loads { IfOk result (λ loaded. D.honest opening.new.disk → LoadsIndex
            (incipit_bytes (note_count notes)) most
            (pages_claimed opening.old.pages opening.old.claimed) opening.new.claimed first
            (index_with (shape_of loaded.0) (entries_held loaded.1))) }
        ensures damaged { IfErr result (λ fault. D.honest opening.new.disk → IsChainFault fault
            (IsStored (incipit_bytes (note_count notes)) most opening.old.pages
            opening.old.claimed first)) }
        ensures looks { LooksOpening D.honest D.failures D.state result opening.old opening.new }
    {
        match notes {
            IncipitNotes::Eight => match Index::load(alloc, opening, first, most) {
                Ok((index, entries)) => {
                    Ok((IncipitIndex::Eight(index), HeldEntries::Eight(entries)))
                }
                Err(fault) => Err(fault),
            },
            IncipitNotes::Twelve => match Index::load(alloc, opening, first, most) {
                Ok((index, entries)) => {
                    Ok((IncipitIndex::Twelve(index), HeldEntries::Twelve(entries)))
                }
                Err(fault) => Err(fault),
            },
        }
    }

    // Puts in entries that rise.
    pub fn put<D: Disk>(&mut self, edit: &mut Edit<D>, run: &IncipitEntries) -> Result<(), Fault>
        requires notes { notes_of_entries run.now ≡ notes_of_index self.old }
        requires index { HonestAt D.honest edit.old.base.disk → HoldsSomeIndex
            (incipit_bytes (notes_of_index self.old)) edit.old.next (shape_of self.old) }
        requires rising { IsRising (entries_of_incipits run.now) }
        ensures notes { OnOk result (notes_of_index self.new ≡ notes_of_index self.old) }
        ensures lays { OnOk result (HonestAt D.honest edit.new.base.disk → LaysIndex (incipit_bytes
            (notes_of_index self.old)) edit.old.next edit.new.next (shape_of self.old)
            (shape_of self.new) (λ entries. inserted_all (entries_of_incipits run.now) entries)) }
        ensures balance { OnOk result (KeepsBalance edit.old.next edit.new.next
            (shape_of self.old).pages (shape_of self.new).pages) }
        ensures edits { Edits D.Disk result (HonestAt D.honest edit.new.base.disk
            → (before after : List Part) (parts : IndexParts) (entries : List Entry)
            → HoldsIndexAmong (incipit_bytes (notes_of_index self.old)) edit.old.next
            (index_with (shape_of self.old) entries) before after parts
            → free_pages edit.old.next.used + length (shape_of self.old).pages
            < length (inserted_all (entries_of_incipits run.now) entries)) edit.old edit.new }
    {
        match self {
            IncipitIndex::Eight(index) => match run {
                IncipitEntries::Eight(run) => put_run(edit, index, run),
                IncipitEntries::Twelve(_) => unreachable!(),
            },
            IncipitIndex::Twelve(index) => match run {
                IncipitEntries::Twelve(run) => put_run(edit, index, run),
                IncipitEntries::Eight(_) => unreachable!(),
            },
        }
    }

    // Takes entries out.
    pub fn take<D: Disk>(&mut self, edit: &mut Edit<D>, run: &IncipitEntries) -> Result<(), Fault>
        requires notes { notes_of_entries run.now ≡ notes_of_index self.old }
        requires index { HonestAt D.honest edit.old.base.disk → HoldsSomeIndex
            (incipit_bytes (notes_of_index self.old)) edit.old.next (shape_of self.old) }
        ensures notes { OnOk result (notes_of_index self.new ≡ notes_of_index self.old) }
        ensures lays { OnOk result (HonestAt D.honest edit.new.base.disk → LaysIndex (incipit_bytes
            (notes_of_index self.old)) edit.old.next edit.new.next (shape_of self.old)
            (shape_of self.new) (λ entries. removed_all (entries_of_incipits run.now) entries)) }
        ensures balance { OnOk result (KeepsBalance edit.old.next edit.new.next
            (shape_of self.old).pages (shape_of self.new).pages) }
        ensures edits { Edits D.Disk result ⊥ edit.old edit.new }
    {
        match self {
            IncipitIndex::Eight(index) => match run {
                IncipitEntries::Eight(run) => take_run(edit, index, run),
                IncipitEntries::Twelve(_) => unreachable!(),
            },
            IncipitIndex::Twelve(index) => match run {
                IncipitEntries::Twelve(run) => take_run(edit, index, run),
                IncipitEntries::Eight(_) => unreachable!(),
            },
        }
    }

    // Stores the list, and gives the first page of its chain: 0 where there is no leaf.
    pub fn store<D: Disk>(&mut self, edit: &mut Edit<D>) -> Result<u32, Fault>
        requires index { HonestAt D.honest edit.old.base.disk → HoldsSomeIndex
            (incipit_bytes (notes_of_index self.old)) edit.old.next (shape_of self.old) }
        ensures notes { OnOk result (notes_of_index self.new ≡ notes_of_index self.old) }
        ensures lays { OnOk result (HonestAt D.honest edit.new.base.disk
            → LaysIndex (incipit_bytes (notes_of_index self.old)) edit.old.next edit.new.next
            (shape_of self.old) (shape_of self.new) (λ entries. entries)) }
        ensures list { IfOk result (λ first. ((shape_of self.new).first ≡ first)
            × ((shape_of self.new).listed ≡ true)) }
        ensures leaves { OnOk result ((shape_of self.new).pages ≡ (shape_of self.old).pages) }
        ensures takes { HonestAt D.honest edit.new.base.disk → TakesAtMost
            (pages_for (4 * length (shape_of self.old).pages)) result edit.old.next edit.new.next }
        ensures edits { Edits D.Disk result (Unit {0}) edit.old edit.new }
    {
        match self {
            IncipitIndex::Eight(index) => store_list(edit, index),
            IncipitIndex::Twelve(index) => store_list(edit, index),
        }
    }

    // The numbers that stand at the keys of the incipits that begin with these steps.
    pub fn values_for<D: Disk>(
        &self,
        edit: &mut Edit<D>,
        front: &SomeSteps,
    ) -> Result<Vec<u32>, Fault>
        requires holds { HonestAt D.honest edit.old.base.disk → HoldsSomeIndex
            (incipit_bytes (notes_of_index self.now)) edit.old.next (shape_of self.now) }
        ensures finds { IfOk result (λ values. HonestAt D.honest edit.new.base.disk
            → (before after : List Part) (parts : IndexParts) (entries : List Entry)
            → HoldsIndexAmong (incipit_bytes (notes_of_index self.now)) edit.old.next (index_with
            (shape_of self.now) entries) before after parts → (tunes : List (ℕ × List ℕ))
            → HoldsEntries (incipit_keys (notes_of_index self.now)) tunes entries
            → (tune : ℕ × List ℕ) → Contains tunes tune → finds_steps (notes_of_index self.now)
            front.now.steps tune.1 ≡ true → Contains values.items tune.0) }
        ensures consults { Consults D.Disk result edit.old edit.new }
    {
        match self {
            IncipitIndex::Eight(index) => { values_for::<D, EightNoteKeys>(edit, index, front) }
            IncipitIndex::Twelve(index) => {
                let (low, high) = TwelveNoteKeys::range(front);
                index.candidates(edit, &low, &high)
            }
        }
    }
}
