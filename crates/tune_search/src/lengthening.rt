// Incipits by eight notes, brought to twelve.
ghost use Rattle.std.specs.Prelude.{◌≡◌, ◌+◌, ◌<◌, [], ℕ, length, List, OnOk, IfOk};
ghost use Rattle.tune_pages.specs.Editing.{Edits};
ghost use Rattle.tune_pages.specs.Faults.{free_pages};
ghost use Rattle.tune_pages.specs.Kept.{HonestAt};
ghost use Rattle.index_keys.specs.Entries.{IsRising, inserted_all};
ghost use Rattle.tune_parts.specs.Parts.{Part};
ghost use Rattle.tune_search.specs.IncipitRuns.{AreIncipitsOf, HoldsIncipits};
ghost use Rattle.tune_search.specs.IndexParts.{HoldsSomeIndex, LaysIndex};
ghost use Rattle.tune_search.specs.Inside.Lengthening.{Lengthens};
ghost use Rattle.tune_search.specs.SearchPages.{leaf_count};
ghost use Rattle.tune_search.specs.Searches.{HoldsTexts, SearchParts};

use crate::incipit_index::IncipitIndex;
use crate::incipit_run::IncipitRun;
use crate::index_changes::put_run;
use crate::searches::SearchIndexes;
use tune_disk::Disk;
use tune_index::Index;
use tune_pages::{Edit, Fault};

// Takes all entries out of an index that stands among other parts, which stay.
fn take_all<D: Disk, const W: usize>(edit: &mut Edit<D>, index: &mut Index<W>) -> Result<(), Fault>
    requires index { HonestAt D.honest edit.old.base.disk
        → HoldsSomeIndex W edit.old.next index.old }
    ensures lays { OnOk result (HonestAt D.honest edit.new.base.disk
        → LaysIndex W edit.old.next edit.new.next index.old index.new (λ _. [])) }
    ensures balance { OnOk result (free_pages edit.new.next.used
        ≡ free_pages edit.old.next.used + length index.old.pages) }
    ensures edits { Edits D.Disk result ⊥ edit.old edit.new }
{
    // For the proof.
    edit.law_of_pages();
    match index.clear(edit) {
        Ok(()) => {
            edit.law_of_pages();
            Ok(())
        }
        Err(fault) => Err(fault),
    }
}

// The index by twelve notes in the place of that by eight, with the entries of the run.
fn lengthen<D: Disk>(
    edit: &mut Edit<D>,
    index: &mut Index<32>,
    run: &IncipitRun,
) -> Result<Index<48>, Fault>
    requires index { HonestAt D.honest edit.old.base.disk
        → HoldsSomeIndex 32 edit.old.next index.old }
    requires rising { IsRising run.now }
    ensures lays { IfOk result (λ longer. HonestAt D.honest edit.new.base.disk
        → Lengthens edit.old.next edit.new.next index.old longer run.now) }
    ensures balance { IfOk result (λ longer. HonestAt D.honest edit.new.base.disk
        → free_pages edit.old.next.used + length index.old.pages
        ≡ free_pages edit.new.next.used + length longer.pages) }
    ensures edits { Edits D.Disk result (HonestAt D.honest edit.new.base.disk
        → free_pages edit.old.next.used + length index.old.pages
        < length (inserted_all run.now [])) edit.old edit.new }
{
    match take_all(edit, index) {
        Ok(()) => {}
        Err(fault) => return Err(fault),
    }
    let mut longer = Index::in_place_of(edit.alloc(), index);
    match put_run(edit, &mut longer, &run.entries) {
        Ok(()) => Ok(longer),
        Err(fault) => Err(fault),
    }
}

impl SearchIndexes {
    /// Comes to keep incipits by twelve notes: what stands by eight goes out, and none of it is
    /// read; the run comes in its place. It is that of the tunes that the indexes hold.
    ///
    /// # Errors
    ///
    /// `FileFull` only where the pages that are free and the leaves of the incipits are fewer than
    /// the tunes; `OutOfMemory`; `Device` where the disk failed: the pages are then closed.
    /// `Closed`. The indexes are then to be dropped.
    pub fn lengthen_incipits<D: Disk>(
        &mut self,
        edit: &mut Edit<D>,
        run: &IncipitRun,
    ) -> Result<(), Fault>
        requires notes { self.old.notes ≡ 8 }
        requires run { (tunes : List (ℕ × List ℕ)) × AreIncipitsOf tunes run.now }
        requires holds { HonestAt D.honest edit.old.base.disk
            → HoldsIncipits edit.old.next self.old run.now }
        ensures notes { OnOk result (self.new.notes ≡ 12) }
        ensures holds { OnOk result (HonestAt D.honest edit.new.base.disk
            → (before after : List Part) (parts : SearchParts) (tunes : List (ℕ × List ℕ))
            → AreIncipitsOf tunes run.now
            → HoldsTexts edit.old.next self.old before after parts tunes
            → (next : SearchParts) × HoldsTexts edit.new.next self.new before after next tunes) }
        ensures balance { OnOk result (HonestAt D.honest edit.new.base.disk
            → free_pages edit.old.next.used + leaf_count self.old
            ≡ free_pages edit.new.next.used + leaf_count self.new) }
        ensures edits { Edits D.Disk result (HonestAt D.honest edit.new.base.disk
            → (before after : List Part) (parts : SearchParts) (tunes : List (ℕ × List ℕ))
            → AreIncipitsOf tunes run.now → HoldsTexts edit.old.next self.old before
            after parts tunes → free_pages edit.old.next.used < length tunes) edit.old edit.new }
    {
        let longer = match &mut self.incipits {
            IncipitIndex::Eight(index) => match lengthen(edit, index, run) {
                Ok(longer) => longer,
                Err(fault) => return Err(fault),
            },
            IncipitIndex::Twelve(_) => unreachable!(),
        };
        self.incipits = IncipitIndex::Twelve(longer);
        Ok(())
    }
}
