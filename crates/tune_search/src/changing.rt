// Texts put into the search indexes and taken out of them.
ghost use Rattle.std.specs.Prelude.{◌≡◌, ◌^◌, ◌+◌, ◌*◌, ◌<◌, ◌++◌, ◌∷◌, [], ℕ, length, List};
ghost use Rattle.std.specs.Prelude.{OnOk};
ghost use Rattle.tune_pages.specs.Editing.{Edits};
ghost use Rattle.tune_pages.specs.Faults.{free_pages};
ghost use Rattle.tune_pages.specs.Kept.{HonestAt};
ghost use Rattle.index_keys.specs.Entries.{IsRising};
ghost use Rattle.index_keys.specs.Holdings.{AreSmall, IsWithout};
ghost use Rattle.tune_parts.specs.Parts.{Part};
ghost use Rattle.tune_search.specs.Inside.Four.{HoldsFour, HoldsSomeFour, LaysFour, entry_count};
ghost use Rattle.tune_search.specs.Inside.Four.{runs_put_in, taken_out};
ghost use Rattle.tune_search.specs.SearchPages.{leaf_count, most_entries};
ghost use Rattle.tune_search.specs.Searches.{AreRunsOf, HoldsSomeTexts, HoldsTexts, SearchParts};
ghost use Rattle.tune_search.specs.Searches.{SearchRuns};

use crate::index_changes::{put_run, take_run};
use crate::runs::Runs;
use crate::searches::SearchIndexes;
use tune_disk::Disk;
use tune_pages::{Edit, Fault};

// Puts a run into each of the four.
fn put_runs<D: Disk>(
    edit: &mut Edit<D>,
    indexes: &mut SearchIndexes,
    runs: &Runs,
) -> Result<(), Fault>
    requires notes { runs.now.notes ≡ indexes.old.notes }
    requires holds { HonestAt D.honest edit.old.base.disk
        → HoldsSomeFour edit.old.next indexes.old }
    requires titles { IsRising runs.now.titles }
    requires rhythms { IsRising runs.now.rhythms }
    requires scales { IsRising runs.now.scales }
    requires incipits { IsRising runs.now.incipits }
    ensures notes { OnOk result (indexes.new.notes ≡ indexes.old.notes) }
    ensures lays { OnOk result (HonestAt D.honest edit.new.base.disk → LaysFour edit.old.next
        edit.new.next indexes.old indexes.new (λ entries. runs_put_in runs.now entries)) }
    ensures balance { OnOk result (free_pages edit.old.next.used + leaf_count indexes.old
        ≡ free_pages edit.new.next.used + leaf_count indexes.new) }
    ensures edits { Edits D.Disk result (HonestAt D.honest edit.new.base.disk
        → (before after : List Part) (parts : SearchParts) (entries : SearchRuns)
        → HoldsFour edit.old.next indexes.old before after parts entries
        → free_pages edit.old.next.used + leaf_count indexes.old
        < entry_count (runs_put_in runs.now entries)) edit.old edit.new }
{
    match put_run(edit, &mut indexes.titles, &runs.titles) {
        Ok(()) => {}
        Err(fault) => return Err(fault),
    }
    match put_run(edit, &mut indexes.rhythms, &runs.rhythms) {
        Ok(()) => {}
        Err(fault) => return Err(fault),
    }
    match put_run(edit, &mut indexes.scales, &runs.scales) {
        Ok(()) => {}
        Err(fault) => return Err(fault),
    }
    match indexes.incipits.put(edit, &runs.incipits) {
        Ok(()) => {}
        Err(fault) => return Err(fault),
    }
    Ok(())
}

// Takes a run out of each of the four.
fn take_runs<D: Disk>(
    edit: &mut Edit<D>,
    indexes: &mut SearchIndexes,
    runs: &Runs,
) -> Result<(), Fault>
    requires notes { runs.now.notes ≡ indexes.old.notes }
    requires holds { HonestAt D.honest edit.old.base.disk
        → HoldsSomeFour edit.old.next indexes.old }
    ensures notes { OnOk result (indexes.new.notes ≡ indexes.old.notes) }
    ensures lays { OnOk result (HonestAt D.honest edit.new.base.disk → LaysFour edit.old.next
        edit.new.next indexes.old indexes.new (λ entries. taken_out runs.now entries)) }
    ensures balance { OnOk result (free_pages edit.old.next.used + leaf_count indexes.old
        ≡ free_pages edit.new.next.used + leaf_count indexes.new) }
    ensures edits { Edits D.Disk result ⊥ edit.old edit.new }
{
    match take_run(edit, &mut indexes.titles, &runs.titles) {
        Ok(()) => {}
        Err(fault) => return Err(fault),
    }
    match take_run(edit, &mut indexes.rhythms, &runs.rhythms) {
        Ok(()) => {}
        Err(fault) => return Err(fault),
    }
    match take_run(edit, &mut indexes.scales, &runs.scales) {
        Ok(()) => {}
        Err(fault) => return Err(fault),
    }
    match indexes.incipits.take(edit, &runs.incipits) {
        Ok(()) => {}
        Err(fault) => return Err(fault),
    }
    Ok(())
}

impl SearchIndexes {
    /// Puts in the texts whose entries the runs are.
    ///
    /// # Errors
    ///
    /// `FileFull` only where the pages that are free and the leaves are fewer than the entries that
    /// so many texts may have; `OutOfMemory`; `Device` where the disk failed: the pages are then
    /// closed. `Closed`. The indexes are then to be dropped.
    pub fn put<D: Disk>(&mut self, edit: &mut Edit<D>, runs: &Runs) -> Result<(), Fault>
        requires notes { runs.now.notes ≡ self.old.notes }
        requires holds { HonestAt D.honest edit.old.base.disk
            → HoldsSomeTexts edit.old.next self.old }
        requires runs { (more : List (ℕ × List ℕ)) × AreRunsOf more runs.now }
        ensures notes { OnOk result (self.new.notes ≡ self.old.notes) }
        ensures holds { OnOk result (HonestAt D.honest edit.new.base.disk
            → (before after : List Part) (parts : SearchParts) (tunes more : List (ℕ × List ℕ))
            → AreSmall tunes → AreSmall more → AreRunsOf more runs.now
            → HoldsTexts edit.old.next self.old before after parts tunes → (next : SearchParts)
            × HoldsTexts edit.new.next self.new before after next (tunes ++ more)) }
        ensures balance { OnOk result (free_pages edit.old.next.used + leaf_count self.old
            ≡ free_pages edit.new.next.used + leaf_count self.new) }
        ensures edits { Edits D.Disk result (HonestAt D.honest edit.new.base.disk
            → (before after : List Part) (parts : SearchParts) (tunes more : List (ℕ × List ℕ))
            → AreSmall tunes → AreSmall more → AreRunsOf more runs.now → HoldsTexts edit.old.next
            self.old before after parts tunes → free_pages edit.old.next.used + leaf_count self.old
            < most_entries * length (tunes ++ more)) edit.old edit.new }
    {
        match put_runs(edit, self, runs) {
            Ok(()) => Ok(()),
            Err(fault) => Err(fault),
        }
    }

    /// Takes out the text whose entries the runs are.
    ///
    /// # Errors
    ///
    /// `OutOfMemory`; `Device` where the disk failed: the pages are then closed. `Closed`. The
    /// indexes are then to be dropped. It never wants a page.
    pub fn take<D: Disk>(&mut self, edit: &mut Edit<D>, runs: &Runs) -> Result<(), Fault>
        requires notes { runs.now.notes ≡ self.old.notes }
        requires holds { HonestAt D.honest edit.old.base.disk
            → HoldsSomeTexts edit.old.next self.old }
        ensures notes { OnOk result (self.new.notes ≡ self.old.notes) }
        ensures holds { OnOk result (HonestAt D.honest edit.new.base.disk
            → (before after : List Part) (parts : SearchParts) (gone : ℕ
            × List ℕ) (tunes others : List (ℕ × List ℕ)) → gone.0 < 2 ^ 32
            → AreSmall tunes → IsWithout gone tunes others → AreRunsOf (gone ∷ []) runs.now
            → HoldsTexts edit.old.next self.old before after parts tunes
            → (next : SearchParts) × HoldsTexts edit.new.next self.new before after next others) }
        ensures balance { OnOk result (free_pages edit.old.next.used + leaf_count self.old
            ≡ free_pages edit.new.next.used + leaf_count self.new) }
        ensures edits { Edits D.Disk result ⊥ edit.old edit.new }
    {
        match take_runs(edit, self, runs) {
            Ok(()) => Ok(()),
            Err(fault) => Err(fault),
        }
    }
}
