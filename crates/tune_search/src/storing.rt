// The lists of the search indexes, stored.
ghost use Rattle.std.specs.Prelude.{◌≡◌, ℕ, List, IfOk, OnOk};
ghost use Rattle.tune_pages.specs.Editing.{Edits};
ghost use Rattle.tune_pages.specs.FreePages.{TakesAtMost};
ghost use Rattle.tune_pages.specs.Kept.{HonestAt};
ghost use Rattle.tune_parts.specs.Parts.{Part};
ghost use Rattle.tune_search.specs.Inside.Four.{HoldsSomeFour, LaysFour};
ghost use Rattle.tune_search.specs.SearchPages.{AreListed, firsts_in, leaf_count, lists_of};
ghost use Rattle.tune_search.specs.Searches.{HoldsSomeTexts, HoldsTexts, SearchParts};

use crate::index_changes::store_list;
use crate::loading::SearchFirsts;
use crate::searches::SearchIndexes;
use tune_disk::Disk;
use tune_pages::{Edit, Fault};

// Stores the list of each of the four.
fn store_lists<D: Disk>(
    edit: &mut Edit<D>,
    indexes: &mut SearchIndexes,
) -> Result<SearchFirsts, Fault>
    requires holds { HonestAt D.honest edit.old.base.disk
        → HoldsSomeFour edit.old.next indexes.old }
    ensures notes { OnOk result (indexes.new.notes ≡ indexes.old.notes) }
    ensures lays { OnOk result (HonestAt D.honest edit.new.base.disk
        → LaysFour edit.old.next edit.new.next indexes.old indexes.new (λ entries. entries)) }
    ensures firsts { IfOk result (λ firsts. firsts ≡ firsts_in indexes.new) }
    ensures listed { OnOk result (AreListed indexes.new) }
    ensures leaves { OnOk result (leaf_count indexes.new ≡ leaf_count indexes.old) }
    ensures takes { HonestAt D.honest edit.new.base.disk
        → TakesAtMost (lists_of indexes.old) result edit.old.next edit.new.next }
    ensures edits { Edits D.Disk result (Unit {0}) edit.old edit.new }
{
    let titles = match store_list(edit, &mut indexes.titles) {
        Ok(first) => first,
        Err(fault) => return Err(fault),
    };
    let rhythms = match store_list(edit, &mut indexes.rhythms) {
        Ok(first) => first,
        Err(fault) => return Err(fault),
    };
    let scales = match store_list(edit, &mut indexes.scales) {
        Ok(first) => first,
        Err(fault) => return Err(fault),
    };
    let incipits = match indexes.incipits.store(edit) {
        Ok(first) => first,
        Err(fault) => return Err(fault),
    };
    Ok(SearchFirsts {
        titles,
        rhythms,
        scales,
        incipits,
    })
}

impl SearchIndexes {
    /// Stores the lists of the four, and gives where they begin.
    ///
    /// # Errors
    ///
    /// `FileFull` only where fewer pages are free than the lists want; `OutOfMemory`; `Device`
    /// where the disk failed: the pages are then closed. `Closed`. The indexes are then to be
    /// dropped.
    pub fn store<D: Disk>(&mut self, edit: &mut Edit<D>) -> Result<SearchFirsts, Fault>
        requires holds { HonestAt D.honest edit.old.base.disk
            → HoldsSomeTexts edit.old.next self.old }
        ensures notes { OnOk result (self.new.notes ≡ self.old.notes) }
        ensures holds { OnOk result (HonestAt D.honest edit.new.base.disk
            → (before after : List Part) (parts : SearchParts) (tunes : List (ℕ × List ℕ))
            → HoldsTexts edit.old.next self.old before after parts tunes
            → (next : SearchParts) × HoldsTexts edit.new.next self.new before after next tunes) }
        ensures firsts { IfOk result (λ firsts. firsts ≡ firsts_in self.new) }
        ensures listed { OnOk result (AreListed self.new) }
        ensures leaves { OnOk result (leaf_count self.new ≡ leaf_count self.old) }
        ensures takes { HonestAt D.honest edit.new.base.disk
            → TakesAtMost (lists_of self.old) result edit.old.next edit.new.next }
        ensures edits { Edits D.Disk result (Unit {0}) edit.old edit.new }
    {
        match store_lists(edit, self) {
            Ok(firsts) => Ok(firsts),
            Err(fault) => Err(fault),
        }
    }
}
