// Queries looked for in the search indexes.
ghost use Rattle.std.specs.Prelude.{◌≡◌, ℕ, List, Contains, IfOk, true};
ghost use Rattle.index_keys.specs.Entries.{Entry};
ghost use Rattle.index_keys.specs.Holdings.{HoldsEntries};
ghost use Rattle.tune_index.specs.ListedLeaves.{index_with};
ghost use Rattle.tune_pages.specs.Editing.{Consults};
ghost use Rattle.tune_pages.specs.Kept.{HonestAt};
ghost use Rattle.tune_parts.specs.Parts.{Part};
ghost use Rattle.tune_queries.specs.Queries.{finds};
ghost use Rattle.tune_search.specs.IndexParts.{HoldsIndexAmong, HoldsSomeIndex, IndexParts};
ghost use Rattle.tune_search.specs.Searches.{HoldsSomeTexts, HoldsTexts, SearchParts};
ghost use Rattle.tune_search.specs.Searches.{key_bytes};

use crate::searches::SearchIndexes;
use tune_disk::Disk;
use tune_incipit::ScaleKeys;
use tune_index::{Index, Keyed};
use tune_pages::{Edit, Fault};
use tune_queries::Sought;
use tune_titles::{RhythmKeys, TitleKeys};

// The numbers that stand at the keys of the query's range: that of each tune that the query finds
// is among them.
pub(crate) fn values_for<D: Disk, K: Keyed<32>>(
    edit: &mut Edit<D>,
    index: &Index<32>,
    query: &K::Query,
) -> Result<Vec<u32>, Fault>
    requires holds { HonestAt D.honest edit.old.base.disk
        → HoldsSomeIndex key_bytes edit.old.next index.now }
    ensures finds { IfOk result (λ values. HonestAt D.honest edit.new.base.disk
        → (before after : List Part) (parts : IndexParts) (entries : List Entry)
        → HoldsIndexAmong key_bytes edit.old.next (index_with index.now entries) before after parts
        → (tunes : List (ℕ × K.Text)) → HoldsEntries K.keys_of tunes entries → (tune : ℕ × K.Text)
        → Contains tunes tune → K.matches query.now tune.1 ≡ true → Contains values.items tune.0) }
    ensures consults { Consults D.Disk result edit.old edit.new }
{
    let (low, high) = K::range(query);
    index.candidates(edit, &low, &high)
}

impl SearchIndexes {
    /// The numbers of tunes at which a query is to be tried, in no order: that of each tune that
    /// the query finds is among them, some more than once. Only the leaves of one index that may
    /// have some of them are read.
    ///
    /// # Errors
    ///
    /// `OutOfMemory`; `Device` where the disk failed: the pages are then closed. `Closed`.
    pub fn candidates<D: Disk>(
        &self,
        edit: &mut Edit<D>,
        sought: &Sought<'_>,
    ) -> Result<Vec<u32>, Fault>
        requires holds { HonestAt D.honest edit.old.base.disk
            → HoldsSomeTexts edit.old.next self.now }
        ensures finds { IfOk result (λ values. HonestAt D.honest edit.new.base.disk
            → (before after : List Part) (parts : SearchParts) (tunes : List (ℕ × List ℕ))
            → HoldsTexts edit.old.next self.now before after parts tunes
            → (tune : ℕ × List ℕ) → Contains tunes tune
            → finds self.now.notes sought.now tune.1 ≡ true → Contains values.items tune.0) }
        ensures consults { Consults D.Disk result edit.old edit.new }
    {
        match sought {
            Sought::Title(prefix) => { values_for::<D, TitleKeys<'_>>(edit, &self.titles, prefix) }
            Sought::Rhythm(query) => { values_for::<D, RhythmKeys<'_>>(edit, &self.rhythms, query) }
            Sought::Key(scale) => { values_for::<D, ScaleKeys>(edit, &self.scales, scale) }
            Sought::Notes(front) => self.incipits.values_for(edit, front),
        }
    }
}
