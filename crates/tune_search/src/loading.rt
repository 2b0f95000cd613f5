// The search indexes as an opening claims them.
ghost use Rattle.std.specs.Prelude.{◌≡◌, IfErr, IfOk};
ghost use Rattle.tune_index.specs.ListedLeaves.{pages_claimed};
ghost use Rattle.tune_pages.specs.Claim.{IsChainFault, LooksOpening};
ghost use Rattle.tune_search.specs.IncipitForms.{note_count};
ghost use Rattle.tune_search.specs.Loaded.{AreStored, LoadsSearch, runs_in, search_with};

use crate::held_entries::HeldEntries;
use crate::incipit_entries::IncipitNotes;
use crate::incipit_index::IncipitIndex;
use crate::searches::SearchIndexes;
use index_keys::{GroupedEntries, IndexKey};
use std::alloc::Global;
use tune_disk::Disk;
use tune_index::Index;
use tune_pages::{ClaimFault, Opening};

/// Where the chains begin that list the leaves of the four indexes; 0 where an index has none.
#[derive(Clone, Copy, Debug, PartialEq, Eq)]
pub struct SearchFirsts {
    pub titles: u32,
    pub rhythms: u32,
    pub scales: u32,
    pub incipits: u32,
}

/// The entries of the four indexes, each list in order: keys with the numbers of tunes. Rhythms and
/// scales are few, so each of their keys is kept once.
#[derive(Drop)]
pub struct SearchEntries {
    pub titles: Vec<(IndexKey<32>, u32)>,
    pub rhythms: GroupedEntries<32>,
    pub scales: GroupedEntries<32>,
    pub incipits: HeldEntries,
}

impl SearchIndexes {
    /// Claims the pages of the four indexes, that of incipits by so many notes, one index after
    /// another, and gives these with their entries. Of an index of more than `most` entries it
    /// claims no more pages than one of so many may have.
    ///
    /// # Errors
    ///
    /// `Damaged` exactly where one of the indexes, with at most `most` entries, is not stored on
    /// pages that are still to be claimed once those of the indexes before it are; `OutOfMemory`;
    /// `Device` where the disk failed.
    pub fn load<D: Disk>(
        alloc: Global,
        opening: &mut Opening<D>,
        notes: IncipitNotes,
        firsts: SearchFirsts,
        most: u32,
    ) -> Result<(SearchIndexes, SearchEntries), ClaimFault>
        ensures notes { IfOk result (λ loaded. loaded.0.notes ≡ note_count notes) }
        ensures loads { IfOk result (λ loaded. D.honest opening.new.disk → LoadsSearch most
            (pages_claimed opening.old.pages opening.old.claimed) opening.new.claimed firsts
            (search_with loaded.0 (runs_in loaded.1))) }
        ensures damaged { IfErr result (λ fault. D.honest opening.new.disk → IsChainFault fault
            (AreStored (note_count notes) most opening.old.pages opening.old.claimed firsts)) }
        ensures looks { LooksOpening D.honest D.failures D.state result opening.old opening.new }
    {
        // For the proof.
        let _count = opening.count();
        let (titles, title_entries) = Index::load(alloc, opening, firsts.titles, most)?;
        let (rhythms, rhythm_entries) = Index::load(alloc, opening, firsts.rhythms, most)?;
        let (scales, scale_entries) = Index::load(alloc, opening, firsts.scales, most)?;
        let (incipits, incipit_entries) = IncipitIndex::load(
            alloc,
            opening,
            notes,
            firsts.incipits,
            most,
        )?;
        let indexes = SearchIndexes {
            titles,
            rhythms,
            scales,
            incipits,
        };
        let entries = SearchEntries {
            titles: title_entries,
            rhythms: rhythm_entries,
            scales: scale_entries,
            incipits: incipit_entries,
        };
        Ok((indexes, entries))
    }
}
