// The four search indexes as one value.
ghost use Rattle.std.specs.Prelude.{◌≡◌, IfOk, OnOk};
ghost use Rattle.tune_search.specs.Empty.{no_indexes};
ghost use Rattle.tune_search.specs.IncipitForms.{note_count};

use crate::incipit_entries::IncipitNotes;
use crate::incipit_index::IncipitIndex;
use std::alloc::{AllocError, Global};
use std::marker::Model;
use tune_index::Index;

/// The search indexes of an archive: for each tune its number at the keys of its titles, of its
/// rhythm, of its scale and of its incipit, by eight notes or by twelve (this archive's profile).
#[derive(Drop)]
pub struct SearchIndexes {
    pub(crate) titles: Index<32>,
    pub(crate) rhythms: Index<32>,
    pub(crate) scales: Index<32>,
    pub(crate) incipits: IncipitIndex,
}

impl Model for SearchIndexes {
    ghost use Rattle.tune_search.specs.IncipitForms.{notes_of_index, shape_of};
    ghost use Rattle.tune_search.specs.Searches.{SearchShape};

    ghost Value = { SearchShape };

    ghost view = { λ indexes. record {
      notes = notes_of_index indexes.incipits;
      titles = indexes.titles;
      rhythms = indexes.rhythms;
      scales = indexes.scales;
      incipits = shape_of indexes.incipits;
    } };
}

impl SearchIndexes {
    /// Indexes without an entry, that of incipits by so many notes. They take no memory.
    pub fn new(alloc: Global, notes: IncipitNotes) -> SearchIndexes
        ensures { result ≡ no_indexes (note_count notes) }
    {
        SearchIndexes {
            titles: Index::new(alloc),
            rhythms: Index::new(alloc),
            scales: Index::new(alloc),
            incipits: IncipitIndex::new(alloc, notes),
        }
    }

    /// By how many notes incipits are kept.
    pub fn notes(&self) -> IncipitNotes
        ensures { note_count result ≡ self.now.notes }
    {
        self.incipits.notes()
    }

    /// The same indexes again: a command changes copies, and a change that is dropped leaves the
    /// indexes that they were made of.
    ///
    /// # Errors
    ///
    /// There is no memory.
    pub fn copy(&self, alloc: Global) -> Result<SearchIndexes, AllocError>
        ensures { IfOk result (λ copy. copy ≡ self.now) }
    {
        Ok(SearchIndexes {
            titles: self.titles.copy(alloc)?,
            rhythms: self.rhythms.copy(alloc)?,
            scales: self.scales.copy(alloc)?,
            incipits: self.incipits.copy(alloc)?,
        })
    }

    /// Becomes the same indexes as the others, in the memory that it has, and more where that is
    /// not enough.
    ///
    /// # Errors
    ///
    /// There is no memory: what it is then is not said, and it is to be dropped.
    pub fn copy_from(&mut self, alloc: Global, other: &SearchIndexes) -> Result<(), AllocError>
        ensures same { OnOk result (self.new ≡ other.now) }
    {
        self.titles.copy_from(&other.titles)?;
        self.rhythms.copy_from(&other.rhythms)?;
        self.scales.copy_from(&other.scales)?;
        self.incipits.copy_from(alloc, &other.incipits)?;
        Ok(())
    }
}
