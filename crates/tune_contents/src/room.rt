// Memory for changes.
ghost use Rattle.std.specs.Prelude.{◌≡◌, ◌++◌, IfErr, IfOk};
ghost use Rattle.tune_pages.specs.declared.fault.Fault.TheVariants.{OutOfMemory};

use std::alloc::Global;
use std::mem;
use tiered_vector::TieredVector;
use tune_format::Row;
use tune_index::Index;
use tune_pages::Fault;
use tune_search::{IncipitNotes, SearchIndexes};

/// Memory in which changes of an archive are laid, one after another, so that each uses that of
/// those before it.
#[derive(Drop)]
pub struct Room {
    pub(crate) alloc: Global,
    // all rows, where a change brings more than there is room for
    rows: Vec<Row>,
    // the indexes to which a change leads
    numbers: Index<32>,
    searches: SearchIndexes,
}

impl Room {
    /// No memory yet.
    pub fn new(alloc: Global) -> Room {
        Room {
            alloc,
            rows: Vec::new(alloc),
            numbers: Index::new(alloc),
            searches: SearchIndexes::new(alloc, IncipitNotes::Eight),
        }
    }

    // Keeps the memory of rows for later ones.
    pub(crate) fn keep_rows(&mut self, rows: TieredVector<Row>) {
        self.rows = rows.into_memory();
    }

    // Keeps that of an index of numbers.
    pub(crate) fn keep_numbers(&mut self, numbers: Index<32>) {
        self.numbers = numbers;
    }

    // Keeps that of search indexes.
    pub(crate) fn keep_searches(&mut self, searches: SearchIndexes) {
        self.searches = searches;
    }

    // A copy of rows with more behind them. Memory is taken for twice the rows: so those of later
    // changes find room.
    pub(crate) fn copy_rows(
        &mut self,
        rows: &TieredVector<Row>,
        more: &[Row],
    ) -> Result<Vec<Row>, Fault>
        ensures rows { IfOk result (λ copy. copy.items ≡ rows.now.items ++ more.now) }
        ensures err { IfErr result (λ fault. fault ≡ OutOfMemory) }
    {
        let mut copy = mem::replace(&mut self.rows, Vec::new(self.alloc));
        copy.clear();
        if rows.copy_to(&mut copy).is_err() {
            return Err(Fault::OutOfMemory);
        }
        match copy.extend_from_slice(more) {
            Ok(()) => Ok(copy),
            Err(_) => Err(Fault::OutOfMemory),
        }
    }

    // A copy of an index of numbers.
    pub(crate) fn copy_numbers(&mut self, numbers: &Index<32>) -> Result<Index<32>, Fault>
        ensures numbers { IfOk result (λ copy. copy ≡ numbers.now) }
        ensures err { IfErr result (λ fault. fault ≡ OutOfMemory) }
    {
        let mut copy = mem::replace(&mut self.numbers, Index::new(self.alloc));
        match copy.copy_from(numbers) {
            Ok(()) => Ok(copy),
            Err(_) => Err(Fault::OutOfMemory),
        }
    }

    // A copy of search indexes.
    pub(crate) fn copy_searches(&mut self, searches: &SearchIndexes) -> Result<SearchIndexes, Fault>
        ensures searches { IfOk result (λ copy. copy ≡ searches.now) }
        ensures err { IfErr result (λ fault. fault ≡ OutOfMemory) }
    {
        let none = SearchIndexes::new(self.alloc, IncipitNotes::Eight);
        let mut copy = mem::replace(&mut self.searches, none);
        match copy.copy_from(self.alloc, searches) {
            Ok(()) => Ok(copy),
            Err(_) => Err(Fault::OutOfMemory),
        }
    }
}
