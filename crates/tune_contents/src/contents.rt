// What an archive keeps in memory of what its pages hold.
use tiered_vector::TieredVector;
use tune_format::{Firsts, Row};
use tune_index::Index;
use tune_search::SearchIndexes;
use tune_sets::SetLists;
use tune_store::Layout;

/// Where the tunes of an archive stand on its pages, its indexes, and its set lists. The texts of
/// tunes, and the entries of the indexes, are on the pages alone.
#[derive(Drop)]
pub struct Contents {
    /// The layout.
    pub layout: Layout,
    /// Where each tune stands, by rising number.
    pub rows: TieredVector<Row>,
    /// The index of numbers: where the chain of each tune begins.
    pub numbers: Index<32>,
    /// The search indexes.
    pub searches: SearchIndexes,
    /// The set lists.
    pub sets: SetLists,
    /// Where the chains begin that the root names.
    pub firsts: Firsts,
}
