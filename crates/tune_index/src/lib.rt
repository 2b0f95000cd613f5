//! Ordered lists of entries, kept in pages: an entry is a key of some bytes with a value.
//!
//! An index keeps its entries in leaves, one page each, and lists the leaves on a chain. What
//! takes pages or reads them is answered by the faults of the pages; what takes memory alone says
//! so by an `AllocError`.
#![tactic(auto)]

mod candidates;
mod clearing;
mod edit;
mod heads;
mod index;
mod insert;
mod laws;
mod leaf;
mod leaf_edits;
mod listed_leaves;
mod load;
mod search;

pub use index::Index;
pub use index_keys::{EntryList, GroupedEntries, IndexKey, Keyed};
pub use laws::law_of_indexes;
