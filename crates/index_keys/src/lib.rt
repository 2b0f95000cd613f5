//! Keys of an index: numbers of some bytes, in order, which texts have and queries look for.
//!
//! A key is an `IndexKey`. What has keys and what looks for them is a `Keyed`: its law says that
//! what a query finds has a key in the query's range. What takes memory says so by an
//! `AllocError`, its only error.
#![tactic(auto)]

mod entry_lists;
mod grouped_entries;
mod index_key;
mod keyed;
mod laws;
mod rising;

pub use entry_lists::EntryList;
pub use grouped_entries::GroupedEntries;
pub use index_key::IndexKey;
pub use keyed::Keyed;
pub use laws::{law_of_cuts, law_of_entries, law_of_holdings, law_of_keys};
pub use rising::add_key;
