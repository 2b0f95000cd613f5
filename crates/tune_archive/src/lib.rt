//! An archive of tunes in a file: the pages of a disk hold its tunes and set lists, and a stop (a
//! crash or power loss) at any moment leaves the state before a command or the state after it.
#![tactic(auto)]

mod archive;
mod archive_catalog;
mod archive_store;
mod made_changes;
mod opened_archives;
mod places;

pub use archive::{Archive, Closed, Counts};
pub use tune_store::{Command, IndexRow, Refusal, Reply, RowList, TuneStore};
