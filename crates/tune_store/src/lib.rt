//! An archive of tunes: the commands, their answers, and the stores that carry them out.
#![tactic(auto)]

mod boxed_tune;
mod catalog;
mod command;
mod index_rows;
mod laws;
mod layout;
mod list_archive;
mod plans;
mod questions;
mod set_plans;
mod tune;
mod tune_plans;
mod tune_store;

pub use catalog::{Catalog, Label, all_places};
pub use command::{Command, Refusal, Reply};
pub use index_rows::{IndexRow, RowList};
pub use laws::{law_of_changes, law_of_places, law_of_revisions};
pub use layout::Layout;
pub use list_archive::ListArchive;
pub use plans::{Change, Plan, decide};
pub use tune::{GREATEST_NUMBER, GREATEST_REVISION, Tune};
pub use tune_store::TuneStore;
