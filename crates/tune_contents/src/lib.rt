//! What an archive holds on its pages: it is claimed where they are opened, and a change of it is
//! laid on them in an edit.
#![tactic(auto)]

mod claiming;
mod contents;
mod laid_chains;
mod laid_changes;
mod laws;
mod layout_notes;
mod next;
mod number_index;
mod room;
mod searching;
mod tune_reading;
mod tune_rows;
mod upgrading;

pub use claiming::claim;
pub use contents::Contents;
pub use laid_changes::lay;
pub use laws::{law_of_file_pages, law_of_state_pages};
pub use layout_notes::incipit_notes;
pub use next::{Next, RowChange};
pub use room::Room;
pub use tune_reading::read_tune;
pub use tune_rows::place_of;
pub use upgrading::upgrade;
