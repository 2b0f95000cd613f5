//! Named lists of tunes, as a player puts together for an evening, and their bytes in a file.
#![tactic(auto)]

mod copies;
mod faults;
mod laws;
mod look_ups;
mod names;
mod number_list;
mod reading;
mod set_changes;
mod set_lists;
mod set_rows;
mod writing;

pub use faults::{ReadFault, SetFault};
pub use laws::law_of_set_lists;
pub use names::{LONGEST_NAME, SetName};
pub use number_list::NumberList;
pub use set_lists::{MOST_PLACES, MOST_SETS, SetLists, TuneSet};
pub use set_rows::{SetRow, SetRowList};
