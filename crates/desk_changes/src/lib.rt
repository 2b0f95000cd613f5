//! Orders that change what FILE holds: it is opened to change, looked at, and then changed, behind
//! an entry of the book of old texts; and the order that undoes them.
#![tactic(auto)]

mod altering;
mod change_lists;
mod change_subjects;
mod entries;
mod held_tunes;
mod laws;
mod one_tune_books;
mod replacing;
mod taking_back;
mod telling;
mod turning;
mod undone;
mod words;

pub use altering::alter;
pub use laws::law_of_entries;
pub use replacing::{AskedReplacement, replace};
pub use taking_back::undo;
