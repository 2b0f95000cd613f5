//! The book of old texts beside an archive: before a change, what it takes away and what it leaves
//! is put at the end of this book, so that it can be taken back. Other programs read it as a book
//! of tunes.
#![tactic(auto)]

mod entry_writing;
mod fields;
mod laws;
mod old_entries;
mod old_items;
mod part_lines;
mod parts;
mod steps;
mod text_sums;

pub use entry_writing::{is_ended, joined, make_ready, written_entry, written_mark};
pub use laws::law_of_old_texts;
pub use old_entries::{After, Entry, EntryKind, Mark, Part, Step};
pub use steps::standing_steps;
pub use text_sums::Sum;
