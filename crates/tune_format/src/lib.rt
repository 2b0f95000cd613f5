//! How the tunes and set lists of an archive stand on its pages, with indexes, in each layout.
#![tactic(auto)]

mod change_laws;
mod laws;
mod root;
mod rows;
mod stored_numbers;
mod tune_chains;

pub use change_laws::law_of_changes;
pub use laws::{law_of_files, law_of_texts};
pub use root::{Firsts, most_pages, read_root, write_root};
pub use rows::{Row, entry_of_row, key_of_number, number_of_key};
pub use tune_chains::{put_text, read_text, write_text};
