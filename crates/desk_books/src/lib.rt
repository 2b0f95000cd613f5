//! Books that are tried without an archive, and books that are taken in.
#![tactic(auto)]

mod added_books;
mod added_entries;
mod asked_texts;
mod checked_books;
mod chosen_parts;
mod found_books;
mod lost_lines;
mod requests;
mod stocks;
mod taken_books;
mod told_imports;
mod tried_books;

pub use added_books::add;
pub use checked_books::check_books;
