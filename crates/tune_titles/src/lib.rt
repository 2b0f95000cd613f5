//! Titles of tunes: the text by which one is sorted, the text that an index shows, which titles and
//! rhythms a query finds, and the order of an index.
//!
//! The articles `The`, `A` and `An` are told apart from the rest of a title by this archive's
//! profile. The bytes of a title need not be UTF-8: letters are ASCII letters, and all other bytes
//! stay as they are. What takes memory says so by an `AllocError`, its only error.
#![tactic(auto)]

mod articles;
mod fronts;
mod lists;
mod matching;
mod search_keys;
mod shown;
mod shown_rows;
mod title_rows;

pub use lists::{TitleList, titles_of};
pub use matching::{TitlePrefix, prefix_matches, rhythm_matches, title_matches_tune};
pub use search_keys::{RhythmKeys, TitleKeys, key_of_rhythm, key_of_title, row_of_title_keys};
pub use shown::{index_title, sort_title};
pub use shown_rows::{ShownRow, sort_shown};
pub use title_rows::{TitleRow, sort_rows};
