//! Lists of tunes, of set lists and of changes, as people and as programs read them, and titles
//! without their accents and capitals.
//!
//! What takes memory says so by an `AllocError`, its only error.
#![tactic(auto)]

mod change_rows;
mod folded_words;
mod folding;
mod json_lists;
mod laws;
mod list_forms;
mod row_lists;
mod shown_texts;
mod tables;
mod twins;

pub use change_rows::{ChangeRow, change_list};
pub use folded_words::{FoldedWords, fold_title};
pub use folding::folded;
pub use laws::law_of_words;
pub use list_forms::{count_line, place_list, set_list, tune_list};
pub use shown_texts::text_of;
pub use twins::{Alike, TwinRow, twin_list};
