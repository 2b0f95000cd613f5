//! Tells what becomes of each line of an ABC book that is imported, and which of its tunes would be
//! refused.
//!
//! Tunes, file headers and refusals are those of `abc_fields`: what is told here is what an import
//! does. A book may have any length and any bytes.
#![tactic(auto)]

mod dropped;
mod fates;
mod line_rules;
mod sums;
mod told_book_lines;
mod tune_letters;
mod tunes;

pub use dropped::DroppedLine;
pub use fates::Fate;
pub use told_book_lines::{ToldBook, told_book};
pub use tunes::ToldTune;
