//! What is taken in of an ABC book: books that can be imported one after another, each of them
//! whole.
//!
//! Tunes that are refused, or that are known, may be left out; a book that is too long may go in by
//! parts; and lines between tunes may go into the tunes behind them. Where nothing of this is asked
//! for, a book goes in as it stands.
#![tactic(auto)]

mod choices;
mod found_tunes;
mod known_texts;
mod part_writer;

pub use choices::{CarriedLines, Chosen, chosen_books};
pub use found_tunes::LeftOut;
pub use known_texts::KnownTexts;
