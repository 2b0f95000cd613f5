//! Reads a music line as items: quoted texts, decorations, grace notes, inline fields, chords,
//! tuplets, notes, bars, and single other bytes.
//!
//! The items are those of the abc music standard 2.1, sections 3.2 and 4.1 to 4.19, with this
//! archive's profile where the standard is silent. The bytes of a text need not be UTF-8; letters
//! and digits are ASCII. No call takes memory or refuses.
#![tactic(auto)]

mod item_rows;
mod items;
mod kinds;

pub use item_rows::{own_accidental, spelling_length};
pub use items::{Item, Items};
pub use kinds::Kind;
