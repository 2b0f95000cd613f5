//! Reads the notes of tunes: which bytes of a tune are notes, and how high each sounds.
//!
//! The rules are those of the abc music standard 2.1, section 4, with this archive's profile where
//! the standard is silent. The bytes of a text need not be UTF-8, and no call takes memory or
//! refuses.
#![tactic(auto)]

mod bar;
mod borne_accidentals;
mod chord_events;
mod events;
mod item_events;
mod key_signatures;
mod letter_pitches;
mod line_events;
mod note_tokens;
mod notes;
mod openings;
mod pitches;
mod plain_pitches;
mod tune_events;

pub use abc_keys::{Accidental, Key, Letter, Mode, Scale, Sign, Signature, key_of, signature};
pub use note_tokens::NoteToken;
pub use notes::{CountingNotes, Notes};
pub use openings::OpeningNotes;
