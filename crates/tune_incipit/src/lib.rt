//! Incipits: by which steps in semitones a tune begins, and whether it begins as a query does; and
//! scales and incipits as keys of an index.
//!
//! The incipit of a tune is the list of the differences between neighbours among its first few
//! notes that count (this archive's profile). Only the calls that give a tune's keys take memory,
//! and say so by an `AllocError`; a query with fewer than two notes that count is refused.
#![tactic(auto)]

mod incipit_keys;
mod incipits;
mod note_pitches;
mod scale_keys;
mod small_steps;
mod some_steps;
mod step_lists;

pub use incipit_keys::{
    EightNoteKeys, TwelveNoteKeys, finds_steps, key_of_incipit, key_of_twelve_notes,
};
pub use incipits::{BadQuery, FEWEST_NOTES, MOST_NOTES, begins, query_steps, steps};
pub use scale_keys::{ScaleKeys, key_of_scale};
pub use small_steps::SmallSteps;
pub use some_steps::SomeSteps;
pub use step_lists::Steps;
