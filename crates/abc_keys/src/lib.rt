//! Reads keys: what the text of a `K:` field says, and which notes are sharp or flat in it.
//!
//! The rules are those of the abc music standard 2.1, section 3.1.14, with this archive's profile
//! where the standard is silent. The bytes of a key text need not be UTF-8, and no call takes
//! memory or refuses.
#![tactic(auto)]

mod accidentals;
mod key_text;
mod keys;
mod letters;
mod mode_words;
mod scales;
mod signatures;
mod tonics;

pub use accidentals::{accidental_of, doubled};
pub use key_text::key_of;
pub use keys::{Key, signature};
pub use letters::{Accidental, Letter, letter_of};
pub use scales::{Mode, Scale, Sign, is_same_scale};
pub use signatures::Signature;
pub use tonics::signature_of_tonic;
