// Pitches of notes.
ghost use Rattle.std.specs.Prelude.{◌≡◌, ◌≤ℤ◌, pos};
ghost use Rattle.abc_notes.specs.Inside.EventView.{written_note};
ghost use Rattle.abc_notes.specs.Limits.{lowest_pitch, highest_pitch};
ghost use Rattle.abc_notes.specs.Pitches.{letter_pitch, pitch_of};

use crate::events::WrittenNote;
use abc_keys::{Accidental, Letter};

const OCTAVE: i32 = 12;

// Those of the letters from C to B.
const LETTER_PITCHES: [i32; 7] = [0, 2, 4, 5, 7, 9, 11];

pub(crate) fn letter_pitch(letter: Letter) -> i32
    ensures value { result ≡ letter_pitch letter }
    ensures small { (pos 0 ≤ℤ result) × (result ≤ℤ pos 11) }
{
    LETTER_PITCHES[letter as usize]
}

// Semitones from C.
pub(crate) fn pitch_of(note: &WrittenNote, accidental: Accidental) -> i32
    ensures value { result ≡ pitch_of (written_note note.now) accidental }
    ensures low { lowest_pitch ≤ℤ result }
    ensures high { result ≤ℤ highest_pitch }
{
    letter_pitch(note.letter) + OCTAVE * note.octave + accidental.semitones()
}
