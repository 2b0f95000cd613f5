// Pitches of notes.
ghost use Rattle.std.specs.Prelude.{◌≡◌, ◌≤ℤ◌};
ghost use Rattle.abc_notes.specs.Limits.{lowest_pitch, highest_pitch};

use abc_notes::NoteToken;

// How high a note sounds.
#[derive(Clone, Copy, Debug)]
pub(crate) struct Pitch {
    pub semitones: i32,
    ghost low: { lowest_pitch ≤ℤ semitones },
    ghost high: { semitones ≤ℤ highest_pitch },
}

impl Pitch {
    #[inline(always)]
    pub fn of(note: NoteToken) -> Pitch
        ensures { result.semitones ≡ note.entry.pitch }
    {
        Pitch {
            semitones: note.pitch,
        }
    }

    pub fn of_small(semitones: i8) -> Pitch
        ensures { result.semitones ≡ semitones }
    {
        Pitch {
            semitones: i32::from(semitones),
        }
    }
}
