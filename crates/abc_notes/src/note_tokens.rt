// Notes as readers get them.
ghost use Rattle.std.specs.Prelude.{◌≤ℤ◌};
ghost use Rattle.abc_notes.specs.Limits.{lowest_pitch, highest_pitch};

/// A note of a text, as it sounds.
#[derive(Clone, Copy, Debug)]
pub struct NoteToken<'a> {
    /// The index of its first byte in the text.
    pub from: usize,
    /// The index past its last byte.
    pub to: usize,
    /// Its bytes: its accidental, if it has one, its letter and its octave marks.
    pub text: &'a [u8],
    /// Semitones from the `C` of octave 0: `c` is 12, `C,` is -12.
    pub pitch: i32,
    /// Whether it counts as a note of its tune's melody: of a chord the first note alone does.
    pub counts: bool,
    ghost low: { lowest_pitch ≤ℤ pitch },
    ghost high: { pitch ≤ℤ highest_pitch },
}
