// Notes as they are written, and the other events that decide pitches.
ghost use Rattle.std.specs.Prelude.{◌≤ℤ◌};
ghost use Rattle.abc_notes.specs.Inside.Bounds.{lowest_octave, highest_octave};

use abc_keys::{Accidental, Letter};

// A note as it is written: where it stands in the text, its bytes, its letter and octave, its own
// accidental, and whether it counts.
#[derive(Clone, Copy, Debug)]
pub(crate) struct WrittenNote<'a> {
    pub from: usize,
    pub to: usize,
    pub text: &'a [u8],
    // `C` to `B` are octave 0, `c` to `b` octave 1.
    pub octave: i32,
    pub letter: Letter,
    pub own: Option<Accidental>,
    pub counts: bool,
    ghost low: { lowest_octave ≤ℤ octave },
    ghost high: { octave ≤ℤ highest_octave },
}

// What decides pitches, in the order of the text. A change of key is given by the text of the key.
#[derive(Clone, Copy, Debug)]
pub(crate) enum Event<'a> {
    Note(WrittenNote<'a>),
    Bar,
    Change(&'a [u8]),
}
