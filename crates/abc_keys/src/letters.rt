// The letters of notes, and the accidentals that change them.
ghost use Rattle.std.specs.Prelude.{◌≡◌, ◌≤ℤ◌, pos, negsuc};
ghost use Rattle.abc_keys.specs.Letters.{letter_of, semitones_of};
ghost use Rattle.abc_keys.specs.Inside.KeySteps.{capital_letter};

/// The letter of a note or of a tonic (ABC 2.1, 4.1).
#[derive(Clone, Copy, Debug, PartialEq, Eq)]
pub enum Letter {
    C,
    D,
    E,
    F,
    G,
    A,
    B,
}

/// What is done to a letter: from two semitones down to two up (ABC 2.1, 4.2).
#[derive(Clone, Copy, Debug, PartialEq, Eq)]
pub enum Accidental {
    DoubleFlat,
    Flat,
    Natural,
    Sharp,
    DoubleSharp,
}

impl Accidental {
    /// The semitones that it adds, from -2 to 2.
    pub fn semitones(self) -> i32
        ensures value { result ≡ semitones_of self }
        ensures low { negsuc 1 ≤ℤ result }
        ensures high { result ≤ℤ pos 2 }
    {
        match self {
            Accidental::DoubleFlat => -2,
            Accidental::Flat => -1,
            Accidental::Natural => 0,
            Accidental::Sharp => 1,
            Accidental::DoubleSharp => 2,
        }
    }
}

// The letters in the order of their names.
const NAMED: [Letter; 7] = [
    Letter::A,
    Letter::B,
    Letter::C,
    Letter::D,
    Letter::E,
    Letter::F,
    Letter::G,
];

/// The letter that a byte names, if it is one of `A` to `G` or `a` to `g`.
pub fn letter_of(byte: u8) -> Option<Letter>
    ensures { result ≡ letter_of byte }
{
    let capital = byte.to_ascii_uppercase();
    match capital {
        b'A'..=b'G' => Some(NAMED[(capital - b'A') as usize]),
        _ => None,
    }
}

// The letter that a capital names.
pub(crate) fn capital_letter(byte: u8) -> Option<Letter>
    ensures { result ≡ capital_letter byte }
{
    match byte {
        b'A'..=b'G' => letter_of(byte),
        _ => None,
    }
}
