// Signatures: an accidental for each letter.
ghost use Rattle.std.specs.Prelude.{◌≡◌, ◌≤ℤ◌, pos, negsuc};
ghost use Rattle.abc_keys.specs.Signatures.{accidental_at, with_accidental, no_accidentals};
ghost use Rattle.abc_keys.specs.Signatures.{of_count};
ghost use Rattle.abc_keys.specs.Inside.LetterCounts.{by_count};

use crate::letters::{Accidental, Letter};

/// An accidental for each of the seven letters.
#[derive(Clone, Copy, Debug, PartialEq, Eq)]
pub struct Signature {
    pub c: Accidental,
    pub d: Accidental,
    pub e: Accidental,
    pub f: Accidental,
    pub g: Accidental,
    pub a: Accidental,
    pub b: Accidental,
}

// A signature without sharps and flats.
pub(crate) const NO_ACCIDENTALS: Signature = Signature {
    c: Accidental::Natural,
    d: Accidental::Natural,
    e: Accidental::Natural,
    f: Accidental::Natural,
    g: Accidental::Natural,
    a: Accidental::Natural,
    b: Accidental::Natural,
};

impl Signature {
    /// The accidental at a letter.
    pub fn at(&self, letter: Letter) -> Accidental
        ensures { result ≡ accidental_at self.now letter }
    {
        let accidentals = [self.c, self.d, self.e, self.f, self.g, self.a, self.b];
        accidentals[letter as usize]
    }

    // The signature with another accidental at a letter.
    pub(crate) fn with(self, letter: Letter, accidental: Accidental) -> Signature
        ensures { result ≡ with_accidental self letter accidental }
    {
        let mut changed = self;
        match letter {
            Letter::C => changed.c = accidental,
            Letter::D => changed.d = accidental,
            Letter::E => changed.e = accidental,
            Letter::F => changed.f = accidental,
            Letter::G => changed.g = accidental,
            Letter::A => changed.a = accidental,
            Letter::B => changed.b = accidental,
        }
        changed
    }

    // The signature of so many sharps, or flats below zero: each letter is sharp from a number of
    // sharps on, and flat from a number of flats on.
    pub(crate) fn of_count(count: i32) -> Signature
        requires low { negsuc 6 ≤ℤ count }
        requires high { count ≤ℤ pos 7 }
        ensures { result ≡ of_count count }
    {
        Signature {
            c: by_count(count, 2, 6),
            d: by_count(count, 4, 4),
            e: by_count(count, 6, 2),
            f: by_count(count, 1, 7),
            g: by_count(count, 3, 5),
            a: by_count(count, 5, 3),
            b: by_count(count, 7, 1),
        }
    }
}

// Sharp from so many sharps on, flat from so many flats on.
fn by_count(count: i32, sharp_from: i32, flat_from: i32) -> Accidental
    requires low { pos 0 ≤ℤ flat_from }
    requires high { flat_from ≤ℤ pos 7 }
    ensures { result ≡ by_count count sharp_from flat_from }
{
    if count >= sharp_from {
        Accidental::Sharp
    } else if count <= -flat_from {
        Accidental::Flat
    } else {
        Accidental::Natural
    }
}
