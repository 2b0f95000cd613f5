// Scales, which of them are the same, and how far along the line of fifths they lie.
ghost use Rattle.std.specs.Prelude.{◌≡◌, ◌≤ℤ◌, ◌==◌, pos, negsuc, IfSome};
ghost use Rattle.abc_keys.specs.Fifths.{tonic_fifths, sign_fifths, mode_fifths, listed_count};
ghost use Rattle.abc_keys.specs.SameScales.{same_scale, letter_number, sign_number, mode_number};

use crate::letters::Letter;

/// What stands beside a tonic: `#`, `b` or nothing.
#[derive(Clone, Copy, Debug, PartialEq, Eq)]
pub enum Sign {
    Flat,
    Natural,
    Sharp,
}

/// The seven modes (ABC 2.1, 3.1.14). Ionian is `Major`, and Aeolian is `Minor`.
#[derive(Clone, Copy, Debug, PartialEq, Eq)]
pub enum Mode {
    Major,
    Lydian,
    Mixolydian,
    Dorian,
    Minor,
    Phrygian,
    Locrian,
}

/// A tonic, its sign and a mode, as E flat Dorian.
#[derive(Clone, Copy, Debug, PartialEq, Eq)]
pub struct Scale {
    pub tonic: Letter,
    pub sign: Sign,
    pub mode: Mode,
}

impl Scale {
    // How many sharps the scale has, or flats below zero, where it is one of the 105 scales from
    // seven flats to seven sharps.
    #[inline(always)]
    pub(crate) fn sharp_count(self) -> Option<i32>
        ensures value { result ≡ listed_count self }
        ensures few { IfSome result (λ n. (negsuc 6 ≤ℤ n) × (n ≤ℤ pos 7)) }
    {
        let count = fifths_of_tonic(self.tonic)
            + fifths_of_sign(self.sign)
            + fifths_of_mode(self.mode);
        if -7 <= count && count <= 7 {
            Some(count)
        } else {
            None
        }
    }
}

/// Whether two scales are the same: of the same tonic, sign and mode.
pub fn is_same_scale(one: &Scale, other: &Scale) -> bool
    ensures { result ≡ same_scale one.now other.now }
{
    is_same_letter(one.tonic, other.tonic)
        && is_same_sign(one.sign, other.sign)
        && is_same_mode(one.mode, other.mode)
}

fn is_same_letter(one: Letter, other: Letter) -> bool
    ensures { result ≡ (letter_number one == letter_number other) }
{
    one == other
}

fn is_same_sign(one: Sign, other: Sign) -> bool
    ensures { result ≡ (sign_number one == sign_number other) }
{
    one == other
}

fn is_same_mode(one: Mode, other: Mode) -> bool
    ensures { result ≡ (mode_number one == mode_number other) }
{
    one == other
}

fn fifths_of_tonic(tonic: Letter) -> i32
    ensures { result ≡ tonic_fifths tonic }
{
    match tonic {
        Letter::F => -1,
        Letter::C => 0,
        Letter::G => 1,
        Letter::D => 2,
        Letter::A => 3,
        Letter::E => 4,
        Letter::B => 5,
    }
}

fn fifths_of_sign(sign: Sign) -> i32
    ensures { result ≡ sign_fifths sign }
{
    match sign {
        Sign::Flat => -7,
        Sign::Natural => 0,
        Sign::Sharp => 7,
    }
}

fn fifths_of_mode(mode: Mode) -> i32
    ensures { result ≡ mode_fifths mode }
{
    match mode {
        Mode::Lydian => 1,
        Mode::Major => 0,
        Mode::Mixolydian => -1,
        Mode::Dorian => -2,
        Mode::Minor => -3,
        Mode::Phrygian => -4,
        Mode::Locrian => -5,
    }
}
