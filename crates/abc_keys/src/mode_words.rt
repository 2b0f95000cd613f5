// The words of a key text that name a mode.
ghost use Rattle.std.specs.Prelude.{◌≡◌};
ghost use Rattle.abc_keys.specs.Inside.ModeWords.{is_word, mode_of, mode_of_three};

use crate::scales::Mode;

// What a mode word says: a mode, or that each accidental is written out.
#[derive(Clone, Copy, Debug, PartialEq, Eq)]
pub(crate) enum ModeWord {
    Mode(Mode),
    Explicit,
}

// Whether a word is a name, in any capitals.
pub(crate) fn is_word(word: &[u8], name: &[u8]) -> bool
    ensures { result ≡ is_word word.now name.now }
{
    word.eq_ignore_ascii_case(name)
}

// What a word says, by `m` alone or by its first three letters.
pub(crate) fn mode_of(word: &[u8]) -> Option<ModeWord>
    ensures { result ≡ mode_of word.now }
{
    if is_word(word, b"m") {
        Some(ModeWord::Mode(Mode::Minor))
    } else {
        mode_of_three(word.get(..3).unwrap_or(word))
    }
}

fn mode_of_three(three: &[u8]) -> Option<ModeWord>
    ensures { result ≡ mode_of_three three.now }
{
    if is_word(three, b"maj") || is_word(three, b"ion") {
        Some(ModeWord::Mode(Mode::Major))
    } else if is_word(three, b"min") || is_word(three, b"aeo") {
        Some(ModeWord::Mode(Mode::Minor))
    } else if is_word(three, b"mix") {
        Some(ModeWord::Mode(Mode::Mixolydian))
    } else if is_word(three, b"dor") {
        Some(ModeWord::Mode(Mode::Dorian))
    } else if is_word(three, b"phr") {
        Some(ModeWord::Mode(Mode::Phrygian))
    } else if is_word(three, b"lyd") {
        Some(ModeWord::Mode(Mode::Lydian))
    } else if is_word(three, b"loc") {
        Some(ModeWord::Mode(Mode::Locrian))
    } else if is_word(three, b"exp") {
        Some(ModeWord::Explicit)
    } else {
        None
    }
}
