// Accidentals as they are written, and the words of a key text that set them.
ghost use Rattle.std.specs.Prelude.{◌≡◌};
ghost use Rattle.abc_keys.specs.Letters.{accidental_of, doubled};
ghost use Rattle.abc_keys.specs.Accidentals.{with_word, with_words};

use crate::letters::{Accidental, letter_of};
use crate::signatures::Signature;
use abc_fields::is_blank;

/// The accidental that one byte writes: `^`, `_` or `=` (ABC 2.1, 4.2).
pub fn accidental_of(byte: u8) -> Option<Accidental>
    ensures { result ≡ accidental_of byte }
{
    match byte {
        b'^' => Some(Accidental::Sharp),
        b'_' => Some(Accidental::Flat),
        b'=' => Some(Accidental::Natural),
        _ => None,
    }
}

/// The accidental that two bytes write, `^^` or `__`: from that of the first byte, and the second
/// byte.
pub fn doubled(first: Accidental, second: u8) -> Option<Accidental>
    ensures { result ≡ doubled first second }
{
    match (first, second) {
        (Accidental::Sharp, b'^') => Some(Accidental::DoubleSharp),
        (Accidental::Flat, b'_') => Some(Accidental::DoubleFlat),
        _ => None,
    }
}

// The signature after a word: changed where the word consists of pairs of an accidental and a
// letter.
fn with_word(signature: Signature, word: &[u8]) -> Signature
    ensures { result ≡ with_word signature word.now }
{
    let mut changed = signature;
    let mut before = None;
    for byte in word {
        let byte = *byte;
        match before {
            None => match accidental_of(byte) {
                Some(accidental) => before = Some(accidental),
                None => return signature,
            },
            Some(accidental) => match letter_of(byte) {
                Some(letter) => {
                    changed = changed.with(letter, accidental);
                    before = None;
                }
                None => match doubled(accidental, byte) {
                    Some(accidental) => before = Some(accidental),
                    None => return signature,
                },
            },
        }
    }
    if before.is_none() { changed } else { signature }
}

// The signature after each word of a text.
pub(crate) fn with_words(signature: Signature, text: &[u8]) -> Signature
    ensures { result ≡ with_words signature text.now }
{
    text.split(|byte| is_blank(char::from(*byte)))
        .fold(signature, |signature, word| with_word(signature, word))
}
