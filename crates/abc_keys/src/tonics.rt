// Key texts that are a tonic alone.
ghost use Rattle.std.specs.Prelude.{◌≡◌, ◌<◌, ◌⊎◌, ◌∷◌, [], IfSome, IfNone};
ghost use Rattle.abc_keys.specs.Keys.{key_of_text, signature_of};

use crate::letters::Accidental;
use crate::signatures::{NO_ACCIDENTALS, Signature};

// The signatures of the major scales from A to G.
const MAJORS: [Signature; 7] = [
    Signature {
        c: Accidental::Sharp,
        f: Accidental::Sharp,
        g: Accidental::Sharp,
        ..NO_ACCIDENTALS
    },
    Signature {
        c: Accidental::Sharp,
        d: Accidental::Sharp,
        f: Accidental::Sharp,
        g: Accidental::Sharp,
        a: Accidental::Sharp,
        ..NO_ACCIDENTALS
    },
    NO_ACCIDENTALS,
    Signature {
        c: Accidental::Sharp,
        f: Accidental::Sharp,
        ..NO_ACCIDENTALS
    },
    Signature {
        c: Accidental::Sharp,
        d: Accidental::Sharp,
        f: Accidental::Sharp,
        g: Accidental::Sharp,
        ..NO_ACCIDENTALS
    },
    Signature {
        b: Accidental::Flat,
        ..NO_ACCIDENTALS
    },
    Signature {
        f: Accidental::Sharp,
        ..NO_ACCIDENTALS
    },
];

/// The signature of a key text of one byte, where that is a tonic from `A` to `G`, as most key
/// texts are (ABC 2.1, 3.1.14): that of its major scale. To look it up is less work than to read
/// the text.
pub fn signature_of_tonic(byte: u8) -> Option<Signature>
    ensures value { IfSome result (λ signature.
        signature ≡ signature_of (key_of_text (byte ∷ []))) }
    ensures none { IfNone result ((byte < 65) ⊎ (71 < byte)) }
{
    if byte < b'A' || b'G' < byte {
        return None;
    }
    Some(MAJORS[(byte - b'A') as usize])
}
