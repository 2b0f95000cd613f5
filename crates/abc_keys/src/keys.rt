// Keys as their texts say, and their signatures.
ghost use Rattle.std.specs.Prelude.{◌≡◌};
ghost use Rattle.abc_keys.specs.Keys.{scale_of, signature_of};

use crate::scales::Scale;
use crate::signatures::{NO_ACCIDENTALS, Signature};

/// A key as its text says (ABC 2.1, 3.1.14). Each kind but the last one carries its signature as
/// the words of the text set it.
#[derive(Clone, Copy, Debug, PartialEq, Eq)]
pub enum Key {
    /// One of the 105 scales from seven flats to seven sharps.
    Modal { scale: Scale, signature: Signature },
    /// `exp`: the accidentals that are set and no others.
    Explicit { signature: Signature },
    /// No text, or `none`.
    Bare { signature: Signature },
    /// The pipes: `HP` without a signature, `Hp` with F and C sharp.
    Highland { signature: Signature },
    /// Every other text. It has no signature.
    Unread,
}

impl Key {
    /// The scale by which the key is searched for, where it has one.
    pub fn scale(&self) -> Option<Scale>
        ensures { result ≡ scale_of self.now }
    {
        match self {
            Key::Modal { scale, .. } => Some(*scale),
            _ => None,
        }
    }
}

/// The signature of a key: an accidental for each of the seven letters.
pub fn signature(key: &Key) -> Signature
    ensures { result ≡ signature_of key.now }
{
    match key {
        Key::Modal { signature, .. }
        | Key::Explicit { signature }
        | Key::Bare { signature }
        | Key::Highland { signature } => *signature,
        Key::Unread => NO_ACCIDENTALS,
    }
}
