// Signatures of keys whose texts are read late.
ghost use Rattle.std.specs.Prelude.{◌≡◌};
ghost use Rattle.abc_keys.specs.declared.signatures.Signature.{Signature as AnySignature};
ghost use Rattle.abc_keys.specs.Keys.{key_of_text, signature_of};
ghost use Rattle.abc_keys.specs.Signatures.{accidental_at};
ghost use Rattle.abc_notes.specs.Inside.LateSignatures.{signature_said};

use abc_keys::{Accidental, Letter, Signature, key_of, signature, signature_of_tonic};
use std::marker::Model;

// The text of a key, or its signature once it has been read.
#[derive(Clone, Copy)]
pub(crate) enum Said<'a> {
    Text(&'a [u8]),
    Read(Signature),
}

// The signature of a key. The key's text is read when an accidental is first asked for, as most
// changes of key have no note after them that asks. A clause sees the signature.
#[derive(Drop)]
pub(crate) struct KeySignature<'a> {
    said: Said<'a>,
}

impl<'a> Model for KeySignature<'a> {
    ghost Value = { AnySignature };

    ghost view = { λ key. signature_said key.said };
}

impl<'a> KeySignature<'a> {
    // The signature of the key of this text.
    pub fn of_text(text: &'a [u8]) -> KeySignature<'a>
        ensures { result ≡ signature_of (key_of_text text.now) }
    {
        KeySignature {
            said: Said::Text(text),
        }
    }

    // A signature that is known.
    pub fn known(signature: Signature) -> KeySignature<'a>
        ensures { result ≡ signature }
    {
        KeySignature {
            said: Said::Read(signature),
        }
    }

    // The same once more.
    pub fn again(&self) -> KeySignature<'a>
        ensures { result ≡ self.now }
    {
        KeySignature { said: self.said }
    }

    // The accidental at a letter.
    #[inline(always)]
    pub fn at(&mut self, letter: Letter) -> Accidental
        ensures value { result ≡ accidental_at self.old letter }
        ensures same { self.new ≡ self.old }
    {
        match &self.said {
            Said::Read(signature) => signature.at(letter),
            Said::Text(text) => {
                let signature = signature_of_text(text);
                self.said = Said::Read(signature);
                signature.at(letter)
            }
        }
    }
}

// The signature of the key of a text. Most are a tonic alone.
#[inline(always)]
pub(crate) fn signature_of_text(text: &[u8]) -> Signature
    ensures { result ≡ signature_of (key_of_text text.now) }
{
    if let [byte] = text {
        if let Some(signature) = signature_of_tonic(*byte) {
            return signature;
        }
    }
    signature_of_any(text)
}

// The same, read whatever it is. It stands apart, so that the way of most texts is short.
#[inline(never)]
fn signature_of_any(text: &[u8]) -> Signature
    ensures { result ≡ signature_of (key_of_text text.now) }
{
    signature(&key_of(text))
}
