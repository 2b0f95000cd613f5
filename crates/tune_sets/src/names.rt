// The names of sets.
ghost use Rattle.std.specs.Prelude.{◌≡◌, ◌↔◌, true, length, IfSome, IsSome};
ghost use Rattle.std.specs.List.{list_all};
ghost use Rattle.tune_sets.specs.Limits.{longest_name};
ghost use Rattle.tune_sets.specs.Names.{is_name_byte, is_good_name};

use std::marker::Model;

/// How many bytes the name of a set has at most (this archive's profile).
pub const LONGEST_NAME: usize = 40;

/// A name that a set may have: 1 to 40 ASCII letters, digits, hyphens and underscores (this
/// archive's profile). It lies in place, so a copy takes no memory. A clause sees the list of its
/// bytes.
#[derive(Clone, Copy, Debug, PartialEq, Eq)]
pub struct SetName {
    // the bytes of the name, and zeros after them
    bytes: [u8; LONGEST_NAME],
    len: usize,
}

impl Model for SetName {
    ghost use Rattle.std.specs.Prelude.{ℕ, List, length, take};
    ghost use Rattle.tune_sets.specs.Inside.HeldNames.{IsHeldName, padded_name};

    ghost Value = { List ℕ };

    ghost view = { λ name. take name.len name.bytes };

    ghost invariant = { λ name. IsHeldName name.len name.bytes };

    ghost inverse = { λ name. record { bytes = padded_name name; len = length name } };

    ghost inverse_ok = { λ name held i. record { bytes = held.zeros i; len = held.size i } };
}

impl SetName {
    /// These bytes as a name; `None` exactly where no set may have it.
    pub fn new(name: &[u8]) -> Option<SetName>
        ensures good { IsSome result ↔ (is_good_name name.now ≡ true) }
        ensures value { IfSome result (λ held. held ≡ name.now) }
    {
        if is_good_name(name) {
            Some(SetName::held(name))
        } else {
            None
        }
    }

    // A good name in place.
    fn held(name: &[u8]) -> SetName
        requires { is_good_name name.now ≡ true }
        ensures { result ≡ name.now }
    {
        let mut bytes = [0; LONGEST_NAME];
        let (front, _) = bytes.split_at_mut(name.len());
        front.copy_from_slice(name);
        SetName {
            bytes,
            len: name.len(),
        }
    }

    /// The bytes of the name.
    pub fn as_slice(&self) -> &[u8]
        ensures value { result.now ≡ self.now }
        ensures good { is_good_name self.now ≡ true }
    {
        &self.bytes[..self.len]
    }
}

// Whether a set may have this name.
pub(crate) fn is_good_name(name: &[u8]) -> bool
    ensures { result ≡ is_good_name name.now }
{
    if name.is_empty() || name.len() > LONGEST_NAME {
        return false;
    }
    are_name_bytes(name)
}

fn are_name_bytes(name: &[u8]) -> bool
    ensures { result ≡ list_all is_name_byte name.now }
{
    name.iter().all(|byte| is_name_byte(*byte))
}

fn is_name_byte(byte: u8) -> bool
    ensures { result ≡ is_name_byte byte }
{
    byte.is_ascii_alphabetic() || byte.is_ascii_digit() || byte == b'-' || byte == b'_'
}
