// Keys of some bytes.
ghost use Rattle.std.specs.Prelude.{◌≡◌, ◌↔◌, ◌+◌, ◌<◌, ◌≤◌, ◌^◌, length, map, drop, OnOk, IsTrue};
ghost use Rattle.std.specs.Char.{to_ascii_lowercase};
ghost use Rattle.std.specs.Cmp.Lexicographic.{slice_cmp};
ghost use Rattle.std.specs.Ordering.{nat_cmp};
ghost use Rattle.byteorder.specs.Endian.{big_number, big_bytes};
ghost use Rattle.index_keys.specs.Cuts.{cut_number};
ghost use Rattle.index_keys.specs.Entries.{rank};

use byteorder::{BigEndian, ByteOrder};
use std::cmp::Ordering;
use std::marker::Model;

/// A key of `W` bytes. Clauses see it as the number that its bytes spell, the highest first, so
/// the order of keys is that of numbers.
#[derive(Clone, Copy)]
pub struct IndexKey<const W: usize> {
    bytes: [u8; W],
}

impl<const W: usize> Model for IndexKey<W> {
    ghost use Rattle.std.specs.Prelude.{◌≡◌, ℕ};
    ghost use Rattle.byteorder.specs.Endian.{big_bytes, big_number};

    ghost Value = { ℕ };

    ghost view = { λ key. big_number W key.bytes };

    ghost invariant = { λ key. big_bytes W (big_number W key.bytes) ≡ key.bytes };

    ghost inverse = { λ number. record { bytes = big_bytes W number } };

    ghost inverse_ok = { λ key is i. record { bytes = is i } };
}

impl<const W: usize> Default for IndexKey<W> {
    /// The key of zeros, which fills the places of a row that have no key yet.
    fn default() -> Self {
        IndexKey::new([0; W])
    }
}

impl<const W: usize> IndexKey<W> {
    /// The key of these bytes.
    pub fn new(bytes: [u8; W]) -> Self
        ensures value { result ≡ big_number W bytes.entry }
        ensures bound { result < 256 ^ W }
    {
        let key = IndexKey { bytes };
        // For the proof.
        let _bytes = key.bytes();
        key
    }

    /// The bytes of the key.
    pub fn bytes(&self) -> &[u8]
        ensures bytes { result.now ≡ big_bytes W self.now }
        ensures length { length result.now ≡ W }
        ensures bound { self.now < 256 ^ W }
    {
        &self.bytes
    }

    /// A key of the first of these bytes, filled up with one byte.
    pub fn cut(bytes: &[u8], fill: u8) -> Self
        ensures { result ≡ cut_number W fill bytes.now }
    {
        let mut key = [fill; W];
        let count = bytes.len().min(W);
        key[..count].copy_from_slice(&bytes[..count]);
        IndexKey::new(key)
    }

    /// A key of the first of these bytes, its capital letters (A to Z) made small, filled up with
    /// one byte.
    #[inline(always)]
    pub fn cut_small(bytes: &[u8], fill: u8) -> Self
        ensures { result ≡ cut_number W fill (map to_ascii_lowercase bytes.now) }
    {
        let mut small = [fill; W];
        let count = bytes.len().min(W);
        small[..count].copy_from_slice(&bytes[..count]);
        if fill.is_ascii_uppercase() {
            small[..count].make_ascii_lowercase();
            return IndexKey::new(small);
        }
        // What fills the key up stays as it is. A whole key takes fewer instructions than a part.
        small.make_ascii_lowercase();
        IndexKey::new(small)
    }

    /// The same key again.
    pub fn copy(&self) -> Self
        ensures { result ≡ self.now }
    {
        IndexKey { bytes: self.bytes }
    }

    /// Which of the two comes first: this key with this value, or the other key with the other
    /// value.
    pub fn compare(&self, value: u32, other: &Self, other_value: u32) -> Ordering
        ensures { result ≡ nat_cmp (rank (self.now, value)) (rank (other.now, other_value)) }
    {
        match byte_order(&self.bytes, &other.bytes) {
            Ordering::Less => Ordering::Less,
            Ordering::Equal => value.cmp(&other_value),
            Ordering::Greater => Ordering::Greater,
        }
    }

    /// Whether this key with this value stands before the other key with the other value.
    pub fn is_before(&self, value: u32, other: &Self, other_value: u32) -> bool
        ensures { IsTrue result ↔ (rank (self.now, value) < rank (other.now, other_value)) }
    {
        self.compare(value, other, other_value).is_lt()
    }

    /// Whether this key and the other are the same.
    pub fn is_same(&self, other: &Self) -> bool
        ensures { IsTrue result ↔ (self.now ≡ other.now) }
    {
        are_same(&self.bytes, &other.bytes)
    }
}

// The number that eight of the bytes spell.
fn number_at(bytes: &[u8], at: usize) -> u64
    requires { at + 8 ≤ length bytes.now }
    ensures { result ≡ big_number 8 (drop at bytes.now) }
{
    BigEndian::read_u64(&bytes[at..])
}

// Which of two texts of one length comes first, eight bytes at a time.
fn byte_order(one: &[u8], other: &[u8]) -> Ordering
    requires { length one.now ≡ length other.now }
    ensures { result ≡ slice_cmp nat_cmp one.now other.now }
{
    let mut at = 0;
    while one.len() - at >= 8 {
        let first = number_at(one, at);
        let second = number_at(other, at);
        if first != second {
            return first.cmp(&second);
        }
        at += 8;
    }
    if at == one.len() {
        return Ordering::Equal;
    }
    one[at..].cmp(&other[at..])
}

// Whether two texts of one length are the same. All of their bytes are compared, eight at a time,
// which takes less time than to stop at the first that differ.
#[inline(always)]
fn are_same(one: &[u8], other: &[u8]) -> bool
    requires { length one.now ≡ length other.now }
    ensures { IsTrue result ↔ (one.now ≡ other.now) }
{
    let mut same = true;
    let mut at = 0;
    while one.len() - at >= 8 {
        same = same & (number_at(one, at) == number_at(other, at));
        at += 8;
    }
    same && one[at..] == other[at..]
}
