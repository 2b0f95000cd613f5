// Where an archive keeps its tunes.
ghost use Rattle.std.specs.Prelude.{◌≡◌, ◌≢◌, ℕ, ◌^◌, ◌<◌, IfNone, IfSome};
ghost use Rattle.tune_format.specs.Written.{number_key, row_entry};

use byteorder::{BigEndian, ByteOrder};
use index_keys::IndexKey;

/// Where an archive keeps a tune.
#[derive(Clone, Copy, Debug, PartialEq, Eq)]
pub struct Row {
    /// The number of the tune.
    pub number: u32,
    /// Its revision.
    pub revision: u16,
    /// The first page of its chain.
    pub first: u32,
    /// How many bytes its text has.
    pub length: u32,
}

/// The entry of a tune in the index of numbers: at the key of its number the first page of its
/// chain.
pub fn entry_of_row(row: &Row) -> (IndexKey<32>, u32)
    ensures { result ≡ row_entry row.now }
{
    (key_of_number(row.number), row.first)
}

/// The key of a number in the index of numbers: its four bytes, the highest first, and zeros.
pub fn key_of_number(number: u32) -> IndexKey<32>
    ensures { result ≡ number_key number }
{
    let mut bytes = [0; 32];
    BigEndian::write_u32(&mut bytes[..4], number);
    IndexKey::new(bytes)
}

/// The number whose key this is. `None` exactly where it is that of no number: something but zeros
/// stands behind the first four bytes.
pub fn number_of_key(key: &IndexKey<32>) -> Option<u32>
    ensures some { IfSome result (λ number. number_key number ≡ key.now) }
    ensures none { IfNone result ((number : ℕ) → number < 2 ^ 32 → number_key number ≢ key.now) }
{
    let number = BigEndian::read_u32(key.bytes());
    if key_of_number(number).is_same(key) {
        Some(number)
    } else {
        None
    }
}
