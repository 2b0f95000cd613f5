// Numbers as they stand on pages.
ghost use Rattle.std.specs.Prelude.{◌≡◌, ◌+◌, ◌≤◌, length, drop};
ghost use Rattle.tune_format.specs.Written.{number_at};

use byteorder::{BigEndian, ByteOrder};

/// The number in the four bytes there.
pub(crate) fn number_at(bytes: &[u8], offset: usize) -> u32
    requires { offset + 4 ≤ length bytes.now }
    ensures { result ≡ number_at offset bytes.now }
{
    BigEndian::read_u32(from(bytes, offset))
}

// The bytes from an offset on.
fn from(bytes: &[u8], offset: usize) -> &[u8]
    requires { offset ≤ length bytes.now }
    ensures { result.now ≡ drop offset bytes.now }
{
    &bytes[offset..]
}
