// The chain of a tune.
ghost use Rattle.std.specs.Prelude.{◌≡◌, ◌≢◌, ℕ, ◌^◌, ◌<◌, List, ◌++◌, IfOk, IfSome, IfNone, OnOk};
ghost use Rattle.tune_format.specs.Written.{written_text};

use byteorder::{BigEndian, ByteOrder};
use std::alloc::{AllocError, Global};

// How many bytes a revision has.
const REVISION_BYTES: usize = 2;

/// The bytes of a tune's chain: its revision in two bytes, the highest first, and its text. The
/// error is out of memory.
pub fn write_text(alloc: Global, revision: u16, text: &[u8]) -> Result<Vec<u8>, AllocError>
    ensures { IfOk result (λ bytes. bytes.items ≡ written_text revision text.now) }
{
    let mut bytes = Vec::with_capacity(alloc, REVISION_BYTES + text.len())?;
    put_text(&mut bytes, revision, text)?;
    Ok(bytes)
}

/// Puts the bytes of a tune's chain, as [`write_text`] gives them, in the place of these bytes, so
/// that many texts, one after another, are written in one memory. The error is out of memory.
pub fn put_text(bytes: &mut Vec<u8>, revision: u16, text: &[u8]) -> Result<(), AllocError>
    ensures { OnOk result (bytes.new.items ≡ written_text revision text.now) }
{
    let mut head = [0; REVISION_BYTES];
    BigEndian::write_u16(&mut head, revision);
    bytes.clear();
    bytes.extend_from_slice(&head)?;
    bytes.extend_from_slice(text)
}

/// The revision and the text that a tune's chain holds. `None` exactly where no revision stands
/// there: there are less than two bytes.
pub fn read_text(bytes: &[u8]) -> Option<(u16, &[u8])>
    ensures some { IfSome result (λ read. written_text read.0 read.1.now ≡ bytes.now) }
    ensures only { IfSome result (λ read. (revision : ℕ) (text : List ℕ) → revision < 2 ^ 16
        → written_text revision text ≡ bytes.now → (revision ≡ read.0) × (text ≡ read.1.now)) }
    ensures none { IfNone result ((revision : ℕ) (text : List ℕ)
        → written_text revision text ≢ bytes.now) }
{
    if bytes.len() < REVISION_BYTES {
        return None;
    }
    Some((BigEndian::read_u16(bytes), &bytes[REVISION_BYTES..]))
}
