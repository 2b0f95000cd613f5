// Pages of chains, as bytes.
ghost use Rattle.std.specs.Prelude.{◌≡◌, ◌↔◌, ◌≤◌, ◌-◌, ◌++◌, length, replicate};
ghost use Rattle.std.specs.Prelude.{IfNone, IfOk, IfSome, IsTrue, OnErr, OnOk};
ghost use Rattle.byteorder.specs.Endian.{big_bytes};
ghost use Rattle.tune_journal.specs.FileOffsets.{block_bytes};
ghost use Rattle.tune_pages.specs.Chain.{next_page_of, size_of, piece_of, IsLink};
ghost use Rattle.tune_pages.specs.Faults.{pages_for};
ghost use Rattle.tune_pages.specs.Inside.Link.{link_bytes};
ghost use Rattle.tune_pages.specs.LinkOffsets.{piece_room};

use byteorder::{BigEndian, ByteOrder};
use std::alloc::AllocError;
use tune_journal::PageImage;

// The most bytes that a page of a chain holds.
pub(crate) const ROOM: usize = 4090;

// How many bytes stand before these.
pub(crate) const HEAD: usize = 6;

/// How many pages the chain of so many bytes has.
pub fn pages_for(bytes: usize) -> usize
    ensures { result ≡ pages_for bytes }
{
    bytes.div_ceil(ROOM)
}

// The number of the next page, 0 at the end.
#[tactic(auto, unfolding(crate::specs::Chain::next_page_of))]
pub(crate) fn next_page(image: &[u8]) -> u32
    requires { length image.now ≡ block_bytes }
    ensures { result ≡ next_page_of image.now }
{
    BigEndian::read_u32(image)
}

// How many of the bytes count.
#[tactic(auto, unfolding(crate::specs::Chain::size_of))]
pub(crate) fn size_in(image: &[u8]) -> u16
    requires { length image.now ≡ block_bytes }
    ensures { result ≡ size_of image.now }
{
    BigEndian::read_u16(&image[4..])
}

// Whether this is a page of a chain: full, or the last and not empty.
pub(crate) fn is_link(image: &[u8]) -> bool
    requires { length image.now ≡ block_bytes }
    ensures { IsTrue result ↔ IsLink image.now }
{
    let size = size_in(image) as usize;
    size != 0 && (size == ROOM || (size < ROOM && next_page(image) == 0))
}

// Adds the bytes that count.
#[tactic(auto, unfolding(crate::specs::Chain::piece_of))]
pub(crate) fn add_piece(image: &[u8], bytes: &mut Vec<u8>) -> Result<(), AllocError>
    requires size { length image.now ≡ block_bytes }
    requires piece { size_of image.now ≤ piece_room }
    ensures ok { OnOk result (bytes.new.items ≡ bytes.old.items ++ piece_of image.now) }
    ensures err { OnErr result (bytes.new.items ≡ bytes.old.items) }
{
    let size = size_in(image) as usize;
    bytes.extend_from_slice(&image[6..6 + size])?;
    Ok(())
}

// Adds the bytes that count of a page of a chain, and gives the page behind it. `None`, with the
// bytes as they were, where this can be no page of a chain or there is no memory for more bytes.
pub(crate) fn add_link(image: &[u8], bytes: &mut Vec<u8>) -> Option<u32>
    requires { length image.now ≡ block_bytes }
    ensures link { IfSome result (λ next. IsLink image.now × (next ≡ next_page_of image.now)
        × (bytes.new.items ≡ bytes.old.items ++ piece_of image.now)) }
    ensures none { IfNone result (bytes.new.items ≡ bytes.old.items) }
{
    match try_link(image, bytes) {
        Ok(found) => found,
        Err(_) => None,
    }
}

// The same, but that want of memory is no `None`.
pub(crate) fn try_link(image: &[u8], bytes: &mut Vec<u8>) -> Result<Option<u32>, AllocError>
    requires { length image.now ≡ block_bytes }
    ensures link { IfOk result (λ found. IfSome found (λ next. IsLink image.now
        × (next ≡ next_page_of image.now)
        × (bytes.new.items ≡ bytes.old.items ++ piece_of image.now))) }
    ensures none { IfOk result (λ found. IfNone found ((IsLink image.now → ⊥)
        × (bytes.new.items ≡ bytes.old.items))) }
    ensures err { OnErr result (bytes.new.items ≡ bytes.old.items) }
{
    if !is_link(image) {
        return Ok(None);
    }
    match add_piece(image, bytes) {
        Ok(()) => Ok(Some(next_page(image))),
        Err(fault) => Err(fault),
    }
}

// The next page, and how many bytes count.
pub(crate) fn head_of(next: u32, size: u16) -> [u8; 6]
    ensures { result ≡ big_bytes 4 next ++ big_bytes 2 size }
{
    let mut head = [0; 6];
    BigEndian::write_u32(&mut head, next);
    BigEndian::write_u16(&mut head[4..], size);
    head
}

// Puts the bytes that count in front of zeros.
fn put_piece(body: &mut [u8], piece: &[u8])
    requires zeros { body.old ≡ replicate (length body.old) 0 }
    requires fits { length piece.now ≤ length body.old }
    ensures { body.new ≡ piece.now ++ replicate (length body.old - length piece.now) 0 }
{
    body[..piece.len()].copy_from_slice(piece);
}

// A page of a chain.
#[tactic(auto, unfolding(crate::specs::Inside::Link::link_bytes))]
pub(crate) fn link(next: u32, piece: &[u8]) -> PageImage
    requires { length piece.now ≤ piece_room }
    ensures { result.bytes ≡ link_bytes next piece.now }
{
    let mut bytes = [0; 4096];
    put_piece(&mut bytes[6..], piece);
    bytes[..6].copy_from_slice(&head_of(next, piece.len() as u16));
    PageImage { bytes }
}
