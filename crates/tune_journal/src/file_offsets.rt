// Where things stand in this archive's file.
ghost use Rattle.std.specs.Prelude.{◌≡◌, ◌≤◌};
ghost use Rattle.byteorder.specs.Endian.{big_bytes};
ghost use Rattle.tune_journal.specs.Image.{page_offset, entry_offset};
ghost use Rattle.tune_journal.specs.FileOffsets.{most_pages};

use byteorder::{BigEndian, ByteOrder};

// The bytes of a block, and of a page.
pub(crate) const BLOCK_BYTES: usize = 4096;

// The first bytes of a file.
pub(crate) const MAGIC: [u8; 8] = *b"ABCTUNE1";

pub(crate) const MAGIC_OFFSET: u64 = 0;

// The gate is one byte.
pub(crate) const GATE_OFFSET: u64 = 4096;

// The gate's one value that says that the log holds; every other value says that it does not.
pub(crate) const GATE_OPEN: u8 = 0xa7;

// What the gate is closed with.
pub(crate) const GATE_CLOSED: u8 = 0x00;

// The descriptor of the log: the page count that it leads to, and the number of its entries.
pub(crate) const DESCRIPTOR_OFFSET: u64 = 8192;

pub(crate) const ENTRY_COUNT_OFFSET: u64 = 8196;

// The page count.
pub(crate) const COUNT_OFFSET: u64 = 12_288;

// Page 0; the others follow.
pub(crate) const PAGES_OFFSET: u64 = 16_384;

// The bytes of an entry of the log: the number of a page, and its image.
pub(crate) const ENTRY_BYTES: usize = 4100;

// The length of a file with one page.
pub(crate) const LEAST_LENGTH: u64 = 20_480;

// The most pages of a file.
pub(crate) const MOST_PAGES: u32 = 4_000_000;

// Where a page stands.
pub(crate) fn page_offset(page: u32) -> u64
    ensures { result ≡ page_offset page }
{
    PAGES_OFFSET + BLOCK_BYTES as u64 * page as u64
}

// Where an entry of the log stands, which is behind `count` pages.
pub(crate) fn entry_offset(count: u32, entry: u32) -> u64
    requires { (count ≤ most_pages) × (entry ≤ most_pages) }
    ensures { result ≡ entry_offset count entry }
{
    page_offset(count) + ENTRY_BYTES as u64 * entry as u64
}

// A number as it stands in the file.
pub(crate) fn number_bytes(number: u32) -> [u8; 4]
    ensures { result ≡ big_bytes 4 number }
{
    let mut bytes = [0; 4];
    BigEndian::write_u32(&mut bytes, number);
    bytes
}
